ghost use Rattle.std.specs.Prelude.{◌≡◌, ◌↔◌, ◌≤◌, ◌<◌, ◌+◌, ◌^◌, ◌∷◌, [], length, true, None};
ghost use Rattle.atomic_table.specs.Table.{rest};
ghost use Rattle.irl_offer.specs.Buckets.{bucket_of as bucket_of_key};
ghost use Rattle.irl_offer.specs.Offering.{IsTakenBy};
ghost use Rattle.irl_key.specs.Links.{IsCanonicalText};
ghost use Rattle.irl_lock.specs.Books.{buckets_of};
ghost use Rattle.irl_schedule.specs.Feeding.{IsArrayOf};
ghost use Rattle.irl_lock.specs.Plays.{end_of, pushed, with_entry, with_known, with_last, with_turns};
ghost use Rattle.irl_desk.specs.Closing.{last_after};
ghost use Rattle.irl_lock.specs.Seats.{IsOn};
ghost use Rattle.irl_lock.specs.declared.held.Held.TheVariants.{InBin as InBinHeld, InYard as InYardHeld};
ghost use Rattle.irl_lock.specs.Sharing.{IsFree, IsOf, MayPush, MayPut, OffersOne, Pushes, Puts, opening_of};

use crate::held::{Bin, Held};
use crate::room::{note, refill};
use crate::rule::{Count, Says, Token, Turns};
use crate::shared::Shared;
use crate::turns::{claim, release};
use irl_disk::Store;
use irl_offer::{Fault, Offer, Receipt, bucket_of};
use std::marker::Brand;
use std::sync::Wait;

/// One fetcher's way into a store that others use at the same time.
///
/// Contracts see what it was given receipts for, each with its offer, and the last fault but want of memory that it was
/// answered.
#[derive(Drop)]
pub struct Pass<S: Store> {
    pub(crate) token: Token<S>,
    // A turn's word is this and 1 where the pass holds the turn.
    pub(crate) number: u64,
    pub(crate) last: Option<Fault>,
}

impl<S: Store> Pass<S> {
    /// The last fault but want of memory that was answered, if there was one.
    pub fn last_fault(&self) -> Option<Fault>
        ensures { result ≡ self.now.last }
    {
        self.last
    }

    /// What an offer does under its bucket's turn: it is counted and put behind those that wait. It is handed back
    /// exactly where the bucket's array is full. It takes no memory.
    pub fn push(
        &mut self,
        shared: &Shared<S>,
        bin: &mut Bin,
        offer: Offer,
    ) -> Result<Receipt, Offer>
        requires may { MayPush shared.now self.old bin.old offer }
        ensures pushes { Pushes result shared.now self.old self.new bin.old bin.new offer }
    {
        if bin.array.is_full() {
            return Err(offer);
        }
        let b = bucket_of(offer.key, shared.buckets);
        let number = count::<S, Brand>(
            &shared.table.shared,
            &mut self.token,
            shared.buckets,
            b,
            bin,
            &offer,
        );
        bin.array.push(offer);
        Ok(Receipt { bucket: b, number })
    }

    /// Puts an offer into the store, and answers where it stands. A refusal hands it back, and nothing was put in. It
    /// may wait for other passes.
    ///
    /// With room in the bucket's array it is a push. A full array is flushed before, under the store's turn too: a
    /// merge that is due runs before the flush, and one that is due then behind it, while other passes go on pushing.
    /// A fault but want of memory stops the store: from then on whoever needs room is answered it.
    pub fn offer<R: Wait>(
        &mut self,
        rt: &R,
        shared: &Shared<S>,
        offer: Offer,
    ) -> Result<Receipt, (Fault, Offer)>
        requires own { IsOf shared.now self.old }
        requires free { IsFree self.old }
        requires taken { IsTakenBy IsCanonicalText (opening_of shared.now).parts.urls.settings.kind offer }
        ensures own { IsOf shared.now self.new }
        ensures free { IsFree self.new }
        ensures offers { OffersOne result offer self.old self.new }
    {
        let b = bucket_of(offer.key, shared.buckets);
        let mut bin = self.claim_bin(rt, shared, b);
        let mut offer = offer;
        for _ in rt.forever() {
            match self.put(shared, &mut bin, offer) {
                Ok(receipt) => {
                    self.release_bin(shared, b, bin);
                    return Ok(receipt);
                }
                Err(back) => offer = back,
            }
            let (made, back) = self.make_room(rt, shared, b, bin);
            bin = back;
            if let Err(fault) = made {
                self.release_bin(shared, b, bin);
                return Err((fault, offer));
            }
        }
        unreachable!()
    }

    // Pushes an offer, where a number is left.
    fn put(&mut self, shared: &Shared<S>, bin: &mut Bin, offer: Offer) -> Result<Receipt, Offer>
        requires may { MayPut shared.now self.old bin.old offer }
        ensures puts { Puts result shared.now self.old self.new bin.old bin.new offer }
    {
        if has_number(bin) {
            self.push(shared, bin, offer)
        } else {
            Err(offer)
        }
    }

    // Waits for the turn of a bucket, and takes its bin.
    fn claim_bin<R: Wait>(&mut self, rt: &R, shared: &Shared<S>, b: u32) -> Bin
        requires own { IsOf shared.now self.old }
        requires free { IsFree self.old }
        requires bucket { b < buckets_of (opening_of shared.now) }
        ensures own { IsOf shared.now self.new }
        ensures others { (self.new.number ≡ self.old.number) × (self.new.last ≡ self.old.last) }
        ensures holds { self.new.token.me ≡ (
          with_turns ((b, Held.InBin result) ∷ []) self.old.token.me.0,
          (b, None) ∷ [],
        ) }
        ensures array { IsArrayOf (opening_of shared.now).parts.urls.settings b result.array }
    {
        let held = claim(
            rt,
            &shared.table.shared,
            &mut self.token,
            b as usize,
            self.number,
        );
        let Held::InBin(bin) = held else {
            unreachable!()
        };
        bin
    }

    // Gives the turn of a bucket back, with its bin.
    fn release_bin(&mut self, shared: &Shared<S>, b: u32, bin: Bin)
        requires own { IsOf shared.now self.old }
        requires bucket { b < buckets_of (opening_of shared.now) }
        requires holds { (self.old.token.me.0.turns ≡ (b, Held.InBin bin) ∷ [])
            × (self.old.token.me.1 ≡ (b, None) ∷ []) }
        ensures own { IsOf shared.now self.new }
        ensures others { (self.new.number ≡ self.old.number) × (self.new.last ≡ self.old.last) }
        ensures free { self.new.token.me ≡ (with_turns [] self.old.token.me.0, []) }
    {
        release(
            &shared.table.shared,
            &mut self.token,
            b as usize,
            Held::InBin(bin),
        );
    }

    // Makes room in a bucket's array, under its turn and the store's.
    fn make_room<R: Wait>(
        &mut self,
        rt: &R,
        shared: &Shared<S>,
        b: u32,
        bin: Bin,
    ) -> (Result<(), Fault>, Bin)
        requires own { IsOf shared.now self.old }
        requires bucket { b < buckets_of (opening_of shared.now) }
        requires holds { (self.old.token.me.0.turns ≡ (b, Held.InBin bin) ∷ [])
            × (self.old.token.me.1 ≡ (b, None) ∷ []) }
        requires last { self.old.last ≡ self.old.token.me.0.known.mine.last }
        requires array { IsArrayOf (opening_of shared.now).parts.urls.settings b bin.array }
        requires none_left { length bin.array.items < (opening_of shared.now).parts.urls.settings.array →
            2 ^ 64 ≤ end_of bin }
        ensures own { IsOf shared.now self.new }
        ensures holds { self.new.token.me ≡ (
          with_known ((b, Held.InBin result.1) ∷ [])
              (with_last self.new.last self.old.token.me.0.known) self.old.token.me.0,
          (b, None) ∷ [],
        ) }
        ensures last { self.new.last ≡ last_after self.old.last result.0 }
        ensures array { IsArrayOf (opening_of shared.now).parts.urls.settings b result.1.array }
    {
        let last = shared.buckets as usize;
        let held = claim(rt, &shared.table.shared, &mut self.token, last, self.number);
        let Held::InYard(stand) = held else {
            unreachable!()
        };
        let mut stand = stand;
        let mut bin = bin;
        let made = refill(&mut stand, b, &mut bin);
        self.last = stand.last;
        let bin = note(
            &shared.table.shared,
            &mut self.token,
            last,
            b as usize,
            stand,
            bin,
        );
        (made, bin)
    }
}

// Whether a number is left for an offer behind a bin's.
fn has_number(bin: &Bin) -> bool
    ensures { (result ≡ true) ↔ (end_of bin.now < 2 ^ 64) }
{
    bin.first.checked_add(u64::from(bin.array.len())).is_some()
}

/// Counts an offer of a bucket, under the bucket's turn. It gets the number behind the bin's offers.
pub fn count<S: Store, J: Says>(
    turns: &Turns<S>,
    token: &mut Token<S>,
    buckets: u32,
    b: u32,
    bin: &Bin,
    offer: &Offer,
) -> u64
    requires own { IsOn turns.now.table_id turns.now.key.value token.old.table_id token.old.me.0 }
    requires place { (buckets ≡ buckets_of turns.now.key.value) × (b < buckets)
        × (bucket_of_key buckets offer.now.key ≡ b) }
    requires says { (J.bucket ≡ b) × (J.offer ≡ offer.now) }
    requires turn { token.old.me.0.turns ≡ (b, Held.InBin bin.now) ∷ rest token.old.me.0.turns }
    requires array { IsArrayOf turns.now.key.value.parts.urls.settings b bin.now.array }
    requires room { length bin.now.array.items < turns.now.key.value.parts.urls.settings.array }
    requires number { end_of bin.now < 2 ^ 64 }
    requires taken { IsTakenBy IsCanonicalText turns.now.key.value.parts.urls.settings.kind offer.now }
    ensures own { IsOn turns.now.table_id turns.now.key.value token.new.table_id token.new.me.0 }
    ensures number { result ≡ end_of bin.now }
    ensures counted { token.new.me ≡ (
      with_known ((b, Held.InBin (pushed bin.now offer.now)) ∷ rest token.old.me.0.turns)
          (with_entry b result offer.now token.old.me.0.known) token.old.me.0,
      token.old.me.1,
    ) }
{
    let _ = bin;
    let _ = offer;
    let word = buckets as usize + 1 + b as usize;
    turns.fetch_add::<Count<J>>(token, word, 1)
}
