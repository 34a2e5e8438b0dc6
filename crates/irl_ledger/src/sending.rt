//! The pairs of the links that judged URLs show, which are sent to the bay of pairs.

ghost use Rattle.std.specs.Prelude.{◌≡◌, ◌+◌, ◌*◌, ◌≤◌, ◌<◌, ◌^◌, ◌∷◌, ℕ, [], true, length, nat_eq, if◌then◌else◌, is_some, unwrap_or, IfOk, IsErrOf, IsOk};
ghost use Rattle.std.specs.Option.{ForSome};
ghost use Rattle.irl_key.specs.Key.{key_of as key};
ghost use Rattle.irl_key.specs.Links.{IsCanonicalText};
ghost use Rattle.irl_bay.specs.Holding.{IsLong};
ghost use Rattle.irl_bay.specs.JudgedParts.{as_judged};
ghost use Rattle.irl_events.specs.Links.{pair_offer as pair_offer_of};
ghost use Rattle.irl_layout.specs.BayFiles.{file_of};
ghost use Rattle.irl_layout.specs.declared.files.BayFile.TheVariants.{Judged as JudgedFile};
ghost use Rattle.irl_head.specs.StoreFiles.{urls_base};
ghost use Rattle.irl_base.specs.Limits.{max_text};
ghost use Rattle.irl_frontier.specs.Frontier.{after_other};
ghost use Rattle.irl_ledger.specs.Adding.{AddsToLog};
ghost use Rattle.irl_ledger.specs.Holding.{FitsBays};
ghost use Rattle.irl_schedule.specs.Arrays.{AreArrays, waiting_at};
ghost use Rattle.irl_ledger.specs.Running.{HandsIn};
ghost use Rattle.irl_ledger.specs.Sending.{IsStrangeIn, MayReadUrls, OffersPairs, OffersPiece, links_of, option_items, pairs_event};

use crate::Ledger;
use crate::domains::domain_of_url;
use crate::feeding::{finish, hand_in};
use irl_array::Array;
use irl_bay::{Bay, JudgedPart, JudgedRef};
use irl_disk::Store;
use irl_events::Event;
use irl_head::URLS_BASE;
use irl_key::key_of;
use irl_layout::BayFile;
use irl_offer::{Fault, Offer, Op, Text};
use irl_pld::Suffixes;
use irl_schedule::arrays_of;
use std::alloc::{AllocError, Global};

// How many judged offers are read in one piece.
const PIECE: u32 = 4096;

impl Ledger {
    /// Offers the bay of pairs the links of the URLs that were judged since pairs were last sent, each once and in
    /// order, and judges all that it has then. After a refusal some may be offered.
    pub fn offer_pairs<S: Store>(&mut self, store: &mut S, urls: &Bay) -> Result<(), Fault>
        requires begun { is_some self.old.suffixes ≡ true }
        requires sent { self.old.frontier.progress.sent ≤ urls.now.last.judged }
        requires urls { MayReadUrls urls.now self.old.pairs (S.told store.old).files }
        requires sound { self.old.pairs.is_sound ≡ true }
        requires long { ForSome (S.told store.old).files (λ files. IsLong self.old.pairs files) }
        ensures offers { OffersPairs result (unwrap_or self.old.suffixes []) self.old.frontier.progress.sent
            urls.now self.old.pairs self.new.pairs (S.told store.old) (S.told store.new) }
        ensures others { self.new ≡ record self.old { pairs = self.new.pairs } }
    {
        let from = self.frontier.sent();
        match &self.suffixes {
            Some(suffixes) => {
                offer_links(self.alloc, &mut self.pairs, store, suffixes, urls, from)
            }
            None => unreachable!(),
        }
    }

    /// Adds to the log that the pairs of all cuts of the URLs are sent, which is the last step of sending them. Where
    /// they were sent before, by as many cuts, nothing changes.
    pub fn log_pairs<S: Store>(&mut self, store: &mut S, urls: &Bay) -> Result<(), Fault>
        requires sound { self.old.log.journal.is_sound ≡ true }
        requires place { ForSome (S.told store.old).files (λ files.
            self.old.log.journal.end < length (files self.old.log.journal.file)) }
        requires begun { self.old.frontier.progress.begun ≡ true }
        requires fits { FitsBays urls.now self.old.pairs self.old.frontier }
        ensures idle { self.old.frontier.progress.cuts ≡ urls.now.cuts →
            IsOk result × (self.new ≡ self.old) × (store.new ≡ store.old) }
        ensures adds { (self.old.frontier.progress.cuts ≡ urls.now.cuts → ⊥) → AddsToLog S.told result
            (pairs_event urls.now self.old.pairs) (after_other self.old.frontier (pairs_event urls.now self.old.pairs))
            self.old.suffixes self.old self.new store.old store.new }
    {
        if self.frontier.cuts() == urls.cuts() {
            return Ok(());
        }
        let event = Event::Pairs {
            cuts: urls.cuts(),
            judged: urls.judged_len(),
            pairs: self.pairs.judged_len(),
        };
        self.add(store, event)
    }
}

// The pair offer of a judged URL with this number that links two domains, and none of another. A text that isn't
// canonical is damage.
fn link_of(
    alloc: Global,
    suffixes: &Suffixes,
    one: &JudgedRef,
    number: u64,
) -> Result<Option<Offer>, Fault>
    requires { 48 * number < 2 ^ 64 }
    ensures value { IfOk result (λ found. option_items found ≡ links_of suffixes.now (as_judged one.now ∷ [])) }
    ensures damaged { (f at : ℕ) → IsErrOf result (Fault.Damaged f at) → (f ≡ file_of urls_base 0 JudgedFile)
        × (at ≡ 48 * number) × (IsCanonicalText one.now.aux.now → ⊥) }
    ensures full { (n : ℕ) → IsErrOf result (Fault.Full n) → ⊥ }
    ensures failed { IsErrOf result Fault.Failed → ⊥ }
{
    if one.from == 0 {
        return Ok(None);
    }
    match domain_of_url(alloc, suffixes, one.aux)? {
        Some(target) => Ok(pair_of(alloc, one.from, target)?),
        None => {
            let file = BayFile::Judged.number(URLS_BASE);
            Err(Fault::Damaged(file, 48 * number))
        }
    }
}

// The pair of domains that a link joins, the first by its key, if they differ.
fn pair_of(alloc: Global, source: u64, target: Text) -> Result<Option<Offer>, AllocError>
    requires { length target ≤ max_text }
    ensures { IfOk result (λ found. option_items found
        ≡ (if nat_eq source (key target) then [] else pair_offer_of key source target ∷ [])) }
{
    if source == key_of(target.bytes()) {
        return Ok(None);
    }
    let mut text = source.to_be_bytes().to_vec(alloc)?;
    text.extend_from_slice(target.bytes())?;
    Ok(Some(Offer {
        op: Op::Both,
        key: key_of(&text),
        value: 0,
        from: 0,
        aux: target,
    }))
}

// Hands in the links of a part of the judged offers, the first of which has this number.
fn offer_part<S: Store>(
    alloc: Global,
    pairs: &mut Bay,
    store: &mut S,
    suffixes: &Suffixes,
    arrays: &mut [Array],
    part: &JudgedPart,
    from: u64,
) -> Result<(), Fault>
    requires numbers { 48 * (from + length part.now) < 2 ^ 64 }
    requires sound { pairs.old.is_sound ≡ true }
    requires long { ForSome (S.told store.old).files (λ files. IsLong pairs.old files) }
    requires arrays { AreArrays pairs.old.settings arrays.old }
    ensures { HandsIn result (IsStrangeIn from part.now) (links_of suffixes.now part.now) arrays.old arrays.new
        pairs.old pairs.new (S.told store.old) (S.told store.new) }
{
    let _is_sound = pairs.is_sound();
    for i in 0..part.len() {
        offer_one(
            alloc,
            pairs,
            store,
            suffixes,
            arrays,
            &part.get(i),
            from + i as u64,
        )?;
    }
    Ok(())
}

// Hands in the link of a judged offer with this number, if it links two domains.
fn offer_one<S: Store>(
    alloc: Global,
    pairs: &mut Bay,
    store: &mut S,
    suffixes: &Suffixes,
    arrays: &mut [Array],
    one: &JudgedRef,
    number: u64,
) -> Result<(), Fault>
    requires number { 48 * number < 2 ^ 64 }
    requires sound { pairs.old.is_sound ≡ true }
    requires long { ForSome (S.told store.old).files (λ files. IsLong pairs.old files) }
    requires arrays { AreArrays pairs.old.settings arrays.old }
    ensures { HandsIn result (IsStrangeIn number (as_judged one.now ∷ []))
        (links_of suffixes.now (as_judged one.now ∷ [])) arrays.old arrays.new pairs.old pairs.new
        (S.told store.old) (S.told store.new) }
{
    let _is_sound = pairs.is_sound();
    match link_of(alloc, suffixes, one, number)? {
        Some(link) => hand_in(pairs, store, arrays, link),
        None => Ok(()),
    }
}

// Reads one piece of the judged URLs, from a place on, and hands in its links. Tells where it ends.
fn offer_piece<S: Store>(
    alloc: Global,
    pairs: &mut Bay,
    store: &mut S,
    suffixes: &Suffixes,
    arrays: &mut [Array],
    urls: &Bay,
    from: u64,
) -> Result<u64, Fault>
    requires some { from < urls.now.last.judged }
    requires urls { MayReadUrls urls.now pairs.old (S.told store.old).files }
    requires sound { pairs.old.is_sound ≡ true }
    requires long { ForSome (S.told store.old).files (λ files. IsLong pairs.old files) }
    requires arrays { AreArrays pairs.old.settings arrays.old }
    ensures end { IfOk result (λ end. (from < end) × (end ≤ urls.now.last.judged)) }
    ensures offers { OffersPiece result suffixes.now from urls.now arrays.old arrays.new pairs.old pairs.new
        (S.told store.old) (S.told store.new) }
{
    let (_is_drum, _is_sound) = (urls.is_sound(), pairs.is_sound());
    let part = urls.judged_from(store, from, PIECE)?;
    offer_part(alloc, pairs, store, suffixes, arrays, &part, from)?;
    Ok(from + part.len() as u64)
}

// Hands in the links of all judged URLs from a place on, and ends it.
fn offer_links<S: Store>(
    alloc: Global,
    pairs: &mut Bay,
    store: &mut S,
    suffixes: &Suffixes,
    urls: &Bay,
    from: u64,
) -> Result<(), Fault>
    requires from { from ≤ urls.now.last.judged }
    requires urls { MayReadUrls urls.now pairs.old (S.told store.old).files }
    requires sound { pairs.old.is_sound ≡ true }
    requires long { ForSome (S.told store.old).files (λ files. IsLong pairs.old files) }
    ensures { OffersPairs result suffixes.now from urls.now pairs.old pairs.new
        (S.told store.old) (S.told store.new) }
{
    let _is_sound = pairs.is_sound();
    let mut arrays = arrays_of(alloc, &pairs.settings())?;
    offer_all(alloc, pairs, store, suffixes, &mut arrays, urls, from)
}

// The same through these arrays, which are empty: one piece after the other.
fn offer_all<S: Store>(
    alloc: Global,
    pairs: &mut Bay,
    store: &mut S,
    suffixes: &Suffixes,
    arrays: &mut [Array],
    urls: &Bay,
    from: u64,
) -> Result<(), Fault>
    requires from { from ≤ urls.now.last.judged }
    requires urls { MayReadUrls urls.now pairs.old (S.told store.old).files }
    requires sound { pairs.old.is_sound ≡ true }
    requires long { ForSome (S.told store.old).files (λ files. IsLong pairs.old files) }
    requires arrays { AreArrays pairs.old.settings arrays.old }
    requires empty { (b : ℕ) → waiting_at arrays.old b ≡ [] }
    ensures { OffersPairs result suffixes.now from urls.now pairs.old pairs.new
        (S.told store.old) (S.told store.new) }
{
    let (_is_drum, _is_sound) = (urls.is_sound(), pairs.is_sound());
    let mut at = from;
    while at < urls.judged_len() {
        at = offer_piece(alloc, pairs, store, suffixes, arrays, urls, at)?;
    }
    finish(pairs, store, arrays)
}
