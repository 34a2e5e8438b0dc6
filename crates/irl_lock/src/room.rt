ghost use Rattle.std.specs.Prelude.{◌≡◌, ◌≤◌, ◌<◌, ◌^◌, ◌∷◌, [], length, None, Some, Result};
ghost use Rattle.irl_bay.specs.Drum.{durable_at};
ghost use Rattle.irl_schedule.specs.Feeding.{IsArrayOf};
ghost use Rattle.irl_yard.specs.Holding.{IsSound};
ghost use Rattle.irl_desk.specs.Closing.{last_after};
ghost use Rattle.irl_lock.specs.Books.{buckets_of};
ghost use Rattle.irl_lock.specs.Plays.{end_of, with_known, with_last};
ghost use Rattle.irl_lock.specs.Seats.{GivesRoom, HasRefilled, IsOn, MayRefill, Refills};
ghost use Rattle.irl_lock.specs.declared.held.Held.TheVariants.{InBin as InBinHeld, InYard as InYardHeld};

use crate::held::{Bin, Held, Stand};
use crate::rule::{Note, Token, Turns};
use crate::turns::give_back;
use irl_array::Array;
use irl_disk::Store;
use irl_offer::Fault;
use irl_yard::Yard;

/// Makes room for an offer of a bucket, where its array is full or no number is left. After the fault by which the
/// store stopped nothing is done, and it is answered again; a fault but want of memory stops it.
pub fn refill<S: Store>(stand: &mut Stand<S>, b: u32, bin: &mut Bin) -> Result<(), Fault>
    requires may { MayRefill b bin.old stand.old }
    requires none_left { length bin.old.array.items < stand.old.yard.parts.urls.settings.array →
        2 ^ 64 ≤ end_of bin.old }
    ensures { Refills result b bin.old bin.new stand.old stand.new }
{
    if let Some(fault) = stand.last {
        return Err(fault);
    }
    let made = room_behind(&mut stand.yard, b, bin);
    stand.last = kept(made);
    made
}

// Makes room in a bucket's bin, where it has none, in front of an open store.
fn room_behind<S: Store>(yard: &mut Yard<S>, b: u32, bin: &mut Bin) -> Result<(), Fault>
    requires sound { IsSound yard.old.parts }
    requires bucket { b < buckets_of yard.old }
    requires array_is { IsArrayOf yard.old.parts.urls.settings b bin.old.array }
    requires first_is { bin.old.first ≡ durable_at yard.old.parts.urls b }
    requires none_left { length bin.old.array.items < yard.old.parts.urls.settings.array →
        2 ^ 64 ≤ end_of bin.old }
    ensures room { GivesRoom result b bin.old.array bin.new.array yard.old yard.new }
    ensures first { bin.new.first ≡ durable_at yard.new.parts.urls b }
{
    if !bin.array.is_full() {
        return no_number(yard, b, bin);
    }
    let made = make_room(yard, b, &mut bin.array);
    bin.first = yard.durable(b);
    made
}

// The answer where a bucket has no number left.
fn no_number<S: Store>(yard: &Yard<S>, b: u32, bin: &Bin) -> Result<(), Fault>
    requires sound { IsSound yard.now.parts }
    requires bucket { b < buckets_of yard.now }
    requires array_is { IsArrayOf yard.now.parts.urls.settings b bin.now.array }
    requires first_is { bin.now.first ≡ durable_at yard.now.parts.urls b }
    requires none_left { (length bin.now.array.items < yard.now.parts.urls.settings.array)
        × (2 ^ 64 ≤ end_of bin.now) }
    ensures { GivesRoom result b bin.now.array bin.now.array yard.now yard.now }
{
    let _is_sound = yard.is_sound();
    let _settings = yard.settings();
    let _durable = yard.durable(b);
    Err(Fault::Full(b))
}

// Makes room in a full array of an open store: a merge that is due runs first.
fn make_room<S: Store>(yard: &mut Yard<S>, b: u32, array: &mut Array) -> Result<(), Fault>
    requires sound { IsSound yard.old.parts }
    requires bucket { b < buckets_of yard.old }
    requires array_is { IsArrayOf yard.old.parts.urls.settings b array.old }
    ensures { GivesRoom result b array.old array.new yard.old yard.new }
{
    let _is_sound = yard.is_sound();
    yard.merge_if_due()?;
    yard.make_room(b, array)
}

// The fault by which a store stops that went on until this answer: want of memory doesn't stop it.
fn kept(made: Result<(), Fault>) -> Option<Fault>
    ensures { result ≡ last_after None made }
{
    match made {
        Ok(()) | Err(Fault::Memory) => None,
        Err(fault) => Some(fault),
    }
}

/// Keeps what the store and a bin are now, gives the store's turn back, and hands the bin out again.
pub fn note<S: Store>(
    turns: &Turns<S>,
    token: &mut Token<S>,
    last: usize,
    b: usize,
    stand: Stand<S>,
    bin: Bin,
) -> Bin
    requires own { IsOn turns.now.table_id turns.now.key.value token.old.table_id token.old.me.0 }
    requires places { (last ≡ buckets_of turns.now.key.value) × (b < last) }
    requires refilled { HasRefilled last b bin stand token.old.me.0 }
    requires out { token.old.me.1 ≡ (last, None) ∷ (b, None) ∷ [] }
    ensures own { IsOn turns.now.table_id turns.now.key.value token.new.table_id token.new.me.0 }
    ensures same { result ≡ bin }
    ensures noted { token.new.me ≡ (
      with_known ((b, Held.InBin bin) ∷ []) (with_last stand.last token.old.me.0.known)
          token.old.me.0,
      (b, None) ∷ [],
    ) }
{
    put_both(turns, token, last, b, stand, bin);
    turns.load::<Note>(token, last);
    give_back(turns, token, last);
    let taken = turns.exchange(token, b, None);
    let Some(Held::InBin(bin)) = taken else {
        unreachable!()
    };
    bin
}

// Puts the store and a bin back into their slots, which the seat still has.
fn put_both<S: Store>(
    turns: &Turns<S>,
    token: &mut Token<S>,
    last: usize,
    b: usize,
    stand: Stand<S>,
    bin: Bin,
)
    requires own { token.old.table_id ≡ turns.now.table_id }
    requires out { token.old.me.1 ≡ (last, None) ∷ (b, None) ∷ [] }
    ensures own { token.new.table_id ≡ token.old.table_id }
    ensures view { token.new.me.0 ≡ token.old.me.0 }
    ensures put { token.new.me.1 ≡ (last, Some (Held.InYard stand)) ∷ (b, Some (Held.InBin bin)) ∷ [] }
{
    let empty = turns.exchange(token, last, Some(Held::InYard(stand)));
    let None = empty else { unreachable!() };
    token.turn();
    let empty = turns.exchange(token, b, Some(Held::InBin(bin)));
    let None = empty else { unreachable!() };
    token.turn();
}
