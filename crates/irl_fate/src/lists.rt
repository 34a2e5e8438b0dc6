ghost use Rattle.std.specs.Prelude.{◌≡◌, ◌<◌, ◌≤◌, [], ℕ, length, drop, slice_set, slice_index_or, IfOk, OnOk, OnErr, vec_len};
ghost use Rattle.irl_offer.specs.declared.place.Place.{Place as PlaceValue};
ghost use Rattle.irl_events.specs.Events.{numbers_of};
ghost use Rattle.irl_base.specs.Lists.{items_of, list_at};
ghost use Rattle.irl_events.specs.Queues.{put as with_item, delivered, FitsSlot};

use irl_base::lists::{push_at, take_out};
use irl_offer::{Place, Slot};
use std::alloc::{AllocError, Global};

/// How many lists there are: 64 queues, and the last.
pub const LISTS: usize = 65;

/// The place of the last list.
pub const LAST: usize = 64;

// The same lists.
fn copies(alloc: Global, lists: &[Vec<u64>]) -> Result<Vec<Vec<u64>>, AllocError>
    requires { length lists.now ≡ 65 }
    ensures lists { IfOk result (λ copy. items_of copy.items ≡ items_of lists.now) }
    ensures len { IfOk result (λ copy. vec_len copy ≡ 65) }
{
    let mut copy = Vec::with_capacity(alloc, LISTS)?;
    for list in lists {
        copy.push(list.to_vec(alloc)?)?;
    }
    Ok(copy)
}

// Puts a number behind the others of the list that its slot names; none in front.
fn put(lists: &mut Vec<Vec<u64>>, number: u64, slot: Slot) -> Result<(), AllocError>
    requires len { vec_len lists.old ≡ 65 }
    requires slot { FitsSlot slot }
    ensures ok { OnOk result (items_of lists.new.items ≡ with_item (items_of lists.old.items) number slot) }
    ensures err { OnErr result (items_of lists.new.items ≡ items_of lists.old.items) }
    ensures len { vec_len lists.new ≡ 65 }
{
    match slot {
        Slot::Front => Ok(()),
        Slot::Queue(queue) => push_at(lists, queue as usize - 1, number),
        Slot::Last => push_at(lists, LAST, number),
    }
}

// Puts numbers behind the others of the lists that their slots name.
fn put_all(lists: &mut Vec<Vec<u64>>, places: &[Place]) -> Result<(), AllocError>
    requires len { vec_len lists.old ≡ 65 }
    requires slots { (i : ℕ) (d : PlaceValue) → i < length places.now → FitsSlot (slice_index_or places.now i d).slot }
    ensures ok { OnOk result (items_of lists.new.items
        ≡ delivered (items_of lists.old.items) (numbers_of places.now) places.now) }
    ensures len { vec_len lists.new ≡ 65 }
{
    for place in places {
        put(lists, place.number, place.slot)?;
    }
    Ok(())
}

/// A copy of lists with one emptied, and the numbers of places behind the others of the lists that their slots name.
pub fn delivered_copy(
    alloc: Global,
    lists: &[Vec<u64>],
    at: usize,
    places: &[Place],
) -> Result<Vec<Vec<u64>>, AllocError>
    requires len { length lists.now ≡ 65 }
    requires within { at < 65 }
    requires slots { (i : ℕ) (d : PlaceValue) → i < length places.now → FitsSlot (slice_index_or places.now i d).slot }
    ensures lists { IfOk result (λ copy. items_of copy.items
        ≡ delivered (slice_set (items_of lists.now) at []) (numbers_of places.now) places.now) }
    ensures len { IfOk result (λ copy. vec_len copy ≡ 65) }
{
    let mut copy = copies(alloc, lists)?;
    take_out(alloc, &mut copy, at);
    put_all(&mut copy, places)?;
    Ok(copy)
}

// The places behind so many.
fn behind(count: usize, places: &[Place]) -> &[Place]
    requires { count ≤ length places.now }
    ensures { result.now ≡ drop count places.now }
{
    &places[count..]
}

/// The places of a pass that aren't those of the queue that it reads, the list at this place: they are those of fresh numbers.
pub fn fresh_of<'a>(lists: &[Vec<u64>], at: usize, places: &'a [Place]) -> &'a [Place]
    requires within { at < length lists.now }
    requires long { length (list_at (items_of lists.now) at) ≤ length places.now }
    ensures { result.now ≡ drop (length (list_at (items_of lists.now) at)) places.now }
{
    behind(lists[at].len(), places)
}
