ghost use Rattle.std.specs.Prelude.{◌≡◌, ◌<◌, [], length, slice_set, IfOk, OnOk, OnErr, vec_len};
ghost use Rattle.std.specs.Prelude.{map as list_map};
ghost use Rattle.irl_base.specs.Lists.{items_of, with_one};
ghost use Rattle.irl_events.specs.Queues.{put as with_item, FitsSlot};

use crate::Item;
use irl_base::lists::{lengths, push_at};
use irl_offer::Slot;
use std::alloc::{AllocError, Global};

/// How many lists there are: 64 queues, and the last.
pub const LISTS: usize = 65;

/// The number of the last list.
pub const LAST: usize = 64;

// Puts a copy of an item behind the others of a list.
fn push_copy(
    alloc: Global,
    lists: &mut Vec<Vec<Item>>,
    at: usize,
    item: &Item,
) -> Result<(), AllocError>
    requires { at < vec_len lists.old }
    ensures ok { OnOk result (items_of lists.new.items ≡ with_one (items_of lists.old.items) at item.now) }
    ensures err { OnErr result (items_of lists.new.items ≡ items_of lists.old.items) }
    ensures len { vec_len lists.new ≡ vec_len lists.old }
{
    let copy = Item {
        number: item.number,
        pld: item.pld.copy(alloc)?,
    };
    push_at(lists, at, copy)?;
    Ok(())
}

/// Puts a copy of an item behind the others of the list that its slot names; none in front.
pub fn put(
    alloc: Global,
    lists: &mut Vec<Vec<Item>>,
    item: &Item,
    slot: Slot,
) -> Result<(), AllocError>
    requires len { vec_len lists.old ≡ 65 }
    requires slot { FitsSlot slot }
    ensures ok { OnOk result (items_of lists.new.items ≡ with_item (items_of lists.old.items) item.now slot) }
    ensures err { OnErr result (items_of lists.new.items ≡ items_of lists.old.items) }
    ensures len { vec_len lists.new ≡ 65 }
{
    match slot {
        Slot::Front => Ok(()),
        Slot::Queue(number) => push_copy(alloc, lists, number as usize - 1, item),
        Slot::Last => push_copy(alloc, lists, LAST, item),
    }
}

/// The lengths that the lists have once this one is emptied.
pub fn lengths_without(
    alloc: Global,
    lists: &[Vec<Item>],
    at: usize,
) -> Result<Vec<usize>, AllocError>
    requires { at < length lists.now }
    ensures lengths { IfOk result (λ lengths. lengths.items ≡ list_map length (slice_set (items_of lists.now) at [])) }
    ensures len { IfOk result (λ lengths. vec_len lengths ≡ length lists.now) }
{
    let mut lengths = lengths(alloc, lists)?;
    lengths[at] = 0;
    Ok(lengths)
}
