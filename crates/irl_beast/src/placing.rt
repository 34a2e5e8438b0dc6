ghost use Rattle.std.specs.Prelude.{◌≡◌, ◌<◌, ◌≤◌, ◌+◌, ◌++◌, length, slice_get, IfOk, vec_len};
ghost use Rattle.irl_base.specs.Lists.{items_of};
ghost use Rattle.irl_events.specs.Queues.{delivered, empty_lists, FitsSlot};
ghost use Rattle.irl_beast.specs.Places.{slot_at, place};

use crate::Item;
use crate::counts::counted;
use crate::lists::{LISTS, put};
use irl_base::lists;
use irl_offer::{Place, Purse, Slot};
use std::alloc::{AllocError, Global};
use std::collections::BTreeMap;

/// The slot of an item that so many whole budgets of its domain stand before.
fn slot_of(passes: u32, queues: u32, step: u64) -> Slot
    requires round { passes < queues }
    requires most { queues ≤ 64 }
    ensures value { result ≡ slot_at passes queues step }
    ensures fits { FitsSlot result }
{
    if step == 0 {
        return Slot::Front;
    }
    if step < u64::from(queues - passes) {
        return Slot::Queue(passes + 1 + step as u32);
    }
    Slot::Last
}

/// What items that are read get: their places, and copies of them in empty lists.
#[derive(Drop)]
pub struct Placement {
    pub places: Vec<Place>,
    pub more: Vec<Vec<Item>>,
}

// One of a queue's items and the fresh items behind them.
fn item_at<'a>(queue: &'a [Item], fresh: &'a [Item], i: usize) -> &'a Item
    requires { i < length queue.now + length fresh.now }
    ensures { slice_get (queue.now ++ fresh.now) i ≡ Some result.now }
{
    if i < queue.len() {
        return &queue[i];
    }
    &fresh[i - queue.len()]
}

/// The places of a queue's items and of the fresh items behind them, and copies of these in empty lists.
pub fn placed<B: Purse>(
    alloc: Global,
    queue: &[Item],
    fresh: &[Item],
    passes: u32,
    queues: u32,
    purse: &B,
) -> Result<Placement, AllocError>
    requires round { passes < queues }
    requires most { queues ≤ 64 }
    ensures places { IfOk result (λ placed. placed.places.items
        ≡ place passes queues (B.budgets purse.now) (queue.now ++ fresh.now)) }
    ensures more { IfOk result (λ placed. items_of placed.more.items ≡ delivered empty_lists (queue.now ++ fresh.now)
        (place passes queues (B.budgets purse.now) (queue.now ++ fresh.now))) }
    ensures len { IfOk result (λ placed. vec_len placed.more ≡ 65) }
{
    let count = queue.len() + fresh.len();
    let mut counts = BTreeMap::new(alloc);
    let mut places = Vec::with_capacity(alloc, count)?;
    let mut more = lists::empty_lists(alloc, LISTS)?;
    for i in 0..count {
        let item = item_at(queue, fresh, i);
        let earlier = counted(alloc, &mut counts, item.pld.bytes())?;
        let step = earlier / u64::from(purse.budget(item.pld.bytes()));
        let slot = slot_of(passes, queues, step);
        put(alloc, &mut more, item, slot)?;
        places.push(Place {
            number: item.number,
            slot,
        })?;
    }
    Ok(Placement { places, more })
}
