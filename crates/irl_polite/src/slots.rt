ghost use Rattle.std.specs.Prelude.{◌≡◌, ◌<◌, List, None, Some, IfOk, map, slice_get, slice_set, vec_len};
ghost use Rattle.std.specs.List.{All, AllZip};
ghost use Rattle.irl_polite.specs.Inside.{place_of, IsTable, IsResting, Grows, IsEntered, IsOwned, AreFirsts, AreNexts, bare_host, bare_slot};
ghost use Rattle.irl_key.specs.declared.web.Work.{Work};
ghost use Rattle.irl_polite.specs.declared.hosts.Host.{Host};
ghost use Rattle.irl_polite.specs.declared.slots.Slot.{Slot};

use crate::hosts::{Host, enter};
use irl_key::Work;
use std::alloc::{AllocError, Global};
use std::collections::BTreeMap;

/// An item of the last load.
#[derive(Drop)]
pub struct Slot {
    // The item, until it is answered.
    pub work: Option<Work>,
    // The place of its host.
    pub host: usize,
    // The place of its host's next item.
    pub next: Option<usize>,
}

/// Items with the places of their hosts.
pub fn slots_of(
    alloc: Global,
    names: &mut BTreeMap<Vec<u8>, usize>,
    hosts: &mut Vec<Host>,
    items: Vec<Work>,
) -> Result<Vec<Slot>, AllocError>
    requires table { IsTable (place_of names.old.entries) hosts.old.items }
    requires resting { All IsResting hosts.old.items }
    ensures entered { IfOk result (λ slots. AllZip (IsEntered (place_of names.new.entries)) items.items slots.items) }
    ensures grown { Grows (place_of names.old.entries) hosts.old.items (place_of names.new.entries) hosts.new.items }
{
    let mut slots = Vec::with_capacity(alloc, items.len())?;
    for work in items {
        let host = enter(alloc, names, hosts, work.web.host())?;
        let work = Some(work);
        slots.push(Slot {
            work,
            host,
            next: None,
        })?;
    }
    Ok(slots)
}

/// Tells each item the place of its host's next one, and each host that of its first. It takes no memory.
pub fn link(hosts: &mut Vec<Host>, slots: &mut Vec<Slot>)
    requires owned { All (IsOwned hosts.old.items) slots.old.items }
    requires resting { All IsResting hosts.old.items }
    ensures hosts { map bare_host hosts.new.items ≡ map bare_host hosts.old.items }
    ensures slots { map bare_slot slots.new.items ≡ map bare_slot slots.old.items }
    ensures firsts { AreFirsts hosts.new.items slots.new.items 0 }
    ensures nexts { AreNexts slots.new.items 0 }
{
    let mut at = slots.len();
    while 0 < at {
        at -= 1;
        link_one(hosts, slots, at);
    }
}

// Puts an item in front of its host's first one.
fn link_one(hosts: &mut Vec<Host>, slots: &mut Vec<Slot>, at: usize)
    requires { (slot : Slot) × (slice_get slots.old.items at ≡ Some slot) × (slot.host < vec_len hosts.old) }
    ensures { (slot : Slot) (owner : Host) → slice_get slots.old.items at ≡ Some slot →
        slice_get hosts.old.items slot.host ≡ Some owner →
        (slots.new.items ≡ slice_set slots.old.items at (record slot { next = owner.first }))
        × (hosts.new.items ≡ slice_set hosts.old.items slot.host (record owner { first = Some at })) }
{
    let place = slots[at].host;
    slots[at].next = hosts[place].first;
    hosts[place].first = Some(at);
}

/// Takes out an item that is left. It takes no memory.
pub fn taken(slots: &mut Vec<Slot>, at: usize) -> Work
    requires { (slot : Slot) × (work : Work) × (slice_get slots.old.items at ≡ Some slot) × (slot.work ≡ Some work) }
    ensures { (slot : Slot) → slice_get slots.old.items at ≡ Some slot →
        (slot.work ≡ Some result) × (slots.new.items ≡ slice_set slots.old.items at (record slot { work = None })) }
{
    slots[at].work.take().unwrap()
}
