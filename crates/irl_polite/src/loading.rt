ghost use Rattle.std.specs.Prelude.{◌≡◌, ◌≤◌, [], length, map, IfOk, OnOk};
ghost use Rattle.std.specs.List.{All};
ghost use Rattle.std.specs.BinaryHeap.{heap_items, heap_capacity, IsHeap};
ghost use Rattle.irl_polite.specs.Inside.{place_of, turn_cmp, IsTable, IsResting, Grows, IsPrepared, IsPlaced, IsOwned, IsCommitted, AreFirsts, AreNexts, AreTurns, bare_slot};

use crate::hosts::{Host, note_all, read_all};
use crate::known::Known;
use crate::slots::{Slot, link, slots_of};
use crate::turns::begin;
use irl_key::Work;
use irl_offer::Note;
use std::alloc::{AllocError, Global};
use std::cmp::Reverse;
use std::collections::{BTreeMap, BinaryHeap};

/// Enters the hosts of items and notes, reads the notes, and makes room for the turns: all the memory that a load takes.
pub fn prepare(
    alloc: Global,
    names: &mut BTreeMap<Vec<u8>, usize>,
    hosts: &mut Vec<Host>,
    turns: &mut BinaryHeap<Reverse<(u64, usize)>>,
    items: Vec<Work>,
    notes: Vec<Note>,
    agent: &[u8],
) -> Result<(Vec<Slot>, Vec<(usize, Known)>), AllocError>
    requires table { IsTable (place_of names.old.entries) hosts.old.items }
    requires resting { All IsResting hosts.old.items }
    ensures prepared { IfOk result (λ made.
        IsPrepared (place_of names.new.entries) agent.now items.items notes.items made.0.items made.1.items) }
    ensures grown { Grows (place_of names.old.entries) hosts.old.items (place_of names.new.entries) hosts.new.items }
    ensures turns { heap_items turns.new ≡ heap_items turns.old }
    ensures kept { heap_capacity turns.old ≤ heap_capacity turns.new }
    ensures room { IfOk result (λ made. length made.0.items ≤ heap_capacity turns.new) }
{
    let slots = slots_of(alloc, names, hosts, items)?;
    let read = read_all(alloc, names, hosts, notes, agent)?;
    turns.reserve(slots.len())?;
    Ok((slots, read))
}

/// Puts what was read in place of what was known, and links the items. It takes no memory.
pub fn commit(
    hosts: &mut Vec<Host>,
    turns: &mut BinaryHeap<Reverse<(u64, usize)>>,
    slots: &mut Vec<Slot>,
    read: Vec<(usize, Known)>,
)
    requires placed { All (IsPlaced hosts.old.items) read.items }
    requires owned { All (IsOwned hosts.old.items) slots.old.items }
    requires resting { All IsResting hosts.old.items }
    requires none { heap_items turns.old ≡ [] }
    requires heap { IsHeap turn_cmp (heap_items turns.old) }
    requires room { length slots.old.items ≤ heap_capacity turns.old }
    ensures hosts { IsCommitted hosts.old.items read.items hosts.new.items }
    ensures slots { map bare_slot slots.new.items ≡ map bare_slot slots.old.items }
    ensures firsts { AreFirsts hosts.new.items slots.new.items 0 }
    ensures nexts { AreNexts slots.new.items 0 }
    ensures turns { AreTurns hosts.new.items (heap_items turns.new) }
    ensures heap { IsHeap turn_cmp (heap_items turns.new) }
    ensures room { heap_capacity turns.old ≤ heap_capacity turns.new }
{
    note_all(hosts, read);
    link(hosts, slots);
    begin(turns, hosts, slots);
}
