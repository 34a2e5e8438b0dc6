ghost use Rattle.std.specs.Prelude.{◌≡◌, ◌<◌, ◌≤◌, [], ◌∷◌, length, slice_index_or, IfSome, IfNone};
ghost use Rattle.std.specs.List.{All};
ghost use Rattle.std.specs.List.Sorted.{IsPermutation};
ghost use Rattle.std.specs.BinaryHeap.{heap_items, heap_len, heap_capacity, IsHeap};
ghost use Rattle.irl_polite.specs.Inside.{Turn, turn_cmp, IsTop, AreFirsts, AreTurns, IsReady, IsOwned, IsReplaced, IsBegun};

use crate::hosts::Host;
use crate::slots::Slot;
use std::cmp::Reverse;
use std::collections::BinaryHeap;

/// When the first turn is due, and the place of its item.
pub fn first(turns: &BinaryHeap<Reverse<(u64, usize)>>) -> Option<(u64, usize)>
    requires { IsHeap turn_cmp (heap_items turns.now) }
    ensures some { IfSome result (IsTop (heap_items turns.now)) }
    ensures none { IfNone result (heap_items turns.now ≡ []) }
{
    match turns.peek() {
        Some(Reverse(turn)) => Some(*turn),
        None => None,
    }
}

/// Puts in a turn. It takes no memory.
pub fn push(turns: &mut BinaryHeap<Reverse<(u64, usize)>>, due: u64, at: usize)
    requires heap { IsHeap turn_cmp (heap_items turns.old) }
    requires room { heap_len turns.old < heap_capacity turns.old }
    ensures turns { IsPermutation ((record { 0 = (due, at) }) ∷ heap_items turns.old) (heap_items turns.new) }
    ensures heap { IsHeap turn_cmp (heap_items turns.new) }
    ensures room { heap_capacity turns.old ≤ heap_capacity turns.new }
{
    let _ = turns.push(Reverse((due, at)));
}

/// Takes the first turn out. It takes no memory.
pub fn remove_first(turns: &mut BinaryHeap<Reverse<(u64, usize)>>)
    requires heap { IsHeap turn_cmp (heap_items turns.old) }
    requires some { 0 < heap_len turns.old }
    ensures turns { (turn : Turn) → slice_index_or (heap_items turns.old) 0 turn ≡ turn
        → IsPermutation (heap_items turns.old) (turn ∷ heap_items turns.new) }
    ensures heap { IsHeap turn_cmp (heap_items turns.new) }
    ensures room { heap_capacity turns.new ≡ heap_capacity turns.old }
    ensures spare { heap_len turns.new < heap_capacity turns.new }
{
    turns.pop();
}

/// Puts the turn of the next item, where there is one, in place of the first turn. It takes no memory.
pub fn replace_first(turns: &mut BinaryHeap<Reverse<(u64, usize)>>, due: u64, next: Option<usize>)
    requires heap { IsHeap turn_cmp (heap_items turns.old) }
    requires some { 0 < heap_len turns.old }
    ensures turns { (turn : Turn) → slice_index_or (heap_items turns.old) 0 turn ≡ turn →
        IsReplaced (heap_items turns.old) turn due next (heap_items turns.new) }
    ensures heap { IsHeap turn_cmp (heap_items turns.new) }
    ensures room { heap_capacity turns.old ≤ heap_capacity turns.new }
{
    remove_first(turns);
    if let Some(at) = next {
        push(turns, due, at);
    }
}

/// Puts in the turns of all hosts. It takes no memory.
pub fn begin(turns: &mut BinaryHeap<Reverse<(u64, usize)>>, hosts: &[Host], slots: &[Slot])
    requires none { heap_items turns.old ≡ [] }
    requires heap { IsHeap turn_cmp (heap_items turns.old) }
    requires room { length slots.now ≤ heap_capacity turns.old }
    requires owned { All (IsOwned hosts.now) slots.now }
    requires ready { All IsReady hosts.now }
    requires firsts { AreFirsts hosts.now slots.now 0 }
    ensures turns { AreTurns hosts.now (heap_items turns.new) }
    ensures heap { IsHeap turn_cmp (heap_items turns.new) }
    ensures room { heap_capacity turns.old ≤ heap_capacity turns.new }
{
    for (at, slot) in slots.iter().enumerate() {
        begin_one(turns, &hosts[slot.host], at);
    }
}

// Puts in the turn of a host, if this is its first item.
fn begin_one(turns: &mut BinaryHeap<Reverse<(u64, usize)>>, host: &Host, at: usize)
    requires heap { IsHeap turn_cmp (heap_items turns.old) }
    requires room { heap_len turns.old < heap_capacity turns.old }
    ensures turns { IsBegun (heap_items turns.old) host.now at (heap_items turns.new) }
    ensures heap { IsHeap turn_cmp (heap_items turns.new) }
    ensures room { heap_capacity turns.old ≤ heap_capacity turns.new }
{
    if host.first == Some(at) {
        push(turns, host.due, at);
    }
}
