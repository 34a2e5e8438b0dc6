ghost use Rattle.std.specs.Prelude.{◌≡◌, ◌<◌, ◌≤◌, ℕ, length, slice_index_or, take, false, IfOk};
ghost use Rattle.std.specs.List.{filter};
ghost use Rattle.std.specs.List.Sorted.{IsPermutation, IsSorted};
ghost use Rattle.std.specs.Ordering.{nat_cmp};
ghost use Rattle.irl_fate.specs.Kept.{fate_in, front_left, numbers_in, is_front, AreSorted};

use crate::Fate;
use crate::table::is_in_front;
use std::alloc::{AllocError, Global};

/// The same numbers in rising order.
pub fn sorted(alloc: Global, numbers: &[u64]) -> Result<Vec<u64>, AllocError>
    ensures same { IfOk result (λ order. IsPermutation numbers.now order.items) }
    ensures rising { IfOk result (λ order. IsSorted nat_cmp order.items) }
{
    let mut order = numbers.to_vec(alloc)?;
    order.sort_unstable();
    Ok(order)
}

/// How many numbers there are before the first that is in the front, where there are so many at least.
pub fn first_left(entries: &[(u64, Fate)], order: &[u64], from: usize) -> usize
    requires sorted { AreSorted (numbers_in entries.now) }
    requires within { from ≤ length order.now }
    requires passed { (i : ℕ) → i < from → is_front (fate_in entries.now (slice_index_or order.now i 0)) ≡ false }
    ensures within { result ≤ length order.now }
    ensures passed { (i : ℕ) → i < result → is_front (fate_in entries.now (slice_index_or order.now i 0)) ≡ false }
{
    let mut next = from;
    while next < order.len() && !is_in_front(entries, order[next]) {
        next += 1;
    }
    next
}

// The first so many of the numbers that are in the front, in their order.
fn first_of(
    alloc: Global,
    entries: &[(u64, Fate)],
    order: &[u64],
    most: usize,
) -> Result<Vec<u64>, AllocError>
    requires { AreSorted (numbers_in entries.now) }
    ensures { IfOk result (λ first. first.items ≡ take most (front_left entries.now order.now)) }
{
    let mut first = Vec::new(alloc);
    for number in order {
        if first.len() == most {
            return Ok(first);
        }
        if is_in_front(entries, *number) {
            first.push(*number)?;
        }
    }
    Ok(first)
}

/// The same, where none of so many numbers before the others is in the front.
pub fn first_from(
    alloc: Global,
    entries: &[(u64, Fate)],
    order: &[u64],
    from: usize,
    most: usize,
) -> Result<Vec<u64>, AllocError>
    requires sorted { AreSorted (numbers_in entries.now) }
    requires within { from ≤ length order.now }
    requires passed { (i : ℕ) → i < from → is_front (fate_in entries.now (slice_index_or order.now i 0)) ≡ false }
    ensures { IfOk result (λ first. first.items ≡ take most (front_left entries.now order.now)) }
{
    let first = first_of(alloc, entries, &order[from..], most)?;
    Ok(first)
}
