ghost use Rattle.std.specs.Prelude.{◌≡◌, ◌<◌, ◌∷◌, [], length, slice_index, slice_index_or, slice_set, replicate, vec_len, IfOk, OnOk, OnErr};
ghost use Rattle.std.specs.Prelude.{map as list_map};
ghost use Rattle.irl_model.specs.Book.{flushed_lists};
ghost use Rattle.irl_base.specs.Lists.{items_of};

use irl_fate::Numbers;
use irl_offer::Offer;
use std::alloc::{AllocError, Global};

/// So many zeros.
pub fn zeros(alloc: Global, count: u32) -> Result<Vec<u64>, AllocError>
    ensures { IfOk result (λ zeros. zeros.items ≡ replicate count 0) }
{
    Ok(vec![in alloc; 0; count as usize]?)
}

/// The length of one of some lists, 0 where there is none.
pub fn length_at(lists: &[Vec<Offer>], at: u32) -> u64
    ensures { result ≡ length (slice_index_or (items_of lists.now) at []) }
{
    match lists.get(at as usize) {
        Some(list) => list.len() as u64,
        None => 0,
    }
}

fn vec_lengths(alloc: Global, lists: &[Vec<Offer>]) -> Result<Vec<u64>, AllocError>
    ensures { IfOk result (λ lengths. lengths.items ≡ list_map (λ list. vec_len list) lists.now) }
{
    lists.iter().map(|list| list.len() as u64).collect(alloc)
}

/// The lengths of lists.
pub fn lengths(alloc: Global, lists: &[Vec<Offer>]) -> Result<Vec<u64>, AllocError>
    ensures { IfOk result (λ lengths. lengths.items ≡ list_map length (items_of lists.now)) }
{
    let lengths = vec_lengths(alloc, lists)?;
    Ok(lengths)
}

/// One offer more at the end of a list. After want of memory all is as before.
pub fn push_at(lists: &mut Vec<Vec<Offer>>, at: u32, offer: Offer) -> Result<(), AllocError>
    requires { at < vec_len lists.old }
    ensures ok { OnOk result (items_of lists.new.items ≡ flushed_lists at (offer ∷ []) (items_of lists.old.items)) }
    ensures err { OnErr result (items_of lists.new.items ≡ items_of lists.old.items) }
{
    irl_base::lists::push_at(lists, at as usize, offer)?;
    Ok(())
}

/// Moves a list to the end of another. After want of memory all is as before.
pub fn move_to(
    lists: &mut Vec<Vec<Offer>>,
    arrays: &mut Vec<Vec<Offer>>,
    at: u32,
) -> Result<(), AllocError>
    requires lists { at < vec_len lists.old }
    requires arrays { at < vec_len arrays.old }
    ensures lists { OnOk result (items_of lists.new.items
        ≡ flushed_lists at (slice_index_or (items_of arrays.old.items) at []) (items_of lists.old.items)) }
    ensures arrays { OnOk result (items_of arrays.new.items ≡ slice_set (items_of arrays.old.items) at []) }
    ensures lists_kept { OnErr result (items_of lists.new.items ≡ items_of lists.old.items) }
    ensures arrays_kept { OnErr result (items_of arrays.new.items ≡ items_of arrays.old.items) }
{
    let list = &mut lists[at as usize];
    let array = &mut arrays[at as usize];
    list.append(array)?;
    Ok(())
}

// Drops the offers of a list.
fn empty_at(lists: &mut Vec<Vec<Offer>>, at: usize)
    requires { at < vec_len lists.old }
    ensures lists { items_of lists.new.items ≡ slice_set (items_of lists.old.items) at [] }
    ensures len { vec_len lists.new ≡ vec_len lists.old }
{
    lists[at].clear();
}

/// Drops the offers of all lists. It takes no memory.
pub fn empty_all(lists: &mut Vec<Vec<Offer>>)
    ensures { items_of lists.new.items ≡ list_map (λ _. []) (items_of lists.old.items) }
{
    for at in 0..lists.len() {
        empty_at(lists, at);
    }
}

/// Puts a number in place of another, if there is one.
pub fn set_at(numbers: &mut Vec<u64>, at: u32, number: u64)
    ensures { numbers.new.items ≡ slice_set numbers.old.items at number }
{
    if (at as usize) < numbers.len() {
        numbers[at as usize] = number;
    }
}

/// The same numbers, as an event keeps them.
pub fn numbers(alloc: Global, items: &[u64]) -> Result<Numbers, AllocError>
    ensures { IfOk result (λ numbers. numbers ≡ items.now) }
{
    let mut numbers = Numbers::new(alloc);
    for number in items {
        numbers.push(*number)?;
    }
    Ok(numbers)
}
