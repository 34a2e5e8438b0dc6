//! Lists of lists, in vectors of vectors. Contracts see them as `items_of` has them.
ghost use Rattle.std.specs.Prelude.{◌≡◌, ◌<◌, [], List, length, map as list_map, replicate, slice_set, take as first_of, vec_len, IfOk, OnOk, OnErr};
ghost use Rattle.irl_base.specs.Lists.{items_of, list_at, with_one, Grown};

use std::alloc::{AllocError, Global};
use std::mem;

/// So many lists, all empty.
pub fn empty_lists<T: Drop>(alloc: Global, count: usize) -> Result<Vec<Vec<T>>, AllocError>
    ensures lists { IfOk result (λ lists. items_of lists.items ≡ replicate count []) }
    ensures len { IfOk result (λ lists. vec_len lists ≡ count) }
{
    let mut lists = Vec::with_capacity(alloc, count)?;
    for _ in 0..count {
        lists.push(Vec::new(alloc))?;
    }
    Ok(lists)
}

/// Takes a list out, and leaves an empty one in its place. It takes no memory.
pub fn take_out<T: Drop>(alloc: Global, lists: &mut Vec<Vec<T>>, at: usize) -> Vec<T>
    requires { at < vec_len lists.old }
    ensures taken { result.items ≡ list_at (items_of lists.old.items) at }
    ensures left { items_of lists.new.items ≡ slice_set (items_of lists.old.items) at [] }
    ensures len { vec_len lists.new ≡ vec_len lists.old }
{
    mem::replace(&mut lists[at], Vec::new(alloc))
}

/// Puts a list in place of another. It takes no memory.
pub fn replace_at<T: Drop>(lists: &mut Vec<Vec<T>>, at: usize, list: Vec<T>)
    requires { at < vec_len lists.old }
    ensures lists { items_of lists.new.items ≡ slice_set (items_of lists.old.items) at list.items }
    ensures len { vec_len lists.new ≡ vec_len lists.old }
{
    lists[at] = list;
}

/// Puts an item behind the others of a list. After want of memory the lists are as before, and the item is dropped.
pub fn push_at<T: Drop>(lists: &mut Vec<Vec<T>>, at: usize, item: T) -> Result<(), AllocError>
    requires { at < vec_len lists.old }
    ensures ok { OnOk result (items_of lists.new.items ≡ with_one (items_of lists.old.items) at item) }
    ensures err { OnErr result (items_of lists.new.items ≡ items_of lists.old.items) }
    ensures len { vec_len lists.new ≡ vec_len lists.old }
{
    lists[at].push(item)?;
    Ok(())
}

// The lengths of vectors.
fn vec_lengths<T>(alloc: Global, lists: &[Vec<T>]) -> Result<Vec<usize>, AllocError>
    ensures { IfOk result (λ lengths. lengths.items ≡ list_map (λ list. vec_len list) lists.now) }
{
    lists.iter().map(|list| list.len()).collect(alloc)
}

/// The lengths of the lists.
pub fn lengths<T>(alloc: Global, lists: &[Vec<T>]) -> Result<Vec<usize>, AllocError>
    ensures { IfOk result (λ lengths. lengths.items ≡ list_map length (items_of lists.now)) }
{
    let lengths = vec_lengths(alloc, lists)?;
    Ok(lengths)
}

// Cuts a list to at most so many items.
fn cut_at<T: Drop>(lists: &mut Vec<Vec<T>>, at: usize, len: usize)
    requires { at < vec_len lists.old }
    ensures lists { items_of lists.new.items
        ≡ slice_set (items_of lists.old.items) at (first_of len (list_at (items_of lists.old.items) at)) }
    ensures len { vec_len lists.new ≡ vec_len lists.old }
{
    lists[at].truncate(len);
}

/// Cuts lists that have grown back to the lengths that they had. It takes no memory.
pub fn cut_back<T: Drop>(lists: &mut Vec<Vec<T>>, lengths: &[usize])
    requires { length lengths.now ≡ vec_len lists.old }
    ensures lists { (base : List (List T)) → Grown base (items_of lists.old.items) →
        lengths.now ≡ list_map length base → items_of lists.new.items ≡ base }
    ensures len { vec_len lists.new ≡ vec_len lists.old }
{
    for (at, len) in lengths.iter().enumerate() {
        cut_at(lists, at, *len);
    }
}
