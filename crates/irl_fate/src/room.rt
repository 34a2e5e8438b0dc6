ghost use Rattle.std.specs.Prelude.{◌≡◌, ◌+◌, ◌≤◌, ◌++◌, length, IfOk, vec_len, vec_capacity};
ghost use Rattle.irl_fate.specs.Plans.{IsRoom};

use std::alloc::{AllocError, Global};

/// An empty vector that may take so many items and more of them. It may take an eighth more, so that a vector that grows by
/// little at a time isn't moved each time.
pub fn room<T>(alloc: Global, len: usize, more: usize) -> Result<Vec<T>, AllocError>
    ensures { IfOk result (IsRoom (len + more)) }
{
    let least = len.checked_add(more).ok_or(AllocError)?;
    Vec::with_capacity(alloc, least.saturating_add(least / 8))
}

/// Makes room for more items: moves them into the room where their own is too small. It takes no memory.
pub fn grow<T: Drop>(list: &mut Vec<T>, room: Vec<T>, more: usize)
    requires { IsRoom (vec_len list.old + more) room }
    ensures items { list.new.items ≡ list.old.items }
    ensures room { vec_len list.new + more ≤ vec_capacity list.new }
{
    if list.capacity() - list.len() >= more {
        return;
    }
    let mut room = room;
    let _fits = room.append(list);
    *list = room;
}

/// Puts items behind those of a list that has room for them. It takes no memory.
pub fn extend<T: Copy>(list: &mut Vec<T>, more: &[T])
    requires { vec_len list.old + length more.now ≤ vec_capacity list.old }
    ensures items { list.new.items ≡ list.old.items ++ more.now }
    ensures len { vec_len list.new ≡ vec_len list.old + length more.now }
    ensures capacity { vec_capacity list.old ≤ vec_capacity list.new }
{
    let _fits = list.extend_from_slice(more);
}
