//! Stores that are made, and what of another make is refused.

use crate::calls::entered;
use crate::stores::{TUPLES, blank, failing, left, put_at};
use irl_disk::{MemStore, Part};
use irl_head::{HEAD, OpenFault, encode};
use irl_offer::{Asked, Rule, Settings};
use std::alloc::Global;
use std::test::Fail;

// What is asked of a store of tuples with so many buckets.
fn asked_of(buckets: Option<u32>) -> Asked {
    Asked {
        rule: Some(Rule::Add),
        buckets,
        array: Some(2),
        ..TUPLES
    }
}

// Enters a store, and gives it back beside how many buckets it has, or the fault.
fn buckets_of(
    alloc: Global,
    store: MemStore,
    buckets: Option<u32>,
) -> (Result<u32, OpenFault>, MemStore) {
    match entered(alloc, store, &asked_of(buckets)) {
        Ok(yard) => (Ok(yard.settings().buckets), yard.into_store()),
        Err((fault, store)) => (Err(fault), store),
    }
}

// The bytes of a head's file of a new store.
fn head_bytes() -> [u8; 107] {
    let mut bytes = [0; 107];
    bytes[0] = 0xA5;
    bytes[1] = 100;
    bytes[5..105].copy_from_slice(&encode(&Settings::of_new_store(&asked_of(None))));
    bytes
}

// Enters a store whose head and one other file have these bytes.
fn entered_over(
    alloc: Global,
    head: &[u8],
    f: u16,
    bytes: &[u8],
) -> Result<Result<u32, OpenFault>, Fail> {
    let mut store = blank(alloc);
    put_at(&mut store, HEAD, 0, head)?;
    put_at(&mut store, f, 0, bytes)?;
    let (answer, _store) = buckets_of(alloc, store, None);
    Ok(answer)
}

#[test]
fn a_new_store_is_made_and_opened_again(rt: HostRuntime) {
    let mut store = blank(rt.alloc());
    for (buckets, answer) in [
        (Some(3), Err(OpenFault::BadSettings(3))),
        (Some(4), Ok(4)),
        (None, Ok(4)),
        (Some(8), Err(OpenFault::OtherSettings(3, 4, 8))),
    ] {
        let (found, back) = buckets_of(rt.alloc(), store, buckets);
        assert_eq!(rt; found, answer);
        store = back;
    }
}

// The bytes of the head, those of another file, and what entering answers, which asks for tuples in 16 buckets.
type Row = (&'static [u8], u16, &'static [u8], Result<u32, OpenFault>);

const OF_NO_HEAD: [Row; 4] = [
    (b"", 9_999, b"\xA5", Ok(16)),
    (b"", 0, b"\xA5", Ok(16)),
    (b"", 9_999, b"ab", Err(OpenFault::NotOurs(0))),
    (b"\xA5ab", 1, b"ab", Err(OpenFault::Damaged(0, 0))),
];

// A journal that is broken, and an empty one.
const BROKEN: &[u8] = b"\xA5\xFF\0\0\0\0";

const EMPTY: &[u8] = b"\xA5";

// A byte of the head's file, and the bytes of file 110.
const OF_A_HEAD: [(usize, u8, &[u8], Result<u32, OpenFault>); 10] = [
    (106, 1, b"", Ok(16)),
    (1, 99, b"", Err(OpenFault::NotOurs(1))),
    (5, b'i', b"", Err(OpenFault::NotOurs(5))),
    (13, 2, b"", Err(OpenFault::NotOurs(13))),
    (33, 3, b"", Err(OpenFault::NotOurs(33))),
    (105, 0xA5, b"", Err(OpenFault::NotOurs(105))),
    // Lines in place of tuples.
    (17, 1, b"", Err(OpenFault::OtherSettings(1, 1, 2))),
    // Damage is named where the settings agree.
    (17, 1, BROKEN, Err(OpenFault::OtherSettings(1, 1, 2))),
    (17, 2, BROKEN, Err(OpenFault::Damaged(110, 0))),
    (17, 2, EMPTY, Ok(16)),
];

#[test]
fn files_of_another_make_are_refused(rt: HostRuntime) -> Result<(), Fail> {
    let alloc = rt.alloc();
    for (head, f, bytes, answer) in OF_NO_HEAD {
        assert_eq!(rt; entered_over(alloc, head, f, bytes)?, answer);
    }
    for (at, byte, bytes, answer) in OF_A_HEAD {
        let mut head = head_bytes();
        if at < 107 {
            head[at] = byte;
        }
        assert_eq!(rt; entered_over(alloc, &head, 110, bytes)?, answer, "at {at}");
    }
    Ok(())
}

// How many buckets a store has for which one is asked, where the call of this number fails; and how many it then has.
fn failed_in(
    alloc: Global,
    call: u64,
) -> Result<(Result<u32, OpenFault>, Result<u32, OpenFault>), Fail> {
    let (first, store) = buckets_of(alloc, failing(alloc, call)?, Some(1));
    let (second, _store) = buckets_of(alloc, store, Some(1));
    Ok((first, second))
}

// The calls in which a store of one bucket is made, behind those that ask for the lengths of all files.
const FIRST: u64 = 10_000;

const END: u64 = 10_028;

#[test]
fn a_failed_call_leaves_a_store_to_enter(rt: HostRuntime) -> Result<(), Fail> {
    for call in FIRST - 1..END {
        let found = failed_in(rt.alloc(), call)?;
        assert_eq!(rt; found, (Err(OpenFault::Failed), Ok(1)), "at {call}");
    }
    Ok(())
}

// How many buckets the store has that stops in this call left, in each part; one that wasn't made yet is made with 16.
fn left_in(
    alloc: Global,
    store: &MemStore,
    call: u64,
) -> Result<[Result<u32, OpenFault>; 3], Fail> {
    let mut answers = [Ok(0); 3];
    for (i, part) in [Part::Old, Part::New, Part::Torn].into_iter().enumerate() {
        let (found, _store) = buckets_of(alloc, left(alloc, store, call, part)?, None);
        answers[i] = found;
    }
    Ok(answers)
}

#[test]
fn a_stop_leaves_the_new_store_or_none(rt: HostRuntime) -> Result<(), Fail> {
    let alloc = rt.alloc();
    let (made, store) = buckets_of(alloc, blank(alloc), Some(1));
    assert_eq!(rt; (made, store.calls()), (Ok(1), END));
    for call in FIRST..END {
        // The last two calls open the gate of the head's record, and sync it.
        let wanted = match END - call {
            1 => [Ok(1), Ok(1), Ok(1)],
            2 => [Ok(16), Ok(1), Ok(1)],
            _ => [Ok(16), Ok(16), Ok(16)],
        };
        assert_eq!(rt; left_in(alloc, &store, call)?, wanted, "at {call}");
    }
    Ok(())
}
