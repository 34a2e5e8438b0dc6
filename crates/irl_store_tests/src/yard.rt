//! Tests of `irl_yard`: a store of URLs here, and of a crawl below.

mod crawled;
mod damage;
mod entering;
mod events;
mod linked;
mod looking;
mod stopped;

use crate::calls::{
    Call, Numbers, Seen, after, found, in_buckets, judged_at, last_from, opened, run, take_each,
};
use crate::stores::{TUPLES, blank, failing};
use irl_disk::MemStore;
use irl_offer::{Asked, Fault, Verdict};
use std::alloc::Global;
use std::test::Fail;

// A store of tuples with two buckets and arrays of two offers.
const ASKED: Asked = Asked {
    buckets: Some(2),
    array: Some(2),
    trigger: Some(4),
    ..TUPLES
};

const HIGH: u64 = 1 << 63 | 1;

// Two offers of one key are flushed to bucket 1, and another to bucket 0, and judged.
const FILL: [Call<'static>; 3] = [
    Call::Flush(1, &[(HIGH, b"x"), (HIGH, b"z")]),
    Call::Flush(0, &[(1, b"y")]),
    Call::Merge,
];

// One judged offer, how many come in one piece from it on, and the last of them.
fn told_from(
    alloc: Global,
    store: MemStore,
    i: u64,
    most: u32,
) -> Result<(Seen, usize, Option<Seen>, MemStore), Fault> {
    let mut yard = opened(alloc, store, &ASKED)?;
    let one = judged_at(&mut yard, i)?;
    let (count, last) = last_from(alloc, &mut yard, i, most)?;
    Ok((one, count, last, yard.into_store()))
}

#[test]
fn what_was_judged_is_told_again(rt: HostRuntime) -> Result<(), Fail> {
    let alloc = rt.alloc();
    let filled = after(alloc, blank(alloc), &ASKED, &FILL)?;
    let opened = run(alloc, filled, &ASKED, &[])?;
    assert_eq!(rt; opened.in_buckets, [1, 2, 0, 0, 3, 1]);
    let mut store = opened.store;
    let [y, x, z] = [
        (0, Some(Verdict::Unique), Some(b'y')),
        (1, Some(Verdict::Unique), Some(b'x')),
        (1, Some(Verdict::Known(0)), Some(b'z')),
    ];
    // A piece from an offer on has as many as there are, or fewer where that is asked.
    for (i, most, told) in [
        (0, 1, (y, 1, Some(y))),
        (1, 9, (x, 2, Some(z))),
        (2, 1, (z, 1, Some(z))),
    ] {
        let (one, count, last, back) = told_from(alloc, store, i, most)?;
        assert!(rt; (one, count, last) == told, "{i}");
        store = back;
    }
    Ok(())
}

// How many calls there are once a store was made, and once it was filled.
fn calls(alloc: Global) -> Result<(u64, u64), Fault> {
    let first = run(alloc, blank(alloc), &ASKED, &[])?;
    let last = run(alloc, blank(alloc), &ASKED, &FILL)?;
    Ok((first.store.calls(), last.store.calls()))
}

// How many offers there are behind each call of `FILL`, and how many of them are judged.
const FILLED: [[u64; 2]; 4] = [[0, 0], [2, 0], [3, 0], [3, 3]];

// Whether these are the numbers of a sound store behind so many of the calls, or behind one more.
fn is_behind(count: usize, numbers: Numbers) -> bool {
    let found = Some([numbers[0], numbers[1]]);
    FILLED.get(count).copied() == found || FILLED.get(count.saturating_add(1)).copied() == found
}

// Whether filling a store of which this call fails tells the fault and ends the soundness, and leaves to be opened what
// answered Ok before and of the failed call all or nothing.
fn is_kept_at(alloc: Global, call: u64) -> Result<bool, Fault> {
    let ended = run(alloc, failing(alloc, call)?, &ASKED, &FILL)?;
    let is_told = ended.answer == Err(Fault::Failed) && ended.last()[8] == 0;
    let count = ended.seen.len().saturating_sub(2);
    let left = found(alloc, ended.store, &ASKED)?;
    Ok(is_told && is_behind(count, left))
}

#[test]
fn a_failed_call_ends_the_store_and_loses_no_flush(rt: HostRuntime) -> Result<(), Fail> {
    let alloc = rt.alloc();
    let (first, end) = calls(alloc)?;
    for call in first..end {
        assert!(rt; is_kept_at(alloc, call)?, "at {call}");
    }
    Ok(())
}

// Reads a judged offer, or all of them, of a store that is filled when it is entered, where the call of this number fails:
// the fault, the numbers of the store then, and whether it is sound.
fn failed_read(
    alloc: Global,
    call: u64,
    is_one: bool,
) -> Result<(Option<Fault>, [u64; 6], bool), Fault> {
    let mut yard = opened(alloc, failing(alloc, call)?, &ASKED)?;
    take_each(alloc, &mut yard, &FILL)?;
    let fault = if is_one {
        judged_at(&mut yard, 0).err()
    } else {
        last_from(alloc, &mut yard, 0, 9).err()
    };
    Ok((fault, in_buckets(&yard), yard.is_sound()))
}

#[test]
fn a_failed_read_ends_the_store(rt: HostRuntime) -> Result<(), Fail> {
    let alloc = rt.alloc();
    let (_first, end) = calls(alloc)?;
    for is_one in [false, true] {
        let found = failed_read(alloc, end, is_one)?;
        assert!(rt; found == (Some(Fault::Failed), [1, 2, 0, 0, 3, 1], false));
    }
    Ok(())
}
