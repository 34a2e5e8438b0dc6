//! Files that are cut or changed by hand, in a store that was filled and judged.

use super::stopped::{ROW, asked_of};
use crate::calls::{Call, after, entered, judged_at, last_from, opened, run, step};
use crate::stores::{LINES, blank, copied, cut_at, put_at};
use irl_disk::{Failed, MemStore};
use irl_head::OpenFault;
use irl_offer::Fault;
use irl_yard::Yard;
use std::alloc::Global;
use std::test::Fail;

// What is done to a file: all that stands behind a place goes, or bytes are put at a place.
#[derive(Clone, Copy)]
enum Change<'a> {
    Cut(u64),
    Put(u64, &'a [u8]),
}

use Change::{Cut, Put};

fn make(store: &mut MemStore, f: u16, change: Change<'_>) -> Result<(), Failed> {
    match change {
        Cut(at) => cut_at(store, f, at),
        Put(at, bytes) => put_at(store, f, at, bytes),
    }
}

const FLUSH: Call<'static> = Call::Flush(0, &ROW);

// The lines of the row, flushed and judged.
const JUDGED: [Call<'static>; 2] = [FLUSH, Call::Merge];

// They wait once more behind it.
const ONCE: [Call<'static>; 3] = [FLUSH, Call::Merge, FLUSH];

// They are judged twice, and wait twice behind it.
const TWICE: [Call<'static>; 6] = [FLUSH, Call::Merge, FLUSH, Call::Merge, FLUSH, FLUSH];

// A line of the second of two buckets.
const HIGH: [Call<'static>; 1] = [Call::Flush(1, &[(1 << 63, b"x")])];

// A store with so many buckets, once these calls were made.
fn store_of(alloc: Global, buckets: u32, calls: &[Call<'_>]) -> Result<MemStore, Fault> {
    after(alloc, blank(alloc), &asked_of(Some(buckets), None), calls)
}

// The same store after a change of one file.
fn changed(alloc: Global, store: &MemStore, f: u16, change: Change<'_>) -> Result<MemStore, Fault> {
    let mut store = copied(alloc, store)?;
    make(&mut store, f, change)?;
    Ok(store)
}

// How many offers are judged in a store that is opened after a change of one file, or the damage that is named.
fn answer(
    alloc: Global,
    store: &MemStore,
    f: u16,
    change: Change<'_>,
) -> Result<Result<u64, (u16, u64)>, Fault> {
    match entered(alloc, changed(alloc, store, f, change)?, &LINES) {
        Ok(yard) => Ok(Ok(yard.judged_len())),
        Err((OpenFault::Damaged(f, at), _)) => Ok(Err((f, at))),
        Err(_) => Err(Fault::Memory),
    }
}

// A file, what is done to it, and how many offers are judged then, or the file and the place that are named.
type Row = (u16, Change<'static>, Result<u64, (u16, u64)>);

// Of the store in which the row was judged and waits once more, whose files have 106 bytes (the head), 47 (the
// manifest), 32 (the live side of the cache, 0102), 144 (the judged offers), 42 (their texts), 87 (the bucket's live
// journal, 0600) and 42 (its texts).
const OF_ONE_RUN: [Row; 24] = [
    (0, Cut(105), Err((0, 0))),
    (0, Cut(6), Err((0, 0))),
    // Arrays of two offers, where three stand in one record.
    (0, Put(41, b"\x02\x00"), Err((600, 0))),
    (100, Cut(46), Err((100, 0))),
    (100, Put(1, b"\xFF"), Err((100, 0))),
    (100, Put(1, b"\x28"), Err((100, 0))),
    (100, Put(5, b"\x06"), Err((100, 0))),
    (100, Put(6, b"\x03"), Err((102, 32))),
    (100, Put(14, b"\x04"), Err((103, 144))),
    (100, Put(30, b"\x2B"), Err((104, 42))),
    // The cut counts an offer more than are judged.
    (100, Put(14, b"\x02"), Err((100, 0))),
    (100, Put(38, b"\x04"), Err((100, 0))),
    (102, Cut(31), Err((102, 31))),
    (103, Cut(100), Err((103, 100))),
    (104, Cut(41), Err((104, 41))),
    (600, Cut(86), Err((600, 0))),
    (600, Put(0, b"\xA5\xFF\0\0\0\0"), Err((600, 0))),
    (600, Put(1, b"\xFF"), Err((600, 0))),
    (600, Put(1, b"\x50"), Err((600, 0))),
    (600, Put(1, b"\x00"), Err((600, 0))),
    (600, Put(5, b"\x03"), Err((600, 0))),
    // A text of 2,049 bytes.
    (600, Put(6, b"\x01\x08"), Err((600, 0))),
    (601, Cut(41), Err((601, 41))),
    (601, Cut(0), Err((601, 0))),
];

// After a second merge the manifest's second record stands at 46, side 0 is live again, and its journal's second record
// stands at 86.
const OF_TWO_RUNS: [Row; 12] = [
    (100, Put(38, b"\x07"), Err((100, 46))),
    (100, Put(51, b"\x06"), Err((100, 46))),
    // The layout of one side behind that of two.
    (100, Put(51, b"\x01"), Err((100, 46))),
    // Each number that fell.
    (100, Put(52, b"\x01"), Err((100, 46))),
    (100, Put(60, b"\x02"), Err((100, 46))),
    (100, Put(68, b"\x01"), Err((100, 46))),
    (100, Put(76, b"\x29"), Err((100, 46))),
    (100, Put(84, b"\x02"), Err((100, 46))),
    (100, Put(84, b"\x07"), Err((100, 46))),
    (101, Cut(31), Err((101, 31))),
    (110, Cut(172), Err((110, 86))),
    (110, Put(91, b"\x03"), Err((110, 86))),
];

// The key of an offer of the first of two buckets, in the second's journal.
const OF_TWO_BUCKETS: [Row; 1] = [(112, Put(15, b"\x00"), Err((112, 0)))];

// Of the store in which the row was judged and nothing waits. Without its record, or with its gate closed, the manifest
// says that nothing is judged. The first side of the cache and of the bucket files isn't live after one merge, and what
// stands behind a file's committed part means nothing.
const OF_NO_DAMAGE: [Row; 11] = [
    (100, Cut(1), Ok(0)),
    (100, Put(0, b"\x00"), Ok(0)),
    (101, Put(0, b"x"), Ok(3)),
    (100, Put(47, b"x"), Ok(3)),
    (102, Put(32, b"x"), Ok(3)),
    (103, Put(144, b"x"), Ok(3)),
    (104, Put(42, b"x"), Ok(3)),
    (110, Put(0, b"\xA5\xFF\0\0\0\0"), Ok(3)),
    (111, Cut(0), Ok(3)),
    (600, Put(1, b"x"), Ok(3)),
    (601, Put(0, b"x"), Ok(3)),
];

// The tables, each with its store: how many buckets, and the calls over it.
const TABLES: [(u32, &[Call<'static>], &[Row]); 4] = [
    (1, &JUDGED, &OF_NO_DAMAGE),
    (1, &ONCE, &OF_ONE_RUN),
    (1, &TWICE, &OF_TWO_RUNS),
    (2, &HIGH, &OF_TWO_BUCKETS),
];

#[test]
fn each_damage_is_named_at_its_place(rt: HostRuntime) -> Result<(), Fail> {
    let alloc = rt.alloc();
    for (buckets, calls, table) in TABLES {
        let store = store_of(alloc, buckets, calls)?;
        for (f, done, wanted) in table {
            let found = answer(alloc, &store, *f, *done)?;
            assert_eq!(rt; found, *wanted, "file {f}");
        }
    }
    Ok(())
}

// A byte of an entry, and the place of the damage: the bucket, the operation, the verdict, the byte behind it, the
// text's length, a value that is told without Known, and a text's place.
const OF_ENTRIES: [(u64, &[u8], u64); 7] = [
    (0, b"\x01", 0),
    (49, b"\x03", 48),
    (98, b"\x04", 96),
    (99, b"\x01", 96),
    (101, b"\xFF", 96),
    (80, b"\x07", 48),
    (88, b"\x00", 48),
];

// What reading all offers answers where an entry has another byte at this place, and then reading the first.
fn read_both(
    alloc: Global,
    store: &MemStore,
    at: u64,
    byte: &[u8],
) -> Result<[Option<Fault>; 2], Fault> {
    let mut yard = opened(alloc, changed(alloc, store, 103, Put(at, byte))?, &LINES)?;
    let all = last_from(alloc, &mut yard, 0, 9).err();
    Ok([all, judged_at(&mut yard, 0).err()])
}

#[test]
fn a_judged_entry_of_no_form_is_damage(rt: HostRuntime) -> Result<(), Fail> {
    let alloc = rt.alloc();
    let store = store_of(alloc, 1, &JUDGED)?;
    for (at, byte, place) in OF_ENTRIES {
        let damage = Some(Fault::Damaged(103, place));
        let first = if place == 0 { damage } else { None };
        let found = read_both(alloc, &store, at, byte)?;
        assert!(rt; found == [damage, first], "at {at}");
    }
    Ok(())
}

// The lines of the row, judged, and another that waits.
const WAITING: [Call<'static>; 3] = [
    Call::Flush(0, &ROW),
    Call::Merge,
    Call::Flush(0, &[(1, b"http://c.test/")]),
];

// The fault of a merge, and how many offers are judged then.
fn merged(alloc: Global, yard: &mut Yard<MemStore>) -> (Option<Fault>, u64) {
    let fault = step(alloc, yard, Call::Merge).err();
    (fault, yard.judged_len())
}

// What merges answer over a key of the cache that isn't above the one before it, and the store.
fn merged_twice(
    alloc: Global,
    store: &MemStore,
) -> Result<([(Option<Fault>, u64); 2], MemStore), Fault> {
    let mut yard = opened(alloc, changed(alloc, store, 102, Put(7, b"\xFF"))?, &LINES)?;
    let found = [merged(alloc, &mut yard), merged(alloc, &mut yard)];
    Ok((found, yard.into_store()))
}

// It is damage at its place each time that a merge is asked, and mended it is none.
#[test]
fn a_merge_that_found_damage_may_be_asked_again(rt: HostRuntime) -> Result<(), Fail> {
    let alloc = rt.alloc();
    let (found, store) = merged_twice(alloc, &store_of(alloc, 1, &WAITING)?)?;
    assert!(rt; found == [(Some(Fault::Damaged(102, 16)), 3); 2]);
    let mended = changed(alloc, &store, 102, Put(7, b"\x59"))?;
    let ended = run(alloc, mended, &LINES, &[Call::Merge])?;
    // Four offers are judged then, by two merges.
    assert_eq!(rt;
        (ended.answer, ended.in_buckets),
        (Ok(()), [4, 0, 0, 0, 4, 2])
    );
    Ok(())
}
