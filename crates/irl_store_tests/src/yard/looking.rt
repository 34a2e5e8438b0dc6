//! Looks at stores, which make none.

use crate::calls::{Call, after};
use crate::stores::{LINES, blank, failing, front_of, put_at};
use irl_disk::MemStore;
use irl_head::{HEAD, OpenFault};
use irl_offer::{Asked, Kind};
use irl_yard::{Looked, Yard};
use std::alloc::Global;
use std::test::Fail;

// The kind of an open store, how many buckets it has, how many offers the first of them, and how many are judged.
type Counts = (Kind, u32, u64, u64);

fn counts(yard: &Yard<MemStore>) -> Option<Counts> {
    let settings = yard.settings();
    if settings.buckets == 0 {
        return None;
    }
    Some((
        settings.kind,
        settings.buckets,
        yard.durable(0),
        yard.judged_len(),
    ))
}

// What a look finds, and the store.
fn looked(alloc: Global, store: MemStore) -> (Result<Option<Counts>, OpenFault>, MemStore) {
    match Yard::look(alloc, store) {
        Ok(Looked::Blank(store)) => (Ok(None), store),
        Ok(Looked::Made(yard)) => (Ok(counts(&yard)), yard.into_store()),
        Err((fault, store)) => (Err(fault), store),
    }
}

// A new store of this kind, with four buckets, or one with one bucket of which two offers are judged.
fn made(alloc: Global, kind: Kind, is_judged: bool) -> Result<MemStore, Fail> {
    let asked = Asked {
        kind,
        buckets: Some(if is_judged { 1 } else { 4 }),
        ..LINES
    };
    let calls = [Call::Flush(0, &[(1, b"x"), (2, b"y")]), Call::Merge];
    let count = if is_judged { 2 } else { 0 };
    Ok(after(alloc, blank(alloc), &asked, &calls[..count])?)
}

#[test]
fn a_store_that_was_made_is_open_as_it_is(rt: HostRuntime) -> Result<(), Fail> {
    let alloc = rt.alloc();
    for (kind, is_judged, wanted) in [
        (Kind::Lines, false, (Kind::Lines, 4, 0, 0)),
        (Kind::Tuples, false, (Kind::Tuples, 4, 0, 0)),
        (Kind::Crawl, false, (Kind::Crawl, 4, 0, 0)),
        (Kind::Lines, true, (Kind::Lines, 1, 2, 2)),
    ] {
        let (found, _store) = looked(alloc, made(alloc, kind, is_judged)?);
        assert_eq!(rt; found, Ok(Some(wanted)));
    }
    Ok(())
}

// The last file of a store.
const LAST: u16 = 9_999;

// What a look finds of a store whose head and last file have these bytes, and how many bytes both have then.
fn looked_over(
    alloc: Global,
    head: &[u8],
    last: &[u8],
) -> Result<(Result<Option<Counts>, OpenFault>, u64, u64), Fail> {
    let mut store = blank(alloc);
    put_at(&mut store, HEAD, 0, head)?;
    put_at(&mut store, LAST, 0, last)?;
    let (found, mut store) = looked(alloc, store);
    Ok((
        found,
        front_of(&mut store, HEAD)?.0,
        front_of(&mut store, LAST)?.0,
    ))
}

#[test]
fn no_other_store_is_made_or_changed(rt: HostRuntime) -> Result<(), Fail> {
    let alloc = rt.alloc();
    let cases: [(&[u8], &[u8], Result<Option<Counts>, OpenFault>); 5] = [
        (b"", b"", Ok(None)),
        (b"\xA5", b"\xA5", Ok(None)),
        (b"\0ab", b"\xA5", Ok(None)),
        (b"", b"ab", Err(OpenFault::NotOurs(0))),
        (b"\xA5ab", b"ab", Err(OpenFault::Damaged(0, 0))),
    ];
    for (head, last, answer) in cases {
        let wanted = (answer, head.len() as u64, last.len() as u64);
        assert_eq!(rt; looked_over(alloc, head, last)?, wanted);
    }
    Ok(())
}

#[test]
fn a_failed_call_is_told(rt: HostRuntime) -> Result<(), Fail> {
    let alloc = rt.alloc();
    for call in [0, 1, u64::from(LAST)] {
        let (found, _store) = looked(alloc, failing(alloc, call)?);
        assert_eq!(rt; found, Err(OpenFault::Failed), "at {call}");
    }
    Ok(())
}
