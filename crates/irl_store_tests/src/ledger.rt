//! Tests of `irl_ledger`, by stores of a crawl: of its files and notes here, and below of logs that are spelled by hand.

mod reading;
mod spelled;

use crate::calls::noting::noted_after;
use crate::calls::{Call, Host, NO_HOST, after, built, found};
use crate::stores::{CRAWL_OF_ONE, add, blank, front_of, left};
use irl_disk::{MemStore, Part};
use irl_head::{CRAWL, PAIRS_BASE};
use irl_offer::{Asked, Fault};
use std::alloc::{AllocError, Global};
use std::test::Fail;

// The files of a new crawl of two buckets that have a closed gate beside the bay of URLs, and some that have none.
const GATES: [u16; 4] = [CRAWL, PAIRS_BASE, PAIRS_BASE + 10, PAIRS_BASE + 12];

const NONE: [u16; 4] = [2, PAIRS_BASE + 1, PAIRS_BASE + 11, PAIRS_BASE + 500];

#[test]
fn each_journal_has_its_closed_gate(rt: HostRuntime) -> Result<(), Fail> {
    let alloc = rt.alloc();
    let asked = Asked {
        buckets: Some(2),
        ..CRAWL_OF_ONE
    };
    let mut store = after(alloc, blank(alloc), &asked, &[])?;
    // Behind those that ask for the lengths of all files 15 calls make the bay of URLs and the head, and eight write and
    // sync each of these journals.
    assert_eq!(rt; store.calls(), 10_023);
    for f in GATES {
        assert_eq!(rt; front_of(&mut store, f)?, (1, 0), "{f}");
    }
    for f in NONE {
        assert_eq!(rt; front_of(&mut store, f)?.0, 0, "{f}");
    }
    Ok(())
}

// ---- notes
// There are so many hosts, and three notes of each, one after the other.
const HOSTS: u64 = 100;

const NOTES: u64 = 300;

// The name of a host.
fn name(host: u64) -> Host {
    let (ten, one) = (b'0' + (host / 10 % 10) as u8, b'0' + (host % 10) as u8);
    [b'h', ten, one, b'.', b'n', b'o']
}

// All the notes, each at a moment of its own.
fn notes(alloc: Global) -> Result<Vec<(Host, u64)>, AllocError> {
    let mut notes = Vec::new(alloc);
    for when in 0..NOTES {
        add(&mut notes, (name(when % HOSTS), when))?;
    }
    Ok(notes)
}

// How many hosts have a note once these calls were made in a store, which has to be the last one of each; and the store.
fn noted_hosts(
    alloc: Global,
    store: MemStore,
    calls: &[Call<'_>],
) -> Result<(u64, MemStore), Fault> {
    let mut count = 0_u64;
    let mut names = Vec::new(alloc);
    for host in 0..HOSTS {
        add(&mut names, name(host))?;
    }
    let mut asks: Vec<(&[u8], u64)> = Vec::new(alloc);
    for name in &names {
        add(&mut asks, (name.as_slice(), NOTES))?;
    }
    let (found, store) = noted_after(alloc, store, &CRAWL_OF_ONE, calls, &asks)?;
    for (host, when) in (0..HOSTS).zip(found) {
        match when {
            Some(when) if when == host.saturating_add(NOTES - HOSTS) => count =
                count.saturating_add(1),
            Some(_) => return Err(Fault::Memory),
            None => {}
        }
    }
    Ok((count, store))
}

#[test]
fn the_last_of_several_notes_is_found(rt: HostRuntime) -> Result<(), Fail> {
    let alloc = rt.alloc();
    let notes = notes(alloc)?;
    let calls = [Call::Begin, Call::Note(&notes)];
    let (count, store) = noted_hosts(alloc, blank(alloc), &calls)?;
    assert_eq!(rt; count, HOSTS);
    assert_eq!(rt; noted_hosts(alloc, store, &[])?.0, HOSTS);
    Ok(())
}

// Whether a crawl has begun, the note of a host, and how many of the others have their last one.
type Noted = (bool, Option<u64>, u64);

// These of what a stop in a call left.
fn noted_in(alloc: Global, store: &MemStore, call: u64, part: Part) -> Result<Noted, Fault> {
    let image = left(alloc, store, call, part)?;
    let has_begun = found(alloc, image, &CRAWL_OF_ONE)?[6] == 1;
    let image = left(alloc, store, call, part)?;
    let asks = [(b"a.test".as_slice(), NOTES)];
    let (first, image) = noted_after(alloc, image, &CRAWL_OF_ONE, &[], &asks)?;
    let first = first.first().copied().flatten();
    Ok((has_begun, first, noted_hosts(alloc, image, &[])?.0))
}

// The first of four calls in which a stop leaves anything else: what was before up to the third, which opens a gate, and
// then what is behind.
fn wrong_in(
    alloc: Global,
    store: &MemStore,
    first: u64,
    before: Option<Noted>,
    behind: Option<Noted>,
) -> Result<Option<u64>, Fault> {
    for i in 0..4 {
        let call = first.saturating_add(i);
        for part in [Part::Old, Part::New, Part::Torn] {
            let found = noted_in(alloc, store, call, part)?;
            let is_added = i == 3 || i == 2 && part != Part::Old;
            if Some(found) != (if is_added { behind } else { before }) {
                return Ok(Some(call));
            }
        }
    }
    Ok(None)
}

// Each of these events is added by four calls of the store, in the third of which its gate is opened: a stop leaves all of
// it or nothing.
#[test]
fn a_stop_leaves_each_event_or_none(rt: HostRuntime) -> Result<(), Fail> {
    let alloc = rt.alloc();
    let notes = notes(alloc)?;
    let calls = [
        Call::Begin,
        Call::Note(&[(*b"a.test", 3)]),
        Call::Note(&notes),
    ];
    let states = [
        (false, None, 0),
        (true, None, 0),
        (true, Some(3), 0),
        (true, Some(3), HOSTS),
    ];
    let (store, ends) = built(alloc, &CRAWL_OF_ONE, &calls)?;
    for (event, (first, end)) in ends.iter().zip(ends.iter().skip(1)).enumerate() {
        assert_eq!(rt; first.saturating_add(4), *end);
        let before = states.get(event).copied();
        let behind = states.get(event.saturating_add(1)).copied();
        let wrong = wrong_in(alloc, &store, *first, before, behind)?;
        assert!(rt; wrong.is_none(), "event {event}");
    }
    Ok(())
}

// Notes of two hosts, the first three at once, and the last behind a URL that is offered.
const SOME: [Call<'static>; 5] = [
    Call::Begin,
    Call::Note(&[(*b"b.test", 2), (*b"a.test", 3), (*b"b.test", 5)]),
    Call::Give(NO_HOST, 1, b"http://a.test/"),
    Call::Merge,
    Call::Note(&[(*b"a.test", 9)]),
];

// A day behind the second note its host has none.
const DAY: u64 = 86_400_000;

const ASKS: [(&[u8], u64); 6] = [
    (b"a.test", 20),
    (b"b.test", 20),
    (b"c.test", 20),
    (b"a.test", DAY + 5),
    (b"b.test", DAY + 5),
    (b"c.test", DAY + 5),
];

#[test]
fn the_last_notes_are_found_once_it_is_entered_again(rt: HostRuntime) -> Result<(), Fail> {
    let alloc = rt.alloc();
    let wanted = [Some(9), Some(5), None, Some(9), None, None];
    let (found, store) = noted_after(alloc, blank(alloc), &CRAWL_OF_ONE, &SOME, &ASKS)?;
    assert!(rt; found.as_slice() == wanted.as_slice());
    let (found, _store) = noted_after(alloc, store, &CRAWL_OF_ONE, &[], &ASKS)?;
    assert!(rt; found.as_slice() == wanted.as_slice());
    Ok(())
}
