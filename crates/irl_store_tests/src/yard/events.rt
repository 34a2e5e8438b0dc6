//! Events that are spelled by hand behind those of a crawl of one page.

use super::crawled::CRAWLED;
use crate::calls::{after, refused};
use crate::stores::{CRAWL_OF_ONE, blank, copied, put_at};
use irl_disk::MemStore;
use irl_head::{CRAWL, OpenFault, PAIRS_BASE};
use std::alloc::{AllocError, Global};
use std::test::Fail;

// Why the store of a crawl of one page is refused, with these bytes at a place of a file.
fn refused_with(
    alloc: Global,
    store: &MemStore,
    f: u16,
    at: u64,
    bytes: &[u8],
) -> Result<Option<OpenFault>, Fail> {
    let mut image = copied(alloc, store)?;
    put_at(&mut image, f, at, bytes)?;
    Ok(refused(alloc, image, &CRAWL_OF_ONE))
}

// An event: the place of its gate in the log, its record's payload, as a first part and a rest, behind which stand so
// many letters, and whether it is taken. Nothing stands behind it.
type Row = (u64, &'static [u8], &'static [u8], usize, bool);

// That pairs of one cut of two offers were sent, without their number; and that this is none.
const SENT: &[u8] = b"\x02\x01\0\0\0\0\0\0\0\x02\0\0\0\0\0\0\0";

const NONE: &[u8] = b"\0\0\0\0\0\0\0\0";

// A note of a moment, without its state, its host and its text.
const NOTE: &[u8] = b"\x04\x09\0\0\0\0\0\0\0";

// That URL 0 is done, without what came of it; and that this was a page. Two outcomes alone have a number beside them:
// a status, and the line of a rule.
const SETTLE: &[u8] = b"\x05\x01\0\0\0\x02\0\0\0\0\0\0\0\0\0\0\0\0\0\0\0";

const PAGE: &[u8] = b"\0\0\0\0\0";

// Of a crawl of one page, whose events stand at 0, 10, 40 and 54, before the end at 85.
const EVENTS: [Row; 63] = [
    // A list of names of domains.
    (0, b"\x01", b"test", 0, true),
    (0, b"\x01", b"co.test\ntest", 0, true),
    (0, b"\x01", b"Test", 0, false),
    (0, b"\x01", b"test\n", 0, false),
    (0, b"\x01", b"a", 253, false),
    // How many cuts there were when pairs were sent, how many offers were judged then, and how many pairs.
    (10, SENT, NONE, 0, true),
    (
        10,
        b"\x02\x02\0\0\0\0\0\0\0\x02\0\0\0\0\0\0\0",
        NONE,
        0,
        false,
    ),
    (
        10,
        b"\x02\x01\0\0\0\0\0\0\0\x01\0\0\0\0\0\0\0",
        NONE,
        0,
        false,
    ),
    (
        10,
        b"\x02\x01\0\0\0\0\0\0\0\x03\0\0\0\0\0\0\0",
        NONE,
        0,
        false,
    ),
    (10, SENT, b"\x01\0\0\0\0\0\0\0", 0, false),
    (10, SENT, b"\0\0\0\0\0\0\0", 0, false),
    (10, SENT, b"\0\0\0\0\0\0\0\0\0", 0, false),
    // How many offers were judged when a pass was made.
    (40, b"\x03\x02\0\0\0\0\0\0\0", b"", 0, true),
    (40, b"\x03\x01\0\0\0\0\0\0\0", b"", 0, false),
    (40, b"\x03\x02\0\0\0\0\0\0", b"", 0, false),
    (40, b"\x03\x02\0\0\0\0\0\0\0", b"\0", 0, false),
    // What came of the page.
    (54, SETTLE, PAGE, 0, true),
    (54, SETTLE, b"\x01\0\0\0\0", 0, true),
    (54, SETTLE, b"\x02\xFF\xFF\0\0", 0, true),
    (54, SETTLE, b"\x03\xFF\xFF\xFF\xFF", 0, true),
    (54, SETTLE, b"\x04\0\0\0\0", 0, true),
    (54, SETTLE, b"\x05\0\0\0\0", 0, true),
    (54, SETTLE, b"\x06\0\0\0\0", 0, true),
    (54, SETTLE, b"\x07\0\0\0\0", 0, true),
    (54, SETTLE, b"\x08\0\0\0\0", 0, true),
    (54, SETTLE, b"\x09\0\0\0\0", 0, false),
    (54, SETTLE, b"\xFF\0\0\0\0", 0, false),
    (54, SETTLE, b"\0\x01\0\0\0", 0, false),
    (54, SETTLE, b"\x01\x01\0\0\0", 0, false),
    (54, SETTLE, b"\x02\0\0\x01\0", 0, false),
    (54, SETTLE, b"\x04\x01\0\0\0", 0, false),
    (54, SETTLE, b"\x05\0\0\0\x01", 0, false),
    (54, SETTLE, b"\x06\0\x01\0\0", 0, false),
    (54, SETTLE, b"\x07\x01\0\0\0", 0, false),
    (54, SETTLE, b"\x08\x01\0\0\0", 0, false),
    (54, SETTLE, b"\0\0\0\0", 0, false),
    (54, SETTLE, b"\0\0\0\0\0\0", 0, false),
    // How many pages there are, how long the list was then, and the page's number.
    (
        54,
        b"\x05\x02\0\0\0\x02\0\0\0\0\0\0\0\0\0\0\0\0\0\0\0",
        PAGE,
        0,
        false,
    ),
    (
        54,
        b"\x05\0\0\0\0\x02\0\0\0\0\0\0\0\0\0\0\0\0\0\0\0",
        PAGE,
        0,
        false,
    ),
    (
        54,
        b"\x05\x01\0\0\0\x03\0\0\0\0\0\0\0\0\0\0\0\0\0\0\0",
        PAGE,
        0,
        false,
    ),
    (
        54,
        b"\x05\x01\0\0\0\x02\0\0\0\0\0\0\0\x01\0\0\0\0\0\0\0",
        PAGE,
        0,
        false,
    ),
    // No page, where the list is longer, and where it isn't.
    (54, b"\x05\0\0\0\0\x02\0\0\0\0\0\0\0", b"", 0, true),
    (85, b"\x05\0\0\0\0\x02\0\0\0\0\0\0\0", b"", 0, false),
    (54, b"\x05\0\0\0\0", b"", 0, false),
    // The rules of a host, and that it has none or is shut.
    (85, NOTE, b"\0\x01\0a", 512_000, true),
    (85, NOTE, b"\x01\x01\0a", 0, true),
    (85, NOTE, b"\x02\x01\0a", 0, true),
    (85, NOTE, b"\x01\0\x08", 2_048, true),
    (85, NOTE, b"\0\x01\0a", 512_001, false),
    (85, NOTE, b"\x01\x01\0ab", 0, false),
    (85, NOTE, b"\x02\x01\0ab", 0, false),
    (85, NOTE, b"\x03\x01\0a", 0, false),
    (85, NOTE, b"\x01\x01\x08", 2_049, false),
    (85, NOTE, b"\0\0\0", 0, false),
    (85, NOTE, b"\x01\0\0", 0, false),
    (85, NOTE, b"\x01\x02\0a", 0, false),
    (85, NOTE, b"\x01\x01", 0, false),
    (85, NOTE, b"", 0, false),
    // No event has these tags.
    (85, b"", b"", 0, false),
    (85, b"\0", b"", 0, false),
    (85, b"\x06", b"", 0, false),
    (85, b"\xFF", b"\x02\0\0\0\0\0\0\0", 0, false),
    // A crawl begins once.
    (85, b"\x01", b"test", 0, false),
];

// A record behind its open gate, and a closed one behind it.
fn record_of(alloc: Global, payload: (&[u8], &[u8], usize)) -> Result<Vec<u8>, AllocError> {
    let (front, rest, letters) = payload;
    let length = front
        .len()
        .saturating_add(rest.len())
        .saturating_add(letters);
    let mut bytes = vec![in alloc; 0xA5]?;
    bytes.extend_from_slice(&(length as u64).to_le_bytes()[..4])?;
    bytes.extend_from_slice(front)?;
    bytes.extend_from_slice(rest)?;
    bytes.resize(length.saturating_add(5), b'a')?;
    bytes.push(0)?;
    Ok(bytes)
}

#[test]
fn an_event_of_no_form_or_of_no_such_books_is_damage(rt: HostRuntime) -> Result<(), Fail> {
    let alloc = rt.alloc();
    let store = after(alloc, blank(alloc), &CRAWL_OF_ONE, &CRAWLED)?;
    for (at, front, rest, letters, is_taken) in EVENTS {
        let record = record_of(alloc, (front, rest, letters))?;
        let found = refused_with(alloc, &store, CRAWL, at, &record)?;
        let damage = OpenFault::Damaged(CRAWL, at);
        let wanted = if is_taken { None } else { Some(damage) };
        assert!(rt; found == wanted, "at {at}");
    }
    Ok(())
}

// A journal of one byte is empty, whatever the byte is.
#[test]
fn damage_of_the_pairs_is_named(rt: HostRuntime) -> Result<(), Fail> {
    let alloc = rt.alloc();
    let store = after(alloc, blank(alloc), &CRAWL_OF_ONE, &CRAWLED)?;
    let journal = PAIRS_BASE + 10;
    let damage = OpenFault::Damaged(journal, 0);
    for (bytes, answer) in [
        (b"\xA5".as_slice(), None),
        (b"\xA5\xFF\0\0\0\0", Some(damage)),
    ] {
        let found = refused_with(alloc, &store, journal, 0, bytes)?;
        assert_eq!(rt; found, answer);
    }
    Ok(())
}
