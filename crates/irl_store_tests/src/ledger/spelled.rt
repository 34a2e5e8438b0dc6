//! Crawls whose files are spelled by hand, which are entered.

use crate::calls::noting::noted_after;
use crate::calls::{Call, Numbers, after, numbers, opened, refused, step};
use crate::stores::{CRAWL_OF_ONE, blank, copied, put_at};
use irl_disk::MemStore;
use irl_frontier::Fate;
use irl_head::{CRAWL, OpenFault, PAIRS_BASE, URLS_BASE};
use irl_offer::{Asked, Fault, Outcome};
use irl_yard::Yard;
use std::alloc::{AllocError, Global};
use std::test::Fail;

// A crawl over one bucket. A pass takes two pages of a domain that no other links to, and up to 10,000 of one that is
// linked to.
const ASKED: Asked = Asked {
    array: Some(16),
    trigger: Some(1_024),
    block: Some(4_096),
    cap: Some(1_000_000),
    queues: Some(2),
    base: Some(2),
    most: Some(10_000),
    ranks: Some(10),
    ..CRAWL_OF_ONE
};

// ---- bytes
fn put(bytes: &mut Vec<u8>, number: u64) -> Result<(), AllocError> {
    bytes.extend_from_slice(&number.to_le_bytes())
}

fn put_record(bytes: &mut Vec<u8>, payload: &[u8]) -> Result<(), AllocError> {
    bytes.push(0xA5)?;
    bytes.extend_from_slice(&(payload.len() as u64).to_le_bytes()[..4])?;
    bytes.extend_from_slice(payload)
}

// Behind the last record stands a closed gate.
fn close(records: &mut Vec<u8>) -> Result<(), AllocError> {
    records.push(0)?;
    Ok(())
}

// Begins with the suffix "test".
const BEGIN: &[u8] = b"\x01test";

// That a host has no robots file.
const NOTE: &[u8] = b"\x04\x09\0\0\0\0\0\0\0\x01\x03\0a.b";

// An event of numbers alone.
fn event(alloc: Global, tag: u8, numbers: &[u64]) -> Result<Vec<u8>, AllocError> {
    let mut payload = vec![in alloc; tag]?;
    for number in numbers {
        put(&mut payload, *number)?;
    }
    Ok(payload)
}

// The outcome of a page.
fn settle(alloc: Global, front: u64, number: u64) -> Result<Vec<u8>, AllocError> {
    let mut payload = vec![in alloc; 5, 1, 0, 0, 0]?;
    put(&mut payload, front)?;
    put(&mut payload, number)?;
    payload.extend_from_slice(&[0; 5])?;
    Ok(payload)
}

// ---- a store
// Puts the number's last four digits behind a text.
fn put_digits(text: &mut Vec<u8>, number: u64) -> Result<(), AllocError> {
    for place in [1_000, 100, 10, 1] {
        text.push(b'0' + (number / place % 10) as u8)?;
    }
    Ok(())
}

// A judged offer of this text, and the text.
fn put_entry(
    entries: &mut Vec<u8>,
    texts: &mut Vec<u8>,
    number: u64,
    text: &[u8],
) -> Result<(), AllocError> {
    entries.extend_from_slice(&[0, 2, 1, 0])?;
    entries.extend_from_slice(&(text.len() as u64).to_le_bytes()[..4])?;
    for number in [number, 0, 0, 0, texts.len() as u64] {
        put(entries, number)?;
    }
    texts.extend_from_slice(text)
}

// The judged file and its texts: so many offers, each unique, with this text, and its number behind where texts are told
// apart.
fn entries_of(
    alloc: Global,
    count: u64,
    front: &[u8],
    differ: bool,
) -> Result<(Vec<u8>, Vec<u8>), AllocError> {
    let mut entries = Vec::new(alloc);
    let mut texts = Vec::new(alloc);
    for i in 0..count {
        let mut text = front.to_vec(alloc)?;
        if differ {
            put_digits(&mut text, i)?;
        }
        put_entry(&mut entries, &mut texts, i, &text)?;
    }
    Ok((entries, texts))
}

// Writes a bay of which one cut judged so many offers. The buckets' files on side 1 are live.
fn write_bay(
    alloc: Global,
    store: &mut MemStore,
    base: u16,
    count: u16,
    front: &[u8],
    differ: bool,
) -> Result<(), Fault> {
    let (entries, texts) = entries_of(alloc, u64::from(count), front, differ)?;
    let cache = vec![in alloc; 0; 16 * usize::from(count)]?;
    let count = u64::from(count);
    let commit = event(alloc, 4, &[count, count, count, texts.len() as u64, count])?;
    let mut records = Vec::new(alloc);
    put_record(&mut records, &commit)?;
    close(&mut records)?;
    // The manifest, the live side of the cache, the judged offers and their texts.
    put_at(store, base, 0, &records)?;
    put_at(store, base.saturating_add(1), 0, &cache)?;
    put_at(store, base.saturating_add(3), 0, &entries)?;
    put_at(store, base.saturating_add(4), 0, &texts)?;
    Ok(())
}

// A store of so many URLs of one domain, of as many links to it from others, and of this log.
fn written(alloc: Global, count: u16, log: &[u8]) -> Result<MemStore, Fault> {
    let made = after(alloc, blank(alloc), &ASKED, &[])?;
    let mut store = copied(alloc, &made)?;
    write_bay(alloc, &mut store, URLS_BASE, count, b"http://a.test/", true)?;
    write_bay(alloc, &mut store, PAIRS_BASE, count, b"a.test", false)?;
    put_at(&mut store, CRAWL, 0, log)?;
    Ok(store)
}

// ---- a log of a real size
// A beginning, a pass that reads so many URLs, a note, and the outcomes of all but the last, one after the other.
fn long_log(alloc: Global, count: u64) -> Result<Vec<u8>, AllocError> {
    let mut log = Vec::new(alloc);
    put_record(&mut log, BEGIN)?;
    put_record(&mut log, &event(alloc, 2, &[1, count, count])?)?;
    put_record(&mut log, &event(alloc, 3, &[count])?)?;
    put_record(&mut log, NOTE)?;
    for i in 1..count {
        put_record(&mut log, &settle(alloc, count, i - 1)?)?;
    }
    close(&mut log)?;
    Ok(log)
}

// Whether the crawl began with these suffixes.
fn has_suffixes(yard: &Yard<MemStore>, text: &[u8]) -> bool {
    match yard.suffixes() {
        Some(suffixes) => suffixes.text() == text,
        None => false,
    }
}

// How much there is in a store that is entered, and once its page of this URL is settled.
fn settled(alloc: Global, yard: &mut Yard<MemStore>, url: &[u8]) -> Result<[Numbers; 2], Fault> {
    Ok([numbers(yard), step(alloc, yard, Call::Settle(url))?])
}

// Whether a store that is entered began with one suffix, what became of the last two of its URLs, and how much there is, once
// more when the last is settled.
fn told_of(alloc: Global, store: MemStore) -> Result<(bool, [Fate; 2], [Numbers; 2]), Fault> {
    let mut yard = opened(alloc, store, &ASKED)?;
    let is_so = has_suffixes(&yard, b"test");
    let fates = [yard.fate(4_998), yard.fate(4_999)];
    Ok((
        is_so,
        fates,
        settled(alloc, &mut yard, b"http://a.test/4999")?,
    ))
}

#[test]
fn thousands_of_events_are_done_again(rt: HostRuntime) -> Result<(), Fail> {
    let alloc = rt.alloc();
    let store = written(alloc, 5_000, &long_log(alloc, 5_000)?)?;
    let fates = [Fate::Done(Outcome::Page), Fate::Front];
    // No pass is due while one URL is in front. Then one is, as the pairs of all cuts are sent.
    let wanted = [
        [5_000, 5_000, 5_000, 5_000, 1, 4_999, 1, 0, 1],
        [5_000, 5_000, 5_000, 5_000, 0, 5_000, 1, 1, 1],
    ];
    assert!(rt; told_of(alloc, store)? == (true, fates, wanted));
    Ok(())
}

// ---- events that are damage
// Of three URLs and as many pairs: that one cut of each was sent, that the URLs were read, and that the first was a
// page.
const SENT: &[u8] = b"\x02\x01\0\0\0\0\0\0\0\x03\0\0\0\0\0\0\0\x03\0\0\0\0\0\0\0";

const READ: &[u8] = b"\x03\x03\0\0\0\0\0\0\0";

const DONE: &[u8] = b"\x05\x01\0\0\0\x03\0\0\0\0\0\0\0\0\0\0\0\0\0\0\0\0\0\0\0\0";

// Events that are taken.
const TAKEN: &[&[u8]] = &[BEGIN, SENT, READ, NOTE, DONE];

// Events the last of which is damage.
const REFUSED: [&[&[u8]]; 11] = [
    // Begin comes first, and only there.
    &[SENT],
    &[BEGIN, BEGIN],
    // The numbers of Pairs don't fall, and are those of a cut of the URLs and of one of the pairs.
    &[
        BEGIN,
        SENT,
        b"\x02\0\0\0\0\0\0\0\0\0\0\0\0\0\0\0\0\0\0\0\0\0\0\0\0",
    ],
    &[
        BEGIN,
        b"\x02\x02\0\0\0\0\0\0\0\x03\0\0\0\0\0\0\0\0\0\0\0\0\0\0\0",
    ],
    &[
        BEGIN,
        b"\x02\x01\0\0\0\0\0\0\0\x02\0\0\0\0\0\0\0\0\0\0\0\0\0\0\0",
    ],
    &[
        BEGIN,
        b"\x02\x01\0\0\0\0\0\0\0\x03\0\0\0\0\0\0\0\x01\0\0\0\0\0\0\0",
    ],
    // A Pass has the number of the last Pairs, and finds the front empty.
    &[BEGIN, SENT, b"\x03\x02\0\0\0\0\0\0\0"],
    &[BEGIN, SENT, READ, NOTE, READ],
    // A Settle has an outcome or a front that rose, and only some of the front.
    &[BEGIN, SENT, READ, b"\x05\0\0\0\0\0\0\0\0\0\0\0\0"],
    &[BEGIN, SENT, READ, DONE, NOTE, DONE],
    // No front passes its list.
    &[
        BEGIN,
        SENT,
        READ,
        b"\x05\x01\0\0\0\x04\0\0\0\0\0\0\0\0\0\0\0\0\0\0\0\0\0\0\0\0",
    ],
];

// The log of these events, and where the last of them stands.
fn log_of(alloc: Global, payloads: &[&[u8]]) -> Result<(Vec<u8>, u64), AllocError> {
    let mut log = Vec::new(alloc);
    let mut at = 0;
    for payload in payloads {
        at = log.len() as u64;
        put_record(&mut log, payload)?;
    }
    close(&mut log)?;
    Ok((log, at))
}

// What entering answers where the log has these events, and where the last of them stands.
fn answer(alloc: Global, payloads: &[&[u8]]) -> Result<(Option<OpenFault>, u64), Fault> {
    let (log, at) = log_of(alloc, payloads)?;
    Ok((refused(alloc, written(alloc, 3, &log)?, &ASKED), at))
}

#[test]
fn the_first_event_that_breaks_a_rule_is_named(rt: HostRuntime) -> Result<(), Fail> {
    let alloc = rt.alloc();
    for payloads in REFUSED {
        let (refused, at) = answer(alloc, payloads)?;
        assert_eq!(rt; refused, Some(OpenFault::Damaged(CRAWL, at)), "at {at}");
    }
    assert_eq!(rt; answer(alloc, TAKEN)?.0, None);
    Ok(())
}

// ---- files that are damaged
// What entering answers where a byte of a file is another, behind a pass that read all of it.
fn changed(alloc: Global, f: u16, at: u64, byte: u8) -> Result<Option<OpenFault>, Fault> {
    let (log, _) = log_of(alloc, &[BEGIN, SENT, READ])?;
    let mut store = written(alloc, 3, &log)?;
    put_at(&mut store, f, at, &[byte])?;
    Ok(refused(alloc, store, &ASKED))
}

// A file, a place in it, the byte that stands there, and what is named.
const CHANGED: [(u16, u64, u8, u16, u64); 6] = [
    // The commit of the pairs names no side.
    (300, 5, 9, 300, 0),
    // It says that nine pairs are judged.
    (300, 14, 9, 303, 144),
    // The second pair is of another bucket.
    (303, 48, 1, 303, 48),
    // The third URL has a verdict that there isn't.
    (103, 98, 9, 103, 96),
    // The second has a text that is no URL.
    (104, 18, b'x', 103, 48),
    // The log has a record that isn't whole.
    (1, 3, 1, 1, 0),
];

#[test]
fn damage_of_a_file_is_named(rt: HostRuntime) -> Result<(), Fail> {
    let alloc = rt.alloc();
    for (f, at, byte, file, place) in CHANGED {
        let refused = changed(alloc, f, at, byte)?;
        assert_eq!(rt;
            refused,
            Some(OpenFault::Damaged(file, place)),
            "{f} at {at}"
        );
    }
    Ok(())
}

// ---- notes
// That a host has no robots file, and that it can't be had, as known a moment later.
const OTHER_NOTE: &[u8] = b"\x04\x0a\0\0\0\0\0\0\0\x01\x03\0c.d";

const LAST_NOTE: &[u8] = b"\x04\x14\0\0\0\0\0\0\0\x02\x03\0a.b";

const DAY: u64 = 86_400_000;

// A host and a moment, and the moment of the note that is then in use.
const ASKS: [(&[u8], u64); 7] = [
    (b"a.b", 20),
    (b"a.b", 19),
    (b"a.b", 19 + DAY),
    (b"a.b", 20 + DAY),
    (b"c.d", 20),
    (b"a.", 20),
    (b"", 20),
];

const IN_USE: [Option<u64>; 7] = [Some(20), None, Some(20), None, Some(10), None, None];

#[test]
fn the_last_note_of_a_host_is_found(rt: HostRuntime) -> Result<(), Fail> {
    let alloc = rt.alloc();
    let (log, _) = log_of(alloc, &[BEGIN, NOTE, OTHER_NOTE, LAST_NOTE])?;
    let store = written(alloc, 1, &log)?;
    let (found, _store) = noted_after(alloc, store, &ASKED, &[], &ASKS)?;
    assert!(rt; found.as_slice() == IN_USE.as_slice());
    Ok(())
}
