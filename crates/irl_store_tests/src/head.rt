use irl_disk::{MemStore, Store};
use irl_head::{
    FILES, HEAD, OpenFault, decode, encode, find_head, first_bad, first_other, has_others,
    head_frame, write_head,
};
use irl_offer::{Asked, Kind, Rule, Settings};
use std::alloc::Global;
use std::test::Fail;

// The settings that a store of lines has where nothing is asked.
const SETTINGS_OF_LINES: Settings = Settings {
    kind: Kind::Lines,
    rule: Rule::Keep,
    buckets: 16,
    array: 1_024,
    trigger: 16_384,
    block: 4_096,
    cap: 1_099_511_627_776,
    queues: 2,
    base: 10,
    most: 10_000,
    ranks: 10_000,
};

const BYTES: [u8; 100] = [
    0x49, 0x52, 0x4C, 0x53, 0x54, 0x4F, 0x52, 0x45, // IRLSTORE
    1, 0, 0, 0, // version
    1, 0, 0, 0, 0, 0, 0, 0, // kind
    0, 0, 0, 0, 0, 0, 0, 0, // rule
    16, 0, 0, 0, 0, 0, 0, 0, // buckets
    0, 4, 0, 0, 0, 0, 0, 0, // array
    0, 0x40, 0, 0, 0, 0, 0, 0, // trigger
    0, 0x10, 0, 0, 0, 0, 0, 0, // block
    0, 0, 0, 0, 0, 1, 0, 0, // cap
    2, 0, 0, 0, 0, 0, 0, 0, // queues
    10, 0, 0, 0, 0, 0, 0, 0, // base
    0x10, 0x27, 0, 0, 0, 0, 0, 0, // most
    0x10, 0x27, 0, 0, 0, 0, 0, 0, // ranks
];

// The bytes with another one at a place.
fn with_byte(place: usize, byte: u8) -> [u8; 100] {
    let mut bytes = BYTES;
    if place < bytes.len() {
        bytes[place] = byte;
    }
    bytes
}

// The bytes with another number for setting n, from 1.
fn with_number(n: usize, number: u64) -> [u8; 100] {
    let mut bytes = BYTES;
    if (1..=11).contains(&n) {
        let at = 4 + 8 * n;
        bytes[at..at + 8].copy_from_slice(&number.to_le_bytes());
    }
    bytes
}

#[test]
fn settings_have_100_bytes(rt: HostRuntime) {
    for (kind, rule, kind_byte, rule_byte) in [
        (Kind::Lines, Rule::Keep, 1, 0),
        (Kind::Tuples, Rule::Replace, 2, 1),
        (Kind::Crawl, Rule::Add, 3, 2),
    ] {
        let settings = Settings {
            kind,
            rule,
            ..SETTINGS_OF_LINES
        };
        let mut bytes = BYTES;
        bytes[12] = kind_byte;
        bytes[20] = rule_byte;
        assert!(rt; encode(&settings) == bytes, "{kind:?}");
        assert!(rt; decode(&bytes) == Ok(settings), "{kind:?}");
    }
}

// A byte of the front that is another, and the place that is named.
const FRONT: [(usize, u64); 12] = [
    (0, 5),
    (1, 6),
    (2, 7),
    (3, 8),
    (4, 9),
    (5, 10),
    (6, 11),
    (7, 12),
    (8, 13),
    (9, 13),
    (10, 13),
    (11, 13),
];

// A setting, a number that it can't have, and the place that is named.
const NUMBERS: [(usize, u64, u64); 25] = [
    (1, 0, 17),
    (1, 4, 17),
    (2, 3, 25),
    (3, 0, 33),
    (3, 3, 33),
    (3, 128, 33),
    (3, 0x1_0000_0010, 33),
    (4, 0, 41),
    (4, 8_193, 41),
    (5, 0, 49),
    (5, 1_048_577, 49),
    (6, 0, 57),
    (6, 65_537, 57),
    (7, 0, 65),
    (7, 1_099_511_627_777, 65),
    (8, 0, 73),
    (8, 65, 73),
    (9, 0, 81),
    (9, 1_000_001, 81),
    // The least budget is in its range, and the greatest is below it.
    (9, 10_001, 89),
    (10, 9, 89),
    (10, 1_000_001, 89),
    (11, 0, 97),
    (11, 1_000_001, 97),
    (11, u64::MAX, 97),
];

#[test]
fn what_is_wrong_is_named_by_its_place_in_the_file(rt: HostRuntime) {
    for (place, at) in FRONT {
        assert!(rt; decode(&with_byte(place, 2)) == Err(at), "byte {place}");
    }
    for (n, number, at) in NUMBERS {
        assert!(rt; decode(&with_number(n, number)) == Err(at), "{n}: {number}");
    }
    // A payload has 100 bytes.
    for bytes in [
        b"".as_slice(),
        &BYTES[..1],
        &BYTES[..12],
        &BYTES[..99],
        &[0; 101],
    ] {
        assert!(rt; decode(bytes) == Err(1), "of {}", bytes.len());
    }
}

// What is found in a store with a head over which one byte is written, at a place.
fn found_with(alloc: Global, at: u64, byte: u8) -> Result<Option<Settings>, OpenFault> {
    let mut store = MemStore::new(alloc, Vec::new(alloc));
    let Ok(mut frame) = head_frame(alloc, &SETTINGS_OF_LINES) else {
        return Err(OpenFault::Failed);
    };
    if write_head(alloc, &mut store, &mut frame).is_err() {
        return Err(OpenFault::Failed);
    }
    let Ok(length) = store.length(HEAD) else {
        return Err(OpenFault::Failed);
    };
    if at <= length && store.write(HEAD, at, &[byte]).is_err() {
        return Err(OpenFault::Failed);
    }
    find_head(alloc, &mut store)
}

#[test]
fn a_head_is_written_and_found(rt: HostRuntime) {
    for (at, byte, answer) in [
        (105, 0, Ok(Some(SETTINGS_OF_LINES))),
        // A byte behind the closed gate means nothing.
        (106, 1, Ok(Some(SETTINGS_OF_LINES))),
        (0, 0, Ok(None)),
        (1, 99, Err(OpenFault::NotOurs(1))),
        (1, 101, Err(OpenFault::Damaged(0, 0))),
        (5, b'i', Err(OpenFault::NotOurs(5))),
        (13, 2, Err(OpenFault::NotOurs(13))),
        (33, 3, Err(OpenFault::NotOurs(33))),
        // A second record begins, and none is whole there.
        (105, 0xA5, Err(OpenFault::NotOurs(105))),
    ] {
        assert!(rt; found_with(rt.alloc(), at, byte) == answer, "at {at}");
    }
}

#[test]
fn a_store_is_new_where_no_file_has_two_bytes(rt: HostRuntime) -> Result<(), Fail> {
    let alloc = rt.alloc();
    for (f, bytes, has) in [
        (HEAD, b"\xA5a".as_slice(), false),
        (1, b"a", false),
        (1, b"ab", true),
        (FILES - 1, b"ab", true),
    ] {
        let mut store = MemStore::new(alloc, Vec::new(alloc));
        store.write(f, 0, bytes)?;
        assert!(rt; has_others(&mut store)? == has, "file {f}");
        // Without a record there is no head, and a file of one byte isn't touched.
        assert!(rt; (store.length(HEAD)? > 1) == (f == HEAD), "file {f}");
    }
    Ok(())
}

// What is asked of each setting otherwise than it is kept, but for the kind.
const ALL: Asked = Asked {
    kind: Kind::Lines,
    rule: Some(Rule::Add),
    buckets: Some(64),
    array: Some(8_193),
    trigger: Some(1),
    block: Some(1),
    cap: Some(1),
    queues: Some(64),
    base: Some(11),
    most: Some(10),
    ranks: Some(1),
};

const NONE: Asked = Asked {
    kind: Kind::Lines,
    rule: None,
    buckets: None,
    array: None,
    trigger: None,
    block: None,
    cap: None,
    queues: None,
    base: None,
    most: None,
    ranks: None,
};

#[test]
fn the_first_setting_that_differs_is_told(rt: HostRuntime) {
    let kept = Settings::of_new_store(&NONE);
    assert!(rt; first_other(&NONE, &kept).is_none());
    assert!(rt; first_other(&ALL, &Settings::of_new_store(&ALL)).is_none());
    for (asked, other) in [
        (
            Asked {
                kind: Kind::Crawl,
                ..ALL
            },
            (1, 1, 3),
        ),
        (ALL, (2, 0, 2)),
        (Asked { rule: None, ..ALL }, (3, 16, 64)),
        (
            Asked {
                cap: Some(7),
                ..NONE
            },
            (7, 1_099_511_627_776, 7),
        ),
        (
            Asked {
                buckets: Some(16),
                ranks: Some(1),
                ..NONE
            },
            (11, 10_000, 1),
        ),
    ] {
        assert!(rt; first_other(&asked, &kept) == Some(other), "{other:?}");
    }
}

#[test]
fn the_first_setting_out_of_its_range_is_told(rt: HostRuntime) {
    for (asked, bad) in [
        (NONE, None),
        (ALL, Some(4)),
        (Asked { array: None, ..ALL }, Some(10)),
        (
            Asked {
                buckets: Some(3),
                ..ALL
            },
            Some(3),
        ),
        (
            Asked {
                cap: Some(0),
                ..NONE
            },
            Some(7),
        ),
        (
            Asked {
                ranks: Some(0),
                ..NONE
            },
            Some(11),
        ),
    ] {
        assert!(rt;
            first_bad(&Settings::of_new_store(&asked)) == bad,
            "{bad:?}"
        );
    }
}
