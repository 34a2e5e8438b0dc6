use irl_layout::{JudgedEntry, push_judged};
use irl_offer::{Entry, Op, Verdict};
use std::test::Fail;

// The entry of an offer of bucket 10 on a known key, whose text has the greatest length and stands at place 258.
const ENTRY: JudgedEntry = JudgedEntry {
    bucket: 10,
    op: Op::Both,
    verdict: Some(Verdict::Known(7)),
    aux_len: 2_048,
    key: 0xA999_3E36_4706_816A,
    value: 9,
    from: 1,
    place: 258,
};

const BYTES: [u8; 48] = [
    10, 2, 3, 0, // bucket, operation, verdict
    0, 8, 0, 0, // the text's length
    0x6A, 0x81, 0x06, 0x47, 0x36, 0x3E, 0x99, 0xA9, // key
    9, 0, 0, 0, 0, 0, 0, 0, // value
    1, 0, 0, 0, 0, 0, 0, 0, // source
    7, 0, 0, 0, 0, 0, 0, 0, // the value that the verdict tells
    2, 1, 0, 0, 0, 0, 0, 0, // place
];

#[test]
fn a_judged_offer_has_48_bytes(rt: HostRuntime) -> Result<(), Fail> {
    let offer = Entry {
        op: Op::Both,
        aux_len: 2_048,
        key: ENTRY.key,
        value: 9,
        from: 1,
    };
    let mut bytes = Vec::new(rt.alloc());
    push_judged(&mut bytes, 258, 10, &offer, Some(Verdict::Known(7)))?;
    assert!(rt; bytes.as_slice() == BYTES.as_slice());
    assert!(rt; JudgedEntry::decode(&BYTES) == Some(ENTRY));
    Ok(())
}

// What a verdict is read as, by its number and the first byte of the value that it tells, where another byte stands at a
// place too.
fn verdict_with(number: u8, value: u8, place: usize, byte: u8) -> Option<Option<Verdict>> {
    let mut bytes = BYTES;
    bytes[2] = number;
    bytes[32] = value;
    if place < bytes.len() {
        bytes[place] = byte;
    }
    Some(JudgedEntry::decode(&bytes)?.verdict)
}

const KNOWN: Option<Option<Verdict>> = Some(Some(Verdict::Known(7)));

#[test]
fn an_entry_is_read_strictly(rt: HostRuntime) {
    for (number, value, place, byte, found) in [
        (3, 7, 0, 255, KNOWN),
        (3, 7, 1, 0, KNOWN),
        (3, 7, 1, 3, None),
        (3, 7, 3, 1, None),
        (3, 7, 4, 1, None),
        (3, 7, 5, 7, KNOWN),
        (3, 7, 6, 1, None),
        (3, 7, 7, 1, None),
        (3, 7, 15, 255, KNOWN),
        (3, 7, 47, 255, KNOWN),
        (3, 0, 0, 1, Some(Some(Verdict::Known(0)))),
        // A verdict without a value tells none.
        (0, 0, 0, 1, Some(None)),
        (1, 0, 0, 1, Some(Some(Verdict::Unique))),
        (2, 0, 0, 1, Some(Some(Verdict::Absent))),
        (0, 7, 0, 1, None),
        (1, 7, 0, 1, None),
        (2, 7, 0, 1, None),
        (4, 7, 0, 1, None),
        (4, 0, 0, 1, None),
        (0, 0, 39, 255, None),
        (
            3,
            7,
            39,
            255,
            Some(Some(Verdict::Known(0xFF00_0000_0000_0007))),
        ),
    ] {
        let read = verdict_with(number, value, place, byte);
        assert!(rt; read == found, "{byte} at {place}, {number}, {value}");
    }
}
