use crate::helpers::{NOTHING_ASKED, same};
use irl_offer::{
    Asked, Entry, Note, NoteState, Op, Receipt, Receipts, Rule, Settings, Text, bucket_of, decode,
    encode,
};
use std::test::Fail;

// An entry with the bytes that a bucket's journal keeps of it.
const ENTRY: Entry = Entry {
    op: Op::Both,
    aux_len: 1,
    key: 1,
    value: 7,
    from: 0,
};

const ENTRY_BYTES: [u8; 27] = [
    2, 1, 0, 1, 0, 0, 0, 0, 0, 0, 0, 7, 0, 0, 0, 0, 0, 0, 0, 0, 0, 0, 0, 0, 0, 0, 0,
];

#[test]
fn an_entry_has_27_bytes(rt: HostRuntime) {
    same(&rt, encode(&ENTRY) == ENTRY_BYTES, "entry of an offer");
    same(
        &rt,
        decode(&ENTRY_BYTES) == Some(ENTRY),
        "offer of an entry",
    );
}

#[test]
fn a_key_has_its_bucket_by_its_top_bits(rt: HostRuntime) {
    for (key, buckets, bucket) in [
        (0xA999_3E36_4706_816A, 1, 0),
        (0xA999_3E36_4706_816A, 16, 10),
        (0xA999_3E36_4706_816A, 64, 42),
    ] {
        same(&rt, bucket_of(key, buckets) == bucket, "bucket");
    }
}

#[test]
fn a_new_store_has_what_is_asked_and_else_defaults(rt: HostRuntime) {
    let asked = Asked {
        rule: Some(Rule::Add),
        most: Some(9),
        ..NOTHING_ASKED
    };
    let settings = Settings::of_new_store(&asked);
    same(&rt, settings.rule == Rule::Add, "rule");
    same(&rt, settings.most == 9, "greatest budget");
    same(&rt, settings.buckets == 16, "number of buckets");
    // The greatest budget is below the least.
    assert!(rt; !settings.is_valid());
    assert!(rt; Settings::of_new_store(&NOTHING_ASKED).is_valid());
}

#[test]
fn a_note_is_used_for_a_day(rt: HostRuntime) -> Result<(), Fail> {
    let note = Note {
        host: Text::from_bytes(rt.alloc(), b"a.test")?,
        when: 5,
        state: NoteState::Free,
    };
    assert!(rt; note.is_in_use(86_400_004));
    assert!(rt; !note.is_in_use(86_400_005));
    Ok(())
}

#[test]
fn receipts_stand_in_order(rt: HostRuntime) -> Result<(), Fail> {
    let mut receipts = Receipts::new(rt.alloc());
    for number in 0..2 {
        receipts.push(Receipt { bucket: 1, number })?;
    }
    let numbers = [0, 1].map(|number| Receipt { bucket: 1, number });
    same(&rt, receipts.items() == numbers.as_slice(), "receipt");
    Ok(())
}

#[test]
fn a_text_gives_its_bytes_back(rt: HostRuntime) -> Result<(), Fail> {
    let alloc = rt.alloc();
    let bytes = b"http://a.test/\xff\x00".as_slice();
    let text = Text::from_bytes(alloc, bytes)?.copy(alloc)?;
    same(&rt, text.bytes() == bytes, "text");
    same(&rt, text.into_vec().as_slice() == bytes, "text");
    Ok(())
}
