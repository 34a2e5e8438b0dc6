use super::{adopted, counts, flush, judged_of, merge};
use crate::quiet::Quiet;
use irl_array::Array;
use irl_bay::Bay;
use irl_disk::{Part, Store};
use irl_offer::{Fault, Judged, Kind, MAX_TEXT, Offer, Op, Rule, Settings, Text, Verdict};
use std::alloc::{AllocError, Global};
use std::test::Fail;

// The settings of a store of lines with two buckets, where an array has two offers and the rest is as by default.
const SETTINGS: Settings = Settings {
    kind: Kind::Lines,
    rule: Rule::Keep,
    buckets: 2,
    array: 2,
    trigger: 16_384,
    block: 4_096,
    cap: 1_099_511_627_776,
    queues: 2,
    base: 10,
    most: 10_000,
    ranks: 10_000,
};

// A file, a place in it, and bytes that stand there.
type Bytes = (u16, u64, &'static [u8]);

// The files of a bay of two buckets after one merge, as a program wrote them that had one side of the bucket files.
const ONCE: [Bytes; 7] = [
    (
        100,
        0,
        b"\xA5\x31\0\0\0\x01\x01\0\0\0\0\0\0\0\x03\0\0\0\0\0\0\0\x01\0\0\0\0\0\0\0\
        \x02\0\0\0\0\0\0\0\x02\0\0\0\0\0\0\0\x01\0\0\0\0\0\0\0\0",
    ),
    (102, 0, b"\x01\0\0\0\0\0\0\0\x07\0\0\0\0\0\0\0"),
    (
        103,
        0,
        b"\0\x02\x01\0\x01\0\0\0\x01\0\0\0\0\0\0\0\x07\0\0\0\0\0\0\0\
        \0\0\0\0\0\0\0\0\0\0\0\0\0\0\0\0\0\0\0\0\0\0\0\0\
        \0\x02\x03\0\x01\0\0\0\x01\0\0\0\0\0\0\0\x08\0\0\0\0\0\0\0\
        \0\0\0\0\0\0\0\0\x07\0\0\0\0\0\0\0\x01\0\0\0\0\0\0\0\
        \x01\0\x02\0\0\0\0\0\0\0\0\0\0\0\0\x80\0\0\0\0\0\0\0\0\
        \0\0\0\0\0\0\0\0\0\0\0\0\0\0\0\0\x02\0\0\0\0\0\0\0",
    ),
    (104, 0, b"pq"),
    (
        110,
        0,
        b"\xA5\x36\0\0\0\x02\x01\0\x01\0\0\0\0\0\0\0\x07\0\0\0\0\0\0\0\0\0\0\0\0\0\0\0\
        \x02\x01\0\x01\0\0\0\0\0\0\0\x08\0\0\0\0\0\0\0\0\0\0\0\0\0\0\0\0",
    ),
    (111, 0, b"pq"),
    (
        112,
        0,
        b"\xA5\x1B\0\0\0\0\0\0\0\0\0\0\0\0\0\x80\0\0\0\0\0\0\0\0\0\0\0\0\0\0\0\0\0",
    ),
];

// What one more merge wrote there, and two flushes behind it.
const TWICE: [Bytes; 8] = [
    (
        100,
        54,
        b"\xA5\x31\0\0\0\0\x02\0\0\0\0\0\0\0\x04\0\0\0\0\0\0\0\x02\0\0\0\0\0\0\0\
        \x03\0\0\0\0\0\0\0\x02\0\0\0\0\0\0\0\x02\0\0\0\0\0\0\0\0",
    ),
    (
        101,
        0,
        b"\x01\0\0\0\0\0\0\0\x07\0\0\0\0\0\0\0\0\0\0\0\0\0\0\x80\x05\0\0\0\0\0\0\0",
    ),
    (
        103,
        144,
        b"\x01\x02\x01\0\x01\0\0\0\0\0\0\0\0\0\0\x80\x05\0\0\0\0\0\0\0\
        \0\0\0\0\0\0\0\0\0\0\0\0\0\0\0\0\x02\0\0\0\0\0\0\0",
    ),
    (104, 2, b"r"),
    (
        110,
        59,
        b"\xA5\x36\0\0\0\x01\0\0\x02\0\0\0\0\0\0\0\x09\0\0\0\0\0\0\0\0\0\0\0\0\0\0\0\
        \0\x01\0\x02\0\0\0\0\0\0\0\0\0\0\0\0\0\0\0\0\0\0\0\0\0\0\0\0",
    ),
    (111, 2, b"s"),
    (
        112,
        32,
        b"\xA5\x1B\0\0\0\x02\x01\0\0\0\0\0\0\0\0\x80\x05\0\0\0\0\0\0\0\0\0\0\0\0\0\0\0\
        \xA5\x1B\0\0\0\x02\x01\0\0\0\0\0\0\0\0\x80\x06\0\0\0\0\0\0\0\0\0\0\0\0\0\0\0\0",
    ),
    (113, 0, b"rt"),
];

// The operation, the key, the value and the text of an offer.
type Tuple<'a> = (Op, u64, u64, &'a [u8]);

// What those offers are, and one more, which is flushed now.
const HIGH: u64 = 1 << 63;

const P: Tuple<'static> = (Op::Both, 1, 7, b"p");

const Q: Tuple<'static> = (Op::Both, 1, 8, b"q");

const CHECK: Tuple<'static> = (Op::Check, HIGH, 0, b"");

const R: Tuple<'static> = (Op::Both, HIGH, 5, b"r");

const UPDATE: Tuple<'static> = (Op::Update, 2, 9, b"");

const S: Tuple<'static> = (Op::Check, 2, 0, b"s");

const T: Tuple<'static> = (Op::Both, HIGH, 6, b"t");

const U: Tuple<'static> = (Op::Both, 1, 0, b"u");

// A bucket's offer with its verdict.
type Row = (u32, Tuple<'static>, Option<Verdict>);

const ROWS_OF_ONCE: [Row; 7] = [
    (0, P, Some(Verdict::Unique)),
    (0, Q, Some(Verdict::Known(7))),
    (1, CHECK, Some(Verdict::Absent)),
    (0, UPDATE, None),
    (0, S, Some(Verdict::Known(9))),
    (1, T, Some(Verdict::Unique)),
    (0, U, Some(Verdict::Known(7))),
];

const ROWS_OF_TWICE: [Row; 8] = [
    (0, P, Some(Verdict::Unique)),
    (0, Q, Some(Verdict::Known(7))),
    (1, CHECK, Some(Verdict::Absent)),
    (1, R, Some(Verdict::Unique)),
    (0, UPDATE, None),
    (0, S, Some(Verdict::Known(9))),
    (1, T, Some(Verdict::Known(5))),
    (0, U, Some(Verdict::Known(7))),
];

// A call over the bay, and of a merge the first byte of its record and the journal of bucket 0 that it empties.
#[derive(Clone, Copy)]
enum Step {
    Open,
    Flush(u32, &'static [Tuple<'static>]),
    Merge(u8, u16),
}

// How many offers the two buckets have and how many of them wait, and how many offers are judged, how many Unique, and how
// many cuts there are.
type Counts = ([(u64, u64); 2], [u64; 3]);

// A call, the counts behind it, and the lengths of the files 0110 to 0113 and 0600 to 0603.
type After = (Step, Counts, [usize; 8]);

const AFTER_ONCE: [After; 6] = [
    (
        Step::Open,
        ([(2, 0), (1, 0)], [3, 1, 1]),
        [60, 2, 33, 0, 0, 0, 0, 0],
    ),
    (
        Step::Flush(0, &[UPDATE, S]),
        ([(4, 2), (1, 0)], [3, 1, 1]),
        [119, 3, 33, 0, 0, 0, 0, 0],
    ),
    (
        Step::Flush(1, &[T]),
        ([(4, 2), (2, 1)], [3, 1, 1]),
        [119, 3, 65, 1, 0, 0, 0, 0],
    ),
    (
        Step::Merge(4, 600),
        ([(4, 0), (2, 0)], [6, 2, 2]),
        [119, 3, 65, 1, 1, 0, 1, 0],
    ),
    (
        Step::Flush(0, &[U]),
        ([(5, 1), (2, 0)], [6, 2, 2]),
        [119, 3, 65, 1, 33, 1, 1, 0],
    ),
    (
        Step::Merge(3, 110),
        ([(5, 0), (2, 0)], [7, 2, 3]),
        [1, 0, 1, 0, 33, 1, 1, 0],
    ),
];

const AFTER_TWICE: [After; 4] = [
    (
        Step::Open,
        ([(4, 2), (3, 1)], [4, 2, 2]),
        [119, 3, 97, 2, 0, 0, 0, 0],
    ),
    (
        Step::Merge(5, 600),
        ([(4, 0), (3, 0)], [7, 2, 3]),
        [119, 3, 97, 2, 1, 0, 1, 0],
    ),
    (
        Step::Flush(0, &[U]),
        ([(5, 1), (3, 0)], [7, 2, 3]),
        [119, 3, 97, 2, 33, 1, 1, 0],
    ),
    (
        Step::Merge(2, 110),
        ([(5, 0), (3, 0)], [8, 2, 4]),
        [1, 0, 1, 0, 33, 1, 1, 0],
    ),
];

// An array of two offers at most, those of these tuples for which there is room.
fn array_of(alloc: Global, tuples: &[Tuple<'_>]) -> Result<Array, AllocError> {
    let mut array = Array::with_room(alloc, 2)?;
    for (op, key, value, text) in tuples {
        let offer = Offer {
            op: *op,
            key: *key,
            value: *value,
            from: 0,
            aux: Text::from_bytes(alloc, &text[..text.len().min(MAX_TEXT)])?,
        };
        if !array.is_full() {
            array.push(offer);
        }
    }
    Ok(array)
}

fn take_step(alloc: Global, store: &mut Quiet, bay: &mut Bay, step: Step) -> Result<(), Fault> {
    match step {
        Step::Open => Ok(()),
        Step::Flush(b, tuples) => flush(store, bay, b, &mut array_of(alloc, tuples)?),
        Step::Merge(..) => {
            merge(store, bay, 0)?;
            Ok(())
        }
    }
}

fn opened(alloc: Global, store: &mut Quiet) -> Result<Bay, Fault> {
    adopted(alloc, store, 100, &SETTINGS)
}

fn counts_of(bay: &Bay) -> Option<Counts> {
    Some(([counts(bay, 0)?, counts(bay, 1)?], judged_of(bay)))
}

fn is_row(one: &Judged, row: &Row) -> bool {
    let (bucket, (op, key, value, text), verdict) = *row;
    one.bucket == bucket
        && one.verdict == verdict
        && one.offer.op == op
        && one.offer.key == key
        && one.offer.value == value
        && one.offer.from == 0
        && one.offer.aux.bytes() == text
}

// Whether a bay has these counts, and its judged offers are the first of these rows.
fn is_as(
    alloc: Global,
    store: &mut Quiet,
    bay: &Bay,
    wanted: &Counts,
    rows: &[Row],
) -> Result<bool, Fault> {
    if counts_of(bay) != Some(*wanted) || !bay.is_sound() || bay.judged_len() == 0 {
        return Ok(false);
    }
    let found = bay.judged_from(store, 0, 100)?.to_vec(alloc)?;
    Ok(
        found.len() as u64 == bay.judged_len()
            && found.len() <= rows.len()
            && found.iter().zip(rows).all(|(one, row)| is_row(one, row)),
    )
}

// Whether the files have these lengths, and behind a merge the record and the journal that it says.
fn are_files(alloc: Global, store: &mut Quiet, after: &After) -> Result<bool, Fault> {
    let (step, (_, judged), lengths) = *after;
    for (f, length) in [110, 111, 112, 113, 600, 601, 602, 603]
        .into_iter()
        .zip(lengths)
    {
        if store.bytes(alloc, f)?.len() != length {
            return Ok(false);
        }
    }
    let Step::Merge(byte, journal) = step else {
        return Ok(true);
    };
    let record = (judged[2] as usize).saturating_sub(1).saturating_mul(54);
    let manifest = store.bytes(alloc, 100)?;
    Ok(
        manifest.get(record.saturating_add(5)) == Some(&byte)
            && store.bytes(alloc, journal)?.as_slice() == b"\0".as_slice(),
    )
}

// Whether a stop in a call leaves these counts, and the rows.
fn leaves(
    alloc: Global,
    store: &Quiet,
    call: u64,
    part: Part,
    wanted: &Counts,
    rows: &[Row],
) -> Result<bool, Fault> {
    let mut image = store.image(alloc, call, part)?;
    let bay = opened(alloc, &mut image)?;
    is_as(alloc, &mut image, &bay, wanted, rows)
}

// The first of the calls from one on that a stop of leaves something else than the counts from before the step, but that the
// last call but one opens the gate of its record, and behind the last the step is done.
fn first_wrong(
    alloc: Global,
    store: &Quiet,
    first: u64,
    (before, after): (&Counts, &Counts),
    rows: &[Row],
) -> Result<Option<u64>, Fault> {
    let end = store.calls();
    for call in first..end {
        for part in [Part::Old, Part::New, Part::Torn] {
            let is_done = match end - 1 - call {
                0 => true,
                1 => part != Part::Old,
                _ => false,
            };
            let wanted = if is_done { after } else { before };
            if !leaves(alloc, store, call, part, wanted, rows)? {
                return Ok(Some(call));
            }
        }
    }
    Ok(None)
}

// A store of that time with more bytes, behind what stands there or over it.
fn store_of(alloc: Global, more: &[Bytes]) -> Result<Quiet, Fault> {
    let mut store = Quiet::new(alloc);
    for (f, at, bytes) in ONCE.iter().chain(more) {
        if *f >= 10_000 {
            return Err(Fault::Memory);
        }
        store.write(*f, *at, bytes)?;
    }
    Ok(store)
}

// Takes these steps over a store of that time with more bytes, over one open bay or one that is opened before each step.
// Answers the first one behind which the files, the bay or one that is opened anew are otherwise, or in which a stop leaves
// something else than the step or none of it.
fn first_other(
    alloc: Global,
    more: &[Bytes],
    steps: &[After],
    rows: &[Row],
    is_reopened: bool,
) -> Result<Option<usize>, Fault> {
    let mut store = store_of(alloc, more)?;
    let mut bay = opened(alloc, &mut store)?;
    let mut before = steps.first().ok_or(Fault::Memory)?.1;
    for (i, after) in steps.iter().enumerate() {
        if is_reopened {
            bay = opened(alloc, &mut store)?;
        }
        let first = store.calls();
        take_step(alloc, &mut store, &mut bay, after.0)?;
        if first_wrong(alloc, &store, first, (&before, &after.1), rows)?.is_some()
            || !are_files(alloc, &mut store, after)?
            || !is_as(alloc, &mut store, &bay, &after.1, rows)?
        {
            return Ok(Some(i));
        }
        before = after.1;
    }
    Ok(None)
}

// A store of that time, and one with a second merge and offers that wait. The first merge goes on to the other side, and the
// second one back.
#[test]
fn stores_of_one_side_are_read_and_go_on_to_two(rt: HostRuntime) -> Result<(), Fail> {
    let alloc = rt.alloc();
    for is_reopened in [false, true] {
        let once = first_other(alloc, &[], &AFTER_ONCE, &ROWS_OF_ONCE, is_reopened)?;
        let twice = first_other(alloc, &TWICE, &AFTER_TWICE, &ROWS_OF_TWICE, is_reopened)?;
        assert!(rt;
            (once, twice) == (None, None),
            "{once:?} {twice:?}, {is_reopened}"
        );
    }
    Ok(())
}
