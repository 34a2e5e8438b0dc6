mod crawled;
mod ports;
mod resumed;
mod rows;
mod shown;
mod sides;
mod spoilt;

use crate::runs::{
    Case, Failing, NEW_OF_ROW, NONE, ONE_BUCKET, ROW, SEEN, check, new_store, refusal, run_over,
    same, writes,
};
use irl_disk::{MemStore, Part, Store};
use std::alloc::{AllocError, Global};
use std::process::Abort;
use std::sync::Wait;
use std::test::Fail;
use std::thread::Threads;

// What a run that ends well prints, and the store that it leaves.
fn next<R: Threads + Wait + Sync + Abort + AllocGlobal>(
    rt: &R,
    words: &[&str],
    input: &[u8],
    store: MemStore,
) -> Result<(Vec<u8>, MemStore), AllocError> {
    let left = run_over(rt, words, input, NONE, store)?;
    let is_quiet = left.status == 0 && left.errors.is_empty();
    same(rt, is_quiet, "status or error line");
    Ok((left.output, left.store))
}

// Puts these bytes in place of a file.
fn put_file(rt: &impl Abort, store: &mut MemStore, file: u16, bytes: &[u8]) {
    assert!(rt; file < 10_000);
    assert!(rt; store.cut(file, 0).is_ok());
    assert!(rt; store.write(file, 0, bytes).is_ok());
}

// A new store, or a made one.
fn store_of<R: Threads + Wait + Sync + Abort + AllocGlobal>(
    rt: &R,
    is_made: bool,
) -> Result<MemStore, AllocError> {
    let store = new_store(rt.alloc(), NONE)?;
    if !is_made {
        return Ok(store);
    }
    check(rt, store, NONE, writes(SEEN, b"", b""))
}

// A run over such a store, of which one file was put in place by these bytes.
fn check_file<R: Threads + Wait + Sync + Abort + AllocGlobal>(
    rt: &R,
    is_made: bool,
    file: u16,
    bytes: &[u8],
    errors: &[u8],
) -> Result<(), AllocError> {
    let case = if errors.is_empty() {
        writes(SEEN, ROW, NEW_OF_ROW)
    } else {
        refusal(SEEN, 3, errors)
    };
    let mut store = store_of(rt, is_made)?;
    put_file(rt, &mut store, file, bytes);
    let _ = check(rt, store, NONE, case)?;
    Ok(())
}

// One byte is an empty file. Files 0998 and 0999 are those of an earlier kind of store.
#[test]
fn files_are_opened_or_refused(rt: HostRuntime) -> Result<(), Fail> {
    for (is_made, file, bytes, errors) in [
        (false, 998, b"x".as_slice(), b"".as_slice()),
        (false, 998, b"xy", b"not a store: byte 0 of file 0000\n"),
        (
            false,
            999,
            b"\xA5\x02\0\0\0ab\0",
            b"not a store: byte 0 of file 0000\n",
        ),
        (true, 110, b"\xA5", b""),
        (
            true,
            110,
            b"\xA5\xFF\0\0\0\0",
            b"damaged: byte 0 of file 0110\n",
        ),
        (
            true,
            0,
            b"\xA5\xFF\0\0\0\0",
            b"damaged: byte 0 of file 0000\n",
        ),
    ] {
        check_file(&rt, is_made, file, bytes, errors)?;
    }
    Ok(())
}

// How many calls a run on the row makes of an empty store, where the calls of these numbers fail.
fn calls_of_row<R: Threads + Wait + Sync + Abort + AllocGlobal>(
    rt: &R,
    failing: Failing,
    status: u8,
    errors: &[u8],
) -> Result<u64, AllocError> {
    let case = if status == 0 {
        writes(SEEN, ROW, NEW_OF_ROW)
    } else {
        refusal(SEEN, status, errors)
    };
    Ok(check(rt, new_store(rt.alloc(), failing)?, failing, case)?.calls())
}

// The first call of each object fails, and the last; one number further none does.
#[test]
fn a_fault_ends_the_run(rt: HostRuntime) -> Result<(), Fail> {
    let calls = calls_of_row(&rt, NONE, 0, b"")?;
    for (store, input, output, status, errors) in [
        (Some(0), None, None, 4, b"disk fault\n".as_slice()),
        (Some(calls), None, None, 0, b""),
        (None, Some(0), None, 5, b"input fault\n"),
        (None, Some(1), None, 5, b"input fault\n"),
        (None, Some(2), None, 0, b""),
        (None, None, Some(0), 6, b"output fault\n"),
        (None, None, Some(1), 0, b""),
    ] {
        let failing = Failing {
            store,
            input,
            output,
        };
        calls_of_row(&rt, failing, status, errors)?;
    }
    Ok(())
}

// ---- stops
const TWO: &[u8] = b"a\nb\n";

// One bucket, whose array the two lines fill.
const SMALL: &[&str] = &["seen", "--buckets=1", "--array=2"];

// What a stop leaves of a store, by what the next two runs print: 0 none of the lines, 1 all, unjudged, 2 all, judged. What
// was unjudged is judged and printed in the next run, and what was lost is new in the one after it. 3 is none of these.
fn stage_of(first: &[u8], second: &[u8], output: &[u8]) -> u8 {
    if first.is_empty() && second == output {
        return 0;
    }
    if !second.is_empty() {
        return 3;
    }
    if first == output {
        return 1;
    }
    if first.is_empty() { 2 } else { 3 }
}

// What a stop in a call leaves of a store in which a run keeps its lines.
fn stage<R: Threads + Wait + Sync + Abort + AllocGlobal>(
    rt: &R,
    case: Case<'_>,
    store: &MemStore,
    call: u64,
    part: Part,
) -> Result<u8, AllocError> {
    assert!(rt; call < store.calls());
    let image = store.image(rt.alloc(), call, part)?;
    let (first, image) = next(rt, case.words, b"", image)?;
    let (second, _) = next(rt, case.words, case.input, image)?;
    Ok(stage_of(&first, &second, case.output))
}

// The store of a run over a made one, and the number of its first call behind those that open it.
fn run_of<R: Threads + Wait + Sync + Abort + AllocGlobal>(
    rt: &R,
    case: Case<'_>,
) -> Result<(MemStore, u64), AllocError> {
    let store = new_store(rt.alloc(), NONE)?;
    let store = check(rt, store, NONE, writes(case.words, b"", b""))?;
    let made = store.calls();
    let store = check(rt, store, NONE, writes(case.words, b"", b""))?;
    let first = store.calls().saturating_mul(2).saturating_sub(made);
    Ok((check(rt, store, NONE, case)?, first))
}

// Of the six calls of the flush the first four leave no line, and after the last all stay. Of the calls of the merge behind it
// the last leaves all judged.
fn stages(behind: u64, is_last: bool) -> (u8, u8) {
    match behind {
        _ if is_last => (2, 2),
        0..=3 => (0, 0),
        4 => (0, 1),
        5 => (1, 1),
        _ => (1, 2),
    }
}

// Stops in each of these calls.
fn check_stops<R: Threads + Wait + Sync + Abort + AllocGlobal>(
    rt: &R,
    case: Case<'_>,
) -> Result<(), AllocError> {
    let (store, first) = run_of(rt, case)?;
    for call in first..store.calls() {
        let is_last = store.calls() - call == 1;
        let (least, greatest) = stages(call - first, is_last);
        for part in &[Part::Old, Part::New, Part::Torn] {
            let stage = stage(rt, case, &store, call, *part)?;
            assert!(rt; least <= stage && stage <= greatest, "at {call}");
        }
    }
    Ok(())
}

// Two lines that fill their array, and three of which one stands there twice.
#[test]
fn a_stop_leaves_whole_arrays(rt: HostRuntime) -> Result<(), Fail> {
    for case in [writes(SMALL, TWO, TWO), writes(ONE_BUCKET, ROW, NEW_OF_ROW)] {
        check_stops(&rt, case)?;
    }
    Ok(())
}

// 20,000 lines, of which seven in eight are one line.
fn many(alloc: Global) -> Result<Vec<u8>, AllocError> {
    let mut text = Vec::new(alloc);
    for i in 0..20_000u32 {
        if i % 8 < 7 {
            text.push(b'x')?;
        } else {
            text.extend_from_slice(&i.to_le_bytes().map(|byte| b'A' + byte % 16))?;
            text.extend_from_slice(&i.to_le_bytes().map(|byte| b'A' + byte / 16))?;
        }
        text.push(b'\n')?;
    }
    Ok(text)
}

fn count_lines(text: &[u8]) -> usize {
    text.iter().filter(|byte| **byte == b'\n').count()
}

// What a stop leaves in the middle of the calls behind the 10,000 that find no store.
fn left_in_the_middle(
    rt: &impl Abort,
    alloc: Global,
    store: &MemStore,
) -> Result<MemStore, AllocError> {
    let middle = store.calls() / 2 + 5_000;
    assert!(rt; middle < store.calls());
    store.image(alloc, middle, Part::Torn)
}

// How many lines a first run prints, and what a stop in the middle of its calls leaves.
fn stopped<R: Threads + Wait + Sync + Abort + AllocGlobal>(
    rt: &R,
    input: &[u8],
) -> Result<(usize, MemStore), AllocError> {
    let (output, store) = next(rt, SEEN, input, new_store(rt.alloc(), NONE)?)?;
    let image = left_in_the_middle(rt, rt.alloc(), &store)?;
    Ok((count_lines(&output), image))
}

// The first run prints each line once. Stopped in the middle of its calls, and resumed on the same input, it leaves
// nothing to print.
#[test]
fn a_run_is_stopped_and_resumed(rt: HostRuntime) -> Result<(), Fail> {
    let input = many(rt.alloc())?;
    let (count, image) = stopped(&rt, &input)?;
    same(&rt, count == 2_501, "number of lines");
    let (_, store) = next(&rt, SEEN, &input, image)?;
    let _ = check(&rt, store, NONE, writes(SEEN, &input, b""))?;
    Ok(())
}
