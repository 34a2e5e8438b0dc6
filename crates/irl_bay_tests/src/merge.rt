use crate::bay::{Waiting, adopted, counts, judged_of, settings_of};
use crate::quiet::Quiet;
use irl_disk::Part;
use irl_offer::Fault;
use std::alloc::Global;
use std::test::Fail;

// A bay of one bucket with two offers of key 1, which were flushed in calls 4 to 9; and where there are to be two merges, the
// first one done and an offer of key 2 flushed.
fn flushed(alloc: Global, failing: Option<u64>, merges: u64) -> Result<Waiting, Fault> {
    let mut kept = Waiting::made(alloc, failing, &settings_of(1, 2, 1_000))?;
    kept.put(alloc, 1, b"p")?;
    kept.put(alloc, 1, b"q")?;
    kept.flush(0)?;
    if merges == 2 {
        kept.merge(0)?;
        kept.put(alloc, 2, b"r")?;
        kept.flush(0)?;
    }
    Ok(kept)
}

// The bytes of some files behind a merge: of the first one the second side of the cache, of the second the first side, which
// has both keys; the judged offers, of which the first is Unique and the second known, with the value; and the texts.
type Bytes = (u16, &'static [u8]);

const FIRST: [Bytes; 4] = [
    // The gate and the length; side 1 of the cache and of the bucket files; the keys, the judged and the unique offers, the
    // texts' length and the cut; and the next gate.
    (
        1_000,
        b"\xA5\x29\0\0\0\x05\x01\0\0\0\0\0\0\0\x02\0\0\0\0\0\0\0\x01\0\0\0\0\0\0\0\
        \x02\0\0\0\0\0\0\0\x02\0\0\0\0\0\0\0\0",
    ),
    (1_002, b"\x01\0\0\0\0\0\0\0\x07\0\0\0\0\0\0\0"),
    (
        1_003,
        b"\0\x02\x01\0\x01\0\0\0\x01\0\0\0\0\0\0\0\x07\0\0\0\0\0\0\0\
        \0\0\0\0\0\0\0\0\0\0\0\0\0\0\0\0\0\0\0\0\0\0\0\0\
        \0\x02\x03\0\x01\0\0\0\x01\0\0\0\0\0\0\0\x07\0\0\0\0\0\0\0\
        \0\0\0\0\0\0\0\0\x07\0\0\0\0\0\0\0\x01\0\0\0\0\0\0\0",
    ),
    (1_004, b"pq"),
];

const SECOND: [Bytes; 4] = [
    (
        1_001,
        b"\x01\0\0\0\0\0\0\0\x07\0\0\0\0\0\0\0\x02\0\0\0\0\0\0\0\x07\0\0\0\0\0\0\0",
    ),
    (1_002, b"\x01\0\0\0\0\0\0\0\x07\0\0\0\0\0\0\0"),
    (
        1_003,
        b"\0\x02\x01\0\x01\0\0\0\x01\0\0\0\0\0\0\0\x07\0\0\0\0\0\0\0\
        \0\0\0\0\0\0\0\0\0\0\0\0\0\0\0\0\0\0\0\0\0\0\0\0\
        \0\x02\x03\0\x01\0\0\0\x01\0\0\0\0\0\0\0\x07\0\0\0\0\0\0\0\
        \0\0\0\0\0\0\0\0\x07\0\0\0\0\0\0\0\x01\0\0\0\0\0\0\0\
        \0\x02\x01\0\x01\0\0\0\x02\0\0\0\0\0\0\0\x07\0\0\0\0\0\0\0\
        \0\0\0\0\0\0\0\0\0\0\0\0\0\0\0\0\x02\0\0\0\0\0\0\0",
    ),
    (1_004, b"pqr"),
];

// Whether the files begin so, and have no more bytes where that is asked.
fn have(alloc: Global, store: &mut Quiet, files: &[Bytes], is_all: bool) -> Result<bool, Fault> {
    for (f, bytes) in files {
        let found = store.bytes(alloc, *f)?;
        if !found.starts_with(bytes) || is_all && found.len() != bytes.len() {
            return Ok(false);
        }
    }
    Ok(true)
}

#[test]
fn a_merge_is_counted_and_written(rt: HostRuntime) -> Result<(), Fail> {
    let alloc = rt.alloc();
    for (merges, judged, files) in [(1, [2, 1, 1], FIRST), (2, [3, 2, 2], SECOND)] {
        let mut kept = flushed(alloc, None, merges)?;
        assert!(rt; kept.merge(0) == Ok(merges), "merge {merges}");
        assert!(rt;
            kept.judged() == judged && kept.bay.is_sound(),
            "merge {merges}"
        );
        assert!(rt;
            have(alloc, &mut kept.store, &files, true)?,
            "merge {merges}"
        );
    }
    Ok(())
}

// A bay of which the last merge stopped, or failed, in this call, and how many calls there were before that merge. It has
// as many cuts, judged and unique offers as before it where it failed.
fn stopped(alloc: Global, call: u64, is_failing: bool, merges: u64) -> Result<(Quiet, u64), Fault> {
    let mut kept = flushed(alloc, is_failing.then_some(call), merges)?;
    let first = kept.store.calls();
    let before = kept.judged();
    let answer = kept.merge(0);
    if is_failing != (answer == Err(Fault::Failed))
        || is_failing == kept.bay.is_sound()
        || is_failing != (kept.judged() == before)
    {
        return Err(Fault::Memory);
    }
    Ok((kept.store, first))
}

// How many offers, how many that wait, how many judged and unique ones and how many cuts a stop in this call leaves, and
// whether the cache, the judged offers and the texts are there that the first merge wrote, where it counts.
fn left(
    alloc: Global,
    store: &Quiet,
    call: u64,
    part: Part,
) -> Result<(Option<(u64, u64)>, [u64; 3], bool), Fault> {
    let mut image = store.image(alloc, call, part)?;
    let bay = adopted(alloc, &mut image, 1_000, &settings_of(1, 2, 1_000))?;
    let judged = judged_of(&bay);
    let is_whole = judged == [0, 0, 0] || have(alloc, &mut image, &FIRST[1..], false)?;
    Ok((counts(&bay, 0), judged, is_whole))
}

// How many cuts a stop leaves more as old, as new and torn in a call with so many behind it, by whether it failed. The last
// call but one opens the gate of the manifest's record, and behind the last the merge is answered Ok.
fn cuts_left(behind: u64, is_failing: bool) -> [usize; 3] {
    match (behind, is_failing) {
        (0, false) => [1, 1, 1],
        (0, true) | (1, false) => [0, 1, 1],
        _ => [0, 0, 0],
    }
}

// The counts of the offers, before and behind a merge: the second one empties files that had offers.
type Sides = [(Option<(u64, u64)>, [u64; 3], bool); 2];

const OF_FIRST: Sides = [
    (Some((2, 2)), [0, 0, 0], true),
    (Some((2, 0)), [2, 1, 1], true),
];

const OF_SECOND: Sides = [
    (Some((3, 1)), [2, 1, 1], true),
    (Some((3, 0)), [3, 2, 2], true),
];

// The first call of the last merge, which failed or was done, where a stop leaves something else; or how many calls it has.
fn first_wrong(
    alloc: Global,
    merges: u64,
    sides: &Sides,
    is_failing: bool,
) -> Result<Result<u64, u64>, Fault> {
    let (store, first) = stopped(alloc, 0, false, merges)?;
    let end = store.calls();
    for call in first..end {
        let (store, _) = stopped(alloc, call, is_failing, merges)?;
        let wanted = cuts_left(end - 1 - call, is_failing);
        for (part, more) in [Part::Old, Part::New, Part::Torn].into_iter().zip(wanted) {
            if left(alloc, &store, call, part)? != sides[more.min(1)] {
                return Ok(Err(call));
            }
        }
    }
    Ok(Ok(end.saturating_sub(first)))
}

#[test]
fn a_stop_leaves_the_cut_or_none(rt: HostRuntime) -> Result<(), Fail> {
    for (merges, sides) in [(1, OF_FIRST), (2, OF_SECOND)] {
        for is_failing in [false, true] {
            let found = first_wrong(rt.alloc(), merges, &sides, is_failing)?;
            assert!(rt;
                found.is_ok_and(|calls| calls > 10),
                "{found:?}, {merges}, {is_failing}"
            );
        }
    }
    Ok(())
}
