//! What a stop in each call leaves.

use crate::calls::{Call, built, run};
use crate::stores::{LINES, left};
use irl_disk::{MemStore, Part};
use irl_offer::{Asked, Fault};
use std::alloc::Global;
use std::test::Fail;

// What is asked of a store of lines, where an array has so many offers.
pub(crate) fn asked_of(buckets: Option<u32>, array: Option<u32>) -> Asked {
    Asked {
        buckets,
        array,
        ..LINES
    }
}

// Two lines, with their keys as `sha1sum` gives them.
const A: (u64, &[u8]) = (0x594E_1FD4_8573_70FE, b"http://a.test/");

const B: (u64, &[u8]) = (0x71B2_454C_B985_022B, b"http://b.test/");

pub(crate) const ROW: [(u64, &[u8]); 3] = [A, B, A];

// How many offers a store has, how many of them are judged, and how many Unique.
type Counts = [u64; 3];

// The calls of a store, and the counts before them and behind each: as it is opened, and once what waits is judged.
#[derive(Clone, Copy)]
struct Case<'a> {
    buckets: u32,
    array: Option<u32>,
    calls: &'a [Call<'a>],
    left: &'a [[Counts; 2]],
}

// The row, flushed and judged, and the same once more.
const CASES: [Case<'static>; 3] = [
    Case {
        buckets: 1,
        array: Some(2),
        calls: &[Call::Flush(0, &[A, B])],
        left: &[[[0; 3]; 2], [[2, 0, 0], [2, 2, 2]]],
    },
    Case {
        buckets: 1,
        array: None,
        calls: &[
            Call::Flush(0, &ROW),
            Call::Merge,
            Call::Flush(0, &ROW),
            Call::Merge,
        ],
        left: &[
            [[0; 3]; 2],
            [[3, 0, 0], [3, 3, 2]],
            [[3, 3, 2]; 2],
            [[6, 3, 2], [6, 6, 2]],
            [[6, 6, 2]; 2],
        ],
    },
    Case {
        buckets: 2,
        array: Some(2),
        calls: &[
            Call::Flush(1, &[(1 << 63, b"x"), (1 << 63, b"z")]),
            Call::Flush(0, &[(1, b"y")]),
            Call::Merge,
            Call::Flush(1, &[(1 << 63, b"v"), (1 << 63 | 1, b"")]),
            Call::Merge,
        ],
        left: &[
            [[0; 3]; 2],
            [[2, 0, 0], [2, 2, 1]],
            [[3, 0, 0], [3, 3, 2]],
            [[3, 3, 2]; 2],
            [[5, 3, 2], [5, 5, 3]],
            [[5, 5, 3]; 2],
        ],
    },
];

// The counts of what a stop in this call left: as it is opened, and once what waits is judged.
fn counts_of(
    alloc: Global,
    asked: &Asked,
    store: &MemStore,
    call: u64,
    part: Part,
) -> Result<[Counts; 2], Fault> {
    let ended = run(
        alloc,
        left(alloc, store, call, part)?,
        asked,
        &[Call::Merge],
    )?;
    let [first, last] = [ended.first(), ended.last()];
    Ok([[first[0], first[1], first[2]], [last[0], last[1], last[2]]])
}

// Behind how many steps a stop leaves the store, at least and at most: in the last call but one of a step, which opens
// a gate, it may be either, and before it none of the step's.
fn steps_left(step: usize, calls_behind: u64, part: Part) -> [usize; 2] {
    let next = step.saturating_add(1);
    match (calls_behind, part) {
        (0, _) | (1, Part::New) => [next, next],
        (1, Part::Torn) => [step, next],
        _ => [step, step],
    }
}

// Whether the counts of a case behind one of these steps are so.
fn is_left(case: Case<'_>, [least, most]: [usize; 2], found: [Counts; 2]) -> bool {
    case.left.get(least).copied() == Some(found) || case.left.get(most).copied() == Some(found)
}

// The first of the calls of a step in which a stop leaves anything else.
fn wrong_in(
    alloc: Global,
    case: Case<'_>,
    store: &MemStore,
    step: usize,
    calls: (u64, u64),
) -> Result<Option<(u64, [Counts; 2])>, Fault> {
    let asked = asked_of(Some(case.buckets), case.array);
    let (first, end) = calls;
    for call in first..end {
        for part in [Part::Old, Part::New, Part::Torn] {
            let found = counts_of(alloc, &asked, store, call, part)?;
            if !is_left(case, steps_left(step, end - 1 - call, part), found) {
                return Ok(Some((call, found)));
            }
        }
    }
    Ok(None)
}

// A stop in each call of each step, after which the store is opened, and what waits in it is judged.
#[test]
fn a_stop_leaves_each_step_or_none_of_it(rt: HostRuntime) -> Result<(), Fail> {
    let alloc = rt.alloc();
    for case in CASES {
        let asked = asked_of(Some(case.buckets), case.array);
        let (store, ends) = built(alloc, &asked, case.calls)?;
        for (step, (first, end)) in ends.iter().zip(ends.iter().skip(1)).enumerate() {
            let wrong = wrong_in(alloc, case, &store, step, (*first, *end))?;
            assert_eq!(rt; wrong, None, "step {step}");
        }
    }
    Ok(())
}
