//! What a store has, as `show` and `list` print it.

use super::rows::LIST_OF_ROW;
use crate::runs::{
    Case, Failing, LIST, Left, NEW_OF_ROW, NONE, ONE_BUCKET, ROW, SHOW, check, new_store, refusal,
    run_over, same, writes,
};
use irl_disk::{MemStore, Store};
use std::alloc::AllocError;
use std::process::Abort;
use std::sync::Wait;
use std::test::Fail;
use std::thread::Threads;

// The store of the row, of which the call of this number behind the run's fails.
fn row_failing<R: Threads + Wait + Sync + Abort + AllocGlobal>(
    rt: &R,
    call: Option<u64>,
) -> Result<MemStore, AllocError> {
    let store = new_store(rt.alloc(), NONE)?;
    let calls = check(rt, store, NONE, writes(ONE_BUCKET, ROW, NEW_OF_ROW))?.calls();
    let failing = Failing {
        store: call.and_then(|call| calls.checked_add(call)),
        ..NONE
    };
    let store = new_store(rt.alloc(), failing)?;
    check(rt, store, NONE, writes(ONE_BUCKET, ROW, NEW_OF_ROW))
}

// How many calls a look at the store of the row makes, where the calls of these numbers fail.
fn calls_of_look<R: Threads + Wait + Sync + Abort + AllocGlobal>(
    rt: &R,
    failing: Failing,
    case: Case<'_>,
) -> Result<u64, AllocError> {
    let store = row_failing(rt, failing.store)?;
    let before = store.calls();
    let after = check(rt, store, failing, case)?.calls();
    Ok(after.saturating_sub(before))
}

// The first call of the store fails, and the last; one number further none does. A failed write of the output is told.
#[test]
fn a_fault_ends_a_look(rt: HostRuntime) -> Result<(), Fail> {
    const ROW_ONCE: &[u8] =
        b"offers 3\njudged 3\nunique 2\npairs 0\nfresh 2\nqueued 0\nlast 0\nfront 0\ndone 0\npage 0\nmoved 0\nstatus 0\ndenied 0\nshut 0\nlost 0\nbad 0\nlarge 0\ncoded 0\n";
    for (words, output) in [(SHOW, ROW_ONCE), (LIST, LIST_OF_ROW)] {
        let calls = calls_of_look(&rt, NONE, writes(words, b"", output))?;
        let disk = refusal(words, 4, b"disk fault\n");
        for call in [0, calls.saturating_sub(1)] {
            let failing = Failing {
                store: Some(call),
                ..NONE
            };
            calls_of_look(&rt, failing, disk)?;
        }
        let failing = Failing {
            store: Some(calls),
            output: Some(1),
            input: Some(0),
        };
        calls_of_look(&rt, failing, writes(words, b"", output))?;
        let failing = Failing {
            output: Some(0),
            ..NONE
        };
        calls_of_look(&rt, failing, refusal(words, 6, b"output fault\n"))?;
    }
    Ok(())
}

// Damage of a judged offer is met where it is read, and not by a look that reads none.
#[test]
fn damage_is_named_where_it_is_met(rt: HostRuntime) -> Result<(), Fail> {
    let mut store = row_failing(&rt, None)?;
    assert_eq!(rt; store.length(103), Ok(144));
    store.write(103, 55, b"\x80")?;
    let store = check(
        &rt,
        store,
        NONE,
        refusal(LIST, 3, b"damaged: byte 48 of file 0103\n"),
    )?;
    let Left { status, .. } = run_over(&rt, SHOW, b"", NONE, store)?;
    same(&rt, status == 0, "status");
    Ok(())
}
