//! Runs in rows, each over what the one before it left.

use crate::runs::{Case, LIST, NEW_OF_ROW, NONE, ONE_BUCKET, ROW, SEEN, SHOW, check, new_store};
use irl_disk::MemStore;
use std::alloc::AllocError;
use std::process::Abort;
use std::sync::Wait;
use std::test::Fail;
use std::thread::Threads;

// The reports of no store; of the row that was given twice; and of one of which two offers wait to be judged.
const NOTHING: &[u8] =
    b"offers 0\njudged 0\nunique 0\npairs 0\nfresh 0\nqueued 0\nlast 0\nfront 0\ndone 0\npage 0\nmoved 0\nstatus 0\ndenied 0\nshut 0\nlost 0\nbad 0\nlarge 0\ncoded 0\n";

const ROW_TWICE: &[u8] =
    b"offers 6\njudged 6\nunique 2\npairs 0\nfresh 2\nqueued 0\nlast 0\nfront 0\ndone 0\npage 0\nmoved 0\nstatus 0\ndenied 0\nshut 0\nlost 0\nbad 0\nlarge 0\ncoded 0\n";

const TWO_WAIT: &[u8] =
    b"offers 2\njudged 0\nunique 0\npairs 0\nfresh 0\nqueued 0\nlast 0\nfront 0\ndone 0\npage 0\nmoved 0\nstatus 0\ndenied 0\nshut 0\nlost 0\nbad 0\nlarge 0\ncoded 0\n";

pub const LIST_OF_ROW: &[u8] = b"0 fresh http://a.test/\n1 fresh http://b.test/\n";

pub const REPLAY: &[&str] = &["replay", "--buckets", "1"];

pub const REPORT: &[u8] =
    b"offers 10\njudged 10\nunique 6\npairs 5\nfresh 0\nqueued 0\nlast 0\nfront 0\ndone 6\npage 3\nmoved 1\nstatus 1\ndenied 1\nshut 0\nlost 0\nbad 0\nlarge 0\ncoded 0\n";

pub const LISTING: &[u8] =
    b"0 page http://www.a.test/\n1 moved http://www.a.test/one\n2 denied:2 http://www.a.test/private/x\n3 page http://b.test/\n5 page http://c.test/new\n8 status:404 http://b.test/gone\n";

const ONE: &[u8] =
    b"offers 2\njudged 2\nunique 1\npairs 0\nfresh 0\nqueued 0\nlast 0\nfront 0\ndone 1\npage 1\nmoved 0\nstatus 0\ndenied 0\nshut 0\nlost 0\nbad 0\nlarge 0\ncoded 0\n";

// The words and the input of a run, its status, what it prints, and its error line.
type Row = (
    &'static [&'static str],
    &'static [u8],
    u8,
    &'static [u8],
    &'static [u8],
);

// A run on three lines over a new store that has room for two, which wait then.
const FULL: Row = (
    &["seen", "--buckets", "1", "--array", "1", "--cap", "2"],
    b"a\nb\nc\n",
    8,
    b"",
    b"bucket 0 full\n",
);

// Runs on lines. With 16 buckets what is printed stands bucket by bucket, by the first four bits of SHA-1: of `last` they are
// 2, and of the three names 5, 7 and 6. With one bucket it stands in the order of the input.
const LINES: [&[Row]; 7] = [
    &[
        (
            &["seen", "--buckets", "3"],
            ROW,
            1,
            b"",
            b"words refused: --buckets\n",
        ),
        (SEEN, b"", 0, b"", b""),
        (SEEN, ROW, 0, NEW_OF_ROW, b""),
        (SEEN, ROW, 0, b"", b""),
        (
            SEEN,
            b"\nhttp://c.test/\n\nlast",
            0,
            b"last\nhttp://c.test/\n",
            b"",
        ),
        (&[], ROW, 1, b"", b"words refused: -\n"),
        (&["saw"], ROW, 1, b"", b"words refused: saw\n"),
        (&["seen", "twice"], ROW, 1, b"", b"words refused: seen\n"),
        (
            &["drum"],
            ROW,
            3,
            b"",
            b"other setting 1: kept 1, asked 2\n",
        ),
        (
            &["seen", "--cap", "7"],
            ROW,
            3,
            b"",
            b"other setting 7: kept 1099511627776, asked 7\n",
        ),
        (&["seen", "--buckets=16"], b"\nnew\n", 0, b"new\n", b""),
    ],
    &[
        (ONE_BUCKET, ROW, 0, NEW_OF_ROW, b""),
        (ONE_BUCKET, ROW, 0, b"", b""),
        (
            SEEN,
            b"\nhttp://c.test/\n\nlast",
            0,
            b"http://c.test/\nlast\n",
            b"",
        ),
        (ONE_BUCKET, b"last\nnew\n", 0, b"new\n", b""),
    ],
    // What doesn't fit is lost, and what was flushed is judged by the next run.
    &[
        FULL,
        (
            &["seen", "--buckets", "2"],
            ROW,
            3,
            b"",
            b"other setting 3: kept 1, asked 2\n",
        ),
        (SEEN, b"", 0, b"a\nb\n", b""),
    ],
    // The input is not read, and what is printed changes nothing: the next run goes on from the one before.
    &[
        (SHOW, ROW, 0, NOTHING, b""),
        (LIST, ROW, 0, b"", b""),
        (ONE_BUCKET, ROW, 0, NEW_OF_ROW, b""),
        (ONE_BUCKET, ROW, 0, b"", b""),
        (SHOW, ROW, 0, ROW_TWICE, b""),
        (LIST, ROW, 0, LIST_OF_ROW, b""),
        (ONE_BUCKET, b"new\n", 0, b"new\n", b""),
        (
            LIST,
            b"",
            0,
            b"0 fresh http://a.test/\n1 fresh http://b.test/\n6 fresh new\n",
            b"",
        ),
        (
            &["list", "--buckets", "1"],
            ROW,
            1,
            b"",
            b"words refused: list\n",
        ),
    ],
    // Offers that are not judged are counted, and not listed.
    &[
        FULL,
        (SHOW, b"", 0, TWO_WAIT, b""),
        (LIST, b"", 0, b"", b""),
    ],
    // The lines of tuples, and a site that is made up.
    &[
        (
            &["drum"],
            b"b 02 0 q\nc 01\nb 01 7 p\nc 01\n",
            0,
            b"unique 0000000000000002 q\nabsent 0000000000000001\nunique 0000000000000001 p\nknown 0000000000000001 7\n",
            b"",
        ),
        (SEEN, ROW, 3, b"", b"other setting 1: kept 2, asked 1\n"),
    ],
    &[
        (&["gen", "1"], b"", 0, ONE, b""),
        (LIST, b"", 0, b"0 page http://s0.test/p0\n", b""),
    ],
];

// A run over a store, which ends as its row says.
fn check_row<R: Threads + Wait + Sync + Abort + AllocGlobal>(
    rt: &R,
    store: MemStore,
    row: &Row,
) -> Result<MemStore, AllocError> {
    let (words, input, status, output, errors) = *row;
    let case = Case {
        words,
        input,
        status,
        output,
        errors,
    };
    check(rt, store, NONE, case)
}

// Runs of which each is over what the one before it left, and the first over an empty store.
fn check_rows<R: Threads + Wait + Sync + Abort + AllocGlobal>(
    rt: &R,
    rows: &[Row],
) -> Result<(), AllocError> {
    let mut store = new_store(rt.alloc(), NONE)?;
    for row in rows {
        store = check_row(rt, store, row)?;
    }
    Ok(())
}

#[test]
fn runs_on_lines_go_on_from_the_one_before(rt: HostRuntime) -> Result<(), Fail> {
    for rows in &LINES {
        check_rows(&rt, rows)?;
    }
    Ok(())
}
