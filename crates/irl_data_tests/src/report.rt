use crate::helpers::same;
use irl_fate::{Counts, Fate};
use irl_offer::Outcome;
use irl_report::{list_line, report};
use std::test::Fail;

// The counts of a small crawl, and their report.
const COUNTS: Counts = Counts {
    offers: 10,
    judged: 10,
    unique: 6,
    pairs: 5,
    fresh: 0,
    queued: 0,
    last: 0,
    front: 0,
    done: 6,
    page: 3,
    moved: 1,
    status: 1,
    denied: 1,
    shut: 0,
    lost: 0,
    bad: 0,
    large: 0,
    coded: 18_446_744_073_709_551_615,
};

const REPORT: &[u8] =
    b"offers 10\njudged 10\nunique 6\npairs 5\nfresh 0\nqueued 0\nlast 0\nfront 0\ndone 6\npage 3\nmoved 1\nstatus 1\ndenied 1\nshut 0\nlost 0\nbad 0\nlarge 0\ncoded 18446744073709551615\n";

#[test]
fn a_report_has_18_lines(rt: HostRuntime) -> Result<(), Fail> {
    let text = report(rt.alloc(), &COUNTS)?;
    same(&rt, text.bytes() == REPORT, "report");
    Ok(())
}

const LINES: [(u64, Fate, &[u8], &[u8]); 14] = [
    (
        0,
        Fate::Fresh,
        b"http://a.test/",
        b"0 fresh http://a.test/\n",
    ),
    (1, Fate::Queue(64), b"x", b"1 queue:64 x\n"),
    (2, Fate::Last, b"x", b"2 last x\n"),
    (3, Fate::Front, b"", b"3 front \n"),
    (4, Fate::Done(Outcome::Page), b"x", b"4 page x\n"),
    (5, Fate::Done(Outcome::Moved), b"x", b"5 moved x\n"),
    (
        8,
        Fate::Done(Outcome::Status(404)),
        b"x",
        b"8 status:404 x\n",
    ),
    (9, Fate::Done(Outcome::Denied(2)), b"x", b"9 denied:2 x\n"),
    (10, Fate::Done(Outcome::Shut), b"x", b"10 shut x\n"),
    (11, Fate::Done(Outcome::Lost), b"x", b"11 lost x\n"),
    (12, Fate::Done(Outcome::Bad), b"x", b"12 bad x\n"),
    (13, Fate::Done(Outcome::Large), b"x", b"13 large x\n"),
    (14, Fate::Done(Outcome::Coded), b"x", b"14 coded x\n"),
    (
        18_446_744_073_709_551_615,
        Fate::Last,
        b"x",
        b"18446744073709551615 last x\n",
    ),
];

#[test]
fn a_line_has_number_fate_and_text(rt: HostRuntime) -> Result<(), Fail> {
    for (number, fate, text, line) in LINES {
        let listed = list_line(rt.alloc(), number, &fate, text)?;
        assert!(rt; listed.bytes() == line, "at {number}");
    }
    Ok(())
}
