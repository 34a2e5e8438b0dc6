//! A crawl that comes a page at a time, one over a store that fails, and one that is stopped.

use crate::runs::{Failing, LIST, NONE, check, ending, new_store, run_over, same, writes};
use crate::tapes::TAPE_A;
use irl_disk::{MemStore, Part};
use std::alloc::{AllocError, Global};
use std::process::Abort;
use std::sync::Wait;
use std::test::Fail;
use std::thread::Threads;

// The words of a run, its tape, and what a report has behind the offers once nothing waits.
#[derive(Clone, Copy)]
struct Crawl<'a> {
    words: &'a [&'a str],
    tape: &'a [u8],
    counted: &'a str,
}

// Many flushes and merges of one bucket.
const CRAWL_A: Crawl<'static> = Crawl {
    words: &["replay", "--buckets=1", "--array=2", "--trigger=4"],
    tape: TAPE_A,
    counted: "unique 6\npairs 5\nfresh 0\nqueued 0\nlast 0\nfront 0\ndone 6\npage 3\nmoved 1\nstatus 1\ndenied 1\nshut 0\nlost 0\nbad 0\nlarge 0\ncoded 0\n",
};

const REPLAY: &[&str] = &["replay", "--buckets=4", "--array=8", "--trigger=16"];

const PAGE_BY_PAGE: &[&str] = &[
    "replay",
    "--buckets=4",
    "--array=8",
    "--trigger=16",
    "--pages=1",
];

// What becomes of the URL `/x` of a host: one of these five, by its number. A URL that isn't on a tape has the status 404.
fn second_of(alloc: Global, host: u32) -> Result<String, AllocError> {
    let before = host.saturating_sub(1);
    match host % 5 {
        0 => format!(in alloc;
            "page 200 other http://h{host}.test/robots.txt\n|User-agent: *\n|Disallow: /x\nend\n"
        ),
        1 => format!(in alloc;
            "page 301 other http://h{host}.test/x\nto http://h{before}.test/\nend\n"
        ),
        2 => format!(in alloc; "lost http://h{host}.test/x\n"),
        3 => format!(in alloc; "page 204 other http://h{host}.test/x\nend\n"),
        _ => Ok(String::new(alloc)),
    }
}

// The page of a host. Of each of the first twenty it has links to two hosts more and to `/x`.
fn first_of(alloc: Global, host: u32) -> Result<String, AllocError> {
    if host >= 20 {
        return format!(in alloc; "page 200 html http://h{host}.test/\nend\n");
    }
    let left = 2 * host + 1;
    let right = (2 * host + 2) % 40;
    format!(in alloc;
        "page 200 html http://h{host}.test/\n|<a href=//h{left}.test/><a href=//h{right}.test/><a href=/x>\nend\n"
    )
}

// A tape of 40 hosts and 60 URLs that the one seed leads to, of which 24 are none of pages.
fn tree(alloc: Global) -> Result<Vec<u8>, AllocError> {
    let mut text = b"suffix test\nseed http://h0.test/\n".to_vec(alloc)?;
    for host in 0..40 {
        text.extend_from_slice(first_of(alloc, host)?.as_bytes())?;
        text.extend_from_slice(second_of(alloc, host)?.as_bytes())?;
    }
    Ok(text)
}

// What a report has behind the offers: pairs of the forty links to other hosts, and of the redirects.
const COUNTED: &str =
    "unique 60\npairs 44\nfresh 0\nqueued 0\nlast 0\nfront 0\ndone 60\npage 44\nmoved 4\nstatus 4\ndenied 4\nshut 0\nlost 4\nbad 0\nlarge 0\ncoded 0\n";

// So many runs of a page each.
fn pages<R: Threads + Wait + Sync + Abort + AllocGlobal>(
    rt: &R,
    tape: &[u8],
    count: u32,
) -> Result<MemStore, AllocError> {
    let mut store = new_store(rt.alloc(), NONE)?;
    for _ in 0..count {
        let left = run_over(rt, PAGE_BY_PAGE, tape, NONE, store)?;
        same(rt, left.status == 0, "status");
        store = left.store;
    }
    Ok(store)
}

// So many runs of a page each, the last of which ends with this report.
fn check_pages<R: Threads + Wait + Sync + Abort + AllocGlobal>(
    rt: &R,
    tape: &[u8],
    runs: u32,
    offers: u32,
    counted: &str,
) -> Result<(), AllocError> {
    let report = format!(in rt.alloc(); "offers {offers}\njudged {offers}\n{counted}")?;
    let store = pages(rt, tape, runs.saturating_sub(1))?;
    let case = writes(PAGE_BY_PAGE, tape, report.as_bytes());
    let _ = check(rt, store, NONE, case)?;
    Ok(())
}

// Each run offers the seed once more, and the last one finds nothing to do. Behind the seed of the tree three links of each of
// twenty pages are offered, and where the four redirects lead to.
#[test]
fn a_crawl_comes_a_page_at_a_time(rt: HostRuntime) -> Result<(), Fail> {
    let tape = tree(rt.alloc())?;
    check_pages(&rt, &tape, 61, 64 + 61, COUNTED)?;
    check_pages(&rt, TAPE_A, 7, 9 + 7, CRAWL_A.counted)?;
    Ok(())
}

// A store in which a crawl without seeds has begun.
fn begun<R: Threads + Wait + Sync + Abort + AllocGlobal>(
    rt: &R,
    words: &[&str],
) -> Result<MemStore, AllocError> {
    let left = run_over(
        rt,
        words,
        b"suffix test\n",
        NONE,
        new_store(rt.alloc(), NONE)?,
    )?;
    same(rt, left.status == 0, "status");
    Ok(left.store)
}

// How many calls the first run of a crawl makes, and how many one that only begins it.
fn calls_of<R: Threads + Wait + Sync + Abort + AllocGlobal>(
    rt: &R,
    crawl: Crawl<'_>,
) -> Result<(u64, u64), AllocError> {
    let first = begun(rt, crawl.words)?.calls();
    let store = new_store(rt.alloc(), NONE)?;
    Ok((first, finish(rt, store, crawl, 0)?.calls()))
}

// Each call of a crawl fails, behind those that begin it.
#[test]
fn a_store_that_fails_ends_a_crawl(rt: HostRuntime) -> Result<(), Fail> {
    let (first, last) = calls_of(&rt, CRAWL_A)?;
    assert!(rt; first < last);
    let case = ending(CRAWL_A.words, TAPE_A, 4, b"disk fault\n");
    for call in first..last {
        let failing = Failing {
            store: Some(call),
            ..NONE
        };
        let _ = check(&rt, new_store(rt.alloc(), failing)?, failing, case)?;
    }
    Ok(())
}

// Crawls to the end over a store.
fn finish<R: Threads + Wait + Sync + Abort + AllocGlobal>(
    rt: &R,
    store: MemStore,
    crawl: Crawl<'_>,
    call: u64,
) -> Result<MemStore, AllocError> {
    let left = run_over(rt, crawl.words, crawl.tape, NONE, store)?;
    let is_counted = left.output.ends_with(crawl.counted.as_bytes());
    assert!(rt; left.status == 0 && is_counted, "at {call}");
    Ok(left.store)
}

// What a stop in a call leaves of each file: this part.
fn image<R: Abort + AllocGlobal>(
    rt: &R,
    store: &MemStore,
    call: u64,
    part: Part,
) -> Result<MemStore, AllocError> {
    assert!(rt; call < store.calls());
    store.image(rt.alloc(), call, part)
}

// The store of a crawl that comes to its end in one run. What was there before is not logged any more.
fn crawled<R: Threads + Wait + Sync + Abort + AllocGlobal>(
    rt: &R,
    crawl: Crawl<'_>,
) -> Result<MemStore, AllocError> {
    let store = begun(rt, crawl.words)?;
    let last = store.calls().saturating_sub(1);
    finish(rt, image(rt, &store, last, Part::New)?, crawl, 0)
}

// What a stop at any moment leaves comes to the same counts.
#[test]
fn a_crawl_that_was_stopped_at_any_call_goes_on(rt: HostRuntime) -> Result<(), Fail> {
    let store = crawled(&rt, CRAWL_A)?;
    for call in 0..store.calls() {
        for part in [Part::Old, Part::New, Part::Torn] {
            let _ = finish(&rt, image(&rt, &store, call, part)?, CRAWL_A, call)?;
        }
    }
    Ok(())
}

// What a store lists: lines without their numbers, sorted.
fn listed<R: Threads + Wait + Sync + AllocGlobal>(
    rt: &R,
    store: MemStore,
) -> Result<Vec<Vec<u8>>, AllocError> {
    let alloc = rt.alloc();
    let listing = run_over(rt, LIST, b"", NONE, store)?.output;
    let mut lines = Vec::new(alloc);
    for line in listing.split(|byte| *byte == b'\n') {
        let start = line.iter().position(|byte| *byte == b' ').unwrap_or(0);
        let rest = line.get(start..).unwrap_or_default();
        lines.push(rest.to_vec(alloc)?)?;
    }
    lines.sort()?;
    Ok(lines)
}

// The tree's crawl: at the end the same URLs are listed, with what came of each.
#[test]
fn a_longer_crawl_that_was_stopped_goes_on(rt: HostRuntime) -> Result<(), Fail> {
    let tape = tree(rt.alloc())?;
    let crawl = Crawl {
        words: REPLAY,
        tape: &tape,
        counted: COUNTED,
    };
    let expected = listed(&rt, crawled(&rt, crawl)?)?;
    // Behind the last line feed stands an empty line.
    same(&rt, expected.len() == 61, "number of lines");
    let store = crawled(&rt, crawl)?;
    for call in 0..store.calls() {
        if call % 11 == 0 {
            for part in [Part::Old, Part::New, Part::Torn] {
                let left = finish(&rt, image(&rt, &store, call, part)?, crawl, call)?;
                let is_same = listed(&rt, left)? == expected;
                assert!(rt; is_same, "at {call}");
            }
        }
    }
    Ok(())
}
