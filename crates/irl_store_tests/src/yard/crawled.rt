//! Crawls, from their beginning on, whose stores are entered again.

use crate::calls::{
    Call, NO_HOST, Numbers, after, built, found, judged_at, numbers, opened, run, step, take_each,
};
use crate::stores::{CRAWL_OF_ONE, add, blank, copied, failing, left};
use irl_disk::{MemStore, Part};
use irl_frontier::Fate;
use irl_offer::{Fault, Outcome, Verdict};
use std::alloc::Global;
use std::test::Fail;

const URL: &[u8] = b"http://a.test/";

// How many calls there are in the crawl of one page.
const STEPS: usize = 6;

// These are they: two offers of its URL are flushed together, and judged.
pub(crate) const CRAWLED: [Call<'static>; STEPS] = [
    Call::Begin,
    Call::Give(NO_HOST, 2, URL),
    Call::Merge,
    Call::Send,
    Call::Pass,
    Call::Settle(URL),
];

// How much there is before the calls, and behind each.
const LEFT: [Numbers; STEPS + 1] = [
    [0, 0, 0, 0, 0, 0, 0, 0, 1],
    [0, 0, 0, 0, 0, 0, 1, 1, 1],
    [2, 0, 0, 0, 0, 0, 1, 1, 1],
    [2, 2, 1, 0, 0, 0, 1, 0, 1],
    [2, 2, 1, 0, 0, 0, 1, 1, 1],
    [2, 2, 1, 0, 1, 0, 1, 0, 1],
    [2, 2, 1, 0, 0, 1, 1, 1, 1],
];

// One more URL is flushed, and a stop comes in the first call of that.
fn lose_one(alloc: Global, store: &MemStore) -> Result<MemStore, Fault> {
    let first = after(alloc, copied(alloc, store)?, &CRAWL_OF_ONE, &[])?.calls();
    let calls = [Call::Give(NO_HOST, 1, b"http://b.test/")];
    let given = after(alloc, copied(alloc, store)?, &CRAWL_OF_ONE, &calls)?;
    Ok(left(alloc, &given, first, Part::New)?)
}

// Enters a store, where an offer may be lost first, and makes one call: how much there is before it and behind it, and the
// store.
fn taken(
    alloc: Global,
    store: MemStore,
    call: Call<'_>,
    loses_one: bool,
) -> Result<([Numbers; 2], MemStore), Fault> {
    let store = if loses_one {
        lose_one(alloc, &store)?
    } else {
        store
    };
    let ended = run(alloc, store, &CRAWL_OF_ONE, &[call])?;
    Ok(([ended.first(), ended.last()], ended.store))
}

// How much there is in a store that is entered, the verdicts of its first two offers, and what became of its first URL.
fn told(alloc: Global, store: MemStore) -> Result<(Numbers, [Option<Verdict>; 2], Fate), Fault> {
    let mut yard = opened(alloc, store, &CRAWL_OF_ONE)?;
    let verdicts = [judged_at(&mut yard, 0)?.1, judged_at(&mut yard, 1)?.1];
    Ok((numbers(&yard), verdicts, yard.fate(0)))
}

#[test]
fn a_url_is_judged_read_and_settled(rt: HostRuntime) -> Result<(), Fail> {
    let alloc = rt.alloc();
    let mut store = blank(alloc);
    for count in 0..STEPS {
        // An offer is lost behind the merge.
        let (found, left) = taken(alloc, store, CRAWLED[count], count == 3)?;
        assert!(rt; found == [LEFT[count], LEFT[count + 1]], "{count}");
        store = left;
    }
    let verdicts = [Some(Verdict::Unique), Some(Verdict::Known(0))];
    let wanted = (LEFT[STEPS], verdicts, Fate::Done(Outcome::Page));
    assert!(rt; told(alloc, store)? == wanted);
    Ok(())
}

// The same calls, with a note of a robots file and two of them at once behind the first.
const NOTED: [Call<'static>; STEPS + 2] = [
    Call::Begin,
    Call::Note(&[(*b"a.test", 3)]),
    Call::Note(&[(*b"b.test", 5), (*b"c.test", 6)]),
    Call::Give(NO_HOST, 2, URL),
    Call::Merge,
    Call::Send,
    Call::Pass,
    Call::Settle(URL),
];

// Whether a crawl of whose store this call fails tells that, isn't sound then, and has begun where that was Ok.
fn is_told(alloc: Global, call: u64) -> Result<bool, Fault> {
    let ended = run(alloc, failing(alloc, call)?, &CRAWL_OF_ONE, &NOTED)?;
    let has_begun = u64::from(ended.seen.len() > 2);
    let last = ended.last();
    Ok(ended.answer == Err(Fault::Failed) && last[6] == has_begun && last[8] == 0)
}

#[test]
fn a_failed_call_of_a_crawl_ends_the_store(rt: HostRuntime) -> Result<(), Fail> {
    let alloc = rt.alloc();
    let first = after(alloc, blank(alloc), &CRAWL_OF_ONE, &[])?.calls();
    let end = after(alloc, blank(alloc), &CRAWL_OF_ONE, &NOTED)?.calls();
    for call in first..end {
        assert!(rt; is_told(alloc, call)?, "at {call}");
    }
    Ok(())
}

// The first call from one on to the last of a step in which a stop leaves anything else than what there was before the
// step, or behind it, or in which it leaves the first once the last call was Ok.
fn wrong_in(
    alloc: Global,
    store: &MemStore,
    calls: (u64, u64),
    before: Numbers,
    behind: Numbers,
) -> Result<Option<(u64, Numbers)>, Fault> {
    let (first, end) = calls;
    for call in first..end {
        for part in [Part::Old, Part::New, Part::Torn] {
            let found = found(alloc, left(alloc, store, call, part)?, &CRAWL_OF_ONE)?;
            let is_done = call + 1 == end && part == Part::New;
            if found != behind && (is_done || found != before) {
                return Ok(Some((call, found)));
            }
        }
    }
    Ok(None)
}

#[test]
fn a_stop_leaves_a_crawl_before_a_step_or_behind_it(rt: HostRuntime) -> Result<(), Fail> {
    let alloc = rt.alloc();
    let (store, mut ends) = built(alloc, &CRAWL_OF_ONE, &CRAWLED)?;
    // Entering the store changes nothing.
    let store = after(alloc, store, &CRAWL_OF_ONE, &[])?;
    add(&mut ends, store.calls())?;
    for (count, (first, end)) in ends.iter().zip(ends.iter().skip(1)).enumerate() {
        let before = LEFT[count.min(STEPS)];
        let behind = LEFT[count.saturating_add(1).min(STEPS)];
        let wrong = wrong_in(alloc, &store, (*first, *end), before, behind)?;
        assert!(rt; wrong.is_none() && first < end, "{count}");
    }
    Ok(())
}

// A URL by its number.
fn url_of(number: u64) -> [u8; 16] {
    let mut text = *b"http://000.test/";
    text[7] = b'0' + (number / 100 % 10) as u8;
    text[8] = b'0' + (number / 10 % 10) as u8;
    text[9] = b'0' + (number % 10) as u8;
    text
}

// How many pages there are in a longer crawl, and how many of them are settled before its store is entered again.
const PAGES: u64 = 120;

const SOME: u64 = 24;

// The store of a crawl of so many pages that were read.
fn read(alloc: Global) -> Result<MemStore, Fault> {
    let mut yard = opened(alloc, blank(alloc), &CRAWL_OF_ONE)?;
    take_each(alloc, &mut yard, &[Call::Begin])?;
    for number in 0..PAGES {
        let url = url_of(number);
        take_each(
            alloc,
            &mut yard,
            &[Call::Give(NO_HOST, 1, &url), Call::Merge],
        )?;
    }
    take_each(alloc, &mut yard, &[Call::Send, Call::Pass])?;
    Ok(yard.into_store())
}

// Enters the store and settles the next pages: how many are in front then and how many done, behind each, and the store.
fn settled(
    alloc: Global,
    store: MemStore,
    first: u64,
) -> Result<(Vec<(u64, u64)>, MemStore), Fault> {
    let mut yard = opened(alloc, store, &CRAWL_OF_ONE)?;
    let mut found = Vec::new(alloc);
    for number in 0..SOME {
        let url = url_of(first.saturating_add(number));
        let numbers = step(alloc, &mut yard, Call::Settle(&url))?;
        add(&mut found, (numbers[4], numbers[5]))?;
    }
    Ok((found, yard.into_store()))
}

#[test]
fn a_crawl_of_many_pages_goes_on(rt: HostRuntime) -> Result<(), Fail> {
    let alloc = rt.alloc();
    let mut store = read(alloc)?;
    for i in 0..PAGES / SOME {
        let (found, left) = settled(alloc, store, i * SOME)?;
        for (numbers, done) in found.into_iter().zip(i * SOME + 1..PAGES + 1) {
            assert!(rt; numbers == (PAGES.saturating_sub(done), done), "{done}");
        }
        store = left;
    }
    Ok(())
}
