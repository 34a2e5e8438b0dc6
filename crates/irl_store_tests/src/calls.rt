//! An open store, by calls that give plain data back: no test sees a contract of it.

ghost use Rattle.std.specs.Prelude.{IsTrue};
ghost use Rattle.irl_bay.specs.Drum.{SomePending};
ghost use Rattle.irl_yard.specs.Holding.{IsSound};

pub(crate) mod crawling;
pub(crate) mod flushing;
pub(crate) mod noting;

use crate::stores::{add, blank, copied};
use crawling::{begin, pass, send, settle_first};
use flushing::{flush, give};
use irl_disk::MemStore;
use irl_head::OpenFault;
use irl_offer::{Asked, Fault, Judged, Verdict};
use irl_yard::Yard;
use noting::note;
use std::alloc::{AllocError, Global};

// Opens a store, or makes one.
pub(crate) fn entered(
    alloc: Global,
    store: MemStore,
    asked: &Asked,
) -> Result<Yard<MemStore>, (OpenFault, MemStore)> {
    Yard::enter(alloc, store, asked)
}

// The same, where no refusal is looked at.
pub(crate) fn opened(
    alloc: Global,
    store: MemStore,
    asked: &Asked,
) -> Result<Yard<MemStore>, Fault> {
    match entered(alloc, store, asked) {
        Ok(yard) => Ok(yard),
        Err(_) => Err(Fault::Memory),
    }
}

// Why the store is refused.
pub(crate) fn refused(alloc: Global, store: MemStore, asked: &Asked) -> Option<OpenFault> {
    match entered(alloc, store, asked) {
        Ok(_) => None,
        Err((fault, _)) => Some(fault),
    }
}

// The name of a host, which is a domain too.
pub(crate) type Host = [u8; 6];

pub(crate) const NO_HOST: Host = [0; 6];

// A call of an open store.
#[derive(Clone, Copy)]
pub(crate) enum Call<'a> {
    // Flushes offers to this bucket, each with its key and text.
    Flush(u32, &'a [(u64, &'a [u8])]),
    // Flushes a URL so many times, two at most, which a page of this domain has; of `NO_HOST`, it is a seed.
    Give(Host, u32, &'a [u8]),
    Merge,
    // Begins the crawl, with one suffix.
    Begin,
    Send,
    Pass,
    // Settles the first page of the front, where it has this URL.
    Settle(&'a [u8]),
    // Notes at these moments that hosts have no robots file: one alone, or several at once.
    Note(&'a [(Host, u64)]),
}

// Whether offers of this bucket wait to be judged.
fn waits_in(yard: &Yard<MemStore>, b: u32) -> bool
    ensures some { IsTrue result → SomePending yard.now.parts.urls }
{
    b < yard.settings().buckets && yard.pending(b) > 0
}

// Whether offers of one of the first two buckets wait to be judged.
fn can_merge(yard: &Yard<MemStore>) -> bool
    ensures sound { IsTrue result → IsSound yard.now.parts }
    ensures some { IsTrue result → SomePending yard.now.parts.urls }
{
    yard.is_sound() && (waits_in(yard, 0) || waits_in(yard, 1))
}

// Judges what was flushed. What is answered has to be the number of cuts.
fn merge(yard: &mut Yard<MemStore>) -> Result<(), Fault> {
    if !can_merge(yard) {
        return Err(Fault::Memory);
    }
    if yard.merge()? != yard.cuts() {
        return Err(Fault::Memory);
    }
    Ok(())
}

fn take(alloc: Global, yard: &mut Yard<MemStore>, call: Call<'_>) -> Result<(), Fault> {
    match call {
        Call::Flush(b, offers) => flush(alloc, yard, b, offers),
        Call::Give(from, times, text) => give(alloc, yard, from, times, text),
        Call::Merge => merge(yard),
        Call::Begin => begin(alloc, yard),
        Call::Send => send(yard),
        Call::Pass => pass(yard),
        Call::Settle(text) => settle_first(alloc, yard, text),
        Call::Note(hosts) => note(alloc, yard, hosts),
    }
}

// How much there is of a store: offers, how many of them are judged, unique, pairs, how many are in front, done; whether
// the crawl has begun, a pass is due, and the store is sound.
pub(crate) type Numbers = [u64; 9];

pub(crate) fn numbers(yard: &Yard<MemStore>) -> Numbers {
    let counts = yard.counts();
    [
        counts.offers,
        counts.judged,
        counts.unique,
        counts.pairs,
        counts.front,
        counts.done,
        u64::from(yard.has_begun()),
        u64::from(yard.is_pass_due()),
        u64::from(yard.is_sound()),
    ]
}

// How many offers a bucket has, and how many of them wait; none where there is no such bucket.
fn in_bucket(yard: &Yard<MemStore>, b: u32) -> [u64; 2] {
    if b >= yard.settings().buckets {
        return [0; 2];
    }
    [yard.durable(b), yard.pending(b)]
}

// What the first two buckets have, what waits there, what is judged, and the cuts.
pub(crate) fn in_buckets(yard: &Yard<MemStore>) -> [u64; 6] {
    let [first, second] = [in_bucket(yard, 0), in_bucket(yard, 1)];
    [
        first[0],
        second[0],
        first[1],
        second[1],
        yard.judged_len(),
        yard.cuts(),
    ]
}

// Makes calls as long as each is Ok. Puts down how much there is before the first, and behind each.
fn take_all(
    alloc: Global,
    yard: &mut Yard<MemStore>,
    calls: &[Call<'_>],
    seen: &mut Vec<Numbers>,
) -> Result<(), Fault> {
    add(seen, numbers(yard))?;
    for call in calls {
        let answer = take(alloc, yard, *call);
        add(seen, numbers(yard))?;
        answer?;
    }
    Ok(())
}

// Makes one call: how much there is then.
pub(crate) fn step(
    alloc: Global,
    yard: &mut Yard<MemStore>,
    call: Call<'_>,
) -> Result<Numbers, Fault> {
    take(alloc, yard, call)?;
    Ok(numbers(yard))
}

// The same, where nobody looks.
pub(crate) fn take_each(
    alloc: Global,
    yard: &mut Yard<MemStore>,
    calls: &[Call<'_>],
) -> Result<(), Fault> {
    take_all(alloc, yard, calls, &mut Vec::new(alloc))
}

// What came of calls: how much there was before the first and behind each, what the last answered, and the store.
#[derive(Drop)]
pub(crate) struct Ended {
    pub(crate) seen: Vec<Numbers>,
    pub(crate) answer: Result<(), Fault>,
    pub(crate) in_buckets: [u64; 6],
    pub(crate) store: MemStore,
}

impl Ended {
    // How much there is at the end.
    pub(crate) fn last(&self) -> Numbers {
        self.seen.last().copied().unwrap_or([0; 9])
    }

    // How much there was in the opened store.
    pub(crate) fn first(&self) -> Numbers {
        self.seen.first().copied().unwrap_or([0; 9])
    }
}

// Enters a store and makes these calls as long as each is Ok.
pub(crate) fn run(
    alloc: Global,
    store: MemStore,
    asked: &Asked,
    calls: &[Call<'_>],
) -> Result<Ended, Fault> {
    let mut yard = opened(alloc, store, asked)?;
    let mut seen = Vec::new(alloc);
    let answer = take_all(alloc, &mut yard, calls, &mut seen);
    let in_buckets = in_buckets(&yard);
    Ok(Ended {
        seen,
        answer,
        in_buckets,
        store: yard.into_store(),
    })
}

// How much there is in a store that is entered.
pub(crate) fn found(alloc: Global, store: MemStore, asked: &Asked) -> Result<Numbers, Fault> {
    Ok(run(alloc, store, asked, &[])?.last())
}

// The store once all of these calls were Ok.
pub(crate) fn after(
    alloc: Global,
    store: MemStore,
    asked: &Asked,
    calls: &[Call<'_>],
) -> Result<MemStore, Fault> {
    let ended = run(alloc, store, asked, calls)?;
    ended.answer?;
    Ok(ended.store)
}

// A store that was made and entered again, over which these calls were made, and how many calls of the store there were
// before the first of them and behind each.
pub(crate) fn built(
    alloc: Global,
    asked: &Asked,
    calls: &[Call<'_>],
) -> Result<(MemStore, Vec<u64>), Fault> {
    let made = after(alloc, blank(alloc), asked, &[])?;
    let mut ends = Vec::new(alloc);
    for count in 0..calls.len() {
        let store = after(alloc, copied(alloc, &made)?, asked, &calls[..count])?;
        add(&mut ends, store.calls())?;
    }
    let store = after(alloc, copied(alloc, &made)?, asked, calls)?;
    add(&mut ends, store.calls())?;
    Ok((store, ends))
}

// The bucket, the verdict and the text's first byte of a judged offer.
pub(crate) type Seen = (u32, Option<Verdict>, Option<u8>);

fn seen_of(found: &Judged) -> Seen {
    (
        found.bucket,
        found.verdict,
        found.offer.aux.bytes().first().copied(),
    )
}

// One judged offer.
pub(crate) fn judged_at(yard: &mut Yard<MemStore>, i: u64) -> Result<Seen, Fault> {
    if !yard.is_sound() || i >= yard.judged_len() {
        return Err(Fault::Memory);
    }
    Ok(seen_of(&yard.judged(i)?))
}

// The judged offers of one piece.
fn part_from(
    alloc: Global,
    yard: &mut Yard<MemStore>,
    i: u64,
    most: u32,
) -> Result<Vec<Judged>, Fault> {
    if !yard.is_sound() || i >= yard.judged_len() {
        return Err(Fault::Memory);
    }
    Ok(yard.judged_from(i, most)?.to_vec(alloc)?)
}

// How many there are, and the last of them.
pub(crate) fn last_from(
    alloc: Global,
    yard: &mut Yard<MemStore>,
    i: u64,
    most: u32,
) -> Result<(usize, Option<Seen>), Fault> {
    let found = part_from(alloc, yard, i, most)?;
    Ok((found.len(), found.last().map(seen_of)))
}
