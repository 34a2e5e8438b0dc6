//! An open crawl of a made-up site. What a call asks is tested before it.

ghost use Rattle.std.specs.Prelude.{◌≡◌, ◌≤◌, length, true, All, IfOk, IsTrue};
ghost use Rattle.irl_events.specs.Events.{has_number};
ghost use Rattle.irl_ledger.specs.Settling.{IsFlushed, outcomes_of};
ghost use Rattle.irl_log.specs.Form.{IsSuffixText};
ghost use Rattle.irl_offer.specs.Buckets.{IsBucketCount, bucket_of as bucket_of_key};
ghost use Rattle.irl_schedule.specs.Calls.{MayFlushSome};
ghost use Rattle.irl_yard.specs.Adding.{MayBegin};
ghost use Rattle.irl_yard.specs.Holding.{IsSound};
ghost use Rattle.irl_yard.specs.Passing.{front_in};
ghost use Rattle.irl_yard.specs.Settling.{MaySettle};

use crate::site::{Site, page_of};
use irl_array::Array;
use irl_disk::Store;
use irl_fate::numbers_differ;
use irl_key::{Work, key_of};
use irl_offer::{Done, Fault, Kind, Offer, Outcome, Receipt, Receipts, Text, bucket_of};
use irl_pld::Suffixes;
use irl_yard::Yard;
use std::alloc::{AllocError, Global};

/// How many pages of the front a turn takes.
const BATCH: u32 = 4_096;

/// A crawl, and the arrays in front of its buckets.
#[derive(Drop)]
pub struct Crawl<S: Store> {
    pub yard: Yard<S>,
    pub arrays: Vec<Array>,
    pub site: Site,
}

impl<S: Store> Crawl<S> {
    /// Begins the crawl: its first event, and the first page.
    pub fn begin(&mut self, alloc: Global) -> Result<(), Fault> {
        let suffixes = Text::from_bytes(alloc, b"test")?;
        if !can_begin(alloc, &self.yard, &suffixes) {
            return Err(Fault::Failed);
        }
        self.yard.begin(&suffixes)
    }

    /// Offers the first page, judges it and sends the pairs.
    pub fn seed(&mut self, alloc: Global) -> Result<(), Fault> {
        self.offer(self.site.offer(alloc, 0, 0)?)?;
        self.flush_all()?;
        self.judge()
    }

    /// A turn: the first pages of the front are done, their links are offered and judged, and the pairs sent.
    pub fn turn(&mut self, alloc: Global) -> Result<(), Fault> {
        let mut done = Vec::new(alloc);
        for work in self.front(alloc)? {
            add(&mut done, self.fetch(alloc, &work)?)?;
        }
        self.flush_all()?;
        settle(alloc, &mut self.yard, &done)?;
        self.judge()
    }

    /// A pass, where one is due. Gives how many pages are in front.
    pub fn pass(&mut self) -> Result<u64, Fault> {
        if !self.yard.is_sound() || !self.yard.is_pass_due() {
            return Err(Fault::Failed);
        }
        self.yard.pass()
    }

    // The first pages of the front.
    fn front(&mut self, alloc: Global) -> Result<Vec<Work>, Fault> {
        if !self.yard.is_sound() {
            return Err(Fault::Failed);
        }
        self.yard.front(alloc, BATCH)
    }

    // What becomes of a page, whose links are offered.
    fn fetch(&mut self, alloc: Global, work: &Work) -> Result<Done, Fault> {
        let mut receipts = Receipts::new(alloc);
        if let Some(page) = page_of(work.web.target()) {
            let from = key_of(work.web.host());
            for link in self.site.links(page) {
                if link < u64::from(self.site.pages) {
                    receipts.push(self.offer(self.site.offer(alloc, link, from)?)?)?;
                }
            }
        }
        Ok(Done {
            number: work.number,
            outcome: Outcome::Page,
            receipts,
        })
    }

    // Puts an offer into its bucket's array, which is flushed before where it is full. Gives where it will stand.
    fn offer(&mut self, offer: Offer) -> Result<Receipt, Fault> {
        let bucket = bucket_of(offer.key, self.yard.settings().buckets);
        let Some(array) = self.arrays.get_mut(bucket as usize) else {
            return Err(Fault::Failed);
        };
        if array.is_full() {
            merge_if_due(&mut self.yard)?;
            flush(&mut self.yard, bucket, array)?;
            merge_if_due(&mut self.yard)?;
        }
        if array.is_full() || bucket >= self.yard.settings().buckets {
            return Err(Fault::Failed);
        }
        let number = self
            .yard
            .durable(bucket)
            .saturating_add(u64::from(array.len()));
        array.push(offer);
        Ok(Receipt { bucket, number })
    }

    // Flushes every array, as at the end of an input.
    fn flush_all(&mut self) -> Result<(), Fault> {
        merge_if_due(&mut self.yard)?;
        let mut bucket = 0u32;
        for array in &mut self.arrays {
            flush(&mut self.yard, bucket, array)?;
            bucket = bucket.saturating_add(1);
        }
        Ok(())
    }

    // Judges what is left, and sends the pairs.
    fn judge(&mut self) -> Result<(), Fault> {
        if !self.yard.is_sound() {
            return Err(Fault::Failed);
        }
        self.yard.merge_rest()?;
        if !self.yard.is_sound() || !self.yard.has_begun() {
            return Err(Fault::Failed);
        }
        self.yard.send_pairs()
    }
}

// Whether the crawl can begin.
fn can_begin<S: Store>(alloc: Global, yard: &Yard<S>, suffixes: &Text) -> bool
    ensures sound { IsTrue result → IsSound yard.now.parts }
    ensures begins { IsTrue result → MayBegin yard.now.parts.rest suffixes.now }
{
    yard.is_sound()
        && matches!(yard.settings().kind, Kind::Crawl)
        && !yard.has_begun()
        && is_suffix_text(alloc, suffixes.bytes())
}

// Whether a crawl can begin with this text.
fn is_suffix_text(alloc: Global, text: &[u8]) -> bool
    ensures { IsTrue result → IsSuffixText text.now }
{
    text.len() <= 4_194_304 && Suffixes::read(alloc, text).is_ok()
}

// Runs the merge that is due, if one is.
fn merge_if_due<S: Store>(yard: &mut Yard<S>) -> Result<(), Fault> {
    if !yard.is_sound() {
        return Err(Fault::Failed);
    }
    yard.merge_if_due()?;
    Ok(())
}

// Flushes a bucket's array, where an offer waits in it.
fn flush<S: Store>(yard: &mut Yard<S>, b: u32, array: &mut Array) -> Result<(), Fault> {
    if !can_flush(yard, b, array) {
        return Err(Fault::Failed);
    }
    yard.flush_some(b, array)
}

// Whether the array can be flushed to this bucket.
fn can_flush<S: Store>(yard: &Yard<S>, b: u32, array: &Array) -> bool
    ensures sound { IsTrue result → IsSound yard.now.parts }
    ensures some { IsTrue result → MayFlushSome b array.now yard.now.parts.urls }
{
    let settings = yard.settings();
    yard.is_sound()
        && b < settings.buckets
        && array.room() == settings.array
        && array.len() <= settings.array
        && yard.pending(b) < u64::from(settings.trigger)
        && are_of(array.items(), settings.buckets, b)
}

// Whether the offers are all of this bucket.
fn are_of(offers: &[Offer], buckets: u32, b: u32) -> bool
    requires { IsBucketCount buckets }
    ensures { IsTrue result → All (λ offer. bucket_of_key buckets offer.key ≡ b) offers.now }
{
    offers
        .iter()
        .all(|offer| bucket_of(offer.key, buckets) == b)
}

// One more.
fn add(done: &mut Vec<Done>, one: Done) -> Result<(), AllocError> {
    done.push(one)?;
    Ok(())
}

// Settles pages.
fn settle<S: Store>(alloc: Global, yard: &mut Yard<S>, done: &[Done]) -> Result<(), Fault> {
    let outcomes = outcomes(alloc, done)?;
    let differ = numbers_differ(alloc, &outcomes)?;
    if !differ || !can_settle(yard, done) {
        return Err(Fault::Failed);
    }
    yard.settle(done)
}

// What came of each.
fn outcomes(alloc: Global, done: &[Done]) -> Result<Vec<(u64, Outcome)>, AllocError>
    ensures { IfOk result (λ outcomes. outcomes.items ≡ outcomes_of done.now) }
{
    done.iter()
        .map(|one| (one.number, one.outcome))
        .collect(alloc)
}

// Whether these can be settled, if none stands twice.
fn can_settle<S: Store>(yard: &Yard<S>, done: &[Done]) -> bool
    ensures sound { IsTrue result → IsSound yard.now.parts }
    ensures some { IsTrue result → 1 ≤ length done.now }
    ensures limit { IsTrue result → length done.now ≤ 16384 }
    ensures front { IsTrue result →
        All (λ d. has_number (front_in yard.now.parts.rest) d.number ≡ true) done.now }
    ensures links { IsTrue result → All (λ d. All (IsFlushed yard.now.parts.urls) d.receipts) done.now }
{
    yard.is_sound()
        && !done.is_empty()
        && done.len() <= 16_384
        && are_in_front(yard, done)
        && are_flushed(yard, done)
}

// Whether these pages are all in front.
fn are_in_front<S: Store>(yard: &Yard<S>, done: &[Done]) -> bool
    ensures { IsTrue result → All (λ d. has_number (front_in yard.now.parts.rest) d.number ≡ true) done.now }
{
    done.iter().all(|one| yard.is_in_front(one.number))
}

// Whether the offers of their links are all flushed.
fn are_flushed<S: Store>(yard: &Yard<S>, done: &[Done]) -> bool
    ensures { IsTrue result → All (λ d. All (IsFlushed yard.now.parts.urls) d.receipts) done.now }
{
    done.iter()
        .all(|one| have_flushed(yard, one.receipts.items()))
}

// Whether the offers of these receipts are all flushed.
fn have_flushed<S: Store>(yard: &Yard<S>, receipts: &[Receipt]) -> bool
    ensures { IsTrue result → All (IsFlushed yard.now.parts.urls) receipts.now }
{
    receipts.iter().all(|receipt| is_flushed(yard, *receipt))
}

// Whether the offer of a receipt is flushed.
fn is_flushed<S: Store>(yard: &Yard<S>, receipt: Receipt) -> bool
    ensures { IsTrue result → IsFlushed yard.now.parts.urls receipt }
{
    receipt.bucket < yard.settings().buckets && receipt.number < yard.durable(receipt.bucket)
}
