//! A pass, and what it puts in front.

ghost use Rattle.std.specs.Prelude.{◌≡◌, ◌<◌, ◌≤◌, ◌-◌, ◌^◌, ℕ, List, length, map, min, sum, true, IfOk, IfSome, None};
ghost use Rattle.std.specs.List.{AllByRecursion};
ghost use Rattle.std.specs.Option.{ForSome};
ghost use Rattle.irl_events.specs.Events.{Pass as SeenPass};
ghost use Rattle.irl_star.specs.Degrees.{Counts as DegreeCounts};
ghost use Rattle.irl_fate.specs.Counting.{CountFates};
ghost use Rattle.irl_fate.specs.Fates.{fate_of};
ghost use Rattle.irl_fate.specs.Fronts.{AreFirst};
ghost use Rattle.irl_frontier.specs.Frontier.{after_pass};
ghost use Rattle.irl_frontier.specs.Tallies.{HasAllRead};
ghost use Rattle.irl_bay.specs.Drum.{durables};
ghost use Rattle.irl_bay.specs.Holding.{IsLong};
ghost use Rattle.irl_head.specs.StoreFiles.{urls_base};
ghost use Rattle.irl_key.specs.Links.{IsCanonicalText};
ghost use Rattle.irl_ledger.specs.Adding.{AddsToLog};
ghost use Rattle.irl_ledger.specs.Passing.{IsWorkOf, MayPass};
ghost use Rattle.irl_ledger.specs.Reading.{ReadsUrls};

use crate::Ledger;
use irl_bay::Bay;
use irl_disk::Store;
use irl_events::Event;
use irl_frontier::{Counts, Fate, FateFault, Item, a_pass_breaks_no_rule};
use irl_head::URLS_BASE;
use irl_key::{Canon, Web, Work, canonical};
use irl_layout::BayFile;
use irl_offer::Fault;
use std::alloc::{AllocError, Global};

impl Ledger {
    /// A pass over the next queue and then these fresh URLs: each is put in front, or waits, by the budget of its domain. Want
    /// of memory changes nothing; `Failed` ends the log's soundness.
    pub fn pass<S: Store>(&mut self, store: &mut S, fresh: &[Item]) -> Result<(), Fault>
        requires sound { self.old.log.journal.is_sound ≡ true }
        requires place { ForSome (S.told store.old).files (λ files.
            self.old.log.journal.end < length (files self.old.log.journal.file)) }
        requires passes { MayPass self.old fresh.now }
        // Budgets go by the domains that the pairs lead to which were told.
        ensures { (adds : List (List ℕ)) → DegreeCounts self.old.frontier.degrees adds →
            AddsToLog S.told result (SeenPass self.old.frontier.progress.sent)
            (after_pass adds self.old.frontier self.old.frontier.progress.sent fresh.now)
            self.old.suffixes self.old self.new store.old store.new }
    {
        self.frontier.keeps();
        a_pass_breaks_no_rule();
        let judged = self.frontier.sent();
        let plan = match self.frontier.plan_pass(judged, fresh) {
            Ok(plan) => plan,
            Err(FateFault::Memory) => return Err(Fault::Memory),
            Err(FateFault::Illegal(_)) => unreachable!(),
        };
        self.append(store, Event::Pass { judged }, plan)
    }

    /// The pages that are to be fetched next: the first so many of the front, in order of number, and all of it where there are
    /// fewer. Each is read once. A refusal ends nothing.
    pub fn front<S: Store>(
        &self,
        alloc: Global,
        store: &mut S,
        urls: &Bay,
        most: u32,
    ) -> Result<Vec<Work>, Fault>
        requires read { self.now.frontier.progress.read ≤ urls.now.last.judged }
        requires sound { urls.now.is_sound ≡ true }
        requires base { urls.now.base ≡ urls_base }
        requires long { ForSome (S.told store.old).files (λ files. IsLong urls.now files) }
        ensures first { IfOk result (λ works. AreFirst self.now.frontier.progress.front most
            (map (λ work. work.number) works.items)) }
        ensures reads { ReadsUrls result (λ works book. AllByRecursion (IsWorkOf book) works.items) urls.now
            (S.told store.old) (S.told store.new) }
    {
        let _is_drum = urls.is_sound();
        self.frontier.front_was_read();
        let numbers = self.frontier.first(alloc, most)?;
        let mut works = Vec::with_capacity(alloc, numbers.len())?;
        for number in &numbers {
            let work = self.work(store, urls, *number)?;
            works.push_reserved(work);
        }
        Ok(works)
    }

    // The page of the URL with this number.
    fn work<S: Store>(&self, store: &mut S, urls: &Bay, number: u64) -> Result<Work, Fault>
        requires within { number < urls.now.last.judged }
        requires sound { urls.now.is_sound ≡ true }
        requires base { urls.now.base ≡ urls_base }
        requires long { ForSome (S.told store.old).files (λ files. IsLong urls.now files) }
        ensures number { IfOk result (λ work. work.number ≡ number) }
        ensures reads { ReadsUrls result (λ work book. IsWorkOf book work) urls.now (S.told store.old)
            (S.told store.new) }
    {
        let _is_drum = urls.is_sound();
        let one = urls.judged(store, number)?;
        match page_of(self.alloc, one.offer.aux.bytes())? {
            Some(web) => Ok(Work { number, web }),
            None => {
                let file = BayFile::Judged.number(URLS_BASE);
                Err(Fault::Damaged(file, 48 * number))
            }
        }
    }

    /// How many URLs are in front. It takes no memory.
    pub fn front_len(&self) -> u64
        ensures { result ≡ length self.now.frontier.progress.front }
    {
        self.frontier.left() as u64
    }

    /// Of how many cuts the pairs are sent, as the last event about them says: 0 before any. It takes no memory.
    pub fn sent_cuts(&self) -> u64
        ensures { result ≡ self.now.frontier.progress.cuts }
    {
        self.frontier.cuts()
    }

    /// The fate of a URL, by its number. It takes no memory.
    pub fn fate(&self, number: u64) -> Fate
        ensures { result ≡ fate_of self.now.frontier.progress number }
    {
        self.frontier.fate(number)
    }

    /// How many URLs have each fate, how many offers there are and how many of them are judged, and how many pairs are unique.
    /// It takes no memory.
    pub fn counts(&self, urls: &Bay) -> Counts
        ensures fates { (numbers : List ℕ) → length numbers ≡ urls.now.last.unique →
            HasAllRead self.now.frontier.progress numbers →
            CountFates result self.now.frontier.progress numbers }
        ensures offers { result.offers ≡ min (sum (durables urls.now)) (2 ^ 64 - 1) }
        ensures judged { result.judged ≡ urls.now.last.judged }
        ensures pairs { result.pairs ≡ self.now.pairs.last.unique }
    {
        let mut counts = self.frontier.counts(urls.unique_len());
        counts.offers = offers_len(urls);
        counts.judged = urls.judged_len();
        counts.pairs = self.pairs.unique_len();
        counts
    }
}

// The page that a text is of, and none exactly where the text isn't canonical.
fn page_of(alloc: Global, text: &[u8]) -> Result<Option<Web>, AllocError>
    ensures value { IfOk result (λ found. IfSome found (λ web. web ≡ text.now)) }
    ensures none { IfOk result (λ found. found ≡ None → IsCanonicalText text.now → ⊥) }
{
    match canonical(alloc, None, text)? {
        Canon::Web(web) if web.text() == text => Ok(Some(web)),
        _ => Ok(None),
    }
}

/// How many offers a bay has, in all buckets, or the last `u64` where there are more.
pub fn offers_len(bay: &Bay) -> u64
    ensures { result ≡ min (sum (durables bay.now)) (2 ^ 64 - 1) }
{
    let _is_drum = bay.is_sound();
    let mut count: u64 = 0;
    for b in 0..bay.settings().buckets {
        count = count.saturating_add(bay.durable(b));
    }
    count
}
