//! A pass of a crawl, what is then to be fetched, and what becomes of each URL.

ghost use Rattle.std.specs.Prelude.{◌≡◌, ◌-◌, ◌^◌, ℕ, List, [], map, length, min, sum, true, option_copied, IfOk, IsOk, IsErrOf};
ghost use Rattle.std.specs.Option.{ForSome};
ghost use Rattle.std.specs.List.{AllByRecursion};
ghost use Rattle.irl_base.specs.declared.fault.Fault.TheVariants.{Failed as FailedFault};
ghost use Rattle.irl_events.specs.Events.{before_all};
ghost use Rattle.irl_events.specs.State.{State};
ghost use Rattle.irl_fate.specs.Counting.{CountFates};
ghost use Rattle.irl_fate.specs.Fates.{fate_of};
ghost use Rattle.irl_fate.specs.Fronts.{AreFirst};
ghost use Rattle.irl_bay.specs.Drum.{durables};
ghost use Rattle.irl_bay.specs.Holding.{IsLong};
ghost use Rattle.irl_core.specs.States.{begun_with};
ghost use Rattle.irl_ledger.specs.Passing.{IsWorkOf};
ghost use Rattle.irl_ledger.specs.Reading.{ReadsUrls};
ghost use Rattle.irl_yard.specs.Holding.{HoldsState, IsOpenRest, IsSound, StaysSound};
ghost use Rattle.irl_yard.specs.Merges.{ReadsState};
ghost use Rattle.irl_yard.specs.Passing.{AddsPass, AreCounts, AreFresh, AreWorks, MayPass, MayRead, PassesState};
ghost use Rattle.irl_yard.specs.Passing.{come, fate_in, front_in, suffixes_in};

use crate::parts::Rest;
use crate::yard::{Yard, is_failure};
use irl_bay::Bay;
use irl_disk::Store;
use irl_frontier::{Counts, Fate, Item};
use irl_key::Work;
use irl_ledger::offers_len;
use irl_offer::Fault;
use irl_pld::Suffixes;
use std::alloc::Global;

impl<S: Store> Yard<S> {
    /// A pass over the next queue and the URLs that no pass has read: each is put in front, or waits, by the budget of its
    /// domain. `Ok` gives how many URLs are in front. `Failed` ends the soundness.
    pub fn pass(&mut self) -> Result<u64, Fault>
        requires sound { IsSound self.old.parts }
        requires passes { MayPass self.old.parts.urls self.old.parts.rest }
        ensures passes { PassesState S.told result self.old.parts self.new.parts self.old.store self.new.store }
        ensures goes_on { StaysSound (IsErrOf result Fault.Failed) self.new.parts }
    {
        let fresh = self.read_fresh()?;
        self.add_pass(&fresh)?;
        Ok(self.front_len())
    }

    // The URLs that a pass has to read fresh.
    fn read_fresh(&mut self) -> Result<Vec<Item>, Fault>
        requires sound { IsSound self.old.parts }
        requires passes { MayPass self.old.parts.urls self.old.parts.rest }
        ensures may { IfOk result (λ fresh. MayRead self.new.parts.urls self.new.parts.rest fresh.items) }
        ensures reads { ReadsUrls result (λ fresh book. AreFresh self.old.parts.rest fresh.items book)
            self.old.parts.urls (S.told self.old.store) (S.told self.new.store) }
        ensures states { ReadsState result (λ fresh book. AreFresh self.old.parts.rest fresh.items book)
            self.old.parts self.new.parts (S.told self.old.store) (S.told self.new.store) }
        ensures rest { self.new.parts.rest ≡ self.old.parts.rest }
        ensures goes_on { StaysSound (IsErrOf result Fault.Failed) self.new.parts }
    {
        let _is_sound = self.parts.urls.is_sound();
        let fresh = match &self.parts.rest {
            Rest::Plain => unreachable!(),
            Rest::Crawl(ledger) => ledger.fresh(&mut self.store, &self.parts.urls),
        };
        self.parts.has_failed = is_failure(&fresh);
        fresh
    }

    // The pass over them.
    fn add_pass(&mut self, fresh: &[Item]) -> Result<(), Fault>
        requires sound { IsSound self.old.parts }
        requires reads { MayRead self.old.parts.urls self.old.parts.rest fresh.now }
        ensures adds { AddsPass S.told result fresh.now self.old.parts self.new.parts self.old.store self.new.store }
        ensures goes_on { StaysSound (IsErrOf result Fault.Failed) self.new.parts }
    {
        let _is_sound = self.parts.urls.is_sound();
        irl_frontier::a_pass_breaks_no_rule();
        match &mut self.parts.rest {
            Rest::Plain => unreachable!(),
            Rest::Crawl(ledger) => {
                ledger.keeps();
                ledger.pass(&mut self.store, fresh)
            }
        }
    }

    /// How many URLs are in front. It takes no memory.
    pub fn front_len(&self) -> u64
        ensures { result ≡ length (front_in self.now.parts.rest) }
    {
        match &self.parts.rest {
            Rest::Plain => 0,
            Rest::Crawl(ledger) => ledger.front_len(),
        }
    }

    /// The pages that are to be fetched next: the first so many of the front, in order of number, and all of it where there
    /// are fewer. It changes nothing; `Failed` ends the soundness.
    pub fn front(&mut self, alloc: Global, most: u32) -> Result<Vec<Work>, Fault>
        requires sound { IsSound self.old.parts }
        ensures first { IfOk result (λ works. AreFirst (front_in self.old.parts.rest) most
            (map (λ work. work.number) works.items)) }
        ensures reads { ReadsUrls result (λ works book. AllByRecursion (IsWorkOf book) works.items)
            self.old.parts.urls (S.told self.old.store) (S.told self.new.store) }
        // Each is at the text of the state's URL.
        ensures states { ReadsState result (λ works book. AreWorks works.items book)
            self.old.parts self.new.parts (S.told self.old.store) (S.told self.new.store) }
        ensures rest { self.new.parts.rest ≡ self.old.parts.rest }
        ensures goes_on { StaysSound (IsErrOf result Fault.Failed) self.new.parts }
    {
        let _is_sound = self.parts.urls.is_sound();
        let works = self
            .parts
            .rest
            .front(alloc, &mut self.store, &self.parts.urls, most);
        self.parts.has_failed = is_failure(&works);
        works
    }

    /// The fate of a URL, by its number. It takes no memory.
    pub fn fate(&self, number: u64) -> Fate
        ensures value { result ≡ fate_in self.now.parts.rest number }
        ensures state { (state : State) → HoldsState (S.told self.now.store).images self.now.parts state →
            result ≡ fate_of (come self.now.parts.urls.settings state) number }
    {
        match &self.parts.rest {
            Rest::Plain => Fate::Fresh,
            Rest::Crawl(ledger) => ledger.fate(number),
        }
    }

    /// How many URLs have each fate, how many offers there are and how many of them are judged, and how many pairs are
    /// unique. It takes no memory.
    pub fn counts(&self) -> Counts
        ensures { (state : State) → HoldsState (S.told self.now.store).images self.now.parts state →
            AreCounts self.now.parts.urls.settings state result }
    {
        let _is_sound = self.parts.urls.is_sound();
        match &self.parts.rest {
            Rest::Plain => plain_counts(&self.parts.urls),
            Rest::Crawl(ledger) => ledger.counts(&self.parts.urls),
        }
    }

    /// The suffixes that the crawl began with, and none before it begins. It takes no memory.
    pub fn suffixes(&self) -> Option<&Suffixes>
        ensures value { option_copied result ≡ suffixes_in self.now.parts.rest }
        ensures state { (state : State) → HoldsState (S.told self.now.store).images self.now.parts state →
            option_copied result ≡ begun_with state.events }
    {
        match &self.parts.rest {
            Rest::Plain => None,
            Rest::Crawl(ledger) => ledger.suffixes(),
        }
    }
}

impl Rest {
    // The pages that are to be fetched next: none without a crawl.
    fn front<S: Store>(
        &self,
        alloc: Global,
        store: &mut S,
        urls: &Bay,
        most: u32,
    ) -> Result<Vec<Work>, Fault>
        requires sound { urls.now.is_sound ≡ true }
        requires open_rest { IsOpenRest urls.now self.now (S.told store.old).files }
        requires long { ForSome (S.told store.old).files (λ files. IsLong urls.now files) }
        ensures first { IfOk result (λ works. AreFirst (front_in self.now) most
            (map (λ work. work.number) works.items)) }
        ensures reads { ReadsUrls result (λ works book. AllByRecursion (IsWorkOf book) works.items) urls.now
            (S.told store.old) (S.told store.new) }
        ensures plain { self.now ≡ Rest.Plain → IsOk result × IfOk result (λ works. works.items ≡ []) }
    {
        match self {
            Rest::Plain => Ok(Vec::new(alloc)),
            Rest::Crawl(ledger) => ledger.front(alloc, store, urls, most),
        }
    }
}

// The counts of a store without a crawl: none of its URLs was read.
fn plain_counts(urls: &Bay) -> Counts
    ensures fates { (queues buckets : ℕ) (numbers : List ℕ) → length numbers ≡ urls.now.last.unique →
        CountFates result (before_all queues buckets) numbers }
    ensures offers { result.offers ≡ min (sum (durables urls.now)) (2 ^ 64 - 1) }
    ensures judged { result.judged ≡ urls.now.last.judged }
    ensures pairs { result.pairs ≡ 0 }
{
    let unique = urls.unique_len();
    Counts {
        offers: offers_len(urls),
        judged: urls.judged_len(),
        unique,
        pairs: 0,
        fresh: unique,
        queued: 0,
        last: 0,
        front: 0,
        done: 0,
        page: 0,
        moved: 0,
        status: 0,
        denied: 0,
        shut: 0,
        lost: 0,
        bad: 0,
        large: 0,
        coded: 0,
    }
}
