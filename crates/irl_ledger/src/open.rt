//! Opening what a crawl's store keeps beside its URLs: what the log tells is done again.

ghost use Rattle.std.specs.Prelude.{◌≡◌, ◌<◌, ◌≤◌, ℕ, List, length, map, slice_index, true, Some, None, Ok, Err, IfOk, OnOk, IsErrOf};
ghost use Rattle.std.specs.List.{AllByRecursion};
ghost use Rattle.std.specs.Option.{ForSome};
ghost use Rattle.irl_events.specs.Events.{Begin as SeenBegin, Pairs as SeenPairs, Pass as SeenPass, Robots as SeenRobots, Settle as SeenSettle};
ghost use Rattle.irl_events.specs.Seen.{seen, HasFronts};
ghost use Rattle.irl_star.specs.Degrees.{Counts as DegreeCounts};
ghost use Rattle.irl_fate.specs.declared.fate.FateFault.TheVariants.{Illegal as IllegalFault};
ghost use Rattle.irl_frontier.specs.Plans.{IsNoPass};
ghost use Rattle.irl_bay.specs.Drum.{durable_at};
ghost use Rattle.irl_head.specs.StoreFiles.{crawl_file};
ghost use Rattle.irl_log.specs.Form.{HasForm};
ghost use Rattle.irl_pld.specs.Names.{bad_line};
ghost use Rattle.irl_ledger.specs.Opening.{AreRising, HasCount, HasCountAt, MayOpen, OpensLedger};
ghost use Rattle.irl_ledger.specs.Redoing.{MayRedo};
ghost use Rattle.irl_ledger.specs.Redoing.{ReadsCounts, Redoes, RedoesAll, RedoesBy, RedoesOther, RedoesReading};

use crate::Ledger;
use crate::history::History;
use crate::make::pair_settings;
use crate::notes::Notes;
use irl_bay::Bay;
use irl_disk::Store;
use irl_events::{Event, Numbers, Settled};
use irl_frontier::{FateFault, Frontier, Item, Plan};
use irl_head::{CRAWL, PAIRS_BASE};
use irl_log::Log;
use irl_offer::{Fault, Note, Settings, Text};
use irl_pld::{SuffixFault, Suffixes};
use std::alloc::Global;

// How many offers were judged at each cut: of the URLs, and of the pairs.
#[derive(Drop)]
pub struct JudgedCounts {
    urls: Vec<u64>,
    pairs: Vec<u64>,
}

impl Ledger {
    /// Opens it over files that are there, beside the open bay of URLs, where the log was opened and its events were taken. It
    /// opens the bay of pairs, and then does each event again: of both bays it reads what is judged once. `Damaged` names the
    /// first place that breaks the layout of the bay of pairs, the record of the first event that isn't one of these books, or
    /// what is spoilt of what was judged.
    pub fn open<S: Store>(
        alloc: Global,
        store: &mut S,
        settings: &Settings,
        urls: &Bay,
        log: Log,
        history: History,
    ) -> Result<Ledger, Fault>
        requires { MayOpen settings.now urls.now log history (S.told store.old).files }
        ensures { OpensLedger result settings.now urls.now log history (S.told store.old) (S.told store.new) }
    {
        let _is_drum = urls.is_sound();
        let frontier = Frontier::new(alloc, settings)?;
        let pairs = Bay::adopt(alloc, store, PAIRS_BASE, &pair_settings(settings))?;
        let mut ledger = Ledger {
            alloc,
            pairs,
            log,
            frontier,
            suffixes: None,
            notes: Notes::new(alloc),
        };
        let counts = ledger.judged_counts(store, urls)?;
        let (events, notes) = history.into_parts();
        ledger.redo_all(store, urls, &counts, &events)?;
        ledger.notes = notes;
        Ok(ledger)
    }

    // Reads how many offers were judged at each cut.
    fn judged_counts<S: Store>(&self, store: &mut S, urls: &Bay) -> Result<JudgedCounts, Fault>
        ensures { ReadsCounts result urls.now self.now.pairs (S.told store.old) (S.told store.new) }
    {
        let (_is_drum, _is_sound) = (urls.is_sound(), self.pairs.is_sound());
        let of_urls = urls.judged_at_cuts(self.alloc, store)?;
        let of_pairs = self.pairs.judged_at_cuts(self.alloc, store)?;
        Ok(JudgedCounts {
            urls: of_urls,
            pairs: of_pairs,
        })
    }

    // Does events again, in order. They are those that were kept of the log.
    fn redo_all<S: Store>(
        &mut self,
        store: &mut S,
        urls: &Bay,
        counts: &JudgedCounts,
        events: &[(u64, Event)],
    ) -> Result<(), Fault>
        requires may { MayRedo urls.now self.old (S.told store.old).files }
        requires form { AllByRecursion (λ e. HasForm urls.now.settings.buckets (seen e.1)) events.now }
        ensures { RedoesAll counts.now result (map (λ e. (e.0, seen e.1)) events.now) urls.now
            self.old self.new (S.told store.old) (S.told store.new) }
    {
        let (_is_drum, _is_sound) = (urls.is_sound(), self.pairs.is_sound());
        for (at, event) in events {
            self.redo(store, urls, counts, *at, event)?;
        }
        Ok(())
    }

    // Does an event again, whose record's gate stands at this place.
    fn redo<S: Store>(
        &mut self,
        store: &mut S,
        urls: &Bay,
        counts: &JudgedCounts,
        at: u64,
        event: &Event,
    ) -> Result<(), Fault>
        requires may { MayRedo urls.now self.old (S.told store.old).files }
        requires form { HasForm urls.now.settings.buckets (seen event.now) }
        ensures { RedoesBy counts.now result at (seen event.now) urls.now self.old self.new
            (S.told store.old) (S.told store.new) }
    {
        match event {
            Event::Begin(suffixes) => self.redo_begin(store, urls, at, event, suffixes),
            Event::Pairs {
                cuts,
                judged,
                pairs,
            } => {
                let sent = (*cuts, *judged, *pairs);
                self.redo_pairs(store, urls, counts, at, event, sent)
            }
            Event::Pass { judged } => self.redo_pass(store, urls, at, event, *judged),
            Event::Robots(note) => self.redo_note(store, urls, at, event, note),
            Event::Settle { fronts, done } => self.redo_settle(
                store, urls, at, event, fronts, done,
            ),
        }
    }

    // The crawl's beginning.
    fn redo_begin<S: Store>(
        &mut self,
        store: &mut S,
        urls: &Bay,
        at: u64,
        event: &Event,
        suffixes: &Text,
    ) -> Result<(), Fault>
        requires is { seen event.now ≡ SeenBegin suffixes.now }
        requires names { bad_line suffixes.now ≡ None }
        requires may { MayRedo urls.now self.old (S.told store.old).files }
        ensures { Redoes result at (seen event.now) urls.now self.old self.new
            (S.told store.old) (S.told store.new) }
    {
        let (_is_drum, _) = (urls.is_sound(), store);
        self.keeps();
        let read = match Suffixes::read(self.alloc, suffixes.bytes()) {
            Ok(read) => read,
            Err(SuffixFault::Memory) => return Err(Fault::Memory),
            Err(SuffixFault::BadLine(_)) => unreachable!(),
        };
        self.redo_other(at, event)?;
        self.suffixes = Some(read);
        Ok(())
    }

    // Pairs that were sent: the tables are told those that were judged then.
    fn redo_pairs<S: Store>(
        &mut self,
        store: &mut S,
        urls: &Bay,
        counts: &JudgedCounts,
        at: u64,
        event: &Event,
        sent: (u64, u64, u64),
    ) -> Result<(), Fault>
        requires is { seen event.now ≡ SeenPairs sent.0 sent.1 sent.2 }
        requires may { MayRedo urls.now self.old (S.told store.old).files }
        ensures { RedoesBy counts.now result at (seen event.now) urls.now self.old self.new
            (S.told store.old) (S.told store.new) }
    {
        let (_is_drum, _is_sound) = (urls.is_sound(), self.pairs.is_sound());
        let (cuts, judged, pairs) = sent;
        if !counts.have(urls, &self.pairs, cuts, judged, pairs) {
            return Err(Fault::Damaged(CRAWL, at));
        }
        self.redo_other(at, event)?;
        self.tell_pairs_to(store, pairs)
    }

    // A pass, which reads the next queue and the fresh URLs.
    fn redo_pass<S: Store>(
        &mut self,
        store: &mut S,
        urls: &Bay,
        at: u64,
        event: &Event,
        judged: u64,
    ) -> Result<(), Fault>
        requires is { seen event.now ≡ SeenPass judged }
        requires may { MayRedo urls.now self.old (S.told store.old).files }
        ensures { Redoes result at (seen event.now) urls.now self.old self.new
            (S.told store.old) (S.told store.new) }
    {
        let _is_drum = urls.is_sound();
        self.keeps();
        if self.suffixes.is_none() {
            return Err(Fault::Damaged(CRAWL, at));
        }
        let fresh = self.fresh(store, urls)?;
        self.redo_reading(at, judged, &fresh)
    }

    // A note changes no table.
    fn redo_note<S: Store>(
        &mut self,
        store: &mut S,
        urls: &Bay,
        at: u64,
        event: &Event,
        _note: &Note,
    ) -> Result<(), Fault>
        requires is { seen event.now ≡ SeenRobots _note.now }
        requires may { MayRedo urls.now self.old (S.told store.old).files }
        ensures { Redoes result at (seen event.now) urls.now self.old self.new
            (S.told store.old) (S.told store.new) }
    {
        let (_is_drum, _) = (urls.is_sound(), store);
        self.redo_other(at, event)
    }

    // URLs that were settled.
    fn redo_settle<S: Store>(
        &mut self,
        store: &mut S,
        urls: &Bay,
        at: u64,
        event: &Event,
        fronts: &Numbers,
        _done: &Settled,
    ) -> Result<(), Fault>
        requires is { seen event.now ≡ SeenSettle fronts.now _done.now }
        requires may { MayRedo urls.now self.old (S.told store.old).files }
        ensures { Redoes result at (seen event.now) urls.now self.old self.new
            (S.told store.old) (S.told store.new) }
    {
        let (_is_drum, _) = (urls.is_sound(), store);
        if !are_within(fronts.items(), urls) {
            return Err(Fault::Damaged(CRAWL, at));
        }
        self.redo_other(at, event)
    }

    // A pass that reads these fresh URLs.
    fn redo_reading(&mut self, at: u64, judged: u64, fresh: &[Item]) -> Result<(), Fault>
        ensures { (adds : List (List ℕ)) → DegreeCounts self.old.frontier.degrees adds →
            RedoesReading result at judged fresh.now adds self.old self.new }
    {
        let plan = plan_of(self.frontier.plan_pass(judged, fresh), at)?;
        self.frontier.commit(plan);
        Ok(())
    }

    // An event that is no pass.
    fn redo_other(&mut self, at: u64, event: &Event) -> Result<(), Fault>
        requires other { IsNoPass event.now }
        requires fronts { HasFronts self.old.frontier.settings.buckets event.now }
        ensures { RedoesOther result at (seen event.now) self.old self.new }
    {
        let plan = plan_of(self.frontier.plan(event), at)?;
        self.frontier.commit(plan);
        Ok(())
    }
}

// The plan of an event, where it breaks no rule.
fn plan_of(planned: Result<Plan, FateFault>, at: u64) -> Result<Plan, Fault>
    ensures ok { IfOk result (λ plan. planned ≡ Ok plan) }
    ensures damaged { (f place : ℕ) → IsErrOf result (Fault.Damaged f place) → (f ≡ crawl_file) × (place ≡ at)
        × ((n : ℕ) × (planned ≡ Err (IllegalFault n))) }
    ensures full { (n : ℕ) → IsErrOf result (Fault.Full n) → ⊥ }
    ensures failed { IsErrOf result Fault.Failed → ⊥ }
{
    match planned {
        Ok(plan) => Ok(plan),
        Err(FateFault::Memory) => Err(Fault::Memory),
        Err(FateFault::Illegal(_)) => Err(Fault::Damaged(CRAWL, at)),
    }
}

impl JudgedCounts {
    // Whether so many cuts of the URLs judged so many offers, and a cut of the pairs so many pairs.
    fn have(&self, urls: &Bay, pairs_bay: &Bay, cuts: u64, judged: u64, pairs: u64) -> bool
        ensures within { result ≡ true → (cuts ≤ urls.now.cuts) × (judged ≤ urls.now.last.judged)
            × (pairs ≤ pairs_bay.now.last.judged) }
        ensures known { cuts ≤ urls.now.cuts → judged ≤ urls.now.last.judged → pairs ≤ pairs_bay.now.last.judged →
            HasCountAt self.now.urls.items cuts judged → HasCount self.now.pairs.items pairs →
            AreRising self.now.pairs.items → result ≡ true }
        ensures has { result ≡ true → HasCountAt self.now.urls.items cuts judged × HasCount self.now.pairs.items pairs }
    {
        if urls.cuts() < cuts || urls.judged_len() < judged || pairs_bay.judged_len() < pairs {
            return false;
        }
        is_count_at(&self.urls, cuts, judged) && is_count(&self.pairs, pairs)
    }
}

// Whether so many offers were judged at a cut.
fn is_count_at(counts: &[u64], cut: u64, judged: u64) -> bool
    ensures known { HasCountAt counts.now cut judged → result ≡ true }
    ensures has { result ≡ true → HasCountAt counts.now cut judged }
{
    if cut == 0 {
        return judged == 0;
    }
    cut <= counts.len() as u64 && counts[(cut - 1) as usize] == judged
}

// Whether so many offers were judged at some cut, where the numbers rise.
fn is_count(counts: &[u64], judged: u64) -> bool
    ensures known { HasCount counts.now judged → AreRising counts.now → result ≡ true }
    ensures has { result ≡ true → HasCount counts.now judged }
{
    judged == 0 || counts.binary_search(&judged).is_ok()
}

// Whether there is a length for each bucket, and none is above that of its list.
fn are_within(fronts: &[u64], urls: &Bay) -> bool
    ensures many { result ≡ true → length fronts.now ≡ urls.now.settings.buckets }
    ensures within { result ≡ true → (b : ℕ) → b < urls.now.settings.buckets →
        slice_index fronts.now b ≤ durable_at urls.now b }
    ensures all { length fronts.now ≡ urls.now.settings.buckets → ((b : ℕ) → b < urls.now.settings.buckets →
        slice_index fronts.now b ≤ durable_at urls.now b) → result ≡ true }
{
    let _is_drum = urls.is_sound();
    if fronts.len() != urls.settings().buckets as usize {
        return false;
    }
    for (b, front) in fronts.iter().enumerate() {
        if *front > urls.durable(b as u32) {
            return false;
        }
    }
    true
}
