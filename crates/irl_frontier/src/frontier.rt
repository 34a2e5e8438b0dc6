ghost use Rattle.std.specs.Prelude.{◌≡◌, ◌<◌, ◌≤◌, ◌++◌, ℕ, List, [], length, true, IfOk, OnOk, OnErr, Some};
ghost use Rattle.irl_offer.specs.Settings.{AreValid};
ghost use Rattle.irl_events.specs.Events.{Pass as SeenPass, after_event, has_number};
ghost use Rattle.irl_events.specs.Legal.{broken};
ghost use Rattle.irl_events.specs.Seen.{seen, HasFronts};
ghost use Rattle.irl_star.specs.Degrees.{Counts};
ghost use Rattle.irl_fate.specs.Counting.{CountFates};
ghost use Rattle.irl_fate.specs.Fates.{fate_of};
ghost use Rattle.irl_fate.specs.Fronts.{AreFirst};
ghost use Rattle.irl_fate.specs.declared.fate.FateFault.TheVariants.{Illegal as IllegalFault};
ghost use Rattle.irl_frontier.specs.Frontier.{IsFrontier, domain_of, new_frontier, one_told, places_for};
ghost use Rattle.irl_frontier.specs.Plans.{IsNoPass, IsPlanOf, Plans, PlansPass, after_plan};
ghost use Rattle.irl_frontier.specs.Tallies.{HasAllRead, HasTally};

use crate::tally::{KINDS, with_done};
use crate::{Event, Fate, FateFault, Item, Plan};
use irl_beast::Beast;
use irl_fate::Fates;
use irl_offer::Settings;
use irl_star::Degrees;
use std::alloc::{AllocError, Global};
use std::marker::Model;

/// The URLs of an open crawl: how far each has come, which wait and in which queue, and how many domains link to each domain,
/// by the judged pairs that it was told. Contracts see it as a `Frontier` of the specs.
#[derive(Drop)]
pub struct Frontier {
    settings: Settings,
    fates: Fates,
    beast: Beast,
    degrees: Degrees,
    told: u64,
    // How many URLs came to each kind of outcome.
    tally: [u64; KINDS],
}

impl Model for Frontier {
    ghost use Rattle.std.specs.Coded.{codes, coded_ℕ, coded_list};
    ghost use Rattle.std.specs.Cmp.Lexicographic.{slice_cmp};
    ghost use Rattle.std.specs.FinMap as map;
    ghost use Rattle.std.specs.Ordering.{nat_cmp};
    ghost use Rattle.irl_frontier.specs.Frontier.{Frontier};

    ghost Value = { Frontier };

    ghost coded = { Prim.hlevel (codes, map.code {R = slice_cmp nat_cmp} (coded_list coded_ℕ) coded_ℕ) };

    ghost use Rattle.irl_frontier.specs.Frontier.{shown, IsKept};

    ghost view = { shown };

    ghost invariant = { IsKept };
}

impl Frontier {
    /// Before the first event of a crawl with these settings, and before any pair was told.
    pub fn new(alloc: Global, settings: &Settings) -> Result<Frontier, AllocError>
        requires { AreValid settings.now }
        ensures { IfOk result (λ frontier. frontier ≡ new_frontier settings.now) }
    {
        Ok(Frontier {
            settings: *settings,
            fates: Fates::new(alloc, settings.queues, settings.buckets)?,
            beast: Beast::new(alloc, settings.queues)?,
            degrees: Degrees::new(alloc),
            told: 0,
            tally: [0; KINDS],
        })
    }

    /// Tells one more judged pair of domains: the domain that it leads to, where it was judged unique, and none where it wasn't.
    /// After want of memory all is as before.
    pub fn tell(&mut self, linked: Option<&[u8]>) -> Result<(), AllocError>
        ensures ok { OnOk result (self.new ≡ one_told self.old linked.entry) }
        ensures err { OnErr result (self.new ≡ self.old) }
        ensures counts { (adds : List (List ℕ)) → Counts self.old.degrees adds →
            OnOk result (Counts self.new.degrees (adds ++ domain_of linked.entry)) }
    {
        let told = self.told.checked_add(1).ok_or(AllocError)?;
        if let Some(domain) = linked {
            self.degrees.add(domain)?;
        }
        self.told = told;
        Ok(())
    }

    /// How many judged pairs were told. It takes no memory.
    pub fn told(&self) -> u64
        ensures { result ≡ self.now.told }
    {
        self.told
    }

    /// Plans an event that is no pass. It is refused where it breaks a rule, with the least that it breaks.
    pub fn plan(&self, event: &Event) -> Result<Plan, FateFault>
        requires other { IsNoPass event.now }
        requires fronts { HasFronts self.now.settings.buckets event.now }
        ensures plan { IfOk result (IsPlanOf self.now) }
        ensures ok { IfOk result (Plans self.now (seen event.now)) }
        ensures illegal { (n : ℕ) → result ≡ Err (IllegalFault n) →
            broken self.now.progress (seen event.now) [] ≡ Some n }
    {
        let tally = self.tally_after(event)?;
        let event = self.fates.plan(event, &[])?;
        Ok(Plan {
            event,
            pass: None,
            tally,
        })
    }

    /// Plans a pass that reads the next queue and then these fresh items, when so many offers are judged. Its places go by the
    /// budgets of the domains, by what was told. It is refused where it breaks a rule, with the least that it breaks.
    pub fn plan_pass(&self, judged: u64, fresh: &[Item]) -> Result<Plan, FateFault>
        ensures plan { IfOk result (IsPlanOf self.now) }
        ensures ok { IfOk result (λ plan. (adds : List (List ℕ)) → Counts self.now.degrees adds →
            PlansPass self.now judged fresh.now plan adds) }
        ensures illegal { (n : ℕ) (adds : List (List ℕ)) → result ≡ Err (IllegalFault n) →
            Counts self.now.degrees adds →
            broken self.now.progress (SeenPass judged) (places_for adds self.now fresh.now) ≡ Some n }
    {
        let budgets = self.degrees.budgets(&self.settings)?;
        let pass = self.beast.plan(fresh, &budgets)?;
        let event = self.fates.plan(&Event::Pass { judged }, pass.places())?;
        Ok(Plan {
            event,
            pass: Some(pass),
            tally: self.tally,
        })
    }

    /// Does what was planned. It takes no memory, and can't fail.
    pub fn commit(&mut self, plan: Plan)
        requires { IsPlanOf self.old plan }
        ensures { self.new ≡ after_plan self.old plan }
    {
        let Plan { event, pass, tally } = plan;
        self.fates.commit(event);
        self.tally = tally;
        if let Some(pass) = pass {
            self.beast.commit(pass);
        }
    }

    /// The fate of a number. It takes no memory.
    pub fn fate(&self, number: u64) -> Fate
        ensures { result ≡ fate_of self.now.progress number }
    {
        self.fates.fate(number)
    }

    /// The first so many numbers of what is to be fetched next, in rising order: all of them where there are fewer.
    pub fn first(&self, alloc: Global, most: u32) -> Result<Vec<u64>, AllocError>
        ensures { IfOk result (λ numbers. AreFirst self.now.progress.front most numbers.items) }
    {
        self.fates.first_of_front(alloc, most)
    }

    /// How many cuts the last Pairs event names: 0 before any, as of its other numbers. It takes no memory.
    pub fn cuts(&self) -> u64
        ensures { result ≡ self.now.progress.cuts }
    {
        self.fates.cuts()
    }

    /// How many judged offers the last Pairs event names. It takes no memory.
    pub fn sent(&self) -> u64
        ensures { result ≡ self.now.progress.sent }
    {
        self.fates.sent()
    }

    /// How many judged pairs the last Pairs event names. It takes no memory.
    pub fn pairs(&self) -> u64
        ensures { result ≡ self.now.progress.pairs }
    {
        self.fates.pairs()
    }

    /// The number of the last Pass event, 0 before any: each URL below it was read. It takes no memory.
    pub fn read(&self) -> u64
        ensures { result ≡ self.now.progress.read }
    {
        self.fates.read()
    }

    /// How many numbers are to be fetched next. It takes no memory.
    pub fn left(&self) -> usize
        ensures { result ≡ length self.now.progress.front }
    {
        self.fates.front_len()
    }

    /// How many URLs have each fate, where there are so many; offers, judged offers and pairs are left at 0. It takes no memory, and
    /// goes over no list.
    pub fn counts(&self, unique: u64) -> irl_fate::Counts
        ensures { (numbers : List ℕ) → length numbers ≡ unique → HasAllRead self.now.progress numbers →
            CountFates result self.now.progress numbers }
    {
        self.fates.stands_once();
        let read = self.fates.read_len() as u64;
        let front = self.fates.front_len() as u64;
        let last = self.fates.last_len() as u64;
        let done = self.fates.done_len() as u64;
        let queued = read
            .saturating_sub(front)
            .saturating_sub(last)
            .saturating_sub(done);
        irl_fate::Counts {
            offers: 0,
            judged: 0,
            unique,
            pairs: 0,
            fresh: unique.saturating_sub(read),
            queued,
            last,
            front,
            done,
            page: self.tally[0],
            moved: self.tally[1],
            status: self.tally[2],
            denied: self.tally[3],
            shut: self.tally[4],
            lost: self.tally[5],
            bad: self.tally[6],
            large: self.tally[7],
            coded: self.tally[8],
        }
    }

    // How many URLs came to each kind of outcome after an event.
    fn tally_after(&self, event: &Event) -> Result<[u64; KINDS], AllocError>
        ensures { IfOk result (λ tally. HasTally tally (after_event self.now.progress (seen event.now) []).done) }
    {
        match event {
            Event::Settle { done, .. } => {
                let tally = with_done(&self.tally, done.items())?;
                Ok(tally)
            }
            _ => Ok(self.tally),
        }
    }

    /// A law: each number that is to be fetched next was read by a pass, and so the crawl has begun. It does nothing.
    pub fn front_was_read(&self)
        ensures front { (n : ℕ) → has_number self.now.progress.front n ≡ true → n < self.now.progress.read }
        ensures read { self.now.progress.read ≤ self.now.progress.sent }
        ensures begun { (n : ℕ) → has_number self.now.progress.front n ≡ true → self.now.progress.begun ≡ true }
    {
        self.fates.stands_once();
    }

    /// A law: what each frontier keeps. It does nothing.
    pub fn keeps(&self)
        ensures { IsFrontier self.now }
    {
        let _ = &self.told;
    }
}
