ghost use Rattle.std.specs.Prelude.{◌≡◌, ◌≤◌, ◌<◌, ◌+◌, ◌*◌, ◌++◌, ◌∷◌, [], ℕ, List, length, min, nat_eq, if◌then◌else◌, IfOk, OnOk, OnErr, None, Some, true};
ghost use Rattle.irl_offer.specs.Buckets.{IsBucketCount};
ghost use Rattle.irl_events.specs.Events.{Happened, before_all, after_event, has_number, progress, Pass as SeenPass, Settle as SeenSettle};
ghost use Rattle.irl_events.specs.Legal.{AreLegal, broken, begins_once, pairs_rise, passes_on, is_noted, settles};
ghost use Rattle.irl_base.specs.Lists.{list_at};
ghost use Rattle.irl_events.specs.Queues.{last_of, round_ended};
ghost use Rattle.irl_fate.specs.Fates.{fate_of};
ghost use Rattle.irl_fate.specs.Fronts.{AreFirst};
ghost use Rattle.irl_fate.specs.Passing.{read_by, ended};
ghost use Rattle.irl_fate.specs.Plans.{IsPlanOf, after_plan, IsReading};
ghost use Rattle.irl_events.specs.Seen.{seen, HasFronts};
ghost use Rattle.irl_fate.specs.Standing.{one_if, is_placed, read_count, stands};
ghost use Rattle.irl_fate.specs.declared.fate.Fate.TheVariants.{Fresh as FreshFate, Queue as QueueFate};
ghost use Rattle.irl_fate.specs.declared.fate.FateFault.TheVariants.{Illegal as IllegalFault};

use crate::lists::{LAST, LISTS, delivered_copy, fresh_of};
use crate::numbers::{begin_round, front_of, place_all, settle_all};
use crate::order::{first_from, first_left, sorted};
use crate::plan::{Act, Reading};
use crate::room::{extend, grow, room};
use crate::rules::{are_within, has_lengths, numbers_differ, reads_queue, settles_front};
use crate::table::{enter, fate_at};
use crate::{Fate, FateFault, Plan};
use irl_base::lists::{empty_lists, replace_at, take_out};
use irl_events::Event;
use irl_offer::{Outcome, Place};
use std::alloc::{AllocError, Global};
use std::marker::Model;

/// The fate of each URL of a crawl, by its events so far. Contracts see it as the `Progress` that these events make.
#[derive(Drop)]
pub struct Fates {
    alloc: Global,
    begun: bool,
    cuts: u64,
    sent: u64,
    pairs: u64,
    read: u64,
    fronts: Vec<u64>,
    // The fate of each number that was read, by number. One that isn't here is fresh.
    fates: Vec<(u64, Fate)>,
    // What the last pass put into the front, in the order of reading, and how many of these are not done yet.
    front: Vec<u64>,
    left: usize,
    // The same in rising order, and how many of it are done, before the first that isn't.
    order: Vec<u64>,
    next: usize,
    // The queues, from 1, of which there may be 64, and the last list behind them.
    lists: Vec<Vec<u64>>,
    queues: u32,
    passes: u32,
    // What is done, with room for what is left of the front.
    done: Vec<(u64, Outcome)>,
}

impl Model for Fates {
    ghost use Rattle.irl_events.specs.Events.{Progress};

    ghost Value = { Progress };

    ghost use Rattle.irl_fate.specs.Kept.{shown, IsKept};

    ghost view = { shown };

    ghost invariant = { IsKept };
}

impl Fates {
    /// Before the first event of a crawl with so many queues, over so many buckets.
    pub fn new(alloc: Global, queues: u32, buckets: u32) -> Result<Fates, AllocError>
        requires least { 1 ≤ queues }
        requires most { queues ≤ 64 }
        requires buckets { IsBucketCount buckets }
        ensures { IfOk result (λ fates. fates ≡ before_all queues buckets) }
    {
        let fronts = vec![in alloc; 0; buckets as usize]?;
        let lists = empty_lists(alloc, LISTS)?;
        Ok(Fates {
            alloc,
            begun: false,
            cuts: 0,
            sent: 0,
            pairs: 0,
            read: 0,
            fronts,
            fates: Vec::new(alloc),
            front: Vec::new(alloc),
            left: 0,
            order: Vec::new(alloc),
            next: 0,
            lists,
            queues,
            passes: 0,
            done: Vec::new(alloc),
        })
    }

    /// One more event, with the places that it gives; beside an event that is no pass they are not looked at. It is refused
    /// where it breaks a rule, with the least that it breaks. After a refusal all is as before.
    pub fn apply(&mut self, event: &Event, places: &[Place]) -> Result<(), FateFault>
        requires { HasFronts (length self.old.fronts) event.now }
        ensures ok { OnOk result (self.new ≡ after_event self.old (seen event.now) places.now) }
        ensures legal { OnOk result (broken self.old (seen event.now) places.now ≡ None) }
        ensures illegal { (n : ℕ) → result ≡ Err (IllegalFault n) →
            broken self.old (seen event.now) places.now ≡ Some n }
        ensures err { OnErr result (self.new ≡ self.old) }
        ensures events { OnOk result ((queues buckets : ℕ) (events : List Happened) →
            self.old ≡ progress queues buckets events →
            self.new ≡ progress queues buckets (events ++ (seen event.now, places.now) ∷ [])) }
        ensures lawful { OnOk result ((queues buckets : ℕ) (events : List Happened) →
            self.old ≡ progress queues buckets events → AreLegal queues buckets events →
            AreLegal queues buckets (events ++ (seen event.now, places.now) ∷ [])) }
        ensures fronts { length self.new.fronts ≡ length self.old.fronts }
    {
        let plan = self.plan(event, places)?;
        self.commit(plan);
        Ok(())
    }

    /// Plans one more event, with the places that it gives: its rules are kept, and all the memory that it takes is in the plan.
    /// It is refused as by `apply`.
    pub fn plan(&self, event: &Event, places: &[Place]) -> Result<Plan, FateFault>
        requires { HasFronts (length self.now.fronts) event.now }
        ensures plan { IfOk result (λ plan. IsPlanOf self.now plan) }
        ensures after { IfOk result (λ plan.
            after_plan self.now plan ≡ after_event self.now (seen event.now) places.now) }
        ensures legal { OnOk result (broken self.now (seen event.now) places.now ≡ None) }
        ensures illegal { (n : ℕ) → result ≡ Err (IllegalFault n) →
            broken self.now (seen event.now) places.now ≡ Some n }
    {
        if let Some(rule) = self.broken(event, places)? {
            return Err(FateFault::Illegal(rule));
        }
        Ok(self.planned(event, places)?)
    }

    /// Does what was planned. It takes no memory, and can't fail.
    pub fn commit(&mut self, plan: Plan)
        requires { IsPlanOf self.old plan }
        ensures { self.new ≡ after_plan self.old plan }
    {
        match plan.act {
            Act::Begin => self.begun = true,
            Act::Pairs {
                cuts,
                judged,
                pairs,
            } => {
                self.begun = true;
                self.cuts = cuts;
                self.sent = judged;
                self.pairs = pairs;
            }
            Act::Pass(reading) => {
                self.read_places(reading);
                self.end_pass();
            }
            Act::Settle { fronts, done } => self.settle(fronts, done),
        }
    }

    /// The least rule that an event with its places breaks, if it breaks one: whether `apply` would take it. It changes
    /// nothing. Beside an event that is no pass the places are not looked at. The one error is that memory ran out.
    pub fn broken(&self, event: &Event, places: &[Place]) -> Result<Option<u8>, AllocError>
        requires { HasFronts (length self.now.fronts) event.now }
        ensures { IfOk result (λ rule. rule ≡ broken self.now (seen event.now) places.now) }
    {
        if !self.keeps_begin(event) {
            return Ok(Some(1));
        }
        if !self.keeps_pairs(event) {
            return Ok(Some(2));
        }
        if !self.keeps_pass(event, places) {
            return Ok(Some(3));
        }
        if !keeps_robots(event) {
            return Ok(Some(4));
        }
        if !self.keeps_settle(event)? {
            return Ok(Some(5));
        }
        Ok(None)
    }

    /// The fate of a number. It takes no memory.
    pub fn fate(&self, number: u64) -> Fate
        ensures { result ≡ fate_of self.now number }
    {
        fate_at(&self.fates, number)
    }

    /// The first so many numbers of the front, in rising order: all of them where there are fewer. What is done isn't gone over
    /// again where it lies before all that is left.
    pub fn first_of_front(&self, alloc: Global, most: u32) -> Result<Vec<u64>, AllocError>
        ensures { IfOk result (λ numbers. AreFirst self.now.front most numbers.items) }
    {
        let first = first_from(alloc, &self.fates, &self.order, self.next, most as usize)?;
        Ok(first)
    }

    /// A law: each number that was read stands in one list, once, and no other stands anywhere; one that waits in a queue
    /// waits in one that is in use and that this round has not read yet, and all other queues are empty; and what else the
    /// events that were applied keep. It does nothing.
    pub fn stands_once(&self)
        ensures once { (n : ℕ) → stands self.now n ≡ one_if (is_placed (fate_of self.now n)) }
        ensures fresh { (n : ℕ) → self.now.read ≤ n → fate_of self.now n ≡ FreshFate }
        ensures sent { self.now.read ≤ self.now.sent }
        ensures begun { (n : ℕ) → has_number self.now.front n ≡ true → self.now.begun ≡ true }
        ensures spent { (k : ℕ) → k < self.now.waiting.passes → list_at self.now.waiting.lists k ≡ [] }
        ensures unused { (k : ℕ) → self.now.waiting.queues ≤ k → k < 64 → list_at self.now.waiting.lists k ≡ [] }
        ensures queue { (n i : ℕ) → fate_of self.now n ≡ QueueFate i →
            (self.now.waiting.passes < i) × (i ≤ self.now.waiting.queues) }
        ensures lists { length self.now.waiting.lists ≡ 65 }
        ensures round { self.now.waiting.passes < self.now.waiting.queues }
        ensures most { self.now.waiting.queues ≤ 64 }
    {
        let _ = &self.begun;
    }

    /// How many numbers were read: each stands in one list. It takes no memory.
    pub fn read_len(&self) -> usize
        ensures { result ≡ read_count self.now }
    {
        self.fates.len()
    }

    /// How many numbers are in the front. It takes no memory.
    pub fn front_len(&self) -> usize
        ensures { result ≡ length self.now.front }
    {
        self.left
    }

    /// How many numbers are in the last list. It takes no memory.
    pub fn last_len(&self) -> usize
        ensures { result ≡ length (last_of self.now.waiting) }
    {
        self.lists[LAST].len()
    }

    /// How many numbers are done. It takes no memory.
    pub fn done_len(&self) -> usize
        ensures { result ≡ length self.now.done }
    {
        self.done.len()
    }

    /// How many cuts the last Pairs event names: 0 before any, as of its other numbers. It takes no memory.
    pub fn cuts(&self) -> u64
        ensures { result ≡ self.now.cuts }
    {
        self.cuts
    }

    /// How many judged offers the last Pairs event names. It takes no memory.
    pub fn sent(&self) -> u64
        ensures { result ≡ self.now.sent }
    {
        self.sent
    }

    /// How many judged pairs the last Pairs event names. It takes no memory.
    pub fn pairs(&self) -> u64
        ensures { result ≡ self.now.pairs }
    {
        self.pairs
    }

    /// The number of the last Pass event, 0 before any: each URL below it was read. It takes no memory.
    pub fn read(&self) -> u64
        ensures { result ≡ self.now.read }
    {
        self.read
    }

    fn keeps_begin(&self, event: &Event) -> bool
        ensures { result ≡ begins_once self.now (seen event.now) }
    {
        match event {
            Event::Begin(_) => !self.begun,
            _ => self.begun,
        }
    }

    fn keeps_pairs(&self, event: &Event) -> bool
        ensures { result ≡ pairs_rise self.now (seen event.now) }
    {
        match event {
            Event::Pairs {
                cuts,
                judged,
                pairs,
            } => self.cuts <= *cuts && self.sent <= *judged && self.pairs <= *pairs,
            _ => true,
        }
    }

    fn keeps_pass(&self, event: &Event, places: &[Place]) -> bool
        ensures { result ≡ passes_on self.now (seen event.now) places.now }
    {
        match event {
            Event::Pass { judged } => {
                *judged == self.sent
                    && self.left == 0
                    && reads_queue(
                        &self.lists[self.passes as usize],
                        self.read,
                        *judged,
                        places,
                    )
                    && are_within(self.passes + 2, self.queues, places)
            }
            _ => true,
        }
    }

    fn keeps_settle(&self, event: &Event) -> Result<bool, AllocError>
        requires { HasFronts (length self.now.fronts) event.now }
        ensures { IfOk result (λ kept. kept ≡ settles self.now (seen event.now)) }
    {
        match event {
            Event::Settle { fronts, done } => {
                let differ = numbers_differ(self.alloc, done.items())?;
                Ok(settles_front(
                    &self.fates,
                    &self.fronts,
                    fronts.items(),
                    done.items(),
                    differ,
                ))
            }
            _ => Ok(true),
        }
    }

    // The plan of an event that breaks no rule.
    fn planned(&self, event: &Event, places: &[Place]) -> Result<Plan, AllocError>
        requires fronts { HasFronts (length self.now.fronts) event.now }
        requires legal { broken self.now (seen event.now) places.now ≡ None }
        ensures plan { IfOk result (λ plan. IsPlanOf self.now plan) }
        ensures after { IfOk result (λ plan.
            after_plan self.now plan ≡ after_event self.now (seen event.now) places.now) }
    {
        let act = match event {
            Event::Begin(_) | Event::Robots(_) => Act::Begin,
            Event::Pairs {
                cuts,
                judged,
                pairs,
            } => Act::Pairs {
                cuts: *cuts,
                judged: *judged,
                pairs: *pairs,
            },
            Event::Pass { judged } => Act::Pass(self.reading(*judged, places)?),
            Event::Settle { fronts, done } => Act::Settle {
                fronts: fronts.items().to_vec(self.alloc)?,
                done: done.items().to_vec(self.alloc)?,
            },
        };
        Ok(Plan { act })
    }

    // What a pass is to do.
    fn reading(&self, judged: u64, places: &[Place]) -> Result<Reading, AllocError>
        requires { passes_on self.now (SeenPass judged) places.now ≡ true }
        ensures reading { IfOk result (IsReading self.now) }
        ensures judged { IfOk result (λ reading. reading.judged ≡ judged) }
        ensures places { IfOk result (λ reading. reading.places.items ≡ places.now) }
    {
        let alloc = self.alloc;
        let at = self.passes as usize;
        let front = front_of(alloc, places)?;
        let fresh = fresh_of(&self.lists, at, places).len();
        Ok(Reading {
            judged,
            places: places.to_vec(alloc)?,
            lists: delivered_copy(alloc, &self.lists, at, places)?,
            fates: room(alloc, self.fates.len(), fresh)?,
            done: room(alloc, self.done.len(), front.len())?,
            order: sorted(alloc, &front)?,
            front,
        })
    }

    // Reads the next queue and the fresh numbers below one, and puts them into their places.
    fn read_places(&mut self, reading: Reading)
        requires { IsReading self.old reading }
        ensures read { self.new ≡ read_by self.old reading.judged reading.places.items }
        ensures spent { list_at self.new.waiting.lists self.new.waiting.passes ≡ [] }
    {
        let Reading {
            judged,
            places,
            front,
            order,
            lists,
            fates,
            done,
        } = reading;
        let left = front.len();
        let fresh = fresh_of(&self.lists, self.passes as usize, &places);
        grow(&mut self.fates, fates, fresh.len());
        grow(&mut self.done, done, left);
        enter(&mut self.fates, fresh);
        place_all(&mut self.fates, &places);
        self.left = left;
        self.front = front;
        self.order = order;
        self.next = 0;
        self.lists = lists;
        self.begun = true;
        self.read = judged;
    }

    // A pass more, and the end of the round where it was the last one.
    fn end_pass(&mut self)
        requires { list_at self.old.waiting.lists self.old.waiting.passes ≡ [] }
        ensures { self.new ≡ ended self.old }
    {
        let passes = self.passes + 1;
        if passes < self.queues {
            self.passes = passes;
            return;
        }
        let last = take_out(self.alloc, &mut self.lists, LAST);
        begin_round(&mut self.fates, &last);
        self.queues = queues_after(self.queues, last.len());
        replace_at(&mut self.lists, 0, last);
        self.passes = 0;
    }

    // Puts numbers of the front among those that are done.
    fn settle(&mut self, fronts: Vec<u64>, done: Vec<(u64, Outcome)>)
        requires { settles self.old (SeenSettle fronts.items done.items) ≡ true }
        ensures { self.new ≡ after_event self.old (SeenSettle fronts.items done.items) [] }
    {
        settle_all(&mut self.fates, &done);
        self.left -= done.len();
        extend(&mut self.done, &done);
        self.next = first_left(&self.fates, &self.order, self.next);
        self.fronts = fronts;
        self.begun = true;
    }
}

// How many queues there are after a round that left so many numbers in the last list.
fn queues_after(queues: u32, left: usize) -> u32
    requires { queues ≤ 64 }
    ensures value { result ≡ (if nat_eq left 0 then queues else min (2 * queues) 64) }
    ensures least { queues ≤ result }
    ensures most { result ≤ 64 }
{
    if left == 0 {
        return queues;
    }
    (2 * queues).min(64)
}

// Whether a note of an event has a host and a text of lengths that are kept.
fn keeps_robots(event: &Event) -> bool
    ensures { result ≡ is_noted (seen event.now) }
{
    match event {
        Event::Robots(note) => has_lengths(note),
        _ => true,
    }
}
