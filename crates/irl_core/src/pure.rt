ghost use Rattle.std.specs.Prelude.{◌≡◌, ◌<◌, ◌≤◌, ◌+◌, [], true, false, length, nat_eq, IfOk, OnOk, OnErr};
ghost use Rattle.std.specs.Cmp.Lexicographic.{pointwise};
ghost use Rattle.irl_offer.specs.Settings.{AreValid};
ghost use Rattle.irl_model.specs.Book.{judged as judged_of};
ghost use Rattle.irl_events.specs.Events.{numbers_of};
ghost use Rattle.irl_fate.specs.Fates.{fate_of};
ghost use Rattle.irl_events.specs.Seen.{seen, HasFronts};
ghost use Rattle.irl_core.specs.Laws.{IsCore};
ghost use Rattle.irl_core.specs.Steps.{step as step_of, core_of, new_core, course, unread, url_numbers, judged_in, durable_in, array_of, pending_in};
ghost use Rattle.irl_core.specs.Steps.{may_offer as may_offer_of, may_flush as may_flush_of, may_merge as may_merge_of, may_pass, may_settle as may_settle_of};
ghost use Rattle.irl_core.specs.Steps.{with_offer, with_list, with_word, with_cut, with_event, emptied, pass_event, settle_event};
ghost use Rattle.irl_core.specs.declared.step.Step.TheVariants.{Offer as OfferStep, Flush as FlushStep, Merge as MergeStep, Pass as PassStep, Settle as SettleStep};
ghost use Rattle.irl_core.specs.declared.step.Step.TheVariants.{FlushStop as FlushStopStep, MergeStop as MergeStopStep, SettleStop as SettleStopStep};

use crate::fates::{add_event, begun, tell_sent};
use crate::lists::{empty_all, length_at, lengths, move_to, numbers, push_at, set_at, zeros};
use crate::{Reply, Step};
use irl_base::lists::empty_lists;
use irl_fate::{Event, Fate, Fates, Places, Settled, a_front_rose};
use irl_offer::{Judged, Offer, Place, Receipt, Settings, bucket_of};
use std::alloc::{AllocError, Global};
use std::marker::Model;

/// A store without a disk: arrays, the book of URLs, a crawl's passes and settles, and what is acknowledged. It is plain and
/// slow. Contracts see it as a `CoreState`.
#[derive(Drop)]
pub struct Core {
    alloc: Global,
    settings: Settings,
    arrays: Vec<Vec<Offer>>,
    lists: Vec<Vec<Offer>>,
    // The cuts, and the last of them, or zeros.
    cuts: Vec<Vec<u64>>,
    cut: Vec<u64>,
    acknowledged: Vec<u64>,
    events: Vec<(Event, Places)>,
    // What the events come to, with the number of the last pass.
    fates: Fates,
    read: u64,
}

impl Model for Core {
    ghost use Rattle.irl_core.specs.Steps.{CoreState};

    ghost Value = { CoreState };

    ghost use Rattle.std.specs.Coded.{codes, coded_ℕ};
    ghost use Rattle.std.specs.Ordering.{nat_cmp};
    ghost use Rattle.std.specs.FinMap as map;

    ghost coded = { Prim.hlevel (codes, map.code {R = nat_cmp} coded_ℕ coded_ℕ) };

    ghost use Rattle.irl_core.specs.Kept.{shown, IsKept};

    ghost view = { shown };

    ghost invariant = { IsKept };
}

impl Core {
    /// Before the first step.
    pub fn new(alloc: Global, settings: Settings) -> Result<Core, AllocError>
        requires { AreValid settings }
        ensures { IfOk result (λ core. core ≡ new_core settings) }
    {
        let buckets = settings.buckets;
        let fates = begun(alloc, settings.queues, buckets)?;
        let arrays = empty_lists(alloc, buckets as usize)?;
        let lists = empty_lists(alloc, buckets as usize)?;
        let cut = zeros(alloc, buckets)?;
        let acknowledged = zeros(alloc, buckets)?;
        Ok(Core {
            alloc,
            settings,
            arrays,
            lists,
            cuts: Vec::new(alloc),
            cut,
            acknowledged,
            events: Vec::new(alloc),
            fates,
            read: 0,
        })
    }

    /// The core that these steps leave of a new one.
    pub fn run_all(alloc: Global, settings: Settings, steps: Vec<Step>) -> Result<Core, AllocError>
        requires { AreValid settings }
        ensures { IfOk result (λ core. core ≡ core_of settings steps.items) }
    {
        let mut core = Core::new(alloc, settings)?;
        for step in steps {
            core.step(step)?;
        }
        Ok(core)
    }

    /// One step, with what it is answered. After want of memory the core is as before.
    pub fn step(&mut self, step: Step) -> Result<Reply, AllocError>
        ensures state { OnOk result (self.new ≡ (step_of self.old step).0) }
        ensures reply { IfOk result (λ reply. reply ≡ (step_of self.old step).1) }
        ensures err { OnErr result (self.new ≡ self.old) }
    {
        match step {
            Step::Offer { bucket, offer } => self.offer(bucket, offer),
            Step::Flush(bucket) => self.flush(bucket),
            Step::Merge => self.merge(),
            Step::Stop => Ok(self.stop()),
            Step::FlushStop(bucket, took) => self.stop_in_flush(bucket, took),
            Step::MergeStop(took) => self.stop_in_merge(took),
            Step::Pass(places) => self.pass(places),
            Step::Settle(done) => self.settle(done),
            Step::SettleStop(done, took) => self.stop_in_settle(done, took),
        }
    }

    /// What is judged: each offer with its verdict, in the order in which merges judged them.
    pub fn judged(&self) -> Result<Vec<Judged>, AllocError>
        ensures { IfOk result (λ judged. judged.items ≡ judged_of self.now.urls) }
    {
        irl_model::judged(
            self.alloc,
            self.settings.buckets,
            self.settings.rule,
            &self.lists,
            &self.cuts,
        )
    }

    /// What became of a URL, by its number. It takes no memory.
    pub fn fate(&self, number: u64) -> Fate
        ensures { result ≡ fate_of (course self.now) number }
    {
        self.fates.fate(number)
    }

    /// How long each bucket's list was when a flush of it was acknowledged last.
    pub fn acknowledged(&self) -> &[u64]
        ensures { result.now ≡ self.now.acknowledged }
    {
        &self.acknowledged
    }

    /// A law: this core has what every core keeps. It does nothing.
    pub fn is_core(&self)
        ensures { IsCore self.now }
    {
        let _ = &self.read;
    }

    // ---- steps
    fn offer(&mut self, bucket: u32, offer: Offer) -> Result<Reply, AllocError>
        ensures state { OnOk result (self.new ≡ (step_of self.old (OfferStep bucket offer)).0) }
        ensures reply { IfOk result (λ reply. reply ≡ (step_of self.old (OfferStep bucket offer)).1) }
        ensures err { OnErr result (self.new ≡ self.old) }
    {
        if !self.may_offer(bucket, &offer) {
            return Ok(Reply::Refused);
        }
        let number = self.durable(bucket) + self.waiting(bucket);
        self.push(bucket, offer)?;
        Ok(Reply::Receipt(Receipt { bucket, number }))
    }

    fn flush(&mut self, bucket: u32) -> Result<Reply, AllocError>
        ensures state { OnOk result (self.new ≡ (step_of self.old (FlushStep bucket)).0) }
        ensures reply { IfOk result (λ reply. reply ≡ (step_of self.old (FlushStep bucket)).1) }
        ensures err { OnErr result (self.new ≡ self.old) }
    {
        if !self.may_flush(bucket) {
            return Ok(Reply::Refused);
        }
        self.move_array(bucket)?;
        self.acknowledge(bucket);
        Ok(Reply::Taken)
    }

    fn merge(&mut self) -> Result<Reply, AllocError>
        ensures state { OnOk result (self.new ≡ (step_of self.old MergeStep).0) }
        ensures reply { IfOk result (λ reply. reply ≡ (step_of self.old MergeStep).1) }
        ensures err { OnErr result (self.new ≡ self.old) }
    {
        if !self.may_merge()? {
            return Ok(Reply::Refused);
        }
        Ok(Reply::Cut(self.add_cut()?))
    }

    fn pass(&mut self, places: Places) -> Result<Reply, AllocError>
        ensures state { OnOk result (self.new ≡ (step_of self.old (PassStep places)).0) }
        ensures reply { IfOk result (λ reply. reply ≡ (step_of self.old (PassStep places)).1) }
        ensures err { OnErr result (self.new ≡ self.old) }
    {
        if self.reads_all(places.items())? && self.add_pass(places)? {
            return Ok(Reply::Taken);
        }
        Ok(Reply::Refused)
    }

    fn settle(&mut self, done: Settled) -> Result<Reply, AllocError>
        ensures state { OnOk result (self.new ≡ (step_of self.old (SettleStep done)).0) }
        ensures reply { IfOk result (λ reply. reply ≡ (step_of self.old (SettleStep done)).1) }
        ensures err { OnErr result (self.new ≡ self.old) }
    {
        if self.add_settle(done)? {
            return Ok(Reply::Taken);
        }
        Ok(Reply::Refused)
    }

    fn stop(&mut self) -> Reply
        ensures state { self.new ≡ emptied self.old }
        ensures reply { result ≡ Reply.Stopped }
    {
        empty_all(&mut self.arrays);
        Reply::Stopped
    }

    fn stop_in_flush(&mut self, bucket: u32, took: bool) -> Result<Reply, AllocError>
        ensures state { OnOk result (self.new ≡ (step_of self.old (FlushStopStep bucket took)).0) }
        ensures reply { IfOk result (λ reply. reply ≡ (step_of self.old (FlushStopStep bucket took)).1) }
        ensures err { OnErr result (self.new ≡ self.old) }
    {
        if !self.may_flush(bucket) {
            return Ok(Reply::Refused);
        }
        if took {
            self.move_array(bucket)?;
        }
        Ok(self.stop())
    }

    fn stop_in_merge(&mut self, took: bool) -> Result<Reply, AllocError>
        ensures state { OnOk result (self.new ≡ (step_of self.old (MergeStopStep took)).0) }
        ensures reply { IfOk result (λ reply. reply ≡ (step_of self.old (MergeStopStep took)).1) }
        ensures err { OnErr result (self.new ≡ self.old) }
    {
        if !self.may_merge()? {
            return Ok(Reply::Refused);
        }
        if took {
            self.add_cut()?;
        }
        Ok(self.stop())
    }

    fn stop_in_settle(&mut self, done: Settled, took: bool) -> Result<Reply, AllocError>
        ensures state { OnOk result (self.new ≡ (step_of self.old (SettleStopStep done took)).0) }
        ensures reply { IfOk result (λ reply. reply ≡ (step_of self.old (SettleStopStep done took)).1) }
        ensures err { OnErr result (self.new ≡ self.old) }
    {
        let may = if took {
            self.add_settle(done)?
        } else {
            self.may_settle(done)?
        };
        if !may {
            return Ok(Reply::Refused);
        }
        Ok(self.stop())
    }

    // ---- what a step asks first
    fn durable(&self, bucket: u32) -> u64
        ensures value { result ≡ durable_in self.now bucket }
        ensures small { result ≤ 1099511627776 }
    {
        length_at(&self.lists, bucket)
    }

    fn waiting(&self, bucket: u32) -> u64
        ensures value { result ≡ length (array_of self.now bucket) }
        ensures small { result ≤ 8192 }
    {
        length_at(&self.arrays, bucket)
    }

    fn pending(&self, bucket: u32) -> u64
        ensures { result ≡ pending_in self.now bucket }
    {
        let judged = self.cut.get(bucket as usize).copied().unwrap_or(0);
        self.durable(bucket).saturating_sub(judged)
    }

    fn may_offer(&self, bucket: u32, offer: &Offer) -> bool
        ensures value { result ≡ may_offer_of self.now bucket offer.now }
        ensures bucket { result ≡ true → bucket < self.now.settings.buckets }
    {
        bucket == bucket_of(offer.key, self.settings.buckets)
            && self.waiting(bucket) < u64::from(self.settings.array)
    }

    fn may_flush(&self, bucket: u32) -> bool
        ensures value { result ≡ may_flush_of self.now bucket }
        ensures bucket { result ≡ true → bucket < self.now.settings.buckets }
    {
        bucket < self.settings.buckets
            && 0 < self.waiting(bucket)
            && self.pending(bucket) < u64::from(self.settings.trigger)
            && self.durable(bucket) + self.waiting(bucket) <= self.settings.cap
    }

    fn may_merge(&self) -> Result<bool, AllocError>
        ensures { IfOk result (λ may. may ≡ may_merge_of self.now) }
    {
        let lengths = lengths(self.alloc, &self.lists)?;
        Ok(a_front_rose(&self.cut, &lengths))
    }

    // Whether places give all URLs that no pass has read, in order, and no other such number.
    fn reads_all(&self, places: &[Place]) -> Result<bool, AllocError>
        ensures { IfOk result (λ all.
            all ≡ pointwise nat_eq (unread self.now (numbers_of places.now)) (unread self.now (url_numbers self.now))) }
    {
        let read = self.read;
        let uniques = irl_model::uniques(
            self.alloc,
            self.settings.buckets,
            self.settings.rule,
            &self.lists,
            &self.cuts,
        )?;
        let wanted: Vec<u64> = uniques
            .iter()
            .map(|url| url.0)
            .filter(|number| read <= *number)
            .collect(self.alloc)?;
        let given: Vec<u64> = places
            .iter()
            .map(|place| place.number)
            .filter(|number| read <= *number)
            .collect(self.alloc)?;
        Ok(given == wanted)
    }

    // A settle of these outcomes, at the lengths that the lists have.
    fn settle_event(&self, done: Settled) -> Result<Event, AllocError>
        ensures event { IfOk result (λ event. seen event ≡ settle_event self.now done) }
        ensures fronts { IfOk result (λ event. HasFronts self.now.settings.buckets event) }
    {
        let lengths = lengths(self.alloc, &self.lists)?;
        let fronts = numbers(self.alloc, &lengths)?;
        Ok(Event::Settle { fronts, done })
    }

    fn may_settle(&self, done: Settled) -> Result<bool, AllocError>
        ensures { IfOk result (λ may. may ≡ may_settle_of self.now done) }
    {
        let event = self.settle_event(done)?;
        Ok(self.fates.broken(&event, &[])?.is_none())
    }

    // ---- what it does
    fn push(&mut self, bucket: u32, offer: Offer) -> Result<(), AllocError>
        requires may { may_offer_of self.old bucket offer ≡ true }
        requires bucket { bucket < self.old.settings.buckets }
        ensures ok { OnOk result (self.new ≡ with_offer bucket offer self.old) }
        ensures err { OnErr result (self.new ≡ self.old) }
    {
        push_at(&mut self.arrays, bucket, offer)?;
        Ok(())
    }

    fn move_array(&mut self, bucket: u32) -> Result<(), AllocError>
        requires may { may_flush_of self.old bucket ≡ true }
        requires bucket { bucket < self.old.settings.buckets }
        ensures ok { OnOk result (self.new ≡ with_list bucket self.old) }
        ensures err { OnErr result (self.new ≡ self.old) }
    {
        move_to(&mut self.lists, &mut self.arrays, bucket)?;
        Ok(())
    }

    fn acknowledge(&mut self, bucket: u32)
        ensures { self.new ≡ with_word bucket self.old }
    {
        let length = length_at(&self.lists, bucket);
        set_at(&mut self.acknowledged, bucket, length);
    }

    // Judges all that is pending, and gives the number of cuts.
    fn add_cut(&mut self) -> Result<u64, AllocError>
        requires { may_merge_of self.old ≡ true }
        ensures ok { OnOk result (self.new ≡ with_cut self.old) }
        ensures value { IfOk result (λ cuts. cuts ≡ self.old.urls.dropped + length self.old.urls.cuts + 1) }
        ensures err { OnErr result (self.new ≡ self.old) }
    {
        let cut = lengths(self.alloc, &self.lists)?;
        let last = Vec::from_slice(self.alloc, &cut)?;
        self.cuts.push(cut)?;
        self.cut = last;
        Ok(self.cuts.len() as u64)
    }

    // Adds a pass, if it breaks no rule.
    fn add_pass(&mut self, places: Places) -> Result<bool, AllocError>
        requires { pointwise nat_eq (unread self.old (numbers_of places)) (unread self.old (url_numbers self.old))
            ≡ true }
        ensures value { IfOk result (λ took. took ≡ may_pass self.old places) }
        ensures ok { IfOk result (λ took. took ≡ true → self.new ≡ with_event (pass_event self.old) places self.old) }
        ensures refused { IfOk result (λ took. took ≡ false → self.new ≡ self.old) }
        ensures err { OnErr result (self.new ≡ self.old) }
    {
        let judged = self.judged()?.len() as u64;
        tell_sent(&mut self.fates, judged)?;
        let event = Event::Pass { judged };
        if !add_event(&mut self.events, &mut self.fates, event, places)? {
            return Ok(false);
        }
        self.read = judged;
        Ok(true)
    }

    // Adds a settle, if it breaks no rule.
    fn add_settle(&mut self, done: Settled) -> Result<bool, AllocError>
        ensures value { IfOk result (λ took. took ≡ may_settle_of self.old done) }
        ensures ok { IfOk result (λ took. took ≡ true
            → self.new ≡ with_event (settle_event self.old done) [] self.old) }
        ensures refused { IfOk result (λ took. took ≡ false → self.new ≡ self.old) }
        ensures err { OnErr result (self.new ≡ self.old) }
    {
        let event = self.settle_event(done)?;
        let places = Places::new(self.alloc);
        if !add_event(&mut self.events, &mut self.fates, event, places)? {
            return Ok(false);
        }
        Ok(true)
    }
}
