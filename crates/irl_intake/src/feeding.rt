ghost use Rattle.std.specs.Prelude.{◌≡◌, ◌≤◌, ◌<◌, ◌∷◌, ℕ, [], length, None, Ok, Some};
ghost use Rattle.std.specs.Prelude.{IfOk, IfSome, OnErr, OnOk, IsErrOf};
ghost use Rattle.irl_base.specs.declared.fault.Fault.TheVariants.{Failed as FailedFault, Full as FullFault};
ghost use Rattle.irl_offer.specs.Buckets.{bucket_of as bucket_of_key};
ghost use Rattle.irl_model.specs.Book.{Book};
ghost use Rattle.irl_schedule.specs.Feeding.{Keeps, Stays, Feeds};
ghost use Rattle.irl_schedule.specs.Schedule.{IsDue, none_more, one_more};
ghost use Rattle.irl_schedule.specs.Scheduling.{Schedules};
ghost use Rattle.irl_yard.specs.Holding.{IsSound, StaysSound};
ghost use Rattle.irl_intake.specs.Advancing.{moment_of, Advances, FlushesWaiting, StopsAt, early_at, uneven_at};
ghost use Rattle.irl_schedule.specs.Arrays.{waiting_at, SomeWaiting};
ghost use Rattle.irl_intake.specs.declared.next.Next.TheVariants.{Ready as ReadyNext};

use crate::intake::Intake;
use crate::next::Next;
use irl_disk::Store;
use irl_offer::{Fault, Offer, bucket_of};

impl<S: Store> Intake<S> {
    /// Puts an offer into its bucket's array. It takes no memory.
    pub fn push(&mut self, offer: Offer)
        requires room { length (waiting_at self.old.arrays.items
            (bucket_of_key self.old.yard.parts.urls.settings.buckets offer.key))
            < self.old.yard.parts.urls.settings.array }
        ensures same { self.new.yard ≡ self.old.yard }
        ensures keeps { (book : Book) → Keeps self.old.yard.parts.urls.settings
            book (waiting_at self.old.arrays.items) book (waiting_at self.new.arrays.items) (offer ∷ []) }
        ensures fed { Feeds 0 none_more (offer ∷ []) (moment_of self.old) (moment_of self.new) }
        ensures stays { Stays (moment_of self.old) (moment_of self.new) }
    {
        let _is_sound = self.yard.is_sound();
        let b = bucket_of(offer.key, self.yard.settings().buckets);
        self.arrays[b as usize].push(offer);
    }

    /// The next step before an offer of this bucket is pushed, or, with no bucket, at the end of an input. After
    /// `Merged` the same is asked again.
    ///
    /// Before an offer nothing is done where its array has room. Where it is full, a merge that is due runs alone; else
    /// the array is flushed, and a merge runs that is due then. At the end, where an offer waits, a merge that is due
    /// runs alone; else every array that isn't empty is flushed, bucket 0 first, and then a merge runs where an offer
    /// is unjudged.
    pub fn advance(&mut self, bucket: Option<u32>) -> Result<Next, Fault>
        requires sound { IsSound self.old.yard.parts }
        requires bucket { IfSome bucket (λ b. b < self.old.yard.parts.urls.settings.buckets) }
        ensures schedules { Schedules result (early_at bucket result) (uneven_at bucket result) []
            (moment_of self.old) (moment_of self.new) }
        ensures advances { Advances result bucket (moment_of self.old) (moment_of self.new) }
        // With room in the array nothing changes.
        ensures idle { IfSome bucket (λ b. length (waiting_at self.old.arrays.items b)
            < self.old.yard.parts.urls.settings.array → (result ≡ Ok Next.Ready)
            × (self.new.yard ≡ self.old.yard) × (self.new.arrays ≡ self.old.arrays)) }
        ensures rest { self.new.yard.parts.rest ≡ self.old.yard.parts.rest }
        ensures goes_on { StaysSound (IsErrOf result Fault.Failed) self.new.yard.parts }
    {
        match bucket {
            Some(b) => self.before_offer(b),
            None => self.at_end(),
        }
    }

    /// The next step of a flush of all that waits, with no merge at its end. After `Merged` the same is asked again.
    ///
    /// Where an offer waits, a merge that is due runs alone; else every array that isn't empty is flushed, bucket 0
    /// first.
    pub fn flush_waiting(&mut self) -> Result<Next, Fault>
        requires sound { IsSound self.old.yard.parts }
        ensures schedules { Schedules result 0 (uneven_at None result) [] (moment_of self.old) (moment_of self.new) }
        ensures flushes { FlushesWaiting result (moment_of self.old) (moment_of self.new) }
        ensures rest { self.new.yard.parts.rest ≡ self.old.yard.parts.rest }
        ensures goes_on { StaysSound (IsErrOf result Fault.Failed) self.new.yard.parts }
    {
        let _is_sound = self.yard.is_sound();
        if !self.has_waiting() {
            return Ok(Next::Ready);
        }
        if self.yard.merge_if_due()? {
            return Ok(Next::Merged);
        }
        self.flush_all()?;
        Ok(Next::Ready)
    }

    // The next step before an offer of a bucket.
    fn before_offer(&mut self, b: u32) -> Result<Next, Fault>
        requires sound { IsSound self.old.yard.parts }
        requires bucket { b < self.old.yard.parts.urls.settings.buckets }
        ensures schedules { Schedules result 0 none_more [] (moment_of self.old) (moment_of self.new) }
        ensures advances { Advances result (Some b) (moment_of self.old) (moment_of self.new) }
        ensures idle { length (waiting_at self.old.arrays.items b) < self.old.yard.parts.urls.settings.array →
            (result ≡ Ok Next.Ready) × (self.new.yard ≡ self.old.yard) × (self.new.arrays ≡ self.old.arrays) }
        ensures rest { self.new.yard.parts.rest ≡ self.old.yard.parts.rest }
        ensures goes_on { StaysSound (IsErrOf result Fault.Failed) self.new.yard.parts }
    {
        let _is_sound = self.yard.is_sound();
        if !self.is_full(b) {
            return Ok(Next::Ready);
        }
        if self.yard.merge_if_due()? {
            return Ok(Next::Merged);
        }
        self.yard.make_room(b, &mut self.arrays[b as usize])?;
        Ok(Next::Ready)
    }

    // The next step at the end of an input.
    fn at_end(&mut self) -> Result<Next, Fault>
        requires sound { IsSound self.old.yard.parts }
        ensures schedules { Schedules result (early_at None result) (uneven_at None result) []
            (moment_of self.old) (moment_of self.new) }
        ensures advances { Advances result None (moment_of self.old) (moment_of self.new) }
        ensures rest { self.new.yard.parts.rest ≡ self.old.yard.parts.rest }
        ensures goes_on { StaysSound (IsErrOf result Fault.Failed) self.new.yard.parts }
    {
        let _is_sound = self.yard.is_sound();
        if !self.has_waiting() {
            return self.finish();
        }
        if self.yard.merge_if_due()? {
            return Ok(Next::Merged);
        }
        self.finish()
    }

    // The last step of all, where no merge is due before a flush.
    fn finish(&mut self) -> Result<Next, Fault>
        requires sound { IsSound self.old.yard.parts }
        requires ready { SomeWaiting self.old.yard.parts.urls.settings.buckets self.old.arrays.items →
            IsDue self.old.yard.parts.urls → ⊥ }
        ensures schedules { Schedules result 1 one_more [] (moment_of self.old) (moment_of self.new) }
        ensures advances { Advances result None (moment_of self.old) (moment_of self.new) }
        ensures ready { IfOk result (λ next. next ≡ Next.Ready) }
        ensures rest { self.new.yard.parts.rest ≡ self.old.yard.parts.rest }
        ensures goes_on { StaysSound (IsErrOf result Fault.Failed) self.new.yard.parts }
    {
        self.flush_all()?;
        self.yard.merge_rest()?;
        Ok(Next::Ready)
    }

    // Flushes every array that isn't empty, bucket 0 first.
    fn flush_all(&mut self) -> Result<(), Fault>
        requires sound { IsSound self.old.yard.parts }
        requires ready { SomeWaiting self.old.yard.parts.urls.settings.buckets self.old.arrays.items →
            IsDue self.old.yard.parts.urls → ⊥ }
        ensures schedules { Schedules result 0 one_more [] (moment_of self.old) (moment_of self.new) }
        ensures last { self.new.yard.parts.urls.last ≡ self.old.yard.parts.urls.last }
        ensures cuts { self.new.yard.parts.urls.cuts ≡ self.old.yard.parts.urls.cuts }
        ensures emptied { OnOk result ((b : ℕ) → waiting_at self.new.arrays.items b ≡ []) }
        ensures ordered { OnErr result ((n : ℕ) × StopsAt n (moment_of self.old) (moment_of self.new)
            × ((m : ℕ) → IsErrOf result (Fault.Full m) → m ≡ n)) }
        ensures rest { self.new.yard.parts.rest ≡ self.old.yard.parts.rest }
        ensures goes_on { StaysSound (IsErrOf result Fault.Failed) self.new.yard.parts }
    {
        let _is_sound = self.yard.is_sound();
        for b in 0..self.yard.settings().buckets {
            self.yard.flush_some(b, &mut self.arrays[b as usize])?;
        }
        Ok(())
    }
}
