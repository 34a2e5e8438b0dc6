ghost use Rattle.std.specs.Prelude.{◌≡◌, [], IsErrOf};
ghost use Rattle.irl_base.specs.declared.fault.Fault.TheVariants.{Failed as FailedFault};
ghost use Rattle.irl_schedule.specs.Calls.{MergesIfDue, MergesRest, MergeKeeps, MayMakeRoom, MakesRoom, MayFlushSome, FlushesSome};
ghost use Rattle.irl_schedule.specs.Feeding.{Waits, with_waiting};
ghost use Rattle.irl_schedule.specs.Schedule.{none_more, one_more_at};
ghost use Rattle.irl_schedule.specs.Scheduling.{Schedules};
ghost use Rattle.irl_yard.specs.Holding.{IsSound, StaysSound};
ghost use Rattle.irl_yard.specs.Moments.{moment_at};

use crate::yard::Yard;
use irl_array::Array;
use irl_disk::Store;
use irl_offer::Fault;

/// The schedule over the bay of URLs.
impl<S: Store> Yard<S> {
    /// Runs the merge that is due, if one is, and answers whether it ran; then nothing is unjudged, and else nothing
    /// changed.
    pub fn merge_if_due(&mut self) -> Result<bool, Fault>
        requires sound { IsSound self.old.parts }
        ensures schedules { (waits : Waits) → Schedules result 0 none_more []
            (moment_at self.old waits) (moment_at self.new waits) }
        ensures merges { MergesIfDue result self.old.parts.urls self.new.parts.urls self.old.store self.new.store }
        ensures kept { MergeKeeps result self.old.parts.urls self.new.parts.urls
            (S.told self.old.store) (S.told self.new.store) }
        ensures rest { self.new.parts.rest ≡ self.old.parts.rest }
        ensures goes_on { StaysSound (IsErrOf result Fault.Failed) self.new.parts }
    {
        let _is_sound = self.parts.urls.is_sound();
        irl_schedule::merge_if_due(&mut self.parts.urls, &mut self.store)
    }

    /// Makes room in a bucket's array: where it is full it is flushed, and a merge runs that is due then. Where it is
    /// full no merge may be due before.
    pub fn make_room(&mut self, b: u32, array: &mut Array) -> Result<(), Fault>
        requires sound { IsSound self.old.parts }
        requires room { MayMakeRoom b array.old self.old.parts.urls }
        ensures schedules { (others : Waits) → Schedules result 0 none_more []
            (moment_at self.old (with_waiting others b array.old.items))
            (moment_at self.new (with_waiting others b array.new.items)) }
        ensures makes { MakesRoom result b array.old array.new self.old.parts.urls self.new.parts.urls
            self.old.store self.new.store }
        ensures rest { self.new.parts.rest ≡ self.old.parts.rest }
        ensures goes_on { StaysSound (IsErrOf result Fault.Failed) self.new.parts }
    {
        let _is_sound = self.parts.urls.is_sound();
        irl_schedule::make_room(&mut self.parts.urls, &mut self.store, b, array)
    }

    /// Flushes a bucket's array, whole or not, where an offer waits in it.
    pub fn flush_some(&mut self, b: u32, array: &mut Array) -> Result<(), Fault>
        requires sound { IsSound self.old.parts }
        requires some { MayFlushSome b array.old self.old.parts.urls }
        ensures schedules { (others : Waits) → Schedules result 0 (one_more_at b) []
            (moment_at self.old (with_waiting others b array.old.items))
            (moment_at self.new (with_waiting others b array.new.items)) }
        ensures flushes { FlushesSome result b array.old array.new self.old.parts.urls self.new.parts.urls
            self.old.store self.new.store }
        ensures rest { self.new.parts.rest ≡ self.old.parts.rest }
        ensures goes_on { StaysSound (IsErrOf result Fault.Failed) self.new.parts }
    {
        let _is_sound = self.parts.urls.is_sound();
        irl_schedule::flush_some(&mut self.parts.urls, &mut self.store, b, array)
    }

    /// Judges what is left: a merge runs where an offer is unjudged, and else nothing changes.
    pub fn merge_rest(&mut self) -> Result<(), Fault>
        requires sound { IsSound self.old.parts }
        ensures schedules { (waits : Waits) → Schedules result 1 none_more []
            (moment_at self.old waits) (moment_at self.new waits) }
        ensures merges { MergesRest result self.old.parts.urls self.new.parts.urls self.old.store self.new.store }
        ensures kept { MergeKeeps result self.old.parts.urls self.new.parts.urls
            (S.told self.old.store) (S.told self.new.store) }
        ensures rest { self.new.parts.rest ≡ self.old.parts.rest }
        ensures goes_on { StaysSound (IsErrOf result Fault.Failed) self.new.parts }
    {
        let _is_sound = self.parts.urls.is_sound();
        irl_schedule::merge_rest(&mut self.parts.urls, &mut self.store)
    }
}
