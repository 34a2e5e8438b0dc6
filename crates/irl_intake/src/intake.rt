ghost use Rattle.std.specs.Prelude.{◌≡◌, ◌↔◌, ◌+◌, ◌≤◌, ◌<◌, ℕ, [], true, length, Err, IfErr, IfOk, OnErr};
ghost use Rattle.irl_base.specs.declared.fault.Fault.TheVariants.{Full as FullFault};
ghost use Rattle.irl_offer.specs.Settings.{AreValid};
ghost use Rattle.irl_bay.specs.Drum.{IsDrum, durable_at};
ghost use Rattle.irl_yard.specs.Holding.{IsSound};
ghost use Rattle.irl_schedule.specs.Arrays.{AreArrays, array_at, waiting_at, SomeWaiting};

use irl_array::Array;
use irl_disk::Store;
use irl_offer::{Fault, Settings};
use irl_schedule::arrays_of;
use irl_yard::Yard;
use std::alloc::Global;

/// An open store with an array in front of each bucket of URLs.
///
/// An offer waits in its bucket's array. A full array is flushed before the next offer of its bucket is pushed; a merge
/// runs before a flush where some bucket has as many unjudged offers as the trigger says, and after a flush that leaves
/// its bucket with so many. `advance` does this, step by step, before an offer is pushed and at the end of an input.
#[derive(Drop)]
pub struct Intake<S: Store> {
    pub(crate) yard: Yard<S>,
    // One for each bucket.
    pub(crate) arrays: Vec<Array>,
    ghost arrays_are: { AreArrays yard.parts.urls.settings arrays.items },
}

impl<S: Store> Intake<S> {
    /// Empty arrays in front of a store. Want of memory hands the store back.
    pub fn new(alloc: Global, yard: Yard<S>) -> Result<Intake<S>, Yard<S>>
        ensures yard { IfOk result (λ intake. intake.yard ≡ yard) }
        ensures empty { IfOk result (λ intake. (b : ℕ) → waiting_at intake.arrays.items b ≡ []) }
        ensures refused { IfErr result (λ back. back ≡ yard) }
    {
        let _is_sound = yard.is_sound();
        let settings = yard.settings();
        match arrays_of(alloc, &settings) {
            Ok(arrays) => Ok(Intake { yard, arrays }),
            Err(_) => Err(yard),
        }
    }

    /// Arrays in front of a store, in which offers wait already. It takes no memory.
    pub fn resume(yard: Yard<S>, arrays: Vec<Array>) -> Intake<S>
        requires arrays { AreArrays yard.parts.urls.settings arrays.items }
        ensures yard { result.yard ≡ yard }
        ensures arrays { result.arrays ≡ arrays }
    {
        Intake { yard, arrays }
    }

    /// Whether no call failed.
    pub fn is_sound(&self) -> bool
        ensures value { (result ≡ true) ↔ IsSound self.now.yard.parts }
        // What holds of every open store, for who sees none of its fields.
        ensures drum { IsDrum self.now.yard.parts.urls }
    {
        self.yard.is_sound()
    }

    /// The store's settings.
    pub fn settings(&self) -> Settings
        ensures value { result ≡ self.now.yard.parts.urls.settings }
        ensures valid { AreValid result }
    {
        self.yard.settings()
    }

    /// Whether a bucket's array has no room for an offer.
    pub fn is_full(&self, b: u32) -> bool
        requires { b < self.now.yard.parts.urls.settings.buckets }
        ensures { (result ≡ true) ↔ (self.now.yard.parts.urls.settings.array
            ≤ length (waiting_at self.now.arrays.items b)) }
    {
        self.arrays[b as usize].is_full()
    }

    /// The number that a bucket's next offer gets: how many it has and how many wait. `Full` where no number is left.
    pub fn next_number(&self, b: u32) -> Result<u64, Fault>
        requires { b < self.now.yard.parts.urls.settings.buckets }
        ensures number { IfOk result (λ n. n ≡ durable_at self.now.yard.parts.urls b
            + length (waiting_at self.now.arrays.items b)) }
        ensures full { OnErr result ((result ≡ Err (Fault.Full b)) × (1 ≤ length (waiting_at self.now.arrays.items b))
            × (self.now.yard.parts.urls.settings.cap < durable_at self.now.yard.parts.urls b
            + length (waiting_at self.now.arrays.items b))) }
    {
        let _is_sound = self.yard.is_sound();
        let waiting = u64::from(self.arrays[b as usize].len());
        match self.yard.durable(b).checked_add(waiting) {
            Some(number) => Ok(number),
            None => Err(Fault::Full(b)),
        }
    }

    // Whether an offer waits.
    pub(crate) fn has_waiting(&self) -> bool
        ensures { (result ≡ true) ↔ SomeWaiting self.now.yard.parts.urls.settings.buckets self.now.arrays.items }
    {
        for b in 0..self.yard.settings().buckets {
            if self.arrays[b as usize].len() > 0 {
                return true;
            }
        }
        false
    }

    /// Hands the open store back, without what waits. It takes no memory.
    pub fn into_yard(self) -> Yard<S>
        ensures { result ≡ self.yard }
    {
        let Intake { yard, arrays: _ } = self;
        yard
    }

    /// Hands the store back, without what waits. It takes no memory.
    pub fn into_store(self) -> S
        ensures { result ≡ self.yard.store }
    {
        let Intake { yard, arrays: _ } = self;
        yard.into_store()
    }
}
