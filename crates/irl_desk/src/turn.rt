ghost use Rattle.std.specs.Prelude.{◌≡◌, [], None, IfErr, IfOk};
ghost use Rattle.irl_schedule.specs.Arrays.{AreArrays};
ghost use Rattle.irl_yard.specs.Holding.{IsSound};
ghost use Rattle.irl_desk.specs.Closing.{Closes};
ghost use Rattle.irl_desk.specs.Serving.{serving_of, IsFresh};

use crate::desk::Desk;
use crate::stepping::flush_all;
use irl_array::Array;
use irl_disk::Store;
use irl_intake::Intake;
use irl_offer::Fault;
use irl_yard::Yard;
use std::alloc::Global;

impl<S: Store> Desk<S> {
    /// A desk before an open store. Want of memory hands the store back.
    pub fn open(alloc: Global, yard: Yard<S>) -> Result<Desk<S>, Yard<S>>
        requires sound { IsSound yard.parts }
        ensures fresh { IfOk result (λ desk. IsFresh (serving_of desk)) }
        ensures yard { IfOk result (λ desk. (desk.intake.yard.store ≡ yard.store)
            × (desk.intake.yard.parts ≡ yard.parts)) }
        ensures back { IfErr result (λ back. back ≡ yard) }
    {
        let _is_sound = yard.is_sound();
        let intake = Intake::new(alloc, yard)?;
        Ok(Desk {
            intake,
            entries: Vec::new(alloc),
            last: None,
        })
    }

    /// A desk before an open store where offers wait already, and where this fault was answered last, if one was.
    pub fn resume(alloc: Global, yard: Yard<S>, arrays: Vec<Array>, last: Option<Fault>) -> Desk<S>
        requires arrays { AreArrays yard.parts.urls.settings arrays.items }
        requires sound { last ≡ None → IsSound yard.parts }
        ensures { serving_of result ≡ record {
          store = yard.store;
          parts = yard.parts;
          arrays = arrays.items;
          entries = [];
          last = last;
        } }
    {
        Desk {
            intake: Intake::resume(yard, arrays),
            entries: Vec::new(alloc),
            last,
        }
    }

    /// The last fault but want of memory that was answered, if there was one.
    pub fn last_fault(&self) -> Option<Fault>
        ensures { result ≡ self.now.last }
    {
        self.last
    }

    /// Flushes what waits, and hands the store back, whatever is answered.
    ///
    /// Every array that isn't empty is flushed, bucket 0 first. A merge that is due runs before the first of them alone.
    /// Where a fault but want of memory was answered before, nothing is flushed, and it is answered again.
    pub fn close(self) -> (Result<(), Fault>, Yard<S>)
        ensures { Closes S.told result.0 (serving_of self) result.1.store result.1.parts }
    {
        let Desk {
            mut intake,
            entries: _,
            last,
        } = self;
        if let Some(fault) = last {
            return (Err(fault), intake.into_yard());
        }
        let flushed = flush_all(&mut intake);
        (flushed, intake.into_yard())
    }
}
