ghost use Rattle.std.specs.Prelude.{◌≡◌, ◌≤◌, length, IfErr, IfOk};
ghost use Rattle.std.specs.List.{AllByRecursion};
ghost use Rattle.irl_base.specs.declared.fault.Fault.TheVariants.{Memory as MemoryFault};
ghost use Rattle.irl_yard.specs.Holding.{IsSound};
ghost use Rattle.irl_lock.specs.Books.{all_parts};
ghost use Rattle.irl_lock.specs.Sharing.{Closes, IsFree, IsFreshPass, IsOf, opening_of, parts_in_all};

use crate::closing::{join, take_out};
use crate::held::Stand;
use crate::opening::{Rooms, deal, lay, rooms_for};
use crate::pass::Pass;
use crate::shared::Shared;
use irl_desk::Desk;
use irl_disk::Store;
use irl_offer::Fault;
use irl_yard::Yard;
use std::alloc::Global;

impl<S: Store> Shared<S> {
    /// Shares an open store among so many passes, 1 to 64. Each of them holds no turn. Want of memory hands the store
    /// back.
    pub fn new(
        alloc: Global,
        yard: Yard<S>,
        workers: u32,
    ) -> Result<(Shared<S>, Vec<Pass<S>>), (Fault, Yard<S>)>
        requires sound { IsSound yard.parts }
        requires workers { (1 ≤ workers) × (workers ≤ 64) }
        ensures opening { IfOk result (λ made. opening_of made.0 ≡ yard) }
        ensures passes { IfOk result (λ made. (length made.1.items ≡ workers)
            × AllByRecursion (IsFreshPass made.0) made.1.items × (parts_in_all made.1.items ≡ all_parts)) }
        ensures back { IfErr result (λ refusal. (refusal.0 ≡ Fault.Memory) × (refusal.1 ≡ yard)) }
    {
        let _is_sound = yard.is_sound();
        let settings = yard.settings();
        let mut passes = match Vec::with_capacity(alloc, workers as usize) {
            Ok(passes) => passes,
            Err(_) => return Err((Fault::Memory, yard)),
        };
        let rooms = match rooms_for(alloc, &settings) {
            Ok(rooms) => rooms,
            Err(_) => return Err((Fault::Memory, yard)),
        };
        let Rooms {
            arrays,
            spare,
            words,
            slots,
        } = rooms;
        match lay(alloc, yard, arrays, words, slots) {
            Ok((table, token)) => {
                let shared = Shared {
                    alloc,
                    table,
                    buckets: settings.buckets,
                    spare,
                };
                deal(&shared, token, &mut passes, workers);
                Ok((shared, passes))
            }
            Err(yard) => Err((Fault::Memory, yard)),
        }
    }

    /// Flushes what waits, and hands the store back, whatever is answered. It waits for nobody.
    ///
    /// It is handed all passes. Every array that isn't empty is flushed, bucket 0 first; a merge that is due runs
    /// before the first of them alone. Where the store stopped, nothing is flushed, and the fault by which it did is
    /// answered.
    pub fn close(self, passes: Vec<Pass<S>>) -> Result<Yard<S>, (Fault, Yard<S>)>
        requires own { AllByRecursion (IsOf self) passes.items }
        requires free { AllByRecursion IsFree passes.items }
        requires all { parts_in_all passes.items ≡ all_parts }
        ensures { Closes result (opening_of self) passes.items }
    {
        let alloc = self.alloc;
        let token = join(&self, passes);
        let (arrays, stand) = take_out(self, token);
        let Stand { yard, last } = stand;
        let desk = Desk::resume(alloc, yard, arrays, last);
        let (closed, yard) = desk.close();
        match closed {
            Ok(()) => Ok(yard),
            Err(fault) => Err((fault, yard)),
        }
    }
}
