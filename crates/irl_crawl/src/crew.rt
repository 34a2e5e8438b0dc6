ghost use Rattle.std.specs.Prelude.{◌≡◌, ◌++◌, ◌≤◌, ℕ, List, [], ◌∷◌, length, IfOk, OnErr, OnOk, IsErrOf};
ghost use Rattle.std.specs.List.{All};
ghost use Rattle.irl_base.specs.declared.fault.Fault.TheVariants.{Failed as FailedFault};
ghost use Rattle.irl_events.specs.Events.{Happened};
ghost use Rattle.irl_polite.specs.Schedule.{empty_of};
ghost use Rattle.irl_yard.specs.Holding.{IsSound};
ghost use Rattle.irl_yard.specs.Passing.{front_in};
ghost use Rattle.irl_yard.specs.Sending.{HasBegun};
ghost use Rattle.irl_crawl.specs.Batches.{Batches, just};
ghost use Rattle.irl_crawl.specs.Dealing.{SomeHaveTaken};
ghost use Rattle.irl_crawl.specs.Leading.{Leads};
ghost use Rattle.irl_crawl.specs.Loading.{AreNext, Loads};
ghost use Rattle.irl_crawl.specs.Refusing.{RefusesAsFound};
ghost use Rattle.irl_crawl.specs.Serving.{AreServed, KeepsNumbers};
ghost use Rattle.irl_crawl.specs.Workers.{AllGoOn, AreFor, AreIdle, AreNotedIn, AreReady, made_by, schedules};

use crate::dealing::{deal_all, hand_out, no_shares};
use crate::hosts::Hosts;
use crate::plan::Plan;
use irl_disk::Store;
use irl_offer::{Fault, Text};
use irl_pld::Suffixes;
use irl_polite::Front;
use irl_record::Fetch;
use irl_yard::Yard;
use std::alloc::{AllocError, Global};

/// The workers of a run, each with a front of its own, which serves the whole run, and the hosts that its turns named.
#[derive(Drop)]
pub struct Crew {
    pub(crate) alloc: Global,
    pub(crate) fronts: Vec<Front>,
    // The product token for which robots files are read.
    pub(crate) agent: Text,
    pub(crate) suffixes: Suffixes,
    pub(crate) hosts: Hosts,
}

impl Crew {
    /// So many workers, without hosts.
    pub fn new(
        alloc: Global,
        workers: usize,
        plan: &Plan,
        suffixes: Suffixes,
    ) -> Result<Crew, AllocError>
        ensures agent { IfOk result (λ crew. crew.agent ≡ plan.now.agent) }
        ensures suffixes { IfOk result (λ crew. crew.suffixes ≡ suffixes) }
        ensures idle { IfOk result (λ crew. AreIdle workers crew.agent (schedules crew.fronts.items)) }
        ensures empty { IfOk result (λ crew. All (λ s. s ≡ empty_of plan.now.delay plan.now.agent)
            (schedules crew.fronts.items)) }
        // Nothing is known of any host.
        ensures unknown { IfOk result (λ crew. (events : List Happened) →
            AreNotedIn crew.agent events (schedules crew.fronts.items)) }
    {
        let mut fronts = Vec::with_capacity(alloc, workers)?;
        for _ in 0..workers {
            let agent = plan.agent.copy(alloc)?;
            keep(&mut fronts, Front::new(alloc, plan.delay, agent))?;
        }
        Ok(Crew {
            alloc,
            fronts,
            agent: plan.agent.copy(alloc)?,
            suffixes,
            hosts: Hosts::new(alloc),
        })
    }

    /// Hands the first so many pages of the store's front to the workers, with the notes on their hosts that are in
    /// use.
    ///
    /// The hosts of a run are numbered as its turns first name them, and each is served by the worker with that number
    /// modulo theirs. The state stays. After a refusal the fronts may have some of the items.
    pub fn load<S: Store, F: Fetch>(
        &mut self,
        yard: &mut Yard<S>,
        fetchers: &mut [F],
        most: u32,
    ) -> Result<(), Fault>
        requires sound { IsSound yard.old.parts }
        requires some { 1 ≤ length fetchers.old }
        requires idle { AreIdle (length fetchers.old) self.old.agent (schedules self.old.fronts.items) }
        ensures leads { Leads (IsErrOf result Fault.Failed) (λ x y. y ≡ x)
            (Loads result yard.old.parts.urls.settings self.old.agent (schedules self.old.fronts.items)
            (schedules self.new.fronts.items)) yard.old.parts yard.new.parts
            (S.told yard.old.store) (S.told yard.new.store) }
        ensures batches { HasBegun yard.old.parts.rest → Batches (IsErrOf result Fault.Failed) (just 0 0) (just 0 0)
            yard.old.parts yard.new.parts (S.told yard.old.store) (S.told yard.new.store) }
        ensures refused { RefusesAsFound result yard.new.parts (S.told yard.new.store) }
        ensures next { OnOk result (AreNext (front_in yard.old.parts.rest) most (schedules self.new.fronts.items)) }
        ensures ready { OnOk result (AreReady (schedules self.new.fronts.items)) }
        ensures count { length self.new.fronts.items ≡ length self.old.fronts.items }
        // Each is loaded or as it was, so dues stay,
        ensures fronts { SomeHaveTaken (schedules self.old.fronts.items) (schedules self.new.fronts.items) }
        // and a host is served by one worker in the whole run.
        ensures served { OnOk result (AreServed self.new.hosts (length fetchers.old)
            (schedules self.new.fronts.items)) }
        ensures numbers { KeepsNumbers self.old.hosts self.new.hosts }
        ensures agents { AreFor self.new.agent (schedules self.new.fronts.items) }
        ensures agent { self.new.agent ≡ self.old.agent }
        ensures suffixes { self.new.suffixes ≡ self.old.suffixes }
        ensures urls { yard.new.parts.urls ≡ yard.old.parts.urls }
        ensures rest { yard.new.parts.rest ≡ yard.old.parts.rest }
        ensures fetchers { AllGoOn F.asked F.gives F.faults F.last F.aim fetchers.old fetchers.new }
        // No connection is made.
        ensures made { made_by F.asked fetchers.new ≡ made_by F.asked fetchers.old }
    {
        let works = yard.front(self.alloc, most)?;
        let mut shares = no_shares(self.alloc, fetchers.len())?;
        self.hosts.begin_turn();
        deal_all(
            self.alloc,
            yard,
            fetchers,
            &mut self.hosts,
            &mut shares,
            works,
        )?;
        hand_out(&mut self.fronts, shares)?;
        Ok(())
    }
}

/// Puts one more behind the others.
pub fn keep<T: Drop>(items: &mut Vec<T>, item: T) -> Result<(), AllocError>
    ensures ok { OnOk result (items.new.items ≡ items.old.items ++ item ∷ []) }
    ensures err { OnErr result (items.new.items ≡ items.old.items) }
{
    items.push(item)?;
    Ok(())
}
