ghost use Rattle.std.specs.Prelude.{◌≡◌, ◌≤◌, ◌↔◌, ℕ, List, [], true, length, Some, IfOk, OnOk, IsErrOf};
ghost use Rattle.irl_base.specs.declared.fault.Fault.TheVariants.{Failed as FailedFault};
ghost use Rattle.irl_crawl.specs.declared.plan.Ended.TheVariants.{Fault as FaultEnd};
ghost use Rattle.irl_events.specs.Events.{Happened};
ghost use Rattle.irl_events.specs.State.{State};
ghost use Rattle.irl_ledger.specs.Settling.{max_settled};
ghost use Rattle.irl_yard.specs.Holding.{HoldsState};
ghost use Rattle.irl_yard.specs.Leading.{IsEither};
ghost use Rattle.irl_yard.specs.Passing.{front_in, suffixes_in, with_pass};
ghost use Rattle.irl_yard.specs.Sending.{HasBegun};
ghost use Rattle.irl_crawl.specs.Batches.{Batches, a_desk_unless, besides, just};
ghost use Rattle.irl_crawl.specs.Crawling.{CrawlsTo, IsPlan, NoneWaits, OnlyCrawls, result_of};
ghost use Rattle.irl_crawl.specs.Leading.{IsOpen, IsSent, KeepsBegun, Leads};
ghost use Rattle.irl_crawl.specs.Refusing.{RefusesAsFound};
ghost use Rattle.irl_crawl.specs.Running.{MayRun, Passes, Runs, Steps};
ghost use Rattle.irl_crawl.specs.Turning.{MayTurn};
ghost use Rattle.irl_crawl.specs.Workers.{AllGoOn, AreIdle, AreNotedIn, given_by, schedules};

use crate::crew::Crew;
use crate::plan::{Ended, Plan};
use crate::seeds::seed;
use crate::turn::turn;
use irl_disk::Store;
use irl_fetch::Gate;
use irl_offer::Fault;
use irl_record::Fetch;
use irl_yard::Yard;
use std::alloc::{AllocError, Global};
use std::sync::Wait;
use std::thread::Threads;

/// Crawls from some seeds, with the pages that a store has in front, until no URL waits or as many are settled as the
/// plan says. Hands the store back, whatever ends it.
///
/// A turn takes the first pages of the front, which the fetchers fetch: the hosts of a run are numbered as its turns
/// first name them, and each is served by the fetcher with that number modulo theirs. What the pages name is offered
/// and flushed, then the turn's robots notes are kept and its outcomes settled; what is unjudged is judged, and pairs
/// are sent. A pass runs where the front is empty.
pub fn crawl<R, S, F, G>(
    rt: &R,
    alloc: Global,
    yard: Yard<S>,
    fetchers: &mut [F],
    gates: &mut [G],
    plan: &Plan,
) -> (Ended, Yard<S>)
where
    R: Threads + Wait + Sync,
    S: Store + Send,
    F: Fetch + Send,
    G: Gate + Send,
    requires open { IsOpen yard.parts }
    requires some { (1 ≤ length fetchers.old) × (length fetchers.old ≤ 64) × (length gates.old ≡ length fetchers.old) }
    requires plan { IsPlan plan.now }
    ensures leads { (suffixes : List ℕ) → suffixes_in yard.parts.rest ≡ Some suffixes →
        Leads (result.0 ≡ Ended.Fault Fault.Failed)
        (OnlyCrawls (given_by F.asked F.gives F.faults fetchers.old fetchers.new) plan.now.agent suffixes plan.now.seeds.items
        yard.parts.urls.settings 1 plan.now.pages plan.now.batch)
        (CrawlsTo result.0 (given_by F.asked F.gives F.faults fetchers.old fetchers.new) plan.now.agent suffixes
        plan.now.seeds.items yard.parts.urls.settings 1 plan.now.pages plan.now.batch)
        yard.parts result.1.parts (S.told yard.store) (S.told result.1.store) }
    // A refusal has its reason in what is kept in memory and told of the files, whatever these stand for.
    ensures refused { RefusesAsFound (result_of result.0) result.1.parts (S.told result.1.store) }
    // Cuts and records come in batches, but for those of the settled turns, of two desks and of one judging.
    ensures batches { Batches (result.0 ≡ Ended.Fault Fault.Failed) (besides 2 1) (besides 2 1)
        yard.parts result.1.parts (S.told yard.store) (S.told result.1.store) }
    ensures fetchers { AllGoOn F.asked F.gives F.faults F.last F.aim fetchers.old fetchers.new }
{
    let _is_sound = yard.is_sound();
    let (seeded, yard) = seed(rt, alloc, yard, &plan.seeds);
    if let Err(fault) = seeded {
        return (Ended::Fault(fault), yard);
    }
    match crew_of(alloc, &yard, fetchers.len(), plan) {
        Ok(crew) => go_on(rt, alloc, yard, fetchers, gates, plan, crew),
        Err(_) => (Ended::Fault(Fault::Memory), yard),
    }
}

// The workers of a run over a store.
fn crew_of<S: Store>(
    alloc: Global,
    yard: &Yard<S>,
    workers: usize,
    plan: &Plan,
) -> Result<Crew, AllocError>
    requires begun { HasBegun yard.now.parts.rest }
    ensures agent { IfOk result (λ crew. crew.agent ≡ plan.now.agent) }
    ensures suffixes { IfOk result (λ crew. suffixes_in yard.now.parts.rest ≡ Some crew.suffixes) }
    ensures idle { IfOk result (λ crew. AreIdle workers crew.agent (schedules crew.fronts.items)) }
    ensures unknown { IfOk result (λ crew. (events : List Happened) →
        AreNotedIn crew.agent events (schedules crew.fronts.items)) }
{
    let suffixes = yard.suffixes().unwrap().copy(alloc)?;
    Crew::new(alloc, workers, plan, suffixes)
}

// Turn after turn, with a pass where the front is empty.
fn go_on<R, S, F, G>(
    rt: &R,
    alloc: Global,
    yard: Yard<S>,
    fetchers: &mut [F],
    gates: &mut [G],
    plan: &Plan,
    crew: Crew,
) -> (Ended, Yard<S>)
where
    R: Threads + Wait + Sync,
    S: Store + Send,
    F: Fetch + Send,
    G: Gate + Send,
    requires open { IsOpen yard.parts }
    requires sent { IsSent yard.parts }
    requires suffixes { suffixes_in yard.parts.rest ≡ Some crew.suffixes }
    requires some { (1 ≤ length fetchers.old) × (length fetchers.old ≤ 64) × (length gates.old ≡ length fetchers.old) }
    requires plan { IsPlan plan.now }
    requires idle { AreIdle (length fetchers.old) crew.agent (schedules crew.fronts.items) }
    requires unknown { (events : List Happened) → AreNotedIn crew.agent events (schedules crew.fronts.items) }
    ensures leads { Leads (result.0 ≡ Ended.Fault Fault.Failed)
        (MayRun (given_by F.asked F.gives F.faults fetchers.old fetchers.new) crew.agent crew.suffixes
        yard.parts.urls.settings plan.now.pages plan.now.batch)
        (Runs result.0 (given_by F.asked F.gives F.faults fetchers.old fetchers.new) crew.agent crew.suffixes
        yard.parts.urls.settings plan.now.pages plan.now.batch)
        yard.parts result.1.parts (S.told yard.store) (S.told result.1.store) }
    ensures refused { RefusesAsFound (result_of result.0) result.1.parts (S.told result.1.store) }
    ensures batches { Batches (result.0 ≡ Ended.Fault Fault.Failed) (besides 1 0) (besides 1 0)
        yard.parts result.1.parts (S.told yard.store) (S.told result.1.store) }
    ensures fetchers { AllGoOn F.asked F.gives F.faults F.last F.aim fetchers.old fetchers.new }
{
    let _is_sound = yard.is_sound();
    let mut yard = yard;
    let mut crew = crew;
    let mut left = plan.pages;
    for _ in rt.forever() {
        if is_done(&yard) {
            return (Ended::Done, yard);
        }
        if left == 0 {
            return (Ended::Limit, yard);
        }
        let most = left.min(plan.batch);
        let (settled, back) = step(rt, alloc, yard, fetchers, gates, &mut crew, most);
        yard = back;
        match settled {
            Ok(count) => left -= count,
            Err(fault) => return (Ended::Fault(fault), yard),
        }
    }
    unreachable!()
}

// A pass where the front is empty, and else a turn. Answers how many URLs are settled.
fn step<R, S, F, G>(
    rt: &R,
    alloc: Global,
    yard: Yard<S>,
    fetchers: &mut [F],
    gates: &mut [G],
    crew: &mut Crew,
    most: u32,
) -> (Result<u32, Fault>, Yard<S>)
where
    R: Threads + Wait + Sync,
    S: Store + Send,
    F: Fetch + Send,
    G: Gate + Send,
    requires open { IsOpen yard.parts }
    requires sent { IsSent yard.parts }
    requires suffixes { suffixes_in yard.parts.rest ≡ Some crew.old.suffixes }
    requires some { (1 ≤ length fetchers.old) × (length fetchers.old ≤ 64) × (length gates.old ≡ length fetchers.old) }
    requires idle { AreIdle (length fetchers.old) crew.old.agent (schedules crew.old.fronts.items) }
    requires most { (1 ≤ most) × (most ≤ max_settled) }
    ensures leads { Leads (IsErrOf result.0 Fault.Failed)
        (MayTurn (given_by F.asked F.gives F.faults fetchers.old fetchers.new) crew.old.agent crew.old.suffixes
        yard.parts.urls.settings most (schedules crew.old.fronts.items))
        (Steps result.0 (given_by F.asked F.gives F.faults fetchers.old fetchers.new) crew.old.agent crew.old.suffixes
        yard.parts.urls.settings most (schedules crew.old.fronts.items) (schedules crew.new.fronts.items))
        yard.parts result.1.parts (S.told yard.store) (S.told result.1.store) }
    ensures batches { Batches (IsErrOf result.0 Fault.Failed) (a_desk_unless result.0) (besides 1 0)
        yard.parts result.1.parts (S.told yard.store) (S.told result.1.store) }
    ensures refused { RefusesAsFound result.0 result.1.parts (S.told result.1.store) }
    ensures keeps { OnOk result.0 (KeepsBegun yard.parts result.1.parts × IsSent result.1.parts) }
    ensures count { IfOk result.0 (λ count. count ≤ most) }
    ensures idle { OnOk result.0 (AreIdle (length fetchers.old) crew.new.agent (schedules crew.new.fronts.items)) }
    ensures crew { (crew.new.agent ≡ crew.old.agent) × (crew.new.suffixes ≡ crew.old.suffixes) }
    ensures fetchers { AllGoOn F.asked F.gives F.faults F.last F.aim fetchers.old fetchers.new }
{
    if yard.front_len() == 0 {
        let mut yard = yard;
        let passed = pass(&mut yard);
        return (passed, yard);
    }
    turn(rt, alloc, yard, fetchers, gates, crew, most)
}

// A pass, which settles no URL.
fn pass<S: Store>(yard: &mut Yard<S>) -> Result<u32, Fault>
    requires open { IsOpen yard.old.parts }
    requires sent { IsSent yard.old.parts }
    requires front { front_in yard.old.parts.rest ≡ [] }
    ensures leads { Leads (IsErrOf result Fault.Failed) (λ x y. IsEither x (with_pass yard.old.parts.urls.settings x) y)
        (Passes result yard.old.parts.urls.settings) yard.old.parts yard.new.parts
        (S.told yard.old.store) (S.told yard.new.store) }
    ensures batches { Batches (IsErrOf result Fault.Failed) (just 0 0) (just 0 0) yard.old.parts yard.new.parts
        (S.told yard.old.store) (S.told yard.new.store) }
    ensures refused { RefusesAsFound result yard.new.parts (S.told yard.new.store) }
    ensures keeps { OnOk result (KeepsBegun yard.old.parts yard.new.parts × IsSent yard.new.parts) }
    ensures none { IfOk result (λ count. count ≡ 0) }
{
    yard.pass()?;
    Ok(0)
}

// Whether no URL waits: none is fresh, in front or in a queue.
fn is_done<S: Store>(yard: &Yard<S>) -> bool
    ensures { (state : State) → HoldsState (S.told yard.now.store).images yard.now.parts state →
        ((result ≡ true) ↔ NoneWaits yard.now.parts.urls.settings state) }
{
    let counts = yard.counts();
    counts.fresh == 0 && counts.front == 0 && counts.queued == 0 && counts.last == 0
}
