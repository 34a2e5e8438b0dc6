ghost use Rattle.std.specs.Prelude.{◌≡◌, ◌++◌, ◌≤◌, [], length, map, vec_capacity, IfOk, IsSome, OnOk, Some};
ghost use Rattle.std.specs.List.{All, AllByRecursion, flat_map};
ghost use Rattle.irl_key.specs.Links.{IsCanonicalText};
ghost use Rattle.irl_offer.specs.Offering.{IsTakenBy};
ghost use Rattle.irl_fetch.specs.Telling.{TakesPages};
ghost use Rattle.irl_lock.specs.Sharing.{IsFree, IsFreshPass, IsOf, entries_in, opening_of, parts_in_all};
ghost use Rattle.irl_crawl.specs.Workers.{AllGoOn, AreFor, AreReady, IsMomentBy, given_by, schedules};
ghost use Rattle.irl_crawl.specs.Working.{AreByWorker, Joins, WorkAll};

use crate::crew::{Crew, keep};
use irl_disk::Store;
use irl_fetch::{Gate, WorkLog};
use irl_lock::{Pass, Seated, Shared};
use irl_offer::Fault;
use irl_polite::Front;
use irl_record::Fetch;
use irl_workers::{Worker, work_side_by_side};
use std::alloc::{AllocError, Global};
use std::mem;
use std::sync::Wait;
use std::thread::Threads;

/// Each worker does what its front says, all side by side over one store, with a pass each; what they did stands worker
/// by worker. The passes come back, whatever is answered.
pub fn work_all<R, S, F, G>(
    rt: &R,
    alloc: Global,
    shared: &Shared<S>,
    passes: Vec<Pass<S>>,
    fetchers: &mut [F],
    gates: &mut [G],
    crew: &mut Crew,
) -> (Result<WorkLog, Fault>, Vec<Pass<S>>)
where
    R: Threads + Wait + Sync,
    S: Store + Send,
    F: Fetch + Send,
    G: Gate + Send,
    requires fresh { AllByRecursion (IsFreshPass shared.now) passes.items }
    requires takes { TakesPages (IsTakenBy IsCanonicalText (opening_of shared.now).parts.urls.settings.kind) }
    requires passes { length passes.items ≡ length fetchers.old }
    requires fronts { length crew.old.fronts.items ≡ length fetchers.old }
    requires gates { length gates.old ≡ length fetchers.old }
    requires agents { AreFor crew.old.agent (schedules crew.old.fronts.items) }
    requires ready { AreReady (schedules crew.old.fronts.items) }
    ensures works { WorkAll result.0 (given_by F.asked F.gives F.faults fetchers.old fetchers.new) crew.old.agent
        crew.old.suffixes (schedules crew.old.fronts.items) (schedules crew.new.fronts.items)
        (flat_map entries_in result.1.items) (map (λ pass. pass.last) result.1.items) }
    ensures order { IfOk result.0 (λ log. AreByWorker (schedules crew.old.fronts.items) log.done.items) }
    ensures moments { IfOk result.0 (λ log.
        All (λ note. IsMomentBy F.last fetchers.old fetchers.new note.when) log.notes.items) }
    ensures own { AllByRecursion (IsOf shared.now) result.1.items }
    ensures free { AllByRecursion IsFree result.1.items }
    ensures parts { parts_in_all result.1.items ≡ parts_in_all passes.items }
    ensures fetchers { AllGoOn F.asked F.gives F.faults F.last F.aim fetchers.old fetchers.new }
    ensures crew { crew.new ≡ record crew.old { fronts = crew.new.fronts } }
{
    let room = match room_for(alloc, passes.len()) {
        Ok(room) => room,
        Err(_) => return (Err(Fault::Memory), passes),
    };
    let Room {
        mut workers,
        mut results,
        passes: mut back,
        mut fronts,
    } = room;
    seat_all(
        shared,
        passes,
        mem::replace(&mut crew.fronts, Vec::new(alloc)),
        &mut workers,
    );
    work_side_by_side(rt, alloc, &crew.suffixes, fetchers, gates, &mut workers);
    take_back(workers, &mut results, &mut back, &mut fronts);
    crew.fronts = fronts;
    (join_all(alloc, results), back)
}

// Room for workers, and for what comes back of them, so that nothing of it is lost.
struct Room<'a, S: Store> {
    workers: Vec<Worker<Seated<'a, S>>>,
    results: Vec<Result<WorkLog, Fault>>,
    passes: Vec<Pass<S>>,
    fronts: Vec<Front>,
}

// That for so many.
fn room_for<'a, S: Store>(alloc: Global, count: usize) -> Result<Room<'a, S>, AllocError>
    ensures workers { IfOk result (λ room. (room.workers.items ≡ []) × (count ≤ vec_capacity room.workers)) }
    ensures results { IfOk result (λ room. (room.results.items ≡ []) × (count ≤ vec_capacity room.results)) }
    ensures passes { IfOk result (λ room. (room.passes.items ≡ []) × (count ≤ vec_capacity room.passes)) }
    ensures fronts { IfOk result (λ room. (room.fronts.items ≡ []) × (count ≤ vec_capacity room.fronts)) }
{
    Ok(Room {
        workers: Vec::with_capacity(alloc, count)?,
        results: Vec::with_capacity(alloc, count)?,
        passes: Vec::with_capacity(alloc, count)?,
        fronts: Vec::with_capacity(alloc, count)?,
    })
}

// A worker of each pass and the front at its place.
fn seat_all<'a, S: Store>(
    shared: &'a Shared<S>,
    passes: Vec<Pass<S>>,
    fronts: Vec<Front>,
    workers: &mut Vec<Worker<Seated<'a, S>>>,
)
    requires fresh { AllByRecursion (IsFreshPass shared.now) passes.items }
    requires count { length fronts.items ≡ length passes.items }
    requires room { (workers.old.items ≡ []) × (length passes.items ≤ vec_capacity workers.old) }
    ensures passes { map (λ w. w.offers.pass) workers.new.items ≡ passes.items }
    ensures fronts { map (λ w. w.front) workers.new.items ≡ fronts.items }
    ensures shared { AllByRecursion (λ w. w.offers.shared.now ≡ shared.now) workers.new.items }
{
    let mut passes = passes.into_iter();
    let mut fronts = fronts.into_iter();
    while let Some(pass) = passes.next() {
        let Some(front) = fronts.next() else {
            unreachable!()
        };
        workers.push_reserved(Worker {
            offers: Seated::new(pass, shared),
            front,
            done: None,
        });
    }
}

// What came of each worker, and its pass and its front again, in order.
fn take_back<S: Store>(
    workers: Vec<Worker<Seated<'_, S>>>,
    results: &mut Vec<Result<WorkLog, Fault>>,
    passes: &mut Vec<Pass<S>>,
    fronts: &mut Vec<Front>,
)
    requires done { AllByRecursion (λ w. IsSome w.done) workers.items }
    requires results { (results.old.items ≡ []) × (length workers.items ≤ vec_capacity results.old) }
    requires passes { (passes.old.items ≡ []) × (length workers.items ≤ vec_capacity passes.old) }
    requires fronts { (fronts.old.items ≡ []) × (length workers.items ≤ vec_capacity fronts.old) }
    ensures results { map Some results.new.items ≡ map (λ w. w.done) workers.entry.items }
    ensures passes { passes.new.items ≡ map (λ w. w.offers.pass) workers.entry.items }
    ensures fronts { fronts.new.items ≡ map (λ w. w.front) workers.entry.items }
{
    let mut workers = workers.into_iter();
    while let Some(worker) = workers.next() {
        let Worker {
            offers,
            front,
            done,
        } = worker;
        let Some(result) = done else { unreachable!() };
        results.push_reserved(result);
        passes.push_reserved(offers.into_pass());
        fronts.push_reserved(front);
    }
}

// What all workers did, the first of it first, or the first fault of one.
fn join_all(alloc: Global, results: Vec<Result<WorkLog, Fault>>) -> Result<WorkLog, Fault>
    ensures { Joins result results.items }
{
    let mut whole = WorkLog {
        done: Vec::new(alloc),
        notes: Vec::new(alloc),
    };
    let mut results = results.into_iter();
    while let Some(result) = results.next() {
        join(&mut whole, result?)?;
    }
    Ok(whole)
}

// Puts what a worker did behind the others.
fn join(whole: &mut WorkLog, part: WorkLog) -> Result<(), AllocError>
    ensures { OnOk result ((whole.new.done.items ≡ whole.old.done.items ++ part.done.items)
        × (whole.new.notes.items ≡ whole.old.notes.items ++ part.notes.items)) }
{
    let WorkLog { done, notes } = part;
    for one in done {
        keep(&mut whole.done, one)?;
    }
    for note in notes {
        keep(&mut whole.notes, note)?;
    }
    Ok(())
}
