ghost use Rattle.std.specs.Prelude.{◌≡◌, ◌<◌, length, All};
ghost use Rattle.std.specs.Thread.{IsSync};
ghost use Rattle.irl_fetch.specs.Telling.{fetcher, offering};
ghost use Rattle.irl_workers.specs.Workers.{EachWorker, IsDone, IsReady};

use irl_fetch::{Gate, WorkLog, work};
use irl_offer::{Fault, Offers};
use irl_pld::Suffixes;
use irl_polite::Front;
use irl_record::Fetch;
use std::alloc::Global;
use std::sync::Wait;
use std::thread::{Threads, join_mut};

/// What one worker has in a turn, beside its fetcher.
#[derive(Drop)]
pub struct Worker<O> {
    /// Its way into the store.
    pub offers: O,
    /// The front that serves it for the whole run, with its items of this turn.
    pub front: Front,
    /// What came of its turn, once that is over.
    pub done: Option<Result<WorkLog, Fault>>,
}

/// Each worker does what its front says, all of them side by side: each in a thread of its own, one of them in that of
/// the caller. Where no thread can be made, some work one after another.
///
/// The first worker has the first fetcher and the first gate, and so on. What came of its turn is kept in `done`.
// The lists are the last parameters, since a closure has to read all else before it lends them.
#[cycle(halves)]
pub fn work_side_by_side<
    R: Threads + Wait + Sync,
    F: Fetch + Send,
    O: Offers + Send,
    G: Gate + Send,
>(
    rt: &R,
    alloc: Global,
    suffixes: &Suffixes,
    fetchers: &mut [F],
    gates: &mut [G],
    workers: &mut [Worker<O>],
)
    requires fetchers { length fetchers.old ≡ length workers.old }
    requires gates { length gates.old ≡ length workers.old }
    requires ready { All (IsReady O.last_fault O.takes) workers.old }
    ensures { EachWorker (IsDone (fetcher F.asked F.gives F.faults F.last F.aim)
        (offering O.entries O.last_fault O.takes O.follows) suffixes.now)
        fetchers.old fetchers.new workers.old workers.new }
{
    let count = workers.len();
    if count == 0 {
        return;
    }
    if count == 1 {
        work_alone(
            rt,
            alloc,
            suffixes,
            &mut fetchers[0],
            &mut gates[0],
            &mut workers[0],
        );
        return;
    }
    let (fetchers, other_fetchers) = fetchers.split_at_mut(count / 2);
    let (gates, other_gates) = gates.split_at_mut(count / 2);
    let (workers, other_workers) = workers.split_at_mut(count / 2);
    work_both(
        rt,
        alloc,
        suffixes,
        fetchers,
        gates,
        workers,
        other_fetchers,
        other_gates,
        other_workers,
    );
}

// Some workers and others, side by side. There are some of each.
#[cycle(halves)]
fn work_both<R: Threads + Wait + Sync, F: Fetch + Send, O: Offers + Send, G: Gate + Send>(
    rt: &R,
    alloc: Global,
    suffixes: &Suffixes,
    fetchers: &mut [F],
    gates: &mut [G],
    workers: &mut [Worker<O>],
    other_fetchers: &mut [F],
    other_gates: &mut [G],
    other_workers: &mut [Worker<O>],
)
    requires fetchers { length fetchers.old ≡ length workers.old }
    requires gates { length gates.old ≡ length workers.old }
    requires ready { All (IsReady O.last_fault O.takes) workers.old }
    requires some { 0 < length workers.old }
    requires other_fetchers { length other_fetchers.old ≡ length other_workers.old }
    requires other_gates { length other_gates.old ≡ length other_workers.old }
    requires others_ready { All (IsReady O.last_fault O.takes) other_workers.old }
    requires others { 0 < length other_workers.old }
    ensures some { EachWorker (IsDone (fetcher F.asked F.gives F.faults F.last F.aim)
        (offering O.entries O.last_fault O.takes O.follows) suffixes.now)
        fetchers.old fetchers.new workers.old workers.new }
    ensures others { EachWorker (IsDone (fetcher F.asked F.gives F.faults F.last F.aim)
        (offering O.entries O.last_fault O.takes O.follows) suffixes.now)
        other_fetchers.old other_fetchers.new other_workers.old other_workers.new }
{
    join_mut(
        rt,
        &mut ||
            requires { IsSync R.row × (length fetchers.now ≡ length workers.now)
                × (length gates.now ≡ length workers.now)
                × All (IsReady O.last_fault O.takes) workers.now }
            ensures { EachWorker (IsDone (fetcher F.asked F.gives F.faults F.last F.aim)
                (offering O.entries O.last_fault O.takes O.follows) suffixes.entry.now)
                fetchers.entry.now fetchers.exit.now workers.entry.now workers.exit.now }
        { work_side_by_side(rt, alloc, suffixes, fetchers, gates, workers) },
        &mut ||
            requires { IsSync R.row × (length other_fetchers.now ≡ length other_workers.now)
                × (length other_gates.now ≡ length other_workers.now)
                × All (IsReady O.last_fault O.takes) other_workers.now }
            ensures { EachWorker (IsDone (fetcher F.asked F.gives F.faults F.last F.aim)
                (offering O.entries O.last_fault O.takes O.follows) suffixes.entry.now)
                other_fetchers.entry.now other_fetchers.exit.now other_workers.entry.now other_workers.exit.now }
        {
            work_side_by_side(
                rt,
                alloc,
                suffixes,
                other_fetchers,
                other_gates,
                other_workers,
            )
        },
    );
}

// One worker does what its front says, and what came of it is kept.
fn work_alone<R: Wait, F: Fetch, O: Offers, G: Gate>(
    rt: &R,
    alloc: Global,
    suffixes: &Suffixes,
    fetch: &mut F,
    gate: &mut G,
    worker: &mut Worker<O>,
)
    requires { IsReady O.last_fault O.takes worker.old }
    ensures { IsDone (fetcher F.asked F.gives F.faults F.last F.aim) (offering O.entries O.last_fault O.takes O.follows)
        suffixes.now fetch.old fetch.new worker.old worker.new }
{
    let result = work(
        rt,
        alloc,
        fetch,
        &mut worker.offers,
        &mut worker.front,
        suffixes,
        gate,
    );
    worker.done = Some(result);
}
