ghost use Rattle.std.specs.Prelude.{◌≡◌, ℕ, List, [], ◌∷◌, ◌++◌, None, false, OnOk};
ghost use Rattle.irl_polite.specs.Inside.{schedule};
ghost use Rattle.irl_fetch.specs.Telling.{fetcher, offering, TakesPages};
ghost use Rattle.irl_fetch.specs.Working.{Works, DoesNext};

use crate::gate::Gate;
use crate::keeping::keep;
use crate::pages::fetch_page;
use crate::robots::ask;
use irl_key::Work;
use irl_offer::{Done, Fault, Note, Offers, Outcome, Receipts};
use irl_pld::Suffixes;
use irl_polite::{Front, Job};
use irl_record::Fetch;
use std::alloc::{AllocError, Global};
use std::sync::Wait;

/// What a fetcher did.
#[derive(Drop)]
pub struct WorkLog {
    /// What came of each page.
    pub done: Vec<Done>,
    /// What was found of robots files.
    pub notes: Vec<Note>,
}

/// Does what a front says, job after job, until nothing is left: fetches its pages and the robots files of their hosts,
/// and offers what the pages name. It may wait for other fetchers, and till a moment comes.
///
/// Robots files are read for the front's agent, and handed in with the moment at which they were asked for. A fault is
/// want of memory, or the last one of the offers.
pub fn work<R: Wait, F: Fetch, O: Offers, G: Gate>(
    rt: &R,
    alloc: Global,
    fetch: &mut F,
    offers: &mut O,
    front: &mut Front,
    suffixes: &Suffixes,
    gate: &mut G,
) -> Result<WorkLog, Fault>
    requires calm { O.last_fault offers.old ≡ None }
    requires takes { TakesPages (O.takes offers.old) }
    requires ready { (name : List ℕ) → (schedule front.old).awaited name ≡ false }
    ensures { Works result suffixes.now
        (fetcher F.asked F.gives F.faults F.last F.aim fetch.old) (fetcher F.asked F.gives F.faults F.last F.aim fetch.new)
        (schedule front.old) (schedule front.new)
        (offering O.entries O.last_fault O.takes O.follows offers.old)
        (offering O.entries O.last_fault O.takes O.follows offers.new) }
{
    let mut log = WorkLog {
        done: Vec::new(alloc),
        notes: Vec::new(alloc),
    };
    for _ in rt.forever() {
        if !do_next(rt, alloc, fetch, offers, front, suffixes, gate, &mut log)? {
            return Ok(log);
        }
    }
    unreachable!()
}

// Does what the front says next, and keeps what came of it. False comes where nothing is left.
fn do_next<R: Wait, F: Fetch, O: Offers, G: Gate>(
    rt: &R,
    alloc: Global,
    fetch: &mut F,
    offers: &mut O,
    front: &mut Front,
    suffixes: &Suffixes,
    gate: &mut G,
    log: &mut WorkLog,
) -> Result<bool, Fault>
    requires takes { TakesPages (O.takes offers.old) }
    requires ready { (name : List ℕ) → (schedule front.old).awaited name ≡ false }
    ensures { DoesNext result log.old log.new suffixes.now
        (fetcher F.asked F.gives F.faults F.last F.aim fetch.old) (fetcher F.asked F.gives F.faults F.last F.aim fetch.new)
        (schedule front.old) (schedule front.new)
        (offering O.entries O.last_fault O.takes O.follows offers.old)
        (offering O.entries O.last_fault O.takes O.follows offers.new) }
{
    let now = fetch.now();
    match front.take(now) {
        Job::Page(work) => {
            fetch_page(
                rt,
                alloc,
                fetch,
                offers,
                suffixes,
                gate,
                &work,
                &mut log.done,
            )?;
            Ok(true)
        }
        Job::Denied(work, line) => {
            refuse(alloc, &work, Outcome::Denied(line), &mut log.done)?;
            Ok(true)
        }
        Job::ShutOut(work) => {
            refuse(alloc, &work, Outcome::Shut, &mut log.done)?;
            Ok(true)
        }
        Job::Robots(host) => {
            ask(alloc, fetch, front, host, now, &mut log.notes)?;
            Ok(true)
        }
        Job::WaitTill(moment) => {
            fetch.wait_till(moment);
            Ok(true)
        }
        Job::Idle => Ok(false),
    }
}

// Keeps what comes of a page that may not be fetched.
fn refuse(
    alloc: Global,
    work: &Work,
    outcome: Outcome,
    done: &mut Vec<Done>,
) -> Result<(), AllocError>
    ensures { OnOk result (done.new.items
        ≡ done.old.items ++ record { number = work.now.number; outcome = outcome; receipts = [] } ∷ []) }
{
    let one = Done {
        number: work.number,
        outcome,
        receipts: Receipts::new(alloc),
    };
    keep(done, one)
}
