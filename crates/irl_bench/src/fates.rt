//! The events of a crawl, a third of them passes and a third settles.

ghost use Rattle.std.specs.Prelude.{◌≡◌, ◌+◌, ◌*◌, ◌/◌, length, IfOk};

use crate::score::Score;
use crate::words::Stage;
use irl_fate::{Event, FateFault, Fates, Numbers, Places, Settled};
use irl_offer::{Outcome, Place, Slot, Text};
use std::alloc::{AllocError, Global};
use std::mem;

/// What three events bring: pairs are sent, a pass reads, and all that it put into the front is settled.
#[derive(Drop)]
struct Turn {
    judged: u64,
    places: Places,
    done: Settled,
}

/// A crawl over one bucket.
#[derive(Drop)]
struct Crawl {
    fates: Fates,
    ghost one: { length fates.fronts ≡ 1 },
}

/// Which numbers wait.
#[derive(Drop)]
struct Plan {
    queue: Vec<u64>,
    last: Vec<u64>,
    queues: u32,
    passes: u32,
    next: u64,
}

/// Applies so many events, by three, and the one by which a crawl begins: how many of them are taken. There is nothing to
/// load.
pub fn run(alloc: Global, events: u32, stage: Stage) -> Result<Score, AllocError>
    ensures calls { IfOk result (λ score. score.calls ≡ 3 * (events / 3) + 1) }
{
    let turns = turns(alloc, events / 3)?;
    let right = match stage {
        Stage::Done => taken(alloc, turns)?,
        _ => (turns.len() as u64).saturating_mul(3).saturating_add(1),
    };
    let calls = 3 * u64::from(events / 3) + 1;
    Ok(Score {
        right,
        calls,
        beside: None,
    })
}

// How many events are taken, up to the first that is refused.
fn taken(alloc: Global, turns: Vec<Turn>) -> Result<u64, AllocError> {
    let mut crawl = started(alloc)?;
    if begin(alloc, &mut crawl).is_err() {
        return Ok(0);
    }
    let mut count = 1u64;
    for turn in turns {
        if apply(alloc, &mut crawl, turn).is_err() {
            return Ok(count);
        }
        count = count.saturating_add(3);
    }
    Ok(count)
}

fn started(alloc: Global) -> Result<Crawl, AllocError> {
    let fates = Fates::new(alloc, 1, 1)?;
    Ok(Crawl { fates })
}

// The first event.
fn begin(alloc: Global, crawl: &mut Crawl) -> Result<(), FateFault> {
    let suffixes = Text::from_bytes(alloc, b"test")?;
    crawl.fates.apply(&Event::Begin(suffixes), &[])
}

// The events of a turn.
fn apply(alloc: Global, crawl: &mut Crawl, turn: Turn) -> Result<(), FateFault> {
    let Turn {
        judged,
        places,
        done,
    } = turn;
    let pairs = Event::Pairs {
        cuts: judged,
        judged,
        pairs: judged,
    };
    crawl.fates.apply(&pairs, &[])?;
    crawl.fates.apply(&Event::Pass { judged }, places.items())?;
    settle(alloc, crawl, judged, done)
}

// The event that the outcomes of a turn are settled.
fn settle(alloc: Global, crawl: &mut Crawl, front: u64, done: Settled) -> Result<(), FateFault> {
    let mut fronts = Numbers::new(alloc);
    fronts.push(front)?;
    crawl.fates.apply(&Event::Settle { fronts, done }, &[])
}

// So many turns.
fn turns(alloc: Global, count: u32) -> Result<Vec<Turn>, AllocError> {
    let mut plan = Plan {
        queue: Vec::new(alloc),
        last: Vec::new(alloc),
        queues: 1,
        passes: 0,
        next: 0,
    };
    let mut turns = Vec::new(alloc);
    for _ in 0..count {
        turns.push(next_turn(alloc, &mut plan)?)?;
    }
    Ok(turns)
}

fn next_turn(alloc: Global, plan: &mut Plan) -> Result<Turn, AllocError> {
    let mut places = Places::new(alloc);
    let mut done = Settled::new(alloc);
    read(plan, &mut places, &mut done)?;
    end_pass(alloc, plan);
    Ok(Turn {
        judged: plan.next,
        places,
        done,
    })
}

// What a pass reads: queue 1 in the first pass of a round, and four fresh numbers, of which one is left for the next round.
fn read(plan: &mut Plan, places: &mut Places, done: &mut Settled) -> Result<(), AllocError> {
    if plan.passes == 0 {
        for number in &plan.queue {
            to_front(places, done, *number)?;
        }
        plan.queue.clear();
    }
    for _ in 0..3u32 {
        to_front(places, done, plan.next)?;
        plan.next = plan.next.saturating_add(1);
    }
    places.push(Place {
        number: plan.next,
        slot: Slot::Last,
    })?;
    plan.last.push(plan.next)?;
    plan.next = plan.next.saturating_add(1);
    Ok(())
}

// A number that a pass puts into the front, and that is settled after it.
fn to_front(places: &mut Places, done: &mut Settled, number: u64) -> Result<(), AllocError> {
    places.push(Place {
        number,
        slot: Slot::Front,
    })?;
    done.push((number, Outcome::Page))
}

// A pass more, and the end of the round.
fn end_pass(alloc: Global, plan: &mut Plan) {
    plan.passes = plan.passes.saturating_add(1);
    if plan.passes >= plan.queues {
        plan.queue = mem::replace(&mut plan.last, Vec::new(alloc));
        plan.queues = plan.queues.saturating_mul(2).min(64);
        plan.passes = 0;
    }
}
