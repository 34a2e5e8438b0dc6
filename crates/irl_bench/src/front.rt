//! The turns of a front of hosts with twenty pages each.

ghost use Rattle.std.specs.Prelude.{◌≡◌, ◌*◌, IfOk};

use crate::score::Score;
use crate::words::Stage;
use irl_key::{Canon, Work, canonical};
use irl_offer::Text;
use irl_polite::{Front, HostState, Job};
use std::alloc::{AllocError, Global};

/// How many pages each host has.
const PAGES: u64 = 20;

/// Fetches the pages of so many hosts: how many of them are made, loaded into the front, or answered.
pub fn run(alloc: Global, hosts: u32, stage: Stage) -> Result<Score, AllocError>
    ensures calls { IfOk result (λ score. score.calls ≡ hosts * PAGES) }
{
    let items = pages(alloc, hosts)?;
    let calls = u64::from(hosts) * PAGES;
    let right = match stage {
        Stage::Made => items.len() as u64,
        Stage::Loaded => loaded(alloc, items)?.left(),
        Stage::Done => answered(&mut loaded(alloc, items)?, 4 * calls),
    };
    Ok(Score {
        right,
        calls,
        beside: None,
    })
}

// The pages of so many hosts.
fn pages(alloc: Global, hosts: u32) -> Result<Vec<Work>, AllocError> {
    let mut items = Vec::new(alloc);
    for round in 0..PAGES {
        for number in 0..u64::from(hosts) {
            let url = format!(in alloc; "http://h{number}.test/{round}")?;
            if let Canon::Web(web) = canonical(alloc, None, url.as_bytes())? {
                items.push(Work { number, web })?;
            }
        }
    }
    Ok(items)
}

// A front that has these pages.
fn loaded(alloc: Global, items: Vec<Work>) -> Result<Front, AllocError> {
    let agent = Text::from_bytes(alloc, b"foobot")?;
    let mut front = Front::new(alloc, 1_000, agent);
    front.load(items, Vec::new(alloc))?;
    Ok(front)
}

// Answers each job in turn, at moments that move on, and counts the pages, in at most so many turns.
fn answered(front: &mut Front, most: u64) -> u64 {
    let mut moment = 0;
    let mut count = 0u64;
    for _ in 0..most {
        match take_at(front, moment) {
            Some(Job::Page(_)) => count = count.saturating_add(1),
            Some(Job::WaitTill(till)) => moment = till,
            Some(Job::Idle) => return count,
            _ => {}
        }
    }
    count
}

// What there is to do at a moment, if it is no robots file. One that is asked for lets all pages be fetched.
fn take_at(front: &mut Front, now: u64) -> Option<Job> {
    match front.take(now) {
        Job::Robots(host) => {
            front.robots_done(host, HostState::Free, now);
            None
        }
        job => Some(job),
    }
}
