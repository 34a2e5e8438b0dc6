ghost use Rattle.std.specs.Prelude.{◌≡◌, true};
ghost use Rattle.irl_key.specs.Web.{IsHost};
ghost use Rattle.irl_polite.specs.Inside.{schedule};
ghost use Rattle.irl_fetch.specs.Robots.{FetchesNote, HandsIn};
ghost use Rattle.irl_fetch.specs.Telling.{fetcher};

use crate::keeping::keep;
use irl_answer::{Step, chains_are_short, robots_step};
use irl_key::robots_of;
use irl_offer::{Note, Text, Want};
use irl_polite::{Front, HostState};
use irl_record::Fetch;
use std::alloc::{AllocError, Global};

/// Fetches a host's robots file, hands it to the front, and keeps the note. The only refusal is want of memory.
pub fn ask<F: Fetch>(
    alloc: Global,
    fetch: &mut F,
    front: &mut Front,
    host: Text,
    now: u64,
    notes: &mut Vec<Note>,
) -> Result<(), AllocError>
    requires host { IsHost host }
    requires awaited { (schedule front.old).awaited host ≡ true }
    ensures { HandsIn result host now
        (fetcher F.asked F.gives F.faults F.last F.aim fetch.old) (fetcher F.asked F.gives F.faults F.last F.aim fetch.new)
        (schedule front.old) (schedule front.new) notes.old.items notes.new.items }
{
    let note = fetch_note(alloc, fetch, &host, now)?;
    let state = HostState::read(alloc, &note.state, front.agent())?;
    keep(notes, note)?;
    front.robots_done(host, state, now);
    Ok(())
}

// Fetches the robots file of a host, by the redirects that are followed, and notes at this moment what it comes to.
fn fetch_note<F: Fetch>(
    alloc: Global,
    fetch: &mut F,
    host: &Text,
    when: u64,
) -> Result<Note, AllocError>
    requires { IsHost host.now }
    ensures { FetchesNote result host.now when
        (fetcher F.asked F.gives F.faults F.last F.aim fetch.old) (fetcher F.asked F.gives F.faults F.last F.aim fetch.new) }
{
    let mut asked = robots_of(alloc, host.bytes())?;
    for followed in 0..6 {
        let answer = fetch.fetch(alloc, &asked, Want::Robots)?;
        match robots_step(alloc, &asked, followed, &answer)? {
            Step::Follow(web) => asked = web,
            Step::Found(state) => {
                return Ok(Note {
                    host: host.copy(alloc)?,
                    when,
                    state,
                });
            }
        }
    }
    // A seventh answer would make the chain longer than any is.
    chains_are_short();
    unreachable!()
}
