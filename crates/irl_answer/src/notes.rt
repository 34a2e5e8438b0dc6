ghost use Rattle.std.specs.Prelude.{◌≡◌, IfOk};
ghost use Rattle.irl_answer.specs.Outcomes.{usable as usable_at};
ghost use Rattle.irl_key.specs.Web.{IsHost};
ghost use Rattle.irl_answer.specs.Notes.{note_of, step_by, step_of, follow};

use crate::outcomes::usable;
use irl_key::{Web, robots_of};
use irl_offer::{Answer, NoteState, Reply, Text};
use irl_robots::{Class, class, kept};
use std::alloc::{AllocError, Global};

/// How many redirects are followed.
const MOST_FOLLOWED: u32 = 5;

/// What the answer to a request for a robots file asks for.
#[derive(Drop)]
pub enum Step {
    /// The file is to be asked for there.
    Follow(Web),
    /// This is found of the file.
    Found(NoteState),
}

/// What the answer to a request for a robots file asks for next, where so many redirects were followed already. The
/// first request goes to [`irl_key::robots_of`] of the host. The only refusal is want of memory.
pub fn robots_step(
    alloc: Global,
    asked: &Web,
    followed: u32,
    answer: &Answer,
) -> Result<Step, AllocError>
    ensures { IfOk result (λ step. step ≡ step_of asked.now followed answer.now) }
{
    match answer {
        Answer::Reply(reply) => step_by(alloc, asked, followed, reply),
        Answer::NoReply
        | Answer::Short(_)
        | Answer::BadReply(_)
        | Answer::TooLarge(_)
        | Answer::Coded => Ok(Step::Found(NoteState::Shut)),
    }
}

fn step_by(alloc: Global, asked: &Web, followed: u32, reply: &Reply) -> Result<Step, AllocError>
    ensures { IfOk result (λ step. step ≡ step_of asked.now followed (Answer.Reply reply.now)) }
{
    match class(reply.status) {
        Class::Rules => {
            let text = Text::from_bytes(alloc, kept(reply.body.bytes()))?;
            Ok(Step::Found(NoteState::Rules(text)))
        }
        Class::Moved if followed < MOST_FOLLOWED => follow(alloc, asked, &reply.location),
        Class::Moved | Class::Free => Ok(Step::Found(NoteState::Free)),
        Class::Shut => Ok(Step::Found(NoteState::Shut)),
    }
}

/// A usable location is followed.
fn follow(alloc: Global, asked: &Web, location: &Option<Text>) -> Result<Step, AllocError>
    ensures { IfOk result (λ step. step ≡ follow (usable_at asked.now location.now)) }
{
    match usable(alloc, asked, location)? {
        Some(web) => Ok(Step::Follow(web)),
        None => Ok(Step::Found(NoteState::Free)),
    }
}

/// What the answers to the requests for a host's robots file come to, the first to [`irl_key::robots_of`] of the host,
/// each later one to the location before it. `None` where they are no whole chain. The only refusal is want of memory.
pub fn note(alloc: Global, host: &[u8], answers: &[Answer]) -> Result<Option<NoteState>, AllocError>
    requires { IsHost host.now }
    ensures { IfOk result (λ state. state ≡ note_of host.now answers.now) }
{
    let mut asked = robots_of(alloc, host)?;
    let mut followed = 0;
    let mut rest = answers;
    while let Some((answer, more)) = rest.split_first() {
        match robots_step(alloc, &asked, followed, answer)? {
            Step::Follow(web) => asked = web,
            Step::Found(state) => return Ok(more.is_empty().then_some(state)),
        }
        followed += 1;
        rest = more;
    }
    Ok(None)
}
