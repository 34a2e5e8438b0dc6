ghost use Rattle.std.specs.Prelude.{◌≡◌, List, ℕ, IfOk};
ghost use Rattle.irl_robots.specs.Leave.{host_state, leave_of, leave};

use crate::robots::Robots;
use irl_offer::NoteState;
use std::alloc::{AllocError, Global};

/// What is known of a host's robots file, read for one agent.
#[derive(Drop)]
pub enum HostState {
    /// The file gives rules: those that the agent obeys.
    Rules(Robots),
    /// There is no such file, so all is allowed.
    Free,
    /// The file could not be had, so nothing is allowed.
    Shut,
}

/// Whether a target may be fetched.
#[derive(Clone, Copy, Debug, PartialEq, Eq)]
pub enum Leave {
    /// It may.
    Allowed,
    /// The rule on this line of the file denies it.
    Denied(u32),
    /// Nothing of the host may be fetched.
    Shut,
}

impl HostState {
    /// Reads what a note says of a host, for the agent with this product token.
    pub fn read(alloc: Global, state: &NoteState, agent: &[u8]) -> Result<HostState, AllocError>
        ensures value { IfOk result (λ host. host ≡ host_state state.now agent.now) }

        // Whatever target it is asked about, it answers as the note does.
        ensures leave { IfOk result (λ host. (target : List ℕ) →
            leave_of host target ≡ leave state.now agent.now target) }
    {
        match state {
            NoteState::Rules(text) => Ok(HostState::Rules(Robots::read(
                alloc,
                text.bytes(),
                agent,
            )?)),
            NoteState::Free => Ok(HostState::Free),
            NoteState::Shut => Ok(HostState::Shut),
        }
    }

    /// Whether a target, which is a path with its query, may be fetched. It takes no memory.
    pub fn leave(&self, target: &[u8]) -> Leave
        ensures { result ≡ leave_of self.now target.now }
    {
        match self {
            HostState::Rules(robots) => match robots.by(target) {
                Some((line, false)) => Leave::Denied(line),
                _ => Leave::Allowed,
            },
            HostState::Free => Leave::Allowed,
            HostState::Shut => Leave::Shut,
        }
    }
}
