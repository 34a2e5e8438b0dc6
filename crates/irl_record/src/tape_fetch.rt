ghost use Rattle.std.specs.Prelude.{◌≡◌, ◌≤◌, None, Ok, IfOk, max};
ghost use Rattle.irl_record.specs.Taped.{record_at, answer_of, not_found};
ghost use Rattle.irl_record.specs.Fetched.{by_tape, faults_after};
ghost use Rattle.irl_record.specs.Widening.{WidensSince};
ghost use Rattle.irl_record.specs.Wired.{MakesAtMostOne};
ghost use Rattle.irl_base.specs.Faults.{HasCause};

use crate::fetch::Fetch;
use crate::record::Record;
use crate::tape::Tape;
use irl_io::{Clock, JumpClock};
use irl_key::Web;
use irl_offer::{Answer, Reply, Text, Want};
use std::alloc::{AllocError, Global};
use std::marker::Model;

/// A fetcher that answers by a tape, by a clock that jumps. Contracts see it as a `Playing`.
#[derive(Drop)]
pub struct TapeFetch<'a> {
    tape: &'a Tape,
    faults: u64,
    clock: JumpClock,
}

impl<'a> Model for TapeFetch<'a> {
    ghost use Rattle.irl_record.specs.Fetched.{Playing};

    ghost Value = { Playing };

    ghost view = { λ f. record { tape = f.tape.now; faults = f.faults; moment = f.clock } };
}

impl<'a> TapeFetch<'a> {
    /// A fetcher at moment 0. It takes no memory.
    pub fn new(tape: &'a Tape) -> TapeFetch<'a>
        ensures { result ≡ record { tape = tape.now; faults = 0; moment = 0 } }
    {
        TapeFetch {
            tape,
            faults: 0,
            clock: JumpClock::new(),
        }
    }
}

impl Fetch for TapeFetch<'_> {
    // It makes none, and its answers are the tape's from the beginning.
    ghost asked = { λ _. None };

    ghost gives = { λ f _. by_tape f.tape };

    ghost faults = { λ f. f.faults };

    ghost last = { λ f. f.moment };

    ghost earlier = { λ _ _ _ _ _ _ _ given. given };

    ghost nothing_new = { λ _ _ _ _ _ given. given };

    /// What is asked for doesn't matter.
    fn fetch(&mut self, alloc: Global, web: &Web, want: Want) -> Result<Answer, AllocError>
        ensures told { IfOk result (λ answer. by_tape self.new.tape web.now want answer) }
        ensures wider { WidensSince (λ _. by_tape self.old.tape) (λ _. by_tape self.new.tape) }
        ensures asked { MakesAtMostOne None None }
        ensures cause { HasCause (result ≡ Ok Answer.NoReply) self.old.faults self.new.faults }
        ensures later { self.old.moment ≤ self.new.moment }
        ensures answer { IfOk result (λ answer. answer ≡ answer_of (record_at self.old.tape.records web.now)) }
        ensures after { self.new ≡ record self.old { faults = faults_after result self.old.faults } }
    {
        match self.tape.record(web.text()) {
            Some(Record::Page(reply)) => Ok(Answer::Reply(copied(alloc, reply)?)),
            Some(Record::Lost) => {
                self.faults = self.faults.saturating_add(1);
                Ok(Answer::NoReply)
            }
            None => Ok(Answer::Reply(not_found(alloc))),
        }
    }

    fn now(&mut self) -> u64
        ensures later { self.old.moment ≤ result }
        ensures told { self.new.moment ≡ result }
        ensures wider { WidensSince (λ _. by_tape self.old.tape) (λ _. by_tape self.new.tape) }
        ensures faults { self.old.faults ≤ self.new.faults }
        ensures value { result ≡ self.old.moment }
        ensures same { self.new ≡ self.old }
    {
        self.clock.now()
    }

    fn wait_till(&mut self, moment: u64)
        ensures later { self.old.moment ≤ self.new.moment }
        ensures wider { WidensSince (λ _. by_tape self.old.tape) (λ _. by_tape self.new.tape) }
        ensures faults { self.old.faults ≤ self.new.faults }
        ensures after { self.new ≡ record self.old { moment = max self.old.moment moment } }
    {
        self.clock.wait_till(moment);
    }
}

/// The same reply once more.
fn copied(alloc: Global, reply: &Reply) -> Result<Reply, AllocError>
    ensures { IfOk result (λ copy. copy ≡ reply.now) }
{
    let location = match &reply.location {
        Some(location) => Some(location.copy(alloc)?),
        None => None,
    };
    Ok(Reply {
        status: reply.status,
        location,
        html: reply.html,
        body: reply.body.copy(alloc)?,
    })
}

/// The reply to a URL that isn't on the tape. It takes no memory.
fn not_found(alloc: Global) -> Reply
    ensures { result ≡ not_found }
{
    Reply {
        status: 404,
        location: None,
        html: false,
        body: Text::from_vec(Vec::new(alloc)),
    }
}
