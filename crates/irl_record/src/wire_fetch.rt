ghost use Rattle.std.specs.Prelude.{◌≡◌, ◌≤◌, [], ◌∷◌, Ok, IfOk, IsErr, OnOk, max};
ghost use Rattle.irl_base.specs.Faults.{HasCause};
ghost use Rattle.irl_record.specs.Widening.{WidensSince};
ghost use Rattle.irl_record.specs.Wired.{by_wire, how_many, MakesAtMostOne, Sends};
ghost use Rattle.irl_record.specs.WiredLaws.{wire_earlier, wire_nothing_new};

use crate::fetch::Fetch;
use irl_http::{Link, read_reply, request};
use irl_io::{Clock, Failed};
use irl_key::Web;
use irl_offer::{Answer, Text, Want};
use std::alloc::{AllocError, Global};
use std::marker::Model;

/// A fetcher over a port of its own, by the port's clock. Contracts see it as a `Wired`.
#[derive(Drop)]
pub struct WireFetch<P> {
    port: P,
    number: u16,
    agent: Text,
    last: u64,
}

impl<P> Model for WireFetch<P> {
    ghost use Rattle.irl_record.specs.Wired.{Wired};

    ghost Value = { Wired P };

    ghost view = { λ f. record { port = f.port; number = f.number; agent = f.agent; last = f.last } };
}

impl<P> WireFetch<P> {
    /// A fetcher that isn't aimed yet: its number is 0, and its agent has no name. It takes no memory.
    pub fn new(alloc: Global, port: P) -> WireFetch<P>
        ensures { result ≡ record { port = port; number = 0; agent = []; last = 0 } }
    {
        WireFetch {
            port,
            number: 0,
            agent: Text::from_vec(Vec::new(alloc)),
            last: 0,
        }
    }

    /// Its port.
    pub fn port(&self) -> &P
        ensures { result.now ≡ self.now.port }
    {
        &self.port
    }

    /// Sets the number of the peers' port, and the agent's name. It takes no memory.
    pub fn aim(&mut self, number: u16, agent: Text)
        ensures { self.new ≡ record self.old { number = number; agent = agent } }
    {
        self.number = number;
        self.agent = agent;
    }
}

impl<P: Link> Fetch for WireFetch<P> {
    // Those that its port made.
    ghost asked = { λ f. P.connections f.port };

    ghost gives = { λ f since. by_wire f.number f.agent (P.faults f.port) (P.connections f.port) since };

    ghost faults = { λ f. P.faults f.port };

    ghost last = { λ f. f.last };

    // The peers' port and the agent's name.
    ghost aim = { λ f. f.number ∷ f.agent };

    ghost earlier = { λ f. wire_earlier f.number f.agent (P.faults f.port) (P.connections f.port) };

    ghost nothing_new = { λ f. wire_nothing_new f.number f.agent (P.faults f.port) (P.connections f.port) };

    /// A connect, a write or a read that failed is no reply.
    fn fetch(&mut self, alloc: Global, web: &Web, want: Want) -> Result<Answer, AllocError>
        ensures told { IfOk result (by_wire self.new.number self.new.agent (P.faults self.new.port)
            (P.connections self.new.port) (how_many (P.connections self.old.port)) web.now want) }
        ensures wider { WidensSince
            (by_wire self.old.number self.old.agent (P.faults self.old.port) (P.connections self.old.port))
            (by_wire self.new.number self.new.agent (P.faults self.new.port) (P.connections self.new.port)) }
        ensures asked { MakesAtMostOne (P.connections self.old.port) (P.connections self.new.port) }
        ensures cause { HasCause (result ≡ Ok Answer.NoReply) (P.faults self.old.port) (P.faults self.new.port) }
        ensures later { self.old.last ≤ self.new.last }
        ensures aim { self.new.number ∷ self.new.agent ≡ self.old.number ∷ self.old.agent }
        ensures rest { self.new ≡ record self.old { port = self.new.port } }
    {
        let request = request(alloc, web, self.agent.bytes())?;
        match send(&mut self.port, self.number, request.bytes()) {
            Ok(()) => read_reply(alloc, &mut self.port, want),
            Err(Failed) => Ok(Answer::NoReply),
        }
    }

    /// The moment of the port's clock, which is never before one that was told.
    fn now(&mut self) -> u64
        ensures later { self.old.last ≤ result }
        ensures told { self.new.last ≡ result }
        ensures wider { WidensSince
            (by_wire self.old.number self.old.agent (P.faults self.old.port) (P.connections self.old.port))
            (by_wire self.new.number self.new.agent (P.faults self.new.port) (P.connections self.new.port)) }
        ensures asked { P.connections self.new.port ≡ P.connections self.old.port }
        ensures faults { P.faults self.old.port ≤ P.faults self.new.port }
        ensures port { P.faults self.new.port ≡ P.faults self.old.port }
        ensures aim { self.new.number ∷ self.new.agent ≡ self.old.number ∷ self.old.agent }
        ensures moment { result ≡ max self.old.last (P.last self.new.port) }
        ensures rest { self.new ≡ record self.old { port = self.new.port; last = result } }
    {
        self.last = self.last.max(self.port.now());
        self.last
    }

    fn wait_till(&mut self, moment: u64)
        ensures later { self.old.last ≤ self.new.last }
        ensures wider { WidensSince
            (by_wire self.old.number self.old.agent (P.faults self.old.port) (P.connections self.old.port))
            (by_wire self.new.number self.new.agent (P.faults self.new.port) (P.connections self.new.port)) }
        ensures asked { P.connections self.new.port ≡ P.connections self.old.port }
        ensures faults { P.faults self.old.port ≤ P.faults self.new.port }
        ensures port { P.faults self.new.port ≡ P.faults self.old.port }
        ensures aim { self.new.number ∷ self.new.agent ≡ self.old.number ∷ self.old.agent }
        ensures rest { self.new ≡ record self.old { port = self.new.port } }
    {
        self.port.wait_till(moment);
    }
}

/// Makes a connection to this port, and writes the bytes on it.
fn send<L: Link>(link: &mut L, port: u16, bytes: &[u8]) -> Result<(), Failed>
    ensures sent { OnOk result
        (Sends port bytes.now (L.connections link.old) (L.connections link.new) (L.left link.new)) }
    ensures made { MakesAtMostOne (L.connections link.old) (L.connections link.new) }
    ensures cause { HasCause (IsErr result) (L.faults link.old) (L.faults link.new) }
{
    link.connect(port)?;
    link.write(bytes)
}
