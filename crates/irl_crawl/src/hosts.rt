ghost use Rattle.std.specs.Prelude.{◌≡◌, ℕ, List, None, Some, IfOk};
ghost use Rattle.irl_crawl.specs.Serving.{KeepsNumbers, number_of};

use std::alloc::{AllocError, Global};
use std::collections::BTreeMap;

/// The hosts that the turns of a run named, numbered from 0 as they were first named.
#[derive(Drop)]
pub struct Hosts {
    alloc: Global,
    named: BTreeMap<Vec<u8>, Named>,
    // The number of the turn, which goes on from 2 ^ 64 - 1 with 0.
    turn: u64,
}

// A host that was named.
#[derive(Drop)]
struct Named {
    number: usize,
    // The last turn that named it.
    turn: u64,
}

/// A host that is named again, or for the first time.
#[derive(Clone, Copy)]
pub struct Met {
    /// Its number.
    pub number: usize,
    /// Whether this turn named it before.
    pub again: bool,
}

impl Hosts {
    /// No host yet. It takes no memory.
    pub fn new(alloc: Global) -> Hosts
        ensures { (name : List ℕ) → number_of result name ≡ None }
    {
        Hosts {
            alloc,
            named: BTreeMap::new(alloc),
            turn: 0,
        }
    }

    /// The next turn begins, which named none yet.
    pub fn begin_turn(&mut self)
        ensures { (name : List ℕ) → number_of self.new name ≡ number_of self.old name }
    {
        self.turn = self.turn.wrapping_add(1);
    }

    /// Names a host, which gets a new number where it has none yet.
    pub fn name(&mut self, host: &[u8]) -> Result<Met, AllocError>
        ensures number { IfOk result (λ met. number_of self.new host.now ≡ Some met.number) }
        ensures kept { KeepsNumbers self.old self.new }
    {
        if let Some(named) = self.named.get_mut(host) {
            let again = named.turn == self.turn;
            named.turn = self.turn;
            return Ok(Met {
                number: named.number,
                again,
            });
        }
        let number = self.named.len();
        let named = Named {
            number,
            turn: self.turn,
        };
        self.named.insert(host.to_vec(self.alloc)?, named)?;
        Ok(Met {
            number,
            again: false,
        })
    }
}
