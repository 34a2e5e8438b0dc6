ghost use Rattle.std.specs.Prelude.{◌≡◌, ◌↔◌, ℕ, true};
ghost use Rattle.std.specs.Option.{option_copied};
ghost use Rattle.irl_events.specs.Events.{has_number};
ghost use Rattle.irl_frontier.specs.Frontier.{IsFrontier};
ghost use Rattle.irl_ledger.specs.Holding.{IsSoundLedger};

use crate::notes::Notes;
use irl_bay::Bay;
use irl_frontier::Frontier;
use irl_log::Log;
use irl_pld::Suffixes;
use std::alloc::Global;

/// What a store of a crawl keeps in memory beside its URLs: the bay of pairs, the log of events, and the tables that the events
/// and the pairs make.
#[derive(Drop)]
pub struct Ledger {
    pub(crate) alloc: Global,
    pub(crate) pairs: Bay,
    pub(crate) log: Log,
    pub(crate) frontier: Frontier,
    // Those that the crawl began with.
    pub(crate) suffixes: Option<Suffixes>,
    // Where the last robots note of each host stands.
    pub(crate) notes: Notes,
}

impl Ledger {
    /// Whether no call failed.
    pub fn is_sound(&self) -> bool
        ensures { (result ≡ true) ↔ IsSoundLedger self.now }
    {
        self.pairs.is_sound() && self.log.is_sound()
    }

    /// A law: what the tables of each ledger keep. It does nothing.
    pub fn keeps(&self)
        ensures { IsFrontier self.now.frontier }
    {
        self.frontier.keeps();
    }

    /// A law: a crawl with a number that is to be fetched next has begun. It does nothing.
    pub fn has_begun(&self)
        ensures { (n : ℕ) → has_number self.now.frontier.progress.front n ≡ true →
            self.now.frontier.progress.begun ≡ true }
    {
        self.frontier.front_was_read();
    }

    /// The suffixes that the crawl began with, and none before it begins. It takes no memory.
    pub fn suffixes(&self) -> Option<&Suffixes>
        ensures { option_copied result ≡ self.now.suffixes }
    {
        self.suffixes.as_ref()
    }
}
