ghost use Rattle.std.specs.Prelude.{◌≡◌};
ghost use Rattle.irl_fate.specs.declared.fate.FateFault.TheVariants.{Memory as MemoryFault};

use irl_offer::Outcome;
use std::alloc::AllocError;

/// What became of a URL.
#[derive(Clone, Copy, Debug, PartialEq, Eq)]
pub enum Fate {
    /// No pass has read it.
    Fresh,
    /// It waits in the queue of this number, from 1.
    Queue(u32),
    /// It waits behind all queues, till the round ends.
    Last,
    /// It is to be fetched next.
    Front,
    /// It was fetched, and this came of it.
    Done(Outcome),
}

/// Why an event was refused.
#[derive(Clone, Copy, Debug, PartialEq, Eq)]
pub enum FateFault {
    /// It breaks this rule, and none of a lesser number.
    Illegal(u8),
    /// Memory ran out.
    Memory,
}

impl From<AllocError> for FateFault {
    ghost from_gives = { λ _ e. e ≡ MemoryFault };

    fn from(_: AllocError) -> FateFault {
        FateFault::Memory
    }
}
