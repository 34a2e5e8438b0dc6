ghost use Rattle.std.specs.Prelude.{◌≡◌};
ghost use Rattle.irl_journal.specs.declared.fault.JournalFault.TheVariants.{Failed as VisitFailed};
ghost use Rattle.irl_journal.specs.declared.fault.JournalFault.TheVariants.{Memory as VisitMemory};

use irl_disk::Failed;
use std::alloc::AllocError;

/// What opening a journal is refused with.
#[derive(Clone, Copy, Debug, PartialEq, Eq)]
pub enum JournalFault {
    /// The store failed.
    Failed,
    /// Memory ran out.
    Memory,
    /// The gate at this byte is open, and its record passes the file's end or the limit of a payload, or the visitor
    /// refused it.
    Damaged(u64),
}

impl From<Failed> for JournalFault {
    ghost from_gives = { λ _ e. e ≡ VisitFailed };

    fn from(_: Failed) -> JournalFault {
        JournalFault::Failed
    }
}

impl From<AllocError> for JournalFault {
    ghost from_gives = { λ _ e. e ≡ VisitMemory };

    fn from(_: AllocError) -> JournalFault {
        JournalFault::Memory
    }
}
