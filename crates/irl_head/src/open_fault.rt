ghost use Rattle.std.specs.Prelude.{◌≡◌};
ghost use Rattle.irl_head.specs.declared.open_fault.OpenFault.TheVariants.{Failed as OpenFailed, Memory as OpenMemory};

use irl_disk::Failed;
use std::alloc::AllocError;

/// Why a store can't be opened.
#[derive(Clone, Copy, Debug, PartialEq, Eq)]
pub enum OpenFault {
    /// The store is of another make: this byte of its first file is none that a store of ours has there.
    NotOurs(u64),
    /// What stands in this file at this byte is none of the store's forms.
    Damaged(u16, u64),
    /// The store was made otherwise than is asked: the least setting that differs, as it is kept and as it is asked.
    OtherSettings(u8, u64, u64),
    /// A new store can't have this setting: the first that is out of its range.
    BadSettings(u8),
    /// The store failed.
    Failed,
    /// Memory ran out.
    Memory,
}

impl From<Failed> for OpenFault {
    ghost from_gives = { λ _ e. e ≡ OpenFailed };

    fn from(_: Failed) -> OpenFault {
        OpenFault::Failed
    }
}

impl From<AllocError> for OpenFault {
    ghost from_gives = { λ _ e. e ≡ OpenMemory };

    fn from(_: AllocError) -> OpenFault {
        OpenFault::Memory
    }
}
