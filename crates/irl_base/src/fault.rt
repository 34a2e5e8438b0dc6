ghost use Rattle.std.specs.Prelude.{◌≡◌};
ghost use Rattle.irl_base.specs.declared.fault.Fault.TheVariants.{Memory as MemoryFault};

use std::alloc::AllocError;

/// Why a call on a store was refused.
#[derive(Clone, Copy, Debug, PartialEq, Eq)]
pub enum Fault {
    /// The store failed.
    Failed,
    /// Memory ran out.
    Memory,
    /// The bucket of this number would pass its cap.
    Full(u32),
    /// What stands in this file at this byte is none of the store's forms.
    Damaged(u16, u64),
}

impl From<AllocError> for Fault {
    ghost from_gives = { λ _ e. e ≡ MemoryFault };

    fn from(_: AllocError) -> Fault {
        Fault::Memory
    }
}
