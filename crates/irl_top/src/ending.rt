ghost use Rattle.std.specs.Prelude.{◌≡◌};
ghost use Rattle.irl_top.specs.Message.{ending_of_open, ending_of_store};
ghost use Rattle.irl_top.specs.declared.ending.Ending.TheVariants.{NoMemory as NoMemoryEnding, OutputFault as OutputEnding};

use irl_head::OpenFault;
use irl_io::Failed;
use irl_offer::Fault;
use std::alloc::AllocError;

/// How a run of a command ends.
#[derive(Clone, Copy, Debug, PartialEq, Eq)]
pub enum Ending {
    /// The input was read to its end, and what it offered was judged.
    Done,
    /// A new store can't be made with this setting.
    BadSettings(u8),
    /// The line of this number is too long, or past the last.
    LineRefused(u64),
    /// The store is of another make: this byte of its first file is none that a store of ours has there.
    NotOurs(u64),
    /// What stands in this file at this byte is none of the store's forms.
    Damaged(u16, u64),
    /// The store was made otherwise than is asked: the least setting that differs, as it is kept and as it is asked.
    OtherSettings(u8, u64, u64),
    /// The store failed.
    DiskFault,
    /// The source failed.
    InputFault,
    /// The output sink failed.
    OutputFault,
    /// Memory ran out.
    NoMemory,
    /// This bucket would pass the store's cap.
    Full(u32),
}

impl Ending {
    ghost use Rattle.irl_top.specs.Message.{status_of, ending_of};

    /// The ending that the answer of a command is.
    pub fn of(answer: Result<(), Ending>) -> Ending
        ensures { result ≡ ending_of answer }
    {
        match answer {
            Ok(()) => Ending::Done,
            Err(ending) => ending,
        }
    }

    /// The exit status.
    pub fn status(self) -> u8
        ensures { result ≡ status_of self }
    {
        match self {
            Ending::Done => 0,
            Ending::BadSettings(_) => REFUSED,
            Ending::LineRefused(_) => 2,
            Ending::NotOurs(_) | Ending::Damaged(_, _) | Ending::OtherSettings(_, _, _) => 3,
            Ending::DiskFault => 4,
            Ending::InputFault => 5,
            Ending::OutputFault => 6,
            Ending::NoMemory => 7,
            Ending::Full(_) => 8,
        }
    }
}

/// The exit status of refused words.
pub const REFUSED: u8 = 1;

impl From<AllocError> for Ending {
    ghost from_gives = { λ _ e. e ≡ NoMemoryEnding };

    fn from(_: AllocError) -> Ending {
        Ending::NoMemory
    }
}

impl From<Failed> for Ending {
    ghost from_gives = { λ _ e. e ≡ OutputEnding };

    fn from(_: Failed) -> Ending {
        Ending::OutputFault
    }
}

impl From<OpenFault> for Ending {
    ghost from_gives = { λ fault e. e ≡ ending_of_open fault };

    fn from(fault: OpenFault) -> Ending {
        match fault {
            OpenFault::NotOurs(at) => Ending::NotOurs(at),
            OpenFault::Damaged(f, at) => Ending::Damaged(f, at),
            OpenFault::OtherSettings(n, kept, asked) => Ending::OtherSettings(n, kept, asked),
            OpenFault::BadSettings(n) => Ending::BadSettings(n),
            OpenFault::Failed => Ending::DiskFault,
            OpenFault::Memory => Ending::NoMemory,
        }
    }
}

impl From<Fault> for Ending {
    ghost from_gives = { λ fault e. e ≡ ending_of_store fault };

    fn from(fault: Fault) -> Ending {
        match fault {
            Fault::Failed => Ending::DiskFault,
            Fault::Memory => Ending::NoMemory,
            Fault::Full(b) => Ending::Full(b),
            Fault::Damaged(f, at) => Ending::Damaged(f, at),
        }
    }
}
