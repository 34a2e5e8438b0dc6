ghost use Rattle.std.specs.Prelude.{List, ℕ, Option, OnOk, OnErr, IsErr};
ghost use Rattle.std.specs.Io.KnownBytes.{Appends};
ghost use Rattle.irl_base.specs.Faults.{HasCause};
ghost use Rattle.irl_io.specs.Written.{AppendsPrefix};

use crate::source::Failed;

/// Where bytes go.
pub trait Sink {
    /// The bytes written so far, where the sink tells them.
    ghost written: { Self → Option (List ℕ) };

    /// How often it failed. The count never falls, and stands still at the last value of a `u64`.
    ghost faults: { Self → ℕ };

    /// Writes the whole piece. A write that failed has written a prefix of it.
    fn write(&mut self, bytes: &[u8]) -> Result<(), Failed>
        ensures ok { OnOk result (Appends (written self.old) (written self.new) bytes.now) }
        ensures err { OnErr result (AppendsPrefix (written self.old) (written self.new) bytes.now) }
        ensures cause { HasCause (IsErr result) (faults self.old) (faults self.new) };
}
