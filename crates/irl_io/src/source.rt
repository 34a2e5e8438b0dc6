ghost use Rattle.std.specs.Prelude.{List, ℕ, Option, IsErr};
ghost use Rattle.std.specs.Io.{ReadsAtMost};
ghost use Rattle.std.specs.Io.KnownBytes.{ReadConsumes};
ghost use Rattle.irl_base.specs.Faults.{HasCause};

/// A source or a sink failed; its count of faults rose.
#[derive(Clone, Copy, Debug, PartialEq, Eq)]
pub struct Failed;

/// Bytes that come in.
pub trait Source {
    /// The bytes that reads will still give, where the source tells them.
    ghost left: { Self → Option (List ℕ) };

    /// How often it failed. The count never falls, and stands still at the last value of a `u64`.
    ghost faults: { Self → ℕ };

    /// Reads bytes into the slice, from its first place on, and says how many: 0 of a slice that isn't empty only at
    /// the end. A read that failed gave nothing.
    fn read(&mut self, into: &mut [u8]) -> Result<usize, Failed>
        ensures bound { ReadsAtMost result into.new }
        ensures bytes { ReadConsumes (left self.old) (left self.new) result into.new }
        ensures cause { HasCause (IsErr result) (faults self.old) (faults self.new) };
}
