ghost use Rattle.std.specs.Prelude.{◌≡◌, List, ℕ, Option, OnOk, OnErr, IsErr};
ghost use Rattle.std.specs.Io.{ReadsAtMost};
ghost use Rattle.std.specs.Io.KnownBytes.{Appends, Keeps, ReadConsumes};
ghost use Rattle.irl_base.specs.Faults.{HasCause};
ghost use Rattle.irl_io.specs.Written.{AppendsPrefix};
ghost use Rattle.irl_http.specs.declared.link.Connection.{Connection};
ghost use Rattle.irl_http.specs.Links.{Connects, StaySame, WritesOnLast, WritesPart};

use irl_io::{Clock, Failed};
use irl_offer::Text;

/// A connection.
#[derive(Drop)]
pub struct Connection {
    /// The port that it was made to.
    pub port: u16,
    /// All that its peer gives.
    pub gives: Text,
    /// What was written on it so far.
    pub written: Text,
}

/// A connection to a peer, which one after another takes the place of. It tells the time as well.
pub trait Link: Clock {
    /// The bytes that the peer of the connection will still give, where the link tells them.
    ghost left: { Self → Option (List ℕ) };

    /// What was left when the link was last read, where it tells that.
    ghost left_at_read: { Self → Option (List ℕ) };

    /// What was written on the connection, where the link tells it.
    ghost written: { Self → Option (List ℕ) };

    /// The connections that were made, in order, where the link tells them.
    ghost connections: { Self → Option (List Connection) };

    /// How often it failed. The count never falls, and stands still at the last value of a `u64`.
    ghost faults: { Self → ℕ };

    /// Drops the connection and makes another, to this port.
    fn connect(&mut self, port: u16) -> Result<(), Failed>
        ensures ok { OnOk result
            (Connects port (connections self.old) (connections self.new) (left self.new) (written self.new)) }
        ensures err { OnErr result (StaySame (connections self.old) (connections self.new)) }
        ensures cause { HasCause (IsErr result) (faults self.old) (faults self.new) };

    /// Reads bytes into the slice, from its first place on, and says how many: 0 of a slice that isn't empty only at
    /// the end of what the peer gives. A read that failed gave nothing.
    fn read(&mut self, into: &mut [u8]) -> Result<usize, Failed>
        ensures bound { ReadsAtMost result into.new }
        ensures bytes { ReadConsumes (left self.old) (left self.new) result into.new }
        ensures last { left_at_read self.new ≡ left self.old }
        ensures written { Keeps (written self.old) (written self.new) }
        ensures connections { StaySame (connections self.old) (connections self.new) }
        ensures cause { HasCause (IsErr result) (faults self.old) (faults self.new) };

    /// Writes the whole piece. A write that failed has written a prefix of it.
    fn write(&mut self, bytes: &[u8]) -> Result<(), Failed>
        ensures ok { OnOk result (Appends (written self.old) (written self.new) bytes.now) }
        ensures err { OnErr result (AppendsPrefix (written self.old) (written self.new) bytes.now) }
        ensures connection { OnOk result (WritesOnLast bytes.now (connections self.old) (connections self.new)) }
        ensures partly { OnErr result (WritesPart bytes.now (connections self.old) (connections self.new)) }
        ensures left { Keeps (left self.old) (left self.new) }
        ensures cause { HasCause (IsErr result) (faults self.old) (faults self.new) };

    /// A call of the clock leaves the link as it was.
    ghost clock_is_apart: { (x y : Self) → Self.apart x y →
        (connections y ≡ connections x) × (faults y ≡ faults x) × (left y ≡ left x)
        × (left_at_read y ≡ left_at_read x) × (written y ≡ written x) };
}
