ghost use Rattle.std.specs.Prelude.{◌≡◌, ◌+◌, ◌^◌, ◌<◌, ◌≤◌, Bool, List, ℕ, Option};
ghost use Rattle.std.specs.Prelude.{length, is_ok, OnOk, OnErr, IfOk, IfSome, IsErr};
ghost use Rattle.std.specs.Option.{ForSome};
ghost use Rattle.irl_base.specs.Faults.{HasCause};
ghost use Rattle.irl_disk.specs.DeviceCall.{DeviceCall, Length, Read, Write, Cut, Sync};
ghost use Rattle.irl_disk.specs.Disk.{Files, Changes, ChangesFile, Holds, Scribbled, IsPrefix, PartlyCut, Reads};
ghost use Rattle.irl_disk.specs.Images.{Told, IsConsistent, LeavesBy, LeavesSame};
ghost use Rattle.irl_disk.specs.Taken.{Takes};

/// The store failed, and its count of faults rose.
#[derive(Clone, Copy, Debug, PartialEq, Eq)]
pub struct Failed;

/// Files numbered from 0 to 9,999, each a list of bytes. A file that was never written has length 0.
///
/// A stop ends the program at any moment, inside a call too. Between two syncs of a file a stop may leave any bytes in the
/// ranges that were written and past the synced length, and any length from the least to the greatest since; after a sync
/// it leaves what a read gives. Nobody else writes the files.
pub trait Store {
    /// What the store tells now: its files, what a stop may leave of them, what reads took of each, and how often it failed.
    ghost told: { Self → Told };

    /// What an implementation says besides of a call, by whether it answered Ok. As it stands it says nothing.
    ghost logs: { DeviceCall → Bool → Self → Self → Type 0 } = { λ _ _ _ _. Unit {0} };

    /// The length of a file, in bytes.
    fn length(&mut self, f: u16) -> Result<u64, Failed>
        requires { f < 10000 }
        ensures value { IfOk result (λ n. IfSome (told self.old).files (λ files. n ≡ length (files f))) }
        ensures same { (told self.new).files ≡ (told self.old).files }
        ensures stops { LeavesSame (told self.old) (told self.new) }
        ensures taken { (told self.new).taken ≡ (told self.old).taken }
        ensures cause { HasCause (IsErr result) (told self.old).faults (told self.new).faults }
        ensures logs { logs (Length f) (is_ok result) self.old self.new };

    /// Reads from a place: the lesser of the slice's length and what the file has from there. A read that would carry the
    /// count of bytes past 2 ^ 64 - 1 fails.
    fn read(&mut self, f: u16, at: u64, into: &mut [u8]) -> Result<usize, Failed>
        requires file { f < 10000 }
        requires place { ForSome (told self.old).files (λ files. at ≤ length (files f)) }
        ensures within { IfOk result (λ n. (n ≤ length into.new) × (at + n < 2 ^ 64)) }
        ensures bytes { IfOk result (λ n. IfSome (told self.old).files (λ files.
            Reads at (length into.new) n into.new (files f))) }
        ensures same { (told self.new).files ≡ (told self.old).files }
        ensures stops { LeavesSame (told self.old) (told self.new) }
        ensures taken { IfOk result (λ n. Takes f n (told self.old).taken (told self.new).taken) }
        ensures taken_err { OnErr result ((told self.new).taken ≡ (told self.old).taken) }
        ensures cause { HasCause (IsErr result) (told self.old).faults (told self.new).faults }
        ensures logs { logs (Read f at (length into.new)) (is_ok result) self.old self.new };

    /// Writes over what is there, and past the end. A write that failed leaves any bytes in its range. Until a sync a stop
    /// may leave any bytes there.
    fn write(&mut self, f: u16, at: u64, bytes: &[u8]) -> Result<(), Failed>
        requires file { f < 10000 }
        requires place { ForSome (told self.old).files (λ files. at ≤ length (files f)) }
        ensures within { OnOk result (at + length bytes.now < 2 ^ 64) }
        ensures ok { OnOk result (Changes f (Holds at bytes.now) (told self.old).files (told self.new).files) }
        ensures err { OnErr result (Changes f (Scribbled at (length bytes.now))
            (told self.old).files (told self.new).files) }
        ensures stops { LeavesBy (ChangesFile f (Scribbled at (length bytes.now)))
            (told self.old) (told self.new) }
        ensures taken { (told self.new).taken ≡ (told self.old).taken }
        ensures cause { HasCause (IsErr result) (told self.old).faults (told self.new).faults }
        ensures logs { logs (Write f at bytes.now) (is_ok result) self.old self.new };

    /// Cuts a file to a length. A cut that failed leaves any length between, and so may a stop until a sync.
    fn cut(&mut self, f: u16, to: u64) -> Result<(), Failed>
        requires file { f < 10000 }
        requires place { ForSome (told self.old).files (λ files. to ≤ length (files f)) }
        ensures ok { OnOk result (Changes f (IsPrefix to) (told self.old).files (told self.new).files) }
        ensures err { OnErr result (Changes f (PartlyCut to) (told self.old).files (told self.new).files) }
        ensures stops { LeavesBy (ChangesFile f (PartlyCut to)) (told self.old) (told self.new) }
        ensures taken { (told self.new).taken ≡ (told self.old).taken }
        ensures cause { HasCause (IsErr result) (told self.old).faults (told self.new).faults }
        ensures logs { logs (Cut f to) (is_ok result) self.old self.new };

    /// Makes a file's bytes last: from then on a stop leaves what a read gives. It changes nothing that a read gives. A sync
    /// that failed leaves unsynced what was.
    fn sync(&mut self, f: u16) -> Result<(), Failed>
        requires { f < 10000 }
        ensures durable { OnOk result (ForSome (told self.old).files (λ files.
            (image : Files) → (told self.new).images image → image f ≡ files f)) }
        ensures same { (told self.new).files ≡ (told self.old).files }
        ensures stops { LeavesSame (told self.old) (told self.new) }
        ensures taken { (told self.new).taken ≡ (told self.old).taken }
        ensures cause { HasCause (IsErr result) (told self.old).faults (told self.new).faults }
        ensures logs { logs (Sync f) (is_ok result) self.old self.new };

    /// What holds of it, whatever the store tells.
    ghost is_consistent: { (store : Self) → IsConsistent (told store) };
}
