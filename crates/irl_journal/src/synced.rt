ghost use Rattle.std.specs.Prelude.{◌<◌, ◌≤◌, length as len};
ghost use Rattle.std.specs.Option.{ForSome};
ghost use Rattle.irl_disk.specs.Disk.{Scribbled};
ghost use Rattle.irl_journal.specs.Synced.{WritesSynced};

use irl_disk::{Failed, Store};

// Writes bytes at a place of a file, and syncs the file.
pub fn write_synced<S: Store>(store: &mut S, f: u16, at: u64, bytes: &[u8]) -> Result<(), Failed>
    requires file { f < 10000 }
    requires place { ForSome (S.told store.old).files (λ files. at ≤ len (files f)) }
    ensures { WritesSynced result f at bytes.now (Scribbled at (len bytes.now)) (S.told store.old) (S.told store.new) }
{
    store.write(f, at, bytes)?;
    store.sync(f)
}
