ghost use Rattle.std.specs.Prelude.{◌≡◌, ◌+◌, ◌≤◌, ◌<◌, ℕ, length as list_length, take, drop, IfOk, IsErrOf};
ghost use Rattle.std.specs.Option.{ForSome};
ghost use Rattle.irl_disk.specs.Effects.{OnlyReads};
ghost use Rattle.irl_base.specs.Faults.{HasCause};

use crate::blob::Blob;
use irl_base::Fault;
use irl_disk::Store;
use std::alloc::Global;

/// So many bytes of a file from a place on, of which there are as many.
pub fn read_part<S: Store>(
    alloc: Global,
    store: &mut S,
    file: u16,
    at: u64,
    length: u64,
) -> Result<Vec<u8>, Fault>
    requires file { file < 10000 }
    requires long { ForSome (S.told store.old).files (λ files. at + length ≤ list_length (files file)) }
    ensures size { IfOk result (λ part. list_length part.items ≡ length) }
    ensures bytes { IfOk result (λ part. ForSome (S.told store.old).files (λ files.
        part.items ≡ take length (drop at (files file)))) }
    // A store that tells has the bytes.
    ensures damaged { (f place : ℕ) → IsErrOf result (Fault.Damaged f place) →
        ForSome (S.told store.old).files (λ files. ⊥) }
    ensures full { (n : ℕ) → IsErrOf result (Fault.Full n) → ⊥ }
    ensures reads { OnlyReads (λ f. f ≡ file) (IsErrOf result Fault.Failed) (S.told store.old) (S.told store.new) }
{
    let mut part = vec![in alloc; 0; length as usize]?;
    if Blob::at(file, 0).read(store, at, &mut part)? {
        Ok(part)
    } else {
        Err(Fault::Damaged(file, at))
    }
}
