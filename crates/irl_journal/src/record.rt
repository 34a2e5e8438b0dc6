ghost use Rattle.std.specs.Prelude.{◌≡◌, ◌<◌, ◌++◌, ◌∷◌, List, ℕ, length, IfOk, IsErrOf};
ghost use Rattle.std.specs.Option.{ForSome};
ghost use Rattle.irl_disk.specs.Effects.{OnlyReads};
ghost use Rattle.irl_journal.specs.Format.{StandsAt, records_text};
ghost use Rattle.irl_journal.specs.Appending.{Ends};

use crate::blob::Blob;
use crate::fault::JournalFault;
use crate::format::payload_length;
use crate::journal::Journal;
use irl_disk::Store;
use std::alloc::Global;

impl Journal {
    /// The payload of one record, by the place of its gate. It changes nothing. Where no whole open record stands there
    /// within the journal's end, that place is damaged.
    pub fn record<S: Store>(
        &self,
        alloc: Global,
        store: &mut S,
        at: u64,
    ) -> Result<Vec<u8>, JournalFault>
        requires { at < self.now.end }
        ensures found { IfOk result (λ payload. ForSome (S.told store.old).files (λ files.
            StandsAt at self.now.end (files self.now.file) payload.items)) }
        // Where the file has these records, it is the one whose gate stands there.
        ensures one { IfOk result (λ payload. ForSome (S.told store.old).files (λ files. (first more : List (List ℕ))
            (one : List ℕ) → Ends self.now.end (files self.now.file) (first ++ one ∷ more) →
            at ≡ length (records_text first) → payload.items ≡ one)) }
        ensures damaged { (place : ℕ) → IsErrOf result (JournalFault.Damaged place) → (place ≡ at)
            × ForSome (S.told store.old).files (λ files. (payload : List ℕ) →
            StandsAt at self.now.end (files self.now.file) payload → ⊥) }
        ensures reads { OnlyReads (λ f. f ≡ self.now.file) (IsErrOf result JournalFault.Failed)
            (S.told store.old) (S.told store.new) }
    {
        let blob = Blob::at(self.file(), 0);
        let mut front = [0; 5];
        if !blob.read(store, at, &mut front)? {
            return Err(JournalFault::Damaged(at));
        }
        let Some(length) = payload_length(&front) else {
            return Err(JournalFault::Damaged(at));
        };
        if 5 + u64::from(length) > self.end() - at {
            return Err(JournalFault::Damaged(at));
        }
        let mut payload = vec![in alloc; 0; length as usize]?;
        if !blob.read(store, at + 5, &mut payload)? {
            return Err(JournalFault::Damaged(at));
        }
        Ok(payload)
    }
}
