ghost use Rattle.std.specs.Prelude.{◌≡◌, ◌⊎◌, ◌<◌, ◌≤◌, ◌^◌, ℕ, length as len, take, IfOk, OnOk, IfSome};
ghost use Rattle.std.specs.Prelude.{IsNone, IsErr, IsErrOf};
ghost use Rattle.std.specs.Option.{ForSome};
ghost use Rattle.irl_base.specs.Faults.{HasCause};
ghost use Rattle.irl_offer.specs.Settings.{AreValid};
ghost use Rattle.irl_base.specs.declared.fault.Fault.TheVariants.{Failed as FailedFault, Memory as MemoryFault};
ghost use Rattle.irl_base.specs.declared.fault.Fault.TheVariants.{Full as FullFault, Damaged as DamagedFault};
ghost use Rattle.irl_disk.specs.Disk.{ChangesFile};
ghost use Rattle.irl_disk.specs.Effects.{OnlyReads, ReadsAndChanges};
ghost use Rattle.irl_journal.specs.Blob.{IsCommitted};
ghost use Rattle.irl_journal.specs.Visiting.{IsOpened};
ghost use Rattle.irl_layout.specs.BayFiles.{file_of, max_base};
ghost use Rattle.irl_layout.specs.declared.files.BayFile.TheVariants.{Journal as JournalFile, Aux as AuxFile};
ghost use Rattle.irl_bay.specs.Damage.{IsDamagedBucket, IsShort};
ghost use Rattle.irl_bay.specs.Faults.{fault_of};
ghost use Rattle.irl_bay.specs.Opening.{OpensBucket, Refuses};

use crate::bucket::Bucket;
use crate::found::Found;
use crate::tally::TallyVisitor;
use irl_disk::{Failed, Store};
use irl_journal::{Blob, Journal, JournalFault};
use irl_layout::{BayFile, Live};
use irl_offer::{Fault, Settings};
use std::alloc::Global;

/// What a journal was refused with, as a fault of its file.
pub fn fault_in(f: u16, fault: JournalFault) -> Fault
    ensures { result ≡ fault_of f fault }
{
    match fault {
        JournalFault::Failed => Fault::Failed,
        JournalFault::Memory => Fault::Memory,
        JournalFault::Damaged(at) => Fault::Damaged(f, at),
    }
}

/// A blob of a file of which so many bytes are committed. The file is damaged where it ends before. It is synced, and
/// nothing of it is read.
pub fn open_blob<S: Store>(store: &mut S, f: u16, length: u128) -> Result<Blob, Fault>
    requires { f < 10000 }
    ensures blob { IfOk result (λ blob. blob ≡ record { file = f; length = length }) }
    ensures fits { OnOk result (length < 2 ^ 64) }
    ensures long { OnOk result (ForSome (S.told store.old).files (λ files. length ≤ len (files f))) }
    ensures committed { IfOk result (λ blob. ForSome (S.told store.old).files (λ files.
        IsCommitted (S.told store.new).images blob (take length (files f)))) }
    ensures damaged { (g at : ℕ) → IsErrOf result (Fault.Damaged g at) → (g ≡ f)
        × ForSome (S.told store.old).files (λ files. IsShort length (files f) at) }
    ensures full { (n : ℕ) → IsErrOf result (Fault.Full n) → ⊥ }
    ensures reads { OnlyReads (λ _. ⊥) (IsErrOf result Fault.Failed) (S.told store.old) (S.told store.new) }
{
    match find_blob(store, f, length)? {
        Some(blob) => Ok(blob),
        None => Err(Fault::Damaged(f, store.length(f)?)),
    }
}

// The same, or none where the file is shorter, or no file is as long.
fn find_blob<S: Store>(store: &mut S, f: u16, length: u128) -> Result<Option<Blob>, Failed>
    requires { f < 10000 }
    ensures blob { IfOk result (λ found. IfSome found (λ blob. blob ≡ record { file = f; length = length })) }
    ensures fits { IfOk result (λ found. IfSome found (λ _. length < 2 ^ 64)) }
    ensures long { IfOk result (λ found. IfSome found (λ _. ForSome (S.told store.old).files (λ files.
        length ≤ len (files f)))) }
    ensures committed { IfOk result (λ found. IfSome found (λ blob. ForSome (S.told store.old).files (λ files.
        IsCommitted (S.told store.new).images blob (take length (files f))))) }
    ensures short { IfOk result (λ found. IsNone found → (2 ^ 64 ≤ length)
        ⊎ ForSome (S.told store.old).files (λ files. len (files f) < length)) }
    ensures reads { OnlyReads (λ _. ⊥) (IsErr result) (S.told store.old) (S.told store.new) }
{
    match u64::try_from(length) {
        Ok(length) => Blob::open(store, f, length),
        Err(_) => Ok(None),
    }
}

impl Bucket {
    /// Opens a bucket's two live files. It syncs both, and reads the journal.
    pub fn adopt<S: Store>(
        alloc: Global,
        store: &mut S,
        base: u16,
        settings: &Settings,
        b: u32,
        live: Live,
    ) -> Result<Bucket, Fault>
        requires base { base ≤ max_base }
        requires settings { AreValid settings.now }
        requires bucket { b < 64 }
        requires side { live.side ≤ 1 }
        ensures opened { IfOk result (OpensBucket base settings.now b live (S.told store.old) (S.told store.new)) }
        ensures refused { Refuses result (S.told store.old).files (IsDamagedBucket base live.side settings.now b) }
        ensures changes { ReadsAndChanges (λ f. f ≡ file_of base 0 (JournalFile live.side b))
            (ChangesFile (file_of base 0 (JournalFile live.side b)) IsOpened) (IsErrOf result Fault.Failed)
            (S.told store.old) (S.told store.new) }
    {
        let mut tally = TallyVisitor {
            settings: *settings,
            bucket: b,
            cut: live.judged,
            found: Found::nothing(),
            run: Vec::new(alloc),
        };
        let f = BayFile::Journal(live.side, b).number(base);
        let journal = match Journal::visit(alloc, store, f, &mut tally) {
            Ok(journal) => journal,
            Err(fault) => return Err(fault_in(f, fault)),
        };
        let end = journal.end();
        let aux = open_blob(
            store,
            BayFile::Aux(live.side, b).number(base),
            tally.found.texts,
        )?;
        let found = tally.found;
        let (gate, skip, text) = found.first_pending(live.judged, end, aux.length());
        Ok(Bucket {
            journal,
            aux,
            start: live.start,
            durable: live.start.saturating_add(found.count),
            gate,
            skip,
            text,
        })
    }
}

impl Found {
    // Where the first offer stands that isn't judged, or the ends of the journal and of the texts: the gate of its
    // record, how many of the record's offers are judged, and the place of its text.
    fn first_pending(&self, cut: u64, end: u64, length: u64) -> (u64, u64, u64)
        requires { cut < self.now.count → self.now.text < 2 ^ 64 }
        ensures pending { cut < self.now.count → (result.0 ≡ self.now.gate) × (result.1 ≡ self.now.skip)
            × (result.2 ≡ self.now.text) }
        ensures none { self.now.count ≤ cut → (result.0 ≡ end) × (result.1 ≡ 0) × (result.2 ≡ length) }
    {
        if cut < self.count {
            (self.gate, self.skip, self.text as u64)
        } else {
            (end, 0, length)
        }
    }
}
