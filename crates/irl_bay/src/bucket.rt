ghost use Rattle.std.specs.Prelude.{◌≡◌, ◌≤◌, ◌<◌, ℕ, [], length, IfOk, OnOk, IsErr};
ghost use Rattle.std.specs.Option.{ForSome};
ghost use Rattle.irl_disk.specs.Disk.{Changes, ChangesFile, Scribbled};
ghost use Rattle.irl_disk.specs.Effects.{OnlyChanges};
ghost use Rattle.irl_layout.specs.BayFiles.{file_of, max_base};
ghost use Rattle.irl_layout.specs.declared.files.BayFile.TheVariants.{Journal as JournalFile};
ghost use Rattle.irl_bay.specs.Holding.{HoldsBucket};
ghost use Rattle.irl_bay.specs.Merging.{emptied};

use irl_disk::{Failed, Store};
use irl_journal::{Blob, Journal};
use irl_layout::BayFile;

/// A bucket's two files on the live side, and where in them the first offer stands that isn't judged.
#[derive(Drop)]
pub struct Bucket {
    pub journal: Journal,
    pub aux: Blob,
    /// The number of the first offer that the files have.
    pub start: u64,
    /// How many offers the bucket has, those before that one too.
    pub durable: u64,
    /// The place of the gate of the record with the first pending offer, or of the closed gate.
    pub gate: u64,
    /// How many offers of that record are judged.
    pub skip: u64,
    /// The place of that offer's text, or the end of the texts.
    pub text: u64,
}

impl Bucket {
    /// Makes a bucket's files without offers on a side, in which the first offer is to have the number `start`: writes
    /// the closed gate of the journal and syncs it.
    pub fn make<S: Store>(
        store: &mut S,
        base: u16,
        side: u8,
        b: u32,
        start: u64,
    ) -> Result<Bucket, Failed>
        requires base { base ≤ max_base }
        requires side { side ≤ 1 }
        requires bucket { b < 64 }
        requires short { ForSome (S.told store.old).files (λ files.
            length (files (file_of base 0 (JournalFile side b))) ≤ 1) }
        ensures bucket { IfOk result (λ bucket. bucket ≡ emptied base side b start) }
        ensures holds { IfOk result (λ bucket. (array : ℕ) →
            HoldsBucket (S.told store.new).images array 0 bucket []) }
        ensures ok { OnOk result (Changes (file_of base 0 (JournalFile side b)) (λ _ new. length new ≡ 1)
            (S.told store.old).files (S.told store.new).files) }
        ensures changes { OnlyChanges (ChangesFile (file_of base 0 (JournalFile side b)) (Scribbled 0 1))
            (IsErr result) (S.told store.old) (S.told store.new) }
    {
        let journal = Journal::make(store, BayFile::Journal(side, b).number(base))?;
        Ok(Bucket {
            journal,
            aux: Blob::at(BayFile::Aux(side, b).number(base), 0),
            start,
            durable: start,
            gate: 0,
            skip: 0,
            text: 0,
        })
    }
}
