ghost use Rattle.std.specs.Prelude.{◌≡◌, ◌≢◌, ◌⊎◌, ◌<◌, ◌++◌, ℕ, List, Option, length, count_by, OnOk, IsErrOf};
ghost use Rattle.std.specs.List.{AllByRecursion};
ghost use Rattle.std.specs.Option.{ForSome};
ghost use Rattle.irl_offer.specs.Buckets.{bucket_of};
ghost use Rattle.irl_offer.specs.Tuple.{Tuple};
ghost use Rattle.irl_offer.specs.declared.offer.Verdict.{Verdict as VerdictValue};
ghost use Rattle.irl_model.specs.Book.{is_unique as is_unique_of};
ghost use Rattle.irl_disk.specs.Disk.{ChangesFile, ChangesOnly};
ghost use Rattle.irl_disk.specs.Effects.{OnlyChanges};
ghost use Rattle.irl_journal.specs.Blob.{KeepsFront};
ghost use Rattle.irl_journal.specs.Growing.{HasPut, ReachesPlace};
ghost use Rattle.irl_bay.specs.Drum.{Drum};
ghost use Rattle.irl_bay.specs.Faults.{NamesNone};
ghost use Rattle.irl_layout.specs.JudgedEntries.{rows};
ghost use Rattle.irl_bay.specs.Merging.{Writes};
ghost use Rattle.irl_bay.specs.Pending.{AreOffersOf};

use irl_disk::Store;
use irl_journal::FileWriter;
use irl_layout::push_judged;
use irl_offer::{Entry, Fault, Verdict};
use std::alloc::Global;

/// The files of what is judged, while a merge writes behind what is committed of them.
#[derive(Drop)]
pub struct Telling {
    pub alloc: Global,
    pub judged: FileWriter,
    pub texts: FileWriter,
    /// Where the next text stands, in the 64 bits that an entry has for it.
    pub place: u64,
    /// How many offers were judged Unique. It stands still at its last value.
    pub unique: u64,
    ghost apart: { judged.file ≢ texts.file },
}

impl Telling {
    ghost use Rattle.irl_bay.specs.Telling.{HasTold, IsTellingOf};

    /// Puts the entries and the texts of a bucket's offers, on which these are the verdicts.
    pub fn tell<S: Store>(
        &mut self,
        store: &mut S,
        b: u32,
        entries: &[Entry],
        texts: &[u8],
        verdicts: &[Option<Verdict>],
    ) -> Result<(), Fault>
        requires bucket { b < 256 }
        requires count { length verdicts.now ≡ length entries.now }
        requires judged { ForSome (S.told store.old).files (ReachesPlace self.old.judged) }
        requires texts { ForSome (S.told store.old).files (ReachesPlace self.old.texts) }
        ensures told { OnOk result ((drum : Drum) (offers : List Tuple) (before : List (Option VerdictValue))
            (news : List Tuple) → HasTold drum offers before (S.told store.old).files self.old →
            AreOffersOf news entries.now texts.now →
            AllByRecursion (λ offer. bucket_of drum.settings.buckets offer.key ≡ b) news →
            HasTold drum (offers ++ news) (before ++ verdicts.now) (S.told store.new).files self.new) }
        ensures refuses { NamesNone result }
        ensures step { (drum : Drum) → IsTellingOf drum self.old →
            Writes drum (S.told store.old) (S.told store.new) }
        ensures others { OnlyChanges (ChangesOnly (λ f. (f ≡ self.old.judged.file) ⊎ (f ≡ self.old.texts.file)))
            (IsErrOf result Fault.Failed) (S.told store.old) (S.told store.new) }
    {
        self.put_rows(store, b, entries, verdicts)?;
        self.texts.put(store, texts)?;
        self.place = self.place.wrapping_add(texts.len() as u64);
        self.unique = self.unique.saturating_add(count_unique(verdicts));
        Ok(())
    }

    // Puts the entries of a bucket's judged offers one by one, through one small buffer. The text of the first is to
    // stand at `place`.
    fn put_rows<S: Store>(
        &mut self,
        store: &mut S,
        b: u32,
        entries: &[Entry],
        verdicts: &[Option<Verdict>],
    ) -> Result<(), Fault>
        requires bucket { b < 256 }
        requires count { length verdicts.now ≡ length entries.now }
        requires long { ForSome (S.told store.old).files (ReachesPlace self.old.judged) }
        ensures put { OnOk result ((bytes : List ℕ) → HasPut (S.told store.old).files bytes self.old.judged →
            HasPut (S.told store.new).files (bytes ++ rows self.old.place b entries.now verdicts.now)
            self.new.judged) }
        ensures file { self.new.judged.file ≡ self.old.judged.file }
        ensures kept { self.new.judged.kept ≡ self.old.judged.kept }
        ensures texts { self.new.texts ≡ self.old.texts }
        ensures place { self.new.place ≡ self.old.place }
        ensures unique { self.new.unique ≡ self.old.unique }
        ensures refuses { NamesNone result }
        ensures changes { OnlyChanges (ChangesFile self.old.judged.file (KeepsFront self.old.judged.kept))
            (IsErrOf result Fault.Failed) (S.told store.old) (S.told store.new) }
    {
        let mut row = Vec::with_capacity(self.alloc, 48)?;
        let mut next = self.place;
        for (i, entry) in entries.iter().enumerate() {
            row.clear();
            push_judged(&mut row, next, b, entry, verdicts[i])?;
            self.judged.put(store, &row)?;
            next = next.wrapping_add(u64::from(entry.aux_len));
        }
        Ok(())
    }
}

// How many of these are verdicts on keys that were absent.
fn count_unique(verdicts: &[Option<Verdict>]) -> u64
    ensures { result ≡ count_by is_unique_of verdicts.now }
{
    verdicts
        .iter()
        .filter(|verdict| is_unique(**verdict))
        .count() as u64
}

// Whether this is the verdict on a key that was absent.
fn is_unique(verdict: Option<Verdict>) -> bool
    ensures { result ≡ is_unique_of verdict }
{
    matches!(verdict, Some(Verdict::Unique))
}
