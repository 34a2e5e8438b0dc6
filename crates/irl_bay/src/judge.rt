ghost use Rattle.std.specs.Prelude.{◌≡◌, ◌<◌, ◌*◌, ◌^◌, ℕ, List, Option, [], IfOk, OnOk, IsErr};
ghost use Rattle.std.specs.List.{AllByRecursion};
ghost use Rattle.std.specs.Option.{ForSome};
ghost use Rattle.irl_offer.specs.Tuple.{Tuple};
ghost use Rattle.irl_offer.specs.declared.offer.Verdict.{Verdict as VerdictValue};
ghost use Rattle.irl_disk.specs.Disk.{Files};
ghost use Rattle.irl_disk.specs.Effects.{OnlyChanges};
ghost use Rattle.irl_disk.specs.Taken.{TakesOf};
ghost use Rattle.irl_cache.specs.Reading.{read_of};
ghost use Rattle.irl_journal.specs.Growing.{ReachesPlace};
ghost use Rattle.irl_bay.specs.Drum.{IsDrum, bucket_at, cache_front, durables, pending_at};
ghost use Rattle.irl_bay.specs.Holding.{IsLong};
ghost use Rattle.irl_bay.specs.Judging.{HasJudged, Judges, batch_of};
ghost use Rattle.irl_bay.specs.Merging.{IsJudged, IsSynced, KeepsCommitted};
ghost use Rattle.irl_bay.specs.Pending.{ReadsPending, ReadsTexts};
ghost use Rattle.irl_bay.specs.Sides.{AreUnread, HasMerged, IsSidesOf};
ghost use Rattle.irl_bay.specs.Telling.{HasTold, IsTellingOf};

use crate::bay::Bay;
use crate::pending::Pending;
use crate::sides::Sides;
use crate::telling::Telling;
use irl_cache::{CacheReader, CacheWriter};
use irl_disk::{Failed, Store};
use irl_journal::FileWriter;
use irl_layout::{BayFile, Commit};
use irl_offer::Fault;
use std::alloc::AllocError;

impl Bay {
    /// Judges the pending offers, bucket 0 first, in one pass through the live cache side. It writes the other side, and
    /// the judged entries and their texts behind what is committed of them, and syncs the three files. Gives the commit
    /// that is to be appended to the manifest.
    pub(crate) fn judge<S: Store>(&self, store: &mut S) -> Result<Commit, Fault>
        requires { ForSome (S.told store.old).files (λ files. IsLong self.now files) }
        ensures judged { IfOk result (IsJudged self.now (S.told store.old) (S.told store.new)) }
        ensures judges { Judges result self.now (S.told store.old) (S.told store.new) }
        // Each key of the live cache side is read once.
        ensures read { OnOk result (TakesOf (cache_front self.now).file (16 * self.now.last.entries)
            (S.told store.old).taken (S.told store.new).taken) }
    {
        let cut = self.lengths()?;
        let mut sides = self.sides()?;
        let mut telling = self.telling()?;
        self.judge_buckets(store, &mut sides, &mut telling)?;
        Ok(self.sync_outputs(store, sides, telling, cut)?)
    }

    // Judges the pending offers of each bucket.
    fn judge_buckets<S: Store>(
        &self,
        store: &mut S,
        sides: &mut Sides,
        telling: &mut Telling,
    ) -> Result<(), Fault>
        requires sides { AreUnread self.now sides.old }
        requires telling { HasTold self.now [] [] (S.told store.old).files telling.old }
        requires long { ForSome (S.told store.old).files (λ files. IsLong self.now files) }
        ensures judged { OnOk result (HasJudged self.now self.now.settings.buckets (S.told store.old)
            (S.told store.new).files sides.new telling.new) }
        ensures judges { Judges result self.now (S.told store.old) (S.told store.new) }
        ensures read { OnOk result (TakesOf (cache_front self.now).file (16 * read_of sides.new.reader)
            (S.told store.old).taken (S.told store.new).taken) }
    {
        for b in 0..self.settings.buckets {
            let pending = self.pending_of(store, b)?;
            let verdicts = sides.sweep(store, b, pending.entries())?;
            // The texts don't wait in memory while the bucket is swept.
            let texts = self.pending_texts_of(store, b)?;
            telling.tell(store, b, pending.entries(), &texts, &verdicts)?;
        }
        Ok(())
    }

    // The sides of the cache, of which nothing is read or written yet.
    fn sides(&self) -> Result<Sides, AllocError>
        ensures { IfOk result (AreUnread self.now) }
    {
        let from = BayFile::Cache(self.last.side).number(self.base);
        let to = BayFile::Cache(1 - self.last.side).number(self.base);
        let block = self.settings.block;
        Ok(Sides {
            alloc: self.alloc,
            rule: self.settings.rule,
            buckets: self.settings.buckets,
            reader: CacheReader::new(self.alloc, from, self.last.entries, block)?,
            fed: 0,
            writer: CacheWriter::new(self.alloc, to, block)?,
            out: Vec::new(self.alloc),
        })
    }

    // The files of what is judged, to which nothing is written yet.
    fn telling(&self) -> Result<Telling, AllocError>
        ensures { IfOk result (λ telling. (told : Option Files) → ForSome told (λ files. IsLong self.now files) →
            HasTold self.now [] [] told telling) }
    {
        let judged = BayFile::Judged.number(self.base);
        let texts = BayFile::Texts.number(self.base);
        Ok(Telling {
            alloc: self.alloc,
            judged: FileWriter::at(self.alloc, judged, 48 * self.last.judged)?,
            texts: FileWriter::at(self.alloc, texts, self.last.texts)?,
            place: self.last.texts,
            unique: self.last.unique,
        })
    }

    // Syncs the three files once all offers are judged.
    fn sync_outputs<S: Store>(
        &self,
        store: &mut S,
        sides: Sides,
        telling: Telling,
        cut: Vec<u64>,
    ) -> Result<Commit, Failed>
        requires cut { cut.items ≡ durables self.now }
        requires sides { IsSidesOf self.now sides }
        requires telling { IsTellingOf self.now telling }
        requires keys { ForSome (S.told store.old).files (ReachesPlace sides.writer.out) }
        requires judged { ForSome (S.told store.old).files (ReachesPlace telling.judged) }
        requires texts { ForSome (S.told store.old).files (ReachesPlace telling.texts) }
        ensures synced { IfOk result (λ next. (b : ℕ) (offers : List Tuple) (verdicts : List (Option VerdictValue))
            (merged : HasMerged b offers verdicts (S.told store.old).files sides) →
            HasTold self.now offers verdicts (S.told store.old).files telling →
            IsSynced self.now (batch_of self.now merged.put offers verdicts) (S.told store.old)
            (S.told store.new) next) }
        ensures others { OnlyChanges (KeepsCommitted self.now) (IsErr result) (S.told store.old) (S.told store.new) }
    {
        let Sides { writer, .. } = sides;
        let Telling {
            judged,
            texts,
            unique,
            ..
        } = telling;
        let entries = writer.finish(store)?;
        let judged = judged.finish(store)?;
        let texts = texts.finish(store)?;
        numbers_fit(&cut);
        Ok(Commit {
            side: 1 - self.last.side,
            live: Some(1 - self.last.live_side()),
            entries,
            judged: judged / 48,
            unique,
            texts,
            cut,
        })
    }

    // The offers of a bucket that are not judged, in order, without their texts.
    fn pending_of<S: Store>(&self, store: &mut S, b: u32) -> Result<Pending, Fault>
        requires bucket { b < self.now.settings.buckets }
        ensures { ReadsPending result self.now.settings b (bucket_at self.now b) (pending_at self.now b)
            (S.told store.old) (S.told store.new) }
    {
        let bucket = &self.buckets[b as usize];
        bucket.pending(self.alloc, store, &self.settings, b, self.pending(b))
    }

    // The texts of those offers, one behind the other.
    fn pending_texts_of<S: Store>(&self, store: &mut S, b: u32) -> Result<Vec<u8>, Fault>
        requires bucket { b < self.now.settings.buckets }
        requires long { ForSome (S.told store.old).files (λ files. IsLong self.now files) }
        ensures { ReadsTexts result (bucket_at self.now b) (S.told store.old) (S.told store.new) }
    {
        self.buckets[b as usize].pending_texts(self.alloc, store)
    }

    // How many offers each bucket has.
    fn lengths(&self) -> Result<Vec<u64>, AllocError>
        ensures lengths { IfOk result (λ lengths. lengths.items ≡ durables self.now) }
        // What holds of every open bay, for who reads none of its fields.
        ensures drum { IsDrum self.now }
    {
        self.buckets
            .iter()
            .map(|bucket| bucket.durable)
            .collect(self.alloc)
    }
}

// Numbers of 64 bits are below 2 ^ 64, which their list alone doesn't tell.
fn numbers_fit(numbers: &[u64])
    ensures { AllByRecursion (λ n. n < 2 ^ 64) numbers.now }
{
    let _numbers = numbers;
}
