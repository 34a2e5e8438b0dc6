ghost use Rattle.std.specs.Prelude.{◌≡◌, ◌≢◌, ◌+◌, ◌<◌, ◌≤◌, ◌++◌, ℕ, List, Option, [], true, false, length, take};
ghost use Rattle.std.specs.Prelude.{slice_index_or, IfOk, OnOk, IsErrOf};
ghost use Rattle.std.specs.List.{AllByRecursion};
ghost use Rattle.irl_offer.specs.Buckets.{IsBucketCount, bucket_of as bucket_of_key};
ghost use Rattle.irl_offer.specs.Tuple.{Tuple};
ghost use Rattle.irl_offer.specs.declared.offer.Verdict.{Verdict as VerdictValue};
ghost use Rattle.irl_offer.specs.declared.receipt.Pair.{Pair as PairValue};
ghost use Rattle.irl_disk.specs.Disk.{ChangesFile};
ghost use Rattle.irl_disk.specs.Effects.{OnlyChanges, OnlyReads};
ghost use Rattle.irl_journal.specs.Blob.{KeepsFront};
ghost use Rattle.irl_merge.specs.declared.sweep.Sweep.{Sweep as SweepValue};
ghost use Rattle.irl_bay.specs.Faults.{NamesNone};

use irl_cache::{CacheReader, CacheWriter};
use irl_disk::Store;
use irl_merge::Sweep;
use irl_offer::{Entry, Fault, Pair, Rule, Verdict, bucket_of};
use std::alloc::Global;

/// The two sides of the cache while a merge goes through them: the live one is read block by block, the other written.
#[derive(Drop)]
pub struct Sides {
    pub alloc: Global,
    pub rule: Rule,
    pub buckets: u32,
    pub reader: CacheReader,
    /// How many pairs of the reader's block were fed to a sweep.
    pub fed: usize,
    pub writer: CacheWriter,
    /// What a sweep gives at a time.
    pub out: Vec<Pair>,
    ghost valid: { IsBucketCount buckets },
    ghost within: { fed ≤ length reader.block },
    ghost apart: { reader.file ≢ writer.out.file },
}

impl Sides {
    ghost use Rattle.irl_bay.specs.Sides.{AreHere, HasMerged, IsDone, IsSameCache, IsSweeping, IsSwept, Passes};
    ghost use Rattle.irl_bay.specs.Sides.{ReadsAndPuts, StaysSwept, rest_of};

    /// Judges a bucket's entries in one pass through its keys. The buckets are judged one after the other, the first
    /// first.
    pub fn sweep<S: Store>(
        &mut self,
        store: &mut S,
        b: u32,
        entries: &[Entry],
    ) -> Result<Vec<Option<Verdict>>, Fault>
        requires merged { (offers : List Tuple) × (verdicts : List (Option VerdictValue)) ×
            HasMerged b offers verdicts (S.told store.old).files self.old }
        requires entries { (news : List Tuple) × AreHere b self.old entries.now news }
        ensures merged { IfOk result (λ found.
            (offers : List Tuple) (verdicts : List (Option VerdictValue)) (news : List Tuple) →
            HasMerged b offers verdicts (S.told store.old).files self.old → AreHere b self.old entries.now news →
            HasMerged (b + 1) (offers ++ news) (verdicts ++ found.items) (S.told store.new).files self.new) }
        ensures count { IfOk result (λ found. length found.items ≡ length entries.now) }
        ensures passes { Passes result self.old self.new (S.told store.old) (S.told store.new) }
        ensures others { ReadsAndPuts self.old (IsErrOf result Fault.Failed) (S.told store.old) (S.told store.new) }
    {
        let mut sweep = Sweep::new(self.alloc, self.rule, entries)?;
        while self.feed(store, b, &mut sweep)? {}
        self.end(store, sweep)
    }

    // Feeds the piece of the block that is the bucket's. Answers whether the bucket may go on in a further block, which
    // is then read.
    fn feed<S: Store>(&mut self, store: &mut S, b: u32, sweep: &mut Sweep) -> Result<bool, Fault>
        requires sound { sweep.old.is_sound ≡ true }
        requires sweeping { IsSwept b (S.told store.old).files sweep.old self.old }
        ensures sweeping { OnOk result (StaysSwept b (S.told store.old).files sweep.old self.old
            (S.told store.new).files sweep.new self.new) }
        ensures more { IfOk result (λ more. more ≡ true → self.old.reader.given < self.new.reader.given) }
        ensures done { IfOk result (λ more. more ≡ false → IsDone b self.new) }
        ensures sound { OnOk result (sweep.new.is_sound ≡ true) }
        ensures passes { Passes result self.old self.new (S.told store.old) (S.told store.new) }
        ensures others { ReadsAndPuts self.old (IsErrOf result Fault.Failed) (S.told store.old) (S.told store.new) }
    {
        if self.feed_piece(store, b, sweep)? {
            self.next_block(store)
        } else {
            Ok(false)
        }
    }

    // The same, but for the further block: answers whether the block is used up.
    fn feed_piece<S: Store>(
        &mut self,
        store: &mut S,
        b: u32,
        sweep: &mut Sweep,
    ) -> Result<bool, Fault>
        requires sound { sweep.old.is_sound ≡ true }
        requires sweeping { IsSwept b (S.told store.old).files sweep.old self.old }
        ensures sweeping { OnOk result (StaysSwept b (S.told store.old).files sweep.old self.old
            (S.told store.new).files sweep.new self.new) }
        ensures used_up { IfOk result (λ is_used_up. is_used_up ≡ true → rest_of self.new ≡ []) }
        ensures done { IfOk result (λ is_used_up. is_used_up ≡ false → IsDone b self.new) }
        ensures sound { OnOk result (sweep.new.is_sound ≡ true) }
        ensures reader { self.new.reader ≡ self.old.reader }
        ensures same { IsSameCache self.old self.new }
        ensures refuses { NamesNone result }
        ensures changes { OnlyChanges (ChangesFile self.old.writer.out.file (KeepsFront 0))
            (IsErrOf result Fault.Failed) (S.told store.old) (S.told store.new) }
    {
        let rest = &self.reader.block()[self.fed..];
        let count = count_up_to(rest, self.buckets, b);
        let is_used_up = count == rest.len();
        self.out.clear();
        sweep.feed(&rest[..count], &mut self.out)?;
        self.writer.put_all(store, &self.out)?;
        self.fed += count;
        Ok(is_used_up)
    }

    // Reads the next block, once the one before it is used up. Answers whether there was one.
    fn next_block<S: Store>(&mut self, store: &mut S) -> Result<bool, Fault>
        requires used_up { rest_of self.old ≡ [] }
        requires sweeping { (b : ℕ) × (sweep : SweepValue) × IsSwept b (S.told store.old).files sweep self.old }
        ensures sweeping { OnOk result ((b : ℕ) (sweep : SweepValue) →
            StaysSwept b (S.told store.old).files sweep self.old (S.told store.new).files sweep self.new) }
        ensures more { IfOk result (λ more. more ≡ true → self.old.reader.given < self.new.reader.given) }
        ensures done { IfOk result (λ more. more ≡ false → (b : ℕ) → IsDone b self.new) }
        ensures writer { self.new.writer ≡ self.old.writer }
        ensures passes { Passes result self.old self.new (S.told store.old) (S.told store.new) }
        ensures reads { OnlyReads (λ f. f ≡ self.old.reader.file) (IsErrOf result Fault.Failed)
            (S.told store.old) (S.told store.new) }
    {
        self.fed = 0;
        Ok(self.reader.next_block(store)? > 0)
    }

    // Ends a bucket's sweep.
    fn end<S: Store>(&mut self, store: &mut S, sweep: Sweep) -> Result<Vec<Option<Verdict>>, Fault>
        requires sound { sweep.is_sound ≡ true }
        requires sweeping { (b : ℕ) × IsDone b self.old × IsSwept b (S.told store.old).files sweep self.old }
        ensures merged { IfOk result (λ found.
            (b : ℕ) (offers : List Tuple) (verdicts : List (Option VerdictValue)) (news : List Tuple) →
            IsDone b self.old → IsSweeping b offers verdicts news (S.told store.old).files sweep self.old →
            HasMerged (b + 1) (offers ++ news) (verdicts ++ found.items) (S.told store.new).files self.new) }
        ensures count { IfOk result (λ found.
            (b : ℕ) (offers : List Tuple) (verdicts : List (Option VerdictValue)) (news : List Tuple) →
            IsSweeping b offers verdicts news (S.told store.old).files sweep self.old →
            length found.items ≡ length news) }
        ensures reader { self.new.reader ≡ self.old.reader }
        ensures same { IsSameCache self.old self.new }
        ensures refuses { NamesNone result }
        ensures changes { OnlyChanges (ChangesFile self.old.writer.out.file (KeepsFront 0))
            (IsErrOf result Fault.Failed) (S.told store.old) (S.told store.new) }
    {
        self.out.clear();
        let verdicts = sweep.end(&mut self.out)?;
        self.writer.put_all(store, &self.out)?;
        Ok(verdicts)
    }
}

// How many of the first pairs are of this bucket or of one before it.
fn count_up_to(pairs: &[Pair], buckets: u32, b: u32) -> usize
    requires { IsBucketCount buckets }
    ensures within { result ≤ length pairs.now }
    ensures piece { AllByRecursion (λ pair. bucket_of_key buckets pair.key ≤ b) (take result pairs.now) }
    ensures next { (d : PairValue) → result < length pairs.now →
        b < bucket_of_key buckets (slice_index_or pairs.now result d).key }
{
    for (i, pair) in pairs.iter().enumerate() {
        if bucket_of(pair.key, buckets) > b {
            return i;
        }
    }
    pairs.len()
}
