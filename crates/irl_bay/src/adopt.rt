ghost use Rattle.std.specs.Prelude.{◌≡◌, ◌<◌, ◌≤◌, ◌^◌, ◌*◌, ℕ, List, map, true, length};
ghost use Rattle.std.specs.Prelude.{slice_index_or, IfOk, OnOk, IsErrOf};
ghost use Rattle.std.specs.Option.{ForSome};
ghost use Rattle.irl_base.specs.Faults.{HasCause};
ghost use Rattle.irl_offer.specs.Settings.{AreValid};
ghost use Rattle.irl_base.specs.declared.fault.Fault.TheVariants.{Failed as FailedFault, Full as FullFault};
ghost use Rattle.irl_base.specs.declared.fault.Fault.TheVariants.{Damaged as DamagedFault};
ghost use Rattle.irl_disk.specs.Effects.{OnlyReads, ReadsAndChanges};
ghost use Rattle.irl_journal.specs.Appending.{Ends};
ghost use Rattle.irl_layout.specs.BayFiles.{max_base};
ghost use Rattle.irl_layout.specs.Commits.{Commit as CommitValue, IsCommit, commit_bytes, first_commit, last_commit};
ghost use Rattle.irl_layout.specs.Commits.{live_at, live_side};
ghost use Rattle.irl_bay.specs.Damage.{IsDamagedFront, IsDamagedBucket, IsWholeBucket, RiseFrom};
ghost use Rattle.irl_bay.specs.Drum.{no_bucket};
ghost use Rattle.irl_bay.specs.Opening.{Adopts, AdoptRefused, AdoptMayLeave, OpensFronts, OpensBucket, Refuses};
ghost use Rattle.irl_bay.specs.Opening.{IsJournalBelow, OpensBelow, IsWithin, IsFirstAbove};

use crate::bay::Bay;
use crate::bucket::Bucket;
use crate::history::{HistoryVisitor, ReachingVisitor, is_below, is_sum_within};
use crate::parts::{fault_in, open_blob};
use irl_disk::{Failed, Store};
use irl_journal::Journal;
use irl_layout::{BayFile, Commit};
use irl_offer::{Fault, Settings};
use std::alloc::{AllocError, Global};

impl Bay {
    /// Opens a bay over files that are there. It reads the manifest and each bucket's journal on the side that this
    /// leaves live, and no byte of the cache, of the judged offers and of the texts, of which it asks only the lengths;
    /// and it syncs each of them. `Damaged` names the first place that breaks the layout, files in ascending number,
    /// but that a commit's cut is held against the lists, and against how many offers are judged, at the end. No file
    /// changes but a journal that is read, of at most one byte, which becomes an empty one; so `Memory` may come after
    /// such a change.
    pub fn adopt<S: Store>(
        alloc: Global,
        store: &mut S,
        base: u16,
        settings: &Settings,
    ) -> Result<Bay, Fault>
        requires base { base ≤ max_base }
        requires settings { AreValid settings.now }
        ensures adopts { Adopts result base settings.now (S.told store.old) (S.told store.new) }
        ensures refused { AdoptRefused result base settings.now (S.told store.old).files }
        // A stop at any moment leaves files that stand for the book, where all did before.
        ensures leaves { AdoptMayLeave (IsErrOf result Fault.Failed) base settings.now
            (S.told store.old) (S.told store.new) }
    {
        let mut history = HistoryVisitor::blank(alloc, settings.buckets)?;
        let f = BayFile::Manifest.number(base);
        let manifest = match Journal::visit(alloc, store, f, &mut history) {
            Ok(manifest) => manifest,
            Err(fault) => return Err(fault_in(f, fault)),
        };
        let cuts = history.count.min(manifest.end()); // No more than the manifest has bytes.
        open_fronts(store, base, &history.last)?;
        let buckets = open_buckets(alloc, store, base, settings, &history.last)?;
        let lengths = lengths(alloc, &buckets)?;
        check_cuts(alloc, store, &manifest, f, &history, lengths)?;
        Ok(Bay {
            alloc,
            base,
            settings: *settings,
            is_sound: true,
            manifest,
            last: history.last,
            cuts,
            buckets,
        })
    }
}

// Syncs what a commit names of the cache, of the judged file and of the texts, and holds their lengths against it.
fn open_fronts<S: Store>(store: &mut S, base: u16, last: &Commit) -> Result<(), Fault>
    requires base { base ≤ max_base }
    requires side { last.now.side ≤ 1 }
    ensures opened { OnOk result (OpensFronts base last.now (S.told store.old) (S.told store.new)) }
    ensures refused { Refuses result (S.told store.old).files (IsDamagedFront base last.now) }
    ensures reads { OnlyReads (λ _. ⊥) (IsErrOf result Fault.Failed) (S.told store.old) (S.told store.new) }
{
    let cache = BayFile::Cache(last.side).number(base);
    open_blob(store, cache, 16 * u128::from(last.entries))?;
    let judged = BayFile::Judged.number(base);
    open_blob(store, judged, 48 * u128::from(last.judged))?;
    let texts = BayFile::Texts.number(base);
    open_blob(store, texts, u128::from(last.texts))?;
    Ok(())
}

// Opens the buckets' files that a commit leaves live.
fn open_buckets<S: Store>(
    alloc: Global,
    store: &mut S,
    base: u16,
    settings: &Settings,
    last: &Commit,
) -> Result<Vec<Bucket>, Fault>
    requires base { base ≤ max_base }
    requires settings { AreValid settings.now }
    requires commit { IsCommit settings.now.buckets last.now }
    ensures count { IfOk result (λ buckets. length buckets.items ≡ settings.now.buckets) }
    ensures opened { IfOk result (λ buckets. (b : ℕ) → b < settings.now.buckets →
        OpensBucket base settings.now b (live_at settings.now.buckets last.now b) (S.told store.old) (S.told store.new)
        (slice_index_or buckets.items b no_bucket)) }
    ensures refused { Refuses result (S.told store.old).files (λ files f at. (b : ℕ) × (b < settings.now.buckets)
        × ((c : ℕ) → c < b → IsWholeBucket base (live_side last.now) settings.now files c)
        × IsDamagedBucket base (live_side last.now) settings.now b files f at) }
    ensures changes { ReadsAndChanges (IsJournalBelow base (live_side last.now) settings.now.buckets)
        (OpensBelow base (live_side last.now) settings.now.buckets) (IsErrOf result Fault.Failed)
        (S.told store.old) (S.told store.new) }
{
    let mut buckets = Vec::with_capacity(alloc, settings.buckets as usize)?;
    for b in 0..settings.buckets {
        let bucket = Bucket::adopt(alloc, store, base, settings, b, last.live_of(b))?;
        buckets.push_reserved(bucket);
    }
    Ok(buckets)
}

// How many offers each bucket has.
fn lengths(alloc: Global, buckets: &[Bucket]) -> Result<Vec<u64>, AllocError>
    ensures { IfOk result (λ lengths. lengths.items ≡ map (λ bucket. bucket.durable) buckets.now) }
{
    buckets.iter().map(|bucket| bucket.durable).collect(alloc)
}

// Refuses a manifest with a commit whose cut is above these lengths of the lists, or counts more offers in all than are
// judged. No cut is above the last, so the last alone is looked at.
fn check_cuts<S: Store>(
    alloc: Global,
    store: &mut S,
    manifest: &Journal,
    f: u16,
    history: &HistoryVisitor,
    lengths: Vec<u64>,
) -> Result<(), Fault>
    requires count { length lengths.items ≡ history.now.buckets }
    // The manifest has these commits.
    requires last { ForSome (S.told store.old).files (λ files. (commits : List CommitValue)
        × Ends manifest.now.end (files manifest.now.file) (map commit_bytes commits)
        × RiseFrom history.now.buckets (first_commit history.now.buckets) commits
        × (history.now.last ≡ last_commit (first_commit history.now.buckets) commits)) }
    ensures within { OnOk result (IsWithin lengths.items history.now.last.judged history.now.last.cut) }
    ensures idle { OnOk result (store.new ≡ store.old) }
    ensures damaged { (g at : ℕ) → IsErrOf result (Fault.Damaged g at) → (g ≡ f)
        × ForSome (S.told store.old).files (λ files. (commits : List CommitValue) →
        Ends manifest.now.end (files manifest.now.file) (map commit_bytes commits) →
        RiseFrom history.now.buckets (first_commit history.now.buckets) commits →
        IsFirstAbove lengths.items history.now.last.judged commits at) }
    ensures full { (n : ℕ) → IsErrOf result (Fault.Full n) → ⊥ }
    ensures reads { OnlyReads (λ g. g ≡ manifest.now.file) (IsErrOf result Fault.Failed)
        (S.told store.old) (S.told store.new) }
{
    if !is_below(&history.last.cut, &lengths) {
        let reaching = history.reaching(lengths);
        return Err(first_above(alloc, store, manifest, f, reaching));
    }
    let reaching = history.reaching(lengths);
    if !is_sum_within(&history.last.cut, reaching.most) {
        return Err(first_above(alloc, store, manifest, f, reaching));
    }
    Ok(())
}

// The damage of a manifest with a commit that this visitor refuses: at the first of them.
fn first_above<S: Store>(
    alloc: Global,
    store: &mut S,
    manifest: &Journal,
    f: u16,
    mut reaching: ReachingVisitor,
) -> Fault
    requires count { length reaching.lengths.items ≡ reaching.buckets }
    // There is such a commit.
    requires above { ForSome (S.told store.old).files (λ files. (commits : List CommitValue)
        × Ends manifest.now.end (files manifest.now.file) (map commit_bytes commits)
        × RiseFrom reaching.buckets (first_commit reaching.buckets) commits
        × (IsWithin reaching.lengths.items reaching.most
        (last_commit (first_commit reaching.buckets) commits).cut → ⊥)) }
    ensures damaged { (g at : ℕ) → result ≡ Fault.Damaged g at → (g ≡ f)
        × ForSome (S.told store.old).files (λ files. (commits : List CommitValue) →
        Ends manifest.now.end (files manifest.now.file) (map commit_bytes commits) →
        RiseFrom reaching.buckets (first_commit reaching.buckets) commits →
        IsFirstAbove reaching.lengths.items reaching.most commits at) }
    ensures full { (n : ℕ) → result ≡ Fault.Full n → ⊥ }
    ensures reads { OnlyReads (λ g. g ≡ manifest.now.file) (result ≡ Fault.Failed)
        (S.told store.old) (S.told store.new) }
{
    match manifest.revisit(alloc, store, 0, &mut reaching) {
        Ok(()) => Fault::Damaged(f, 0),
        Err(fault) => fault_in(f, fault),
    }
}
