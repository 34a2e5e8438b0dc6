ghost use Rattle.std.specs.Prelude.{◌≡◌, ◌↔◌, ◌+◌, ◌*◌, ◌<◌, ◌∷◌, [], length, true, OnOk, OnErr, IsOk, IsErr, IsErrOf};
ghost use Rattle.std.specs.Option.{ForSome};
ghost use Rattle.irl_journal.specs.Appending.{Appends};
ghost use Rattle.irl_bay.specs.Drum.{IsDrum, SomePending, KeepsCounts};
ghost use Rattle.irl_bay.specs.Holding.{IsLong, GoesOn};
ghost use Rattle.irl_layout.specs.Commits.{commit_bytes};
ghost use Rattle.irl_bay.specs.Merges.{Merges, MergeRefused, MergeMayLeave};
ghost use Rattle.irl_bay.specs.Merging.{MayCommit, with_commit};

use crate::bay::Bay;
use crate::bucket::Bucket;
use irl_disk::{Failed, Store};
use irl_journal::Frame;
use irl_layout::{Commit, commit_len};
use irl_offer::Fault;

impl Bay {
    /// Judges every pending offer of every bucket, bucket 0 first, and adds one cut. It reads the live cache side and
    /// the pending offers, writes the other side, the judged entries and their texts, and syncs the three; it empties
    /// the buckets' files on the side that isn't live, which is the live one from then on; and it appends one record to
    /// the manifest. `Ok` gives the number of cuts. `Memory` and `Damaged` leave the book as it was, and the
    /// merge may be asked again; `Failed` ends the bay's soundness.
    pub fn merge<S: Store>(&mut self, store: &mut S) -> Result<u64, Fault>
        requires sound { self.old.is_sound ≡ true }
        requires pending { SomePending self.old }
        requires long { ForSome (S.told store.old).files (λ files. IsLong self.old files) }
        ensures merges { Merges result self.old self.new (S.told store.old) (S.told store.new) }
        ensures refused { MergeRefused result self.old self.new (S.told store.old) (S.told store.new) }
        // A stop at any moment leaves the book with the cut or without.
        ensures leaves { MergeMayLeave (IsErrOf result Fault.Failed) self.old (S.told store.old) (S.told store.new) }
        ensures goes_on { GoesOn (IsErrOf result Fault.Failed) self.new (S.told store.new) }
    {
        let mut frame = Frame::with_room(self.alloc, commit_len(self.settings.buckets))?;
        let buckets = Vec::with_capacity(self.alloc, self.settings.buckets as usize)?;
        let next = match self.judge(store) {
            Ok(next) => next,
            Err(fault) => {
                self.is_sound = !matches!(fault, Fault::Failed);
                return Err(fault);
            }
        };
        let buckets = match self.empty_side(store, buckets) {
            Ok(buckets) => buckets,
            Err(failed) => {
                self.is_sound = false;
                return Err(failed.into());
            }
        };
        self.append_commit(store, next, &mut frame, buckets)?;
        Ok(self.cuts)
    }

    // Appends the record of the next commit to the manifest, by a frame with room for it. The buckets are empty from
    // then on.
    fn append_commit<S: Store>(
        &mut self,
        store: &mut S,
        next: Commit,
        frame: &mut Frame,
        buckets: Vec<Bucket>,
    ) -> Result<(), Failed>
        requires sound { self.old.is_sound ≡ true }
        requires frame { frame.old ≡ record { room = 33 + 8 * self.old.settings.buckets; bytes = [] } }
        requires commit { MayCommit next buckets.items self.old }
        requires long { ForSome (S.told store.old).files (λ files.
            self.old.manifest.end < length (files self.old.manifest.file)) }
        ensures value { OnOk result (self.new ≡ with_commit self.new.manifest next self.old) }
        ensures drum { IsDrum self.new }
        ensures counts_kept { OnErr result (KeepsCounts self.old self.new) }
        ensures sound { (self.new.is_sound ≡ true) ↔ IsOk result }
        ensures appends { Appends result (IsErr result) (commit_bytes next ∷ []) self.old.manifest self.new.manifest
            (S.told store.old) (S.told store.new) }
        ensures long_kept { OnOk result (ForSome (S.told store.new).files (λ files.
            self.new.manifest.end < length (files self.new.manifest.file))) }
    {
        self.is_sound = false;
        next.put(frame);
        self.manifest.append(store, frame)?;
        self.install(next, buckets);
        Ok(())
    }

    // One commit more, whose record the manifest has: all offers are judged.
    fn install(&mut self, next: Commit, buckets: Vec<Bucket>)
        requires commit { MayCommit next buckets.items self.old }
        requires cuts { self.old.cuts < self.old.manifest.end }
        requires manifest { self.old.manifest.is_sound ≡ true }
        ensures value { self.new ≡ with_commit self.old.manifest next self.old }
        ensures drum { IsDrum self.new }
    {
        // The manifest has a byte for each cut, and more.
        let end = self.manifest.end();
        prove!(self.cuts < end);
        self.buckets = buckets;
        self.last = next;
        self.cuts += 1;
        self.is_sound = true;
    }
}
