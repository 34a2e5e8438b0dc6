ghost use Rattle.std.specs.Prelude.{◌≡◌, ◌≤◌, ◌<◌, ◌+◌, true, length};
ghost use Rattle.std.specs.Prelude.{IsErrOf, slice_index};
ghost use Rattle.std.specs.Option.{ForSome};
ghost use Rattle.irl_offer.specs.Settings.{AreValid};
ghost use Rattle.irl_model.specs.Book.{Book, judged, uniques, judged_cut, lengths_of};
ghost use Rattle.irl_layout.specs.BayFiles.{max_base};
ghost use Rattle.irl_bay.specs.Drum.{Drum, IsDrum, HasNumbers, durable_at, pending_at};
ghost use Rattle.irl_bay.specs.Flushing.{MayFlush, Flushes, FlushRefused, FlushMayLeave};
ghost use Rattle.irl_bay.specs.Holding.{IsLong, GoesOn};
ghost use Rattle.irl_bay.specs.Making.{IsUnmade, MakesBay};

use crate::bucket::Bucket;
use irl_array::Array;
use irl_disk::{Failed, Store};
use irl_journal::Journal;
use irl_layout::{BayFile, Commit, Run};
use irl_offer::{Fault, Settings};
use std::alloc::{AllocError, Global};
use std::marker::Model;

/// A DRUM on the disk: buckets of offers, the cache of the keys that were judged, and the judged offers in order.
/// Contracts see it as a `Drum`.
#[derive(Drop)]
pub struct Bay {
    pub(crate) alloc: Global,
    pub(crate) base: u16,
    pub(crate) settings: Settings,
    pub(crate) is_sound: bool,
    pub(crate) manifest: Journal,
    // The last commit, and how many there are.
    pub(crate) last: Commit,
    pub(crate) cuts: u64,
    pub(crate) buckets: Vec<Bucket>,
}

impl Model for Bay {
    ghost use Rattle.irl_bay.specs.Drum.{Drum, IsDrum};

    ghost Value = { Drum };

    ghost view = { λ b. record {
      base = b.base;
      settings = b.settings;
      is_sound = b.is_sound;
      manifest = b.manifest;
      last = b.last;
      cuts = b.cuts;
      buckets = b.buckets.items;
    } };

    ghost invariant = { λ b. IsDrum (record {
      base = b.base;
      settings = b.settings;
      is_sound = b.is_sound;
      manifest = b.manifest;
      last = b.last;
      cuts = b.cuts;
      buckets = b.buckets.items;
    }) };
}

impl Bay {
    /// Makes the files of a bay without offers: the closed gate of each of its journals, the manifest's first, each
    /// written and synced; of the buckets' only those on side 0. Want of memory comes before anything is written.
    pub fn make<S: Store>(
        alloc: Global,
        store: &mut S,
        base: u16,
        settings: &Settings,
    ) -> Result<Bay, Fault>
        requires base { base ≤ max_base }
        requires settings { AreValid settings.now }
        requires unmade { ForSome (S.told store.old).files (λ files. IsUnmade base settings.now.buckets files) }
        ensures { MakesBay result base settings.now store.old store.new (S.told store.old) (S.told store.new) }
    {
        let mut buckets = Vec::with_capacity(alloc, settings.buckets as usize)?;
        let last = Commit::first(alloc, settings.buckets)?;
        let manifest = Journal::make(store, BayFile::Manifest.number(base))?;
        for b in 0..settings.buckets {
            buckets.push_reserved(Bucket::make(store, base, 0, b, 0)?);
        }
        Ok(Bay {
            alloc,
            base,
            settings: *settings,
            is_sound: true,
            manifest,
            last,
            cuts: 0,
            buckets,
        })
    }

    /// Puts an array's offers behind those of a bucket, in six calls of the store: writes their texts and syncs them,
    /// and appends one record to the bucket's journal. At `Ok` they are acknowledged, and the array is empty. `Full`
    /// comes exactly where the bucket would pass its cap. `Memory` and `Full` change nothing; `Failed` ends the bay's
    /// soundness. The array keeps its offers at each refusal.
    pub fn flush<S: Store>(&mut self, store: &mut S, b: u32, array: &mut Array) -> Result<(), Fault>
        requires sound { self.old.is_sound ≡ true }
        requires offers { MayFlush b array.old.items self.old }
        requires long { ForSome (S.told store.old).files (λ files. IsLong self.old files) }
        ensures flushes { Flushes result b array.old array.new self.old self.new
            (S.told store.old) (S.told store.new) }
        ensures refused { FlushRefused result b array.old array.new self.old self.new store.old store.new }
        // A stop at any moment leaves the book with the offers or without, and no file but the bucket's two live ones
        // changes.
        ensures leaves { FlushMayLeave (IsErrOf result Fault.Failed) b array.old.items self.old
            (S.told store.old) (S.told store.new) }
        ensures goes_on { GoesOn (IsErrOf result Fault.Failed) self.new (S.told store.new) }
    {
        let left = self
            .settings
            .cap
            .saturating_sub(self.buckets[b as usize].durable);
        if u64::from(array.len()) > left {
            return Err(Fault::Full(b));
        }
        let mut run = Run::of(self.alloc, array.items())?;
        self.is_sound = false;
        // The texts are written first, so that whatever a stop leaves of the record has them.
        let bucket = &mut self.buckets[b as usize];
        bucket.aux.append(store, &run.texts)?;
        bucket.journal.append(store, &mut run.frame)?;
        bucket.durable += u64::from(array.len());
        self.is_sound = true;
        array.clear();
        Ok(())
    }

    /// The settings that it was made with.
    pub fn settings(&self) -> Settings
        ensures { result ≡ self.now.settings }
    {
        self.settings
    }

    /// How many offers a bucket has.
    pub fn durable(&self, b: u32) -> u64
        requires { b < self.now.settings.buckets }
        ensures value { result ≡ durable_at self.now b }
        ensures book { (book : Book) → HasNumbers self.now book → result ≡ slice_index (lengths_of book) b }
    {
        self.buckets[b as usize].durable
    }

    /// How many offers of a bucket wait to be judged.
    pub fn pending(&self, b: u32) -> u64
        requires { b < self.now.settings.buckets }
        ensures value { result ≡ pending_at self.now b }
        ensures book { (book : Book) → HasNumbers self.now book →
            result + slice_index (judged_cut book) b ≡ slice_index (lengths_of book) b }
    {
        self.buckets[b as usize].durable - self.last.cut[b as usize]
    }

    /// How many offers are judged.
    pub fn judged_len(&self) -> u64
        ensures value { result ≡ self.now.last.judged }
        ensures book { (book : Book) → HasNumbers self.now book → result ≡ length (judged book) }
    {
        self.last.judged
    }

    /// How many of them were judged Unique.
    pub fn unique_len(&self) -> u64
        ensures value { result ≡ self.now.last.unique }
        ensures book { (book : Book) → HasNumbers self.now book → result ≡ length (uniques book) }
    {
        self.last.unique
    }

    /// How many cuts there are.
    pub fn cuts(&self) -> u64
        ensures value { result ≡ self.now.cuts }
        ensures book { (book : Book) → HasNumbers self.now book → result ≡ book.dropped + length book.cuts }
    {
        self.cuts
    }

    /// Whether no call failed.
    pub fn is_sound(&self) -> bool
        ensures value { result ≡ self.now.is_sound }
        // What holds of every open bay, for who sees none of its fields.
        ensures drum { IsDrum self.now }
    {
        self.is_sound
    }
}
