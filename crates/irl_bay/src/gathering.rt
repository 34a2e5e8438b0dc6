ghost use Rattle.std.specs.Prelude.{◌≡◌, ◌↔◌, ◌≤◌, ◌++◌, List, length as list_length, IsTrue};
ghost use Rattle.std.specs.List.{All};
ghost use Rattle.std.specs.Option.{ForSome};
ghost use Rattle.irl_offer.specs.Buckets.{IsBucketCount, bucket_of as bucket_of_key};
ghost use Rattle.irl_offer.specs.declared.entry.Entry.{Entry as EntryValue};
ghost use Rattle.irl_layout.specs.EntryRuns.{IsEntryRun, HasNoRun, entries_bytes, text_length};
ghost use Rattle.irl_bay.specs.Pending.{ReadsPending, ReadsTexts};

use crate::bucket::Bucket;
use crate::pending::Pending;
use irl_disk::Store;
use irl_journal::{JournalFault, Visit, read_part};
use irl_layout::read_run;
use irl_offer::{Entry, Fault, Settings, bucket_of};
use std::alloc::{AllocError, Global};

/// Gathers the entries of a bucket's runs.
#[derive(Drop)]
pub struct GatheringVisitor {
    pub settings: Settings,
    pub bucket: u32,
    pub entries: Vec<Entry>,
    ghost valid: { IsBucketCount settings.buckets },
}

impl Visit for GatheringVisitor {
    ghost takes = { λ old _ payload new. (new.settings ≡ old.settings) × (new.bucket ≡ old.bucket)
        × ((run : List EntryValue) × IsEntryRun old.settings old.bucket run × (payload ≡ entries_bytes run)
        × (new.entries.items ≡ old.entries.items ++ run)) };

    ghost refuses = { λ old _ payload _. HasNoRun old.settings old.bucket payload };

    fn take(&mut self, _at: u64, payload: &[u8]) -> Result<bool, AllocError> {
        read_run(&self.settings, self.bucket, payload, &mut self.entries)
    }
}

impl Bucket {
    /// The offers that are not judged, of which there are so many, without their texts. It changes nothing.
    pub fn pending<S: Store>(
        &self,
        alloc: Global,
        store: &mut S,
        settings: &Settings,
        b: u32,
        count: u64,
    ) -> Result<Pending, Fault>
        requires settings { IsBucketCount settings.now.buckets }
        requires gate { self.now.gate ≤ self.now.journal.end }
        requires text { self.now.text ≤ self.now.aux.length }
        ensures { ReadsPending result settings.now b self.now count (S.told store.old) (S.told store.new) }
    {
        let room = count.saturating_add(self.skip) as usize;
        let mut gathering = GatheringVisitor {
            settings: *settings,
            bucket: b,
            entries: Vec::with_capacity(alloc, room)?,
        };
        match self
            .journal
            .revisit(alloc, store, self.gate, &mut gathering)
        {
            Ok(()) => (),
            Err(JournalFault::Failed) => return Err(Fault::Failed),
            Err(JournalFault::Memory) => return Err(Fault::Memory),
            Err(JournalFault::Damaged(at)) => return Err(Fault::Damaged(self.journal.file(), at)),
        }
        let GatheringVisitor { entries, .. } = gathering;
        if (entries.len() as u64).checked_sub(self.skip) != Some(count) {
            return Err(Fault::Damaged(self.journal.file(), self.gate));
        }
        let skip = self.skip as usize;
        // Where the store tells what its files have, the visitor took no others.
        if !are_of(&entries[skip..], settings.buckets, b) {
            return Err(Fault::Damaged(self.journal.file(), self.gate));
        }
        if !have_length(&entries[skip..], self.aux.length() - self.text) {
            return Err(Fault::Damaged(self.aux.file(), self.text));
        }
        Ok(Pending { entries, skip })
    }

    /// The texts of the offers that are not judged, one behind the other. It changes nothing.
    pub fn pending_texts<S: Store>(&self, alloc: Global, store: &mut S) -> Result<Vec<u8>, Fault>
        requires text { self.now.text ≤ self.now.aux.length }
        requires long { ForSome (S.told store.old).files (λ files.
            self.now.aux.length ≤ list_length (files self.now.aux.file)) }
        ensures { ReadsTexts result self.now (S.told store.old) (S.told store.new) }
    {
        let length = self.aux.length() - self.text;
        read_part(alloc, store, self.aux.file(), self.text, length)
    }
}

// Whether these entries are all of a bucket.
fn are_of(entries: &[Entry], buckets: u32, b: u32) -> bool
    requires { IsBucketCount buckets }
    ensures { IsTrue result ↔ All (λ entry. bucket_of_key buckets entry.key ≡ b) entries.now }
{
    entries
        .iter()
        .all(|entry| bucket_of(entry.key, buckets) == b)
}

// Whether the texts of these entries are so long together.
fn have_length(entries: &[Entry], length: u64) -> bool
    ensures { IsTrue result ↔ (text_length entries.now ≡ length) }
{
    let mut rest = length;
    for entry in entries {
        let aux_len = u64::from(entry.aux_len);
        if aux_len > rest {
            return false;
        }
        rest -= aux_len;
    }
    rest == 0
}
