ghost use Rattle.std.specs.Prelude.{◌≡◌, ◌<◌, ◌≤◌, ◌+◌, List, true, false, IfOk};
ghost use Rattle.irl_offer.specs.Buckets.{IsBucketCount};
ghost use Rattle.irl_offer.specs.declared.entry.Entry.{Entry as EntryValue};
ghost use Rattle.irl_layout.specs.EntryRuns.{IsEntryRun, HasNoRun, entries_bytes};

use crate::found::Found;
use irl_journal::Visit;
use irl_layout::read_run;
use irl_offer::{Entry, Settings};
use std::alloc::AllocError;

/// Takes the runs of a bucket's journal, and counts what it finds.
#[derive(Drop)]
pub struct TallyVisitor {
    pub settings: Settings,
    /// Which bucket this is, and how many of its offers are judged.
    pub bucket: u32,
    pub cut: u64,
    pub found: Found,
    /// Room for a run's entries, whatever it has.
    pub run: Vec<Entry>,
    ghost valid: { IsBucketCount settings.buckets },
}

impl Visit for TallyVisitor {
    ghost use Rattle.irl_bay.specs.Finding.{Advances};

    ghost takes = { λ old at payload new. (new.settings ≡ old.settings) × (new.bucket ≡ old.bucket)
        × (new.cut ≡ old.cut)
        × ((run : List EntryValue) × IsEntryRun old.settings old.bucket run × (payload ≡ entries_bytes run)
        × Advances old.cut at run old.found new.found) };

    ghost refuses = { λ old _ payload _. HasNoRun old.settings old.bucket payload };

    fn take(&mut self, at: u64, payload: &[u8]) -> Result<bool, AllocError> {
        self.run.clear();
        if !read_run(&self.settings, self.bucket, payload, &mut self.run)? {
            return Ok(false);
        }
        self.found = self.found.advanced(self.cut, at, &self.run);
        Ok(true)
    }
}
