ghost use Rattle.std.specs.Prelude.{◌≡◌, ◌≤◌, ◌++◌, ◌∷◌, [], true, false, IfOk};
ghost use Rattle.irl_layout.specs.Commits.{Commit as CommitValue, IsCommit, commit_bytes};
ghost use Rattle.irl_bay.specs.Cuts.{AreJudgedAt, ReadsManifest};

use crate::bay::Bay;
use crate::parts::fault_in;
use irl_disk::Store;
use irl_journal::Visit;
use irl_layout::Commit;
use irl_offer::Fault;
use std::alloc::{AllocError, Global};

impl Bay {
    /// How many offers were judged at each cut, the first first. It reads the manifest again, and a refusal ends nothing.
    pub fn judged_at_cuts<S: Store>(&self, alloc: Global, store: &mut S) -> Result<Vec<u64>, Fault>
        ensures { ReadsManifest result (λ found book. AreJudgedAt book found.items)
            self.now (S.told store.old) (S.told store.new) }
    {
        let mut visitor = CutsVisitor {
            alloc,
            buckets: self.settings.buckets,
            judged: Vec::with_capacity(alloc, self.cuts as usize)?,
        };
        if let Err(fault) = self.manifest.revisit(alloc, store, 0, &mut visitor) {
            return Err(fault_in(self.manifest.file(), fault));
        }
        let CutsVisitor { judged, .. } = visitor;
        Ok(judged)
    }
}

/// Takes a manifest's commits, and keeps how many offers are judged at each.
#[derive(Drop)]
pub struct CutsVisitor {
    alloc: Global,
    buckets: u32,
    judged: Vec<u64>,
}

impl Visit for CutsVisitor {
    ghost takes = { λ old _ payload new. (commit : CommitValue) × IsCommit old.buckets commit
        × (payload ≡ commit_bytes commit) × (new.judged.items ≡ old.judged.items ++ commit.judged ∷ [])
        × (new.buckets ≡ old.buckets) };

    ghost refuses = { λ old _ payload _. (commit : CommitValue) → IsCommit old.buckets commit →
        payload ≡ commit_bytes commit → ⊥ };

    fn take(&mut self, _at: u64, payload: &[u8]) -> Result<bool, AllocError> {
        let Some(commit) = Commit::decode(self.alloc, payload, self.buckets)? else {
            return Ok(false);
        };
        self.judged.push(commit.judged)?;
        Ok(true)
    }
}
