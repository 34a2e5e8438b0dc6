ghost use Rattle.std.specs.Prelude.{◌≡◌, ◌+◌, ◌-◌, ◌^◌, ◌≤◌, ℕ, List, min, true, IfOk, IsTrue, ◌↔◌, length};
ghost use Rattle.std.specs.Prelude.{sum};
ghost use Rattle.irl_model.specs.Book.{IsBelow};
ghost use Rattle.irl_layout.specs.Commits.{Commit as CommitValue, IsCommit, commit_bytes, first_commit};
ghost use Rattle.irl_bay.specs.Damage.{IsAtOrAbove};
ghost use Rattle.irl_bay.specs.Opening.{IsWithin};

use irl_journal::Visit;
use irl_layout::Commit;
use std::alloc::{AllocError, Global};

/// Takes a manifest's commits, and keeps the last and their count.
#[derive(Drop)]
pub struct HistoryVisitor {
    alloc: Global,
    buckets: u32,
    pub last: Commit,
    pub count: u64,
}

impl HistoryVisitor {
    /// What is kept before the first commit.
    pub fn blank(alloc: Global, buckets: u32) -> Result<HistoryVisitor, AllocError>
        ensures last { IfOk result (λ history. history.last ≡ first_commit buckets) }
        ensures count { IfOk result (λ history. history.count ≡ 0) }
        ensures buckets { IfOk result (λ history. history.buckets ≡ buckets) }
    {
        Ok(HistoryVisitor {
            alloc,
            buckets,
            last: Commit::first(alloc, buckets)?,
            count: 0,
        })
    }

    /// What takes the commits that lists of these lengths have.
    pub fn reaching(&self, lengths: Vec<u64>) -> ReachingVisitor
        ensures buckets { result.buckets ≡ self.now.buckets }
        ensures lengths { result.lengths.items ≡ lengths.items }
        ensures most { result.most ≡ self.now.last.judged }
    {
        ReachingVisitor {
            alloc: self.alloc,
            buckets: self.buckets,
            lengths,
            most: self.last.judged,
        }
    }
}

impl Visit for HistoryVisitor {
    ghost takes = { λ old _ payload new. IsCommit old.buckets new.last × (payload ≡ commit_bytes new.last)
        × IsAtOrAbove old.last new.last × (new.count ≡ min (old.count + 1) (2 ^ 64 - 1))
        × (new.buckets ≡ old.buckets) };

    ghost refuses = { λ old _ payload _. (commit : CommitValue) → IsCommit old.buckets commit →
        payload ≡ commit_bytes commit → IsAtOrAbove old.last commit → ⊥ };

    fn take(&mut self, _at: u64, payload: &[u8]) -> Result<bool, AllocError> {
        let Some(commit) = Commit::decode(self.alloc, payload, self.buckets)? else {
            return Ok(false);
        };
        if !is_at_or_above(&self.last, &commit) {
            return Ok(false);
        }
        self.last = commit;
        self.count = self.count.saturating_add(1);
        Ok(true)
    }
}

// Whether no number of a commit is below that of the one before it, and it names a live side if that one did.
fn is_at_or_above(old: &Commit, new: &Commit) -> bool
    ensures { IsTrue result ↔ IsAtOrAbove old.now new.now }
{
    old.entries <= new.entries
        && old.judged <= new.judged
        && old.unique <= new.unique
        && old.texts <= new.texts
        && is_below(&old.cut, &new.cut)
        && (old.live.is_none() || new.live.is_some())
}

/// Whether there are as many numbers in the one list as in the other, and none is above the other's.
pub fn is_below(xs: &[u64], ys: &[u64]) -> bool
    ensures { IsTrue result ↔ IsBelow xs.now ys.now }
{
    if xs.len() != ys.len() {
        return false;
    }
    for (i, x) in xs.iter().enumerate() {
        if *x > ys[i] {
            return false;
        }
    }
    true
}

/// Whether the sum of these numbers is at most this bound. What is left of the bound is counted, since the sum may pass 64
/// bits.
pub fn is_sum_within(numbers: &[u64], most: u64) -> bool
    ensures { IsTrue result ↔ (sum numbers.now ≤ most) }
{
    let mut left = most;
    for n in numbers {
        if *n > left {
            return false;
        }
        left -= *n;
    }
    true
}

/// Takes the commits whose cut is below these lengths of the buckets' lists, and counts no more offers than are judged.
#[derive(Drop)]
pub struct ReachingVisitor {
    alloc: Global,
    buckets: u32,
    lengths: Vec<u64>,
    /// How many those are, where the lists' first offers stand in the judged file alone.
    pub most: u64,
}

impl Visit for ReachingVisitor {
    ghost takes = { λ old _ payload new. (commit : CommitValue) × IsCommit old.buckets commit
        × (payload ≡ commit_bytes commit) × IsWithin old.lengths.items old.most commit.cut × (new ≡ old) };

    ghost refuses = { λ old _ payload _. (commit : CommitValue) → IsCommit old.buckets commit →
        payload ≡ commit_bytes commit → IsWithin old.lengths.items old.most commit.cut → ⊥ };

    fn take(&mut self, _at: u64, payload: &[u8]) -> Result<bool, AllocError> {
        let Some(commit) = Commit::decode(self.alloc, payload, self.buckets)? else {
            return Ok(false);
        };
        Ok(is_below(&commit.cut, &self.lengths) && is_sum_within(&commit.cut, self.most))
    }
}
