ghost use Rattle.std.specs.Prelude.{◌≡◌, ◌<◌, ◌++◌, ℕ, List, IfOk};
ghost use Rattle.irl_offer.specs.declared.outcome.Outcome.{Outcome as OutcomeValue};
ghost use Rattle.irl_fate.specs.Counting.{kind_of as kind_number};
ghost use Rattle.irl_frontier.specs.Tallies.{HasTally};

use irl_offer::Outcome;
use std::alloc::AllocError;

/// How many kinds of outcomes there are.
pub const KINDS: usize = 9;

// The number of an outcome's kind.
fn kind_of(outcome: Outcome) -> usize
    ensures value { result ≡ kind_number outcome }
    ensures within { result < 9 }
{
    match outcome {
        Outcome::Page => 0,
        Outcome::Moved => 1,
        Outcome::Status(_) => 2,
        Outcome::Denied(_) => 3,
        Outcome::Shut => 4,
        Outcome::Lost => 5,
        Outcome::Bad => 6,
        Outcome::Large => 7,
        Outcome::Coded => 8,
    }
}

/// How many URLs came to each kind of outcome, where more of them are done. A count that would pass the last `u64` is refused as
/// want of memory.
pub fn with_done(tally: &[u64; KINDS], done: &[(u64, Outcome)]) -> Result<[u64; KINDS], AllocError>
    ensures { IfOk result (λ more. (before : List (ℕ × OutcomeValue)) → HasTally tally.now before →
        HasTally more (before ++ done.now)) }
{
    let mut more = *tally;
    for one in done {
        let kind = kind_of(one.1);
        more[kind] = more[kind].checked_add(1).ok_or(AllocError)?;
    }
    Ok(more)
}
