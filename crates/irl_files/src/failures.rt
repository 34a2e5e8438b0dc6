ghost use Rattle.std.specs.Prelude.{◌≡◌, ◌<◌, IsSome};

use crate::failure::Failure;

/// How often calls of a store failed, and the first of them.
#[derive(Drop)]
pub(crate) struct Failures {
    /// It stands still at its last value.
    pub(crate) count: u64,
    pub(crate) first: Option<Failure>,
    ghost told: { 0 < count → IsSome first },
}

impl Failures {
    ghost use Rattle.std.specs.Prelude.{None, ◌≤◌};
    ghost use Rattle.irl_base.specs.Faults.{counted};
    ghost use Rattle.irl_files.specs.Failure.{first_of};

    /// None yet.
    pub(crate) fn none() -> Failures
        ensures count { result.count ≡ 0 }
        ensures first { result.first ≡ None }
    {
        Failures {
            count: 0,
            first: None,
        }
    }

    /// Counts one more, and keeps it if it is the first.
    pub(crate) fn count(&mut self, failure: Failure)
        ensures count { self.new.count ≡ counted self.old.count }
        ensures later { self.old.count ≤ self.new.count }
        ensures first { self.new.first ≡ first_of self.old.first failure }
    {
        if self.first.is_none() {
            self.first = Some(failure);
        }
        self.count = self.count.saturating_add(1);
    }
}
