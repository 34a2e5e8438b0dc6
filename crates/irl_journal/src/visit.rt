ghost use Rattle.std.specs.Prelude.{◌≡◌, ℕ, List, true, false, IfOk};

use std::alloc::AllocError;

/// What a journal's records are handed to when it is opened.
pub trait Visit {
    /// What a visitor becomes that takes a record: the visitor before, the place of the record's gate, the payload, and
    /// the visitor after.
    ghost takes: { Self → ℕ → List ℕ → Self → Type 0 };

    /// A visitor refuses the record with this place and payload: it is none that the journal's owner writes. The last
    /// is what the visitor becomes.
    ghost refuses: { Self → ℕ → List ℕ → Self → Type 0 };

    /// Takes a record, or answers false where it refuses it.
    fn take(&mut self, at: u64, payload: &[u8]) -> Result<bool, AllocError>
        ensures taken { IfOk result (λ is_taken. is_taken ≡ true → takes self.old at payload.now self.new) }
        ensures refused { IfOk result (λ is_taken. is_taken ≡ false → refuses self.old at payload.now self.new) };
}
