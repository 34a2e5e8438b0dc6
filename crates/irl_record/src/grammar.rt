ghost use Rattle.std.specs.Prelude.{◌≡◌, ◌↔◌, Bool, List, ℕ, Ok, Err};
ghost use Rattle.irl_io.specs.Lines.{lines};
ghost use Rattle.irl_record.specs.Grammar.{IsTape, AreWithin, IsRefusedAt};
ghost use Rattle.irl_record.specs.Reading.{tape_of};
ghost use Rattle.irl_record.specs.Taped.{Taped};

/// What is read line by line is what the items say of which a tape is made.
pub fn tapes_are_their_items()
    // A tape that is read has no line over a limit, and its lines are those of items that make it; and each such tape is read.
    ensures taken { (pages : Bool) (bytes : List ℕ) (tape : Taped) →
        (tape_of pages bytes ≡ Ok tape) ↔ (AreWithin 1 (lines bytes) × IsTape pages (lines bytes) tape) }
    // The line that is named is the first behind which no tape goes on.
    ensures refused { (pages : Bool) (bytes : List ℕ) (n : ℕ) →
        tape_of pages bytes ≡ Err n → IsRefusedAt pages (lines bytes) n }
{}
