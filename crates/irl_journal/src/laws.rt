ghost use Rattle.std.specs.Prelude.{◌≡◌, ◌++◌, ◌∷◌, ℕ, List};
ghost use Rattle.std.specs.List.{AllByRecursion};
ghost use Rattle.irl_journal.specs.Format.{StandsFor, IsBrokenAt, IsPayload, records_text, body_text, open_gate};

/// A file stands for at most one list of records, and one that stands for a list is broken nowhere. An open, whole
/// record behind records of such a file is one of that list.
pub fn one_list()
    ensures one { (file : List ℕ) (xs ys : List (List ℕ)) → StandsFor file xs → StandsFor file ys → xs ≡ ys }
    ensures whole { (file : List ℕ) (xs : List (List ℕ)) (at : ℕ) → StandsFor file xs → IsBrokenAt file at → ⊥ }
    ensures behind { (file : List ℕ) (xs ps : List (List ℕ)) (p rest : List ℕ) (gate : ℕ) → StandsFor file xs →
        AllByRecursion IsPayload ps → IsPayload p →
        file ≡ records_text ps ++ (open_gate ∷ (body_text p ++ (gate ∷ rest)))
        → (more : List (List ℕ)) × (xs ≡ ps ++ p ∷ more) }
{}
