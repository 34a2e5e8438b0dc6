//! What holds of what sweeps give. The function is empty: its contract is the law.

ghost use Rattle.std.specs.Prelude.{◌≡◌, ℕ, List, Bool, true};
ghost use Rattle.std.specs.List.{AllByRecursion};
ghost use Rattle.irl_offer.specs.declared.offer.Rule.{Rule};
ghost use Rattle.irl_offer.specs.declared.receipt.Pair.{Pair};
ghost use Rattle.irl_offer.specs.Tuple.{Tuple};
ghost use Rattle.irl_model.specs.Pairs.{IsRising};
ghost use Rattle.irl_merge.specs.declared.sweep.Sweep.{Sweep};
ghost use Rattle.irl_merge.specs.Sweeping.{HasSwept};

/// What a sweep has given rises, and each of its keys was fed or offered: it passes each test that these pass.
pub fn what_is_given_rises()
    ensures rises { (rule : Rule) (offers : List Tuple) (fed given : List Pair) (sweep : Sweep) →
        HasSwept rule offers fed given sweep → IsRising given }
    ensures within { (test : ℕ → Bool) (rule : Rule) (offers : List Tuple) (fed given : List Pair) (sweep : Sweep) →
        HasSwept rule offers fed given sweep → AllByRecursion (λ pair. test pair.key ≡ true) fed →
        AllByRecursion (λ offer. test offer.key ≡ true) offers → AllByRecursion (λ pair. test pair.key ≡ true) given }
{}
