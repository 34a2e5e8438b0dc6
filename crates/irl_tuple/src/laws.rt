ghost use Rattle.std.specs.Prelude.{◌≡◌, ◌↔◌, ◌<◌, ◌^◌, List, ℕ, Some};
ghost use Rattle.irl_offer.specs.Tuple.{Tuple};
ghost use Rattle.irl_tuple.specs.Forms.{IsTupleLine};
ghost use Rattle.irl_tuple.specs.Tuples.{tuple_of, key_of};
ghost use Rattle.irl_tuple.specs.Verdicts.{key_digits};

/// A line has an offer exactly where it is written as one of the forms, and it is the offer of that form.
pub fn tuple_lines_are_their_forms()
    ensures { (line : List ℕ) (offer : Tuple) → (tuple_of line ≡ Some offer) ↔ IsTupleLine line offer }
{}

/// A key that a verdict's line tells is read again as that key.
pub fn told_keys_are_read_again()
    ensures { (key : ℕ) → key < 2 ^ 64 → key_of (key_digits key) ≡ Some key }
{}
