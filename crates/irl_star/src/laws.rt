ghost use Rattle.std.specs.Prelude.{◌≡◌, ℕ, List};
ghost use Rattle.irl_offer.specs.declared.settings.Settings.{Settings};
ghost use Rattle.irl_star.specs.Budgets.{budget, degree};

/// A law: budgets depend on degrees alone, whatever the order of the adds.
pub fn budgets_depend_on_degrees()
    ensures { (settings : Settings) (xs ys : List (List ℕ)) → ((pld : List ℕ) → degree xs pld ≡ degree ys pld) →
        (pld : List ℕ) → budget settings xs pld ≡ budget settings ys pld }
{}
