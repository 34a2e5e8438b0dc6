ghost use Rattle.std.specs.Prelude.{◌≡◌, ℕ};
ghost use Rattle.irl_offer.specs.Settings.{AreValid, settings_of};
ghost use Rattle.irl_offer.specs.declared.settings.Asked.{Asked};
ghost use Rattle.irl_offer.specs.declared.settings.Settings.{Settings};
ghost use Rattle.irl_head.specs.Asking.{Agrees};
ghost use Rattle.irl_head.specs.Head.{head_bytes, IsNoHeadAt};

/// The head's payload of valid settings is none nowhere, and tells them.
pub fn a_head_tells_its_settings()
    ensures whole { (settings : Settings) (at : ℕ) → AreValid settings → IsNoHeadAt (head_bytes settings) at → ⊥ }
    ensures one { (x y : Settings) → AreValid x → AreValid y → head_bytes x ≡ head_bytes y → x ≡ y }
{}

/// A new store has its settings as they were asked for.
pub fn a_new_store_is_as_it_was_asked()
    ensures { (asked : Asked) → Agrees asked (settings_of asked) }
{}
