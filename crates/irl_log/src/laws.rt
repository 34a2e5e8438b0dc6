ghost use Rattle.std.specs.Prelude.{◌≡◌, ℕ, List};
ghost use Rattle.irl_events.specs.Events.{Event};
ghost use Rattle.irl_log.specs.Form.{IsLogged};
ghost use Rattle.irl_log.specs.Log.{HasEvents};
ghost use Rattle.irl_log.specs.Spelling.{payload_of};

/// No two events that a log may have are of one payload, and a log's file stands for at most one list of events.
pub fn one_list_of_events()
    ensures event { (buckets : ℕ) (x y : Event) → IsLogged buckets x → IsLogged buckets y →
        payload_of x ≡ payload_of y → x ≡ y }
    ensures list { (buckets : ℕ) (file : List ℕ) (xs ys : List Event) → HasEvents buckets file xs →
        HasEvents buckets file ys → xs ≡ ys }
{}
