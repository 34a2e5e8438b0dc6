ghost use Rattle.std.specs.Prelude.{◌≡◌, ◌++◌, ◌∷◌, [], ℕ, List, None, true};
ghost use Rattle.irl_offer.specs.declared.place.Place.{Place};
ghost use Rattle.irl_events.specs.Events.{Event as Seen, Happened, Pass as SeenPass, Progress, after_event, progress};
ghost use Rattle.irl_events.specs.Legal.{AreLegal, are_rising, broken};
ghost use Rattle.irl_star.specs.Budgets.{degree};
ghost use Rattle.irl_beast.specs.Passes.{item_numbers};
ghost use Rattle.irl_beast.specs.declared.item.Item.{Item};
ghost use Rattle.irl_frontier.specs.Frontier.{Frontier, IsFrontier, places_for};

/// A law: an event brings a crawl from where the events before it did to where these do with it, and where it breaks no rule,
/// and none of those did, none of them all does.
pub fn an_event_brings_a_crawl_on()
    ensures on { (x : Progress) (event : Seen) (places : List Place) (queues buckets : ℕ) (events : List Happened) →
        x ≡ progress queues buckets events →
        after_event x event places ≡ progress queues buckets (events ++ (event, places) ∷ []) }
    ensures lawful { (x : Progress) (event : Seen) (places : List Place) (queues buckets : ℕ) (events : List Happened) →
        x ≡ progress queues buckets events → broken x event places ≡ None → AreLegal queues buckets events →
        AreLegal queues buckets (events ++ (event, places) ∷ []) }
{}

/// A law: a pass breaks no rule where the crawl has begun, nothing is left in front, and the numbers of the fresh items rise, from
/// that of the last pass on and below that of the sent offers, whose number is the pass's.
pub fn a_pass_breaks_no_rule()
    ensures { (x : Frontier) (adds : List (List ℕ)) (fresh : List Item) → IsFrontier x → x.progress.begun ≡ true →
        x.progress.front ≡ [] → are_rising x.progress.read x.progress.sent (item_numbers fresh) ≡ true →
        broken x.progress (SeenPass x.progress.sent) (places_for adds x fresh) ≡ None }
{}

/// A law: the places of a pass go by the degrees of the domains alone, in whatever order pairs were told.
pub fn places_go_by_degrees()
    ensures { (x : Frontier) (fresh : List Item) (adds others : List (List ℕ)) →
        ((pld : List ℕ) → degree adds pld ≡ degree others pld) → places_for adds x fresh ≡ places_for others x fresh }
{}
