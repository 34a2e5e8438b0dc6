ghost use Rattle.std.specs.Prelude.{◌≡◌, ℕ, List, None, false};
ghost use Rattle.irl_events.specs.Events.{Event as Seen, Happened, Progress, after_event};
ghost use Rattle.irl_events.specs.Legal.{AreLegal, broken};
ghost use Rattle.irl_offer.specs.declared.place.Place.{Place};
ghost use Rattle.irl_log.specs.Visiting.{RefusesOneEvent};
ghost use Rattle.irl_ledger.specs.Broken.{LogHistory, RefusesAlone, TakesAlone, blank_history, keeps_alone};
ghost use Rattle.irl_ledger.specs.Broken.{outline_after, outline_of};
ghost use Rattle.irl_ledger.specs.Crawling.{events_of};

/// A law: an event that doesn't keep what the log shows by itself breaks a rule, whatever places passes give. So none of the
/// events of a crawl that keep the rules is refused.
pub fn a_legal_log_is_taken()
    ensures on { (x : Progress) (event : Seen) (places : List Place) →
        outline_of (after_event x event places) ≡ outline_after (outline_of x) event }
    ensures broken { (x : Progress) (event : Seen) (places : List Place) →
        keeps_alone (outline_of x) event ≡ false → broken x event places ≡ None → ⊥ }
    ensures taken { (queues buckets from at : ℕ) (events : List Happened) (after : LogHistory) →
        AreLegal queues buckets events →
        RefusesOneEvent TakesAlone RefusesAlone (blank_history buckets) after from (events_of events) at → ⊥ }
{}
