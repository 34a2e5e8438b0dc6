ghost use Rattle.std.specs.Prelude.{◌≤◌, ◌<◌, ◌+◌, ◌++◌, ℕ, List, flat_map, length, map};
ghost use Rattle.irl_answer.specs.Found.{offer_from};
ghost use Rattle.irl_base.specs.Among.{IsAmong};
ghost use Rattle.irl_crawl.specs.Room.{HasRoomFor, most_handed};
ghost use Rattle.irl_crawl.specs.Sending.{pairs_for};
ghost use Rattle.irl_events.specs.State.{State};
ghost use Rattle.irl_model.specs.Book.{Book, IsBook, IsFront, part};
ghost use Rattle.irl_offer.specs.Tuple.{Tuple};
ghost use Rattle.irl_offer.specs.declared.settings.Settings.{Settings};
ghost use Rattle.irl_reach.specs.Crawls.{Visit, added_to, found_by};
ghost use Rattle.irl_schedule.specs.Feeding.{list_at};

/// A crawl of few pages hands in few offers, whatever it is answered: its seeds, and as many of each page as are offered.
/// Where each list has room for so many, no list that takes them is full.
pub fn a_crawl_of_few_pages_has_room()
    ensures handed { (suffixes : List ℕ) (seeds : List (List ℕ)) (urls : Book) (visits : List Visit) (pages : ℕ) →
        length visits ≤ pages →
        length (map (offer_from 0) seeds ++ flat_map (found_by suffixes urls) visits) ≤ most_handed pages seeds }
    ensures urls { (settings : Settings) (handed : List Tuple) (most : ℕ) (state : State) →
        HasRoomFor most settings state → length handed ≤ most → (b : ℕ) → b < settings.buckets →
        length (list_at state.urls b) + length (part settings.buckets b handed) ≤ settings.cap }
    ensures pairs { (suffixes : List ℕ) (settings : Settings) (handed : List Tuple) (most : ℕ) (state later : State) →
        HasRoomFor most settings state → length handed ≤ most → IsFront state.urls later.urls → IsBook later.urls →
        IsAmong (added_to state.urls.lists later.urls.lists) handed → (b : ℕ) → b < settings.buckets →
        length (pairs_for suffixes settings state later.urls b) ≤ settings.cap }
{}
