ghost use Rattle.std.specs.Prelude.{◌≡◌, ℕ, List, [], ◌∷◌, ◌++◌, map, None, unwrap_or};
ghost use Rattle.irl_offer.specs.Settings.{AreValid};
ghost use Rattle.irl_offer.specs.declared.place.Place.{Place};
ghost use Rattle.irl_offer.specs.declared.settings.Settings.{Settings};
ghost use Rattle.irl_offer.specs.Tuple.{Tuple};
ghost use Rattle.irl_model.specs.Book.{Book, IsBook, IsFront, blank_book};
ghost use Rattle.irl_events.specs.Events.{Event, Begin, Happened, progress};
ghost use Rattle.irl_events.specs.Legal.{broken};
ghost use Rattle.irl_events.specs.Links.{linked};
ghost use Rattle.irl_star.specs.Budgets.{budget, degree};
ghost use Rattle.irl_offer.specs.declared.offer.Rule.TheVariants.{Keep};
ghost use Rattle.irl_offer.specs.declared.place.Slot.TheVariants.{Front, Last, Queue};
ghost use Rattle.irl_core.specs.Laws.{IsCore};
ghost use Rattle.irl_core.specs.States.{AreSent, HoldsLinks, IsLegalState, IsOfBooks, begun_with, uniques_within};
ghost use Rattle.irl_core.specs.Stores.{IsStored, opened_core};
ghost use Rattle.irl_core.specs.Worked as worked;

/// The definition of legal states at one small crawl: the second URL of a domain with a budget of one page waits in the next
/// queue, and would be in the wrong place behind all queues. It is as legal where a later cut has judged a URL that nothing has
/// read yet, where the pass reads that URL too, in front, since its domain has a budget of three pages, and where a second pass
/// reads what waits and then that URL. Not legal are: pairs that aren't sent, an event that counts other offers than were
/// judged, a pair with another domain, a pair that no link has, a settle past the end of a list, a place beside another event
/// than a pass, and pairs where no crawl has begun. A new store is legal.
pub fn a_worked_crawl_is_legal()
    ensures legal { IsLegalState worked.domain worked.key worked.settings worked.urls worked.pairs
        (worked.events (Queue 2)) }
    ensures place { IsLegalState worked.domain worked.key worked.settings worked.urls worked.pairs (worked.events Last)
        → ⊥ }
    ensures later { IsLegalState worked.domain worked.key worked.settings worked.more_urls worked.pairs
        (worked.events (Queue 2)) }
    ensures budget { IsLegalState worked.domain worked.key worked.settings worked.more_urls worked.pairs
        (worked.more_events Front) }
    ensures no_budget { IsLegalState worked.domain worked.key worked.settings worked.more_urls worked.pairs
        (worked.more_events (Queue 2)) → ⊥ }
    ensures again { IsLegalState worked.domain worked.key worked.settings worked.more_urls worked.pairs
        worked.two_passes }
    ensures unsent { IsLegalState worked.domain worked.key worked.settings worked.urls worked.pairs
        (worked.crawl 1 3 0 (worked.places (Queue 2)) 3) → ⊥ }
    ensures counted { IsLegalState worked.domain worked.key worked.settings worked.urls worked.pairs
        (worked.crawl 1 2 1 (worked.at 0 Front ∷ worked.at 1 (Queue 2) ∷ []) 3) → ⊥ }
    ensures other_text { IsLegalState worked.domain worked.key worked.settings worked.urls worked.other_pairs
        (worked.events (Queue 2)) → ⊥ }
    ensures stray { IsLegalState worked.domain worked.key worked.settings worked.urls worked.stray_pairs
        (worked.events (Queue 2)) → ⊥ }
    ensures past_list { IsLegalState worked.domain worked.key worked.settings worked.urls worked.pairs
        (worked.crawl 1 3 1 (worked.places (Queue 2)) 4) → ⊥ }
    ensures beside { IsLegalState worked.domain worked.key worked.settings worked.urls worked.pairs
        ((Begin [], worked.at 0 Front ∷ []) ∷ []) → ⊥ }
    ensures unbegun { IsLegalState worked.domain worked.key worked.settings worked.urls worked.pairs [] → ⊥ }
    ensures blank { IsLegalState worked.domain worked.key worked.settings (blank_book 1 Keep) (blank_book 1 Keep) [] }
{}

/// An event that breaks no rule, and of which the books say what they have to, leaves a legal state.
pub fn one_event_more_is_legal()
    ensures { (domain : List ℕ → List ℕ → List ℕ) (key : List ℕ → ℕ) (settings : Settings) (urls pairs : Book)
        (events : List Happened) (event : Event) (places : List Place) →
        IsLegalState domain key settings urls pairs events →
        broken (progress settings.queues settings.buckets events) event places ≡ None →
        IsOfBooks (domain (unwrap_or (begun_with (events ++ (event, places) ∷ [])) [])) key settings urls pairs
        (progress settings.queues settings.buckets events) event places →
        IsLegalState domain key settings urls pairs (events ++ (event, places) ∷ []) }
{}

/// Books that grow, as by flushes and merges, keep a legal state: what was judged stays, so that the events say of the longer
/// book what they said of its front.
pub fn longer_books_keep_a_legal_state()
    ensures urls { (domain : List ℕ → List ℕ → List ℕ) (key : List ℕ → ℕ) (settings : Settings) (urls more pairs : Book)
        (events : List Happened) → IsBook urls → IsFront urls more →
        IsLegalState domain key settings urls pairs events → IsLegalState domain key settings more pairs events }
    // The pairs' book may be offered what it may hold, and nothing else.
    ensures pairs { (domain : List ℕ → List ℕ → List ℕ) (key : List ℕ
        → ℕ) (settings : Settings) (urls pairs more : Book)
        (events : List Happened) → IsBook pairs → IsFront pairs more
        → HoldsLinks domain key urls more (begun_with events) →
        IsLegalState domain key settings urls pairs events → IsLegalState domain key settings urls more events }
{}

/// The budgets that the links of sent pairs give are those that the unique pairs give which were judged when they were sent, each
/// of which counts for the domain that it leads to: so they are told from the book of pairs alone.
pub fn sent_pairs_give_the_budgets()
    ensures degrees { (links : List Tuple) (urls pairs : Book) (cuts judged sent : ℕ) →
        AreSent links urls pairs cuts judged sent → (domain : List ℕ) →
        degree (map (λ p. p.1.aux) (uniques_within 0 sent pairs)) domain ≡ degree (linked links) domain }
    ensures budgets { (links : List Tuple) (urls pairs : Book) (cuts judged sent : ℕ) →
        AreSent links urls pairs cuts judged sent → (settings : Settings) (domain : List ℕ) →
        budget settings (map (λ p. p.1.aux) (uniques_within 0 sent pairs)) domain
        ≡ budget settings (linked links) domain }
{}

/// A legal store that was opened is a core, where its settings are valid and its URLs are a book of these settings. The numbers
/// of a pass's places are those that it reads, and no pairs tell of more offers than are judged: so the laws of cores go on
/// from it.
pub fn a_legal_store_is_a_core()
    ensures stored { (domain : List ℕ → List ℕ → List ℕ) (key : List ℕ → ℕ) (settings : Settings) (urls pairs : Book)
        (events : List Happened) → AreValid settings → IsBook urls → urls.buckets ≡ settings.buckets →
        urls.rule ≡ settings.rule → IsLegalState domain key settings urls pairs events → IsStored settings urls events }
    ensures core { (domain : List ℕ → List ℕ → List ℕ) (key : List ℕ → ℕ) (settings : Settings) (urls pairs : Book)
        (events : List Happened) → AreValid settings → IsBook urls → urls.buckets ≡ settings.buckets →
        urls.rule ≡ settings.rule → IsLegalState domain key settings urls pairs events →
        IsCore (opened_core settings urls events) }
{}
