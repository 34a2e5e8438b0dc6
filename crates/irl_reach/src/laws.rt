ghost use Rattle.std.specs.Prelude.{◌≡◌, ◌≢◌, ◌<◌, ◌++◌, ◌∷◌, ℕ, List, [], Bool, IsTrue, AllPairs, length, map};
ghost use Rattle.std.specs.List.{AllByRecursion, Contains};
ghost use Rattle.std.specs.List.Sorted.{IsPermutation};
ghost use Rattle.irl_base.specs.Among.{IsAmong};
ghost use Rattle.irl_core.specs.States.{offers_of, url_text};
ghost use Rattle.irl_events.specs.Events.{Event, Begin, Happened, Progress, progress};
ghost use Rattle.irl_events.specs.State.{State, IsFrontState, blank_state};
ghost use Rattle.irl_fate.specs.Counting.{count_fate, is_fresh, is_last, is_queued};
ghost use Rattle.irl_fate.specs.Fates.{fate_of};
ghost use Rattle.irl_fate.specs.Kept.{is_done, is_front};
ghost use Rattle.irl_fate.specs.declared.fate.Fate.TheVariants.{Done as DoneFate};
ghost use Rattle.irl_key.specs.Key.{key_of};
ghost use Rattle.irl_model.specs.Book.{ArePrefixes, flushed_lists, pending, uniques};
ghost use Rattle.irl_offer.specs.declared.note.Note.{Note};
ghost use Rattle.irl_offer.specs.declared.note.NoteState.{NoteState};
ghost use Rattle.irl_offer.specs.declared.outcome.Outcome.{Outcome};
ghost use Rattle.irl_offer.specs.declared.place.Place.{Place};
ghost use Rattle.irl_offer.specs.declared.settings.Settings.{Settings};
ghost use Rattle.irl_offer.specs.Tuple.{Tuple};
ghost use Rattle.irl_record.specs.Fetched.{by_tape};
ghost use Rattle.irl_record.specs.Taped.{Taped};
ghost use Rattle.irl_reach.specs.Along.{IsAlong, KeysDiffer, keys_in, notes_in, settled_in};
ghost use Rattle.irl_reach.specs.Crawls.{AreVisits, Crawls, CrawlsOn, IsCrawlStore, IsStore, IsTold, IsVisit, LeavesNone, Visit, added_to, numbers_in, seed_offers, with_seeds, with_suffixes};
ghost use Rattle.irl_reach.specs.Reached.{IsClosed, Reached};
ghost use Rattle.irl_reach.specs.Tapes.{IsDue, IsNoteOn};

/// A tape gives each host one state of its robots file: there is one chain of its answers, and it ends.
pub fn one_note_a_host()
    ensures some { (tape : Taped) (host : List ℕ) → (state : NoteState) × IsNoteOn tape host state }
    ensures one { (tape : Taped) (host : List ℕ) (one other : NoteState) →
        IsNoteOn tape host one → IsNoteOn tape host other → one ≡ other }
{}

/// One outcome is due of each URL.
pub fn one_outcome_a_url()
    ensures some { (tape : Taped) (agent url : List ℕ) → (due : Outcome) × IsDue tape agent url due }
    ensures one { (tape : Taped) (agent url : List ℕ) (one other : Outcome) →
        IsDue tape agent url one → IsDue tape agent url other → one ≡ other }
{}

/// The keys that are reached hold those of the seeds and what each leads to, and each set of keys that does holds them.
/// A tape without a page leads to nothing but its seeds.
pub fn the_reached_are_least()
    ensures closed { (tape : Taped) (agent : List ℕ) → IsClosed tape agent (Reached tape agent) }
    ensures least { (tape : Taped) (agent : List ℕ) (holds : ℕ → Bool) →
        IsClosed tape agent (λ key. IsTrue (holds key)) → (key : ℕ) → Reached tape agent key → IsTrue (holds key) }
    ensures alone { (tape : Taped) (agent : List ℕ) → tape.records ≡ [] → (key : ℕ) → Reached tape agent key →
        (url : List ℕ) × Contains tape.seeds url × (key ≡ key_of url) }
{}

/// Of a crawl's store the outcomes that are settled are those of the numbers that are done.
pub fn what_is_settled_is_done()
    ensures settled { (settings : Settings) (state : State) (number : ℕ) (outcome : Outcome) →
        IsCrawlStore settings state → Contains (settled_in state.events) (number, outcome) →
        fate_of (progress settings.queues settings.buckets state.events) number ≡ DoneFate outcome }
    ensures done { (settings : Settings) (state : State) (number : ℕ) (outcome : Outcome) →
        fate_of (progress settings.queues settings.buckets state.events) number ≡ DoneFate outcome →
        Contains (settled_in state.events) (number, outcome) }
{}

/// Where no URL is fresh, in a queue, in the last list or in the front, each is done, and so it is where as many are done
/// as there are.
pub fn where_nothing_waits_all_is_done()
    ensures waits { (x : Progress) (numbers : List ℕ) (number : ℕ) → count_fate is_fresh x numbers ≡ 0 →
        count_fate is_queued x numbers ≡ 0 → count_fate is_last x numbers ≡ 0 → count_fate is_front x numbers ≡ 0 →
        Contains numbers number → (outcome : Outcome) × (fate_of x number ≡ DoneFate outcome) }
    ensures done { (x : Progress) (numbers : List ℕ) (number : ℕ) → count_fate is_done x numbers ≡ length numbers →
        Contains numbers number → (outcome : Outcome) × (fate_of x number ≡ DoneFate outcome) }
{}

/// Of a store that wasn't made yet nothing is asked but that the tape's keys differ.
pub fn a_blank_store_is_along()
    ensures { (tape : Taped) (agent : List ℕ) → KeysDiffer tape → IsAlong tape agent blank_state }
{}

/// What is along a tape, and what is reached, doesn't depend on the tape's suffixes.
pub fn suffixes_dont_matter()
    ensures along { (tape : Taped) (agent suffixes : List ℕ) (state : State) →
        IsAlong tape agent state → IsAlong (with_suffixes suffixes tape) agent state }
    ensures reached { (tape : Taped) (agent suffixes : List ℕ) (key : ℕ) →
        Reached tape agent key → Reached (with_suffixes suffixes tape) agent key }
{}

/// A crawl whose answers are a tape's leads from a state along the tape to one, and so does a stop in it: each state of
/// a store between its start and its end is along the tape.
pub fn a_crawl_stays_along()
    ensures between { (tape : Taped) (agent : List ℕ) (visits : List Visit) (start middle end : State) →
        IsAlong tape agent start → Crawls tape (by_tape tape) agent visits start end →
        IsStore start → IsStore middle → IsFrontState start middle → IsFrontState middle end →
        IsAlong tape agent middle }
    ensures end { (tape : Taped) (agent : List ℕ) (visits : List Visit) (start end : State) →
        IsAlong tape agent start → Crawls tape (by_tape tape) agent visits start end →
        IsStore start → IsStore end → IsFrontState start end → IsAlong tape agent end }
    // So it does where the crawl goes by other suffixes than the tape's, as one that began with a text of its own.
    ensures between_by { (tape input : Taped) (agent : List ℕ) (visits : List Visit) (start middle end : State) →
        input.seeds ≡ tape.seeds → IsAlong tape agent start → Crawls input (by_tape tape) agent visits start end →
        IsStore start → IsStore middle → IsFrontState start middle → IsFrontState middle end →
        IsAlong tape agent middle }
    ensures end_by { (tape input : Taped) (agent : List ℕ) (visits : List Visit) (start end : State) →
        input.seeds ≡ tape.seeds → IsAlong tape agent start → Crawls input (by_tape tape) agent visits start end →
        IsStore start → IsStore end → IsFrontState start end → IsAlong tape agent end }
{}

/// Where a state is along a tape, the seeds are offered, nothing is left to judge, and each unique URL is done, the
/// keys of the unique URLs are exactly those that are reached.
pub fn all_that_is_reached_is_judged()
    ensures { (tape : Taped) (agent : List ℕ) (settings : Settings) (state : State) →
        IsAlong tape agent state → IsCrawlStore settings state → pending state.urls ≡ [] →
        ((url : List ℕ) → Contains tape.seeds url → Contains (keys_in state.urls) (key_of url)) →
        ((number : ℕ) → Contains (numbers_in state.urls) number → (outcome : Outcome)
        × (fate_of (progress settings.queues settings.buckets state.events) number ≡ DoneFate outcome)) →
        (key : ℕ) → (Contains (map (λ p. p.1.key) (uniques state.urls)) key → Reached tape agent key)
        × (Reached tape agent key → Contains (map (λ p. p.1.key) (uniques state.urls)) key) }
{}

/// Two crawls, one after the other, are one, where no URL is visited twice. Each offers seeds of its own, and the
/// second one may settle what came of the first one's visits, so that what a turn or a call adds is shown by itself. Of
/// other answers than a tape's the lemmas of `proofs/Joining.antt` and `Turns.antt` say the same.
pub fn two_crawls_are_one()
    ensures crawls { (input tape : Taped) (agent : List ℕ) (few many : List (List ℕ)) (before first second : List Visit)
        (start middle end : State) →
        CrawlsOn (with_seeds few input) (by_tape tape) agent before first start middle →
        CrawlsOn (with_seeds many input) (by_tape tape) agent (before ++ first) second middle end →
        AllPairs (λ x y. x ≢ y) (map (λ (visit : Visit). visit.number) (first ++ second)) →
        IsStore start → IsStore middle → IsFrontState start middle → IsFrontState middle end →
        CrawlsOn (with_seeds (few ++ many) input) (by_tape tape) agent before (first ++ second) start end }
    ensures leaves { (input tape : Taped) (agent : List ℕ) (few many : List (List ℕ)) (before first second : List Visit)
        (start middle end : State) →
        CrawlsOn (with_seeds few input) (by_tape tape) agent before first start middle →
        CrawlsOn (with_seeds many input) (by_tape tape) agent (before ++ first) second middle end →
        IsStore start → IsStore middle → IsFrontState start middle → IsFrontState middle end →
        LeavesNone (with_seeds few input) first start middle → LeavesNone (with_seeds many input) second middle end →
        LeavesNone (with_seeds (few ++ many) input) (first ++ second) start end }
    ensures behind { (input tape : Taped) (agent : List ℕ) (before visits : List Visit) (start end : State) →
        Crawls input (by_tape tape) agent visits start end →
        CrawlsOn input (by_tape tape) agent before visits start end }
    // None is, where what came of the first visits is settled and nothing of the others: nothing of the front is.
    ensures once { (middle : State) (first second : List Visit) →
        AllPairs (λ x y. x ≢ y) (map (λ (visit : Visit). visit.number) first) →
        AllPairs (λ x y. x ≢ y) (map (λ (visit : Visit). visit.number) second) →
        AllByRecursion (λ (visit : Visit). Contains (map (λ d. d.0) (settled_in middle.events)) visit.number) first →
        AllByRecursion (λ (visit : Visit).
        Contains (map (λ d. d.0) (settled_in middle.events)) visit.number → ⊥) second →
        AllPairs (λ x y. x ≢ y) (map (λ (visit : Visit). visit.number) (first ++ second)) }
    ensures front { (settings : Settings) (state : State) (number : ℕ) → IsCrawlStore settings state →
        Contains (progress settings.queues settings.buckets state.events).front number →
        Contains (map (λ d. d.0) (settled_in state.events)) number → ⊥ }
    ensures settled { (input : Taped) (visits : List Visit) (start end : State) → LeavesNone input visits start end →
        AllByRecursion (λ (visit : Visit). Contains (map (λ d. d.0) (settled_in end.events)) visit.number) visits }
{}

/// What one step of a crawl adds is shown by itself.
pub fn a_step_is_a_crawl()
    // A unique URL of a store was offered there.
    ensures offered { (settings : Settings) (state : State) (number : ℕ) → IsCrawlStore settings state →
        Contains (numbers_in state.urls) number →
        Contains (map (λ offer. offer.aux) (offers_of state.urls)) (url_text state.urls number) }
    // Visits to URLs that were offered before all of them need no order.
    ensures apart { (suffixes : List ℕ) (tape : Taped) (agent : List ℕ) (end : State) (made : List Tuple)
        (visits : List Visit) → AllByRecursion (IsVisit suffixes (by_tape tape) agent end made) visits →
        AreVisits suffixes (by_tape tape) agent end made visits }
    // Where nothing is visited, seeds may be offered, and events may settle nothing.
    ensures unvisited { (input tape : Taped) (agent : List ℕ) (before : List Visit) (start end : State)
        (more : List Happened) →
        IsAmong (added_to start.urls.lists end.urls.lists) (seed_offers input) →
        end.events ≡ start.events ++ more →
        ((h : Happened) (suffixes : List ℕ) → Contains more h → h.0 ≡ Begin suffixes → suffixes ≡ input.suffixes) →
        ((note : Note) → Contains (notes_in more) note → IsNoteOn tape note.host note.state) →
        settled_in more ≡ [] → CrawlsOn input (by_tape tape) agent before [] start end }
    // So it is with offers of seeds alone, with cuts and pairs, which change no list of URLs and may come with an event
    // that tells nothing here, and with a store that is made.
    ensures seeds { (input tape : Taped) (agent : List ℕ) (before : List Visit) (start end : State) →
        IsAmong (added_to start.urls.lists end.urls.lists) (seed_offers input) → end.events ≡ start.events →
        CrawlsOn input (by_tape tape) agent before [] start end }
    ensures quiet { (input tape : Taped) (agent : List ℕ) (before : List Visit) (start end : State) →
        end.urls.lists ≡ start.urls.lists → end.events ≡ start.events →
        CrawlsOn input (by_tape tape) agent before [] start end }
    ensures event { (input tape : Taped) (agent : List ℕ) (before : List Visit) (start end : State) (event : Event)
        (places : List Place) → end.urls.lists ≡ start.urls.lists →
        end.events ≡ start.events ++ (event, places) ∷ [] → IsTold input.suffixes (by_tape tape) event →
        CrawlsOn input (by_tape tape) agent before [] start end }
    ensures made { (input tape : Taped) (agent : List ℕ) (before : List Visit) (end : State) →
        offers_of end.urls ≡ [] → end.events ≡ [] →
        CrawlsOn input (by_tape tape) agent before [] blank_state end }
{}

/// What is added to lists by flushes, one after another, is in some order what each of them adds.
pub fn flushes_add_offers()
    ensures none { (lists : List (List Tuple)) → added_to lists lists ≡ [] }
    ensures more { (lists longer : List (List Tuple)) (b : ℕ) (news : List Tuple) → ArePrefixes lists longer →
        b < length longer →
        IsPermutation (added_to lists (flushed_lists b news longer)) (added_to lists longer ++ news) }
{}
