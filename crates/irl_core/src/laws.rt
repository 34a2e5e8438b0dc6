ghost use Rattle.std.specs.Prelude.{◌≡◌, ◌≢◌, ◌<◌, ◌≤◌, ◌+◌, ◌-◌, ◌++◌, ◌∷◌, ℕ, List, [], map, max, true, false, slice_index, AllPairs};
ghost use Rattle.irl_offer.specs.Settings.{AreValid};
ghost use Rattle.irl_offer.specs.Tuple.{Tuple};
ghost use Rattle.irl_offer.specs.declared.outcome.Outcome.{Outcome};
ghost use Rattle.irl_offer.specs.declared.receipt.Receipt.{Receipt};
ghost use Rattle.irl_offer.specs.declared.settings.Settings.{Settings};
ghost use Rattle.irl_model.specs.Book.{Book, IsBook, IsFront, IsPrefixOf, IsBelow, judged, lengths_of, uniques};
ghost use Rattle.irl_offer.specs.declared.place.Place.{Place};
ghost use Rattle.irl_events.specs.Events.{Happened, Progress, Pass as PassEvent, Settle as SettleEvent, has_number, progress};
ghost use Rattle.irl_events.specs.Legal.{broken};
ghost use Rattle.irl_fate.specs.Fates.{fate_of};
ghost use Rattle.irl_fate.specs.Standing.{count, one_if, stands};
ghost use Rattle.irl_fate.specs.declared.fate.Fate.TheVariants.{Fresh as FreshFate, Queue as QueueFate, Done as DoneFate};
ghost use Rattle.irl_core.specs.Laws.{IsCore, GivenAt, NoneStopped, StandsAt, given, is_stop, takes_effect};
ghost use Rattle.irl_core.specs.Stores.{AreEquallyFar, IsStored, is_step, steps_among, core_of_store, opened_core};
ghost use Rattle.irl_core.specs.Steps.{CoreState, after_steps, array_of, broken_in_core, core_of, course, durable_in, new_core, pending_in, step, unread, url_numbers, with_event};
ghost use Rattle.irl_core.specs.declared.step.Reply.TheVariants.{Receipt as ReceiptReply, Taken, Stopped, Refused};
ghost use Rattle.irl_core.specs.declared.step.Step.{Step};
ghost use Rattle.irl_core.specs.declared.step.Step.TheVariants.{Offer, Flush, Merge, Settle, FlushStop, MergeStop, SettleStop};

/// A new core has what every core keeps, and each step leaves it; so it holds whatever the steps were.
pub fn each_step_keeps_a_core()
    ensures new { (settings : Settings) → AreValid settings → IsCore (new_core settings) }
    ensures step { (x : CoreState) (s : Step) → IsCore x → IsCore (step x s).0 }
    ensures steps { (x : CoreState) (steps : List Step) → IsCore x → IsCore (after_steps x steps) }
    ensures all { (settings : Settings) (steps : List Step) → AreValid settings → IsCore (core_of settings steps) }
{}

/// Whatever the steps were, what was given and judged is a book, and no key is judged Unique twice.
pub fn the_urls_are_a_book()
    ensures keys { (x : CoreState) → AllPairs (λ x y. x ≢ y) (map (λ p. p.1.key) (uniques x.urls)) }
    ensures all { (settings : Settings) (steps : List Step) → AreValid settings →
        IsBook (core_of settings steps).urls }
{}

/// Each number of a URL stands once: among those that no pass has read, or in the front, a queue, the last list or what is
/// done. No other number stands anywhere. One that no pass has read is fresh, and one that was read never is again. A queue
/// that holds one is in use, and this round has not read it yet.
pub fn each_url_stands_once()
    ensures once { (x : CoreState) (n : ℕ) → IsCore x →
        count n (unread x (url_numbers x)) + stands (course x) n ≡ one_if (has_number (url_numbers x) n) }
    ensures fresh { (x : CoreState) (n : ℕ) → IsCore x →
        has_number (unread x (url_numbers x)) n ≡ true → fate_of (course x) n ≡ FreshFate }
    ensures read { (x : CoreState) (n : ℕ) → IsCore x →
        has_number (url_numbers x) n ≡ true → n < (course x).read → fate_of (course x) n ≢ FreshFate }
    ensures queue { (x : CoreState) (n i : ℕ) → IsCore x → fate_of (course x) n ≡ QueueFate i →
        ((course x).waiting.passes < i) × (i ≤ (course x).waiting.queues) }
    ensures all { (settings : Settings) (steps : List Step) (n : ℕ) → AreValid settings →
        let x = core_of settings steps in
        count n (unread x (url_numbers x)) + stands (course x) n ≡ one_if (has_number (url_numbers x) n) }
{}

/// No list is shorter than what is acknowledged of it.
pub fn what_is_acknowledged_is_there()
    ensures { (settings : Settings) (steps : List Step) → AreValid settings →
        IsBelow (core_of settings steps).acknowledged (lengths_of (core_of settings steps).urls) }
{}

/// Steps take nothing from a list, and unsay no cut, no verdict, no event, no outcome and no acknowledgement: what is done stays
/// done, with the same outcome.
pub fn what_was_there_stays()
    ensures settings { (x : CoreState) (steps : List Step) → (after_steps x steps).settings ≡ x.settings }
    ensures urls { (x : CoreState) (steps : List Step) → IsFront x.urls (after_steps x steps).urls }
    ensures verdicts { (x : CoreState) (steps : List Step) → IsCore x →
        IsPrefixOf (judged x.urls) (judged (after_steps x steps).urls) }
    ensures events { (x : CoreState) (steps : List Step) → IsPrefixOf x.events (after_steps x steps).events }
    ensures done { (x : CoreState) (steps : List Step) (n : ℕ) (outcome : Outcome) → IsCore x →
        fate_of (course x) n ≡ DoneFate outcome → fate_of (course (after_steps x steps)) n ≡ DoneFate outcome }
    ensures read { (x : CoreState) (steps : List Step) → IsCore x
        → (course x).read ≤ (course (after_steps x steps)).read }
    ensures acknowledged { (x : CoreState) (steps : List Step) → IsCore x →
        IsBelow x.acknowledged (after_steps x steps).acknowledged }
{}

/// No list passes the cap, and no bucket has more pending than a trigger and an array make, but where it was so before.
pub fn lists_stay_within_bounds()
    ensures cap { (x : CoreState) (steps : List Step) (b : ℕ) → IsCore x →
        durable_in (after_steps x steps) b ≤ max x.settings.cap (durable_in x b) }
    ensures pending { (x : CoreState) (steps : List Step) (b : ℕ) → IsCore x →
        pending_in (after_steps x steps) b ≤ max (x.settings.trigger - 1 + x.settings.array) (pending_in x b) }
{}

/// A stop leaves, of what a bucket was given, its list and then its array, a prefix, and nothing in memory. It acknowledges
/// nothing.
pub fn a_stop_leaves_a_prefix()
    ensures given { (x : CoreState) (s : Step) (b : ℕ) → is_stop s ≡ true →
        IsPrefixOf (given (step x s).0 b) (given x b) }
    ensures empty { (x : CoreState) (s : Step) (b : ℕ) → (step x s).1 ≡ Stopped →
        array_of (step x s).0 b ≡ [] }
    ensures acknowledged { (x : CoreState) (s : Step) → is_stop s ≡ true →
        (step x s).0.acknowledged ≡ x.acknowledged }
{}

/// A stop in a call leaves what the call makes of the store, or what was before it.
pub fn a_stop_takes_effect_or_not()
    ensures flush { (x : CoreState) (b : ℕ) → (step x (FlushStop b true)).0.urls ≡ (step x (Flush b)).0.urls }
    ensures merge { (x : CoreState) → (step x (MergeStop true)).0.urls ≡ (step x Merge).0.urls }
    ensures settle { (x : CoreState) (outcomes : List (ℕ × Outcome)) →
        (step x (SettleStop outcomes true)).0.events ≡ (step x (Settle outcomes)).0.events }
    ensures none { (x : CoreState) (s : Step) → takes_effect s ≡ false →
        ((step x s).0.urls ≡ x.urls) × ((step x s).0.events ≡ x.events) }
{}

/// An offer that got a receipt, and that no stop took from its array before a flush of its bucket was taken, stands in the
/// bucket's list at the receipt's number, from then on and whatever the steps are. What is acknowledged then counts it. A
/// stop in the flush leaves it there too, where the flush took effect.
pub fn a_flushed_offer_stands_at_its_number()
    ensures number { (x : CoreState) (b : ℕ) (offer : Tuple) (receipt : Receipt) (between later : List Step) → IsCore x
        →
        let y = after_steps (step x (Offer b offer)).0 between in
        (step x (Offer b offer)).1 ≡ ReceiptReply receipt → NoneStopped (step x (Offer b offer)).0 between →
        (step y (Flush b)).1 ≡ Taken → StandsAt (after_steps (step y (Flush b)).0 later) receipt offer }
    ensures acknowledged { (x : CoreState) (b : ℕ) (offer : Tuple) (receipt : Receipt) (between later : List Step) →
        IsCore x → let y = after_steps (step x (Offer b offer)).0 between in
        (step x (Offer b offer)).1 ≡ ReceiptReply receipt → NoneStopped (step x (Offer b offer)).0 between →
        (step y (Flush b)).1 ≡ Taken →
        receipt.number < slice_index (after_steps (step y (Flush b)).0 later).acknowledged b }
    ensures stopped { (x : CoreState) (b : ℕ) (offer : Tuple) (receipt : Receipt) (between later : List Step) → IsCore x
        →
        let y = after_steps (step x (Offer b offer)).0 between in
        (step x (Offer b offer)).1 ≡ ReceiptReply receipt → NoneStopped (step x (Offer b offer)).0 between →
        (step y (FlushStop b true)).1 ≡ Stopped →
        StandsAt (after_steps (step y (FlushStop b true)).0 later) receipt offer }
{}

/// What a bucket was given, its list and then its array, keeps its numbers through every step that stops nothing. An offer
/// and a flush touch no other bucket.
pub fn what_was_given_keeps_its_number()
    ensures receipt { (x : CoreState) (b : ℕ) (offer : Tuple) (receipt : Receipt) → IsCore x → b < x.settings.buckets →
        (step x (Offer b offer)).1 ≡ ReceiptReply receipt →
        (receipt.bucket ≡ b) × GivenAt (step x (Offer b offer)).0 b receipt.number offer }
    ensures step { (x : CoreState) (s : Step) (b number : ℕ) (offer : Tuple) → IsCore x → (step x s).1 ≢ Stopped →
        GivenAt x b number offer → GivenAt (step x s).0 b number offer }
    ensures list { (x : CoreState) (s : Step) (receipt : Receipt) (offer : Tuple) →
        StandsAt x receipt offer → StandsAt (step x s).0 receipt offer }
    ensures others { (x : CoreState) (b c : ℕ) (offer : Tuple) → c ≢ b →
        (array_of (step x (Offer b offer)).0 c ≡ array_of x c) × (given (step x (Flush b)).0 c ≡ given x c) }
{}

/// A step that is refused changes nothing.
pub fn a_refused_step_changes_nothing()
    ensures { (x : CoreState) (s : Step) → (step x s).1 ≡ Refused → (step x s).0 ≡ x }
{}

/// A crawl's beginning, sent pairs and robots files are no steps: without them a crawl has come equally far, each number has the
/// same fate, and the rules of passes and settles are those of a core.
pub fn other_events_are_no_steps()
    ensures equally_far { (queues buckets : ℕ) (events : List Happened) →
        AreEquallyFar (progress queues buckets events) (progress queues buckets (steps_among events)) }
    ensures fates { (x y : Progress) (n : ℕ) → AreEquallyFar x y → fate_of x n ≡ fate_of y n }
    ensures passes { (x y : Progress) (judged : ℕ) (places : List Place) → AreEquallyFar x y → x.begun ≡ true →
        x.sent ≡ judged → broken x (PassEvent judged) places ≡ broken_in_core y judged (PassEvent judged) places }
    ensures settles { (x y : Progress) (judged : ℕ) (fronts : List ℕ) (outcomes : List (ℕ × Outcome))
        → AreEquallyFar x y →
        x.begun ≡ true → broken x (SettleEvent fronts outcomes) []
        ≡ broken_in_core y judged (SettleEvent fronts outcomes) [] }
    ensures others { (settings : Settings) (arrays : List (List Tuple)) (urls : Book) (events : List Happened)
        (h : Happened)
        (acknowledged : List ℕ) → is_step h.0 ≡ false
        → core_of_store settings arrays urls (events ++ h ∷ []) acknowledged
        ≡ core_of_store settings arrays urls events acknowledged }
    ensures steps { (settings : Settings) (arrays : List (List Tuple)) (urls : Book) (events : List Happened)
        (h : Happened)
        (acknowledged : List ℕ) → is_step h.0 ≡ true
        → core_of_store settings arrays urls (events ++ h ∷ []) acknowledged
        ≡ with_event h.0 h.1 (core_of_store settings arrays urls events acknowledged) }
{}

/// A store that was opened is a core, from which the other laws go on, where its settings are valid, its URLs are a book, its
/// events break no rule, each pass has read the next queue and the URLs that none had read, and no event tells of more offers
/// than are there.
pub fn an_opened_store_is_a_core()
    ensures { (settings : Settings) (urls : Book) (events : List Happened) → IsStored settings urls events →
        IsCore (opened_core settings urls events) }
{}
