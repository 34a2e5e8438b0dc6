ghost use Rattle.std.specs.Prelude.{◌≡◌, ◌≢◌, ◌<◌, ℕ, List, [], ◌∷◌, map, Result, Some};
ghost use Rattle.irl_base.specs.declared.fault.Fault.{Fault};
ghost use Rattle.irl_offer.specs.Tuple.{Tuple};
ghost use Rattle.irl_offer.specs.declared.note.Note.{Note};
ghost use Rattle.irl_offer.specs.declared.settings.Asked.{Asked};
ghost use Rattle.irl_offer.specs.declared.place.Place.{Place};
ghost use Rattle.irl_model.specs.Book.{Book, IsFront, IsPrefixOf, judged};
ghost use Rattle.irl_events.specs.Events.{Event, Robots as SeenRobots};
ghost use Rattle.irl_events.specs.State.{State, IsFrontState};
ghost use Rattle.irl_disk.specs.Disk.{Files};
ghost use Rattle.irl_layout.specs.BayFiles.{IsBucketFile};
ghost use Rattle.irl_layout.specs.Commits.{live_offers, live_side};
ghost use Rattle.irl_bay.specs.Drum.{Drum, IsDrum};
ghost use Rattle.irl_bay.specs.Merging.{IsMergeFile};
ghost use Rattle.irl_layout.specs.Runs.{AreRuns, run_bytes};
ghost use Rattle.irl_schedule.specs.Feeding.{Waits, Fed, Stays, Stranded};
ghost use Rattle.irl_ledger.specs.Crawling.{MayFollow};
ghost use Rattle.irl_yard.specs.declared.parts.Parts.{Parts};
ghost use Rattle.irl_yard.specs.Adding.{AddsEvent, AddsNotes, with_event, with_notes};
ghost use Rattle.irl_yard.specs.Holding.{HoldsOpen, HoldsState, HasJournal, with_offers, with_cut};
ghost use Rattle.irl_yard.specs.Leading.{FailsAt, LeadsOrStays, LeadsTo};
ghost use Rattle.irl_yard.specs.Lifting.{IsWithBook, LiftsBooks};
ghost use Rattle.irl_yard.specs.Moments.{moment_at};
ghost use Rattle.irl_yard.specs.Opening.{entered_state};
ghost use Rattle.irl_yard.specs.Passing.{PassesState, with_pass};
ghost use Rattle.irl_yard.specs.Standing.{HasState, with_urls};

use crate::parts::Parts;
use crate::yard::Yard;
use irl_disk::Store;

/// The files of a store stand for at most one state.
pub fn one_state()
    ensures { (x y : State) (files : Files) → HasState x files → HasState y files → x ≡ y }
{}

/// What a stop now may leave stands for the state that an open store holds, and so does what the store tells. Each
/// bucket's live journal has in its records the offers of the bucket's list that the last commit leaves to the live side.
pub fn what_is_held_has_its_state<S: Store>(store: &S, parts: &Parts)
    ensures left { (state : State) (image : Files) → IsDrum parts.now.urls →
        HoldsState (S.told store.now).images parts.now state → (S.told store.now).images image →
        HasState state image }
    ensures told { (state : State) (files : Files) → IsDrum parts.now.urls →
        HoldsState (S.told store.now).images parts.now state → (S.told store.now).files ≡ Some files →
        HasState state files }
    ensures records { (state : State) (b : ℕ) → HoldsState (S.told store.now).images parts.now state →
        b < parts.now.urls.settings.buckets → (runs : List (List Tuple))
        × AreRuns parts.now.urls.settings.array (live_offers state.urls parts.now.urls.last b) runs
        × HasJournal (S.told store.now).images parts.now.urls b (map run_bytes runs) }
{}

/// A state is a front of what opening, flushes, merges and events make of it, and of what has a longer book of pairs.
/// What was judged of a front stays.
pub fn states_grow()
    ensures same { (state : State) → IsFrontState state state }
    ensures both { (x y z : State) → IsFrontState x y → IsFrontState y z → IsFrontState x z }
    ensures offers { (b : ℕ) (news : List Tuple) (state : State) → IsFrontState state (with_offers b news state) }
    ensures cut { (state : State) → IsFrontState state (with_cut state) }
    ensures entered { (asked : Asked) (state : State) → IsFrontState state (entered_state asked state) }
    ensures event { (event : Event) (places : List Place) (state : State) →
        IsFrontState state (with_event event places state) }
    ensures pairs { (state : State) (book : Book) → IsFront state.pairs book →
        IsFrontState state (record state { pairs = book }) }
    ensures judged { (x y : State) (files : Files) → HasState x files → IsFrontState x y →
        IsPrefixOf (judged x.urls) (judged y.urls) }
{}

/// Several notes at once make of a state what each of them makes in turn, of which it is a front.
pub fn notes_are_events()
    ensures none { (state : State) → with_notes [] state ≡ state }
    ensures more { (note : Note) (notes : List Note) (state : State) → with_notes (note ∷ notes) state
        ≡ with_notes notes (with_event (SeenRobots note) [] state) }
    ensures front { (notes : List Note) (state : State) → IsFrontState state (with_notes notes state) }
{}

/// What calls over the bay of URLs make of the state that an open store holds, where only files of the bay change: a
/// book stands for the state with it.
pub fn books_make_states<S: Store>(before: &Yard<S>, after: &Yard<S>)
    ensures lifts { (waits later : Waits) (state : State) → IsDrum before.now.parts.urls →
        HoldsState (S.told before.now.store).images before.now.parts state →
        Stays (moment_at before.now waits) (moment_at after.now later) →
        LiftsBooks state (moment_at before.now waits) (moment_at after.now later) }
    // What is open beside the bay stays open with the rest of the state.
    ensures open_rest { (waits later : Waits) (state : State) (book : Book) → IsDrum before.now.parts.urls →
        HoldsState (S.told before.now.store).images before.now.parts state →
        Stays (moment_at before.now waits) (moment_at after.now later) →
        after.now.parts.rest ≡ before.now.parts.rest →
        MayFollow before.now.parts.urls.settings.kind state.urls book → HoldsOpen (S.told after.now.store).images
        after.now.parts.urls.settings after.now.parts.rest book state.pairs state.events }
{}

/// What calls of the schedule make of the book of URLs leads the state that an open store held, with that book; where the store
/// failed the files stand for the state with one of their books.
pub fn books_lead_states<S: Store>(before: &Yard<S>, after: &Yard<S>)
    ensures leads { (waits later : Waits) (state : State) (early : ℕ) (uneven : ℕ → ℕ) (news : List Tuple) →
        let old = moment_at before.now waits in
        let new = moment_at after.now later in
        IsDrum before.now.parts.urls → HoldsState old.store.images before.now.parts state → Stays old new →
        after.now.parts.rest ≡ before.now.parts.rest → (fed : Fed early uneven news old new state.urls) →
        MayFollow old.drum.settings.kind state.urls fed.book →
        LeadsTo state (with_urls fed.book state) after.now.parts old.store new.store }
    ensures fails { (waits later : Waits) (state : State) (early : ℕ) (uneven : ℕ → ℕ) (news : List Tuple) →
        let old = moment_at before.now waits in
        let new = moment_at after.now later in
        IsDrum before.now.parts.urls → HoldsState old.store.images before.now.parts state → Stays old new →
        (stranded : Stranded early uneven news old new state.urls) →
        MayFollow old.drum.settings.kind state.urls stranded.most →
        (fails : FailsAt (IsWithBook old.drum.settings.kind state) state old.store new.store)
        × (fails.kept ≡ with_urls stranded.kept state) × (fails.state ≡ with_urls stranded.book state)
        × (fails.most ≡ with_urls stranded.most state) }
{}

/// A pass, a call that adds one event, and one that adds several notes, lead the state that an open store held to the state
/// with the events; refused, and not by the store, they leave it at each moment.
pub fn calls_lead_states<S: Store>(before: &S, after: &S)
    ensures pass { (result : Result ℕ Fault) (was now : Parts) (state : State) (files : Files) →
        IsDrum was.urls → (S.told before.now).files ≡ Some files →
        HoldsState (S.told before.now).images was state →
        PassesState S.told result was now before.now after.now →
        LeadsOrStays result state (with_pass was.urls.settings state) now (S.told before.now) (S.told after.now) }
    ensures event { (result : Result Unit Fault) (event : Event) (was now : Parts) (state : State) →
        IsDrum was.urls → HoldsState (S.told before.now).images was state →
        AddsEvent S.told result event was now before.now after.now →
        LeadsOrStays result state (with_event event [] state) now (S.told before.now) (S.told after.now) }
    ensures notes { (result : Result Unit Fault) (notes : List Note) (was now : Parts) (state : State) →
        IsDrum was.urls → HoldsState (S.told before.now).images was state →
        AddsNotes S.told result notes was now before.now after.now →
        LeadsOrStays result state (with_notes notes state) now (S.told before.now) (S.told after.now) }
{}

/// A bucket's files on a side are no other's, and none on the other side. A merge changes none of the live ones.
pub fn a_buckets_files_are_its_own()
    ensures bucket { (base side b c f : ℕ) → b ≢ c → IsBucketFile base side b f → IsBucketFile base side c f → ⊥ }
    ensures sides { (base b c f : ℕ) → b < 64 → c < 64 → IsBucketFile base 0 b f → IsBucketFile base 1 c f → ⊥ }
    ensures merge { (drum : Drum) (b f : ℕ) → IsDrum drum → b < drum.settings.buckets →
        IsBucketFile drum.base (live_side drum.last) b f → IsMergeFile drum f → ⊥ }
{}
