ghost use Rattle.std.specs.Prelude.{◌≡◌, ◌+◌, ◌≤◌, ℕ, List, [], length, None};
ghost use Rattle.irl_offer.specs.Tuple.{Tuple};
ghost use Rattle.irl_offer.specs.declared.done.Done.{Done};
ghost use Rattle.irl_offer.specs.declared.outcome.Outcome.{Outcome};
ghost use Rattle.irl_offer.specs.declared.place.Place.{Place};
ghost use Rattle.irl_offer.specs.declared.settings.Settings.{Settings};
ghost use Rattle.irl_model.specs.Book.{lengths_of};
ghost use Rattle.irl_events.specs.Events.{Pass as PassEvent, Settle as SettleEvent, progress};
ghost use Rattle.irl_events.specs.Legal.{broken};
ghost use Rattle.irl_events.specs.State.{State};
ghost use Rattle.irl_bay.specs.Drum.{IsDrum, SomePending, durable_at};
ghost use Rattle.irl_bay.specs.Flushing.{MayFlush};
ghost use Rattle.irl_core.specs.Steps.{array_of, judged_in};
ghost use Rattle.irl_core.specs.Stores.{IsOfUrls, IsStored};
ghost use Rattle.irl_yard.specs.Core.{FlushIsStep, MergeIsStep, PassIsStep, SettleIsStep, core_at};
ghost use Rattle.irl_ledger.specs.Settling.{outcomes_of};
ghost use Rattle.irl_yard.specs.Holding.{HoldsState};
ghost use Rattle.irl_yard.specs.Settling.{MaySettle, settle_of};

use crate::yard::Yard;
use irl_disk::Store;

/// What flushes, merges and settles make of the state that an open store holds are steps of the core on it, whatever
/// waits in arrays, and what a stop in one leaves is what the step's stop leaves.
pub fn calls_are_steps<S: Store>(yard: &Yard<S>)
    ensures flush { (state : State) (arrays : List (List Tuple)) (acknowledged : List ℕ) (b : ℕ) →
        let urls = yard.now.parts.urls in
        IsDrum urls → HoldsState (S.told yard.now.store).images yard.now.parts state →
        let x = core_at urls.settings arrays acknowledged state in
        MayFlush b (array_of x b) urls → durable_at urls b + length (array_of x b) ≤ urls.settings.cap →
        FlushIsStep x b state }
    ensures merge { (state : State) (arrays : List (List Tuple)) (acknowledged : List ℕ) →
        let urls = yard.now.parts.urls in
        IsDrum urls → HoldsState (S.told yard.now.store).images yard.now.parts state → SomePending urls →
        MergeIsStep (core_at urls.settings arrays acknowledged state) (urls.cuts + 1) state }
    // The event that a settle adds is that of the core.
    ensures settle { (state : State) (arrays : List (List Tuple)) (acknowledged : List ℕ) (done : List Done) →
        let urls = yard.now.parts.urls in
        IsDrum urls → HoldsState (S.told yard.now.store).images yard.now.parts state →
        MaySettle urls yard.now.parts.rest done →
        (settle_of urls done ≡ SettleEvent (lengths_of state.urls) (outcomes_of done))
        × SettleIsStep (core_at urls.settings arrays acknowledged state) (outcomes_of done) state }
{
    yard.parts.rest.keeps();
}

/// An event that breaks no rule and is told of the books, as a settle or a pass adds it, is a step of the core, and what a stop in
/// the call leaves is what the step's stop leaves.
pub fn events_are_steps()
    ensures settle { (settings : Settings) (arrays : List (List Tuple)) (acknowledged : List ℕ) (state : State)
        (outcomes : List (ℕ × Outcome)) →
        broken (progress settings.queues settings.buckets state.events)
        (SettleEvent (lengths_of state.urls) outcomes) [] ≡ None →
        SettleIsStep (core_at settings arrays acknowledged state) outcomes state }
    ensures pass { (settings : Settings) (arrays : List (List Tuple)) (acknowledged : List ℕ) (state : State)
        (places : List Place) → IsStored settings state.urls state.events →
        let x = core_at settings arrays acknowledged state in
        let come = progress settings.queues settings.buckets state.events in
        broken come (PassEvent (judged_in x)) places ≡ None →
        IsOfUrls state.urls come (PassEvent (judged_in x)) places → PassIsStep x places state }
{}
