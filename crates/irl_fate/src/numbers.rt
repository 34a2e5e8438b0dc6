ghost use Rattle.std.specs.Prelude.{◌≡◌, ◌<◌, ℕ, List, map, length, nat_eq, slice_index_or, if◌then◌else◌, IfOk, true};
ghost use Rattle.std.specs.List.{list_all, filter};
ghost use Rattle.irl_offer.specs.declared.place.Place.{Place as PlaceValue};
ghost use Rattle.irl_events.specs.Events.{has_number, is_in_front, numbers_of};
ghost use Rattle.irl_events.specs.Legal.{are_distinct};
ghost use Rattle.irl_fate.specs.Fates.{done_by};
ghost use Rattle.irl_fate.specs.Kept.{fate_in, numbers_in, is_front, AreSorted, HasEntry, placed_by, fate_of_slot};
ghost use Rattle.irl_fate.specs.declared.fate.Fate.TheVariants.{Queue as QueueFate, Last as LastFate};

use crate::Fate;
use crate::table::relabel;
use irl_offer::{Outcome, Place, Slot};
use std::alloc::{AllocError, Global};

// The fate that a slot gives.
fn slot_fate(slot: Slot) -> Fate
    ensures { result ≡ fate_of_slot slot }
{
    match slot {
        Slot::Front => Fate::Front,
        Slot::Queue(number) => Fate::Queue(number),
        Slot::Last => Fate::Last,
    }
}

/// Gives numbers that have entries the fates of their places.
pub fn place_all(entries: &mut [(u64, Fate)], places: &[Place])
    requires sorted { AreSorted (numbers_in entries.old) }
    requires entries { (i : ℕ) (d : PlaceValue) → i < length places.now →
        HasEntry entries.old (slice_index_or places.now i d).number }
    ensures fates { (q : ℕ) → fate_in entries.new q ≡ placed_by places.now q (fate_in entries.old q) }
    ensures numbers { numbers_in entries.new ≡ numbers_in entries.old }
{
    for place in places {
        relabel(entries, place.number, slot_fate(place.slot));
    }
}

/// Puts numbers of the last list into queue 1.
pub fn begin_round(entries: &mut [(u64, Fate)], last: &[u64])
    requires sorted { AreSorted (numbers_in entries.old) }
    requires last { (i : ℕ) → i < length last.now → fate_in entries.old (slice_index_or last.now i 0) ≡ LastFate }
    ensures fates { (q : ℕ) → fate_in entries.new q
        ≡ (if has_number last.now q then QueueFate 1 else fate_in entries.old q) }
    ensures numbers { numbers_in entries.new ≡ numbers_in entries.old }
{
    for number in last {
        relabel(entries, *number, Fate::Queue(1));
    }
}

/// Gives numbers of the front what came of them.
pub fn settle_all(entries: &mut [(u64, Fate)], done: &[(u64, Outcome)])
    requires sorted { AreSorted (numbers_in entries.old) }
    requires front { list_all (λ d. is_front (fate_in entries.old d.0)) done.now ≡ true }
    requires distinct { are_distinct (map (λ d. d.0) done.now) ≡ true }
    ensures fates { (q : ℕ) → fate_in entries.new q ≡ done_by done.now q (fate_in entries.old q) }
    ensures numbers { numbers_in entries.new ≡ numbers_in entries.old }
{
    for (number, outcome) in done {
        relabel(entries, *number, Fate::Done(*outcome));
    }
}

/// The numbers that places put into the front, in order.
pub fn front_of(alloc: Global, places: &[Place]) -> Result<Vec<u64>, AllocError>
    ensures { IfOk result (λ front. front.items ≡ numbers_of (filter (λ place. is_in_front place.slot) places.now)) }
{
    places
        .iter()
        .filter(|place| matches!(place.slot, Slot::Front))
        .map(|place| place.number)
        .collect(alloc)
}
