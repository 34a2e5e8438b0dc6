ghost use Rattle.std.specs.Prelude.{◌≡◌, ◌&&◌, ◌||◌, nat_lt, length, map, IfOk};
ghost use Rattle.std.specs.List.{list_all};
ghost use Rattle.irl_events.specs.Events.{numbers_of, Robots as SeenRobots};
ghost use Rattle.irl_events.specs.Legal.{are_rising, are_read, is_slot_within, is_noted, none_fell, one_rose, are_distinct};
ghost use Rattle.irl_fate.specs.Kept.{fate_in, numbers_in, is_front, AreSorted};

use crate::Fate;
use crate::table::is_in_front;
use irl_offer::{MAX_ROBOTS, MAX_TEXT, Note, NoteState, Outcome, Place, Slot};
use std::alloc::{AllocError, Global};
use std::collections::BTreeMap;

// Whether the numbers of places rise, from one on, and lie below another.
fn numbers_rise(from: u64, to: u64, places: &[Place]) -> bool
    ensures { result ≡ are_rising from to (numbers_of places.now) }
{
    let mut least = from;
    for place in places {
        if place.number < least || to <= place.number {
            return false;
        }
        least = place.number + 1;
    }
    true
}

/// Whether the numbers of places are those of a queue, in its order, and then others that rise, from one on, and lie below
/// another.
pub fn reads_queue(queue: &[u64], from: u64, to: u64, places: &[Place]) -> bool
    ensures { result ≡ are_read queue.now from to (numbers_of places.now) }
{
    if places.len() < queue.len() {
        return false;
    }
    for (i, number) in queue.iter().enumerate() {
        if places[i].number != *number {
            return false;
        }
    }
    numbers_rise(from, to, &places[queue.len()..])
}

// Whether a slot is the front, the last list, or a queue from one on and up to another.
fn is_within(from: u32, to: u32, slot: Slot) -> bool
    ensures { result ≡ is_slot_within from to slot }
{
    match slot {
        Slot::Front | Slot::Last => true,
        Slot::Queue(number) => from <= number && number <= to,
    }
}

/// Whether the slots of places are.
pub fn are_within(from: u32, to: u32, places: &[Place]) -> bool
    ensures { result ≡ list_all (λ place. is_slot_within from to place.slot) places.now }
{
    places.iter().all(|place| is_within(from, to, place.slot))
}

/// Whether a note has a host and a text of lengths that are kept.
pub fn has_lengths(note: &Note) -> bool
    ensures { result ≡ is_noted (SeenRobots note.now) }
{
    let text = match &note.state {
        NoteState::Rules(text) => text.bytes().len(),
        NoteState::Free | NoteState::Shut => 0,
    };
    let host = note.host.bytes().len();
    1 <= host && host <= MAX_TEXT && text <= MAX_ROBOTS
}

/// Whether none of the second numbers is below the first's.
pub fn no_front_fell(old: &[u64], new: &[u64]) -> bool
    requires { length new.now ≡ length old.now }
    ensures { result ≡ none_fell old.now new.now }
{
    for (i, front) in old.iter().enumerate() {
        if new[i] < *front {
            return false;
        }
    }
    true
}

/// Whether one of the second numbers is above the first's.
pub fn a_front_rose(old: &[u64], new: &[u64]) -> bool
    requires { length new.now ≡ length old.now }
    ensures { result ≡ one_rose old.now new.now }
{
    for (i, front) in old.iter().enumerate() {
        if *front < new[i] {
            return true;
        }
    }
    false
}

// Whether each number is in the front.
fn are_front(entries: &[(u64, Fate)], done: &[(u64, Outcome)]) -> bool
    requires { AreSorted (numbers_in entries.now) }
    ensures { result ≡ list_all (λ d. is_front (fate_in entries.now d.0)) done.now }
{
    for (number, _) in done {
        if !is_in_front(entries, *number) {
            return false;
        }
    }
    true
}

/// Whether no number has two outcomes.
pub fn numbers_differ(alloc: Global, done: &[(u64, Outcome)]) -> Result<bool, AllocError>
    ensures { IfOk result (λ differ. differ ≡ are_distinct (map (λ d. d.0) done.now)) }
{
    let mut seen = BTreeMap::new(alloc);
    for (number, _) in done {
        if seen.insert(*number, true)?.is_some() {
            return Ok(false);
        }
    }
    Ok(true)
}

/// Whether there is an outcome or a front that rose, each number is in the front, and no front fell; and whether something else
/// holds too.
pub fn settles_front(
    entries: &[(u64, Fate)],
    old: &[u64],
    fronts: &[u64],
    done: &[(u64, Outcome)],
    differ: bool,
) -> bool
    requires sorted { AreSorted (numbers_in entries.now) }
    requires fronts { length fronts.now ≡ length old.now }
    ensures { result ≡ ((nat_lt 0 (length done.now) || one_rose old.now fronts.now)
        && list_all (λ d. is_front (fate_in entries.now d.0)) done.now && differ && none_fell old.now
        fronts.now) }
{
    if done.is_empty() && !a_front_rose(old, fronts) {
        return false;
    }
    if !are_front(entries, done) || !differ {
        return false;
    }
    no_front_fell(old, fronts)
}
