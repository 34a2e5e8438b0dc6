ghost use Rattle.std.specs.Prelude.{◌≡◌, ⊤, [], ◌∷◌, List, ℕ, true, map, IfOk, OnOk};
ghost use Rattle.irl_disk.specs.Memory.{told_by};
ghost use Rattle.irl_events.specs.Events.{Event as SeenEvent};
ghost use Rattle.irl_events.specs.Seen.{seen};
ghost use Rattle.irl_log.specs.Log.{AreLogged, HoldsLog};

mod payloads;

use irl_disk::{MemStore, Part, Store};
use irl_events::Event;
use irl_journal::JournalFault;
use irl_log::{Log, VisitEvents, read_payload};
use irl_offer::{Fault, Note};
use std::alloc::{AllocError, Global};
use std::test::Fail;

// Over how many buckets the logs go.
const BUCKETS: u32 = 2;

// Payloads of events: a Begin without suffixes, which takes 6 bytes with its gate and its length, a Pairs of 30, a Pass
// of 14, a note of 20 and a Settle of 39 bytes.
const BEGIN: &[u8] = b"\x01";

const PAIRS: &[u8] = b"\x02\x03\0\0\0\0\0\0\0\x04\0\0\0\0\0\0\0\x05\0\0\0\0\0\0\0";

const PASS: &[u8] = b"\x03\x07\0\0\0\0\0\0\0";

const NOTE: &[u8] = b"\x04\x09\0\0\0\0\0\0\0\x01\x03\0a.b";

const SETTLE: &[u8] =
    b"\x05\x01\0\0\0\x06\0\0\0\0\0\0\0\x08\0\0\0\0\0\0\0\x0B\0\0\0\0\0\0\0\x02\x94\x01\0\0";

// An event in short: its tag and a number that it brings.
fn in_short(event: &Event) -> (u8, u64) {
    match event {
        Event::Begin(suffixes) => (1, suffixes.bytes().len() as u64),
        Event::Pairs { cuts, .. } => (2, *cuts),
        Event::Pass { judged } => (3, *judged),
        Event::Robots(note) => (4, note.when),
        Event::Settle { done, .. } => (5, done.items().len() as u64),
    }
}

// Keeps the events that it is handed, in short and with their places, and refuses the one at one place.
#[derive(Drop)]
struct Keeping {
    refused: u64,
    places: Vec<u64>,
    events: Vec<(u8, u64)>,
}

impl VisitEvents for Keeping {
    ghost takes = { λ _ _ _ _. ⊤ };

    ghost refuses = { λ _ _ _ _. ⊤ };

    fn take(&mut self, at: u64, event: Event) -> Result<bool, AllocError> {
        if at == self.refused {
            return Ok(false);
        }
        self.places.push(at)?;
        self.events.push(in_short(&event))?;
        Ok(true)
    }
}

// A visitor that was handed nothing, and refuses no event but one at this place.
fn refusing(alloc: Global, refused: u64) -> Keeping {
    Keeping {
        refused,
        places: Vec::new(alloc),
        events: Vec::new(alloc),
    }
}

// Those of a log with one event of each kind.
const PLACES: [u64; 5] = [0, 6, 36, 50, 70];

const EVENTS: [(u8, u64); 5] = [(1, 0), (2, 3), (3, 7), (4, 9), (5, 1)];

impl Keeping {
    fn has(&self, places: &[u64], events: &[(u8, u64)]) -> bool {
        self.places.as_slice() == places && self.events.as_slice() == events
    }
}

// Opens the log of file 7: where its end is, or why it was refused.
fn opened(alloc: Global, store: &mut MemStore, keeping: &mut Keeping) -> Result<u64, JournalFault> {
    Ok(Log::visit(alloc, store, 7, BUCKETS, keeping)?.end())
}

// The event of a payload.
fn event_of(alloc: Global, payload: &[u8]) -> Result<Event, JournalFault>
    ensures { IfOk result (λ event. AreLogged BUCKETS (seen event ∷ [])) }
{
    read_payload(alloc, BUCKETS, payload)?.ok_or(JournalFault::Failed)
}

// The events of some payloads.
fn events_of(alloc: Global, payloads: &[&[u8]]) -> Result<Vec<Event>, Fail>
    ensures { IfOk result (λ events. AreLogged BUCKETS (map seen events.items)) }
{
    let mut events = Vec::new(alloc);
    for payload in payloads {
        events.push(event_of(alloc, payload)?)?;
    }
    Ok(events)
}

// A store with a log in its file 7.
#[derive(Drop)]
struct Kept {
    store: MemStore,
    log: Log,
}

// A log that was made in calls 0 and 1 of its store.
fn made(alloc: Global, failing: Vec<u64>) -> Result<Kept, Fail>
    ensures sound { IfOk result (λ kept. kept.log.journal.is_sound ≡ true) }
    ensures buckets { IfOk result (λ kept. kept.log.buckets ≡ BUCKETS) }
    ensures holds { IfOk result (λ kept. (events : List SeenEvent) ×
        HoldsLog (told_by kept.store).images kept.log events) }
{
    let mut store = MemStore::new(alloc, failing);
    let log = Log::make(&mut store, 7, BUCKETS)?;
    Ok(Kept { store, log })
}

// Appends events.
fn append(alloc: Global, kept: &mut Kept, events: &[Event]) -> Result<(), Fault>
    requires sound { kept.old.log.journal.is_sound ≡ true }
    requires buckets { kept.old.log.buckets ≡ BUCKETS }
    requires holds { (events : List SeenEvent) × HoldsLog (told_by kept.old.store).images kept.old.log events }
    requires logged { AreLogged BUCKETS (map seen events.now) }
    ensures sound { OnOk result (kept.new.log.journal.is_sound ≡ true) }
    ensures buckets { kept.new.log.buckets ≡ BUCKETS }
    ensures holds { OnOk result ((events : List SeenEvent) ×
        HoldsLog (told_by kept.new.store).images kept.new.log events) }
{
    kept.log.append(alloc, &mut kept.store, events)
}

// A log with one event of each kind, whose gates stand at 0, 6, 36, 50 and 70. It ends at 109.
fn one_of_each(alloc: Global) -> Result<Kept, Fail> {
    let mut kept = made(alloc, Vec::new(alloc))?;
    let events = events_of(alloc, &[BEGIN, PAIRS, PASS, NOTE, SETTLE])?;
    append(alloc, &mut kept, &events)?;
    Ok(kept)
}

// Revisits the events from a gate on. No gate stands behind the log's end.
fn revisited(
    alloc: Global,
    kept: &mut Kept,
    at: u64,
    keeping: &mut Keeping,
) -> Result<(), JournalFault> {
    if at > kept.log.end() {
        return Err(JournalFault::Failed);
    }
    kept.log.revisit(alloc, &mut kept.store, at, keeping)
}

// The note at a place. None stands at the log's end or behind it.
fn note_at(alloc: Global, kept: &mut Kept, at: u64) -> Result<Note, JournalFault> {
    if at >= kept.log.end() {
        return Err(JournalFault::Failed);
    }
    kept.log.note(alloc, &mut kept.store, at)
}

#[test]
fn events_are_handed_out_as_they_were_appended(rt: HostRuntime) -> Result<(), Fail> {
    let alloc = rt.alloc();
    let mut kept = one_of_each(alloc)?;
    assert!(rt; (kept.log.file(), kept.log.buckets(), kept.log.is_sound()) == (7, BUCKETS, true));
    let mut keeping = refusing(alloc, 1);
    let answer = opened(alloc, &mut kept.store, &mut keeping);
    assert!(rt; answer == Ok(109) && keeping.has(&PLACES, &EVENTS));
    // From a place on, and once more where the visitor refuses the one at 50.
    let table: [(u64, u64, Result<(), JournalFault>, &[u64], &[(u8, u64)]); 3] = [
        (36, 1, Ok(()), &PLACES[2..], &EVENTS[2..]),
        (
            6,
            50,
            Err(JournalFault::Damaged(50)),
            &PLACES[1..3],
            &EVENTS[1..3],
        ),
        (109, 1, Ok(()), &[], &[]),
    ];
    for (at, place, answer, places, events) in table {
        let mut keeping = refusing(alloc, place);
        let found = revisited(alloc, &mut kept, at, &mut keeping);
        assert!(rt; found == answer && keeping.has(places, events), "from {at}");
    }
    Ok(())
}

// So many passes, the first of which reads no URL, and each next one URL more.
fn passes(alloc: Global, count: u64) -> Result<Vec<Event>, Fail>
    ensures { IfOk result (λ events. AreLogged BUCKETS (map seen events.items)) }
{
    let mut events = Vec::new(alloc);
    for judged in 0..count {
        let mut payload = [3; 9];
        payload[1..].copy_from_slice(&judged.to_le_bytes());
        events.push(event_of(alloc, &payload)?)?;
    }
    Ok(events)
}

#[test]
fn ten_thousand_events_are_handed_out(rt: HostRuntime) -> Result<(), Fail> {
    let alloc = rt.alloc();
    let events = passes(alloc, 10_000)?;
    let mut kept = made(alloc, Vec::new(alloc))?;
    append(alloc, &mut kept, &events)?;
    let calls = kept.store.calls();
    let mut keeping = refusing(alloc, 1);
    let answer = opened(alloc, &mut kept.store, &mut keeping);
    assert!(rt; (calls, answer, keeping.events.len()) == (6, Ok(140_000), 10_000));
    let last = (
        keeping.events.last().copied(),
        keeping.places.last().copied(),
    );
    assert!(rt; last == (Some((3, 9_999)), Some(139_986)));
    Ok(())
}

// How many events opening the log finds after a stop in this call.
fn left(alloc: Global, store: &MemStore, call: u64, part: Part) -> Result<usize, Fail> {
    let mut keeping = refusing(alloc, 1);
    if call < store.calls() {
        opened(alloc, &mut store.image(alloc, call, part)?, &mut keeping)?;
    }
    Ok(keeping.events.len())
}

// The same as old, as new and torn.
fn parts_left(alloc: Global, store: &MemStore, call: u64) -> Result<[usize; 3], Fail> {
    Ok([
        left(alloc, store, call, Part::Old)?,
        left(alloc, store, call, Part::New)?,
        left(alloc, store, call, Part::Torn)?,
    ])
}

// Appends a settle, in calls 2 to 5 of the store, and three more events, in calls 6 to 9. The closed gate between them
// is at an odd place, so that a torn write opens it.
fn three_behind_one(alloc: Global, failing: Vec<u64>) -> Result<(Kept, Result<(), Fault>), Fail> {
    let mut kept = made(alloc, failing)?;
    let first = events_of(alloc, &[SETTLE])?;
    append(alloc, &mut kept, &first)?;
    let more = events_of(alloc, &[NOTE, PASS, BEGIN])?;
    let answer = append(alloc, &mut kept, &more);
    Ok((kept, answer))
}

#[test]
fn a_stop_leaves_all_new_events_or_none(rt: HostRuntime) -> Result<(), Fail> {
    let alloc = rt.alloc();
    // What a stop leaves as old, as new and torn, where the call failed and where it was done.
    let table = [
        (6, [1, 1, 1], [1, 1, 1]),
        (7, [1, 1, 1], [1, 1, 1]),
        (8, [1, 1, 4], [1, 4, 4]),
        (9, [1, 4, 4], [4, 4, 4]),
    ];
    for (call, failed, done) in table {
        for (failing, parts) in [(vec![in alloc; call]?, failed), (Vec::new(alloc), done)] {
            let is_failing = !failing.is_empty();
            let (kept, answer) = three_behind_one(alloc, failing)?;
            let fault = is_failing.then_some(Fault::Failed);
            let is_so = answer.err() == fault && kept.log.is_sound() != is_failing;
            let left = parts_left(alloc, &kept.store, call)?;
            assert!(rt; is_so && left == parts, "at {call}, {is_failing}: {left:?}");
        }
    }
    Ok(())
}

#[test]
fn a_place_is_damaged(rt: HostRuntime) -> Result<(), Fail> {
    let alloc = rt.alloc();
    // What stands behind a pass, whose record takes 14 bytes.
    let table: [(&[u8], Result<u64, JournalFault>, &[u64]); 6] = [
        (b"\0", Ok(14), &[0]),
        // The visitor refuses the second pass.
        (
            b"\xA5\x01\0\0\0\x01\xA5\x09\0\0\0\x03\0\0\0\0\0\0\0\0\0",
            Err(JournalFault::Damaged(20)),
            &[0, 14],
        ),
        // No event has that tag, a pass has 9 bytes, and a settle a front for each bucket.
        (
            b"\xA5\x01\0\0\0\x06\0",
            Err(JournalFault::Damaged(14)),
            &[0],
        ),
        (
            b"\xA5\x02\0\0\0\x03\0\0",
            Err(JournalFault::Damaged(14)),
            &[0],
        ),
        (
            b"\xA5\x05\0\0\0\x05\0\0\0\0\0",
            Err(JournalFault::Damaged(14)),
            &[0],
        ),
        // The record passes the file's end.
        (b"\xA5\x01\0\0\0\x01", Err(JournalFault::Damaged(14)), &[0]),
    ];
    for (behind, answer, places) in table {
        let mut store = MemStore::new(alloc, Vec::new(alloc));
        store.write(7, 0, b"\xA5\x09\0\0\0\x03\x07\0\0\0\0\0\0\0")?;
        store.write(7, 14, behind)?;
        let mut keeping = refusing(alloc, 20);
        let found = opened(alloc, &mut store, &mut keeping);
        assert!(rt;
            found == answer && keeping.places.as_slice() == places,
            "at {behind:?}"
        );
    }
    Ok(())
}

#[test]
fn a_note_is_found_by_its_place(rt: HostRuntime) -> Result<(), Fail> {
    let alloc = rt.alloc();
    let mut kept = one_of_each(alloc)?;
    let note = note_at(alloc, &mut kept, 50)?;
    assert!(rt; note.when == 9 && note.host.bytes() == b"a.b".as_slice());
    // The gate of a pass and of a settle, and places between two gates.
    for at in [0, 36, 49, 51, 70, 108] {
        let refused = note_at(alloc, &mut kept, at).err();
        assert!(rt; refused == Some(JournalFault::Damaged(at)), "at {at}");
    }
    Ok(())
}
