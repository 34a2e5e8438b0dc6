ghost use Rattle.irl_events.specs.Seen.{HasFronts};
ghost use Rattle.std.specs.Prelude.{◌≡◌, length, IfOk};

use crate::helpers::{places, settle, settled};
use irl_fate::{Event, Fate, FateFault, Fates};
use irl_offer::{Note, NoteState, Outcome, Place, Slot, Text};
use std::alloc::{AllocError, Global};
use std::test::Fail;

// An event as the table has it.
enum Step {
    Begin,
    Pairs(u64, u64, u64),
    Pass(u64),
    // The lengths of a host and of a robots text.
    Robots(usize, usize),
    // The front of the one bucket, and outcomes.
    Settle(u64, &'static [(u64, Outcome)]),
}

fn robots(alloc: Global, host: usize, text: usize) -> Result<Event, AllocError>
    ensures { IfOk result (λ event. HasFronts 1 event) }
{
    let host = Text::from_vec(vec![in alloc; b'a'; host]?);
    let text = Text::from_vec(vec![in alloc; b'a'; text]?);
    Ok(Event::Robots(Note {
        host,
        when: 0,
        state: NoteState::Rules(text),
    }))
}

fn event(alloc: Global, step: &Step) -> Result<Event, AllocError>
    ensures { IfOk result (λ event. HasFronts 1 event) }
{
    match step {
        Step::Begin => Ok(Event::Begin(Text::from_bytes(alloc, b"test")?)),
        Step::Pairs(cuts, judged, pairs) => Ok(Event::Pairs {
            cuts: *cuts,
            judged: *judged,
            pairs: *pairs,
        }),
        Step::Pass(judged) => Ok(Event::Pass { judged: *judged }),
        Step::Robots(host, text) => robots(alloc, *host, *text),
        Step::Settle(front, outcomes) => settle(alloc, *front, settled(alloc, outcomes)?),
    }
}

// An event with its places, and the rule by which it is refused, or 0.
struct Row {
    step: Step,
    places: &'static [(u64, Slot)],
    rule: u8,
    // The fates of the numbers from 0 on, after it.
    fates: &'static [Fate],
}

const FIRST: &[(u64, Slot)] = &[
    (0, Slot::Front),
    (1, Slot::Queue(2)),
    (2, Slot::Last),
    (3, Slot::Last),
    (4, Slot::Last),
];

const NONE_READ: &[Fate] = &[Fate::Fresh, Fate::Fresh];

const FIRST_READ: &[Fate] = &[
    Fate::Front,
    Fate::Queue(2),
    Fate::Last,
    Fate::Last,
    Fate::Last,
    Fate::Fresh,
];

const SECOND_READ: &[Fate] = &[
    Fate::Done(Outcome::Page),
    Fate::Front,
    Fate::Queue(1),
    Fate::Queue(1),
    Fate::Queue(1),
    Fate::Fresh,
];

// A crawl with 2 queues over one bucket: each kind of event, and each rule that refuses one.
const ROWS: [Row; 11] = [
    Row {
        step: Step::Pass(0),
        places: &[],
        rule: 1,
        fates: NONE_READ,
    },
    Row {
        step: Step::Begin,
        places: &[],
        rule: 0,
        fates: NONE_READ,
    },
    Row {
        step: Step::Pairs(1, 5, 3),
        places: &[],
        rule: 0,
        fates: NONE_READ,
    },
    Row {
        step: Step::Pairs(1, 4, 3),
        places: &[],
        rule: 2,
        fates: NONE_READ,
    },
    Row {
        step: Step::Robots(2_049, 0),
        places: &[],
        rule: 4,
        fates: NONE_READ,
    },
    Row {
        step: Step::Robots(2_048, 512_000),
        places: &[],
        rule: 0,
        fates: NONE_READ,
    },
    Row {
        step: Step::Pass(5),
        places: &[(0, Slot::Queue(1))],
        rule: 3,
        fates: NONE_READ,
    },
    Row {
        step: Step::Pass(5),
        places: FIRST,
        rule: 0,
        fates: FIRST_READ,
    },
    Row {
        step: Step::Settle(1, &[(1, Outcome::Page)]),
        places: &[],
        rule: 5,
        fates: FIRST_READ,
    },
    Row {
        step: Step::Settle(1, &[(0, Outcome::Page)]),
        places: &[],
        rule: 0,
        fates: &[Fate::Done(Outcome::Page), Fate::Queue(2)],
    },
    Row {
        step: Step::Pass(5),
        places: &[(1, Slot::Front)],
        rule: 0,
        fates: SECOND_READ,
    },
];

// Whether an event is told to break this rule, or none where it is 0.
fn is_told(fates: &Fates, event: &Event, places: &[Place], rule: u8) -> Result<bool, AllocError>
    requires { HasFronts (length fates.now.fronts) event.now }
{
    Ok(fates.broken(event, places)?.unwrap_or(0) == rule)
}

// Whether an event is planned, or refused by this rule. The plan is dropped.
fn is_planned(fates: &Fates, event: &Event, places: &[Place], rule: u8) -> bool
    requires { HasFronts (length fates.now.fronts) event.now }
{
    match fates.plan(event, places) {
        Ok(_) => rule == 0,
        Err(fault) => fault == FateFault::Illegal(rule),
    }
}

// Whether an event is taken, or refused by this rule.
fn is_taken(fates: &mut Fates, event: &Event, places: &[Place], rule: u8) -> bool
    requires { HasFronts (length fates.old.fronts) event.now }
    ensures { length fates.new.fronts ≡ length fates.old.fronts }
{
    match fates.apply(event, places) {
        Ok(()) => rule == 0,
        Err(fault) => fault == FateFault::Illegal(rule),
    }
}

// Whether the numbers from 0 on have these fates.
fn have(fates: &Fates, all: &[Fate]) -> bool {
    for (number, fate) in all.iter().enumerate() {
        if fates.fate(number as u64) != *fate {
            return false;
        }
    }
    true
}

// Whether an event of the table is told, planned and taken as its row says, and leaves these fates.
fn is_as_said(alloc: Global, fates: &mut Fates, row: &Row) -> Result<bool, AllocError>
    requires { length fates.old.fronts ≡ 1 }
    ensures { length fates.new.fronts ≡ 1 }
{
    let event = event(alloc, &row.step)?;
    let places = places(alloc, row.places)?;
    let told = is_told(fates, &event, places.items(), row.rule)?;
    let planned = is_planned(fates, &event, places.items(), row.rule);
    let taken = is_taken(fates, &event, places.items(), row.rule);
    Ok(told && planned && taken && have(fates, row.fates))
}

// The first row of which the event is told, planned or taken otherwise, or leaves other fates.
fn first_wrong(alloc: Global, rows: &[Row]) -> Result<Option<usize>, AllocError> {
    let mut fates = Fates::new(alloc, 2, 1)?;
    for (i, row) in rows.iter().enumerate() {
        if !is_as_said(alloc, &mut fates, row)? {
            return Ok(Some(i));
        }
    }
    Ok(None)
}

#[test]
fn events_are_applied_or_refused_by_their_rule(rt: HostRuntime) -> Result<(), Fail> {
    let wrong = first_wrong(rt.alloc(), &ROWS)?;
    assert!(rt; wrong.is_none(), "at row {wrong:?}");
    Ok(())
}
