ghost use Rattle.std.specs.Prelude.{◌≡◌, ◌+◌, ◌*◌, ◌≤◌, ◌++◌, length, take};
ghost use Rattle.std.specs.Int.{w64, to_le_bytes};
ghost use Rattle.std.specs.List.{flat_map};
ghost use Rattle.irl_events.specs.Legal.{text_of as robots_text};
ghost use Rattle.irl_events.specs.Seen.{seen};
ghost use Rattle.irl_journal.specs.Format.{IsPayload, max_payload};
ghost use Rattle.irl_events.specs.Events.{Settle};
ghost use Rattle.irl_log.specs.Spelling.{payload_of, rest_of, note_bytes, done_bytes, tag_of as number_of_event};
ghost use Rattle.irl_log.specs.Spelling.{state_number as number_of_state};
ghost use Rattle.irl_log.specs.Spelling.{outcome_number as number_of_outcome, outcome_detail as detail_of_outcome};

use crate::codec::{BEGIN, DONE_LEN, PAIRS, PASS, ROBOTS, SETTLE};
use irl_events::Event;
use irl_journal::Frame;
use irl_offer::{Note, NoteState, Outcome};

/// The length of the payload of an event's record, in bytes.
pub fn payload_length(event: &Event) -> u32
    requires { IsPayload (payload_of (seen event.now)) }
    ensures value { result ≡ length (payload_of (seen event.now)) }
    ensures limit { result ≤ max_payload }
{
    1 + rest_length(event) as u32
}

// How many bytes stand behind the tag.
fn rest_length(event: &Event) -> usize
    requires { IsPayload (payload_of (seen event.now)) }
    ensures { result ≡ length (rest_of (seen event.now)) }
{
    match event {
        Event::Begin(suffixes) => suffixes.bytes().len(),
        Event::Pairs { .. } => 24,
        Event::Pass { .. } => 8,
        Event::Robots(note) => 11 + note.host.bytes().len() + text_of(&note.state).len(),
        Event::Settle { fronts, done } => {
            4 + 8 * fronts.items().len() + DONE_LEN * done.items().len()
        }
    }
}

/// Puts the payload of an event's record at the end of what a frame has. It takes no memory.
pub fn put_payload(event: &Event, frame: &mut Frame)
    requires room { length frame.old.bytes + length (payload_of (seen event.now)) ≤ frame.old.room }
    ensures { frame.new ≡ record {
      room = frame.old.room;
      bytes = frame.old.bytes ++ payload_of (seen event.now);
    } }
{
    frame.put(&[tag_of(event)]);
    match event {
        Event::Begin(suffixes) => frame.put(suffixes.bytes()),
        Event::Pairs {
            cuts,
            judged,
            pairs,
        } => put_numbers(frame, &[*cuts, *judged, *pairs]),
        Event::Pass { judged } => put_number(frame, *judged),
        Event::Robots(note) => put_note(frame, note),
        Event::Settle { fronts, done } => put_settle(frame, fronts.items(), done.items()),
    }
}

// The first byte.
fn tag_of(event: &Event) -> u8
    ensures { result ≡ number_of_event (seen event.now) }
{
    match event {
        Event::Begin(_) => BEGIN,
        Event::Pairs { .. } => PAIRS,
        Event::Pass { .. } => PASS,
        Event::Robots(_) => ROBOTS,
        Event::Settle { .. } => SETTLE,
    }
}

// Puts what is known of a host's robots file.
fn put_note(frame: &mut Frame, note: &Note)
    requires { length frame.old.bytes + length (note_bytes note.now) ≤ frame.old.room }
    ensures { frame.new ≡ record { room = frame.old.room; bytes = frame.old.bytes ++ note_bytes note.now } }
{
    put_number(frame, note.when);
    frame.put(&[state_number(&note.state)]);
    put_length(frame, note.host.bytes().len(), 2);
    frame.put(note.host.bytes());
    frame.put(text_of(&note.state));
}

// The number of what is known of a robots file.
fn state_number(state: &NoteState) -> u8
    ensures { result ≡ number_of_state state.now }
{
    match state {
        NoteState::Rules(_) => 0,
        NoteState::Free => 1,
        NoteState::Shut => 2,
    }
}

// The robots text that is kept, empty where the file gives no rules.
fn text_of(state: &NoteState) -> &[u8]
    ensures { result.now ≡ robots_text state.now }
{
    match state {
        NoteState::Rules(text) => text.bytes(),
        NoteState::Free | NoteState::Shut => &[],
    }
}

// Puts how many outcomes there are, the fronts, and the outcomes.
fn put_settle(frame: &mut Frame, fronts: &[u64], done: &[(u64, Outcome)])
    requires { length frame.old.bytes + length (rest_of (Settle fronts.now done.now)) ≤ frame.old.room }
    ensures { frame.new ≡ record {
      room = frame.old.room;
      bytes = frame.old.bytes ++ rest_of (Settle fronts.now done.now);
    } }
{
    put_length(frame, done.len(), 4);
    put_numbers(frame, fronts);
    for one in done {
        put_done(frame, *one);
    }
}

// Puts what came of one URL.
fn put_done(frame: &mut Frame, done: (u64, Outcome))
    requires { length frame.old.bytes + 13 ≤ frame.old.room }
    ensures { frame.new ≡ record { room = frame.old.room; bytes = frame.old.bytes ++ done_bytes done } }
{
    let (number, outcome) = done;
    put_number(frame, number);
    frame.put(&[outcome_number(outcome)]);
    frame.put(&outcome_detail(outcome).to_le_bytes());
}

// The number of an outcome.
fn outcome_number(outcome: Outcome) -> u8
    ensures { result ≡ number_of_outcome outcome }
{
    match outcome {
        Outcome::Page => 0,
        Outcome::Moved => 1,
        Outcome::Status(_) => 2,
        Outcome::Denied(_) => 3,
        Outcome::Shut => 4,
        Outcome::Lost => 5,
        Outcome::Bad => 6,
        Outcome::Large => 7,
        Outcome::Coded => 8,
    }
}

// What an outcome tells beside that: the status, or the line of the rule, else 0.
fn outcome_detail(outcome: Outcome) -> u32
    ensures { result ≡ detail_of_outcome outcome }
{
    match outcome {
        Outcome::Status(status) => u32::from(status),
        Outcome::Denied(line) => line,
        _ => 0,
    }
}

// Puts numbers, in order.
fn put_numbers(frame: &mut Frame, numbers: &[u64])
    requires { length frame.old.bytes + 8 * length numbers.now ≤ frame.old.room }
    ensures { frame.new ≡ record {
      room = frame.old.room;
      bytes = frame.old.bytes ++ flat_map (to_le_bytes w64) numbers.now;
    } }
{
    for number in numbers {
        put_number(frame, *number);
    }
}

// Puts a number in eight bytes.
fn put_number(frame: &mut Frame, number: u64)
    requires { length frame.old.bytes + 8 ≤ frame.old.room }
    ensures { frame.new ≡ record { room = frame.old.room; bytes = frame.old.bytes ++ to_le_bytes w64 number } }
{
    frame.put(&number.to_le_bytes());
}

// Puts the lowest bytes of a length, so many: a record has no room for what is longer.
fn put_length(frame: &mut Frame, len: usize, width: usize)
    requires width { width ≤ 8 }
    requires room { length frame.old.bytes + width ≤ frame.old.room }
    ensures { frame.new ≡ record {
      room = frame.old.room;
      bytes = frame.old.bytes ++ take width (to_le_bytes w64 len);
    } }
{
    frame.put(&len.to_le_bytes()[..width]);
}
