ghost use Rattle.std.specs.Prelude.{◌≡◌, ◌+◌, ◌*◌, ◌%◌, ◌<◌, ◌≤◌, ◌^◌, ◌++◌, None, List, ℕ, length};
ghost use Rattle.std.specs.Prelude.{IfOk, IfSome, IfNone};
ghost use Rattle.std.specs.Int.{w16, w32, w64, to_le_bytes};
ghost use Rattle.std.specs.List.{flat_map, AllByRecursion};
ghost use Rattle.irl_events.specs.Events.{Event as SeenEvent, Settle};
ghost use Rattle.irl_events.specs.Seen.{seen};
ghost use Rattle.irl_offer.specs.declared.note.Note.{Note as NoteValue};
ghost use Rattle.irl_offer.specs.declared.outcome.Outcome.{Outcome as OutcomeValue};
ghost use Rattle.irl_log.specs.Form.{IsDone, IsLogged, IsNote, IsOutcome, IsSettle, IsWord};
ghost use Rattle.irl_log.specs.Reading.{AreNoteParts, AreSettleParts, FindsBehind};
ghost use Rattle.irl_log.specs.Spelling.{payload_of, done_bytes, note_bytes, rest_of, outcome_number, outcome_detail};

use crate::codec::{BEGIN, DONE_LEN, PAIRS, PASS, ROBOTS, SETTLE};
use irl_events::{Event, Numbers, Settled};
use irl_offer::{MAX_ROBOTS, MAX_TEXT, Note, NoteState, Outcome, Text};
use irl_pld::{SuffixFault, Suffixes};
use std::alloc::{AllocError, Global};

// The most bytes of a payload, as a journal has them.
const MAX_PAYLOAD: usize = 16_777_216;

// The most bytes of a text of suffixes.
const MAX_SUFFIXES: usize = 4_194_304;

/// The event whose record has this payload, in a log over so many buckets, or None where it is none of any.
pub fn read_payload(
    alloc: Global,
    buckets: u32,
    payload: &[u8],
) -> Result<Option<Event>, AllocError>
    ensures found { IfOk result (λ found. IfSome found (λ event.
        IsLogged buckets (seen event) × (payload.now ≡ payload_of (seen event)))) }
    ensures none { IfOk result (λ found. found ≡ None → (event : SeenEvent) → IsLogged buckets event →
        payload.now ≡ payload_of event → ⊥) }
{
    if payload.len() > MAX_PAYLOAD {
        return Ok(None);
    }
    let Some((tag, rest)) = payload.split_first() else {
        return Ok(None);
    };
    read_rest(alloc, buckets, *tag, rest)
}

// The event of a tag and of the bytes behind it.
fn read_rest(alloc: Global, buckets: u32, tag: u8, rest: &[u8]) -> Result<Option<Event>, AllocError>
    requires { length rest.now < MAX_PAYLOAD }
    ensures { IfOk result (FindsBehind buckets tag rest.now) }
{
    match tag {
        BEGIN => read_begin(alloc, rest),
        PAIRS => Ok(read_pairs(rest)),
        PASS => Ok(read_pass(rest)),
        ROBOTS => read_robots(alloc, rest),
        SETTLE => read_settle(alloc, buckets, rest),
        _ => Ok(None),
    }
}

// A Begin: its text is that of a list of suffixes.
fn read_begin(alloc: Global, text: &[u8]) -> Result<Option<Event>, AllocError>
    ensures { IfOk result (λ found. (buckets : ℕ) → FindsBehind buckets BEGIN text.now found) }
{
    if text.len() > MAX_SUFFIXES {
        return Ok(None);
    }
    match Suffixes::read(alloc, text) {
        Ok(_) => Ok(Some(Event::Begin(Text::from_bytes(alloc, text)?))),
        Err(SuffixFault::BadLine(_)) => Ok(None),
        Err(SuffixFault::Memory) => Err(AllocError),
    }
}

// A Pairs: three numbers.
fn read_pairs(bytes: &[u8]) -> Option<Event>
    ensures { (buckets : ℕ) → FindsBehind buckets PAIRS bytes.now result }
{
    let (cuts, rest) = split_u64(bytes)?;
    let (judged, rest) = split_u64(rest)?;
    let (pairs, rest) = split_u64(rest)?;
    if !rest.is_empty() {
        return None;
    }
    Some(Event::Pairs {
        cuts,
        judged,
        pairs,
    })
}

// A Pass: one number.
fn read_pass(bytes: &[u8]) -> Option<Event>
    ensures { (buckets : ℕ) → FindsBehind buckets PASS bytes.now result }
{
    let (judged, rest) = split_u64(bytes)?;
    if !rest.is_empty() {
        return None;
    }
    Some(Event::Pass { judged })
}

// A Robots: a note.
fn read_robots(alloc: Global, bytes: &[u8]) -> Result<Option<Event>, AllocError>
    ensures { IfOk result (λ found. (buckets : ℕ) → FindsBehind buckets ROBOTS bytes.now found) }
{
    let Some(parts) = split_note(bytes) else {
        return Ok(None);
    };
    let host = Text::from_bytes(alloc, parts.host)?;
    let state = match parts.state {
        0 => NoteState::Rules(Text::from_bytes(alloc, parts.text)?),
        1 => NoteState::Free,
        _ => NoteState::Shut,
    };
    Ok(Some(Event::Robots(Note {
        host,
        when: parts.when,
        state,
    })))
}

// A note in its payload.
#[derive(Clone, Copy)]
struct NoteParts<'a> {
    when: u64,
    // The number of what is known, of which only 0 has a text.
    state: u8,
    host: &'a [u8],
    text: &'a [u8],
}

// The parts of the note that has these bytes.
fn split_note(bytes: &[u8]) -> Option<NoteParts<'_>>
    ensures found { IfSome result (λ parts.
        AreNoteParts bytes.now parts.when parts.state parts.host.now parts.text.now) }
    ensures none { IfNone result ((note : NoteValue) → IsNote note → bytes.now ≡ note_bytes note → ⊥) }
{
    let (when, rest) = split_u64(bytes)?;
    let (state, rest) = rest.split_first()?;
    let (len, rest) = split_u16(rest)?;
    let (host, text) = rest.split_at_checked(usize::from(len))?;
    if host.is_empty() || host.len() > MAX_TEXT || text.len() > MAX_ROBOTS {
        return None;
    }
    if *state > 2 || *state != 0 && !text.is_empty() {
        return None;
    }
    Some(NoteParts {
        when,
        state: *state,
        host,
        text,
    })
}

// A Settle: a front for each bucket, and outcomes.
fn read_settle(alloc: Global, buckets: u32, bytes: &[u8]) -> Result<Option<Event>, AllocError>
    requires { length bytes.now < MAX_PAYLOAD }
    ensures { IfOk result (FindsBehind buckets SETTLE bytes.now) }
{
    let Some((fronts, done)) = split_settle(buckets, bytes) else {
        return Ok(None);
    };
    let fronts = read_numbers(alloc, fronts)?;
    let Some(done) = read_done(alloc, done)? else {
        return Ok(None);
    };
    Ok(Some(Event::Settle { fronts, done }))
}

// The bytes of the fronts of so many buckets, and those of as many outcomes as the count before them says.
fn split_settle(buckets: u32, bytes: &[u8]) -> Option<(&[u8], &[u8])>
    requires { length bytes.now < MAX_PAYLOAD }
    ensures found { IfSome result (λ parts. AreSettleParts buckets bytes.now parts.0.now parts.1.now) }
    ensures none { IfNone result ((fronts : List ℕ) (done : List (ℕ × OutcomeValue)) →
        IsSettle buckets fronts done → bytes.now ≡ rest_of (Settle fronts done) → ⊥) }
{
    let (count, rest) = split_u32(bytes)?;
    let fronts = 8 * buckets as usize;
    if rest.len() != fronts + DONE_LEN * count as usize {
        return None;
    }
    Some(rest.split_at(fronts))
}

// Numbers that stand one behind the other.
fn read_numbers(alloc: Global, bytes: &[u8]) -> Result<Numbers, AllocError>
    requires { length bytes.now % 8 ≡ 0 }
    ensures { IfOk result (λ numbers. AllByRecursion IsWord numbers
        × (bytes.now ≡ flat_map (to_le_bytes w64) numbers)) }
{
    let mut numbers = Numbers::new(alloc);
    let mut rest = bytes;
    while let Some((number, behind)) = split_u64(rest) {
        numbers.push(number)?;
        rest = behind;
    }
    Ok(numbers)
}

// Outcomes that stand one behind the other.
fn read_done(alloc: Global, bytes: &[u8]) -> Result<Option<Settled>, AllocError>
    ensures found { IfOk result (λ found. IfSome found (λ done. AllByRecursion IsDone done
        × (bytes.now ≡ flat_map done_bytes done))) }
    ensures none { IfOk result (λ found. found ≡ None → (done : List (ℕ × OutcomeValue)) →
        AllByRecursion IsDone done → bytes.now ≡ flat_map done_bytes done → ⊥) }
{
    let mut done = Settled::new(alloc);
    let mut rest = bytes;
    while !rest.is_empty() {
        let Some((one, behind)) = split_done(rest) else {
            return Ok(None);
        };
        done.push(one)?;
        rest = behind;
    }
    Ok(Some(done))
}

// What came of one URL, and the bytes behind it.
fn split_done(bytes: &[u8]) -> Option<((u64, Outcome), &[u8])>
    ensures found { IfSome result (λ parts. IsDone parts.0 × (bytes.now ≡ done_bytes parts.0 ++ parts.1.now)) }
    ensures none { IfNone result ((done : ℕ × OutcomeValue) (behind : List ℕ) → IsDone done →
        bytes.now ≡ done_bytes done ++ behind → ⊥) }
{
    let (number, rest) = split_u64(bytes)?;
    let (kind, rest) = rest.split_first()?;
    let (detail, rest) = split_u32(rest)?;
    Some(((number, outcome_of(*kind, detail)?), rest))
}

// The outcome of a number that tells this beside it.
fn outcome_of(number: u8, detail: u32) -> Option<Outcome>
    ensures found { IfSome result (λ outcome. IsOutcome outcome × (outcome_number outcome ≡ number)
        × (outcome_detail outcome ≡ detail)) }
    ensures none { IfNone result ((outcome : OutcomeValue) → IsOutcome outcome →
        outcome_number outcome ≡ number → outcome_detail outcome ≡ detail → ⊥) }
{
    match (number, detail) {
        (0, 0) => Some(Outcome::Page),
        (1, 0) => Some(Outcome::Moved),
        (2, 0..=65_535) => Some(Outcome::Status(detail as u16)),
        (3, _) => Some(Outcome::Denied(detail)),
        (4, 0) => Some(Outcome::Shut),
        (5, 0) => Some(Outcome::Lost),
        (6, 0) => Some(Outcome::Bad),
        (7, 0) => Some(Outcome::Large),
        (8, 0) => Some(Outcome::Coded),
        _ => None,
    }
}

// The number of the first eight bytes, and the bytes behind them.
fn split_u64(bytes: &[u8]) -> Option<(u64, &[u8])>
    ensures found { IfSome result (λ parts. (bytes.now ≡ to_le_bytes w64 parts.0 ++ parts.1.now)
        × (parts.0 < 2 ^ 64)) }
    ensures none { IfNone result (length bytes.now < 8) }
{
    let (word, rest) = bytes.split_first_chunk::<8>()?;
    Some((u64::from_le_bytes(*word), rest))
}

// The number of the first four bytes, and the bytes behind them.
fn split_u32(bytes: &[u8]) -> Option<(u32, &[u8])>
    ensures found { IfSome result (λ parts. (bytes.now ≡ to_le_bytes w32 parts.0 ++ parts.1.now)
        × (parts.0 < 2 ^ 32)) }
    ensures none { IfNone result (length bytes.now < 4) }
{
    let (word, rest) = bytes.split_first_chunk::<4>()?;
    Some((u32::from_le_bytes(*word), rest))
}

// The number of the first two bytes, and the bytes behind them.
fn split_u16(bytes: &[u8]) -> Option<(u16, &[u8])>
    ensures found { IfSome result (λ parts. (bytes.now ≡ to_le_bytes w16 parts.0 ++ parts.1.now)
        × (parts.0 < 2 ^ 16)) }
    ensures none { IfNone result (length bytes.now < 2) }
{
    let (word, rest) = bytes.split_first_chunk::<2>()?;
    Some((u16::from_le_bytes(*word), rest))
}
