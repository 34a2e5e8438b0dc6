ghost use Rattle.irl_events.specs.Seen.{seen};
ghost use Rattle.irl_journal.specs.Format.{IsPayload};
ghost use Rattle.irl_log.specs.Spelling.{payload_of};

use irl_disk::{MemStore, Store};
use irl_events::Event;
use irl_journal::{Frame, Journal};
use irl_log::{payload_length, put_payload, read_payload};
use irl_offer::NoteState;
use std::alloc::{AllocError, Global};
use std::test::Fail;

// How many buckets the small cases have.
const BUCKETS: u32 = 2;

// What an event tells, in a line.
fn told(alloc: Global, event: &Event) -> Result<String, AllocError> {
    match event {
        Event::Begin(suffixes) => format!(in alloc; "begin {}", suffixes.bytes().len()),
        Event::Pairs {
            cuts,
            judged,
            pairs,
        } => format!(in alloc; "pairs {cuts} {judged} {pairs}"),
        Event::Pass { judged } => format!(in alloc; "pass {judged}"),
        Event::Robots(note) => format!(in alloc;
            "robots {} {} {}",
            note.when,
            note.host.bytes().len(),
            told_state(alloc, &note.state)?
        ),
        Event::Settle { fronts, done } => format!(in alloc;
            "settle {:?} {:?}",
            fronts.items(),
            done.items()
        ),
    }
}

fn told_state(alloc: Global, state: &NoteState) -> Result<String, AllocError> {
    match state {
        NoteState::Rules(text) => format!(in alloc; "rules {}", text.bytes().len()),
        NoteState::Free => format!(in alloc; "free"),
        NoteState::Shut => format!(in alloc; "shut"),
    }
}

// The payload of an event's record, as a journal has it behind its gate and its length.
fn spelled(alloc: Global, event: &Event) -> Result<Vec<u8>, Fail>
    requires { IsPayload (payload_of (seen event.now)) }
{
    let length = payload_length(event);
    let mut frame = Frame::with_room(alloc, length)?;
    put_payload(event, &mut frame);
    let mut store = MemStore::new(alloc, Vec::new(alloc));
    let mut journal = Journal::make(&mut store, 1)?;
    journal.append(&mut store, &mut frame)?;
    let mut bytes = vec![in alloc; 0; length as usize]?;
    store.read(1, 5, &mut bytes)?;
    Ok(bytes)
}

// What the event of a payload tells, or nothing where it is none's.
fn told_of(alloc: Global, bytes: &[u8]) -> Result<String, AllocError> {
    match read_payload(alloc, BUCKETS, bytes)? {
        Some(event) => told(alloc, &event),
        None => Ok(String::new(alloc)),
    }
}

// Whether the payload is that of an event; if so, it is put again, and has to be the same.
fn is_again(alloc: Global, buckets: u32, bytes: &[u8]) -> Result<bool, Fail> {
    let Some(event) = read_payload(alloc, buckets, bytes)? else {
        return Ok(false);
    };
    if spelled(alloc, &event)?.as_slice() != bytes {
        return Err(Fail::new("another payload"));
    }
    Ok(true)
}

#[test]
fn payloads_are_read_strictly(rt: HostRuntime) -> Result<(), Fail> {
    let alloc = rt.alloc();
    let cases: [(&[u8], &[u8]); 40] = [
        (b"\x01", b"begin 0"),
        (b"\x01test", b"begin 4"),
        (b"\x01test\nco.uk", b"begin 10"),
        (b"\x01Test", b""),
        (b"\x01test\n", b""),
        (
            b"\x02\x01\0\0\0\0\0\0\0\x02\0\0\0\0\0\0\0\xff\xff\xff\xff\xff\xff\xff\xff",
            b"pairs 1 2 18446744073709551615",
        ),
        (
            b"\x02\x01\0\0\0\0\0\0\0\x02\0\0\0\0\0\0\0\xff\xff\xff\xff\xff\xff\xff",
            b"",
        ),
        (
            b"\x02\x01\0\0\0\0\0\0\0\x02\0\0\0\0\0\0\0\xff\xff\xff\xff\xff\xff\xff\xff\0",
            b"",
        ),
        (b"\x03\x05\0\0\0\0\0\0\0", b"pass 5"),
        (b"\x03\x05\0\0\0\0\0\0", b""),
        (b"\x03\x05\0\0\0\0\0\0\0\0", b""),
        (
            b"\x04\x07\0\0\0\0\0\0\0\0\x06\0a.testAllow: /",
            b"robots 7 6 rules 8",
        ),
        (b"\x04\0\x01\0\0\0\0\0\0\x01\x01\0a", b"robots 256 1 free"),
        (b"\x04\0\x01\0\0\0\0\0\0\x02\x01\0a", b"robots 256 1 shut"),
        (b"\x04\0\x01\0\0\0\0\0\0\x03\x01\0a", b""),
        (b"\x04\0\x01\0\0\0\0\0\0\x01\x01\0ab", b""),
        (b"\x04\0\x01\0\0\0\0\0\0\x02\x01\0ab", b""),
        (b"\x04\0\x01\0\0\0\0\0\0\0\0\0", b""),
        (b"\x04\0\x01\0\0\0\0\0\0\0\x02\0a", b""),
        (b"\x04\0\x01\0\0\0\0\0\0\0\x02", b""),
        (
            b"\x05\0\0\0\0\x01\0\0\0\0\0\0\0\0\x01\0\0\0\0\0\0",
            b"settle [1, 256] []",
        ),
        (
            b"\x05\x01\0\0\0\0\0\0\0\0\0\0\0\0\0\0\0\0\0\0\0\x09\0\0\0\0\0\0\0\x08\0\0\0\0\0",
            b"",
        ),
        (
            b"\x05\x02\0\0\0\0\0\0\0\0\0\0\0\0\0\0\0\0\0\0\0\x09\0\0\0\0\0\0\0\x08\0\0\0\0",
            b"",
        ),
        (b"\x05\0\0\0\0\x01\0\0\0\0\0\0\0", b""),
        (
            b"\x05\0\0\0\0\x01\0\0\0\0\0\0\0\0\0\0\0\0\0\0\0\0\0\0\0\0\0\0\0",
            b"",
        ),
        (b"\x06\0\0\0\0\0\0\0\0", b""),
        (b"", b""),
        // What came of URL 9 has a number and a detail.
        (
            b"\x05\x01\0\0\0\0\0\0\0\0\0\0\0\0\0\0\0\0\0\0\0\x09\0\0\0\0\0\0\0\0\0\0\0\0",
            b"settle [0, 0] [(9, Page)]",
        ),
        (
            b"\x05\x01\0\0\0\0\0\0\0\0\0\0\0\0\0\0\0\0\0\0\0\x09\0\0\0\0\0\0\0\x01\0\0\0\0",
            b"settle [0, 0] [(9, Moved)]",
        ),
        (
            b"\x05\x01\0\0\0\0\0\0\0\0\0\0\0\0\0\0\0\0\0\0\0\x09\0\0\0\0\0\0\0\x02\x94\x01\0\0",
            b"settle [0, 0] [(9, Status(404))]",
        ),
        (
            b"\x05\x01\0\0\0\0\0\0\0\0\0\0\0\0\0\0\0\0\0\0\0\x09\0\0\0\0\0\0\0\x02\xff\xff\0\0",
            b"settle [0, 0] [(9, Status(65535))]",
        ),
        (
            b"\x05\x01\0\0\0\0\0\0\0\0\0\0\0\0\0\0\0\0\0\0\0\x09\0\0\0\0\0\0\0\x02\0\0\x01\0",
            b"",
        ),
        (
            b"\x05\x01\0\0\0\0\0\0\0\0\0\0\0\0\0\0\0\0\0\0\0\x09\0\0\0\0\0\0\0\x03\0\0\x01\0",
            b"settle [0, 0] [(9, Denied(65536))]",
        ),
        (
            b"\x05\x01\0\0\0\0\0\0\0\0\0\0\0\0\0\0\0\0\0\0\0\x09\0\0\0\0\0\0\0\x04\0\0\0\0",
            b"settle [0, 0] [(9, Shut)]",
        ),
        (
            b"\x05\x01\0\0\0\0\0\0\0\0\0\0\0\0\0\0\0\0\0\0\0\x09\0\0\0\0\0\0\0\x05\0\0\0\0",
            b"settle [0, 0] [(9, Lost)]",
        ),
        (
            b"\x05\x01\0\0\0\0\0\0\0\0\0\0\0\0\0\0\0\0\0\0\0\x09\0\0\0\0\0\0\0\x06\0\0\0\0",
            b"settle [0, 0] [(9, Bad)]",
        ),
        (
            b"\x05\x01\0\0\0\0\0\0\0\0\0\0\0\0\0\0\0\0\0\0\0\x09\0\0\0\0\0\0\0\x07\0\0\0\0",
            b"settle [0, 0] [(9, Large)]",
        ),
        (
            b"\x05\x01\0\0\0\0\0\0\0\0\0\0\0\0\0\0\0\0\0\0\0\x09\0\0\0\0\0\0\0\x08\0\0\0\0",
            b"settle [0, 0] [(9, Coded)]",
        ),
        (
            b"\x05\x01\0\0\0\0\0\0\0\0\0\0\0\0\0\0\0\0\0\0\0\x09\0\0\0\0\0\0\0\x09\0\0\0\0",
            b"",
        ),
        (
            b"\x05\x01\0\0\0\0\0\0\0\0\0\0\0\0\0\0\0\0\0\0\0\x09\0\0\0\0\0\0\0\x08\x01\0\0\0",
            b"",
        ),
    ];
    for (bytes, line) in cases {
        let found = told_of(alloc, bytes)?;
        let is_event = is_again(alloc, BUCKETS, bytes)?;
        assert!(rt;
            found.as_bytes() == line && is_event != line.is_empty(),
            "{bytes:?}"
        );
    }
    Ok(())
}

// A Robots with a host and a text of so many bytes.
fn robots_bytes(alloc: Global, host: u16, text: u32) -> Result<Vec<u8>, AllocError> {
    let text_at = 12 + usize::from(host);
    let mut bytes = Vec::new(alloc);
    bytes.extend_from_slice(b"\x04\0\0\0\0\0\0\0\0\0")?;
    bytes.extend_from_slice(&host.to_le_bytes())?;
    bytes.resize(text_at, b'h')?;
    bytes.resize(text_at + text as usize, b't')?;
    Ok(bytes)
}

// A Begin with a text of so many lines of 63 letters, and one of one letter.
fn begin_bytes(alloc: Global, lines: u32) -> Result<Vec<u8>, AllocError> {
    let mut bytes = Vec::new(alloc);
    bytes.push(1)?;
    for _ in 0..lines {
        bytes.extend_from_slice(
            b"aaaaaaaaaaaaaaaaaaaaaaaaaaaaaaaaaaaaaaaaaaaaaaaaaaaaaaaaaaaaaaa\n",
        )?;
    }
    bytes.push(b'a')?;
    Ok(bytes)
}

// A Settle of so many outcomes over so many buckets.
fn settle_bytes(alloc: Global, buckets: u64, count: u32) -> Result<Vec<u8>, AllocError> {
    let mut bytes = Vec::new(alloc);
    bytes.push(5)?;
    bytes.extend_from_slice(&count.to_le_bytes())?;
    for front in 0..buckets {
        bytes.extend_from_slice(&front.to_le_bytes())?;
    }
    for i in 0..count {
        bytes.extend_from_slice(&u64::from(i).to_le_bytes())?;
        bytes.push(3)?;
        bytes.extend_from_slice(&i.to_le_bytes())?;
    }
    Ok(bytes)
}

#[test]
fn large_payloads_have_limits(rt: HostRuntime) -> Result<(), Fail> {
    let alloc = rt.alloc();
    let settle = settle_bytes(alloc, 64, 16_384)?;
    // Over how many buckets, and whether the payload is an event's.
    for (bytes, buckets, is_event) in [
        (robots_bytes(alloc, 1, 0)?, 1, true),
        (robots_bytes(alloc, 2_048, 512_000)?, 1, true),
        (robots_bytes(alloc, 2_049, 0)?, 1, false),
        (robots_bytes(alloc, 1, 512_001)?, 1, false),
        // Texts of 1,048,577 bytes and of 4,194,305.
        (begin_bytes(alloc, 16_384)?, 1, true),
        (begin_bytes(alloc, 65_536)?, 1, false),
        // A settle has a front for each bucket.
        (settle.clone()?, 64, true),
        (settle.clone()?, 63, false),
        (settle.clone()?, 65, false),
        (settle, 0, false),
    ] {
        let found = is_again(alloc, buckets, &bytes)?;
        assert!(rt; found == is_event, "{} bytes, {buckets}", bytes.len());
    }
    Ok(())
}
