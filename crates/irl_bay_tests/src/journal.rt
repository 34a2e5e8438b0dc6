ghost use Rattle.std.specs.Prelude.{⊤};

mod several;

use crate::quiet::Quiet;
use irl_disk::{Part, Store};
use irl_journal::{Frame, Journal, JournalFault, Visit};
use irl_offer::Fault;
use std::alloc::{AllocError, Global};
use std::test::Fail;

// Keeps the places and the payloads that it is handed, and refuses the record at one place.
#[derive(Drop)]
struct Keeping {
    refused: u64,
    places: Vec<u64>,
    // Each with a line feed behind it.
    payloads: Vec<u8>,
}

impl Visit for Keeping {
    ghost takes = { λ _ _ _ _. ⊤ };

    ghost refuses = { λ _ _ _ _. ⊤ };

    fn take(&mut self, at: u64, payload: &[u8]) -> Result<bool, AllocError> {
        if at == self.refused {
            return Ok(false);
        }
        self.places.push(at)?;
        self.payloads.extend_from_slice(payload)?;
        self.payloads.push(b'\n')?;
        Ok(true)
    }
}

impl Keeping {
    // A visitor that was handed nothing, and refuses no record but one at this place.
    fn refusing(alloc: Global, refused: u64) -> Keeping {
        Keeping {
            refused,
            places: Vec::new(alloc),
            payloads: Vec::new(alloc),
        }
    }

    fn has(&self, places: &[u64], payloads: &[u8]) -> bool {
        self.places.as_slice() == places && self.payloads.as_slice() == payloads
    }
}

// A store with a journal in its file 7.
#[derive(Drop)]
struct Kept {
    store: Quiet,
    journal: Journal,
}

// A journal that was made in calls 0 and 1 of its store, with a record of `ab` that was appended in calls 2 to 5.
fn append_first(alloc: Global, failing: Option<u64>) -> Result<Kept, Fault> {
    let mut store = Quiet::failing(alloc, failing)?;
    let journal = Journal::make(&mut store, 7)?;
    let mut kept = Kept { store, journal };
    append(alloc, &mut kept, b"ab")?;
    Ok(kept)
}

// Appends a record of this payload, in calls 6 to 9 where it is the second. What was put before it is cleared.
fn append(alloc: Global, kept: &mut Kept, payload: &[u8]) -> Result<(), Fault> {
    if payload.len() > 65_536 || !kept.journal.is_sound() {
        return Err(Fault::Memory);
    }
    let mut frame = Frame::with_room(alloc, payload.len() as u32)?;
    frame.put(payload);
    frame.clear();
    frame.put(payload);
    kept.journal.append(&mut kept.store, &mut frame)?;
    Ok(())
}

// A journal with records of `ab`, `cde` and `f`, whose gates stand at 0, 7 and 15. It ends at 21.
fn three_records(alloc: Global) -> Result<Kept, Fault> {
    let mut kept = append_first(alloc, None)?;
    append(alloc, &mut kept, b"cde")?;
    append(alloc, &mut kept, b"f")?;
    Ok(kept)
}

const THREE: &[u8] = b"\xA5\x02\0\0\0ab\xA5\x03\0\0\0cde\xA5\x01\0\0\0f\0";

#[test]
fn records_stand_between_gates(rt: HostRuntime) -> Result<(), Fail> {
    let alloc = rt.alloc();
    let mut kept = three_records(alloc)?;
    let bytes = kept.store.bytes(alloc, 7)?;
    assert!(rt; bytes.as_slice() == THREE && kept.journal.end() == 21 && kept.journal.file() == 7);
    Ok(())
}

// What a file has, the record that the visitor refuses, where opening ends or why it is refused, the places that are handed
// over with their payloads, and how long the file is then.
type Read = (
    &'static [u8],
    u64,
    Result<u64, JournalFault>,
    &'static [u64],
    &'static [u8],
    usize,
);

const READ: [Read; 8] = [
    (THREE, 1, Ok(21), &[0, 7, 15], b"ab\ncde\nf\n", 22),
    // A file of at most one byte is an empty journal, whose byte is closed then, and so is one that begins with a closed
    // gate.
    (b"", 1, Ok(0), &[], b"", 1),
    (b"\xA5", 0, Ok(0), &[], b"", 1),
    (b"\0\xA5\x01\0\0\0c\0", 1, Ok(0), &[], b"", 8),
    // A record passes the file's end.
    (
        b"\xA5\xFF\0\0\0\0",
        1,
        Err(JournalFault::Damaged(0)),
        &[],
        b"",
        6,
    ),
    // The visitor refuses the second record.
    (
        b"\xA5\x02\0\0\0ab\xA5\x01\0\0\0c\0",
        7,
        Err(JournalFault::Damaged(7)),
        &[0],
        b"ab\n",
        14,
    ),
    // No byte but `A5` is an open gate, and what lies past a closed one means nothing.
    (
        b"\xA5\x02\0\0\0ab\x5A\xA5\xFF\0\0\0\0",
        1,
        Ok(7),
        &[0],
        b"ab\n",
        14,
    ),
    (
        b"\xA5\x02\0\0\0ab\0\x01\0\0\0c\xA5",
        1,
        Ok(7),
        &[0],
        b"ab\n",
        14,
    ),
];

// Opens the journal of file 7: where its end is, or why it was refused.
fn opened(alloc: Global, store: &mut Quiet, keeping: &mut Keeping) -> Result<u64, JournalFault> {
    Ok(Journal::visit(alloc, store, 7, keeping)?.end())
}

// Whether a file's bytes are read so.
fn is_read(alloc: Global, row: &Read) -> Result<bool, Fault> {
    let (bytes, refused, end, places, payloads, length) = *row;
    let mut store = Quiet::new(alloc);
    store.put(7, bytes)?;
    let mut keeping = Keeping::refusing(alloc, refused);
    let answer = opened(alloc, &mut store, &mut keeping);
    let then = store.bytes(alloc, 7)?;
    Ok(
        answer == end
            && keeping.has(places, payloads)
            && then.len() == length
            && (length > 1 || then.as_slice() == [0].as_slice()),
    )
}

#[test]
fn bytes_are_read_as_a_journal(rt: HostRuntime) -> Result<(), Fail> {
    for (i, row) in READ.iter().enumerate() {
        assert!(rt; is_read(rt.alloc(), row)?, "row {i}");
    }
    Ok(())
}

// A byte that is written over one of the three records' file, and its place; the place from which they are handed over
// again, the record that the visitor refuses, the answer, and what was handed over.
type Revisited = (
    (u64, u8),
    u64,
    u64,
    Result<(), JournalFault>,
    &'static [u64],
    &'static [u8],
);

const AS_IT_WAS: (u64, u8) = (0, 0xA5);

const REVISITED: [Revisited; 8] = [
    (AS_IT_WAS, 0, 1, Ok(()), &[0, 7, 15], b"ab\ncde\nf\n"),
    (AS_IT_WAS, 7, 1, Ok(()), &[7, 15], b"cde\nf\n"),
    (AS_IT_WAS, 15, 1, Ok(()), &[15], b"f\n"),
    (AS_IT_WAS, 21, 1, Ok(()), &[], b""),
    // The visitor refuses the last record.
    (
        AS_IT_WAS,
        0,
        15,
        Err(JournalFault::Damaged(15)),
        &[0, 7],
        b"ab\ncde\n",
    ),
    // The second gate is closed, before the journal's end.
    ((7, 0), 0, 1, Err(JournalFault::Damaged(7)), &[0], b"ab\n"),
    // The second record passes the file's end.
    ((8, 255), 0, 1, Err(JournalFault::Damaged(7)), &[0], b"ab\n"),
    // The last gate is open, and no record stands behind it.
    (
        (21, 0xA5),
        0,
        1,
        Err(JournalFault::Damaged(21)),
        &[0, 7, 15],
        b"ab\ncde\nf\n",
    ),
];

// Whether three records are handed over again so.
fn is_revisited(alloc: Global, row: &Revisited) -> Result<bool, Fault> {
    let ((place, byte), at, refused, wanted, places, payloads) = *row;
    let mut kept = three_records(alloc)?;
    kept.store.write(7, place, &[byte])?;
    if at > kept.journal.end() {
        return Ok(false);
    }
    let mut keeping = Keeping::refusing(alloc, refused);
    let answer = kept
        .journal
        .revisit(alloc, &mut kept.store, at, &mut keeping);
    Ok(answer == wanted && keeping.has(places, payloads))
}

#[test]
fn records_are_revisited_from_a_gate_on(rt: HostRuntime) -> Result<(), Fail> {
    for (i, row) in REVISITED.iter().enumerate() {
        assert!(rt; is_revisited(rt.alloc(), row)?, "row {i}");
    }
    Ok(())
}

// The payload of the record at a place. None stands at the journal's end or behind it.
fn record_at(alloc: Global, kept: &mut Kept, at: u64) -> Result<Vec<u8>, JournalFault> {
    if at >= kept.journal.end() {
        return Err(JournalFault::Failed);
    }
    kept.journal.record(alloc, &mut kept.store, at)
}

#[test]
fn a_record_is_read_by_its_place(rt: HostRuntime) -> Result<(), Fail> {
    let alloc = rt.alloc();
    let mut kept = three_records(alloc)?;
    for (at, want) in [(0, b"ab".as_slice()), (7, b"cde"), (15, b"f")] {
        let found = record_at(alloc, &mut kept, at)?;
        assert!(rt; found.as_slice() == want, "at {at}");
    }
    // No gate stands at 1 and 16, and then the length of the record at 7 passes the journal's end.
    kept.store.write(7, 8, &[20])?;
    for at in [1, 7, 16] {
        let refused = record_at(alloc, &mut kept, at).err();
        assert!(rt; refused == Some(JournalFault::Damaged(at)), "at {at}");
    }
    Ok(())
}

// The payloads that opening the journal finds after a stop in this call.
fn left(alloc: Global, store: &Quiet, call: u64, part: Part) -> Result<Vec<u8>, Fault> {
    let mut keeping = Keeping::refusing(alloc, 1);
    let mut image = store.image(alloc, call, part)?;
    match opened(alloc, &mut image, &mut keeping) {
        Ok(_) => Ok(keeping.payloads),
        Err(_) => Err(Fault::Failed),
    }
}

// How many of the new records, of which a stop leaves all or none, are left as old, as new and torn by a stop in each of
// an append's four calls, where it failed and where it was done.
const STOPS: [(u64, [bool; 3], [bool; 3]); 4] = [
    (6, [false, false, false], [false, false, false]),
    (7, [false, false, false], [false, false, false]),
    (8, [false, false, true], [false, true, true]),
    (9, [false, true, true], [true, true, true]),
];
