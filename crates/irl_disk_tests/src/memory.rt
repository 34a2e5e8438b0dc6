use crate::stores::Call::{Cut, Length, Sync, Write};
use crate::stores::{Row, first_other, shown};
use irl_disk::{Failed, MemStore, Part};
use std::alloc::Global;
use std::test::Fail;

static WRITES: [Row; 5] = [
    (7, Length, Ok(0)),
    (7, Write(0, "abcd"), Ok(0)),
    (7, Write(2, "xyz"), Ok(0)),
    (8, Write(0, "other"), Ok(0)),
    (7, Sync, Ok(0)),
];

static LATER: [Row; 3] = [(7, Length, Ok(5)), (7, Cut(3), Ok(0)), (8, Length, Ok(5))];

#[test]
fn a_file_has_what_was_written(rt: HostRuntime) -> Result<(), Fail> {
    let mut store = MemStore::new(rt.alloc(), Vec::new(rt.alloc()));
    assert_eq!(rt; first_other(&mut store, &WRITES), None);
    assert_eq!(rt; shown(&mut store, 7)?, (5, *b"abxyz\0\0\0"));
    assert_eq!(rt; first_other(&mut store, &LATER), None);
    assert_eq!(rt; shown(&mut store, 7)?, (3, *b"abx\0\0\0\0\0"));
    Ok(())
}

// The calls with the numbers 1 and 5 fail; a cut asks for the length before it.
static FAILING: [Row; 6] = [
    (7, Write(0, "ab"), Ok(0)),
    (7, Write(0, "cd"), Err(Failed)),
    (7, Length, Ok(2)),
    (7, Cut(1), Ok(0)),
    (7, Sync, Err(Failed)),
    (7, Length, Ok(1)),
];

#[test]
fn listed_calls_fail(rt: HostRuntime) -> Result<(), Fail> {
    let mut store = MemStore::new(rt.alloc(), vec![in rt.alloc(); 1, 5]?);
    assert_eq!(rt; first_other(&mut store, &FAILING), None);
    assert_eq!(rt; store.calls(), 7);
    Ok(())
}

// `abcd` is synced in file 7, and then `efgh` is written behind it, by call 3, since call 2 asks for the length, and synced.
static BEHIND: [Row; 4] = [
    (7, Write(0, "abcd"), Ok(0)),
    (7, Sync, Ok(0)),
    (7, Write(4, "efgh"), Ok(0)),
    (7, Sync, Ok(0)),
];

// The bytes of file 7 after a stop in this call.
fn left(alloc: Global, store: &MemStore, call: u64, part: Part) -> Result<[u8; 8], Fail> {
    if call < store.calls() {
        let mut image = store.image(alloc, call, part)?;
        return Ok(shown(&mut image, 7)?.1);
    }
    Ok([0; 8])
}

// A call, the part of it that a stop leaves, and the bytes of file 7 then. Call 4 is a sync.
static STOPS: [(u64, Part, [u8; 8]); 8] = [
    (0, Part::Old, [0; 8]),
    (0, Part::Torn, *b"a\xA5c\xA5\0\0\0\0"),
    (3, Part::Old, *b"abcd\0\0\0\0"),
    (3, Part::New, *b"abcdefgh"),
    (3, Part::Torn, *b"abcde\xA5g\xA5"),
    (4, Part::Old, *b"abcdefgh"),
    (4, Part::New, *b"abcdefgh"),
    (4, Part::Torn, *b"abcdefgh"),
];

#[test]
fn a_stop_leaves_old_or_new_or_torn(rt: HostRuntime) -> Result<(), Fail> {
    let mut store = MemStore::new(rt.alloc(), Vec::new(rt.alloc()));
    assert_eq!(rt; first_other(&mut store, &BEHIND), None);
    for (call, part, bytes) in STOPS {
        assert_eq!(rt;
            left(rt.alloc(), &store, call, part)?,
            bytes,
            "in call {call}"
        );
    }
    Ok(())
}

// The same where call 3 fails, and then those of a write over all and of a sync, 4 and 5.
static TORN: [Row; 5] = [
    (7, Write(0, "abcd"), Ok(0)),
    (7, Sync, Ok(0)),
    (7, Write(4, "efgh"), Err(Failed)),
    (7, Write(0, "uvwxyz"), Err(Failed)),
    (7, Sync, Err(Failed)),
];

static TORN_STOPS: [(Part, [u8; 8]); 3] = [
    (Part::Old, *b"abcd\0\0\0\0"),
    (Part::New, *b"abcd\0\0\0\0"),
    (Part::Torn, *b"a\xA5c\xA5\0\0\0\0"),
];

#[test]
fn a_failed_write_tears_what_was_there(rt: HostRuntime) -> Result<(), Fail> {
    let mut store = MemStore::new(rt.alloc(), vec![in rt.alloc(); 3, 4, 5]?);
    assert_eq!(rt; first_other(&mut store, &TORN), None);
    for (part, bytes) in TORN_STOPS {
        assert_eq!(rt; left(rt.alloc(), &store, 5, part)?, bytes);
    }
    Ok(())
}
