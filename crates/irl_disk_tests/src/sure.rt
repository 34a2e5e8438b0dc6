ghost use Rattle.std.specs.Prelude.{◌+◌, ◌≤◌, ◌<◌, ◌≡◌, IsOk, length};
ghost use Rattle.irl_disk.specs.Sure.{bytes_held};

use crate::stores::Call::{Cut, Length, Sync, Write};
use crate::stores::{Row, first_other, shown};
use irl_disk::{Failed, Store, SureStore};
use std::alloc::Global;
use std::test::Fail;

// Whether files have these first bytes.
fn have(store: &mut SureStore, files: &[(u16, [u8; 8])]) -> Result<bool, Failed> {
    for (f, bytes) in files {
        if shown(store, *f)?.1 != *bytes {
            return Ok(false);
        }
    }
    Ok(true)
}

static WRITES: [Row; 8] = [
    (1, Write(0, "mn"), Ok(0)),
    (0, Write(0, "abcd"), Ok(0)),
    (9999, Write(0, "xyz"), Ok(0)),
    (1, Write(1, "NOPQ"), Ok(0)),
    (0, Write(1, "B"), Ok(0)),
    (0, Sync, Ok(0)),
    (1, Sync, Ok(0)),
    (9999, Sync, Ok(0)),
];

static WRITTEN: [(u16, [u8; 8]); 3] = [
    (0, *b"aBcd\0\0\0\0"),
    (1, *b"mNOPQ\0\0\0"),
    (9999, *b"xyz\0\0\0\0\0"),
];

static LATER: [Row; 3] = [
    (1, Cut(2), Ok(0)),
    (9999, Write(3, "!!!"), Ok(0)),
    (5, Length, Ok(0)),
];

static LATER_WRITTEN: [(u16, [u8; 8]); 3] = [
    (0, *b"aBcd\0\0\0\0"),
    (1, *b"mN\0\0\0\0\0\0"),
    (9999, *b"xyz!!!\0\0"),
];

#[test]
fn files_stand_one_behind_the_other(rt: HostRuntime) -> Result<(), Fail> {
    let mut store = SureStore::new(rt.alloc(), 13)?;
    assert_eq!(rt; first_other(&mut store, &WRITES), None);
    assert!(rt; have(&mut store, &WRITTEN)?);
    assert_eq!(rt; first_other(&mut store, &LATER), None);
    assert!(rt; have(&mut store, &LATER_WRITTEN)?);
    Ok(())
}

// A write that has room is proved to succeed, and leaves room for the next.
fn put_surely(store: &mut SureStore, f: u16, bytes: &[u8]) -> Result<(), Failed>
    requires file { f < 10000 }
    requires room { bytes_held store.old + length bytes.now ≤ store.old.room }
    ensures ok { IsOk result }
    ensures held { bytes_held store.new ≤ bytes_held store.old + length bytes.now }
    ensures room { store.new.room ≡ store.old.room }
{
    store.write(f, 0, bytes)
}

// A store of six bytes, of which five are written.
fn nearly_full(alloc: Global) -> Result<SureStore, Fail> {
    let mut store = SureStore::new(alloc, 6)?;
    put_surely(&mut store, 1, b"abcd")?;
    put_surely(&mut store, 2, b"x")?;
    Ok(store)
}

static PAST: [Row; 1] = [(1, Write(3, "DEF"), Err(Failed))];

static BEFORE: [(u16, [u8; 8]); 2] = [(1, *b"abcd\0\0\0\0"), (2, *b"x\0\0\0\0\0\0\0")];

static WITHIN: [Row; 1] = [(1, Write(3, "DE"), Ok(0))];

static AFTER: [(u16, [u8; 8]); 2] = [(1, *b"abcDE\0\0\0"), (2, *b"x\0\0\0\0\0\0\0")];

#[test]
fn a_write_past_the_room_changes_nothing(rt: HostRuntime) -> Result<(), Fail> {
    let mut store = nearly_full(rt.alloc())?;
    assert_eq!(rt; first_other(&mut store, &PAST), None);
    assert!(rt; have(&mut store, &BEFORE)?);
    assert_eq!(rt; first_other(&mut store, &WITHIN), None);
    assert!(rt; have(&mut store, &AFTER)?);
    Ok(())
}
