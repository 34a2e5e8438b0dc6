//! What `show` and `list` print of a crawl's store.

use super::rows::{LISTING, REPLAY, REPORT};
use crate::runs::{LIST, NONE, SHOW, check, new_store, refusal, same, writes};
use crate::tapes::TAPE_A;
use irl_disk::{MemStore, Store};
use std::alloc::AllocError;
use std::process::Abort;
use std::sync::Wait;
use std::test::Fail;
use std::thread::Threads;

// Writes a byte of a file, and gives the one that stood there.
fn put_byte(rt: &impl Abort, store: &mut MemStore, file: u16, place: u64, byte: u8) -> u8 {
    assert!(rt; file < 10_000);
    let length = store.length(file).unwrap_or(0);
    assert!(rt; place < length);
    let mut was = [0];
    assert!(rt; store.read(file, place, &mut was) == Ok(1));
    assert!(rt; store.write(file, place, &[byte]).is_ok());
    was[0]
}

// The store of the tape, one byte of which is another, is refused so. Where it is put back, what was there is printed.
fn check_byte<R: Threads + Wait + Sync + Abort + AllocGlobal>(
    rt: &R,
    (words, output): (&[&str], &[u8]),
    (file, place, byte): (u16, u64, u8),
    errors: &[u8],
) -> Result<(), AllocError> {
    let store = new_store(rt.alloc(), NONE)?;
    let mut store = check(rt, store, NONE, writes(REPLAY, TAPE_A, REPORT))?;
    let was = put_byte(rt, &mut store, file, place, byte);
    let mut store = check(rt, store, NONE, refusal(words, 3, errors))?;
    let spoilt = put_byte(rt, &mut store, file, place, was);
    same(rt, spoilt == byte, "byte");
    let _ = check(rt, store, NONE, writes(words, b"", output))?;
    Ok(())
}

// A head with another name, and a judged offer with a bit that it can't have.
#[test]
fn a_spoilt_store_of_a_crawl_is_refused(rt: HostRuntime) -> Result<(), Fail> {
    for look in [(SHOW, REPORT), (LIST, LISTING)] {
        for (spoilt, errors) in [
            (
                (0, 5, b'J'),
                b"not a store: byte 5 of file 0000\n".as_slice(),
            ),
            ((103, 55, 0x80), b"damaged: byte 48 of file 0103\n"),
        ] {
            check_byte(&rt, look, spoilt, errors)?;
        }
    }
    Ok(())
}
