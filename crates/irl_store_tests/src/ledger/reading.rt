//! Logs that are read beside no other file.

use crate::stores::{CRAWL_OF_ONE, blank, put_at};
use irl_head::CRAWL;
use irl_ledger::History;
use irl_offer::{Fault, Settings};
use std::alloc::Global;
use std::test::Fail;

// Where the log with these records ends, or what it is refused with.
fn read_end(alloc: Global, first: &[u8], second: &[u8]) -> Result<Result<u64, Fault>, Fail> {
    let mut bytes = first.to_vec(alloc)?;
    bytes.extend_from_slice(second)?;
    bytes.push(0)?;
    let mut store = blank(alloc);
    put_at(&mut store, CRAWL, 0, &bytes)?;
    let settings = Settings::of_new_store(&CRAWL_OF_ONE);
    let read = History::read(alloc, &mut store, &settings);
    let end = match read {
        Ok((log, _history)) => Ok(log.end()),
        Err(fault) => Err(fault),
    };
    Ok(end)
}

// A beginning without suffixes, a pass of 0 and of 1, and a record whose tag no event has.
const BEGIN: &[u8] = b"\xA5\x01\0\0\0\x01";

const PASS_0: &[u8] = b"\xA5\x09\0\0\0\x03\0\0\0\0\0\0\0\0";

const PASS_1: &[u8] = b"\xA5\x09\0\0\0\x03\x01\0\0\0\0\0\0\0";

const NONE: &[u8] = b"\xA5\x01\0\0\0\x06";

// Two records at most, and the answer.
const LOGS: [(&[u8], &[u8], Result<u64, Fault>); 7] = [
    (b"", b"", Ok(0)),
    (BEGIN, b"", Ok(6)),
    (BEGIN, BEGIN, Err(Fault::Damaged(1, 6))),
    (PASS_0, b"", Err(Fault::Damaged(1, 0))),
    (BEGIN, PASS_0, Ok(20)),
    // No pairs were sent.
    (BEGIN, PASS_1, Err(Fault::Damaged(1, 6))),
    (BEGIN, NONE, Err(Fault::Damaged(1, 6))),
];

#[test]
fn the_first_record_that_breaks_a_rule_is_named(rt: HostRuntime) -> Result<(), Fail> {
    for (first, second, answer) in LOGS {
        assert_eq!(rt; read_end(rt.alloc(), first, second)?, answer);
    }
    Ok(())
}
