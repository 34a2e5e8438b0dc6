ghost use Rattle.std.specs.Prelude.{Some};
ghost use Rattle.irl_disk.specs.Memory.{counts_of, fault_count, told_by};
ghost use Rattle.irl_disk.specs.MemoryLaws.{consistent};

use super::put_file;
use crate::runs::{
    Case, NEW_OF_ROW, NONE, ONE_BUCKET, ROW, SEEN, check, new_store, refusal, run_over, same,
    writes,
};
use irl_disk::{Failed, MemStore, Store};
use std::alloc::AllocError;
use std::process::Abort;
use std::sync::Wait;
use std::test::Fail;
use std::thread::Threads;

// A new store over which the lines of the row were judged in a first run of these words.
fn judged_row<R: Threads + Wait + Sync + Abort + AllocGlobal>(
    rt: &R,
    words: &[&str],
) -> Result<MemStore, AllocError> {
    let store = new_store(rt.alloc(), NONE)?;
    check(rt, store, NONE, writes(words, ROW, NEW_OF_ROW))
}

// The journal of side 1 of a bucket has a gate and no record, and its other file nothing.
fn check_empty(rt: &impl Abort, store: &mut MemStore, bucket: u16) {
    assert!(rt; bucket < 64);
    let mut gate = [b'-'; 2];
    let count = store.read(600 + 2 * bucket, 0, &mut gate);
    same(rt, count == Ok(1) && gate == *b"\0-", "gate");
    let length = store.length(601 + 2 * bucket);
    same(rt, length == Ok(0), "length");
}

// The first merge names side 1 of the cache and of the bucket files, which it leaves empty.
fn check_side<R: Threads + Wait + Sync + Abort + AllocGlobal>(
    rt: &R,
    words: &[&str],
    buckets: u16,
    record: &[u8; 6],
) -> Result<(), AllocError> {
    let mut store = judged_row(rt, words)?;
    let mut manifest = [0; 6];
    let count = store.read(100, 0, &mut manifest);
    same(rt, count == Ok(6) && manifest == *record, "manifest");
    for bucket in 0..buckets {
        check_empty(rt, &mut store, bucket);
    }
    Ok(())
}

#[test]
fn the_first_merge_names_an_empty_side(rt: HostRuntime) -> Result<(), Fail> {
    check_side(&rt, SEEN, 16, b"\xA5\xA1\0\0\0\x05")?;
    check_side(&rt, ONE_BUCKET, 1, b"\xA5\x29\0\0\0\x05")?;
    Ok(())
}

const BROKEN: &[u8] = b"\xA5\xFF\0\0\0\0";

// A run over the judged lines of a first run of these words, of which one file was put in place by other bytes.
fn check_changed<R: Threads + Wait + Sync + Abort + AllocGlobal>(
    rt: &R,
    words: &[&str],
    file: u16,
    bytes: &[u8],
    case: Case<'_>,
) -> Result<(), AllocError> {
    let mut store = judged_row(rt, words)?;
    put_file(rt, &mut store, file, bytes);
    let _ = check(rt, store, NONE, case)?;
    Ok(())
}

// The journals of side 1 are live.
#[test]
fn the_live_side_is_opened_or_refused(rt: HostRuntime) -> Result<(), Fail> {
    let kept: &[u8] = b"other setting 1: kept 1, asked 2\n";
    for (file, bytes, case) in [
        (
            600,
            BROKEN,
            refusal(SEEN, 3, b"damaged: byte 0 of file 0600\n"),
        ),
        (600, BROKEN, refusal(&["drum"], 3, kept)),
        (
            600,
            BROKEN,
            refusal(&["show"], 3, b"damaged: byte 0 of file 0600\n"),
        ),
        (
            600,
            BROKEN,
            refusal(&["list"], 3, b"damaged: byte 0 of file 0600\n"),
        ),
        (600, b"\xA5", writes(SEEN, ROW, b"")),
        (110, BROKEN, writes(SEEN, ROW, b"")),
    ] {
        for words in [SEEN, ONE_BUCKET] {
            check_changed(&rt, words, file, bytes, case)?;
        }
    }
    Ok(())
}

// A store in memory that counts the bytes which reads of file 0102 give.
#[derive(Drop)]
struct Counting {
    store: MemStore,
    taken: u64,
}

impl Store for Counting {
    ghost told = { λ counting. told_by counting.store };

    ghost is_consistent = { λ counting. consistent counting.store };

    fn length(&mut self, f: u16) -> Result<u64, Failed> {
        self.store.length(f)
    }

    fn read(&mut self, f: u16, at: u64, into: &mut [u8]) -> Result<usize, Failed> {
        let count = self.store.read(f, at, into)?;
        if f == 102 {
            self.taken = self.taken.saturating_add(count as u64);
        }
        Ok(count)
    }

    fn write(&mut self, f: u16, at: u64, bytes: &[u8]) -> Result<(), Failed> {
        self.store.write(f, at, bytes)
    }

    fn cut(&mut self, f: u16, to: u64) -> Result<(), Failed> {
        self.store.cut(f, to)
    }

    fn sync(&mut self, f: u16) -> Result<(), Failed> {
        self.store.sync(f)
    }
}

// Runs `seen` with four buckets and blocks of two keys on an input, and gives its status.
fn seen_in_blocks<R: Threads + Wait + Sync + AllocGlobal>(
    rt: &R,
    store: Counting,
    input: &[u8],
) -> Result<(u8, Counting), AllocError> {
    let words = ["seen", "--buckets", "4", "--block", "2"];
    let left = run_over(rt, &words, input, NONE, store)?;
    Ok((left.status, left.store))
}

// Opening reads no key. The last run's merge reads the five of the live side once, for all buckets, and nothing else
// reads that file.
#[test]
fn a_merge_reads_each_key_once(rt: HostRuntime) -> Result<(), Fail> {
    let mut counting = Counting {
        store: new_store(rt.alloc(), NONE)?,
        taken: 0,
    };
    for (input, taken) in [(b"a\nb\nc\nd\ne\n".as_slice(), 0), (b"", 0), (b"f\n", 80)] {
        let (status, left) = seen_in_blocks(&rt, counting, input)?;
        same(&rt, (status, left.taken) == (0, taken), "number of bytes");
        counting = left;
    }
    Ok(())
}
