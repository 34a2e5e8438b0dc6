ghost use Rattle.std.specs.Prelude.{◌≡◌, ◌+◌, ◌^◌, ◌<◌, length, OnOk};
ghost use Rattle.std.proofs.Common.{rules};
ghost use Rattle.irl_disk.specs.Images.{silent};

use crate::runs::{NONE, new_store, run_over};
use irl_disk::{Failed, MemStore, Store};
use std::alloc::AllocError;
use std::process::Abort;
use std::sync::Wait;
use std::test::Fail;
use std::thread::Threads;

// A store in memory that spoils one byte of a file, as often as it is written. It tells no content.
#[derive(Drop)]
struct Spoiling {
    store: MemStore,
    faults: u64,
    file: u16,
    place: u64,
}

impl Spoiling {
    // Writes bytes, and the byte with another highest bit where it is among them.
    fn put(&mut self, f: u16, at: u64, bytes: &[u8]) -> Result<(), Failed>
        requires { f < 10000 }
        ensures within { OnOk result (at + length bytes.now < 2 ^ 64) }
        ensures faults { self.new.faults ≡ self.old.faults }
    {
        if self.store.length(f)? < at {
            return Err(Failed);
        }
        self.store.write(f, at, bytes)?;
        if f != self.file || self.place < at {
            return Ok(());
        }
        if let Some(byte) = bytes.get((self.place - at) as usize) {
            if self.place <= self.store.length(f)? {
                self.store.write(f, self.place, &[byte ^ 0x80])?;
            }
        }
        Ok(())
    }
}

impl Store for Spoiling {
    ghost told = { λ spoiling. silent spoiling.faults };

    ghost is_consistent = { Prim.search rules };

    fn length(&mut self, f: u16) -> Result<u64, Failed> {
        Ok(self.store.length(f).unwrap_or(0))
    }

    fn read(&mut self, f: u16, at: u64, into: &mut [u8]) -> Result<usize, Failed> {
        if self.store.length(f).unwrap_or(0) < at {
            return Ok(0);
        }
        Ok(self.store.read(f, at, into).unwrap_or(0))
    }

    fn write(&mut self, f: u16, at: u64, bytes: &[u8]) -> Result<(), Failed> {
        if self.put(f, at, bytes).is_ok() {
            return Ok(());
        }
        self.faults = self.faults.saturating_add(1);
        Err(Failed)
    }

    fn cut(&mut self, f: u16, to: u64) -> Result<(), Failed> {
        if to <= self.store.length(f).unwrap_or(0) {
            let _ = self.store.cut(f, to);
        }
        Ok(())
    }

    fn sync(&mut self, _f: u16) -> Result<(), Failed> {
        Ok(())
    }
}

// A byte of a file, and what a run writes over a store that spoils it.
#[derive(Clone, Copy)]
struct Spoilt<'a> {
    file: u16,
    place: u64,
    output: &'a [u8],
    errors: &'a [u8],
}

// A new store where each of these lines is flushed by itself, and judged before the next one.
fn check_spoilt<R: Threads + Wait + Sync + Abort + AllocGlobal>(
    rt: &R,
    case: Spoilt<'_>,
) -> Result<(), AllocError> {
    let store = Spoiling {
        store: new_store(rt.alloc(), NONE)?,
        faults: 0,
        file: case.file,
        place: case.place,
    };
    let words = ["seen", "--buckets=1", "--array=1", "--trigger=1"];
    let left = run_over(rt, &words, b"a\nb\nc\nd\n", NONE, store)?;
    let status = if case.errors.is_empty() { 0 } else { 3 };
    let is_so = left.output.as_slice() == case.output
        && left.errors.as_slice() == case.errors
        && left.status == status;
    assert!(rt; is_so, "at byte {} of file {}", case.place, case.file);
    Ok(())
}

// A damage that is found in an open store is named by the file and the place where it is, and what was judged before it
// is printed: an entry of the judged file, a key of the live side of the cache that doesn't rise, a record of a journal,
// and a text that is longer than its file. A value that differs isn't named, nor a text, which is printed as it stands.
#[test]
fn damage_is_named_where_it_is(rt: HostRuntime) -> Result<(), Fail> {
    for (file, place, output, errors) in [
        (
            103,
            7,
            b"".as_slice(),
            b"damaged: byte 0 of file 0103\n".as_slice(),
        ),
        (103, 48, b"a\n", b"damaged: byte 48 of file 0103\n"),
        (101, 23, b"a\nb\n", b"damaged: byte 16 of file 0101\n"),
        (101, 24, b"a\nb\nc\nd\n", b""),
        (102, 39, b"a\nb\nc\n", b"damaged: byte 32 of file 0102\n"),
        (110, 7, b"", b"damaged: byte 0 of file 0110\n"),
        (110, 6, b"", b"damaged: byte 0 of file 0111\n"),
        (600, 7, b"a\n", b"damaged: byte 0 of file 0600\n"),
        (111, 0, b"\xE1\nb\n\xE3\nd\n", b""),
    ] {
        let case = Spoilt {
            file,
            place,
            output,
            errors,
        };
        check_spoilt(&rt, case)?;
    }
    Ok(())
}
