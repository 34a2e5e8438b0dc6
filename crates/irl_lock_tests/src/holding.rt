ghost use Rattle.std.specs.Prelude.{◌≡◌, ◌+◌, ◌^◌, ◌<◌, IsTrue, length};
ghost use Rattle.std.proofs.Common.{rules};
ghost use Rattle.irl_disk.specs.Images.{silent};

use irl_disk::{Failed, Store};
use std::alloc::{AllocError, Global};
use std::sync::atomic::AtomicBool;
use std::sync::atomic::Ordering::SeqCst;

// How often a flag is looked at.
const LOOKS: u64 = 2_000_000_000;

// Waits until a flag is set. Answers whether it was.
pub(crate) fn looks_until(flag: &AtomicBool) -> bool {
    for _ in 0..LOOKS {
        if flag.load(SeqCst) {
            return true;
        }
    }
    false
}

// The files 0 to 999 in memory, of which it tells no content. At the first sync of file 0111 behind a write to it, it sets
// one flag, and waits until the other is set.
#[derive(Drop)]
pub(crate) struct Holding<'a> {
    files: Vec<Vec<u8>>,
    faults: u64,
    was_written: bool,
    has_held: bool,
    is_there: &'a AtomicBool,
    may_go: &'a AtomicBool,
    pub(crate) gave_up: bool,
}

impl<'a> Holding<'a> {
    pub(crate) fn new(
        alloc: Global,
        is_there: &'a AtomicBool,
        may_go: &'a AtomicBool,
    ) -> Result<Holding<'a>, AllocError> {
        let mut files = Vec::new(alloc);
        for _ in 0..1_000 {
            files.push(Vec::new(alloc))?;
        }
        Ok(Holding {
            files,
            faults: 0,
            was_written: false,
            has_held: false,
            is_there,
            may_go,
            gave_up: false,
        })
    }

    // The bytes of a file.
    fn bytes(&self, f: u16) -> &[u8] {
        match self.files.get(f as usize) {
            Some(file) => file.as_slice(),
            None => &[],
        }
    }
}

// Writes bytes at a place of a file. Answers whether there is such a file, and room.
fn put(files: &mut [Vec<u8>], f: u16, at: u64, bytes: &[u8]) -> bool
    ensures { IsTrue result → at + length bytes.now < 2 ^ 64 }
{
    let Some(file) = files.get_mut(f as usize) else {
        return false;
    };
    let Some(end) = (at as usize).checked_add(bytes.len()) else {
        return false;
    };
    if end > file.len() && file.resize(end, 0).is_err() {
        return false;
    }
    copy(file, at as usize, bytes);
    true
}

// Writes bytes over others from a place on, as many as there is room for.
fn copy(over: &mut [u8], at: usize, bytes: &[u8]) {
    for i in 0..bytes.len() {
        if at < over.len() && i < over.len() - at {
            over[at + i] = bytes[i];
        }
    }
}

impl<'a> Store for Holding<'a> {
    ghost told = { λ store. silent store.faults };

    ghost is_consistent = { Prim.search rules };

    fn length(&mut self, f: u16) -> Result<u64, Failed> {
        Ok(self.bytes(f).len() as u64)
    }

    fn read(&mut self, f: u16, at: u64, into: &mut [u8]) -> Result<usize, Failed> {
        let bytes = self.bytes(f);
        let left = (bytes.len() as u64).saturating_sub(at);
        let count = left.min(into.len() as u64) as usize;
        for i in 0..count {
            into[i] = bytes[at as usize + i];
        }
        Ok(count)
    }

    fn write(&mut self, f: u16, at: u64, bytes: &[u8]) -> Result<(), Failed> {
        if put(&mut self.files, f, at, bytes) {
            self.was_written = self.was_written || f == 111;
            return Ok(());
        }
        self.faults = self.faults.saturating_add(1);
        Err(Failed)
    }

    fn cut(&mut self, f: u16, to: u64) -> Result<(), Failed> {
        if let Some(file) = self.files.get_mut(f as usize) {
            file.truncate(to as usize);
        }
        Ok(())
    }

    fn sync(&mut self, f: u16) -> Result<(), Failed> {
        if f == 111 && self.was_written && !self.has_held {
            self.has_held = true;
            self.is_there.store(true, SeqCst);
            self.gave_up = !looks_until(self.may_go);
        }
        Ok(())
    }
}
