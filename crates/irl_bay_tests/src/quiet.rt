ghost use Rattle.std.specs.Prelude.{◌≡◌, ◌<◌, ◌≤◌, length};
ghost use Rattle.std.proofs.Common.{rules};
ghost use Rattle.irl_base.specs.Faults.{Rose};
ghost use Rattle.irl_disk.specs.Images.{silent};
ghost use Rattle.irl_disk.specs.Memory.{files_in};

use irl_disk::{Failed, MemStore, Part, Store};
use std::alloc::{AllocError, Global};

// A store in memory that tells no content, so that nothing is owed of its files where it is called. Each of its calls is
// two of the `MemStore` in it, since it looks how long the file is first.
#[derive(Drop)]
pub(crate) struct Quiet {
    store: MemStore,
    faults: u64,
}

impl Quiet {
    // A store whose files are empty.
    pub(crate) fn new(alloc: Global) -> Quiet {
        Quiet {
            store: MemStore::new(alloc, Vec::new(alloc)),
            faults: 0,
        }
    }

    // The same, of which the call of this number fails, if one is named.
    pub(crate) fn failing(alloc: Global, call: Option<u64>) -> Result<Quiet, AllocError> {
        let mut failing = Vec::new(alloc);
        if let Some(call) = call {
            failing.push(call.saturating_mul(2).saturating_add(1))?;
        }
        Ok(Quiet {
            store: MemStore::new(alloc, failing),
            faults: 0,
        })
    }

    // How many calls were made.
    pub(crate) fn calls(&self) -> u64 {
        self.store.calls() / 2
    }

    // What a stop in this call leaves.
    pub(crate) fn image(&self, alloc: Global, call: u64, part: Part) -> Result<Quiet, AllocError> {
        let call = call.saturating_mul(2).saturating_add(1);
        if call >= self.store.calls() {
            return Err(AllocError);
        }
        Ok(Quiet {
            store: self.store.image(alloc, call, part)?,
            faults: 0,
        })
    }

    // All bytes of a file, by one call.
    pub(crate) fn bytes(&mut self, alloc: Global, f: u16) -> Result<Vec<u8>, Failed> {
        if f >= 10_000 {
            return Err(Failed);
        }
        let length = self.store.length(f)?;
        let Ok(mut bytes) = vec![in alloc; 0; length as usize] else {
            return Err(Failed);
        };
        self.store.read(f, 0, &mut bytes)?;
        Ok(bytes)
    }

    // Puts bytes behind those of a file.
    pub(crate) fn put(&mut self, f: u16, bytes: &[u8]) -> Result<(), Failed> {
        if f >= 10_000 {
            return Err(Failed);
        }
        let at = self.length(f)?;
        self.write(f, at, bytes)
    }

    fn fault(&mut self) -> Failed
        ensures later { self.old.faults ≤ self.new.faults }
        ensures rose { Rose self.old.faults self.new.faults }
    {
        self.faults = self.faults.saturating_add(1);
        Failed
    }

    // How long a file is, or less.
    fn length_of(&mut self, f: u16) -> u64
        requires { f < 10000 }
        ensures long { result ≤ length (files_in self.new.store f) }
        ensures faults { self.new.faults ≡ self.old.faults }
    {
        match self.store.length(f) {
            Ok(length) => length,
            Err(Failed) => 0,
        }
    }
}

impl Store for Quiet {
    ghost told = { λ store. silent store.faults };

    ghost is_consistent = { Prim.search rules };

    fn length(&mut self, f: u16) -> Result<u64, Failed> {
        self.length_of(f);
        match self.store.length(f) {
            Ok(length) => Ok(length),
            Err(Failed) => Err(self.fault()),
        }
    }

    fn read(&mut self, f: u16, at: u64, into: &mut [u8]) -> Result<usize, Failed> {
        if at > self.length_of(f) {
            return Err(self.fault());
        }
        match self.store.read(f, at, into) {
            Ok(count) => Ok(count),
            Err(Failed) => Err(self.fault()),
        }
    }

    fn write(&mut self, f: u16, at: u64, bytes: &[u8]) -> Result<(), Failed> {
        if at > self.length_of(f) {
            return Err(self.fault());
        }
        match self.store.write(f, at, bytes) {
            Ok(()) => Ok(()),
            Err(Failed) => Err(self.fault()),
        }
    }

    fn cut(&mut self, f: u16, to: u64) -> Result<(), Failed> {
        if to > self.length_of(f) {
            return Err(self.fault());
        }
        match self.store.cut(f, to) {
            Ok(()) => Ok(()),
            Err(Failed) => Err(self.fault()),
        }
    }

    fn sync(&mut self, f: u16) -> Result<(), Failed> {
        self.length_of(f);
        match self.store.sync(f) {
            Ok(()) => Ok(()),
            Err(Failed) => Err(self.fault()),
        }
    }
}
