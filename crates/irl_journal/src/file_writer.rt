ghost use Rattle.std.specs.Prelude.{◌≡◌, ◌+◌, ◌≤◌, ◌<◌, ◌^◌, ◌++◌, [], List, ℕ, true, false, Option};
ghost use Rattle.std.specs.Prelude.{length as len, IfOk, OnOk, OnErr, IsErr};
ghost use Rattle.std.specs.Option.{ForSome};
ghost use Rattle.irl_base.specs.Faults.{HasCause};
ghost use Rattle.irl_disk.specs.Disk.{Files, Changes, ChangesFile};
ghost use Rattle.irl_disk.specs.Effects.{OnlyChanges};
ghost use Rattle.irl_journal.specs.Blob.{KeepsFront};
ghost use Rattle.irl_journal.specs.Growing.{HasPut, Puts, Finishes, KeepsRest, ReachesPlace, end_of};

use crate::synced::write_synced;
use irl_disk::{Failed, Store};
use std::alloc::{AllocError, Global};
use std::marker::Model;

/// How many bytes a piece has, at least, that is read or written at once.
pub const PIECE: usize = 65_536;

/// A writer of a file's growing end, in pieces: what is put waits in memory until there is a piece, and no piece is synced
/// by itself. Contracts see it as a `Writer`.
#[derive(Drop)]
pub struct FileWriter {
    file: u16,
    kept: u64,
    place: u64,
    // Its first `count` bytes wait to be written.
    buffer: Vec<u8>,
    count: usize,
}

impl Model for FileWriter {
    ghost use Rattle.std.specs.Prelude.{◌+◌, ◌^◌, ◌<◌, ◌≤◌, take, vec_len};
    ghost use Rattle.irl_journal.specs.Growing.{Writer};

    ghost Value = { Writer };

    ghost view = { λ w. record {
      file = w.file;
      kept = w.kept;
      place = w.place;
      waiting = take w.count w.buffer.items;
    } };

    ghost invariant = { λ w. (w.file < 10000) × (w.kept ≤ w.place) × (w.place + w.count < 2 ^ 64)
        × (w.count ≤ vec_len w.buffer) };
}

impl FileWriter {
    /// A writer behind the first so many bytes of a file, which stay: the file has at least as many while it is written. It
    /// touches no file. All the memory that the other calls need is taken here.
    pub fn at(alloc: Global, f: u16, length: u64) -> Result<FileWriter, AllocError>
        requires { f < 10000 }
        ensures value { IfOk result (λ writer.
            writer ≡ record { file = f; kept = length; place = length; waiting = [] }) }
        ensures put { IfOk result (λ writer. (told : Option Files) →
            ForSome told (λ files. length ≤ len (files f)) → HasPut told [] writer) }
    {
        FileWriter::with_room(alloc, f, length, PIECE)
    }

    /// The same, of a writer that gathers so many bytes before it writes them.
    pub fn with_room(
        alloc: Global,
        f: u16,
        length: u64,
        room: usize,
    ) -> Result<FileWriter, AllocError>
        requires { f < 10000 }
        ensures value { IfOk result (λ writer.
            writer ≡ record { file = f; kept = length; place = length; waiting = [] }) }
        ensures put { IfOk result (λ writer. (told : Option Files) →
            ForSome told (λ files. length ≤ len (files f)) → HasPut told [] writer) }
    {
        let buffer = vec![in alloc; 0; room]?;
        Ok(FileWriter {
            file: f,
            kept: length,
            place: length,
            buffer,
            count: 0,
        })
    }

    /// Puts bytes behind those that were put. Where they pass a piece, what waits is written before them. A refusal leaves
    /// what was put, and the bytes may be put again. It takes no memory.
    #[inline(always)]
    pub fn put<S: Store>(&mut self, store: &mut S, more: &[u8]) -> Result<(), Failed>
        requires { ForSome (S.told store.old).files (ReachesPlace self.old) }
        ensures { Puts result more.now self.old self.new (S.told store.old) (S.told store.new) }
    {
        if self.gather(more) {
            return Ok(());
        }
        self.put_past(store, more)
    }

    /// How long the file is with what was put, in bytes.
    pub fn length(&self) -> u64
        ensures value { result ≡ end_of self.now }
        ensures bound { result < 2 ^ 64 }
    {
        self.place + self.count as u64
    }

    /// Writes what waits and syncs the file, whose length it gives: each stop from then on leaves what was committed of the
    /// bytes that stay, and behind them all that were put.
    pub fn finish<S: Store>(self, store: &mut S) -> Result<u64, Failed>
        requires { ForSome (S.told store.old).files (ReachesPlace self) }
        ensures { Finishes result self (S.told store.old) (S.told store.new) }
    {
        write_synced(store, self.file, self.place, &self.buffer[..self.count])?;
        Ok(self.place + self.count as u64)
    }

    // Puts bytes behind those that wait, or answers false where they don't fit there, or the file would be too long.
    fn gather(&mut self, more: &[u8]) -> bool
        ensures gathered { result ≡ true → self.new ≡ record {
          file = self.old.file;
          kept = self.old.kept;
          place = self.old.place;
          waiting = self.old.waiting ++ more.now;
        } }
        ensures same { result ≡ false → self.new ≡ self.old }
    {
        let room = self.buffer.len() - self.count;
        if more.len() > room || more.len() as u64 > u64::MAX - self.length() {
            return false;
        }
        self.buffer[self.count..self.count + more.len()].copy_from_slice(more);
        self.count += more.len();
        true
    }

    // As `put`, where the bytes don't fit behind those that wait. It stands apart so that `put` is short, and is compiled into
    // each caller: of a pair it then copies sixteen bytes, without a call.
    #[cold]
    fn put_past<S: Store>(&mut self, store: &mut S, more: &[u8]) -> Result<(), Failed>
        requires { ForSome (S.told store.old).files (ReachesPlace self.old) }
        ensures { Puts result more.now self.old self.new (S.told store.old) (S.told store.new) }
    {
        self.flush(store)?;
        if self.gather(more) {
            return Ok(());
        }
        self.write_past(store, more)
    }

    // Writes what waits.
    fn flush<S: Store>(&mut self, store: &mut S) -> Result<(), Failed>
        requires { ForSome (S.told store.old).files (ReachesPlace self.old) }
        ensures value { OnOk result (self.new ≡ record {
          file = self.old.file;
          kept = self.old.kept;
          place = end_of self.old;
          waiting = [];
        }) }
        ensures same { OnErr result (self.new ≡ self.old) }
        ensures put { (bytes : List ℕ) → HasPut (S.told store.old).files bytes self.old →
            HasPut (S.told store.new).files bytes self.new }
        ensures long { ForSome (S.told store.new).files (ReachesPlace self.new) }
        ensures rest { OnOk result (Changes self.old.file (KeepsRest (end_of self.old))
            (S.told store.old).files (S.told store.new).files) }
        ensures changes { OnlyChanges (ChangesFile self.old.file (KeepsFront self.old.kept)) (IsErr result)
            (S.told store.old) (S.told store.new) }
    {
        store.write(self.file, self.place, &self.buffer[..self.count])?;
        self.place += self.count as u64;
        self.count = 0;
        Ok(())
    }

    // Writes bytes behind those that were put, none of which wait.
    fn write_past<S: Store>(&mut self, store: &mut S, more: &[u8]) -> Result<(), Failed>
        requires none { self.old.waiting ≡ [] }
        requires long { ForSome (S.told store.old).files (ReachesPlace self.old) }
        ensures { Puts result more.now self.old self.new (S.told store.old) (S.told store.new) }
    {
        store.write(self.file, self.place, more)?;
        self.place += more.len() as u64;
        Ok(())
    }
}
