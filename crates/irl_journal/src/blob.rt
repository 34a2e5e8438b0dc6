ghost use Rattle.std.specs.Prelude.{◌≡◌, ◌↔◌, ◌+◌, ◌≤◌, ◌<◌, ◌++◌, List, ℕ, true};
ghost use Rattle.std.specs.Prelude.{length as len, take, drop, IfOk, IfSome, IsNone, OnOk, OnErr, IsErr};
ghost use Rattle.std.specs.Option.{ForSome};
ghost use Rattle.irl_base.specs.Faults.{HasCause};
ghost use Rattle.irl_disk.specs.Disk.{Files, Changes, ChangesFile, Holds};
ghost use Rattle.irl_disk.specs.Effects.{OnlyReads, OnlyChanges};
ghost use Rattle.irl_journal.specs.Blob.{KeepsFront, IsCommitted};

use crate::synced::write_synced;
use irl_disk::{Failed, Store};
use std::marker::Model;

/// Bytes at the front of a file that only grow. They are committed up to a length; what lies past it means nothing. Contracts
/// see a blob as a `Front`.
#[derive(Drop)]
pub struct Blob {
    file: u16,
    length: u64,
}

impl Model for Blob {
    ghost use Rattle.std.specs.Prelude.{◌<◌};
    ghost use Rattle.irl_journal.specs.Blob.{Front};

    ghost Value = { Front };

    ghost view = { λ b. record { file = b.file; length = b.length } };

    ghost invariant = { λ b. b.file < 10000 };
}

impl Blob {
    /// A blob of a file of which so many bytes are committed. It touches no file.
    pub fn at(f: u16, length: u64) -> Blob
        requires { f < 10000 }
        ensures { result ≡ record { file = f; length = length } }
    {
        Blob { file: f, length }
    }

    /// A blob of a file of which so many bytes are committed, or none where the file is shorter. It syncs the file
    /// first, so from then on each stop leaves what a read gives. It changes nothing that a read gives.
    pub fn open<S: Store>(store: &mut S, f: u16, length: u64) -> Result<Option<Blob>, Failed>
        requires { f < 10000 }
        // There is none exactly where the file is shorter.
        ensures short { IfOk result (λ found. ForSome (S.told store.old).files (λ files.
            IsNone found ↔ (len (files f) < length))) }
        ensures blob { IfOk result (λ found. IfSome found (λ blob. blob ≡ record { file = f; length = length })) }
        // The bytes that the file has up to there are committed.
        ensures committed { IfOk result (λ found. IfSome found (λ blob. ForSome (S.told store.old).files (λ files.
            IsCommitted (S.told store.new).images blob (take length (files f))))) }
        // Each stop from then on leaves what a read gives.
        ensures durable { OnOk result (ForSome (S.told store.old).files (λ files.
            (image : Files) → (S.told store.new).images image → image f ≡ files f)) }
        ensures reads { OnlyReads (λ _. ⊥) (IsErr result) (S.told store.old) (S.told store.new) }
        ensures taken { (S.told store.new).taken ≡ (S.told store.old).taken }
    {
        store.sync(f)?;
        if store.length(f)? < length {
            return Ok(None);
        }
        Ok(Some(Blob::at(f, length)))
    }

    /// Appends bytes behind the committed ones, in two calls of the store: it writes them over whatever lies there, and
    /// syncs. At `Ok` they are committed. A refusal leaves the blob as it was, to be appended to again. It takes no memory.
    pub fn append<S: Store>(&mut self, store: &mut S, bytes: &[u8]) -> Result<(), Failed>
        requires { ForSome (S.told store.old).files (λ files. self.old.length ≤ len (files self.old.file)) }
        // Each stop from then on leaves what was committed and these bytes behind it.
        ensures committed { OnOk result ((held : List ℕ) →
            IsCommitted (S.told store.old).images self.old held →
            IsCommitted (S.told store.new).images self.new (held ++ bytes.now)) }
        ensures length { OnOk result (self.new.length ≡ self.old.length + len bytes.now) }
        ensures kept { OnErr result (self.new ≡ self.old) }
        ensures file { self.new.file ≡ self.old.file }
        // What a read gives has the bytes there.
        ensures bytes { OnOk result (Changes self.old.file (Holds self.old.length bytes.now)
            (S.told store.old).files (S.told store.new).files) }
        // A stop at any moment leaves what was committed, and every other file as it was.
        ensures changes { OnlyChanges (ChangesFile self.old.file (KeepsFront self.old.length)) (IsErr result)
            (S.told store.old) (S.told store.new) }
    {
        write_synced(store, self.file, self.length, bytes)?;
        self.length += bytes.len() as u64;
        Ok(())
    }

    /// The number of its file.
    pub fn file(&self) -> u16
        ensures value { result ≡ self.now.file }
        ensures limit { result < 10000 }
    {
        self.file
    }

    /// How many bytes are committed.
    pub fn length(&self) -> u64
        ensures { result ≡ self.now.length }
    {
        self.length
    }

    /// Takes back what was appended since the blob had this length: it isn't committed after all. It touches no file.
    pub fn rewind(&mut self, length: u64)
        requires { length ≤ self.old.length }
        ensures { self.new ≡ record { file = self.old.file; length = length } }
    {
        self.length = length;
    }

    /// Fills a slice with the file's bytes from a place on, and answers whether the file has as many.
    pub fn read<S: Store>(&self, store: &mut S, at: u64, into: &mut [u8]) -> Result<bool, Failed>
        ensures long { IfOk result (λ is_filled. ForSome (S.told store.old).files (λ files.
            (is_filled ≡ true) ↔ (at + len into.new ≤ len (files self.now.file)))) }
        ensures bytes { IfOk result (λ is_filled. is_filled ≡ true → ForSome (S.told store.old).files (λ files.
            into.new ≡ take (len into.new) (drop at (files self.now.file)))) }
        ensures reads { OnlyReads (λ f. f ≡ self.now.file) (IsErr result) (S.told store.old) (S.told store.new) }
    {
        let length = store.length(self.file)?;
        if at > length || into.len() as u64 > length - at {
            return Ok(false);
        }
        let count = store.read(self.file, at, into)?;
        Ok(count == into.len())
    }
}
