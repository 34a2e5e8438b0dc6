ghost use Rattle.std.specs.Prelude.{◌≡◌, ℕ, ◌+◌, ◌^◌, ◌<◌, ◌≤◌, false, None, Ok, length, IfOk, OnOk};
ghost use Rattle.std.specs.Prelude.{IsErr, is_ok, if◌then◌else◌, MatchResult};
ghost use Rattle.std.proofs.Common.{rules};
ghost use Rattle.irl_base.specs.Faults.{counted, HasCause};
ghost use Rattle.irl_disk.specs.Images.{silent};
ghost use Rattle.irl_files.specs.FileStore.{fault_count, folder_path, lost_syncs, first_failure};
ghost use Rattle.irl_files.specs.Failure.{first_of, KeepsFirst};
ghost use Rattle.irl_files.specs.Lost.{is_lost, Remembers};
ghost use Rattle.irl_files.specs.Folder.{named_folder};

use crate::failure::{Call, Failure};
use crate::failures::Failures;
use crate::folder::Folder;
use crate::hold::Lockable;
use irl_disk::{Failed, Store};
use std::alloc::{AllocError, Global};
use std::io;
use std::rt::Files;

/// A store over the files of one folder, where file f has the name of its number in four digits, as `0998`. It tells no
/// content, and counts each call that failed. A file that isn't there is empty: the folder and the file are made at the
/// first write. A read that got past place 2 ^ 64 - 1 and a write that would go past it are refused. After a failed sync
/// of a file each later sync of it fails.
#[derive(Drop)]
pub struct FileStore<R: Files> {
    folder: Folder<R>,
    failures: Failures,
}

impl<R: Files + Drop> FileStore<R>
where
    R::File: Lockable,
{
    /// A store over the files of this folder; with no name of the one that the program runs in. Nothing is opened or made
    /// yet.
    pub fn new(rt: R, alloc: Global, folder: &str) -> Result<FileStore<R>, AllocError>
        ensures faults { IfOk result (λ store. fault_count store ≡ 0) }
        ensures folder { IfOk result (λ store. folder_path store ≡ named_folder folder.now) }
        ensures sound { IfOk result (λ store. (f : ℕ) → is_lost (lost_syncs store) f ≡ false) }
        ensures first { IfOk result (λ store. first_failure store ≡ None) }
    {
        Ok(FileStore {
            folder: Folder::new(rt, alloc, folder)?,
            failures: Failures::none(),
        })
    }

    /// The first of its calls that failed, if one has.
    pub fn first_failure(&self) -> Option<Failure>
        ensures { result ≡ first_failure self.now }
    {
        self.failures.first
    }

    /// Counts a fault where the system refused this call on a file, and keeps the first one.
    fn end<T>(&mut self, call: Call, f: u16, answer: io::Result<T>) -> Result<T, Failed>
        requires { f < 10000 }
        ensures value { MatchResult answer (λ value. result ≡ Ok value) (λ _. IsErr result) }
        ensures faults { fault_count self.new ≡
            (if is_ok answer then fault_count self.old else counted (fault_count self.old)) }
        ensures cause { HasCause (IsErr result) (fault_count self.old) (fault_count self.new) }
        ensures lost { lost_syncs self.new ≡ lost_syncs self.old }
        ensures first { MatchResult answer (λ _. first_failure self.new ≡ first_failure self.old)
            (λ error. (failure : Failure) × (failure.call ≡ call) × (failure.file ≡ f) × (failure.error ≡ error)
            × (first_failure self.new ≡ first_of (first_failure self.old) failure)) }
    {
        match answer {
            Ok(value) => Ok(value),
            Err(error) => {
                self.failures.count(Failure::new(call, f, error));
                Err(Failed)
            }
        }
    }
}

impl<R: Files + Drop> Store for FileStore<R>
where
    R::File: Lockable,
{
    ghost told = { λ store. silent (fault_count store) };

    ghost logs = { λ call is_ok old new. Remembers call is_ok (lost_syncs old) (lost_syncs new)
        × KeepsFirst call is_ok (first_failure old) (first_failure new) };

    ghost is_consistent = { Prim.search rules };

    fn length(&mut self, f: u16) -> Result<u64, Failed> {
        let answer = self.folder.length(f);
        self.end(Call::Length, f, answer)
    }

    fn read(&mut self, f: u16, at: u64, into: &mut [u8]) -> Result<usize, Failed> {
        let answer = self.folder.read(f, at, into);
        self.end(Call::Read, f, answer)
    }

    fn write(&mut self, f: u16, at: u64, bytes: &[u8]) -> Result<(), Failed> {
        let answer = self.folder.write(f, at, bytes);
        self.end(Call::Write, f, answer)
    }

    fn cut(&mut self, f: u16, to: u64) -> Result<(), Failed> {
        let answer = self.folder.cut(f, to);
        self.end(Call::Cut, f, answer)
    }

    fn sync(&mut self, f: u16) -> Result<(), Failed> {
        let answer = self.folder.sync(f);
        self.end(Call::Sync, f, answer)
    }
}
