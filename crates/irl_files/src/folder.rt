ghost use Rattle.std.specs.Prelude.{◌≡◌, ◌+◌, ◌^◌, ◌<◌, ◌≤◌, false, true, length, IfOk, OnOk, OnErr, ℕ, string_bytes};
ghost use Rattle.irl_files.specs.Folder.{named_folder};
ghost use Rattle.irl_files.specs.Lost.{is_lost, KeepsLost};

use crate::hold::{Hold, Lockable, lock};
use crate::opening::{Access, existing, make_folder, new_file, sync_name};
use crate::paths::{named, path_of};
use crate::table::{Table, is_unsupported};
use std::alloc::{AllocError, Global};
use std::fs::OpenFile;
use std::io::{self, Error, ErrorKind};
use std::rt::Files;

/// Linux's number of the error that a file wasn't opened for what is asked of it.
const NOT_OPEN_FOR_THIS: i32 = 9;

/// A folder whose files stay open.
#[derive(Drop)]
pub(crate) struct Folder<R: Files> {
    rt: R,
    alloc: Global,
    path: String,
    hold: Hold<R::File>,
    files: Table<R::File>,
    /// Whether the names of the files were made to last.
    is_synced: bool,
}

impl<R: Files + Drop> Folder<R>
where
    R::File: Lockable,
{
    /// The folder of this name; with no name the one that the program runs in.
    pub(crate) fn new(rt: R, alloc: Global, name: &str) -> Result<Folder<R>, AllocError>
        ensures path { IfOk result (λ folder. string_bytes folder.path ≡ named_folder name.now) }
        ensures unsynced { IfOk result (λ folder. folder.is_synced ≡ false) }
        ensures sound { IfOk result (λ folder. (f : ℕ) → is_lost folder.files.lost f ≡ false) }
    {
        Ok(Folder {
            rt,
            alloc,
            path: String::from_str(alloc, named(name))?,
            hold: Hold::Unseen,
            files: Table::new(alloc)?,
            is_synced: false,
        })
    }

    /// Whether the folder is there. The first look locks it.
    fn is_there(&mut self) -> io::Result<bool>
        ensures { KeepsLost self.old.files.lost self.new.files.lost }
    {
        match self.hold {
            Hold::Held(_) => Ok(true),
            Hold::Missing => Ok(false),
            Hold::Unseen => match self.take() {
                Err(error) if error.kind() == ErrorKind::NotFound => {
                    self.hold = Hold::Missing;
                    Ok(false)
                }
                answer => answer.map(|()| true),
            },
        }
    }

    /// Locks the folder. Its handle stays open, and is none of those that are closed where the system has no more.
    fn take(&mut self) -> io::Result<()>
        ensures { KeepsLost self.old.files.lost self.new.files.lost }
    {
        let path = self.path.as_str();
        let handle = match self.files.open(&self.rt, &existing(Access::Read), path) {
            Err(error) if is_unsupported(&error) => None,
            answer => Some(lock(answer?)?),
        };
        self.hold = Hold::Held(handle);
        Ok(())
    }

    /// Opens the file for this access, if it is there and isn't open for it yet.
    fn open(&mut self, f: u16, access: Access) -> io::Result<()>
        requires { f < 10000 }
        ensures { KeepsLost self.old.files.lost self.new.files.lost }
    {
        if !self.is_there()? {
            return Ok(());
        }
        if !self.files.has(f, access) {
            let path = path_of(self.alloc, self.path.as_str(), f)?;
            match self.files.open(&self.rt, &existing(access), path.as_str()) {
                Ok(file) => self.files.put(f, file, access)?,
                Err(error) if error.kind() == ErrorKind::NotFound => return Ok(()),
                Err(error) => return Err(error),
            }
        }
        self.files.touch(f);
        Ok(())
    }

    /// Makes the file, and the folder where it wasn't there at the first look.
    fn make(&mut self, f: u16) -> io::Result<()>
        requires { f < 10000 }
        ensures unsynced { OnOk result (self.new.is_synced ≡ false) }
        ensures kept { KeepsLost self.old.files.lost self.new.files.lost }
    {
        let path = path_of(self.alloc, self.path.as_str(), f)?;
        if !self.is_there()? {
            make_folder(&self.rt, &mut self.files, self.path.as_str())?;
            self.take()?;
        }
        self.is_synced = false;
        let file = self.files.open(&self.rt, &new_file(), path.as_str())?;
        self.files.put(f, file, Access::Write)?;
        self.files.touch(f);
        Ok(())
    }

    pub(crate) fn length(&mut self, f: u16) -> io::Result<u64>
        requires { f < 10000 }
        ensures { KeepsLost self.old.files.lost self.new.files.lost }
    {
        self.open(f, Access::Read)?;
        match self.files.handles.get_mut(&f) {
            Some(handle) => handle.length(),
            None => Ok(0),
        }
    }

    pub(crate) fn read(&mut self, f: u16, at: u64, into: &mut [u8]) -> io::Result<usize>
        requires { f < 10000 }
        ensures within { IfOk result (λ n. (n ≤ length into.new) × (at + n < 2 ^ 64)) }
        ensures kept { KeepsLost self.old.files.lost self.new.files.lost }
    {
        self.open(f, Access::Read)?;
        match self.files.handles.get_mut(&f) {
            Some(handle) => handle.read(at, into),
            None => Ok(0),
        }
    }

    pub(crate) fn write(&mut self, f: u16, at: u64, bytes: &[u8]) -> io::Result<()>
        requires { f < 10000 }
        ensures within { OnOk result (at + length bytes.now < 2 ^ 64) }
        ensures kept { KeepsLost self.old.files.lost self.new.files.lost }
    {
        self.open(f, Access::Write)?;
        if !self.files.has(f, Access::Write) {
            self.make(f)?;
        }
        match self.files.handles.get_mut(&f) {
            Some(handle) => handle.write(at, bytes),
            None => Err(ErrorKind::NotFound.into()),
        }
    }

    pub(crate) fn cut(&mut self, f: u16, to: u64) -> io::Result<()>
        requires { f < 10000 }
        ensures { KeepsLost self.old.files.lost self.new.files.lost }
    {
        self.open(f, Access::Write)?;
        match self.files.handles.get_mut(&f) {
            Some(handle) => handle.cut(to),
            None => Ok(()),
        }
    }

    /// Makes the file's bytes last, and its name. The first sync of a process makes the names last that an earlier one
    /// may have been stopped before. One that failed is remembered, and each later one of that file fails.
    pub(crate) fn sync(&mut self, f: u16) -> io::Result<()>
        requires { f < 10000 }
        ensures first { OnOk result (is_lost self.old.files.lost f ≡ false) }
        ensures lost { OnErr result (is_lost self.new.files.lost f ≡ true) }
        ensures kept { KeepsLost self.old.files.lost self.new.files.lost }
    {
        if self.files.lost.has(f) {
            return Err(Error::other("an earlier sync failed"));
        }
        let answer = self.sync_all(f);
        if answer.is_err() {
            self.files.lost.add(f);
        }
        answer
    }

    /// Makes the file's bytes last, if it is there, and the names that no sync made last.
    fn sync_all(&mut self, f: u16) -> io::Result<()>
        requires { f < 10000 }
        ensures { KeepsLost self.old.files.lost self.new.files.lost }
    {
        if self.sync_bytes(f)? && !self.is_synced {
            self.files.sync_folder(&self.rt, self.path.as_str())?;
            sync_name(&self.rt, &mut self.files, self.path.as_str())?;
            self.is_synced = true;
        }
        Ok(())
    }

    /// Makes the file's bytes last, and answers whether it is there. It is opened for writing only where the system
    /// refuses to sync what is open for reading.
    fn sync_bytes(&mut self, f: u16) -> io::Result<bool>
        requires { f < 10000 }
        ensures { KeepsLost self.old.files.lost self.new.files.lost }
    {
        self.open(f, Access::Read)?;
        match self.files.handles.get_mut(&f) {
            Some(handle) => match handle.sync() {
                Err(error) if handle.access == Access::Read && is_refusal(&error) => {}
                answer => return answer.map(|()| true),
            },
            None => return Ok(false),
        }
        self.open(f, Access::Write)?;
        match self.files.handles.get_mut(&f) {
            Some(handle) => handle.sync().map(|()| true),
            None => Ok(false),
        }
    }
}

/// Whether the system refused to sync a file that is open for reading, with nothing tried.
fn is_refusal(error: &Error) -> bool {
    error.raw_os_error() == Some(NOT_OPEN_FOR_THIS)
        || error.kind() == ErrorKind::PermissionDenied
        || is_unsupported(error)
}
