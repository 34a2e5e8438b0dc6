ghost use Rattle.std.specs.Prelude.{◌≡◌, ◌+◌, ◌^◌, ◌<◌, ◌≤◌, ℕ, false, length, IfOk, OnOk};
ghost use Rattle.irl_files.specs.Lost.{is_lost, KeepsLost};

use crate::lost::Lost;
use crate::opening::{Access, existing};
use crate::place::{read_at, write_at};
use std::alloc::{AllocError, Global};
use std::collections::BTreeMap;
use std::fs::{OpenFile, OpenOptions};
use std::io::{self, Error, ErrorKind, Seek, Write};
use std::os::unix::fs::FileExt;
use std::rt::Files;

/// The most files that a store has.
const MOST_FILES: u16 = 10_000;

/// Linux's numbers of the errors that this process, and the system, has no more open files.
const NO_MORE_FILES: [i32; 2] = [24, 23];

/// A file that is open.
#[derive(Drop)]
pub(crate) struct Handle<F> {
    pub(crate) file: F,
    pub(crate) access: Access,
    /// Whether it was written, or cut, since its last sync.
    pub(crate) is_unsynced: bool,
    /// How long it is, where that is known. Nobody else writes the folder.
    length: Option<u64>,
    /// The number of the use that was its last.
    last_use: u64,
}

/// The files that are open, in the order of their last use, and the syncs that failed.
#[derive(Drop)]
pub(crate) struct Table<F> {
    pub(crate) handles: BTreeMap<u16, Handle<F>>,
    uses: u64,
    pub(crate) lost: Lost,
}

impl<F: FileExt> Handle<F> {
    /// Reads from a place until the slice is full or the file ends.
    pub(crate) fn read(&self, at: u64, into: &mut [u8]) -> io::Result<usize>
        ensures { IfOk result (λ n. (n ≤ length into.new) × (at + n < 2 ^ 64)) }
    {
        read_at(&self.file, at, into)
    }
}

impl<F: Write + Seek> Handle<F> {
    /// Writes at a place.
    pub(crate) fn write(&mut self, at: u64, bytes: &[u8]) -> io::Result<()>
        ensures { OnOk result (at + length bytes.now < 2 ^ 64) }
    {
        self.is_unsynced = true;
        let before = self.length.take();
        write_at(&mut self.file, at, bytes)?;
        let end = at + bytes.len() as u64;
        self.length = before.map(|length| length.max(end));
        Ok(())
    }
}

impl<F: OpenFile> Handle<F> {
    /// How long it is.
    pub(crate) fn length(&mut self) -> io::Result<u64> {
        match self.length {
            Some(length) => Ok(length),
            None => {
                let length = self.file.metadata()?.len();
                self.length = Some(length);
                Ok(length)
            }
        }
    }

    /// Cuts it back to this length.
    pub(crate) fn cut(&mut self, to: u64) -> io::Result<()> {
        self.is_unsynced = true;
        self.length = None;
        self.file.set_len(to)?;
        self.length = Some(to);
        Ok(())
    }

    /// Makes the file's bytes last.
    pub(crate) fn sync(&mut self) -> io::Result<()> {
        self.file.sync_all()?;
        self.is_unsynced = false;
        Ok(())
    }
}

impl<F: OpenFile + Drop> Table<F> {
    /// No open file and no failed sync.
    pub(crate) fn new(alloc: Global) -> Result<Table<F>, AllocError>
        ensures { IfOk result (λ table. (f : ℕ) → is_lost table.lost f ≡ false) }
    {
        Ok(Table {
            handles: BTreeMap::new(alloc),
            uses: 0,
            lost: Lost::new(alloc)?,
        })
    }

    /// Whether a file is open for this access.
    pub(crate) fn has(&self, f: u16, access: Access) -> bool {
        match self.handles.get(&f) {
            Some(handle) => access == Access::Read || handle.access == Access::Write,
            None => false,
        }
    }

    /// Keeps a file open.
    pub(crate) fn put(&mut self, f: u16, file: F, access: Access) -> Result<(), AllocError>
        ensures { KeepsLost self.old.lost self.new.lost }
    {
        let handle = Handle {
            file,
            access,
            is_unsynced: false,
            length: None,
            last_use: self.uses,
        };
        self.handles.insert(f, handle)?;
        Ok(())
    }

    /// Makes a file the one that was used last.
    pub(crate) fn touch(&mut self, f: u16)
        ensures { KeepsLost self.old.lost self.new.lost }
    {
        self.uses = self.uses.saturating_add(1);
        if let Some(handle) = self.handles.get_mut(&f) {
            handle.last_use = self.uses;
        }
    }

    /// Opens a file or a folder. Where the system has no more open files, closes the one that was used longest ago and
    /// tries again.
    pub(crate) fn open<R: Files<File = F>>(
        &mut self,
        rt: &R,
        how: &OpenOptions,
        path: &str,
    ) -> io::Result<F>
        ensures { KeepsLost self.old.lost self.new.lost }
    {
        'tries: for _ in 0..MOST_FILES {
            match how.open(rt, path) {
                Err(error) if has_no_more_files(&error) => self.close_oldest(error)?,
                answer => return answer,
            }
        }
        how.open(rt, path)
    }

    /// Closes the file that was used longest ago; with none open answers this error.
    fn close_oldest(&mut self, error: Error) -> io::Result<()>
        ensures { KeepsLost self.old.lost self.new.lost }
    {
        match self.oldest() {
            Some(f) => Ok(self.close(f)),
            None => Err(error),
        }
    }

    /// The file that was used longest ago.
    fn oldest(&self) -> Option<u16> {
        let mut oldest: Option<(u16, u64)> = None;
        for (f, handle) in &self.handles {
            match oldest {
                Some((_, last_use)) if last_use <= handle.last_use => {}
                _ => oldest = Some((*f, handle.last_use)),
            }
        }
        oldest.map(|(f, _)| f)
    }

    /// Closes a file, after a sync where it was written since its last one.
    fn close(&mut self, f: u16)
        ensures { KeepsLost self.old.lost self.new.lost }
    {
        if let Some(mut handle) = self.handles.remove(&f) {
            if handle.is_unsynced && handle.sync().is_err() {
                self.lost.add(f);
            }
        }
    }

    /// Makes the names in a folder last. A system that syncs no folders keeps their names in its own way.
    pub(crate) fn sync_folder<R: Files<File = F>>(&mut self, rt: &R, path: &str) -> io::Result<()>
        ensures { KeepsLost self.old.lost self.new.lost }
    {
        let answer = match self.open(rt, &existing(Access::Read), path) {
            Ok(folder) => folder.sync_all(),
            Err(error) => Err(error),
        };
        match answer {
            Err(error) if is_unsupported(&error) => Ok(()),
            Err(error) => {
                if error.kind() != ErrorKind::PermissionDenied {
                    self.lost.add_folder();
                }
                Err(error)
            }
            Ok(()) => Ok(()),
        }
    }
}

/// Whether the system has no more open files.
fn has_no_more_files(error: &Error) -> bool {
    match error.raw_os_error() {
        Some(number) => NO_MORE_FILES.contains(&number),
        None => false,
    }
}

/// Whether the system doesn't do what was asked, as network mounts answer the sync of a folder.
pub(crate) fn is_unsupported(error: &Error) -> bool {
    error.kind() == ErrorKind::Unsupported || error.kind() == ErrorKind::InvalidInput
}
