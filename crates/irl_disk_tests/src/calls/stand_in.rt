//! A system of files in memory that writes down what reaches it.

use irl_files::Lockable;
use std::alloc::{AllocError, Allocator, Global};
use std::cell::{Cell, RefCell};
use std::fs::{Files, Metadata, OpenFile, OpenOptions, TryLockError};
use std::io::{self, Error, ErrorKind, Read, Seek, SeekFrom, Write};
use std::os::unix::fs::FileExt;
use std::path::Path;

/// The most bytes that one read gives.
const PIECE: usize = 3;

/// A call, as it is written down, that fails each time, and Linux's number of its error.
#[derive(Clone, Copy)]
pub(crate) struct Fault {
    pub(crate) call: &'static str,
    pub(crate) number: i32,
}

/// What stands at a path: bytes, or a folder.
#[derive(Drop)]
struct Node {
    path: String,
    bytes: Option<Vec<u8>>,
}

#[derive(Drop)]
struct State {
    nodes: Vec<Node>,
    open: usize,
    log: String,
}

/// The system.
#[derive(Drop)]
pub(crate) struct System {
    pub(crate) alloc: Global,
    most_open: usize,
    faults: &'static [Fault],
    state: RefCell<State>,
}

/// The runtime of a store over the system.
#[derive(Clone, Copy)]
pub(crate) struct OnSystem<'a>(pub(crate) &'a System);

/// An open file, or folder.
pub(crate) struct SystemFile<'a> {
    system: &'a System,
    path: String,
    node: usize,
    is_read_only: bool,
    place: Cell<u64>,
}

impl System {
    /// A system with the folder that the program runs in.
    pub(crate) fn new(
        alloc: Global,
        most_open: usize,
        faults: &'static [Fault],
    ) -> Result<System, AllocError> {
        let state = State {
            nodes: Vec::new(alloc),
            open: 0,
            log: String::new(alloc),
        };
        let system = System {
            alloc,
            most_open,
            faults,
            state: RefCell::new(state),
        };
        Ok(system)
    }

    /// Puts bytes, or with none a folder, at a path.
    pub(crate) fn put(&self, path: &str, bytes: Option<&str>) -> io::Result<()> {
        let bytes = match bytes {
            Some(bytes) => Some(Vec::from_slice(self.alloc, bytes.as_bytes())?),
            None => None,
        };
        let node = Node {
            path: String::from_str(self.alloc, path)?,
            bytes,
        };
        self.state.try_borrow_mut()?.nodes.push(node)?;
        Ok(())
    }

    /// Whether what stands here is a folder, and else how many bytes.
    fn about(&self, node: usize) -> io::Result<Metadata> {
        let state = self.state.try_borrow()?;
        match state.nodes.get(node) {
            Some(node) => match &node.bytes {
                Some(bytes) => Ok(Metadata::of_file(bytes.len() as u64)),
                None => Ok(Metadata::of_dir()),
            },
            None => Err(ErrorKind::NotFound.into()),
        }
    }

    /// Writes a line down.
    pub(crate) fn note(&self, words: &str, path: &str) -> io::Result<()> {
        let mut state = self.state.try_borrow_mut()?;
        state.log.push_str(words)?;
        state.log.push_str(path)?;
        state.log.push('\n')?;
        Ok(())
    }

    /// What was written down.
    pub(crate) fn log(&self) -> io::Result<String> {
        Ok(self.state.try_borrow()?.log.clone()?)
    }

    /// Writes a call down, and fails where it is to.
    fn call(&self, words: &str, path: &str) -> io::Result<()> {
        self.note(words, path)?;
        for fault in self.faults {
            if fault.call.strip_prefix(words) == Some(path) {
                return Err(Error::from_raw_os_error(fault.number));
            }
        }
        Ok(())
    }

    /// What stands at a path.
    fn find(&self, path: &str) -> io::Result<usize> {
        let state = self.state.try_borrow()?;
        match state
            .nodes
            .iter()
            .position(|node| node.path.as_str() == path)
        {
            Some(node) => Ok(node),
            None => Err(ErrorKind::NotFound.into()),
        }
    }

    /// Where as many files are open as may be, fails as Linux does.
    fn has_room(&self) -> io::Result<()> {
        if self.state.try_borrow()?.open < self.most_open {
            Ok(())
        } else {
            Err(Error::from_raw_os_error(24))
        }
    }

    /// Counts a file as open.
    fn enter(&self) -> io::Result<()> {
        let mut state = self.state.try_borrow_mut()?;
        state.open = state.open.saturating_add(1);
        Ok(())
    }

    /// Counts a file as closed.
    fn leave(&self, path: &str) -> io::Result<()> {
        let mut state = self.state.try_borrow_mut()?;
        state.open = state.open.saturating_sub(1);
        drop(state);
        self.note("close ", path)
    }

    /// Puts bytes at a place of a file.
    fn write(&self, node: usize, place: usize, from: &[u8]) -> io::Result<()> {
        let mut state = self.state.try_borrow_mut()?;
        match state.nodes.get_mut(node) {
            Some(
                Node {
                    bytes: Some(bytes),
                    path: _,
                },
            ) => Ok(put_at(bytes, place, from)?),
            _ => Err(ErrorKind::InvalidInput.into()),
        }
    }

    /// Puts bytes, or a folder, at a path in a folder that is there.
    fn make(&self, path: &str, bytes: Option<&str>) -> io::Result<usize> {
        let above = match Path::new(path).parent() {
            Some(above) if !above.as_str().is_empty() => above.as_str(),
            _ => ".",
        };
        let _ = self.find(above)?;
        self.put(path, bytes)?;
        self.find(path)
    }
}

impl<'a> Files for OnSystem<'a> {
    type File = SystemFile<'a>;

    type Dir = io::Empty;

    fn open_file(&self, how: &OpenOptions, path: &str) -> io::Result<SystemFile<'a>> {
        how.check()?;
        let system = self.0;
        system.call(words_of(how), path)?;
        system.has_room()?;
        let node = match system.find(path) {
            Err(error) if how.asks_create() && error.kind() == ErrorKind::NotFound => {
                system.make(path, Some(""))?
            }
            answer => answer?,
        };
        system.enter()?;
        Ok(SystemFile {
            system,
            path: String::from_str(system.alloc, path)?,
            node,
            is_read_only: !how.asks_write(),
            place: Cell::new(0),
        })
    }

    fn open_dir(&self, _path: &str) -> io::Result<io::Empty> {
        Err(ErrorKind::Unsupported.into())
    }

    fn metadata(&self, path: &str) -> io::Result<Metadata> {
        self.0.about(self.0.find(path)?)
    }

    fn symlink_metadata(&self, path: &str) -> io::Result<Metadata> {
        self.0.about(self.0.find(path)?)
    }

    fn copy(&self, _from: &str, _to: &str) -> io::Result<u64> {
        Err(ErrorKind::Unsupported.into())
    }

    fn rename(&self, _from: &str, _to: &str) -> io::Result<()> {
        Err(ErrorKind::Unsupported.into())
    }

    fn remove_file(&self, _path: &str) -> io::Result<()> {
        Err(ErrorKind::Unsupported.into())
    }

    fn create_dir(&self, path: &str) -> io::Result<()> {
        self.0.call("make folder ", path)?;
        self.0.make(path, None)?;
        Ok(())
    }

    fn remove_dir(&self, _path: &str) -> io::Result<()> {
        Err(ErrorKind::Unsupported.into())
    }

    fn remove_dir_all<B: Allocator>(&self, _alloc: B, _path: &str) -> io::Result<()> {
        Err(ErrorKind::Unsupported.into())
    }
}

/// Puts bytes at a place, with zeros before it where there are fewer.
fn put_at(bytes: &mut Vec<u8>, place: usize, from: &[u8]) -> Result<(), AllocError> {
    let end = place.saturating_add(from.len());
    if bytes.len() < end {
        bytes.resize(end, 0)?;
    }
    for (into, byte) in bytes.iter_mut().skip(place).zip(from) {
        *into = *byte;
    }
    Ok(())
}

/// How an opening is written down.
fn words_of(how: &OpenOptions) -> &'static str {
    if how.asks_create() {
        "make "
    } else if how.asks_write() {
        "open to write "
    } else {
        "open "
    }
}

impl Drop for SystemFile<'_> {
    fn drop(self) {
        let SystemFile {
            system,
            path,
            node: _,
            is_read_only: _,
            place: _,
        } = self;
        let _ = system.leave(path.as_str());
    }
}

impl FileExt for SystemFile<'_> {
    fn read_at(&self, buf: &mut [u8], offset: u64) -> io::Result<usize> {
        let state = self.system.state.try_borrow()?;
        let Some(
            Node {
                bytes: Some(bytes),
                path: _,
            },
        ) = state.nodes.get(self.node)
        else {
            return Err(ErrorKind::IsADirectory.into());
        };
        let from = bytes.get(offset as usize..).unwrap_or(&[]);
        let count = from.len().min(buf.len()).min(PIECE);
        buf[..count].copy_from_slice(&from[..count]);
        Ok(count)
    }

    fn write_at(&self, _buf: &[u8], _offset: u64) -> io::Result<usize> {
        Err(ErrorKind::Unsupported.into())
    }
}

impl Read for SystemFile<'_> {
    fn read(&mut self, buf: &mut [u8]) -> io::Result<usize> {
        let count = self.read_at(buf, self.place.get())?;
        self.place
            .set(self.place.get().saturating_add(count as u64));
        Ok(count)
    }
}

impl Write for SystemFile<'_> {
    fn write(&mut self, buf: &[u8]) -> io::Result<usize> {
        let place = self.place.get();
        let text = std::str::from_utf8(buf).unwrap_or("no text");
        let line = format!(in self.system.alloc; "{} at {place}: {text}", self.path.as_str())?;
        self.system.call("write ", line.as_str())?;
        self.system.write(self.node, place as usize, buf)?;
        self.place.set(place.saturating_add(buf.len() as u64));
        Ok(buf.len())
    }

    fn flush(&mut self) -> io::Result<()> {
        Ok(())
    }
}

impl Seek for SystemFile<'_> {
    fn seek(&mut self, to: SeekFrom) -> io::Result<u64> {
        match to {
            SeekFrom::Start(place) => {
                self.place.set(place);
                Ok(place)
            }
            _ => Err(ErrorKind::Unsupported.into()),
        }
    }
}

impl OpenFile for SystemFile<'_> {
    fn metadata(&self) -> io::Result<Metadata> {
        self.system.about(self.node)
    }

    fn set_len(&self, size: u64) -> io::Result<()> {
        let line = format!(in self.system.alloc; "{} to {size}", self.path.as_str())?;
        self.system.call("cut ", line.as_str())?;
        let mut state = self.system.state.try_borrow_mut()?;
        match state.nodes.get_mut(self.node) {
            Some(
                Node {
                    bytes: Some(bytes),
                    path: _,
                },
            ) => Ok(bytes.resize(size as usize, 0)?),
            _ => Err(ErrorKind::InvalidInput.into()),
        }
    }

    fn sync_all(&self) -> io::Result<()> {
        let is_file = self.system.about(self.node)?.is_file();
        let words = if is_file && self.is_read_only {
            "sync read-only "
        } else {
            "sync "
        };
        self.system.call(words, self.path.as_str())
    }

    fn sync_data(&self) -> io::Result<()> {
        Err(ErrorKind::Unsupported.into())
    }
}

impl Lockable for SystemFile<'_> {
    fn try_lock(&self) -> Result<(), TryLockError> {
        match self.system.call("lock ", self.path.as_str()) {
            Err(error) if error.kind() == ErrorKind::WouldBlock => Err(TryLockError::WouldBlock),
            Err(error) => Err(TryLockError::Error(error)),
            Ok(()) => Ok(()),
        }
    }
}
