use std::fs::{File, TryLockError};
use std::io::{self, ErrorKind};
use std::os::unix::fs::FileExt;

/// An open file, or folder, that a program can lock against others, and a file at whose places it can read.
pub trait Lockable: FileExt {
    /// Takes the lock unless another open of the same file has it. It lasts until this one is closed, and so no longer than
    /// the program.
    fn try_lock(&self) -> Result<(), TryLockError>;
}

impl Lockable for File {
    fn try_lock(&self) -> Result<(), TryLockError> {
        File::try_lock(self)
    }
}

/// What a store knows of its folder.
#[derive(Drop)]
pub(crate) enum Hold<F> {
    /// Nothing yet.
    Unseen,
    /// It wasn't there at the first look, and this store hasn't made it.
    Missing,
    /// It is there, and locked by this handle, where the system opens and locks folders.
    Held(Option<F>),
}

/// The folder's handle once it is locked, or where the system has no such locks.
pub(crate) fn lock<F: Lockable + Drop>(handle: F) -> io::Result<F> {
    match handle.try_lock() {
        Err(TryLockError::WouldBlock) => Err(in_use()),
        Ok(()) | Err(TryLockError::Error(_)) => Ok(handle),
    }
}

/// The error that another program has the folder. No call on a file answers it.
pub(crate) fn in_use() -> io::Error {
    ErrorKind::WouldBlock.into()
}
