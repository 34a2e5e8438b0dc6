ghost use Rattle.std.specs.Prelude.{◌≡◌, ◌<◌, ◌↔◌, IsTrue, IfOk, string_bytes};

use crate::paths::path_of;
use std::alloc::{AllocError, Global};
use std::io::{self, ErrorKind};

/// A call of a store.
#[derive(Clone, Copy, Debug, PartialEq, Eq)]
pub enum Call {
    Length,
    Read,
    Write,
    Cut,
    Sync,
}

/// A call of a store that failed.
#[derive(Clone, Copy, Drop)]
pub struct Failure {
    call: Call,
    /// The number of its file.
    file: u16,
    error: io::Error,
    /// Whether another program has the folder.
    is_in_use: bool,
    ghost numbered: { file < 10000 },
}

impl Call {
    ghost use Rattle.irl_files.specs.Failure.{call_name};

    /// Its name.
    pub fn name(self) -> &'static str
        ensures { result.now ≡ call_name self }
    {
        match self {
            Call::Length => "length",
            Call::Read => "read",
            Call::Write => "write",
            Call::Cut => "cut",
            Call::Sync => "sync",
        }
    }
}

impl Failure {
    ghost use Rattle.std.specs.IoError.{error_kind};
    ghost use Rattle.irl_files.specs.Failure.{Explains};

    // The failure of this call on this file.
    pub(crate) fn new(call: Call, file: u16, error: io::Error) -> Failure
        requires { file < 10000 }
        ensures call { result.call ≡ call }
        ensures file { result.file ≡ file }
        ensures error { result.error ≡ error }
        ensures in_use { IsTrue result.is_in_use ↔ (error_kind error ≡ ErrorKind.WouldBlock) }
    {
        Failure {
            call,
            file,
            error,
            is_in_use: error.kind() == ErrorKind::WouldBlock,
        }
    }

    /// What failed, in words, in a store over this folder.
    pub fn explain(&self, alloc: Global, folder: &str) -> Result<String, AllocError>
        ensures { IfOk result (λ text. Explains folder.now self.now (string_bytes text)) }
    {
        if self.is_in_use {
            return [folder, " is in use by another program"].concat(alloc);
        }
        let path = path_of(alloc, folder, self.file)?;
        let reason = format!(in alloc; "{}", self.error)?;
        [
            self.call.name(),
            " of ",
            path.as_str(),
            ": ",
            reason.as_str(),
        ]
        .concat(alloc)
    }
}
