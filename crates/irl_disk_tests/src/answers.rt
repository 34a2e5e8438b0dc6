//! Calls of a store over files, and their answers as texts.

ghost use Rattle.std.specs.Prelude.{◌<◌};

use irl_disk::{Failed, Store};
use irl_files::{FileStore, Lockable};
use std::alloc::{AllocError, Global};
use std::rt::Files;

/// A call of a store on a file.
#[derive(Clone, Copy)]
pub(crate) enum Call {
    Length,
    Read(u64),
    Write(u64, &'static str),
    Cut(u64),
    Sync,
}

/// What a call that gives nothing answers.
fn told(alloc: Global, answer: Result<(), Failed>) -> Result<String, AllocError> {
    match answer {
        Ok(()) => String::from_str(alloc, "done"),
        Err(Failed) => String::from_str(alloc, "failed"),
    }
}

/// How long a file is.
fn told_length(alloc: Global, answer: Result<u64, Failed>) -> Result<String, AllocError> {
    match answer {
        Ok(length) => format!(in alloc; "{length}"),
        Err(Failed) => String::from_str(alloc, "failed"),
    }
}

/// How many bytes a read gave, and what stands then in the slice.
fn told_bytes(
    alloc: Global,
    into: &[u8],
    answer: Result<usize, Failed>,
) -> Result<String, AllocError> {
    let text = std::str::from_utf8(into).unwrap_or("no text");
    match answer {
        Ok(count) => format!(in alloc; "{count} {text}"),
        Err(Failed) => String::from_str(alloc, "failed"),
    }
}

/// Reads into a slice of eight `-`.
fn read<R: Files + Drop>(
    store: &mut FileStore<R>,
    alloc: Global,
    f: u16,
    at: u64,
) -> Result<String, AllocError>
where
    R::File: Lockable,
    requires { f < 10000 }
{
    let mut into = [b'-'; 8];
    let answer = store.read(f, at, &mut into);
    told_bytes(alloc, &into, answer)
}

/// The answer of a call.
pub(crate) fn answer<R: Files + Drop>(
    store: &mut FileStore<R>,
    alloc: Global,
    f: u16,
    call: Call,
) -> Result<String, AllocError>
where
    R::File: Lockable,
{
    let f = f % 10_000;
    match call {
        Call::Length => told_length(alloc, store.length(f)),
        Call::Read(at) => read(store, alloc, f, at),
        Call::Write(at, bytes) => told(alloc, store.write(f, at, bytes.as_bytes())),
        Call::Cut(to) => told(alloc, store.cut(f, to)),
        Call::Sync => told(alloc, store.sync(f)),
    }
}
