//! Calls of the stores in memory, and their answers.

ghost use Rattle.std.specs.Prelude.{◌<◌};

use irl_disk::{Failed, Store};

/// A call of a store on a file.
#[derive(Clone, Copy)]
pub(crate) enum Call {
    Length,
    Write(u64, &'static str),
    Cut(u64),
    Sync,
}

/// A file, a call on it, and the answer: a length, or 0 where the call gives nothing.
pub(crate) type Row = (u16, Call, Result<u64, Failed>);

/// Writes at a place that the file reaches to: one call of the store, and a question before it where the place isn't 0.
fn write<S: Store>(store: &mut S, f: u16, at: u64, bytes: &[u8]) -> Result<u64, Failed>
    requires { f < 10000 }
{
    if at > 0 && store.length(f)? < at {
        return Err(Failed);
    }
    store.write(f, at, bytes)?;
    Ok(0)
}

/// Cuts a file that reaches so far: two calls of the store.
fn cut<S: Store>(store: &mut S, f: u16, to: u64) -> Result<u64, Failed>
    requires { f < 10000 }
{
    if store.length(f)? < to {
        return Err(Failed);
    }
    store.cut(f, to)?;
    Ok(0)
}

/// The answer of a call.
fn answer<S: Store>(store: &mut S, f: u16, call: Call) -> Result<u64, Failed> {
    let f = f % 10_000;
    match call {
        Call::Length => store.length(f),
        Call::Write(at, bytes) => write(store, f, at, bytes.as_bytes()),
        Call::Cut(to) => cut(store, f, to),
        Call::Sync => store.sync(f).map(|()| 0),
    }
}

/// The first row that is answered otherwise.
pub(crate) fn first_other<S: Store>(store: &mut S, rows: &[Row]) -> Option<usize> {
    for (i, (f, call, told)) in rows.iter().enumerate() {
        if answer(store, *f, *call) != *told {
            return Some(i);
        }
    }
    None
}

/// How many of the first eight bytes a file has, and these.
pub(crate) fn shown<S: Store>(store: &mut S, f: u16) -> Result<(usize, [u8; 8]), Failed> {
    let mut into = [0; 8];
    let count = store.read(f % 10_000, 0, &mut into)?;
    Ok((count, into))
}
