//! Runs of the program over stores and streams in memory.

ghost use Rattle.std.specs.Prelude.{◌≡◌, length, IfOk};

use irl_disk::{MemStore, Store};
use irl_http::MemLink;
use irl_io::{MemSink, MemSource};
use irl_record::WireFetch;
use irl_top::run;
use std::alloc::{AllocError, Global};
use std::process::Abort;
use std::sync::Wait;
use std::thread::Threads;

pub const SEEN: &[&str] = &["seen"];

pub const ONE_BUCKET: &[&str] = &["seen", "--buckets", "1"];

pub const SHOW: &[&str] = &["show"];

pub const LIST: &[&str] = &["list"];

pub const ROW: &[u8] = b"http://a.test/\nhttp://b.test/\nhttp://a.test/\n";

pub const NEW_OF_ROW: &[u8] = b"http://a.test/\nhttp://b.test/\n";

/// Ends the test where two values differ, and says what they are. It formats no value, which `assert_eq!` does with both and which
/// takes the longest in the proof of a test.
pub fn same(rt: &impl Abort, is_same: bool, what: &str) {
    assert!(rt; is_same, "another {what}");
}

/// The number of the call that fails, of each object.
#[derive(Clone, Copy)]
pub struct Failing {
    pub store: Option<u64>,
    pub input: Option<u64>,
    pub output: Option<u64>,
}

pub const NONE: Failing = Failing {
    store: None,
    input: None,
    output: None,
};

/// The words and the input of a run, its status, and what it writes.
#[derive(Clone, Copy)]
pub struct Case<'a> {
    pub words: &'a [&'a str],
    pub input: &'a [u8],
    pub status: u8,
    pub output: &'a [u8],
    pub errors: &'a [u8],
}

/// A run on an input that writes this.
pub fn writes<'a>(words: &'a [&'a str], input: &'a [u8], output: &'a [u8]) -> Case<'a> {
    Case {
        words,
        input,
        status: 0,
        output,
        errors: b"",
    }
}

/// A run on an input that ends so, and writes no output.
pub fn ending<'a>(words: &'a [&'a str], input: &'a [u8], status: u8, errors: &'a [u8]) -> Case<'a> {
    Case {
        words,
        input,
        status,
        output: b"",
        errors,
    }
}

/// A run on the row that is refused.
pub fn refusal<'a>(words: &'a [&'a str], status: u8, errors: &'a [u8]) -> Case<'a> {
    ending(words, ROW, status, errors)
}

pub fn numbers(alloc: Global, call: Option<u64>) -> Result<Vec<u64>, AllocError> {
    let mut numbers = Vec::new(alloc);
    if let Some(call) = call {
        numbers.push(call)?;
    }
    Ok(numbers)
}

pub fn new_store(alloc: Global, failing: Failing) -> Result<MemStore, AllocError> {
    Ok(MemStore::new(alloc, numbers(alloc, failing.store)?))
}

/// Ports, the first of which has these connections and the others none.
pub fn new_ports(alloc: Global, first: MemLink) -> Result<Vec<WireFetch<MemLink>>, AllocError>
    ensures { IfOk result (λ ports. length ports.items ≡ 64) }
{
    let mut ports = Vec::new(alloc);
    ports.push(WireFetch::new(alloc, first))?;
    for _ in 0..63_usize {
        let link = MemLink::new(alloc, Vec::new(alloc), Vec::new(alloc));
        ports.push(WireFetch::new(alloc, link))?;
    }
    Ok(ports)
}

/// Ports without connections.
pub fn no_ports(alloc: Global) -> Result<Vec<WireFetch<MemLink>>, AllocError>
    ensures { IfOk result (λ ports. length ports.items ≡ 64) }
{
    new_ports(alloc, MemLink::new(alloc, Vec::new(alloc), Vec::new(alloc)))
}

/// What a run answers and writes, and the store that it leaves.
#[derive(Drop)]
pub struct Left<S> {
    pub status: u8,
    pub output: Vec<u8>,
    pub errors: Vec<u8>,
    pub store: S,
}

/// Runs the program over a store and these ports.
pub fn run_with<R: Threads + Wait + Sync + AllocGlobal, S: Store + Drop + Send>(
    rt: &R,
    words: &[&str],
    input: &[u8],
    failing: Failing,
    store: S,
    ports: &mut [WireFetch<MemLink>],
) -> Result<Left<S>, AllocError>
    requires { length ports.old ≡ 64 }
{
    let alloc = rt.alloc();
    let mut source = MemSource::new(input.to_vec(alloc)?, numbers(alloc, failing.input)?);
    let mut output = MemSink::new(alloc, numbers(alloc, failing.output)?);
    let mut errors = MemSink::new(alloc, Vec::new(alloc));
    let (status, store) = run(
        rt,
        alloc,
        words,
        &mut source,
        &mut output,
        &mut errors,
        store,
        ports,
    );
    Ok(Left {
        status,
        output: output.bytes().to_vec(alloc)?,
        errors: errors.bytes().to_vec(alloc)?,
        store,
    })
}

/// Runs it over a store, and ports without connections.
pub fn run_over<R: Threads + Wait + Sync + AllocGlobal, S: Store + Drop + Send>(
    rt: &R,
    words: &[&str],
    input: &[u8],
    failing: Failing,
    store: S,
) -> Result<Left<S>, AllocError> {
    let mut ports = no_ports(rt.alloc())?;
    run_with(rt, words, input, failing, store, &mut ports)
}

/// A run over a store, which ends so.
pub fn check<R: Threads + Wait + Sync + Abort + AllocGlobal>(
    rt: &R,
    store: MemStore,
    failing: Failing,
    case: Case<'_>,
) -> Result<MemStore, AllocError> {
    let Left {
        status,
        output,
        errors,
        store,
    } = run_over(rt, case.words, case.input, failing, store)?;
    assert_eq!(rt; output.as_slice(), case.output);
    assert_eq!(rt; errors.as_slice(), case.errors);
    assert_eq!(rt; status, case.status);
    Ok(store)
}
