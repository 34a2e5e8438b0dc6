//! A reply that comes in pieces.

ghost use Rattle.std.specs.Prelude.{◌≡◌, None, IfOk, refl};

use crate::score::{Score, all_if};
use crate::words::{Stage, number};
use irl_http::{Link, read_reply};
use irl_io::{Clock, Failed};
use irl_offer::{Answer, Want};
use std::alloc::{AllocError, Global};

/// How many bytes a chunk has.
const CHUNK: u32 = 1_024;

/// The head of an interim reply.
const INTERIM: &[u8] = b"HTTP/1.1 100 Continue\r\n\r\n";

/// How many bytes that has.
const INTERIM_LENGTH: u32 = 25;

/// How many bytes the head of a reply has at least.
const LEAST_HEAD: u32 = 24;

/// What a reply has of its bytes.
#[derive(Clone, Copy)]
enum Form {
    /// A body that ends where the peer closes.
    Plain,
    /// A body in chunks.
    Chunked,
    /// A head alone.
    Head,
    /// A head alone behind those of interim replies.
    Interim,
}

/// What a reply is made of, how it comes, and how often it is read.
#[derive(Clone, Copy)]
pub struct Manner {
    form: Form,
    piece: u32,
    rounds: u32,
}

impl Manner {
    /// What these words name: the form of the reply, how many bytes each read gives, and how often all of them are read.
    pub fn from_words(words: &[&str]) -> Option<Manner> {
        match words {
            [] => Some(Manner {
                form: Form::Chunked,
                piece: 1_024,
                rounds: 1,
            }),
            [form, piece, rounds] => Some(Manner {
                form: form_of(form)?,
                piece: number(piece)?,
                rounds: number(rounds)?,
            }),
            _ => None,
        }
    }
}

/// Gives its bytes in pieces, and tells nothing.
#[derive(Drop)]
struct Pieces {
    bytes: Vec<u8>,
    at: usize,
    size: usize,
}

impl Link for Pieces {
    ghost left = { λ _. None };

    ghost left_at_read = { λ _. None };

    ghost written = { λ _. None };

    ghost connections = { λ _. None };

    ghost faults = { λ _. 0 };

    ghost clock_is_apart = { λ _ _ _. (refl, refl, refl, refl, refl) };

    fn connect(&mut self, _port: u16) -> Result<(), Failed> {
        Ok(())
    }

    fn read(&mut self, into: &mut [u8]) -> Result<usize, Failed> {
        let rest = self.bytes.get(self.at..).unwrap_or_default();
        let count = rest.len().min(into.len()).min(self.size);
        into[..count].copy_from_slice(&rest[..count]);
        self.at = self.at.saturating_add(count);
        Ok(count)
    }

    fn write(&mut self, _: &[u8]) -> Result<(), Failed> {
        Ok(())
    }
}

impl Clock for Pieces {
    ghost last = { λ _. 0 };

    fn now(&mut self) -> u64 {
        0
    }

    fn wait_till(&mut self, _moment: u64) {}
}

/// Reads a reply with so many bytes: how often its body had all that it should. There is nothing to load.
pub fn run(alloc: Global, size: u32, stage: Stage, manner: Manner) -> Result<Score, AllocError>
    ensures calls { IfOk result (λ score. score.calls ≡ manner.rounds) }
{
    let (bytes, body) = match manner.form {
        Form::Plain => (plain(alloc, size)?, size),
        Form::Chunked => (chunked(alloc, size)?, size),
        Form::Head => (head(alloc, size)?, 0),
        Form::Interim => (interim(alloc, size)?, 0),
    };
    let calls = u64::from(manner.rounds);
    let right = match stage {
        Stage::Done => whole_readings(alloc, bytes, body, manner)?,
        _ => all_if(bytes.len() >= size as usize, calls),
    };
    Ok(Score {
        right,
        calls,
        beside: None,
    })
}

fn form_of(word: &str) -> Option<Form> {
    match word {
        "plain" => Some(Form::Plain),
        "chunked" => Some(Form::Chunked),
        "head" => Some(Form::Head),
        "interim" => Some(Form::Interim),
        _ => None,
    }
}

// A reply with so many bytes until the close.
fn plain(alloc: Global, size: u32) -> Result<Vec<u8>, AllocError> {
    let mut bytes = b"HTTP/1.1 200 OK\r\n\r\n".to_vec(alloc)?;
    for _ in 0..size {
        bytes.push(b'a')?;
    }
    Ok(bytes)
}

// A reply with so many bytes in chunks, of which the last may be short.
fn chunked(alloc: Global, size: u32) -> Result<Vec<u8>, AllocError> {
    let mut bytes = b"HTTP/1.1 200 OK\r\nTransfer-Encoding: chunked\r\n\r\n".to_vec(alloc)?;
    for _ in 0..size / CHUNK {
        push_chunk(alloc, &mut bytes, CHUNK)?;
    }
    if size % CHUNK > 0 {
        push_chunk(alloc, &mut bytes, size % CHUNK)?;
    }
    bytes.extend_from_slice(b"0\r\n\r\n")?;
    Ok(bytes)
}

// One chunk.
fn push_chunk(alloc: Global, bytes: &mut Vec<u8>, size: u32) -> Result<(), AllocError> {
    bytes.extend_from_slice(format!(in alloc; "{size:x}\r\n")?.as_bytes())?;
    for _ in 0..size {
        bytes.push(b'a')?;
    }
    bytes.extend_from_slice(b"\r\n")?;
    Ok(())
}

// A reply without a body, whose head has so many bytes.
fn head(alloc: Global, size: u32) -> Result<Vec<u8>, AllocError> {
    let mut bytes = Vec::new(alloc);
    push_head(&mut bytes, size)?;
    Ok(bytes)
}

// A reply without a body, whose head has so many bytes with those of the interim replies before it, as many as fit.
fn interim(alloc: Global, size: u32) -> Result<Vec<u8>, AllocError> {
    let mut bytes = Vec::new(alloc);
    let more = size.saturating_sub(LEAST_HEAD);
    for _ in 0..more / INTERIM_LENGTH {
        bytes.extend_from_slice(INTERIM)?;
    }
    push_head(&mut bytes, LEAST_HEAD + more % INTERIM_LENGTH)?;
    Ok(bytes)
}

// A head of so many bytes.
fn push_head(bytes: &mut Vec<u8>, size: u32) -> Result<(), AllocError> {
    bytes.extend_from_slice(b"HTTP/1.1 404 No\r\na: ")?;
    for _ in LEAST_HEAD..size {
        bytes.push(b'a')?;
    }
    bytes.extend_from_slice(b"\r\n\r\n")?;
    Ok(())
}

// How often the reply has all bytes of its body, of so many readings.
fn whole_readings(
    alloc: Global,
    bytes: Vec<u8>,
    body: u32,
    manner: Manner,
) -> Result<u64, AllocError> {
    let mut link = Pieces {
        bytes,
        at: 0,
        size: manner.piece as usize,
    };
    let mut whole = 0u64;
    for _ in 0..manner.rounds {
        link.at = 0;
        if let Answer::Reply(reply) = read_reply(alloc, &mut link, Want::Page)?
            && reply.body.bytes().len() == body as usize
        {
            whole = whole.saturating_add(1);
        }
    }
    Ok(whole)
}
