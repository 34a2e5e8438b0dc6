ghost use Rattle.std.specs.Prelude.{◌≡◌, ◌+◌, ◌<◌, ◌≤◌, ◌++◌, List, ℕ, [], Ok, length, max, IfOk, IsErr};
ghost use Rattle.std.specs.Io.KnownBytes.{Consumes, IsAtEnd};
ghost use Rattle.irl_base.specs.Faults.{HasCause};
ghost use Rattle.irl_http.specs.Steps.{Undisturbed, Gets, FillAs, UntilAs, HeadsRead};

use crate::fields::Head;
use crate::head::{MAX_HEADS, Told, look};
use crate::link::Link;
use irl_io::Failed;
use irl_offer::Answer;
use std::alloc::{AllocError, Global};

/// How many bytes are read at once.
pub(crate) const PIECE: usize = 16_384;

/// What reading more bytes came to.
#[derive(Clone, Copy, Debug, PartialEq, Eq)]
pub(crate) enum Fill {
    /// There are more.
    More,
    /// The connection has ended.
    Ended,
    /// The link failed.
    Failed,
}

/// What reading to the end of the heads came to.
#[derive(Drop)]
pub(crate) enum Heads {
    /// The head of the reply, which ends at a place.
    Head(Head, usize),
    /// No reply.
    Answer(Answer),
}

/// Reads a piece behind the bytes.
pub(crate) fn read_more<L: Link>(
    link: &mut L,
    piece: &mut [u8],
    bytes: &mut Vec<u8>,
) -> Result<Fill, AllocError>
    requires { 0 < length piece.old }
    ensures ok { IfOk result (λ fill. (got : List ℕ) × (bytes.new.items ≡ bytes.old.items ++ got)
        × Consumes (L.left link.old) (L.left link.new) got × (length got ≤ length piece.old)
        × FillAs got (L.left link.new) fill) }
    ensures memory { IsErr result → (got : List ℕ) × Consumes (L.left link.old) (L.left link.new) got
        × (length got ≤ length piece.old) }
    ensures last { L.left_at_read link.new ≡ L.left link.old }
    ensures cause { HasCause (result ≡ Ok Fill.Failed) (L.faults link.old) (L.faults link.new) }
    ensures undisturbed { Undisturbed (L.written link.old) (L.written link.new)
        (L.connections link.old) (L.connections link.new) (L.faults link.old) (L.faults link.new) }
{
    match link.read(piece) {
        Ok(0) => Ok(Fill::Ended),
        Ok(count) => {
            bytes.extend_from_slice(&piece[..count])?;
            Ok(Fill::More)
        }
        Err(Failed) => Ok(Fill::Failed),
    }
}

/// Reads until there are as many bytes.
pub(crate) fn read_until<L: Link>(
    link: &mut L,
    piece: &mut [u8],
    bytes: &mut Vec<u8>,
    target: usize,
) -> Result<Fill, AllocError>
    requires { 0 < length piece.old }
    ensures ok { IfOk result (λ fill. (got : List ℕ) × (bytes.new.items ≡ bytes.old.items ++ got)
        × Gets (λ early. length bytes.old.items + length early < target)
        (L.left link.old) (L.left link.new) (L.left_at_read link.old) (L.left_at_read link.new) got
        × (length bytes.new.items ≤ max (length bytes.old.items) (target + length piece.old))
        × UntilAs target (length bytes.new.items) (L.left link.new) fill) }
    ensures memory { IsErr result → (got : List ℕ)
        × Gets (λ early. length bytes.old.items + length early < target)
        (L.left link.old) (L.left link.new) (L.left_at_read link.old) (L.left_at_read link.new) got
        × (length bytes.old.items + length got ≤ max (length bytes.old.items) (target + length piece.old)) }
    ensures cause { HasCause (result ≡ Ok Fill.Failed) (L.faults link.old) (L.faults link.new) }
    ensures undisturbed { Undisturbed (L.written link.old) (L.written link.new)
        (L.connections link.old) (L.connections link.new) (L.faults link.old) (L.faults link.new) }
{
    while bytes.len() < target {
        match read_more(link, piece, bytes)? {
            Fill::More => {}
            other => return Ok(other),
        }
    }
    Ok(Fill::More)
}

/// Reads until the bytes tell of the head of the reply.
pub(crate) fn read_heads<L: Link>(
    alloc: Global,
    link: &mut L,
    piece: &mut [u8],
    bytes: &mut Vec<u8>,
) -> Result<Heads, AllocError>
    requires room { 0 < length piece.old }
    requires none { bytes.old.items ≡ [] }
    ensures read { HeadsRead (L.left link.old) (L.left link.new) (L.left_at_read link.new) bytes.new.items result }
    ensures cause { HasCause (result ≡ Ok (Heads.Answer Answer.NoReply)) (L.faults link.old) (L.faults link.new) }
    ensures undisturbed { Undisturbed (L.written link.old) (L.written link.new)
        (L.connections link.old) (L.connections link.new) (L.faults link.old) (L.faults link.new) }
{
    let mut from = 0;
    loop {
        let room = piece.len().min(MAX_HEADS + 1 - bytes.len());
        match read_more(link, &mut piece[..room], bytes)? {
            Fill::More => {}
            Fill::Ended => return Ok(Heads::Answer(Answer::Short(bytes.len() as u64))),
            Fill::Failed => return Ok(Heads::Answer(Answer::NoReply)),
        }
        match look(alloc, bytes, from)? {
            Told::Head(head, end) => return Ok(Heads::Head(head, end)),
            Told::Bad(n) => return Ok(Heads::Answer(Answer::BadReply(n as u64))),
            Told::TooLarge(n) => return Ok(Heads::Answer(Answer::TooLarge(n as u64))),
            Told::Nothing(end) => from = end,
        }
    }
}
