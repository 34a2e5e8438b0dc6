ghost use Rattle.std.specs.Prelude.{◌≡◌, ◌+◌, ◌<◌, ◌≤◌, ◌++◌, List, ℕ, Ok, length, drop, IfOk, IsErr};
ghost use Rattle.std.specs.Io.KnownBytes.{Keeps};
ghost use Rattle.httparse.specs.Grammar.{ResponseHead};
ghost use Rattle.irl_base.specs.Faults.{HasCause};
ghost use Rattle.irl_base.specs.Limits.{max_page};
ghost use Rattle.irl_http.specs.Bodies.{most_of};
ghost use Rattle.irl_http.specs.Fields.{plan_of};
ghost use Rattle.irl_http.specs.Links.{StaySame};
ghost use Rattle.irl_http.specs.Parsing.{Says, EndsHeads};
ghost use Rattle.irl_http.specs.Reading.{ReadsAnswer, ReadsNoMore};
ghost use Rattle.irl_http.specs.Reply.{received};
ghost use Rattle.irl_http.specs.Steps.{Undisturbed, IsHeads, BodyRead, IsTarget};

use crate::chunks::{Chunks, Progress, lesser, most};
use crate::fields::{Head, Plan};
use crate::link::Link;
use crate::reading::{Fill, Heads, PIECE, read_heads, read_more, read_until};
use irl_offer::{Answer, MAX_PAGE, Reply, Text, Want};
use std::alloc::{AllocError, Global};

/// Reads the reply to a request that was written on the link. It takes no more of it than the reply needs: each read is
/// made only where the bytes so far tell no answer.
pub fn read_reply<L: Link>(alloc: Global, link: &mut L, want: Want) -> Result<Answer, AllocError>
    ensures answer { IfOk result (ReadsAnswer want (L.left link.old) (L.left link.new) (L.left_at_read link.new)) }
    ensures memory { IsErr result
        → ReadsNoMore want (L.left link.old) (L.left link.new) (L.left_at_read link.new) }
    ensures cause { HasCause (result ≡ Ok Answer.NoReply) (L.faults link.old) (L.faults link.new) }
    ensures written { Keeps (L.written link.old) (L.written link.new) }
    ensures connections { StaySame (L.connections link.old) (L.connections link.new) }
{
    let mut piece = vec![in alloc; 0; PIECE]?;
    let mut bytes = Vec::new(alloc);
    match read_heads(alloc, link, &mut piece, &mut bytes)? {
        Heads::Head(head, start) => read_body(alloc, link, &mut piece, want, head, start, &bytes),
        Heads::Answer(answer) => Ok(answer),
    }
}

/// Reads the body behind heads that end at `start`, of which these bytes came.
fn read_body<L: Link>(
    alloc: Global,
    link: &mut L,
    piece: &mut [u8],
    want: Want,
    head: Head,
    start: usize,
    bytes: &[u8],
) -> Result<Answer, AllocError>
    requires room { (0 < length piece.old) × (length piece.old ≤ 16384) }
    requires early { start ≤ 16384 }
    requires within { start ≤ length bytes.now }
    requires few { length bytes.now ≤ 16385 }
    ensures read { (h : ResponseHead) → Says head h → EndsHeads bytes.now start h
        → BodyRead want bytes.now (L.left link.old) (L.left link.new)
        (L.left_at_read link.old) (L.left_at_read link.new) result }
    ensures cause { HasCause (result ≡ Ok Answer.NoReply) (L.faults link.old) (L.faults link.new) }
    ensures undisturbed { Undisturbed (L.written link.old) (L.written link.new)
        (L.connections link.old) (L.connections link.new) (L.faults link.old) (L.faults link.new) }
{
    let rest = &bytes[start..];
    match head.plan {
        Plan::Empty => Ok(reply(head, Vec::new(alloc))),
        Plan::Coded => Ok(Answer::Coded),
        Plan::BadLength => Ok(Answer::BadReply(start as u64)),
        Plan::Sized(length) => {
            let target = lesser(length, most(want));
            let body = Vec::from_slice(alloc, rest)?;
            read_plain(link, piece, want, head, start, body, target, false)
        }
        Plan::UntilClose => {
            let body = Vec::from_slice(alloc, rest)?;
            read_plain(link, piece, want, head, start, body, most(want), true)
        }
        Plan::Chunked => {
            let ahead = Vec::from_slice(alloc, rest)?;
            read_chunks(alloc, link, piece, want, head, start, ahead)
        }
    }
}

/// A reply with this body.
fn reply(head: Head, body: Vec<u8>) -> Answer
    requires { length body.items ≤ max_page }
    ensures reply { (h : ResponseHead) → Says head h → result ≡ Answer.Reply (received h body.items) }
    ensures some { result ≡ Answer.NoReply → ⊥ }
{
    let Head {
        status,
        location,
        html,
        plan: _,
    } = head;
    Answer::Reply(Reply {
        status,
        location,
        html,
        body: Text::from_vec(body),
    })
}

/// Reads a body of as many bytes, or until the connection ends.
fn read_plain<L: Link>(
    link: &mut L,
    piece: &mut [u8],
    want: Want,
    head: Head,
    start: usize,
    body: Vec<u8>,
    target: usize,
    closes: bool,
) -> Result<Answer, AllocError>
    requires room { (0 < length piece.old) × (length piece.old ≤ 16384) }
    requires early { start ≤ 16384 }
    requires few { length body.items ≤ 16385 }
    requires kept { target ≤ max_page + 1 }
    ensures read { (front : List ℕ) (h : ResponseHead) → Says head h → IsHeads front h → start ≡ length front
        → IsTarget want closes target (plan_of h)
        → BodyRead want (front ++ body.items) (L.left link.old) (L.left link.new)
        (L.left_at_read link.old) (L.left_at_read link.new) result }
    ensures cause { HasCause (result ≡ Ok Answer.NoReply) (L.faults link.old) (L.faults link.new) }
    ensures undisturbed { Undisturbed (L.written link.old) (L.written link.new)
        (L.connections link.old) (L.connections link.new) (L.faults link.old) (L.faults link.new) }
{
    let mut body = body;
    match read_until(link, piece, &mut body, target)? {
        Fill::More if target > MAX_PAGE => Ok(Answer::TooLarge(start as u64 + target as u64)),
        Fill::More => {
            body.truncate(target);
            Ok(reply(head, body))
        }
        Fill::Ended if closes => Ok(reply(head, body)),
        Fill::Ended => Ok(Answer::Short(start as u64 + body.len() as u64)),
        Fill::Failed => Ok(Answer::NoReply),
    }
}

/// Reads a body in chunks.
fn read_chunks<L: Link>(
    alloc: Global,
    link: &mut L,
    piece: &mut [u8],
    want: Want,
    head: Head,
    start: usize,
    rest: Vec<u8>,
) -> Result<Answer, AllocError>
    requires room { (0 < length piece.old) × (length piece.old ≤ 16384) }
    requires early { start ≤ 16384 }
    requires few { length rest.items ≤ 16385 }
    ensures read { (front : List ℕ) (h : ResponseHead) → Says head h → IsHeads front h → start ≡ length front
        → plan_of h ≡ Plan.Chunked
        → BodyRead want (front ++ rest.items) (L.left link.old) (L.left link.new)
        (L.left_at_read link.old) (L.left_at_read link.new) result }
    ensures cause { HasCause (result ≡ Ok Answer.NoReply) (L.faults link.old) (L.faults link.new) }
    ensures undisturbed { Undisturbed (L.written link.old) (L.written link.new)
        (L.connections link.old) (L.connections link.new) (L.faults link.old) (L.faults link.new) }
{
    let mut chunks = Chunks::new(alloc);
    let mut ahead = rest;
    let mut done = start as u64;
    loop {
        let (taken, progress) = chunks.advance(&ahead, want)?;
        match progress {
            Progress::Whole(_) => return Ok(reply(head, chunks.body)),
            Progress::Bad(n) => return Ok(Answer::BadReply(done + (taken + n) as u64)),
            Progress::Full(n) if want == Want::Page => {
                return Ok(Answer::TooLarge(done + (taken + n) as u64));
            }
            Progress::Full(_) => return Ok(reply(head, chunks.body)),
            _ => {}
        }
        done += taken as u64;
        drop_front(&mut ahead, taken);
        match read_more(link, piece, &mut ahead)? {
            Fill::More => {}
            Fill::Ended => return Ok(Answer::Short(done + ahead.len() as u64)),
            Fill::Failed => return Ok(Answer::NoReply),
        }
    }
}

/// Drops bytes from the front.
fn drop_front(bytes: &mut Vec<u8>, count: usize)
    requires { count ≤ length bytes.old.items }
    ensures { bytes.new.items ≡ drop count bytes.old.items }
{
    let length = bytes.len();
    bytes.copy_within(count..length, 0);
    bytes.truncate(length - count);
}
