ghost use Rattle.std.specs.Prelude.{◌≡◌, ◌+◌, ◌-◌, ◌<◌, ◌≤◌, [], length, take, drop, IfOk, MatchBool};
ghost use Rattle.httparse.specs.Grammar.{NeverHasResponse};
ghost use Rattle.irl_http.specs.Heads.{line_feeds, max_heads, max_fields, Awaits, HasNoHead, is_interim_status};
ghost use Rattle.irl_http.specs.Parsing.{ParsedAs, MayBecomeHead, NextAs, PastAs, EndsInterim, TellsHeads};

use crate::fields::{Head, head_of};
use httparse::spans::{EMPTY_HEADER_SPAN, HeaderSpan, ResponseSpans, parse_response};
use httparse::{Error, Status};
use std::alloc::{AllocError, Global};

/// The most bytes of all heads of a reply.
pub(crate) const MAX_HEADS: usize = 16_384;

/// The most fields of a head.
pub(crate) const MAX_FIELDS: usize = 64;

/// What the bytes of a head are.
#[derive(Clone, Copy)]
pub(crate) enum Parsed {
    /// A head, and what comes behind it.
    Whole(ResponseSpans),
    /// None yet.
    Open,
    /// None, whatever follows.
    Bad,
}

/// Parses a head. The bytes end before the last line feed that heads may have, or with it.
pub(crate) fn parse(front: &[u8], headers: &mut [HeaderSpan]) -> Parsed
    requires room { length headers.old ≡ max_fields }
    requires cut { line_feeds (take (length front.now - 1) front.now) < max_fields + 2 }
    ensures { ParsedAs front.now headers.new result }
{
    match parse_response(front, headers) {
        Ok(Status::Complete(spans)) => Parsed::Whole(spans),
        Ok(Status::Partial) => Parsed::Open,
        Err(Error::TooManyHeaders) => Parsed::Open,
        Err(_) => Parsed::Bad,
    }
}

/// Whether no bytes can follow that make the bytes a head.
pub(crate) fn is_bad(front: &[u8]) -> bool
    requires { line_feeds (take (length front.now - 1) front.now) < max_fields + 2 }
    ensures { MatchBool result (NeverHasResponse front.now) (MayBecomeHead front.now) }
{
    let mut headers = [EMPTY_HEADER_SPAN; MAX_FIELDS];
    matches!(parse(front, &mut headers), Parsed::Bad)
}

/// How many of the first bytes are bad, where all are: the fewest.
pub(crate) fn fewest_bad(front: &[u8]) -> usize
    requires bad { NeverHasResponse front.now }
    requires cut { line_feeds (take (length front.now - 1) front.now) < max_fields + 2 }
    ensures some { 0 < result }
    ensures within { result ≤ length front.now }
    ensures bad { NeverHasResponse (take result front.now) }
    ensures fewest { MayBecomeHead (take (result - 1) front.now) }
{
    let mut good = 0;
    let mut bad = front.len();
    while bad - good > 1 {
        let middle = good + (bad - good) / 2;
        if is_bad(&front[..middle]) {
            bad = middle;
        } else {
            good = middle;
        }
    }
    bad
}

/// The place behind the last line feed that a head may have, and whether there is one; else the end.
pub(crate) fn lines_end(front: &[u8]) -> (usize, bool)
    ensures within { result.0 ≤ length front.now }
    ensures before { line_feeds (take (result.0 - 1) front.now) < max_fields + 2 }
    ensures last { MatchBool result.1 (line_feeds (take result.0 front.now) ≡ max_fields + 2)
        ((result.0 ≡ length front.now) × (line_feeds front.now < max_fields + 2)) }
{
    let mut count = 0;
    let mut end = 0;
    for b in front {
        end += 1;
        if *b == b'\n' {
            count += 1;
            if count == MAX_FIELDS + 2 {
                return (end, true);
            }
        }
    }
    (front.len(), false)
}

/// What the bytes from a place on are.
#[derive(Clone, Copy)]
pub(crate) enum Next<'a> {
    /// The bytes that a head was parsed from, and its parts.
    Head(&'a [u8], ResponseSpans),
    /// No head yet.
    Open,
    /// This many first bytes of all end in a bad head.
    Bad(usize),
    /// This many first bytes of all pass a limit.
    TooLarge(usize),
}

/// Reads the head that begins at a place.
pub(crate) fn next_head<'a>(bytes: &'a [u8], at: usize, headers: &mut [HeaderSpan]) -> Next<'a>
    requires few { length bytes.now ≤ max_heads + 1 }
    requires early { at ≤ max_heads }
    requires within { at ≤ length bytes.now }
    requires awaits { Awaits (take at bytes.now) [] }
    requires room { length headers.old ≡ max_fields }
    ensures { NextAs bytes.now at headers.new result }
{
    let known = &bytes[at..bytes.len().min(MAX_HEADS)];
    let (end, last) = lines_end(known);
    let front = &known[..end];
    match parse(front, headers) {
        Parsed::Whole(spans) => Next::Head(front, spans),
        Parsed::Bad => Next::Bad(at + fewest_bad(front)),
        Parsed::Open if last => Next::TooLarge(at + end),
        Parsed::Open if bytes.len() <= MAX_HEADS => Next::Open,
        Parsed::Open => past_heads(bytes, at),
    }
}

/// What the bytes from a place on are with the first byte that passes the limit of heads, where none is complete
/// without it.
fn past_heads(bytes: &[u8], at: usize) -> Next<'_>
    requires more { max_heads < length bytes.now }
    requires early { at ≤ max_heads }
    requires awaits { Awaits (take at bytes.now) [] }
    requires none { HasNoHead (take (max_heads - at) (drop at bytes.now)) }
    requires may { MayBecomeHead (take (max_heads - at) (drop at bytes.now)) }
    requires lines { line_feeds (take (max_heads - at) (drop at bytes.now)) < max_fields + 2 }
    ensures { PastAs bytes.now at result }
{
    if is_bad(&bytes[at..=MAX_HEADS]) {
        Next::Bad(MAX_HEADS + 1)
    } else {
        Next::TooLarge(MAX_HEADS + 1)
    }
}

/// What the bytes of a reply's heads tell.
#[derive(Drop)]
pub(crate) enum Told {
    /// The head, which ends at a place.
    Head(Head, usize),
    /// Nothing yet. All whole heads of interim replies end at a place.
    Nothing(usize),
    /// This many first bytes end in a bad head.
    Bad(usize),
    /// This many first bytes pass a limit.
    TooLarge(usize),
}

/// Whether a reply of this status is followed by another.
fn is_interim(status: u16) -> bool
    ensures { result ≡ is_interim_status status }
{
    status >= 100 && status <= 199
}

/// Looks for the head of the reply behind those of interim replies, of which some end at a place.
pub(crate) fn look(alloc: Global, bytes: &[u8], from: usize) -> Result<Told, AllocError>
    requires few { length bytes.now ≤ max_heads + 1 }
    requires interim { EndsInterim bytes.now from }
    ensures { IfOk result (TellsHeads bytes.now) }
{
    let mut headers = [EMPTY_HEADER_SPAN; MAX_FIELDS];
    let mut at = from;
    loop {
        match next_head(bytes, at, &mut headers) {
            Next::Head(front, spans) => {
                let end = at + spans.len;
                if !is_interim(spans.code) {
                    let head = head_of(alloc, spans.code, front, &headers[..spans.headers])?;
                    return Ok(Told::Head(head, end));
                }
                at = end;
            }
            Next::Open => return Ok(Told::Nothing(at)),
            Next::Bad(end) => return Ok(Told::Bad(end)),
            Next::TooLarge(end) => return Ok(Told::TooLarge(end)),
        }
    }
}
