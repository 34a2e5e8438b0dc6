ghost use Rattle.std.specs.Prelude.{◌≡◌, ◌+◌, ◌-◌, ◌<◌, ◌≤◌, ◌∷◌, List, ℕ, [], length, take, min, IfOk, IfSome, IfNone, MatchBool};
ghost use Rattle.httparse.specs.Grammar.{NeverHasChunkLine};
ghost use Rattle.irl_http.specs.Bodies.{IsDue, Moves, MovesOn, StepAs, AdvanceAs, ParsesLine, due_after, most_of};

use httparse::{Status, parse_chunk_size};
use irl_offer::{MAX_PAGE, MAX_ROBOTS, Want};
use std::alloc::{AllocError, Global};

/// The most bytes of a chunk line, with its line end.
const MAX_CHUNK_LINE: usize = 256;

/// What is due next in a body in chunks.
#[derive(Clone, Copy)]
pub(crate) enum Due {
    /// A chunk line.
    Line,
    /// This many bytes of a chunk.
    Part(u64),
    /// The first byte of the line end behind a chunk.
    CarriageReturn,
    /// The second one.
    LineFeed,
}

/// What bytes of a body in chunks come to.
#[derive(Clone, Copy)]
pub(crate) enum Progress {
    /// This many were taken, and others are to be looked at.
    Taken(usize),
    /// They are too few for the next step.
    Open,
    /// With this many the body is whole.
    Whole(usize),
    /// With this many the body has as many bytes as are looked at.
    Full(usize),
    /// This many don't begin what is due.
    Bad(usize),
}

/// A body in chunks, as far as it was read.
#[derive(Drop)]
pub(crate) struct Chunks {
    pub due: Due,
    pub body: Vec<u8>,
}

/// What bytes are that may begin with a chunk line.
#[derive(Clone, Copy)]
pub(crate) enum Parsed {
    /// A line of as many bytes, and the size that it says.
    Whole(usize, u64),
    /// None yet.
    Open,
    /// This many are none, whatever follows.
    Bad(usize),
}

/// As many bytes of a body as are looked at: one more than a page has at most, or as many as are kept of a robots file.
pub(crate) fn most(want: Want) -> usize
    ensures { result ≡ most_of want }
{
    match want {
        Want::Page => MAX_PAGE + 1,
        Want::Robots => MAX_ROBOTS,
    }
}

/// The lesser of two lengths.
pub(crate) fn lesser(length: u64, most: usize) -> usize
    ensures { result ≡ min length most }
{
    if length < most as u64 {
        length as usize
    } else {
        most
    }
}

/// What is due where so many bytes of a chunk were left and so many came.
fn after_part(left: u64, count: usize) -> Due
    requires { count ≤ left }
    ensures { result ≡ due_after left count }
{
    if left == count as u64 {
        Due::CarriageReturn
    } else {
        Due::Part(left - count as u64)
    }
}

impl Chunks {
    /// Before the first chunk.
    pub(crate) fn new(alloc: Global) -> Chunks
        ensures due { IsDue result.due result.body.items [] }
        ensures none { result.body.items ≡ [] }
    {
        Chunks {
            due: Due::Line,
            body: Vec::new(alloc),
        }
    }

    /// Takes bytes until more are needed or the body ends. It says how many were taken, and what the others come to.
    pub(crate) fn advance(
        &mut self,
        bytes: &[u8],
        want: Want,
    ) -> Result<(usize, Progress), AllocError>
        requires { length self.old.body.items < most_of want }
        ensures moves { IfOk result (λ r. MovesOn want (length bytes.now) r.0 (length self.new.body.items) r.1) }
        ensures step { (done : List ℕ) → IsDue self.old.due self.old.body.items done → IfOk result
            (λ r. AdvanceAs want done bytes.now self.new.due self.new.body.items r.0 r.1) }
    {
        let mut at = 0;
        loop {
            match self.step(&bytes[at..], want)? {
                Progress::Taken(n) => at += n,
                other => return Ok((at, other)),
            }
        }
    }

    /// Takes what is due of the bytes.
    fn step(&mut self, bytes: &[u8], want: Want) -> Result<Progress, AllocError>
        requires { length self.old.body.items < most_of want }
        ensures moves { IfOk result (Moves want (length bytes.now) (length self.new.body.items)) }
        ensures step { (done : List ℕ) → IsDue self.old.due self.old.body.items done → IfOk result
            (StepAs want done bytes.now self.new.due self.new.body.items) }
    {
        match self.due {
            Due::Line => Ok(self.take_line(bytes, want)),
            Due::Part(left) => self.take_part(bytes, left, want),
            Due::CarriageReturn => Ok(self.take_carriage_return(bytes, want)),
            Due::LineFeed => Ok(self.take_line_feed(bytes, want)),
        }
    }

    /// Takes a chunk line.
    fn take_line(&mut self, bytes: &[u8], want: Want) -> Progress
        requires due { self.old.due ≡ Due.Line }
        requires room { length self.old.body.items < most_of want }
        ensures moves { Moves want (length bytes.now) (length self.new.body.items) result }
        ensures step { (done : List ℕ) → IsDue self.old.due self.old.body.items done
            → StepAs want done bytes.now self.new.due self.new.body.items result }
    {
        match parse_line(bytes) {
            Parsed::Whole(length, size) => {
                if size == 0 {
                    return Progress::Whole(length);
                }
                self.due = Due::Part(size);
                Progress::Taken(length)
            }
            Parsed::Open => Progress::Open,
            Parsed::Bad(n) => Progress::Bad(n),
        }
    }

    /// Takes bytes of a chunk of which so many are left.
    fn take_part(&mut self, bytes: &[u8], left: u64, want: Want) -> Result<Progress, AllocError>
        requires due { self.old.due ≡ Due.Part left }
        requires room { length self.old.body.items < most_of want }
        ensures moves { IfOk result (Moves want (length bytes.now) (length self.new.body.items)) }
        ensures step { (done : List ℕ) → IsDue self.old.due self.old.body.items done → IfOk result
            (StepAs want done bytes.now self.new.due self.new.body.items) }
    {
        let room = bytes.len().min(most(want) - self.body.len());
        let count = lesser(left, room);
        if count == 0 {
            return Ok(Progress::Open);
        }
        self.body.extend_from_slice(&bytes[..count])?;
        self.due = after_part(left, count);
        if self.body.len() == most(want) {
            return Ok(Progress::Full(count));
        }
        Ok(Progress::Taken(count))
    }

    /// Takes the first byte of the line end behind a chunk.
    fn take_carriage_return(&mut self, bytes: &[u8], want: Want) -> Progress
        requires due { self.old.due ≡ Due.CarriageReturn }
        requires room { length self.old.body.items < most_of want }
        ensures moves { Moves want (length bytes.now) (length self.new.body.items) result }
        ensures step { (done : List ℕ) → IsDue self.old.due self.old.body.items done
            → StepAs want done bytes.now self.new.due self.new.body.items result }
    {
        match first_byte(bytes) {
            None => Progress::Open,
            Some(b'\r') => {
                self.due = Due::LineFeed;
                Progress::Taken(1)
            }
            Some(_) => Progress::Bad(1),
        }
    }

    /// Takes the second byte of the line end behind a chunk.
    fn take_line_feed(&mut self, bytes: &[u8], want: Want) -> Progress
        requires due { self.old.due ≡ Due.LineFeed }
        requires room { length self.old.body.items < most_of want }
        ensures moves { Moves want (length bytes.now) (length self.new.body.items) result }
        ensures step { (done : List ℕ) → IsDue self.old.due self.old.body.items done
            → StepAs want done bytes.now self.new.due self.new.body.items result }
    {
        match first_byte(bytes) {
            None => Progress::Open,
            Some(b'\n') => {
                self.due = Due::Line;
                Progress::Taken(1)
            }
            Some(_) => Progress::Bad(1),
        }
    }
}

/// The first byte, where there is one.
#[tactic(auto, using(crate::proofs::ChunkSteps::take_one))]
fn first_byte(bytes: &[u8]) -> Option<u8>
    ensures none { IfNone result (length bytes.now ≡ 0) }
    ensures some { IfSome result (λ b. (take 1 bytes.now ≡ b ∷ []) × (1 ≤ length bytes.now)) }
{
    if bytes.is_empty() {
        None
    } else {
        Some(bytes[0])
    }
}

/// Reads a chunk line.
fn parse_line(bytes: &[u8]) -> Parsed
    ensures { ParsesLine bytes.now result }
{
    let front = &bytes[..bytes.len().min(MAX_CHUNK_LINE)];
    match parse_chunk_size(front) {
        Ok(Status::Complete((length, size))) => Parsed::Whole(length, size),
        Ok(Status::Partial) if front.len() == MAX_CHUNK_LINE => { Parsed::Bad(MAX_CHUNK_LINE) }
        Ok(Status::Partial) => Parsed::Open,
        Err(_) => Parsed::Bad(fewest_bad(front)),
    }
}

/// Whether no bytes can follow that make the bytes a chunk line.
fn is_bad(front: &[u8]) -> bool
    ensures { MatchBool result (NeverHasChunkLine front.now) (NeverHasChunkLine front.now → ⊥) }
{
    parse_chunk_size(front).is_err()
}

/// How many of the first bytes are no chunk line whatever follows, where all are: the fewest.
fn fewest_bad(front: &[u8]) -> usize
    requires { NeverHasChunkLine front.now }
    ensures some { 0 < result }
    ensures within { result ≤ length front.now }
    ensures bad { NeverHasChunkLine (take result front.now) }
    ensures fewest { NeverHasChunkLine (take (result - 1) front.now) → ⊥ }
{
    let mut good = 0;
    let mut bad = front.len();
    while bad - good > 1 {
        let middle = good + (bad - good) / 2;
        if is_bad(&front[..middle]) {
            bad = middle;
        } else {
            good = middle;
        }
    }
    bad
}
