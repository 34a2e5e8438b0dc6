ghost use Rattle.std.specs.Prelude.{◌≡◌, ◌+◌, ◌-◌, ◌<◌, ◌≤◌, [], min, length, take, drop, slice_range};
ghost use Rattle.std.specs.Prelude.{IfOk, IfSome, IfNone, IsErr};
ghost use Rattle.std.specs.Borrow.{sem};
ghost use Rattle.std.specs.Io.BufRead.{Rests};
ghost use Rattle.std.specs.Io.KnownBytes.{Keeps, ReadConsumes, IsAtEnd, prepend_known};
ghost use Rattle.std.specs.List.{position_or_len};
ghost use Rattle.irl_base.specs.Faults.{HasCause};
ghost use Rattle.irl_base.specs.Limits.{max_text};
ghost use Rattle.irl_io.specs.Lines.{is_line_feed};
ghost use Rattle.irl_io.specs.Steps.{Stepped, KeepsLimits};
ghost use Rattle.irl_io.specs.Lookahead.{Stands};
ghost use Rattle.irl_io.specs.contracts.lines.Lines.{the_row};

use crate::source::{self, Source};
use irl_base::MAX_TEXT;
use memchr::memchr;
use std::alloc::{AllocError, Global};
use std::marker::Model;

/// The most lines of an input.
const MOST_LINES: u64 = 4_294_967_295;

/// Room for the bytes that are read ahead.
const ROOM: usize = 131_072;

/// Reads the lines of a source, in large pieces. A line ends at LF, which is no part of it; bytes behind the last LF
/// are a line if there are any.
#[derive(Drop)]
pub struct Lines {
    buffer: Vec<u8>,
    start: usize,
    end: usize,
    number: u64,
}

impl Model for Lines {
    ghost use Rattle.std.specs.Prelude.{slice_range};
    ghost use Rattle.irl_io.specs.Steps.{Progress};

    ghost Value = { Progress };

    ghost use Rattle.irl_io.specs.Buffer.{IsBuffer};

    ghost view = { λ a. record { ahead = slice_range a.buffer.items a.start a.end; number = a.number } };

    ghost invariant = { IsBuffer };
}

/// What the next step of an input is.
#[derive(Clone, Copy, Debug, PartialEq, Eq)]
pub enum Step<'a> {
    /// The next line.
    Line(&'a [u8]),

    /// No byte is left.
    End,

    /// The line of this number, from 1, has more than 2,048 bytes, or its number is 4,294,967,296. It stays next.
    LongLine(u64),

    /// The source failed. What was read stays.
    Failed,
}

/// What the bytes left begin with.
#[derive(Clone, Copy)]
enum Lookahead {
    /// A line of `length` bytes: the first `whole` bytes, without the line feed that ends it, if one does.
    Line { length: usize, whole: usize },

    /// More bytes than a line may have.
    Long,

    /// Nothing.
    End,

    /// The source failed.
    Failed,
}

impl Lines {
    /// A reader that has read nothing. No later call takes memory.
    pub fn new(alloc: Global) -> Result<Lines, AllocError>
        ensures { IfOk result (λ lines. lines ≡ record { ahead = []; number = 0 }) }
    {
        Ok(Lines {
            buffer: vec![in alloc; 0; ROOM]?,
            start: 0,
            end: 0,
            number: 0,
        })
    }

    /// The number of lines given.
    pub fn number(&self) -> u64
        ensures { result ≡ self.now.number }
    {
        self.number
    }

    /// The next line of the source. All calls are to be handed the same one.
    pub fn next<'a, I: Source>(&'a mut self, source: &mut I) -> Step<'a>
        ensures limits { KeepsLimits result self.old.number }
        ensures cause { HasCause (result ≡ Step.Failed) (I.faults source.old) (I.faults source.new) }
        ensures* after { sem 𝓛 (Rests the_row self.entry (λ new.
            Stepped result self.old new (I.left source.old) (I.left source.new))) }
    {
        match self.look_ahead(source) {
            Lookahead::Line { length, whole } if self.number < MOST_LINES => {
                let start = self.start;
                self.start += whole;
                self.number += 1;
                Step::Line(&self.buffer[start..start + length])
            }
            Lookahead::Line { .. } => Step::LongLine(self.number + 1),
            Lookahead::Long => Step::LongLine(self.number + 1),
            Lookahead::End => Step::End,
            Lookahead::Failed => Step::Failed,
        }
    }

    /// Reads until the bytes that were read ahead begin with a line, or are more than a line may have, or all are read.
    fn look_ahead<I: Source>(&mut self, source: &mut I) -> Lookahead
        ensures stands { Stands result self.new.ahead (I.left source.new) }
        ensures kept { Keeps (prepend_known self.old.ahead (I.left source.old))
            (prepend_known self.new.ahead (I.left source.new)) }
        ensures number { self.new.number ≡ self.old.number }
        ensures cause { HasCause (result ≡ Lookahead.Failed) (I.faults source.old) (I.faults source.new) }
    {
        loop {
            let ahead = self.ahead();
            let held = ahead.len();
            if let Some(length) = find_line_feed(ahead) {
                return Lookahead::Line {
                    length,
                    whole: length + 1,
                };
            }
            if held > MAX_TEXT {
                return Lookahead::Long;
            }
            match self.fill(source) {
                Ok(0) if held == 0 => return Lookahead::End,
                Ok(0) => return Lookahead::Line {
                    length: held,
                    whole: held,
                },
                Ok(_) => {}
                Err(source::Failed) => return Lookahead::Failed,
            }
        }
    }

    /// The bytes that were read ahead.
    fn ahead(&self) -> &[u8]
        ensures { result.now ≡ self.now.ahead }
    {
        &self.buffer[self.start..self.end]
    }

    /// Reads more bytes ahead, and says how many: 0 only at the end.
    fn fill<I: Source>(&mut self, source: &mut I) -> Result<usize, source::Failed>
        requires { length self.old.ahead ≤ max_text }
        ensures kept { Keeps (prepend_known self.old.ahead (I.left source.old))
            (prepend_known self.new.ahead (I.left source.new)) }
        ensures count { IfOk result (λ n. length self.new.ahead ≡ length self.old.ahead + n) }
        ensures end { IfOk result (λ n. n ≡ 0 → (self.new.ahead ≡ self.old.ahead) × IsAtEnd (I.left source.new)) }
        ensures number { self.new.number ≡ self.old.number }
        ensures cause { HasCause (IsErr result) (I.faults source.old) (I.faults source.new) }
    {
        let (start, end) = (self.start, self.end);
        let result = read_behind(&mut self.buffer, start, end, source);
        self.start = 0;
        self.end = end - start;
        let count = result?;
        self.end += count;
        Ok(count)
    }
}

/// The first line feed among as many bytes as a line may have, and one more.
fn find_line_feed(bytes: &[u8]) -> Option<usize>
    ensures found { IfSome result (λ n.
        (n ≡ position_or_len is_line_feed bytes.now) × (n < length bytes.now) × (n ≤ max_text)) }
    ensures none { IfNone result (min (length bytes.now) (max_text + 1) ≤ position_or_len is_line_feed bytes.now) }
{
    memchr(b'\n', &bytes[..bytes.len().min(MAX_TEXT + 1)])
}

/// Moves the bytes between two places to the start of the buffer, and reads into all the room behind them.
fn read_behind<I: Source>(
    buffer: &mut [u8],
    start: usize,
    end: usize,
    source: &mut I,
) -> Result<usize, source::Failed>
    requires ordered { start ≤ end }
    requires within { end ≤ length buffer.old }
    ensures moved { take (end - start) buffer.new ≡ slice_range buffer.old start end }
    ensures bound { IfOk result (λ n. end - start + n ≤ length buffer.old) }
    ensures bytes { ReadConsumes (I.left source.old) (I.left source.new) result (drop (end - start) buffer.new) }
    ensures cause { HasCause (IsErr result) (I.faults source.old) (I.faults source.new) }
{
    buffer.copy_within(start..end, 0);
    source.read(&mut buffer[end - start..])
}
