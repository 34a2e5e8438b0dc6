ghost use Rattle.std.specs.Prelude.{◌≡◌, ◌+◌, ◌<◌, ◌^◌, ℕ, [], true, option_map, Ok, Err, Some, IfOk, OnOk, IsErrOf, MatchResult};
ghost use Rattle.std.specs.Option.{ForSome};
ghost use Rattle.irl_base.specs.Faults.{HasCause};
ghost use Rattle.irl_io.specs.Lines.{most_lines};
ghost use Rattle.irl_record.specs.Forms.{form, Page as PageLine, Lost as LostLine};
ghost use Rattle.irl_record.specs.Parts.{within};
ghost use Rattle.irl_record.specs.Reading.{tape_of, takes, takes_within, next, outside as outside_of, inside as inside_of, blank, whole};

use crate::lines::{Head, Line, Part, line_of, part_of};
use crate::page::Page;
use crate::record::Record;
use crate::tape::Tape;
use irl_io::{Lines, Source, Step};
use std::alloc::{AllocError, AllocFailed, Global};
use std::marker::Model;

/// Why no tape was read.
#[derive(Clone, Copy, Debug, PartialEq, Eq)]
pub enum TapeFault {
    /// The line of this number, from 1, is the first that is refused. A page without an end is refused at the line after the
    /// last.
    BadRecord(u64),
    /// The source failed.
    Failed,
    /// Memory ran out.
    Memory,
}

impl From<AllocError> for TapeFault {
    ghost use Rattle.std.specs.Prelude.{◌≡◌};
    ghost use Rattle.irl_record.specs.declared.reading.TapeFault.TheVariants.{Memory};

    ghost from_gives = { λ _ e. e ≡ Memory };

    fn from(_: AllocError) -> TapeFault {
        TapeFault::Memory
    }
}

impl Tape {
    /// Reads a tape up to the end of the source. With `pages` false no page may be recorded, and no lost URL.
    pub fn read<I: Source>(alloc: Global, source: &mut I, pages: bool) -> Result<Tape, TapeFault>
        // Where the source tells its bytes, they are this tape, and none is left.
        ensures value { IfOk result (λ tape. ForSome (I.left source.old) (λ bytes. tape_of pages bytes ≡ Ok tape)) }
        ensures end { OnOk result (ForSome (I.left source.old) (λ bytes. I.left source.new ≡ Some [])) }
        // Where the source tells its bytes, this line of them is the first that is refused.
        ensures refused { (n : ℕ) → IsErrOf result (TapeFault.BadRecord n) →
            ForSome (I.left source.old) (λ bytes. tape_of pages bytes ≡ Err n) }
        ensures cause { HasCause (IsErrOf result TapeFault.Failed) (I.faults source.old) (I.faults source.new) }
    {
        let mut lines = Lines::new(alloc)?;
        let mut reading = Reading::new(alloc);
        'lines: loop {
            let after = match lines.next(source) {
                Step::Line(line) => reading.take(alloc, line, pages)?,
                Step::End => return reading.finish(lines.number()),
                Step::LongLine(n) => return Err(TapeFault::BadRecord(n)),
                Step::Failed => return Err(TapeFault::Failed),
            };
            match after {
                Some(next) => reading = next,
                None => return Err(TapeFault::BadRecord(lines.number())),
            }
        }
    }
}

/// A tape that is being read. Contracts see it as a `Reading` of specs.
#[derive(Drop)]
struct Reading {
    tape: Tape,
    page: Option<Page>,
}

impl Model for Reading {
    ghost use Rattle.irl_record.specs.Reading.{Reading as Read};

    ghost Value = { Read };

    ghost view = { λ r. record { tape = r.tape; page = r.page } };
}

impl Reading {
    /// Before the first line. It takes no memory.
    fn new(alloc: Global) -> Reading
        ensures { result ≡ outside_of blank }
    {
        Reading {
            tape: Tape::new(alloc),
            page: None,
        }
    }

    /// The tape after one more line, if the line is taken.
    #[tactic(auto, unfolding(crate::specs::Reading::next))]
    fn take(self, alloc: Global, line: &[u8], pages: bool) -> Result<Option<Reading>, AllocError>
        ensures { IfOk result (λ after. after ≡ next pages self line.now) }
    {
        let Reading { tape, page } = self;
        match page {
            Some(page) => take_part(alloc, tape, page, part_of(line)),
            None => take_line(alloc, tape, line_of(line), pages),
        }
    }

    /// The tape after so many lines, unless a page has no end.
    fn finish(self, number: u64) -> Result<Tape, TapeFault>
        requires { number + 1 < 2 ^ 64 }
        ensures tape { IfOk result (λ tape. whole (number + 1) self ≡ Ok tape) }
        ensures refused { (n : ℕ) → IsErrOf result (TapeFault.BadRecord n) → whole (number + 1) self ≡ Err n }
        ensures cause { ¬ (IsErrOf result TapeFault.Failed) }
    {
        let Reading { tape, page } = self;
        match page {
            Some(_) => Err(TapeFault::BadRecord(number + 1)),
            None => Ok(tape),
        }
    }
}

/// The tape after one more line outside a page, if the line is taken.
fn take_line(
    alloc: Global,
    tape: Tape,
    line: Line<'_>,
    pages: bool,
) -> Result<Option<Reading>, AllocError>
    ensures { IfOk result (λ after. after ≡ takes pages tape (form line.entry)) }
{
    match line {
        Line::Skipped => Ok(Some(Reading { tape, page: None })),
        Line::Suffix(name) => Ok(outside(tape.with_suffix(alloc, name)?)),
        Line::Seed(url) => Ok(outside(tape.with_seed(alloc, url)?)),
        Line::Page(head) if pages => open(alloc, tape, head),
        Line::Lost(url) if pages => lose(alloc, tape, url),
        Line::Page(_) | Line::Lost(_) | Line::Other => Ok(None),
    }
}

/// Outside a page of this tape, if there is one.
fn outside(tape: Option<Tape>) -> Option<Reading>
    ensures { result ≡ option_map outside_of tape }
{
    let tape = tape?;
    Some(Reading { tape, page: None })
}

/// Inside a page of this tape, if there is one.
fn inside(tape: Tape, page: Option<Page>) -> Option<Reading>
    ensures { result ≡ option_map (inside_of tape) page }
{
    let page = Some(page?);
    Some(Reading { tape, page })
}

/// Inside a new page, if the tape has no record of its URL yet.
fn open(alloc: Global, tape: Tape, head: Head<'_>) -> Result<Option<Reading>, AllocError>
    ensures { IfOk result (λ after. after ≡ takes true tape
        (PageLine head.entry.status head.entry.html head.entry.url.now)) }
{
    let Some(web) = tape.new_web(alloc, head.url)? else {
        return Ok(None);
    };
    let page = Page::new(alloc, head.status, head.html, web);
    Ok(inside(tape, Some(page)))
}

/// The tape with a lost URL, if it has no record of it yet.
fn lose(alloc: Global, tape: Tape, url: &[u8]) -> Result<Option<Reading>, AllocError>
    ensures { IfOk result (λ after. after ≡ takes true tape (LostLine url.now)) }
{
    let Some(web) = tape.new_web(alloc, url)? else {
        return Ok(None);
    };
    let tape = tape.with_record(alloc, web, Record::Lost)?;
    Ok(outside(Some(tape)))
}

/// The tape after one more line inside a page, if the line is taken.
fn take_part(
    alloc: Global,
    tape: Tape,
    page: Page,
    part: Part<'_>,
) -> Result<Option<Reading>, AllocError>
    ensures { IfOk result (λ after. after ≡ takes_within tape page (within part.entry)) }
{
    match part {
        Part::Location(text) => Ok(inside(tape, page.with_location(alloc, text)?)),
        Part::Whole(bytes) => Ok(inside(tape, page.with_line(bytes)?)),
        Part::Piece(bytes) => Ok(inside(tape, page.with_piece(bytes)?)),
        Part::End => {
            let (web, reply) = page.close();
            let tape = tape.with_record(alloc, web, Record::Page(reply))?;
            Ok(outside(Some(tape)))
        }
        Part::Other => Ok(None),
    }
}
