ghost use Rattle.std.specs.Prelude.{◌≡◌, ◌++◌, IfOk, OnOk};
ghost use Rattle.std.specs.Fmt.{decimal};
ghost use Rattle.irl_report.specs.Report.{fate_word, outcome_word, list_line_of};

use irl_fate::Fate;
use irl_offer::{Outcome, Text};
use itoa::Buffer;
use std::alloc::{AllocError, Global};

// Puts a word and a number behind the others.
fn push_numbered(bytes: &mut Vec<u8>, word: &[u8], number: u32) -> Result<(), AllocError>
    ensures { OnOk result (bytes.new.items ≡ bytes.old.items ++ (word.now ++ decimal number)) }
{
    let mut buffer = Buffer::new();
    bytes.extend_from_slice(word)?;
    bytes.extend_from_slice(buffer.format(number).as_bytes())?;
    Ok(())
}

// Puts the word of an outcome behind the others.
fn push_outcome(bytes: &mut Vec<u8>, outcome: Outcome) -> Result<(), AllocError>
    ensures { OnOk result (bytes.new.items ≡ bytes.old.items ++ outcome_word outcome) }
{
    match outcome {
        Outcome::Page => bytes.extend_from_slice(b"page"),
        Outcome::Moved => bytes.extend_from_slice(b"moved"),
        Outcome::Status(status) => push_numbered(bytes, b"status:", u32::from(status)),
        Outcome::Denied(line) => push_numbered(bytes, b"denied:", line),
        Outcome::Shut => bytes.extend_from_slice(b"shut"),
        Outcome::Lost => bytes.extend_from_slice(b"lost"),
        Outcome::Bad => bytes.extend_from_slice(b"bad"),
        Outcome::Large => bytes.extend_from_slice(b"large"),
        Outcome::Coded => bytes.extend_from_slice(b"coded"),
    }
}

// Puts the word of a fate behind the others.
fn push_fate(bytes: &mut Vec<u8>, fate: Fate) -> Result<(), AllocError>
    ensures { OnOk result (bytes.new.items ≡ bytes.old.items ++ fate_word fate) }
{
    match fate {
        Fate::Fresh => bytes.extend_from_slice(b"fresh"),
        Fate::Queue(queue) => push_numbered(bytes, b"queue:", queue),
        Fate::Last => bytes.extend_from_slice(b"last"),
        Fate::Front => bytes.extend_from_slice(b"front"),
        Fate::Done(outcome) => push_outcome(bytes, outcome),
    }
}

/// The line of a URL in a listing: `NUMBER FATE TEXT`, and a line feed.
pub fn list_line(alloc: Global, number: u64, fate: &Fate, text: &[u8]) -> Result<Text, AllocError>
    ensures { IfOk result (λ line. line ≡ list_line_of number fate.now text.now) }
{
    let mut buffer = Buffer::new();
    let mut bytes = Vec::from_slice(alloc, buffer.format(number).as_bytes())?;
    bytes.extend_from_slice(b" ")?;
    push_fate(&mut bytes, *fate)?;
    bytes.extend_from_slice(b" ")?;
    bytes.extend_from_slice(text)?;
    bytes.extend_from_slice(b"\n")?;
    Ok(Text::from_vec(bytes))
}
