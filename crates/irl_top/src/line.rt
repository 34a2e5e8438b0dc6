ghost use Rattle.std.specs.Prelude.{◌≡◌, ◌≤◌, length, IfOk};
ghost use Rattle.irl_base.specs.Limits.{max_text};
ghost use Rattle.irl_top.specs.Input.{text_tuple, line_offers};
ghost use Rattle.irl_top.specs.Reading.{offers_read};

use irl_key::key_of;
use irl_offer::{Offer, Op, Text};
use irl_tuple::read_tuple;
use std::alloc::{AllocError, Global};

/// What the lines of an input are, and so what is printed of them once they are judged.
#[derive(Clone, Copy, Debug, PartialEq, Eq)]
pub enum LineKind {
    /// Texts that are told apart by their bytes: each that isn't empty is offered, and printed where it is new.
    Text,
    /// Tuples that are written out: each is an offer, and its verdict is printed.
    Tuple,
}

/// What a line is read as.
#[derive(Drop)]
pub enum Reading {
    /// A line that offers nothing.
    Skipped,
    /// This offer.
    Offered(Offer),
    /// No line of its kind.
    Refused,
}

/// Reads a line of a kind. A line that is passed over or refused takes no memory.
pub fn read_line(alloc: Global, kind: LineKind, line: &[u8]) -> Result<Reading, AllocError>
    requires { length line.now ≤ max_text }
    ensures { IfOk result (λ reading. offers_read reading ≡ line_offers kind line.now) }
{
    match kind {
        LineKind::Text if line.is_empty() => Ok(Reading::Skipped),
        LineKind::Text => Ok(Reading::Offered(text_offer(alloc, line)?)),
        LineKind::Tuple => match read_tuple(alloc, line)? {
            Some(offer) => Ok(Reading::Offered(offer)),
            None => Ok(Reading::Refused),
        },
    }
}

// The offer of a text: its bytes, under their key.
fn text_offer(alloc: Global, line: &[u8]) -> Result<Offer, AllocError>
    requires { length line.now ≤ max_text }
    ensures { IfOk result (λ offer. offer ≡ text_tuple line.now) }
{
    Ok(Offer {
        op: Op::Both,
        key: key_of(line),
        value: 0,
        from: 0,
        aux: Text::from_bytes(alloc, line)?,
    })
}
