ghost use Rattle.std.specs.Prelude.{◌≡◌, ◌-◌, ◌<◌, ◌≤◌, length, IfSome, Some, None, if◌then◌else◌};
ghost use Rattle.irl_scan.specs.Bytes.{wants};
ghost use Rattle.irl_scan.specs.Links.{IsWithin, value_span};
ghost use Rattle.irl_scan.specs.Reading.{quote_at, name_of, behind_name, value_at, or_first, ReadsInside};

use crate::cursor::Cursor;
use crate::kind::Kind;
use crate::run::{attribute_name_end, bare_value_end, first_is, gap_end};
use crate::span::Span;
use memchr::memchr;

/// How a piece of a page ends.
#[derive(Clone, Copy)]
pub enum Ending {
    /// By its mark, as `>`.
    Marked,
    /// Because the page ends first.
    PageEnd,
}

/// What stands in a tag behind its name: where the first value stands that was asked for, and how the tag ends.
#[derive(Clone, Copy)]
pub struct Inside {
    pub first: Option<Span>,
    pub ending: Ending,
}

/// The quote with which the bytes begin.
fn quote_at(bytes: &[u8]) -> Option<u8>
    ensures { result ≡ quote_at bytes.now }
{
    match bytes {
        [quote @ (b'"' | b'\''), ..] => Some(*quote),
        _ => None,
    }
}

/// The first value that a tag wants, where it comes from the attributes before, or from one of that name.
fn or_wanted(first: Option<Span>, kind: Kind, name: &[u8], span: Span) -> Option<Span>
    ensures { result ≡ or_first first (if wants kind name.now then Some span else None) }
{
    if first.is_none() && kind.wants(name) {
        Some(span)
    } else {
        first
    }
}

impl<'a> Cursor<'a> {
    /// Reads an attribute's name, of at least one byte.
    fn read_name(&mut self) -> &'a [u8]
        requires { 0 < length self.old.rest.now }
        ensures front { result.now ≡ name_of self.old.rest.now }
        ensures back { self.new.rest.now ≡ behind_name self.old.rest.now }
        ensures size { self.new.size ≡ self.old.size }
        ensures shorter { length self.new.rest.now < length self.old.rest.now }
    {
        let behind = attribute_name_end(&self.rest[1..]);
        self.take_to(behind.map(|place| 1 + place))
    }

    /// Reads the value behind an attribute's name.
    fn read_value(&mut self) -> Span
        ensures span { result ≡ value_span (self.old.size - length self.old.rest.now) (value_at self.old.rest.now).0 }
        ensures rest { self.new.rest.now ≡ (value_at self.old.rest.now).1 }
        ensures size { self.new.size ≡ self.old.size }
        ensures shorter { length self.new.rest.now ≤ length self.old.rest.now }
        ensures within { IsWithin self.old.size result }
    {
        let place = self.place();
        let mut ahead = *self;
        ahead.skip_space();
        if !first_is(ahead.rest, b'=') {
            return Span {
                start: place,
                end: place,
            };
        }
        ahead.skip(1);
        ahead.skip_space();
        *self = ahead;
        match quote_at(self.rest) {
            Some(quote) => {
                self.skip(1);
                let start = self.place();
                self.take_to(memchr(quote, self.rest));
                let end = self.place();
                self.skip(1);
                Span { start, end }
            }
            None => {
                let start = self.place();
                self.take_to(bare_value_end(self.rest));
                let end = self.place();
                Span { start, end }
            }
        }
    }

    /// Reads a tag from behind its name to its end.
    pub fn read_inside(&mut self, kind: Kind) -> Inside
        ensures inside { ReadsInside kind (self.old.size - length self.old.rest.now) self.old.rest.now
            result.first result.ending self.new.rest.now }
        ensures size { self.new.size ≡ self.old.size }
        ensures shorter { length self.new.rest.now ≤ length self.old.rest.now }
        ensures within { IfSome result.first (IsWithin self.old.size) }
    {
        let mut first = None;
        loop {
            self.take_to(gap_end(self.rest));
            if self.rest.is_empty() {
                return Inside {
                    first,
                    ending: Ending::PageEnd,
                };
            }
            if first_is(self.rest, b'>') {
                self.skip(1);
                return Inside {
                    first,
                    ending: Ending::Marked,
                };
            }
            let name = self.read_name();
            let span = self.read_value();
            first = or_wanted(first, kind, name, span);
        }
    }
}
