ghost use Rattle.std.specs.Prelude.{◌≡◌, ◌-◌, ◌<◌, length};
ghost use Rattle.irl_scan.specs.Links.{found_in};
ghost use Rattle.irl_scan.specs.Page.{opening};
ghost use Rattle.irl_scan.specs.Reading.{Takes, found_within};

use crate::attribute::Ending;
use crate::cursor::Cursor;
use crate::kind::Kind;
use crate::run::{raw_end, tag_name_end};
use crate::span::Span;
use memchr::{memchr, memmem};

/// What begins at a place of a page.
#[derive(Clone, Copy)]
pub enum Opening {
    /// Text.
    Text,
    /// A comment.
    Comment,
    /// Markup that is skipped up to `>`.
    Skipped,
    /// A tag.
    Tag,
}

/// What a piece of a page gives.
#[derive(Clone, Copy)]
pub enum Found {
    /// Nothing.
    Nothing,
    /// A link.
    Link(Span),
    /// The URL of a `base`.
    Base(Span),
}

/// What begins here.
fn opening_of(rest: &[u8]) -> Opening
    ensures { result ≡ opening rest.now }
{
    match rest {
        [b'<', b'!', b'-', b'-', ..] => Opening::Comment,
        [b'<', b'!' | b'?', ..] => Opening::Skipped,
        [b'<', b'/', letter, ..] if letter.is_ascii_alphabetic() => Opening::Skipped,
        [b'<', letter, ..] if letter.is_ascii_alphabetic() => Opening::Tag,
        _ => Opening::Text,
    }
}

/// What a tag of that kind gives, of which this is the first value that was asked for.
fn found_in(ending: Ending, kind: Kind, first: Option<Span>) -> Found
    ensures { result ≡ found_in ending kind first }
{
    match (ending, kind, first) {
        (Ending::Marked, Kind::Anchor | Kind::Frame, Some(span)) => Found::Link(span),
        (Ending::Marked, Kind::Base, Some(span)) => Found::Base(span),
        _ => Found::Nothing,
    }
}

impl Cursor<'_> {
    /// Reads a tag, and the text behind a `script` or a `style`.
    fn read_tag(&mut self) -> Found
        requires { opening self.old.rest.now ≡ Opening.Tag }
        ensures takes { Takes (self.old.size - length self.old.rest.now) self.old.rest.now result self.new.rest.now }
        ensures size { self.new.size ≡ self.old.size }
        ensures shorter { length self.new.rest.now < length self.old.rest.now }
        ensures within { found_within self.old.size result }
    {
        self.skip(1);
        let name = self.take_to(tag_name_end(self.rest));
        let kind = Kind::of(name);
        let inside = self.read_inside(kind);
        self.take_to(raw_end(kind, self.rest));
        found_in(inside.ending, kind, inside.first)
    }

    /// Reads the piece that begins here.
    pub fn read_piece(&mut self) -> Found
        requires { 0 < length self.old.rest.now }
        ensures takes { Takes (self.old.size - length self.old.rest.now) self.old.rest.now result self.new.rest.now }
        ensures size { self.new.size ≡ self.old.size }
        ensures shorter { length self.new.rest.now < length self.old.rest.now }
        ensures within { found_within self.old.size result }
    {
        match opening_of(self.rest) {
            Opening::Text => {
                self.skip(1);
                Found::Nothing
            }
            Opening::Comment => {
                self.skip(4);
                self.take_to(memmem::find(self.rest, b"-->"));
                self.skip(3);
                Found::Nothing
            }
            Opening::Skipped => {
                self.skip(2);
                self.take_to(memchr(b'>', self.rest));
                self.skip(1);
                Found::Nothing
            }
            Opening::Tag => self.read_tag(),
        }
    }
}
