ghost use Rattle.std.specs.Prelude.{◌≡◌, ◌<◌, ◌≤◌, ◌==◌, ◌||◌, ◌∷◌, [], List, ℕ, take, length, MatchOption};
ghost use Rattle.std.specs.List.{position};
ghost use Rattle.std.specs.Iterator.{YieldsFirstRef, item_count};
ghost use Rattle.irl_robots.specs.Lines.{text_of as counted, without_mark, lines, is_line_end, after_end, field as field_of, line_of, without_comment as uncommented, said as said_by};
ghost use Rattle.irl_robots.specs.Groups.{obeyed as obeyed_by};
ghost use Rattle.irl_robots.specs.Seen.{seen};
ghost use Rattle.irl_base.specs.Limits.{max_robots};

use irl_base::{MAX_ROBOTS, trim};

/// The byte order mark of UTF-8.
const MARK: &[u8] = b"\xef\xbb\xbf";

/// What a line of a robots file says.
#[derive(Clone, Copy)]
pub enum Line<'a> {
    /// A user-agent line with its value.
    Agent(&'a [u8]),
    /// An allow (true) or disallow line with its value.
    Access(bool, &'a [u8]),
    /// Nothing that counts here.
    Other,
}

/// What is kept of the body of a robots file: its first 512,000 bytes, a byte order mark among them. It is obeyed as
/// the whole body is.
pub fn kept(body: &[u8]) -> &[u8]
    ensures value { result.now ≡ take max_robots body.now }
    ensures length { length result.now ≤ max_robots }
    ensures obeyed { (agent : List ℕ) → obeyed_by result.now agent ≡ obeyed_by body.now agent }
{
    front(body, MAX_ROBOTS)
}

/// At most this many of the first bytes.
pub fn front(bytes: &[u8], most: usize) -> &[u8]
    ensures value { result.now ≡ take most bytes.now }
    ensures length { length result.now ≤ most }
{
    &bytes[..bytes.len().min(most)]
}

/// The part of a file that counts: what is kept of it, without a byte order mark.
#[tactic(auto, unfolding(crate::specs::Lines::text_of))]
pub fn text_of(bytes: &[u8]) -> &[u8]
    ensures value { result.now ≡ counted bytes.now }
    ensures length { length result.now ≤ max_robots }
{
    skip_mark(kept(bytes))
}

/// The bytes behind a byte order mark.
fn skip_mark(bytes: &[u8]) -> &[u8]
    ensures value { result.now ≡ without_mark bytes.now }
    ensures length { length result.now ≤ length bytes.now }
{
    if bytes.starts_with(MARK) {
        &bytes[MARK.len()..]
    } else {
        bytes
    }
}

/// The lines that are left of a text.
#[derive(Clone, Copy)]
pub struct Lines<'a>(pub &'a [u8]);

impl<'a> Iterator for Lines<'a> {
    type Item = &'a [u8];

    ghost next_gives = { YieldsFirstRef (λ s. lines s.0.now) };

    ghost remaining = { item_count (λ s. lines s.0.now) };

    fn next(&mut self) -> Option<&'a [u8]> {
        let (line, rest) = split_line(self.0)?;
        self.0 = rest;
        Some(line)
    }
}

/// The first line of a text, and what follows its end. `None` comes at the text's end.
fn split_line(text: &[u8]) -> Option<(&[u8], &[u8])>
    ensures { MatchOption result (text.now ≡ []) (λ split. lines text.now ≡ split.0.now ∷ lines split.1.now) }
{
    if text.is_empty() {
        return None;
    }
    match line_end(text) {
        Some(at) => Some((&text[..at], behind_end(&text[at..]))),
        None => Some((text, &[])),
    }
}

/// The place of the first line end.
fn line_end(text: &[u8]) -> Option<usize>
    ensures { result ≡ position is_line_end text.now }
{
    text.iter().position(|c| *c == b'\n' || *c == b'\r')
}

/// What follows the line end that a text begins with.
fn behind_end(text: &[u8]) -> &[u8]
    ensures { result.now ≡ after_end text.now }
{
    match text {
        [b'\r', b'\n', rest @ ..] => rest,
        [_, rest @ ..] => rest,
        [] => text,
    }
}

/// What a line says.
#[tactic(auto, unfolding(crate::specs::Lines::line_of))]
pub fn parse(line: &[u8]) -> Line<'_>
    ensures { seen result ≡ line_of line.now }
{
    said(without_comment(line))
}

/// A line up to its comment.
fn without_comment(line: &[u8]) -> &[u8]
    ensures { result.now ≡ uncommented line.now }
{
    match place_of(b'#', line) {
        Some(at) => &line[..at],
        None => line,
    }
}

/// What a line without its comment says.
fn said(content: &[u8]) -> Line<'_>
    ensures { seen result ≡ said_by content.now }
{
    match place_of(b':', content) {
        Some(at) => field(trim(&content[..at]), trim(&content[at + 1..])),
        None => Line::Other,
    }
}

/// The place of the first of these bytes.
fn place_of(byte: u8, bytes: &[u8]) -> Option<usize>
    ensures { result ≡ position (λ c. c == byte) bytes.now }
{
    bytes.iter().position(|c| *c == byte)
}

/// What a field says.
fn field<'a>(name: &[u8], value: &'a [u8]) -> Line<'a>
    ensures { seen result ≡ field_of name.now value.now }
{
    if name.eq_ignore_ascii_case(b"user-agent") {
        Line::Agent(value)
    } else if name.eq_ignore_ascii_case(b"allow") {
        Line::Access(true, value)
    } else if name.eq_ignore_ascii_case(b"disallow") {
        Line::Access(false, value)
    } else {
        Line::Other
    }
}
