//! Where runs of bytes end. Where there is no such place, they end with the page.
ghost use Rattle.std.specs.Prelude.{◌≡◌, length, take, drop, not, position, unwrap_or};
ghost use Rattle.irl_scan.specs.Bytes.{at_byte, is_gap, ends_tag_name, ends_attribute_name, ends_bare_value};
ghost use Rattle.irl_scan.specs.Page.{closes, ends_raw, is_raw_end};
ghost use Rattle.irl_scan.specs.Reading.{first_is, IsRun};

use crate::kind::{Kind, is_name};

/// The first bytes, so many or as many as there are, and the others.
pub fn cut(bytes: &[u8], count: usize) -> (&[u8], &[u8])
    ensures front { result.0.now ≡ take count bytes.now }
    ensures back { result.1.now ≡ drop count bytes.now }
{
    bytes.split_at(count.min(bytes.len()))
}

/// Whether that byte comes first.
pub fn first_is(bytes: &[u8], byte: u8) -> bool
    ensures { result ≡ first_is byte bytes.now }
{
    match bytes.first() {
        Some(first) => *first == byte,
        None => false,
    }
}

fn is_gap(byte: u8) -> bool
    ensures { result ≡ is_gap byte }
{
    byte.is_ascii_whitespace() || byte == b'/'
}

fn ends_tag_name(byte: u8) -> bool
    ensures { result ≡ ends_tag_name byte }
{
    is_gap(byte) || byte == b'>'
}

/// Where the white space and `/` that comes first ends.
pub fn gap_end(bytes: &[u8]) -> Option<usize>
    ensures { result ≡ position (λ b. not (is_gap b)) bytes.now }
{
    bytes.iter().position(|byte| !is_gap(*byte))
}

/// Where a tag's name ends.
pub fn tag_name_end(bytes: &[u8]) -> Option<usize>
    ensures { result ≡ position ends_tag_name bytes.now }
{
    bytes.iter().position(|byte| ends_tag_name(*byte))
}

/// Where an attribute's name ends, whose first byte stands before these.
pub fn attribute_name_end(bytes: &[u8]) -> Option<usize>
    ensures { result ≡ position ends_attribute_name bytes.now }
{
    bytes
        .iter()
        .position(|byte| ends_tag_name(*byte) || *byte == b'=')
}

/// Where a value without quotes ends.
pub fn bare_value_end(bytes: &[u8]) -> Option<usize>
    ensures { result ≡ position ends_bare_value bytes.now }
{
    bytes
        .iter()
        .position(|byte| byte.is_ascii_whitespace() || *byte == b'>')
}

/// Whether `</`, the word without regard to case, and white space, `/` or `>` come first.
fn closes(bytes: &[u8], word: &[u8]) -> bool
    ensures { result ≡ closes word.now bytes.now }
{
    let (name, behind) = cut(cut(bytes, 2).1, word.len());
    bytes.starts_with(b"</") && is_name(word, name) && ends_name(behind)
}

/// Whether white space, `/` or `>` comes first.
fn ends_name(bytes: &[u8]) -> bool
    ensures { result ≡ not (at_byte (λ b. not (ends_tag_name b)) bytes.now) }
{
    match bytes.first() {
        Some(first) => ends_tag_name(*first),
        None => false,
    }
}

/// Where the text behind a tag of that kind ends which isn't read.
pub fn raw_end(kind: Kind, bytes: &[u8]) -> Option<usize>
    ensures { IsRun (ends_raw kind) bytes.now (unwrap_or result (length bytes.now)) }
{
    match kind {
        Kind::Script => closing(b"script", bytes),
        Kind::Style => closing(b"style", bytes),
        Kind::Anchor | Kind::Frame | Kind::Base | Kind::Other => Some(0),
    }
}

/// Where a tag of that name is closed.
fn closing(word: &[u8], bytes: &[u8]) -> Option<usize>
    ensures { IsRun (is_raw_end word.now) bytes.now (unwrap_or result (length bytes.now)) }
{
    for i in 0..bytes.len() {
        if closes(&bytes[i..], word) {
            return Some(i);
        }
    }
    None
}
