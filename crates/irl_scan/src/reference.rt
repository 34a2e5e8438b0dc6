ghost use Rattle.std.specs.Prelude.{ℕ, ◌≡◌, ◌<◌, ◌≤◌, List, Some, None, if◌then◌else◌, nat_lt, not, position, IfOk, IfSome, length, option_map, slice_range};
ghost use Rattle.std.specs.Char.{digit_value};
ghost use Rattle.irl_scan.specs.Text.{Item, Reads, text_of};
ghost use Rattle.irl_scan.specs.Reading.{before, from, not_digit, radix_of, most_digits, number_from, number_at, reference_at, HasText};

use crate::run::{cut, first_is};
use crate::span::Span;
use irl_offer::Text;
use std::alloc::{AllocError, Global};

/// How a number is written.
#[derive(Clone, Copy)]
pub enum Radix {
    /// In decimal digits.
    Ten,
    /// In hexadecimal digits.
    Sixteen,
}

impl Radix {
    fn number(self) -> u32
        ensures { result ≡ radix_of self }
    {
        match self {
            Radix::Ten => 10,
            Radix::Sixteen => 16,
        }
    }

    /// How many digits a reference has at most.
    fn most_digits(self) -> usize
        ensures { result ≡ most_digits self }
    {
        match self {
            Radix::Ten => 7,
            Radix::Sixteen => 6,
        }
    }

    /// The value of a digit.
    pub fn digit(self, byte: u8) -> Option<u32>
        ensures { result ≡ (if nat_lt (digit_value byte) (radix_of self) then Some (digit_value byte) else None) }
    {
        char::from(byte).to_digit(self.number())
    }
}

/// The byte below 128 whose number the digits write.
fn number_of(digits: &[u8], radix: Radix) -> Option<u8>
    ensures { result ≡ number_from (radix_of radix) 0 digits.now }
{
    let mut number = 0u8;
    for byte in digits {
        let digit = radix.digit(*byte)?;
        let next = u32::from(number) * radix.number() + digit;
        if next >= 128 {
            return None;
        }
        number = next as u8;
    }
    Some(number)
}

/// Where the digits that come first end.
fn digits_end(bytes: &[u8], radix: Radix) -> Option<usize>
    ensures { result ≡ position (λ b. not (nat_lt (digit_value b) (radix_of radix))) bytes.now }
{
    bytes.iter().position(|byte| radix.digit(*byte).is_none())
}

/// The digits that come first, and the other bytes.
fn split_digits(bytes: &[u8], radix: Radix) -> (&[u8], &[u8])
    ensures front { result.0.now ≡ before (not_digit radix) bytes.now }
    ensures back { result.1.now ≡ from (not_digit radix) bytes.now }
    ensures shorter { length result.1.now ≤ length bytes.now }
{
    let end = digits_end(bytes, radix);
    cut(bytes, end.unwrap_or(bytes.len()))
}

/// Reads digits and the `;` behind them: the byte whose number they write, and what is left.
#[tactic(auto, unfolding(crate::specs::Reading::number_at))]
fn number_at(rest: &[u8], radix: Radix) -> Option<(u8, &[u8])>
    ensures number { option_map (λ x. (x.0, x.1.now)) result ≡ number_at radix rest.now }
    ensures shorter { IfSome result (λ x. length x.1.now ≤ length rest.now) }
{
    let (digits, behind) = split_digits(rest, radix);
    if digits.is_empty() || digits.len() > radix.most_digits() || !first_is(behind, b';') {
        return None;
    }
    let number = number_of(digits, radix)?;
    Some((number, cut(behind, 1).1))
}

/// Reads the reference at the front: the byte for which it stands, and what is left.
#[tactic(auto, unfolding(crate::specs::Reading::reference_at))]
fn reference_at(rest: &[u8]) -> Option<(u8, &[u8])>
    ensures reference { option_map (λ x. (x.0, x.1.now)) result ≡ reference_at rest.now }
    ensures shorter { IfSome result (λ x. length x.1.now < length rest.now) }
{
    if !first_is(rest, b'&') {
        None
    } else if rest.starts_with(b"&amp;") {
        Some((b'&', cut(rest, 5).1))
    } else if rest.starts_with(b"&lt;") {
        Some((b'<', cut(rest, 4).1))
    } else if rest.starts_with(b"&gt;") {
        Some((b'>', cut(rest, 4).1))
    } else if rest.starts_with(b"&quot;") {
        Some((b'"', cut(rest, 6).1))
    } else if rest.starts_with(b"&apos;") {
        Some((b'\'', cut(rest, 6).1))
    } else if rest.starts_with(b"&#x") || rest.starts_with(b"&#X") {
        number_at(cut(rest, 3).1, Radix::Sixteen)
    } else if rest.starts_with(b"&#") {
        number_at(cut(rest, 2).1, Radix::Ten)
    } else {
        None
    }
}

/// The text of a value.
fn read_text(alloc: Global, value: &[u8]) -> Result<Text, AllocError>
    ensures { IfOk result (HasText value.now) }
{
    // A text is no longer than its span, and one that grows by small steps gives memory back and forth.
    let mut bytes = Vec::with_capacity(alloc, value.len())?;
    let mut rest = value;
    while let Some(first) = rest.first() {
        match reference_at(rest) {
            Some((byte, behind)) => {
                bytes.push(byte)?;
                rest = behind;
            }
            None => {
                bytes.push(*first)?;
                rest = cut(rest, 1).1;
            }
        }
    }
    Ok(Text::from_vec(bytes))
}

/// The text of a span of a page, with the character references `&amp;`, `&lt;`, `&gt;`, `&quot;`, `&apos;`, `&#N;` with
/// one to seven decimal digits, and `&#xH;` or `&#XH;` with one to six hexadecimal digits, replaced where the number is
/// below 128.
/// Any other `&` stays, and what was replaced isn't read again. The span doesn't end before it begins, and lies within the
/// page. The only refusal is want of memory.
pub fn text(alloc: Global, page: &[u8], span: &Span) -> Result<Text, AllocError>
    requires forward { span.now.start ≤ span.now.end }
    requires inside { span.now.end ≤ length page.now }
    // The span is bytes and references, of which this is the text,
    ensures found { IfOk result (λ text. (items : List Item)
        × Reads (slice_range page.now span.now.start span.now.end) items × (text ≡ text_of items)) }
    // and it has no other.
    ensures only { IfOk result (λ text. (items : List Item)
        → Reads (slice_range page.now span.now.start span.now.end) items → text ≡ text_of items) }
{
    let value = &page[span.start as usize..span.end as usize];
    read_text(alloc, value)
}

/// Any bytes read as bytes and references, and have one text.
pub fn one_text()
    ensures some { (value : List ℕ) → (items : List Item) × Reads value items }
    ensures one { (value : List ℕ) (a b : List Item) → Reads value a → Reads value b → text_of a ≡ text_of b }
{}
