ghost use Rattle.std.specs.Prelude.{◌≡◌, false, ◌<◌, ◌≤◌, ◌++◌, ◌&&◌, [], take, length, Some, None, IfOk, MatchOption, if◌then◌else◌};
ghost use Rattle.std.specs.Char.{is_digit};
ghost use Rattle.std.specs.Iterator.{YieldsFirst, item_count};
ghost use Rattle.irl_robots.specs.Normal.{hex_digit as digit_of, is_unreserved as unreserved, triplet_value as value_of, begins_triplet, normal, normal_octet, normal_triplet};
ghost use Rattle.irl_robots.specs.Octets.{spelling, octets_left};

use std::alloc::{AllocError, Global};

/// An octet of a path in the form in which paths are compared, or a percent triplet by its two digits.
#[derive(Clone, Copy)]
pub enum Unit {
    Octet(u8),
    Triplet(u8, u8),
}

/// What is left of a path, octet by octet in the form in which paths are compared. It takes no memory.
#[derive(Clone, Copy)]
pub struct Octets<'a> {
    /// What is left of the triplet that is being given.
    begun: Begun,
    /// The path behind it, as it was written.
    rest: &'a [u8],
}

#[derive(Clone, Copy)]
pub enum Begun {
    Nothing,
    One(u8),
    Two(u8, u8),
}

impl<'a> Octets<'a> {
    /// The octets of a path.
    pub fn new(path: &'a [u8]) -> Self
        ensures { octets_left result ≡ normal path.now }
    {
        Octets {
            begun: Begun::Nothing,
            rest: path,
        }
    }
}

impl Iterator for Octets<'_> {
    type Item = u8;

    ghost next_gives = { YieldsFirst octets_left };

    ghost remaining = { item_count octets_left };

    fn next(&mut self) -> Option<u8> {
        match self.begun {
            Begun::Two(first, last) => {
                self.begun = Begun::One(last);
                Some(first)
            }
            Begun::One(last) => {
                self.begun = Begun::Nothing;
                Some(last)
            }
            Begun::Nothing => {
                let (unit, rest) = split_unit(self.rest)?;
                self.rest = rest;
                match unit {
                    Unit::Octet(octet) => Some(octet),
                    Unit::Triplet(high, low) => {
                        self.begun = Begun::Two(high, low);
                        Some(b'%')
                    }
                }
            }
        }
    }
}

/// A path or a pattern in the form in which they are compared.
pub fn normalized(alloc: Global, path: &[u8]) -> Result<Vec<u8>, AllocError>
    ensures { IfOk result (λ octets. octets.items ≡ normal path.now) }
{
    Octets::new(path).collect(alloc)
}

/// Writes a path in normal form to the front of a buffer, and gives the number of its octets, or `None` where there is
/// no room for them.
pub fn write_normal(path: &[u8], buffer: &mut [u8]) -> Option<usize>
    ensures { MatchOption result
        (length buffer.new < length (normal path.now))
        (λ end. (end ≤ length buffer.new) × (take end buffer.new ≡ normal path.now)) }
{
    let mut end = 0;
    for octet in Octets::new(path) {
        if end == buffer.len() {
            return None;
        }
        buffer[end] = octet;
        end += 1;
    }
    Some(end)
}

/// The first unit of a path, and what follows it. `None` comes at the path's end.
fn split_unit(path: &[u8]) -> Option<(Unit, &[u8])>
    ensures { MatchOption result
        (path.now ≡ [])
        (λ split. normal path.now ≡ spelling split.0 ++ normal split.1.now) }
{
    match split_triplet(path) {
        Some(split) => Some(split),
        None => match path {
            [] => None,
            [octet, rest @ ..] => Some((lone(*octet), rest)),
        },
    }
}

/// The unit of the triplet that the path begins with, and what follows it.
fn split_triplet(path: &[u8]) -> Option<(Unit, &[u8])>
    ensures { MatchOption result
        (begins_triplet path.now ≡ false)
        (λ split. normal path.now ≡ spelling split.0 ++ normal split.1.now) }
{
    match path {
        [b'%', high, low, rest @ ..] => match triplet_value(*high, *low) {
            Some(value) => Some((triplet(*high, *low, value), rest)),
            None => None,
        },
        _ => None,
    }
}

/// The unit of a triplet with these digits, which stand for the value.
fn triplet(high: u8, low: u8, value: u8) -> Unit
    requires { value ≡ value_of high low }
    ensures { spelling result ≡ normal_triplet high low }
{
    if is_unreserved(value) {
        Unit::Octet(value)
    } else {
        Unit::Triplet(high.to_ascii_uppercase(), low.to_ascii_uppercase())
    }
}

/// The unit of an octet that begins no triplet.
fn lone(octet: u8) -> Unit
    ensures { spelling result ≡ normal_octet octet }
{
    if octet > 127 {
        Unit::Triplet(hex_digit(octet / 16), hex_digit(octet % 16))
    } else {
        Unit::Octet(octet)
    }
}

/// The octet that two hexadecimal digits stand for, or `None` where one of them is none.
fn triplet_value(high: u8, low: u8) -> Option<u8>
    ensures { result ≡ (if is_digit high 16 && is_digit low 16 then Some (value_of high low) else None) }
{
    let high = char::from(high).to_digit(16)?;
    let low = char::from(low).to_digit(16)?;
    Some((16 * high + low) as u8)
}

/// Whether a triplet of this octet is decoded.
fn is_unreserved(octet: u8) -> bool
    ensures { result ≡ unreserved octet }
{
    octet.is_ascii_alphanumeric() || matches!(octet, b'-' | b'.' | b'_' | b'~')
}

/// The upper-case hexadecimal digit of a number below 16.
fn hex_digit(number: u8) -> u8
    requires { number < 16 }
    ensures { result ≡ digit_of number }
{
    if number < 10 {
        b'0' + number
    } else {
        b'A' + (number - 10)
    }
}
