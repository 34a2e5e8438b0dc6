ghost use Rattle.std.specs.Prelude.{◌≡◌, ◌+◌, ◌≤◌, length, option_map, option_copied, IfOk, IfSome};
ghost use Rattle.irl_base.specs.Limits.{max_text};
ghost use Rattle.irl_tuple.specs.Tuples.{tuple_of, check_of, update_of, both_of, aux_of, cut as cut_at, tuple};

use crate::number::{read_key, read_value};
use irl_offer::{Offer, Op, Text};
use std::alloc::{AllocError, Global};

/// What a tuple line says, with the text that it lends.
#[derive(Clone, Copy)]
struct Fields<'a> {
    op: Op,
    key: u64,
    value: u64,
    aux: &'a [u8],
}

/// The offer of a tuple line: `c KEY`, `u KEY VALUE`, `b KEY VALUE` or `b KEY VALUE AUX`, one space between parts. KEY is 1 to
/// 16 lower-case hexadecimal digits, VALUE decimal digits without a leading zero, AUX the rest of the line. None where the
/// line is no tuple line.
pub fn read_tuple(alloc: Global, line: &[u8]) -> Result<Option<Offer>, AllocError>
    requires { length line.now ≤ max_text }
    ensures { IfOk result (λ found. found ≡ tuple_of line.now) }
{
    let Some(fields) = fields_of(line) else {
        return Ok(None);
    };
    Ok(Some(Offer {
        op: fields.op,
        key: fields.key,
        value: fields.value,
        from: 0,
        aux: Text::from_bytes(alloc, fields.aux)?,
    }))
}

/// What a line says, if it is a tuple line.
#[tactic(auto, unfolding(crate::specs::Tuples::tuple_of))]
fn fields_of(line: &[u8]) -> Option<Fields<'_>>
    ensures value { option_map (λ f. tuple f.op f.key f.value f.aux.now) result ≡ tuple_of line.now }
    ensures short { IfSome result (λ f. length f.aux.now ≤ length line.now) }
{
    if line.starts_with(b"c ") {
        check(&line[2..])
    } else if line.starts_with(b"u ") {
        update(&line[2..])
    } else if line.starts_with(b"b ") {
        both(&line[2..])
    } else {
        None
    }
}

/// Reads `KEY`.
#[tactic(auto, unfolding(crate::specs::Tuples::check_of))]
fn check(text: &[u8]) -> Option<Fields<'_>>
    ensures value { option_map (λ f. tuple f.op f.key f.value f.aux.now) result ≡ check_of text.now }
    ensures short { IfSome result (λ f. length f.aux.now ≤ length text.now) }
{
    let key = read_key(text)?;
    Some(Fields {
        op: Op::Check,
        key,
        value: 0,
        aux: &[],
    })
}

/// Reads `KEY VALUE`.
#[tactic(auto, unfolding(crate::specs::Tuples::update_of))]
fn update(text: &[u8]) -> Option<Fields<'_>>
    ensures value { option_map (λ f. tuple f.op f.key f.value f.aux.now) result ≡ update_of text.now }
    ensures short { IfSome result (λ f. length f.aux.now ≤ length text.now) }
{
    let (key, rest) = cut(text);
    let key = read_key(key)?;
    let value = read_value(rest?)?;
    Some(Fields {
        op: Op::Update,
        key,
        value,
        aux: &[],
    })
}

/// Reads `KEY VALUE` or `KEY VALUE AUX`.
#[tactic(auto, unfolding(crate::specs::Tuples::both_of))]
fn both(text: &[u8]) -> Option<Fields<'_>>
    ensures value { option_map (λ f. tuple f.op f.key f.value f.aux.now) result ≡ both_of text.now }
    ensures short { IfSome result (λ f. length f.aux.now ≤ length text.now) }
{
    let (key, rest) = cut(text);
    let key = read_key(key)?;
    let (value, rest) = cut(rest?);
    let value = read_value(value)?;
    let aux = read_aux(rest)?;
    Some(Fields {
        op: Op::Both,
        key,
        value,
        aux,
    })
}

/// The rest of a line: empty where no space stands before it, and else at least one byte.
fn read_aux(rest: Option<&[u8]>) -> Option<&[u8]>
    ensures { option_copied result ≡ aux_of (option_copied rest.entry) }
{
    match rest {
        None => Some(&[]),
        Some([]) => None,
        Some(aux) => Some(aux),
    }
}

/// The bytes before the first space, and those behind it where there is one.
fn cut(text: &[u8]) -> (&[u8], Option<&[u8]>)
    ensures front { result.0.now ≡ (cut_at text.now).0 }
    ensures rest { option_copied result.1 ≡ (cut_at text.now).1 }
    ensures short { IfSome result.1 (λ rest. length rest.now + 1 ≤ length text.now) }
{
    match text.iter().position(|b| *b == b' ') {
        Some(at) => (&text[..at], Some(&text[at + 1..])),
        None => (text, None),
    }
}
