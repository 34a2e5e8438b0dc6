ghost use Rattle.std.specs.Prelude.{◌≡◌, ◌<◌, ◌++◌, ◌∷◌, [], take, vec_len, OnOk, OnErr};
ghost use Rattle.std.specs.Char.{digit_char};
ghost use Rattle.irl_tuple.specs.Forms.{spaced};
ghost use Rattle.irl_tuple.specs.Verdicts.{hex_digits, verdict_words, told_line};

use irl_offer::Verdict;
use itoa::Buffer;
use std::alloc::AllocError;

/// How many hexadecimal digits a key is told in.
const KEY_DIGITS: u32 = 16;

/// Puts the line of a verdict behind the others: `unique KEY`, `absent KEY` or `known KEY VALUE`, KEY in 16 lower-case
/// hexadecimal digits, then a space and the offer's text where it isn't empty, and a line feed. An offer that only updates has
/// no verdict, and nothing is put. After want of memory all is as before.
pub fn push_verdict(
    key: u64,
    verdict: Option<Verdict>,
    aux: &[u8],
    out: &mut Vec<u8>,
) -> Result<(), AllocError>
    ensures ok { OnOk result (out.new.items ≡ out.old.items ++ told_line key aux.now verdict) }
    ensures err { OnErr result (out.new.items ≡ out.old.items) }
{
    let Some(verdict) = verdict else {
        return Ok(());
    };
    let len = out.len();
    let pushed = push_line(key, verdict, aux, out);
    if pushed.is_err() {
        out.truncate(len);
    }
    pushed
}

fn push_line(key: u64, verdict: Verdict, aux: &[u8], out: &mut Vec<u8>) -> Result<(), AllocError>
    ensures ok { OnOk result (out.new.items ≡ out.old.items
        ++ (verdict_words key verdict ++ (spaced aux.now ++ 10 ∷ []))) }
    ensures err { OnErr result (take (vec_len out.old) out.new.items ≡ out.old.items) }
{
    push_words(key, verdict, out)?;
    push_spaced(aux, out)?;
    out.extend_from_slice(b"\n")
}

fn push_words(key: u64, verdict: Verdict, out: &mut Vec<u8>) -> Result<(), AllocError>
    ensures ok { OnOk result (out.new.items ≡ out.old.items ++ verdict_words key verdict) }
    ensures err { OnErr result (take (vec_len out.old) out.new.items ≡ out.old.items) }
{
    match verdict {
        Verdict::Unique => {
            out.extend_from_slice(b"unique ")?;
            push_hex(KEY_DIGITS, key, out)
        }
        Verdict::Absent => {
            out.extend_from_slice(b"absent ")?;
            push_hex(KEY_DIGITS, key, out)
        }
        Verdict::Known(value) => {
            out.extend_from_slice(b"known ")?;
            push_hex(KEY_DIGITS, key, out)?;
            out.extend_from_slice(b" ")?;
            out.extend_from_slice(Buffer::new().format(value).as_bytes())
        }
    }
}

/// Puts a text behind a space, or nothing where it is empty.
fn push_spaced(text: &[u8], out: &mut Vec<u8>) -> Result<(), AllocError>
    ensures ok { OnOk result (out.new.items ≡ out.old.items ++ spaced text.now) }
    ensures err { OnErr result (take (vec_len out.old) out.new.items ≡ out.old.items) }
{
    if text.is_empty() {
        return Ok(());
    }
    out.extend_from_slice(b" ")?;
    out.extend_from_slice(text)
}

/// Puts so many hexadecimal digits of a number, its lowest ones, with the highest first.
fn push_hex(count: u32, number: u64, out: &mut Vec<u8>) -> Result<(), AllocError>
    ensures ok { OnOk result (out.new.items ≡ out.old.items ++ hex_digits count number) }
    ensures err { OnErr result (take (vec_len out.old) out.new.items ≡ out.old.items) }
{
    if count == 0 {
        return Ok(());
    }
    push_hex(count - 1, number / 16, out)?;
    let digit = hex_digit((number % 16) as u8);
    out.extend_from_slice(&[digit])
}

/// A hexadecimal digit.
fn hex_digit(value: u8) -> u8
    requires { value < 16 }
    ensures { result ≡ digit_char value }
{
    if value < 10 {
        b'0' + value
    } else {
        b'a' - 10 + value
    }
}
