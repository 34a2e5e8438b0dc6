ghost use Rattle.std.specs.Prelude.{◌≡◌, ◌++◌, List, ℕ, map, length, OnOk, OnErr, IsErr};
ghost use Rattle.std.specs.List.{flat_map};
ghost use Rattle.std.specs.Io.KnownBytes.{Appends};
ghost use Rattle.irl_base.specs.Faults.{HasCause};
ghost use Rattle.irl_io.specs.Written.{AppendsPrefix};
ghost use Rattle.irl_top.specs.declared.ending.Ending.TheVariants.{OtherSettings};
ghost use Rattle.irl_top.specs.Message.{message, refusal, option_of, file_name as name_of_file};

use crate::Ending;
use irl_io::{Failed, Sink};
use itoa::Buffer;

/// Writes the line of an ending: nothing at `Done`. It takes no memory.
pub fn tell<E: Sink>(errors: &mut E, ending: Ending) -> Result<(), Failed>
    ensures ok { OnOk result (Appends (E.written errors.old) (E.written errors.new) (message ending)) }
    ensures err { OnErr result (AppendsPrefix (E.written errors.old) (E.written errors.new) (message ending)) }
    ensures cause { HasCause (IsErr result) (E.faults errors.old) (E.faults errors.new) }
{
    let mut buffer = Buffer::new();
    match ending {
        Ending::Done => Ok(()),
        Ending::BadSettings(n) => tell_refused(errors, option(n).as_bytes()),
        Ending::LineRefused(n) => say(
            errors,
            &[b"line ", buffer.format(n).as_bytes(), b" refused\n"],
        ),
        Ending::NotOurs(at) => say(
            errors,
            &[
                b"not a store: byte ",
                buffer.format(at).as_bytes(),
                b" of file 0000\n",
            ],
        ),
        Ending::Damaged(f, at) => say(
            errors,
            &[
                b"damaged: byte ",
                buffer.format(at).as_bytes(),
                b" of file ",
                &file_name(f),
                b"\n",
            ],
        ),
        Ending::OtherSettings(n, kept, asked) => tell_other(errors, n, kept, asked),
        Ending::DiskFault => errors.write(b"disk fault\n"),
        Ending::InputFault => errors.write(b"input fault\n"),
        Ending::OutputFault => errors.write(b"output fault\n"),
        Ending::NoMemory => errors.write(b"no memory\n"),
        Ending::Full(b) => say(
            errors,
            &[b"bucket ", buffer.format(b).as_bytes(), b" full\n"],
        ),
    }
}

/// Writes the line of refused words. It takes no memory.
pub fn tell_refused<E: Sink>(errors: &mut E, word: &[u8]) -> Result<(), Failed>
    ensures ok { OnOk result (Appends (E.written errors.old) (E.written errors.new) (refusal word.now)) }
    ensures err { OnErr result (AppendsPrefix (E.written errors.old) (E.written errors.new) (refusal word.now)) }
    ensures cause { HasCause (IsErr result) (E.faults errors.old) (E.faults errors.new) }
{
    say(errors, &[b"words refused: ", word, b"\n"])
}

// Writes that a store was made otherwise than is asked.
fn tell_other<E: Sink>(errors: &mut E, n: u8, kept: u64, asked: u64) -> Result<(), Failed>
    ensures ok { OnOk result (Appends (E.written errors.old) (E.written errors.new)
        (message (OtherSettings n kept asked))) }
    ensures err { OnErr result (AppendsPrefix (E.written errors.old) (E.written errors.new)
        (message (OtherSettings n kept asked))) }
    ensures cause { HasCause (IsErr result) (E.faults errors.old) (E.faults errors.new) }
{
    let (mut first, mut second, mut third) = (Buffer::new(), Buffer::new(), Buffer::new());
    say(
        errors,
        &[
            b"other setting ",
            first.format(n).as_bytes(),
            b": kept ",
            second.format(kept).as_bytes(),
            b", asked ",
            third.format(asked).as_bytes(),
            b"\n",
        ],
    )
}

// The option of a setting, by its number.
fn option(n: u8) -> &'static str
    ensures { result.now ≡ option_of n }
{
    match n {
        2 => "--rule",
        3 => "--buckets",
        4 => "--array",
        5 => "--trigger",
        6 => "--block",
        7 => "--cap",
        8 => "--queues",
        9 => "--base",
        10 => "--most",
        11 => "--ranks",
        _ => "-",
    }
}

// A file's name: its number in four digits.
fn file_name(f: u16) -> [u8; 4]
    ensures { result ≡ name_of_file f }
{
    [
        b'0' + (f / 1000 % 10) as u8,
        b'0' + (f / 100 % 10) as u8,
        b'0' + (f / 10 % 10) as u8,
        b'0' + (f % 10) as u8,
    ]
}

// Writes pieces, up to the first that fails.
fn say<E: Sink>(errors: &mut E, pieces: &[&[u8]]) -> Result<(), Failed>
    ensures ok { OnOk result (Appends (E.written errors.old) (E.written errors.new)
        (flat_map (λ piece. piece.now) pieces.now)) }
    ensures err { OnErr result (AppendsPrefix (E.written errors.old) (E.written errors.new)
        (flat_map (λ piece. piece.now) pieces.now)) }
    ensures cause { HasCause (IsErr result) (E.faults errors.old) (E.faults errors.new) }
{
    for piece in pieces {
        errors.write(piece)?;
    }
    Ok(())
}
