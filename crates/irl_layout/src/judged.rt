ghost use Rattle.std.specs.Prelude.{◌≡◌, ◌<◌, ◌≤◌, ◌++◌, length, OnOk};
ghost use Rattle.byteorder.specs.Endian.{little_bytes};
ghost use Rattle.irl_layout.specs.JudgedEntries.{verdict_number as number_of_verdict, known_value as value_of_verdict};
ghost use Rattle.irl_layout.specs.JudgedEntries.{row};

use crate::number::push_number;
use byteorder::{ByteOrder, LittleEndian};
use irl_offer::{Entry, Verdict};
use std::alloc::AllocError;

/// How many bytes a judged offer takes without its text.
pub const JUDGED_LEN: usize = 48;

/// Puts the entry of a judged offer behind others: its bucket, operation and verdict, the text's length, the key, the
/// value and the source, the value that the verdict tells, and the place of the text.
pub fn push_judged(
    entries: &mut Vec<u8>,
    place: u64,
    bucket: u32,
    entry: &Entry,
    verdict: Option<Verdict>,
) -> Result<(), AllocError>
    requires { bucket < 256 }
    ensures ok { OnOk result (entries.new.items ≡ entries.old.items ++ row place bucket entry.now verdict) }
    ensures grows { length entries.old.items ≤ length entries.new.items }
{
    let text_len = length_bytes(u32::from(entry.aux_len));
    entries.extend_from_slice(&[bucket as u8, entry.op.number(), verdict_number(verdict), 0])?;
    entries.extend_from_slice(&text_len)?;
    push_number(entries, entry.key)?;
    push_number(entries, entry.value)?;
    push_number(entries, entry.from)?;
    push_number(entries, known_value(verdict))?;
    push_number(entries, place)?;
    Ok(())
}

// The number that stands for a verdict.
fn verdict_number(verdict: Option<Verdict>) -> u8
    ensures { result ≡ number_of_verdict verdict }
{
    match verdict {
        None => 0,
        Some(Verdict::Unique) => 1,
        Some(Verdict::Absent) => 2,
        Some(Verdict::Known(_)) => 3,
    }
}

// The value that a verdict tells, or 0.
fn known_value(verdict: Option<Verdict>) -> u64
    ensures { result ≡ value_of_verdict verdict }
{
    match verdict {
        Some(Verdict::Known(value)) => value,
        _ => 0,
    }
}

// The bytes of a length, the lowest first.
fn length_bytes(length: u32) -> [u8; 4]
    ensures { result ≡ little_bytes 4 length }
{
    let mut bytes = [0; 4];
    LittleEndian::write_u32(&mut bytes, length);
    bytes
}
