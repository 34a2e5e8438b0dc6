ghost use Rattle.std.specs.Prelude.{◌≡◌, ◌+◌, ◌≤◌, drop, IfSome, None, Option};
ghost use Rattle.byteorder.specs.Endian.{little_number};
ghost use Rattle.irl_offer.specs.declared.offer.Verdict.{Verdict};
ghost use Rattle.irl_layout.specs.declared.judged_entry.JudgedEntry.{JudgedEntry};
ghost use Rattle.irl_layout.specs.JudgedEntries.{IsJudgedEntry, entry_spelling, known_value, verdict_number};

use byteorder::{ByteOrder, LittleEndian};
use irl_offer::{MAX_TEXT, Op, Verdict};

/// A judged offer without its text, as the judged file keeps it.
#[derive(Clone, Copy, Debug, PartialEq, Eq)]
pub struct JudgedEntry {
    pub bucket: u8,
    pub op: Op,
    pub verdict: Option<Verdict>,
    /// The length of the text, in bytes: at most 2,048.
    pub aux_len: u32,
    pub key: u64,
    pub value: u64,
    pub from: u64,
    /// Where the text stands in the texts file.
    pub place: u64,
}

impl JudgedEntry {
    /// The entry that these bytes are, or none where no entry has them.
    pub fn decode(bytes: &[u8; 48]) -> Option<JudgedEntry>
        ensures found { IfSome result (λ entry. entry_spelling entry ≡ bytes.now) }
        ensures is { IfSome result IsJudgedEntry }
        ensures none { result ≡ None → (entry : JudgedEntry) →
            IsJudgedEntry entry → entry_spelling entry ≡ bytes.now → ⊥ }
    {
        let aux_len = text_length(bytes);
        if bytes[3] != 0 || aux_len > MAX_TEXT as u32 {
            return None;
        }
        Some(JudgedEntry {
            bucket: bytes[0],
            op: Op::from_number(bytes[1])?,
            verdict: verdict_of(bytes[2], number_at(bytes, 32))?,
            aux_len,
            key: number_at(bytes, 8),
            value: number_at(bytes, 16),
            from: number_at(bytes, 24),
            place: number_at(bytes, 40),
        })
    }
}

// The length of the text.
fn text_length(bytes: &[u8; 48]) -> u32
    ensures { result ≡ little_number 4 (drop 4 bytes.now) }
{
    LittleEndian::read_u32(&bytes[4..])
}

// The number of eight bytes at a place.
fn number_at(bytes: &[u8; 48], at: usize) -> u64
    requires { at + 8 ≤ 48 }
    ensures { result ≡ little_number 8 (drop at bytes.now) }
{
    LittleEndian::read_u64(&bytes[at..])
}

// The verdict that a number stands for and that tells this value, if there is one.
fn verdict_of(number: u8, value: u64) -> Option<Option<Verdict>>
    ensures number { IfSome result (λ verdict. verdict_number verdict ≡ number) }
    ensures value { IfSome result (λ verdict. known_value verdict ≡ value) }
    ensures none { result ≡ None → (verdict : Option Verdict) →
        verdict_number verdict ≡ number → known_value verdict ≡ value → ⊥ }
{
    match (number, value) {
        (0, 0) => Some(None),
        (1, 0) => Some(Some(Verdict::Unique)),
        (2, 0) => Some(Some(Verdict::Absent)),
        (3, _) => Some(Some(Verdict::Known(value))),
        _ => None,
    }
}
