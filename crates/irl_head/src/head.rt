//! The head's record: the settings in 100 bytes.

ghost use Rattle.std.specs.Prelude.{◌≡◌, ◌+◌, ◌*◌, ◌≤◌, ◌++◌, ℕ, length, take, IfOk, IfSome, IsErrOf, None};
ghost use Rattle.std.specs.List.{flat_map};
ghost use Rattle.byteorder.specs.Endian.{little_bytes};
ghost use Rattle.irl_offer.specs.Settings.{AreValid};
ghost use Rattle.irl_head.specs.Head.{head_bytes, head_name, head_version, IsBadName, IsNoHeadAt};
ghost use Rattle.irl_head.specs.Numbers.{AreNumbersIn};

use crate::ranges::{SETTINGS, first_bad_number, numbers_of, settings_of};
use byteorder::{ByteOrder, LittleEndian};
use irl_offer::Settings;

/// How many bytes the record's payload has.
pub const HEAD_LEN: usize = 100;

/// The first eight of them.
const NAME: [u8; 8] = *b"IRLSTORE";

/// The version, which stands in the next four.
const VERSION: u32 = 1;

/// The payload of the head's record: `IRLSTORE`, the version in four bytes, and each setting in eight, the lowest byte first.
pub fn encode(settings: &Settings) -> [u8; 100]
    ensures { result ≡ head_bytes settings.now }
{
    let mut bytes = [0; HEAD_LEN];
    put_front(&mut bytes);
    put_numbers(&mut bytes, &numbers_of(settings));
    bytes
}

// Writes the name and the version.
fn put_front(bytes: &mut [u8])
    requires { 12 ≤ length bytes.old }
    ensures { take 12 bytes.new ≡ head_name ++ little_bytes 4 head_version }
{
    bytes[..8].copy_from_slice(&NAME);
    LittleEndian::write_u32(&mut bytes[8..12], VERSION);
}

// Writes the settings' numbers behind them.
fn put_numbers(bytes: &mut [u8], numbers: &[u64])
    requires { length bytes.old ≡ 12 + 8 * length numbers.now }
    ensures { bytes.new ≡ take 12 bytes.old ++ flat_map (little_bytes 8) numbers.now }
{
    LittleEndian::write_u64_into(numbers, &mut bytes[12..]);
}

/// The settings of a payload; or the place in the head's file of the first thing that isn't a head's.
pub fn decode(payload: &[u8]) -> Result<Settings, u64>
    ensures found { IfOk result (λ settings. AreValid settings × (payload.now ≡ head_bytes settings)) }
    ensures none { (at : ℕ) → IsErrOf result at → IsNoHeadAt payload.now at }
{
    if payload.len() != HEAD_LEN {
        return Err(1);
    }
    if let Some(i) = bad_name(payload) {
        return Err(5 + i);
    }
    if LittleEndian::read_u32(&payload[8..]) != VERSION {
        return Err(13);
    }
    let numbers = numbers_in(payload);
    if let Some(n) = first_bad_number(&numbers) {
        return Err(17 + 8 * (u64::from(n) - 1));
    }
    Ok(settings_of(&numbers))
}

// The place of the first byte of the name that differs.
fn bad_name(payload: &[u8]) -> Option<u64>
    requires { 8 ≤ length payload.now }
    ensures found { IfSome result (IsBadName payload.now) }
    ensures none { result ≡ None → take 8 payload.now ≡ head_name }
{
    for (i, byte) in NAME.iter().enumerate() {
        if payload[i] != *byte {
            return Some(i as u64);
        }
    }
    None
}

// The settings' numbers.
fn numbers_in(payload: &[u8]) -> [u64; 11]
    requires { length payload.now ≡ 100 }
    ensures { AreNumbersIn payload.now result }
{
    let mut numbers = [0; SETTINGS];
    LittleEndian::read_u64_into(&payload[12..], &mut numbers);
    numbers
}
