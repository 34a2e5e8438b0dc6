ghost use Rattle.std.specs.Prelude.{◌≡◌, ◌+◌, ◌*◌, ◌/◌, ◌^◌, ◌<◌, ◌≤◌, ◌++◌, [], map, length, take, drop, vec_len, vec_capacity, IfOk, IfErr, OnOk};
ghost use Rattle.byteorder.specs.Endian.{little_bytes, little_number};
ghost use Rattle.irl_model.specs.Pairs.{pair_of};
ghost use Rattle.irl_cache.specs.SortedRun.{pairs_bytes, AreWordPairs, RisesFrom, FallsFrom, last_from};

use byteorder::{ByteOrder, LittleEndian};
use irl_offer::Pair;

/// How many bytes a key with its value takes.
pub const ENTRY: usize = 16;

/// The bytes of a pair: the key and the value, each the lowest byte first.
pub fn pair_bytes(pair: Pair) -> [u8; 16]
    ensures { result ≡ little_bytes 8 pair.key ++ little_bytes 8 pair.value }
{
    let mut bytes = [0; ENTRY];
    LittleEndian::write_u64(&mut bytes, pair.key);
    LittleEndian::write_u64(&mut bytes[8..], pair.value);
    bytes
}

/// The pair in sixteen bytes from a place on.
pub fn pair_at(bytes: &[u8], at: usize) -> Pair
    requires { at + 16 < length bytes.now + 1 }
    ensures key { result.key ≡ little_number 8 (drop at bytes.now) }
    ensures value { result.value ≡ little_number 8 (drop (at + 8) bytes.now) }
    ensures words { (result.key < 2 ^ 64) × (result.value < 2 ^ 64) }
{
    Pair {
        key: LittleEndian::read_u64(&bytes[at..]),
        value: LittleEndian::read_u64(&bytes[at + 8..]),
    }
}

/// Puts the pairs of a piece into an empty list that has room for them, and gives the last key, or else the one before the
/// piece. An error is the place of the first key that isn't above the one before it.
pub fn read_pairs(
    bytes: &[u8],
    last: Option<u64>,
    pairs: &mut Vec<Pair>,
) -> Result<Option<u64>, usize>
    requires none { pairs.old.items ≡ [] }
    requires room { length bytes.now ≤ 16 * vec_capacity pairs.old }
    ensures count { OnOk result (vec_len pairs.new ≡ length bytes.now / 16) }
    ensures bytes { OnOk result (pairs_bytes (map pair_of pairs.new.items) ≡ take (16 * vec_len pairs.new) bytes.now) }
    ensures rising { OnOk result (RisesFrom last pairs.new.items) }
    ensures words { OnOk result (AreWordPairs (map pair_of pairs.new.items)) }
    ensures last { IfOk result (λ end. end ≡ last_from last pairs.new.items) }
    ensures falls { IfErr result (λ at. FallsFrom last bytes.now at) }
    ensures capacity { vec_capacity pairs.new ≡ vec_capacity pairs.old }
{
    let mut end = last;
    for i in 0..bytes.len() / ENTRY {
        let pair = pair_at(bytes, ENTRY * i);
        if let Some(before) = end {
            if pair.key <= before {
                return Err(ENTRY * i);
            }
        }
        pairs.push_reserved(pair);
        end = Some(pair.key);
    }
    Ok(end)
}
