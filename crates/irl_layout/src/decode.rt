ghost use Rattle.std.specs.Prelude.{◌≡◌, ◌≤◌, ◌+◌, ◌*◌, length, IfOk, IfSome, IsNone};
ghost use Rattle.irl_layout.specs.Commits.{Commit as CommitValue, IsCommit, sides_byte, commit_bytes, numbers_in};

use crate::commit::Commit;
use byteorder::{ByteOrder, LittleEndian};
use std::alloc::{AllocError, Global};

impl Commit {
    /// The commit of a bay of so many buckets whose record has these bytes, or none where no commit has them.
    pub fn decode(alloc: Global, bytes: &[u8], buckets: u32) -> Result<Option<Commit>, AllocError>
        ensures found { IfOk result (λ found. IfSome found (λ commit. IsCommit buckets commit
            × (bytes.now ≡ commit_bytes commit))) }
        ensures none { IfOk result (λ found. IsNone found → (commit : CommitValue) → IsCommit buckets commit →
            bytes.now ≡ commit_bytes commit → ⊥) }
    {
        if bytes.len() != 33 + 8 * buckets as usize || bytes[0] > 5 {
            return Ok(None);
        }
        let (side, live) = sides(bytes[0]);
        Ok(Some(Commit {
            side,
            live,
            entries: LittleEndian::read_u64(&bytes[1..]),
            judged: LittleEndian::read_u64(&bytes[9..]),
            unique: LittleEndian::read_u64(&bytes[17..]),
            texts: LittleEndian::read_u64(&bytes[25..]),
            cut: numbers(alloc, &bytes[33..], buckets)?,
        }))
    }
}

// The live side of the cache, and that of the buckets' files, of which this byte is.
fn sides(byte: u8) -> (u8, Option<u8>)
    requires { byte ≤ 5 }
    ensures byte { sides_byte result.0 result.1 ≡ byte }
    ensures side { result.0 ≤ 1 }
    ensures live { IfSome result.1 (λ side. side ≤ 1) }
{
    if byte < 2 {
        (byte, None)
    } else {
        (byte % 2, Some((byte - 2) / 2))
    }
}

// So many numbers, which stand one behind the other.
fn numbers(alloc: Global, bytes: &[u8], count: u32) -> Result<Vec<u64>, AllocError>
    requires { 8 * count ≤ length bytes.now }
    ensures { IfOk result (λ numbers. numbers.items ≡ numbers_in count bytes.now) }
{
    let mut numbers = Vec::new(alloc);
    for i in 0..count as usize {
        numbers.push(LittleEndian::read_u64(&bytes[8 * i..]))?;
    }
    Ok(numbers)
}
