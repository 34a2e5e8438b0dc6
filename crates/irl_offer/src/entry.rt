ghost use Rattle.std.specs.Prelude.{◌≡◌, ◌+◌, ◌≤◌, ◌++◌, take, length};
ghost use Rattle.byteorder.specs.Endian.{little_bytes};
ghost use Rattle.irl_base.specs.Limits.{max_text};
ghost use Rattle.irl_offer.specs.Entries.{entry_bytes, entry_of};

use crate::{MAX_TEXT, Op};
use byteorder::{ByteOrder, LittleEndian};

/// How many bytes an entry takes.
pub const ENTRY_LEN: usize = 27;

/// An offer without its text.
#[derive(Clone, Copy, Debug, PartialEq, Eq)]
pub struct Entry {
    pub op: Op,
    /// The length of the text, in bytes: at most 2,048.
    pub aux_len: u16,
    pub key: u64,
    pub value: u64,
    pub from: u64,
}

/// The bytes of an entry: the operation (0 `Check`, 1 `Update`, 2 `Both`), the text's length in two bytes, and the key, the
/// value and the source in eight each, the lowest byte first.
pub fn encode(entry: &Entry) -> [u8; 27]
    requires { entry.now.aux_len ≤ max_text }
    ensures { result ≡ entry_bytes entry.now }
{
    let mut bytes = [entry.op.number(); ENTRY_LEN];
    put_u16(&mut bytes, 1, entry.aux_len);
    put_u64(&mut bytes, 3, entry.key);
    put_u64(&mut bytes, 11, entry.value);
    put_u64(&mut bytes, 19, entry.from);
    bytes
}

/// Writes a number of two bytes at a place.
fn put_u16(bytes: &mut [u8], at: usize, number: u16)
    requires { at + 2 ≤ length bytes.old }
    ensures { take (at + 2) bytes.new ≡ take at bytes.old ++ little_bytes 2 number }
{
    LittleEndian::write_u16(&mut bytes[at..at + 2], number);
}

/// Writes a number of eight bytes at a place.
fn put_u64(bytes: &mut [u8], at: usize, number: u64)
    requires { at + 8 ≤ length bytes.old }
    ensures { take (at + 8) bytes.new ≡ take at bytes.old ++ little_bytes 8 number }
{
    LittleEndian::write_u64(&mut bytes[at..at + 8], number);
}

/// The entry that these bytes are, or none where no entry has them: where the operation is above 2 or the text's length above
/// 2,048.
pub fn decode(bytes: &[u8; 27]) -> Option<Entry>
    ensures { result ≡ entry_of bytes.now }
{
    let aux_len = LittleEndian::read_u16(&bytes[1..]);
    if usize::from(aux_len) > MAX_TEXT {
        return None;
    }
    Some(Entry {
        op: Op::from_number(bytes[0])?,
        aux_len,
        key: LittleEndian::read_u64(&bytes[3..]),
        value: LittleEndian::read_u64(&bytes[11..]),
        from: LittleEndian::read_u64(&bytes[19..]),
    })
}
