ghost use Rattle.std.specs.Prelude.{◌≡◌, ◌≤◌, ◌++◌, length, OnOk};
ghost use Rattle.byteorder.specs.Endian.{little_bytes};

use byteorder::{ByteOrder, LittleEndian};
use std::alloc::AllocError;

/// Puts a number's eight bytes behind others, the lowest first.
pub fn push_number(bytes: &mut Vec<u8>, number: u64) -> Result<(), AllocError>
    ensures ok { OnOk result (bytes.new.items ≡ bytes.old.items ++ little_bytes 8 number) }
    ensures grows { length bytes.old.items ≤ length bytes.new.items }
{
    let mut word = [0; 8];
    LittleEndian::write_u64(&mut word, number);
    bytes.extend_from_slice(&word)?;
    Ok(())
}
