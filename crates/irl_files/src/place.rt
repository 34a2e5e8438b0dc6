ghost use Rattle.std.specs.Prelude.{◌≡◌, ◌+◌, ◌^◌, ◌<◌, ◌≤◌, length, take, IfOk, OnOk};
ghost use Rattle.std.specs.Io.KnownBytes.{Consumes, IsAtEnd};

use std::io::{self, ErrorKind, Read, Seek, SeekFrom, Write};
use std::os::unix::fs::FileExt;

/// How often a read that is interrupted is made again.
const TRIES: u32 = 64;

/// A file from a place on, read without a move of the file's own place.
#[derive(Drop)]
struct Rest<'a, F> {
    file: &'a F,
    at: u64,
}

impl<F: FileExt> Read for Rest<'_, F> {
    fn read(&mut self, into: &mut [u8]) -> io::Result<usize> {
        let count = self.file.read_at(into, self.at)?;
        self.at = self.at.saturating_add(count as u64);
        Ok(count)
    }
}

/// Reads from a place until the slice is full or the file ends.
pub(crate) fn read_at<F: FileExt>(file: &F, at: u64, into: &mut [u8]) -> io::Result<usize>
    ensures { IfOk result (λ n. (n ≤ length into.new) × (at + n < 2 ^ 64)) }
{
    let count = fill(&mut Rest { file, at }, into)?;
    match at.checked_add(count as u64) {
        Some(_) => Ok(count),
        None => Err(ErrorKind::InvalidInput.into()),
    }
}

/// Reads until the slice is full or the reader ends.
fn fill<T: Read>(reader: &mut T, into: &mut [u8]) -> io::Result<usize>
    ensures within { IfOk result (λ n. n ≤ length into.new) }
    ensures bytes { IfOk result (λ n. Consumes (T.remaining reader.old) (T.remaining reader.new) (take n into.new)) }
    ensures ended { IfOk result (λ n. n < length into.new → IsAtEnd (T.remaining reader.new)) }
{
    let mut tries = TRIES;
    let mut filled = 0;
    while filled < into.len() {
        match reader.read(&mut into[filled..]) {
            Ok(0) => break,
            Ok(count) => filled += count,
            Err(error) if tries > 0 && error.kind() == ErrorKind::Interrupted => tries -= 1,
            Err(error) => return Err(error),
        }
    }
    Ok(filled)
}

/// Writes at a place. Bytes that would go past place 2 ^ 64 - 1 are refused, with nothing written.
pub(crate) fn write_at<F: Write + Seek>(file: &mut F, at: u64, bytes: &[u8]) -> io::Result<()>
    ensures within { OnOk result (at + length bytes.now < 2 ^ 64) }
    ensures refused { 2 ^ 64 ≤ at + length bytes.now → file.new ≡ file.old }
{
    if at.checked_add(bytes.len() as u64).is_none() {
        return Err(ErrorKind::InvalidInput.into());
    }
    file.seek(SeekFrom::Start(at))?;
    file.write_all(bytes)
}
