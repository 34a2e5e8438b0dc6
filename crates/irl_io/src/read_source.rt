ghost use Rattle.std.specs.Prelude.{◌≡◌};
ghost use Rattle.irl_io.specs.Adapter.{reader_of, read_faults};

use crate::source::{Failed, Source};
use std::io::{ErrorKind, Read};

/// How often a call that is interrupted is made.
pub(crate) const TRIES: u32 = 64;

/// A source over a reader of std. It tells what the reader tells, and counts each of its errors as a fault. A read
/// that was interrupted is made again, up to a bound.
#[derive(Drop)]
pub struct ReadSource<T> {
    reader: T,
    faults: u64,
}

impl<T> ReadSource<T> {
    /// A source over this reader.
    pub fn new(reader: T) -> ReadSource<T>
        ensures reader { reader_of result ≡ reader }
        ensures faults { read_faults result ≡ 0 }
    {
        ReadSource { reader, faults: 0 }
    }
}

impl<T: Read> Source for ReadSource<T> {
    ghost left = { λ s. T.remaining (reader_of s) };

    ghost faults = { λ s. read_faults s };

    fn read(&mut self, into: &mut [u8]) -> Result<usize, Failed> {
        for _ in 0..TRIES {
            match self.reader.read(into) {
                Ok(count) => return Ok(count),
                Err(error) => {
                    self.faults = self.faults.saturating_add(1);
                    if error.kind() != ErrorKind::Interrupted {
                        return Err(Failed);
                    }
                }
            }
        }
        Err(Failed)
    }
}
