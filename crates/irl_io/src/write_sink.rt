ghost use Rattle.std.specs.Prelude.{◌≡◌, List, ℕ, Option};
ghost use Rattle.irl_base.specs.Faults.{counted};
ghost use Rattle.irl_io.specs.Adapter.{writer_of, write_faults};

use crate::read_source::TRIES;
use crate::sink::Sink;
use crate::source::Failed;
use std::io::{ErrorKind, Write};

/// A sink over a writer of std. It tells what the writer tells, and counts each of its errors as a fault, and each time
/// that the writer took nothing. A write that was interrupted is made again, up to a bound. The writer is flushed after
/// each piece, so pieces should be large.
#[derive(Drop)]
pub struct WriteSink<T> {
    writer: T,
    faults: u64,
}

impl<T> WriteSink<T> {
    /// A sink over this writer.
    pub fn new(writer: T) -> WriteSink<T>
        ensures writer { writer_of result ≡ writer }
        ensures faults { write_faults result ≡ 0 }
    {
        WriteSink { writer, faults: 0 }
    }

    /// Counts a fault.
    fn count_fault(&mut self)
        ensures { self.new ≡ record self.old { faults = counted self.old.faults } }
    {
        self.faults = self.faults.saturating_add(1);
    }
}

impl<T: Write> Sink for WriteSink<T> {
    ghost written = { λ s. T.contents (writer_of s) };

    ghost faults = { λ s. write_faults s };

    fn write(&mut self, bytes: &[u8]) -> Result<(), Failed> {
        let mut tries = TRIES;
        let mut taken = 0;
        while taken < bytes.len() {
            match self.writer.write(&bytes[taken..]) {
                Ok(count) if count > 0 => taken += count,
                Err(error) if tries > 0 && error.kind() == ErrorKind::Interrupted => {
                    self.count_fault();
                    tries -= 1;
                }
                _ => {
                    self.count_fault();
                    return Err(Failed);
                }
            }
        }
        if self.writer.flush().is_err() {
            self.count_fault();
            return Err(Failed);
        }
        Ok(())
    }
}
