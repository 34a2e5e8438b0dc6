ghost use Rattle.std.specs.Prelude.{◌≡◌};

use crate::meter::Meter;
use irl_http::Link;
use irl_io::{Clock, Failed, Sink};
use std::io::Eprint;

/// A link whose fetches and bytes a meter counts. It tells what its link tells.
#[derive(Drop)]
pub struct Metered<'a, L, R> {
    link: L,
    meter: &'a Meter<R>,
    is_open: bool,
}

impl<'a, L, R> Metered<'a, L, R> {
    /// The same link, with this meter.
    pub fn new(link: L, meter: &'a Meter<R>) -> Metered<'a, L, R>
        ensures { result.link ≡ link }
    {
        Metered {
            link,
            meter,
            is_open: false,
        }
    }
}

impl<'a, L: Link, R: Eprint + std::time::Clock + Drop> Link for Metered<'a, L, R> {
    ghost left = { λ m. L.left m.link };

    ghost left_at_read = { λ m. L.left_at_read m.link };

    ghost written = { λ m. L.written m.link };

    ghost connections = { λ m. L.connections m.link };

    ghost faults = { λ m. L.faults m.link };

    ghost clock_is_apart = { λ x y. L.clock_is_apart x.link y.link };

    fn connect(&mut self, port: u16) -> Result<(), Failed> {
        if self.is_open {
            self.meter.count_fetch();
        }
        self.is_open = true;
        self.link.connect(port)
    }

    fn read(&mut self, into: &mut [u8]) -> Result<usize, Failed> {
        let answer = self.link.read(into);
        if let Ok(count) = answer {
            self.meter.count_bytes(count);
        }
        answer
    }

    fn write(&mut self, bytes: &[u8]) -> Result<(), Failed> {
        self.link.write(bytes)
    }
}

impl<'a, L: Link, R: Eprint + std::time::Clock + Drop> Clock for Metered<'a, L, R> {
    ghost last = { λ m. L.last m.link };

    ghost apart = { λ old new. L.apart old.link new.link };

    fn now(&mut self) -> u64 {
        self.link.now()
    }

    fn wait_till(&mut self, moment: u64) {
        self.link.wait_till(moment);
    }
}

/// A sink to the terminal on which a meter may have its line: that is taken away before each write. It tells what its
/// sink tells.
#[derive(Drop)]
pub struct Cleared<'a, S, R> {
    sink: S,
    meter: &'a Meter<R>,
}

impl<'a, S, R> Cleared<'a, S, R> {
    /// The same sink, with this meter's line taken away.
    pub fn new(sink: S, meter: &'a Meter<R>) -> Cleared<'a, S, R>
        ensures { result.sink ≡ sink }
    {
        Cleared { sink, meter }
    }
}

impl<'a, S: Sink, R: Eprint + std::time::Clock + Drop> Sink for Cleared<'a, S, R> {
    ghost written = { λ c. S.written c.sink };

    ghost faults = { λ c. S.faults c.sink };

    fn write(&mut self, bytes: &[u8]) -> Result<(), Failed> {
        self.meter.clear();
        self.sink.write(bytes)
    }
}
