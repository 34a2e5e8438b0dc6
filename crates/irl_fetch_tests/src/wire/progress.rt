//! The line of progress.

ghost use Rattle.std.specs.Prelude.{◌≡◌, None, refl};
ghost use Rattle.std.proofs.Common.{ap};

use irl_http::Link;
use irl_io::{Clock, Failed, MemSink, Sink};
use irl_wire::{Cleared, Meter, Metered};
use std::alloc::Global;
use std::cell::Cell;
use std::fmt::Display;
use std::io;
use std::io::Eprint;
use std::test::Fail;
use std::time::Duration;

/// A terminal that keeps what is written on it, and a clock that is set.
#[derive(Drop)]
struct Terminal {
    alloc: Global,
    millis: Cell<u64>,
    written: Cell<String>,
}

impl Terminal {
    fn new(alloc: Global) -> Terminal {
        Terminal {
            alloc,
            millis: Cell::new(0),
            written: Cell::new(String::new(alloc)),
        }
    }

    // What was written since it was last asked for.
    fn take(&self) -> String {
        self.written.replace(String::new(self.alloc))
    }
}

impl Eprint for Terminal {
    fn eprint<D: Display + Drop>(&self, value: D) -> io::Result<()> {
        let text = format!(in self.alloc; "{value}")?;
        let mut written = self.take();
        written.push_str(&text)?;
        self.written.replace(written);
        Ok(())
    }

    fn eprintln<D: Display + Drop>(&self, value: D) -> io::Result<()> {
        self.eprint(value)
    }
}

impl std::time::Clock for Terminal {
    fn monotonic(&self) -> io::Result<Duration> {
        Ok(Duration::from_millis(self.millis.get()))
    }

    fn since_1970(&self) -> io::Result<Duration> {
        self.monotonic()
    }
}

/// A link that fills each read, whatever is asked.
#[derive(Drop)]
struct Endless;

impl Link for Endless {
    ghost left = { λ _. None };

    ghost left_at_read = { λ _. None };

    ghost written = { λ _. None };

    ghost connections = { λ _. None };

    ghost faults = { λ _. 0 };

    ghost clock_is_apart = { λ _ _ _. (refl, refl, refl, refl, refl) };

    fn connect(&mut self, _port: u16) -> Result<(), Failed> {
        Ok(())
    }

    fn read(&mut self, into: &mut [u8]) -> Result<usize, Failed> {
        Ok(into.len())
    }

    fn write(&mut self, _: &[u8]) -> Result<(), Failed> {
        Ok(())
    }
}

// Its clock stands still.
impl Clock for Endless {
    ghost last = { λ _. 0 };

    ghost apart = { λ old new. new ≡ old };

    fn now(&mut self) -> u64 {
        0
    }

    fn wait_till(&mut self, _moment: u64) {}
}

// Reads so many bytes.
fn read<L: Link>(alloc: Global, link: &mut L, count: usize) -> Result<(), Fail> {
    let mut into = vec![in alloc; 0u8; count]?;
    link.read(&mut into)?;
    Ok(())
}

// Fetches so much by a link, of which the last fetch goes on, and then comes to the end of an answer at a moment.
fn fetch_all<L: Link>(
    alloc: Global,
    link: &mut L,
    terminal: &Terminal,
    (fetches, bytes, millis): (u64, u64, u64),
) -> Result<(), Fail> {
    for _ in 0..=fetches {
        link.connect(80)?;
    }
    for _ in 0..bytes / 1_048_576 {
        read(alloc, link, 1_048_576)?;
    }
    read(alloc, link, (bytes % 1_048_576) as usize)?;
    terminal.millis.set(millis);
    link.read(&mut [])?;
    Ok(())
}

// What was fetched, bytes and milliseconds, and the line of them.
const LINES: [((u64, u64, u64), &str); 4] = [
    ((0, 0, 500), "0 fetched, 0 a second, 0.0 MiB, 0:00"),
    ((7, 104_858, 500), "7 fetched, 14 a second, 0.1 MiB, 0:00"),
    (
        (1_000, 11_000_000, 61_000),
        "1000 fetched, 16 a second, 10.4 MiB, 1:01",
    ),
    (
        (90_000, 2_147_483_648, 3_600_000),
        "90000 fetched, 25 a second, 2048.0 MiB, 60:00",
    ),
];

#[test]
fn a_line_of_progress(rt: HostRuntime) -> Result<(), Fail> {
    let alloc = rt.alloc();
    for (counts, expected) in LINES {
        let terminal = Terminal::new(alloc);
        let meter = Meter::new(&terminal, true);
        fetch_all(alloc, &mut Metered::new(Endless, &meter), &terminal, counts)?;
        let wanted = format!(in alloc; "\r{expected}\x1b[K")?;
        assert_eq!(rt; terminal.take().as_str(), wanted.as_str());
    }
    Ok(())
}

// Moments of reads, and whether a line comes of each: half a second behind the one before it at least.
const MOMENTS: [(u64, bool); 6] = [
    (499, false),
    (500, true),
    (500, false),
    (999, false),
    (1_250, true),
    (1_749, false),
];

#[test]
fn lines_are_half_a_second_apart(rt: HostRuntime) -> Result<(), Fail> {
    let terminal = Terminal::new(rt.alloc());
    let meter = Meter::new(&terminal, true);
    let mut link = Metered::new(Endless, &meter);
    for (moment, is_shown) in MOMENTS {
        terminal.millis.set(moment);
        link.read(&mut [])?;
        assert_eq!(rt; !terminal.take().is_empty(), is_shown, "at {moment}");
    }
    Ok(())
}

// What is written on a terminal by a meter, and by a sink with two lines.
fn shown(alloc: Global, is_on: bool) -> Result<String, Fail> {
    let terminal = Terminal::new(alloc);
    let meter = Meter::new(&terminal, is_on);
    let mut link = Metered::new(Endless, &meter);
    fetch_all(alloc, &mut link, &terminal, (1, 5, 1_000))?;
    let mut sink = Cleared::new(MemSink::new(alloc, Vec::new(alloc)), &meter);
    sink.write(b"a line\n")?;
    sink.write(b"another\n")?;
    meter.clear();
    Ok(terminal.take())
}

// The sink takes the line away, once. A meter that is off writes nothing.
#[test]
fn a_line_is_taken_away(rt: HostRuntime) -> Result<(), Fail> {
    for (is_on, expected) in [
        (true, "\r1 fetched, 1 a second, 0.0 MiB, 0:01\x1b[K\r\x1b[K"),
        (false, ""),
    ] {
        let shown = shown(rt.alloc(), is_on)?;
        assert_eq!(rt; shown.as_str(), expected);
    }
    Ok(())
}
