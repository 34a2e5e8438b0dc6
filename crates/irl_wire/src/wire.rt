ghost use Rattle.std.specs.Prelude.{◌≡◌, None};
ghost use Rattle.std.specs.Io.{ReadsAtMost};
ghost use Rattle.std.proofs.Common.{refl};
ghost use Rattle.std.specs.Prelude.{IsErr, MatchResult, Ok};
ghost use Rattle.irl_base.specs.Faults.{HasCause};

use crate::limits::Limits;
use irl_http::Link;
use irl_io::{Clock, Failed};
use std::io;
use std::io::{Read, Write};
use std::net::{IpAddr, Ipv4Addr, Net, OpenStream, SocketAddr, TcpStream};
use std::time::{Duration, Instant};

/// How often a read that is broken off is made again.
const TRIES: u32 = 64;

/// A link to 127.0.0.1, and the system's clock. It tells no content, and counts each call that failed.
///
/// A fetch has 30 seconds for its connect and for each read, and 120 seconds from its connect on: past them a call is a fault,
/// whatever the peer does. Its moments are milliseconds since 1970; where the clock can't be read or went back it gives its last
/// moment again.
#[derive(Drop)]
pub struct Wire<R: Net> {
    rt: R,
    limits: Limits,
    connection: Option<Connected<R::Stream>>,
    faults: u64,
    last: u64,
}

// A connection, and when it was begun, by the monotonic clock.
#[derive(Drop)]
struct Connected<T> {
    stream: T,
    began: Instant,
}

impl<R: Net + std::time::Clock + Drop> Wire<R> {
    /// A link without a connection. It takes no memory.
    pub fn new(rt: R) -> Wire<R> {
        Wire::with_limits(rt, Limits::of_fetches())
    }

    // The same with other limits.
    pub(crate) fn with_limits(rt: R, limits: Limits) -> Wire<R> {
        Wire {
            rt,
            limits,
            connection: None,
            faults: 0,
            last: 0,
        }
    }

    // Counts a fault where the system refused.
    fn end<T>(&mut self, answer: io::Result<T>) -> Result<T, Failed>
        ensures value { MatchResult answer (λ value. result ≡ Ok value) (λ _. IsErr result) }
        ensures cause { HasCause (IsErr result) self.old.faults self.new.faults }
        ensures last { self.new.last ≡ self.old.last }
    {
        match answer {
            Ok(value) => Ok(value),
            Err(_) => {
                self.faults = self.faults.saturating_add(1);
                Err(Failed)
            }
        }
    }
}

// A connection to this port.
fn open<R: Net + std::time::Clock>(
    rt: &R,
    limits: &Limits,
    port: u16,
) -> io::Result<Connected<R::Stream>> {
    let began = Instant::now(rt)?;
    let peer = SocketAddr::new(IpAddr::V4(Ipv4Addr::new(127, 0, 0, 1)), port);
    let stream = TcpStream::connect_timeout(rt, &peer, left(limits, Duration::ZERO)?)?;
    stream.set_nodelay(true)?;
    Ok(Connected { stream, began })
}

// How long the next call may take.
fn left(limits: &Limits, gone: Duration) -> io::Result<Duration> {
    match limits.left(gone) {
        Some(left) => Ok(left),
        None => Err(io::Error::from(io::ErrorKind::TimedOut)),
    }
}

impl<T: OpenStream + Read + Write> Connected<T> {
    // Reads what comes next, for as long as is left. Where a signal breaks a read off, as one that lets a stopped program
    // go on, it is made again.
    fn read<R: std::time::Clock>(
        &mut self,
        rt: &R,
        limits: &Limits,
        into: &mut [u8],
    ) -> io::Result<usize>
        ensures { ReadsAtMost result into.new }
    {
        for _ in 0..TRIES {
            match self.read_once(rt, limits, into) {
                Err(error) if error.kind() == io::ErrorKind::Interrupted => {}
                answer => return answer,
            }
        }
        self.read_once(rt, limits, into)
    }

    fn read_once<R: std::time::Clock>(
        &mut self,
        rt: &R,
        limits: &Limits,
        into: &mut [u8],
    ) -> io::Result<usize>
        ensures { ReadsAtMost result into.new }
    {
        let left = left(limits, self.began.elapsed(rt)?)?;
        self.stream.set_read_timeout(Some(left))?;
        self.stream.read(into)
    }

    // Writes a piece, each part of it for as long as is left.
    fn write<R: std::time::Clock>(
        &mut self,
        rt: &R,
        limits: &Limits,
        bytes: &[u8],
    ) -> io::Result<()> {
        let left = left(limits, self.began.elapsed(rt)?)?;
        self.stream.set_write_timeout(Some(left))?;
        self.stream.write_all(bytes)
    }
}

impl<R: Net + std::time::Clock + Drop> Link for Wire<R> {
    ghost left = { λ _. None };

    ghost left_at_read = { λ _. None };

    ghost written = { λ _. None };

    ghost connections = { λ _. None };

    ghost faults = { λ wire. wire.faults };

    ghost clock_is_apart = { λ _ _ same. (refl, same, refl, refl, refl) };

    fn connect(&mut self, port: u16) -> Result<(), Failed> {
        self.connection = None;
        let made = open(&self.rt, &self.limits, port);
        let connected = self.end(made)?;
        self.connection = Some(connected);
        Ok(())
    }

    fn read(&mut self, into: &mut [u8]) -> Result<usize, Failed> {
        let answer = match &mut self.connection {
            Some(connected) => connected.read(&self.rt, &self.limits, into),
            None => Err(io::Error::from(io::ErrorKind::NotConnected)),
        };
        self.end(answer)
    }

    fn write(&mut self, bytes: &[u8]) -> Result<(), Failed> {
        let answer = match &mut self.connection {
            Some(connected) => connected.write(&self.rt, &self.limits, bytes),
            None => Err(io::Error::from(io::ErrorKind::NotConnected)),
        };
        self.end(answer)
    }
}

impl<R: Net + std::time::Clock + Drop> Clock for Wire<R> {
    ghost last = { λ wire. wire.last };

    ghost apart = { λ old new. new.faults ≡ old.faults };

    fn now(&mut self) -> u64 {
        if let Ok(since) = self.rt.since_1970() {
            let moment = u64::try_from(since.as_millis()).unwrap_or(self.last);
            self.last = self.last.max(moment);
        }
        self.last
    }

    fn wait_till(&mut self, moment: u64) {
        let now = self.now();
        if let Some(left) = moment.checked_sub(now) {
            self.rt.sleep(Duration::from_millis(left));
        }
    }
}
