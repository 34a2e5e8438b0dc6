//! A system on which time goes faster.

use std::io;
use std::io::{Read, Write};
use std::net::{Net, OpenListener, OpenStream, SocketAddr};
use std::os::fd::{AsRawFd, RawFd};
use std::time::Duration;

/// How many times as fast: 30 seconds are a quarter of one, and 120 seconds are one.
const PACE: u32 = 120;

/// The connections of a system, with its time faster: by the monotonic clock, and where a call has a limit.
#[derive(Drop)]
pub struct Fast<'a, R> {
    rt: &'a R,
}

impl<'a, R> Fast<'a, R> {
    /// The same system, faster.
    pub fn new(rt: &'a R) -> Fast<'a, R> {
        Fast { rt }
    }
}

impl<R: std::time::Clock> std::time::Clock for Fast<'_, R> {
    fn monotonic(&self) -> io::Result<Duration> {
        Ok(self.rt.monotonic()?.saturating_mul(PACE))
    }

    fn since_1970(&self) -> io::Result<Duration> {
        self.rt.since_1970()
    }

    fn sleep(&self, duration: Duration) {
        self.rt.sleep(duration)
    }
}

impl<R: Net> Net for Fast<'_, R> {
    type Stream = FastStream<R::Stream>;

    type Listener = FastListener<R::Listener>;

    fn bind(&self, addr: SocketAddr) -> io::Result<FastListener<R::Listener>> {
        Ok(FastListener {
            listener: self.rt.bind(addr)?,
        })
    }

    fn connect(&self, addr: SocketAddr) -> io::Result<FastStream<R::Stream>> {
        Ok(FastStream {
            stream: self.rt.connect(addr)?,
        })
    }

    fn connect_timeout(
        &self,
        addr: SocketAddr,
        timeout: Duration,
    ) -> io::Result<FastStream<R::Stream>> {
        Ok(FastStream {
            stream: self.rt.connect_timeout(addr, timeout / PACE)?,
        })
    }
}

/// A connection, each limit of which comes sooner.
#[derive(Drop)]
pub struct FastStream<S> {
    stream: S,
}

impl<S: Read> Read for FastStream<S> {
    fn read(&mut self, buf: &mut [u8]) -> io::Result<usize> {
        self.stream.read(buf)
    }
}

impl<S: Write> Write for FastStream<S> {
    fn write(&mut self, buf: &[u8]) -> io::Result<usize> {
        self.stream.write(buf)
    }

    fn flush(&mut self) -> io::Result<()> {
        self.stream.flush()
    }
}

impl<S: OpenStream> OpenStream for FastStream<S> {
    fn set_nodelay(&self, nodelay: bool) -> io::Result<()> {
        self.stream.set_nodelay(nodelay)
    }

    fn set_read_timeout(&self, dur: Option<Duration>) -> io::Result<()> {
        self.stream.set_read_timeout(sooner(dur))
    }

    fn set_write_timeout(&self, dur: Option<Duration>) -> io::Result<()> {
        self.stream.set_write_timeout(sooner(dur))
    }
}

impl<S: AsRawFd> AsRawFd for FastStream<S> {
    fn as_raw_fd(&self) -> RawFd {
        self.stream.as_raw_fd()
    }
}

// A limit of at least a millisecond.
fn sooner(limit: Option<Duration>) -> Option<Duration> {
    Some((limit? / PACE).max(Duration::from_millis(1)))
}

/// What listens for such connections.
#[derive(Drop)]
pub struct FastListener<L> {
    listener: L,
}

impl<L: OpenListener> OpenListener for FastListener<L> {
    type Stream = FastStream<L::Stream>;

    fn accept(&self) -> io::Result<(FastStream<L::Stream>, SocketAddr)> {
        let (stream, addr) = self.listener.accept()?;
        Ok((FastStream { stream }, addr))
    }
}

impl<L: AsRawFd> AsRawFd for FastListener<L> {
    fn as_raw_fd(&self) -> RawFd {
        self.listener.as_raw_fd()
    }
}
