mod fast;
mod progress;

use fast::Fast;
use irl_http::Link;
use irl_io::Clock;
use irl_wire::{Meter, Metered, Wire};
use std::io;
use std::io::{Read, Write};
use std::net::{TcpListener, TcpStream};
use std::test::Fail;
use std::thread::{Threads, join};
use std::time::{Duration, Instant};

/// What a server does with the one connection that it takes.
#[derive(Clone, Copy, Debug, PartialEq, Eq)]
enum Server {
    /// It never answers.
    Silent,
    /// It gives a byte each tenth of a second, for as long as it may.
    Dripping,
    /// It gives a part of an answer, and then nothing more.
    Stalling,
    /// It closes without an answer.
    Empty,
    /// It gives a part of an answer, and closes.
    Closing,
    /// It gives more than was asked for, and closes.
    Generous,
    /// It closes without having read what came, so that the connection is reset.
    Resetting,
}

// How many bytes the generous server gives.
const MUCH: usize = 100_000;

// Reads the end of a request.
fn read_request(stream: &TcpStream) -> io::Result<()> {
    let mut peer = stream;
    let mut request = [0u8; 64];
    peer.read(&mut request)?;
    Ok(())
}

fn pause<R: std::time::Clock>(rt: &R, millis: u64) {
    rt.sleep(Duration::from_millis(millis));
}

fn drip<R: std::time::Clock>(rt: &R, stream: &TcpStream) -> io::Result<()> {
    let mut peer = stream;
    for _ in 0..30 {
        peer.write_all(b"x")?;
        pause(rt, 100);
    }
    Ok(())
}

fn give<R: std::time::Clock>(rt: &R, stream: &TcpStream, server: Server) -> io::Result<()> {
    let mut peer = stream;
    match server {
        Server::Silent => {
            read_request(stream)?;
            pause(rt, 600);
        }
        Server::Dripping => drip(rt, stream)?,
        Server::Stalling => {
            read_request(stream)?;
            peer.write_all(b"HTTP/1.1 200")?;
            pause(rt, 600);
        }
        Server::Empty => read_request(stream)?,
        Server::Closing => {
            read_request(stream)?;
            peer.write_all(b"HTTP/1.1 200")?;
        }
        Server::Generous => {
            read_request(stream)?;
            for _ in 0..MUCH / 100 {
                peer.write_all(&[b'a'; 100])?;
            }
        }
        Server::Resetting => pause(rt, 100),
    }
    Ok(())
}

fn serve<R: std::time::Clock>(rt: &R, listener: &TcpListener, server: Server) -> bool {
    match listener.accept() {
        Ok((stream, _)) => give(rt, &stream, server).is_ok(),
        Err(_) => false,
    }
}

/// What a fetch came to.
#[derive(Drop)]
struct Came {
    bytes: u64,
    faults: bool,
    millis: u128,
}

// One fetch: all that the peer gives, up to a fault.
fn fetch<R: std::time::Clock, L: Link>(rt: &R, link: &mut L, port: u16) -> io::Result<Came> {
    let start = Instant::now(rt)?;
    let mut bytes = 0u64;
    let mut faults = link.connect(port).is_err() || link.write(b"GET / HTTP/1.1\r\n\r\n").is_err();
    let mut into = [0u8; 4096];
    for _ in 0..100_000 {
        if faults {
            break;
        }
        match link.read(&mut into) {
            Ok(0) => break,
            Ok(count) => bytes = bytes.saturating_add(count as u64),
            Err(_) => faults = true,
        }
    }
    Ok(Came {
        bytes,
        faults,
        millis: start.elapsed(rt)?.as_millis(),
    })
}

// The server in one thread, and the fetch in another.
fn both<R: Threads + std::time::Clock + Sync, W: Link + Drop + Send>(
    rt: &R,
    listener: &TcpListener,
    wire: &mut W,
    port: u16,
    server: Server,
) -> (bool, io::Result<Came>) {
    join(
        rt,
        || serve(rt, listener, server),
        move || fetch(rt, wire, port),
    )
}

// What servers do, the least and the most bytes that come of each, whether a fault does, and within which milliseconds. For
// the link time goes faster: its 30 seconds for a call are a quarter of one, and its 120 for a fetch are one.
const SERVERS: [(Server, u64, u64, bool, u128, u128); 7] = [
    (Server::Silent, 0, 0, true, 200, 900),
    (Server::Dripping, 5, 11, true, 1_000, 1_900),
    (Server::Stalling, 12, 12, true, 200, 900),
    (Server::Empty, 0, 0, false, 0, 900),
    (Server::Closing, 12, 12, false, 0, 900),
    (Server::Generous, 100_000, 100_000, false, 0, 900),
    (Server::Resetting, 0, 0, true, 50, 900),
];

// One link makes all of these fetches, and each has its whole time anew, whatever the one before it came to.
#[test]
fn no_server_holds_a_fetch(rt: HostRuntime) -> Result<(), Fail> {
    let mut wire = Wire::new(Fast::new(&rt));
    for (server, least, most, faults, from, till) in SERVERS {
        let listener = TcpListener::bind(&rt, "127.0.0.1:0")?;
        let port = listener.local_addr()?.port();
        let (_, came) = both(&rt, &listener, &mut wire, port, server);
        let came = came?;
        assert!(rt;
            came.bytes >= least && came.bytes <= most,
            "{server:?}: {} bytes",
            came.bytes
        );
        assert_eq!(rt; came.faults, faults, "{server:?}");
        assert!(rt;
            came.millis >= from && came.millis < till,
            "{server:?}: {} ms",
            came.millis
        );
    }
    Ok(())
}

#[test]
fn a_refused_connection_is_a_fault_at_once(rt: HostRuntime) -> Result<(), Fail> {
    let port = TcpListener::bind(&rt, "127.0.0.1:0")?.local_addr()?.port();
    let mut wire = Wire::new(&rt);
    let came = fetch(&rt, &mut wire, port)?;
    assert!(rt; came.faults && came.bytes == 0 && came.millis < 900);
    // Without a connection nothing is read and nothing written.
    assert!(rt; wire.read(&mut [0u8; 8]).is_err());
    assert!(rt; wire.write(b"x").is_err());
    Ok(())
}

// Nobody takes this connection, so what is written waits in the system until its room is full.
#[test]
fn a_peer_that_reads_nothing_holds_no_write(rt: HostRuntime) -> Result<(), Fail> {
    let listener = TcpListener::bind(&rt, "127.0.0.1:0")?;
    let mut wire = Wire::new(Fast::new(&rt));
    let start = Instant::now(&rt)?;
    assert!(rt; wire.connect(listener.local_addr()?.port()).is_ok());
    let mut refused = false;
    for _ in 0..10_000 {
        refused = wire.write(&[0u8; 16_384]).is_err();
        if refused {
            break;
        }
    }
    let millis = start.elapsed(&rt)?.as_millis();
    assert!(rt; refused && millis >= 200 && millis < 1_900, "{millis} ms");
    Ok(())
}

#[test]
fn its_moments_are_those_of_the_system(rt: HostRuntime) -> Result<(), Fail> {
    let mut wire = Wire::new(&rt);
    let before = wire.now();
    // The year 2025 has begun.
    assert!(rt; before > 1_735_689_600_000);
    wire.wait_till(before.saturating_add(50));
    let after = wire.now();
    assert!(rt;
        after >= before.saturating_add(50),
        "{before} and then {after}"
    );
    wire.wait_till(before);
    assert!(rt; wire.now() >= after);
    Ok(())
}

// A link with a meter does what it does without.
#[test]
fn a_meter_that_is_off_changes_nothing(rt: HostRuntime) -> Result<(), Fail> {
    let meter = Meter::new(&rt, false);
    let listener = TcpListener::bind(&rt, "127.0.0.1:0")?;
    let port = listener.local_addr()?.port();
    let mut link = Metered::new(Wire::new(Fast::new(&rt)), &meter);
    let (_, came) = both(&rt, &listener, &mut link, port, Server::Closing);
    let came = came?;
    assert!(rt; came.bytes == 12 && !came.faults);
    let before = link.now();
    link.wait_till(before.saturating_add(20));
    assert!(rt; link.now() >= before.saturating_add(20));
    Ok(())
}
