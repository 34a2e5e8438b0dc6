ghost use Rattle.std.specs.Prelude.{◌≡◌, None, refl};
ghost use Rattle.std.proofs.Common.{ap};
ghost use Rattle.irl_fetch_tests.specs.declared.http.Pieces.{Pieces};

mod chunks;

use crate::helpers::{joined, web};
use irl_http::{Link, MemLink, read_reply, request};
use irl_io::{Clock, Failed};
use irl_offer::{Answer, Reply, Text, Want};
use std::alloc::{AllocError, Global};
use std::process::Abort;
use std::test::Fail;

/// Gives its bytes in pieces: first one of `first` bytes, then as many as there is room for up to `size`. It tells
/// nothing, and its read of a number fails.
#[derive(Drop)]
struct Pieces {
    bytes: Vec<u8>,
    at: usize,
    first: usize,
    size: usize,
    reads: u64,
    failing: u64,
    faults: u64,
}

impl Link for Pieces {
    ghost left = { λ _. None };

    ghost left_at_read = { λ _. None };

    ghost written = { λ _. None };

    ghost connections = { λ _. None };

    ghost faults = { λ s. s.faults };

    ghost clock_is_apart = { λ _ _ same. (refl, ap (λ (s : Pieces). s.faults) same, refl, refl, refl) };

    fn connect(&mut self, _port: u16) -> Result<(), Failed> {
        Ok(())
    }

    fn read(&mut self, into: &mut [u8]) -> Result<usize, Failed> {
        self.reads = self.reads.saturating_add(1);
        if self.reads == self.failing {
            self.faults = self.faults.saturating_add(1);
            return Err(Failed);
        }
        let most = if self.reads == 1 {
            self.first
        } else {
            self.size
        };
        let rest = self.bytes.get(self.at..).unwrap_or_default();
        let count = rest.len().min(into.len()).min(most);
        into[..count].copy_from_slice(&rest[..count]);
        self.at = self.at.saturating_add(count);
        Ok(count)
    }

    fn write(&mut self, _: &[u8]) -> Result<(), Failed> {
        Ok(())
    }
}

// Its clock stands still.
impl Clock for Pieces {
    ghost last = { λ _. 0 };

    ghost apart = { λ old new. new ≡ old };

    fn now(&mut self) -> u64 {
        0
    }

    fn wait_till(&mut self, _moment: u64) {}
}

/// Bytes of a connection or of a body, and what is answered.
type Case = (&'static [u8], &'static str);

/// A long connection: its start, what is repeated behind that and how often, and its end; and what is answered.
type Long = (
    &'static [u8],
    &'static [u8],
    usize,
    &'static [u8],
    Want,
    &'static str,
);

/// A location behind `>`, where there is one.
fn show_location(alloc: Global, location: &Option<Text>) -> Result<String, AllocError> {
    match location {
        Some(location) => {
            let text = String::from_utf8_lossy(alloc, location.bytes())?;
            format!(in alloc; ">{text}")
        }
        None => String::from_str(alloc, ""),
    }
}

/// A body, or its length where it is long.
fn show_body(alloc: Global, body: &[u8]) -> Result<String, AllocError> {
    if body.len() > 100 {
        return format!(in alloc; "{} bytes", body.len());
    }
    String::from_utf8_lossy(alloc, body)
}

/// A reply as its status, `html` or `other`, its location, and its body behind `|`.
fn show_reply(alloc: Global, reply: &Reply) -> Result<String, AllocError> {
    let kind = if reply.html { "html" } else { "other" };
    let location = show_location(alloc, &reply.location)?;
    let body = show_body(alloc, reply.body.bytes())?;
    format!(in alloc; "{} {kind}{location}|{body}", reply.status)
}

/// An answer in short.
fn show(alloc: Global, answer: &Answer) -> Result<String, AllocError> {
    match answer {
        Answer::Reply(reply) => show_reply(alloc, reply),
        Answer::NoReply => String::from_str(alloc, "no reply"),
        Answer::Short(n) => format!(in alloc; "short {n}"),
        Answer::BadReply(n) => format!(in alloc; "bad {n}"),
        Answer::TooLarge(n) => format!(in alloc; "large {n}"),
        Answer::Coded => String::from_str(alloc, "coded"),
    }
}

/// What is answered of a connection that gives these bytes, first so many and then in pieces of a size.
fn answered(
    alloc: Global,
    bytes: Vec<u8>,
    first: usize,
    size: usize,
    failing: u64,
    want: Want,
) -> Result<String, AllocError> {
    let mut link = Pieces {
        bytes,
        at: 0,
        first,
        size,
        reads: 0,
        failing,
        faults: 0,
    };
    let answer = read_reply(alloc, &mut link, want)?;
    show(alloc, &answer)
}

/// Asserts what is answered of cases behind a head, in pieces of a size.
fn assert_answers(
    rt: &impl Abort,
    alloc: Global,
    head: &[u8],
    cases: &[Case],
    size: usize,
) -> Result<(), Fail> {
    for (i, (bytes, expected)) in cases.iter().enumerate() {
        let bytes = joined(alloc, head, bytes, 1, b"")?;
        let answer = answered(alloc, bytes, size, size, 0, Want::Page)?;
        assert_eq!(rt; answer.as_str(), *expected, "case {i}");
    }
    Ok(())
}

/// Asserts what is answered of long connections, first so many bytes and then in pieces of a size.
fn assert_long(
    rt: &impl Abort,
    alloc: Global,
    cases: &[Long],
    first: usize,
    size: usize,
) -> Result<(), Fail> {
    for (i, (start, part, count, end, want, expected)) in cases.iter().enumerate() {
        let bytes = joined(alloc, start, part, *count, end)?;
        let answer = answered(alloc, bytes, first, size, 0, *want)?;
        assert_eq!(rt; answer.as_str(), *expected, "case {i}");
    }
    Ok(())
}

/// Asserts that each split of a connection into two reads has the same answer.
fn assert_splits(rt: &impl Abort, alloc: Global, bytes: &[u8], expected: &str) -> Result<(), Fail> {
    for first in 1..bytes.len() {
        let answer = answered(alloc, bytes.to_vec(alloc)?, first, 16_384, 0, Want::Page)?;
        assert_eq!(rt; answer.as_str(), expected, "split at {first}");
    }
    Ok(())
}

/// One case for each rule of heads and of their fields.
const CASES: [Case; 41] = [
    (
        b"HTTP/1.1 200 OK\r\nContent-Type:\r\n\r\nabc",
        "200 other|abc",
    ),
    (b"HTTP/1.1 301 Moved\r\nLocation:\r\n\r\n", "301 html>|"),
    (
        b"HTTP/1.1 200 OK\r\nContent-Length: 3 4\r\n\r\nabc",
        "bad 40",
    ),
    (b"HTTP/1.1 099 X\r\n\r\nabc", "99 html|"),
    (
        b"HTTP/1.1 200 OK\r\nContent-Length: 3\r\n\r\nab",
        "short 40",
    ),
    (
        b"HTTP/1.1 200 OK\r\nContent-Length: 3\r\n\r\nabc",
        "200 html|abc",
    ),
    (
        b"HTTP/1.1 200 OK\r\nTransfer-Encoding: chunked\r\nContent-Encoding: gzip\r\n\r\n3\r\nabc\r\n0\r\n\r\n",
        "coded",
    ),
    (b"X", "bad 1"),
    (b"", "short 0"),
    (b"\r\n\nHTTP/1.0 404\n\n", "404 html|"),
    (
        b"HTTP/1.1 200 OK\r\nContent-Length: 3\r\nContent-Length: 4\r\n\r\nabc",
        "bad 57",
    ),
    (
        b"HTTP/1.1 200 OK\r\nContent-Length: 3\r\nContent-Length: 003\r\n\r\nabc",
        "200 html|abc",
    ),
    (
        b"HTTP/1.1 200 OK\r\nContent-Length: 3, 3\r\n\r\nabc",
        "bad 41",
    ),
    (
        b"HTTP/1.1 200 OK\r\nContent-Length: 1000000000000000000\r\n\r\nabc",
        "bad 56",
    ),
    (
        b"HTTP/1.1 200 OK\r\nContent-Length: 999999999999999999\r\n\r\nabc",
        "short 58",
    ),
    (
        b"HTTP/1.1 200 OK\r\nContent-Length: 0\r\n\r\nabc",
        "200 html|",
    ),
    (b"HTTP/1.1 200 OK\r\nContent-Length: \r\n\r\nabc", "bad 37"),
    (
        b"HTTP/1.1 200 OK\r\nContent-Length: +3\r\n\r\nabc",
        "bad 39",
    ),
    (
        b"HTTP/1.1 404 Not Found\r\nContent-Length: x\r\n\r\nabc",
        "404 html|",
    ),
    (
        b"HTTP/1.1 204 No Content\r\nContent-Encoding: gzip\r\n\r\nabc",
        "204 html|",
    ),
    (
        b"HTTP/1.1 304 Not Modified\r\nContent-Length: 3\r\n\r\nabc",
        "304 html|",
    ),
    (b"HTTP/1.1 299 Fine\r\n\r\nabc", "299 html|abc"),
    (b"HTTP/1.1 300 Choices\r\n\r\nabc", "300 html|"),
    (
        b"HTTP/1.1 301 Moved\r\nX-Location: /a\r\nLOCATION:  /b \r\nLocation: /c\r\n\r\n",
        "301 html>/b|",
    ),
    (
        b"HTTP/1.1 200 OK\r\nContent-Encoding: Identity\r\n\r\nabc",
        "200 html|abc",
    ),
    (
        b"HTTP/1.1 200 OK\r\nContent-Encoding:\r\n\r\nabc",
        "200 html|abc",
    ),
    (
        b"HTTP/1.1 200 OK\r\nContent-Encoding: br\r\n\r\nabc",
        "coded",
    ),
    (
        b"HTTP/1.1 200 OK\r\nContent-Encoding: identity\r\nContent-Encoding: gzip\r\n\r\nabc",
        "coded",
    ),
    (
        b"HTTP/1.1 200 OK\r\nTransfer-Encoding: gzip, chunked\r\n\r\nabc",
        "coded",
    ),
    (
        b"HTTP/1.1 200 OK\r\nTransfer-Encoding: chunked\r\nTransfer-Encoding: chunked\r\n\r\nabc",
        "coded",
    ),
    (
        b"HTTP/1.1 200 OK\r\nTransfer-Encoding: \r\nContent-Length: x\r\n\r\nabc",
        "coded",
    ),
    (
        b"HTTP/1.1 200 OK\r\nContent-Length: x\r\nContent-Encoding: gzip\r\n\r\nabc",
        "bad 62",
    ),
    (
        b"HTTP/1.1 200 OK\r\nContent-Length: 1\r\nTransfer-Encoding: CHUNKED\r\n\r\n2;a=b\r\nab\r\n1 \r\nc\r\n00\r\nX: y\r\n",
        "200 html|abc",
    ),
    (
        b"HTTP/1.1 200 OK\r\nContent-Type: text/plain\r\n\r\nabc",
        "200 other|abc",
    ),
    (
        b"HTTP/1.1 200 OK\r\nContent-Type: TEXT/HTML ; charset=x\r\n\r\nabc",
        "200 html|abc",
    ),
    (
        b"HTTP/1.1 200 OK\r\nContent-Type: text/plain\r\nContent-Type: text/html\r\n\r\nabc",
        "200 other|abc",
    ),
    (
        b"HTTP/1.1 200 OK\r\nContent-Type: application/xhtml+xml\r\n\r\nabc",
        "200 html|abc",
    ),
    (
        b"HTTP/1.1 100 Continue\r\n\r\nHTTP/1.1 103 Early Hints\r\nLink: x\r\n\r\nHTTP/1.1 200 OK\r\n\r\nab",
        "200 html|ab",
    ),
    (b"HTTP/1.1 100 Continue\r\n\r\nHTTX", "bad 29"),
    (b"HTTP/2 200\r\n\r\n", "bad 6"),
    (b"HTTP/1.1 200 OK\r\nA b: c\r\n\r\n", "bad 19"),
];

/// Replies as servers wrote them on a loopback: nginx 1.22.1, Apache 2.4.71, the http.server of Python 3.11.7, and the first
/// two in chunks.
const SERVERS: [Case; 8] = [
    (
        b"HTTP/1.1 200 OK\r\nServer: nginx/1.22.1\r\nDate: Fri, 27 Nov 2026 17:50:39 GMT\r\nContent-Type: text/html\r\nContent-Length: 19\r\nLast-Modified: Fri, 27 Nov 2026 17:47:42 GMT\r\nConnection: close\r\nETag: \"6b09c23e-13\"\r\nAccept-Ranges: bytes\r\n\r\n<a href=\"/x\">x</a>\n",
        "200 html|<a href=\"/x\">x</a>\n",
    ),
    (
        b"HTTP/1.1 301 Moved Permanently\r\nDate: Fri, 27 Nov 2026 17:50:56 GMT\r\nServer: Apache/2.4.71 (Debian)\r\nLocation: http://a.test:18473/sub/\r\nContent-Length: 272\r\nConnection: close\r\nContent-Type: text/html; charset=iso-8859-1\r\n\r\n<!DOCTYPE HTML PUBLIC \"-//W3C//DTD HTML 4.01//EN\" \"http://www.w3.org/TR/html4/strict.dtd\">\n<html><head>\n<title>301 Moved Permanently</title>\n</head><body>\n<h1>Moved Permanently</h1>\n<p>The document has moved <a href=\"http://a.test:18473/sub/\">here</a>.</p>\n</body></html>\n",
        "301 html>http://a.test:18473/sub/|",
    ),
    (
        b"HTTP/1.0 200 OK\r\nServer: SimpleHTTP/0.6 Python/3.11.7\r\nDate: Fri, 27 Nov 2026 17:47:45 GMT\r\nContent-type: text/plain\r\nContent-Length: 9\r\nLast-Modified: Fri, 27 Nov 2026 17:47:42 GMT\r\n\r\nplain as\n",
        "200 other|plain as\n",
    ),
    (
        b"HTTP/1.1 200 OK\r\nServer: nginx/1.22.1\r\nDate: Fri, 27 Nov 2026 17:50:53 GMT\r\nContent-Type: text/html\r\nTransfer-Encoding: chunked\r\nConnection: close\r\n\r\n13\r\n<a href=\"/x\">x</a>\n\r\n0\r\n\r\n",
        "200 html|<a href=\"/x\">x</a>\n",
    ),
    (
        b"HTTP/1.1 200 OK\r\nDate: Fri, 27 Nov 2026 17:50:59 GMT\r\nServer: Apache/2.4.71 (Debian)\r\nAccept-Ranges: bytes\r\nConnection: close\r\nTransfer-Encoding: chunked\r\nContent-Type: text/html\r\n\r\n13\r\n<a href=\"/x\">x</a>\n\r\n7\r\n(none)\n\r\n0\r\n\r\n",
        "200 html|<a href=\"/x\">x</a>\n(none)\n",
    ),
    (
        b"HTTP/1.1 404 Not Found\r\nServer: nginx/1.22.1\r\nDate: Fri, 27 Nov 2026 17:50:50 GMT\r\nContent-Type: text/html\r\nContent-Length: 153\r\nConnection: close\r\n\r\n<html>\r\n<head><title>404 Not Found</title></head>\r\n<body>\r\n<center><h1>404 Not Found</h1></center>\r\n<hr><center>nginx/1.22.1</center>\r\n</body>\r\n</html>\r\n",
        "404 html|",
    ),
    (
        b"HTTP/1.1 200 OK\r\nDate: Fri, 27 Nov 2026 17:50:55 GMT\r\nServer: Apache/2.4.71 (Debian)\r\nLast-Modified: Fri, 27 Nov 2026 17:47:42 GMT\r\nETag: \"9-66145a8318e3c\"\r\nAccept-Ranges: bytes\r\nContent-Length: 9\r\nConnection: close\r\nContent-Type: text/plain\r\n\r\nplain as\n",
        "200 other|plain as\n",
    ),
    (
        b"HTTP/1.0 301 Moved Permanently\r\nServer: SimpleHTTP/0.6 Python/3.11.7\r\nDate: Fri, 27 Nov 2026 17:47:45 GMT\r\nLocation: /sub/\r\nContent-Length: 0\r\n\r\n",
        "301 html>/sub/|",
    ),
];

#[test]
fn replies_are_read(rt: HostRuntime) -> Result<(), Fail> {
    assert_answers(&rt, rt.alloc(), b"", &CASES, 16_384)?;
    assert_answers(&rt, rt.alloc(), b"", &CASES, 1)
}

#[test]
fn every_split_answers_alike(rt: HostRuntime) -> Result<(), Fail> {
    for (bytes, expected) in SERVERS {
        assert_splits(&rt, rt.alloc(), bytes, expected)?;
    }
    Ok(())
}

/// The limits of heads.
const HEADS: [Long; 14] = [
    (
        b"HTTP/1.1 404 No\r\na: ",
        b"b",
        16_360,
        b"\r\n\r\n",
        Want::Page,
        "404 html|",
    ),
    (
        b"HTTP/1.1 404 No\r\na: ",
        b"b",
        16_361,
        b"\r\n\r\n",
        Want::Page,
        "large 16385",
    ),
    (
        b"HTTP/1.1 200 OK\r\n",
        b"a: b\r\n",
        65,
        b"\r\n",
        Want::Page,
        "large 407",
    ),
    (
        b"HTTP/1.1 200 OK\r\n",
        b"a: b\r\n",
        64,
        b"\r\nab",
        Want::Page,
        "200 html|ab",
    ),
    (
        b"HTTP/1.1 100 C\r\n",
        b"a: b\r\n",
        65,
        b"\r\n",
        Want::Page,
        "large 406",
    ),
    (
        b"HTTP/1.1 200 OK\r\na: ",
        b"b",
        16_385,
        b"",
        Want::Page,
        "large 16385",
    ),
    (
        b"HTTP/1.1 200 OK\r\na: ",
        b"b",
        16_360,
        b"\r\n\r\nab",
        Want::Page,
        "200 html|ab",
    ),
    (
        b"HTTP/1.1 200 OK\r\na: ",
        b"b",
        16_361,
        b"\r\n\r\nab",
        Want::Page,
        "large 16385",
    ),
    (
        b"HTTP/1.1 200 OK\r\na: ",
        b"b",
        16_364,
        b"\x01",
        Want::Page,
        "bad 16385",
    ),
    (
        b"HTTP/1.1 100 C\r\na: ",
        b"b",
        16_361,
        b"\r\n\r\n",
        Want::Page,
        "short 16384",
    ),
    (
        b"HTTP/1.1 100 C\r\na: ",
        b"b",
        16_361,
        b"\r\n\r\nX",
        Want::Page,
        "bad 16385",
    ),
    (
        b"HTTP/1.1 100 C\r\na: ",
        b"b",
        16_362,
        b"\r\n\r\n",
        Want::Page,
        "large 16385",
    ),
    (
        b"",
        b"HTTP/1.1 100 Continue\r\n\r\n",
        656,
        b"",
        Want::Page,
        "large 16385",
    ),
    (b"", b"\n", 66, b"HTTP", Want::Page, "large 66"),
];

/// A long head, interim replies and chunks of one byte, which come byte by byte.
const BYTES: [Long; 3] = [
    (
        b"HTTP/1.1 200 OK\r\na: ",
        b"b",
        4_000,
        b"\r\n\r\nab",
        Want::Page,
        "200 html|ab",
    ),
    (
        b"",
        b"HTTP/1.1 100 Continue\r\n\r\n",
        654,
        b"HTTP/1.1 404 No\r\n\r\n",
        Want::Page,
        "404 html|",
    ),
    (
        b"HTTP/1.1 200 OK\r\nTransfer-Encoding: chunked\r\n\r\n",
        b"1\r\na\r\n",
        4_000,
        b"0\r\n",
        Want::Page,
        "200 html|4000 bytes",
    ),
];

/// Many bytes at once.
const PART: &[u8] = b"aaaaaaaaaaaaaaaaaaaaaaaaaaaaaaaaaaaaaaaaaaaaaaaaaaaaaaaaaaaaaaaa";

/// The limits of bodies.
const BODIES: [Long; 7] = [
    (
        b"HTTP/1.1 200 OK\r\n\r\n",
        PART,
        16_384,
        b"",
        Want::Page,
        "200 html|1048576 bytes",
    ),
    (
        b"HTTP/1.1 200 OK\r\n\r\n",
        PART,
        16_384,
        b"a",
        Want::Page,
        "large 1048596",
    ),
    (
        b"HTTP/1.1 200 OK\r\n\r\n",
        PART,
        9_000,
        b"",
        Want::Robots,
        "200 html|512000 bytes",
    ),
    (
        b"HTTP/1.1 200 OK\r\nContent-Length: 1048577\r\n\r\n",
        PART,
        16_384,
        b"",
        Want::Page,
        "short 1048620",
    ),
    (
        b"HTTP/1.1 200 OK\r\nContent-Length: 1048577\r\n\r\n",
        PART,
        16_384,
        b"a",
        Want::Page,
        "large 1048621",
    ),
    (
        b"HTTP/1.1 200 OK\r\nContent-Length: 512000\r\n\r\n",
        PART,
        8_000,
        b"",
        Want::Robots,
        "200 html|512000 bytes",
    ),
    (
        b"HTTP/1.1 200 OK\r\nContent-Length: 512001\r\n\r\n",
        PART,
        8_000,
        b"a",
        Want::Robots,
        "200 html|512000 bytes",
    ),
];

#[test]
fn limits_of_heads_hold(rt: HostRuntime) -> Result<(), Fail> {
    for (first, size) in [(16_384, 16_384), (1_000, 1_000), (16_300, 1)] {
        assert_long(&rt, rt.alloc(), &HEADS, first, size)?;
    }
    Ok(())
}

#[test]
fn long_replies_come_byte_by_byte(rt: HostRuntime) -> Result<(), Fail> {
    assert_long(&rt, rt.alloc(), &BYTES, 1, 1)
}

#[test]
fn limits_of_bodies_hold(rt: HostRuntime) -> Result<(), Fail> {
    assert_long(&rt, rt.alloc(), &BODIES, 10_000, 10_000)
}

/// How many bytes of a reply the first read gives, and the number of the read that fails: behind a whole head and a byte
/// of its body, within the head, and at the end of the body.
const FAILURES: [(usize, u64); 3] = [(19, 3), (3, 2), (25, 2)];

#[test]
fn failures_are_answered(rt: HostRuntime) -> Result<(), Fail> {
    for (first, failing) in FAILURES {
        let bytes = b"HTTP/1.1 200 OK\r\n\r\nabcdef".to_vec(rt.alloc())?;
        let answer = answered(rt.alloc(), bytes, first, 1, failing, Want::Page)?;
        assert_eq!(rt; answer.as_str(), "no reply", "read {failing}");
    }
    Ok(())
}

/// The request for a page.
fn asked(alloc: Global) -> Result<Text, AllocError> {
    request(alloc, &web(alloc, b"http://a.test:81/p?q#f")?, b"irl")
}

#[test]
fn requests_are_written(rt: HostRuntime) -> Result<(), Fail> {
    let bytes =
        b"GET /p?q HTTP/1.1\r\nHost: a.test:81\r\nUser-Agent: irl\r\nAccept-Encoding: identity\r\nConnection: close\r\n\r\n";
    assert_eq!(rt; asked(rt.alloc())?.bytes(), bytes.as_slice());
    Ok(())
}

/// A link with three peers, of which a call fails.
fn peers(alloc: Global, failing: u64) -> Result<MemLink, AllocError> {
    let mut peers = Vec::new(alloc);
    peers.push(Text::from_bytes(alloc, b"HTTP/1.1 404 No\r\n\r\n")?)?;
    for _ in 0..2 {
        peers.push(Text::from_bytes(alloc, b"HTTP/1.1 200 OK\r\n\r\nab")?)?;
    }
    let mut calls = Vec::new(alloc);
    calls.push(failing)?;
    Ok(MemLink::new(alloc, peers, calls))
}

/// What the next peer answers.
fn exchange(alloc: Global, link: &mut MemLink) -> Result<String, AllocError> {
    if link.connect(80).is_err() {
        return String::from_str(alloc, "no connection");
    }
    if link.write(b"asked").is_err() {
        return String::from_str(alloc, "not written");
    }
    let answer = read_reply(alloc, link, Want::Page)?;
    show(alloc, &answer)
}

/// Whether this, and no more, was written on a connection that was made.
fn is_written(link: &MemLink, i: u64, expected: &[u8]) -> bool {
    match link.written(i) {
        Some(bytes) => bytes == expected,
        None => false,
    }
}

#[test]
fn memory_links_answer(rt: HostRuntime) -> Result<(), Fail> {
    let mut link = peers(rt.alloc(), 5)?;
    assert_eq!(rt; link.write(b"x"), Err(Failed));
    for expected in ["404 html|", "not written", "200 html|ab", "no connection"] {
        let answer = exchange(rt.alloc(), &mut link)?;
        assert_eq!(rt; answer.as_str(), expected);
    }
    assert!(rt; is_written(&link, 1, b""));
    assert!(rt; is_written(&link, 2, b"asked"));
    assert!(rt; !is_written(&link, 3, b""));
    Ok(())
}

#[test]
fn clocks_of_memory_links_go_on(rt: HostRuntime) -> Result<(), Fail> {
    let mut link = peers(rt.alloc(), 5)?;
    link.wait_till(7);
    link.wait_till(5);
    assert_eq!(rt; link.now(), 7);
    Ok(())
}
