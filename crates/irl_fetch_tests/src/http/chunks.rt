use super::{Case, Long, PART, assert_answers, assert_long};
use irl_offer::Want;
use std::test::Fail;

/// A head of 47 bytes, behind which a body in chunks stands.
const HEAD: &[u8] = b"HTTP/1.1 200 OK\r\nTransfer-Encoding: chunked\r\n\r\n";

/// The same with the first chunk's size and the `;` behind it.
const NAMED: &[u8] = b"HTTP/1.1 200 OK\r\nTransfer-Encoding: chunked\r\n\r\n1;";

/// The same with the line of a chunk that has all bytes of a page.
const FULL: &[u8] = b"HTTP/1.1 200 OK\r\nTransfer-Encoding: chunked\r\n\r\n100000\r\n";

/// The same with one byte more.
const PAST: &[u8] = b"HTTP/1.1 200 OK\r\nTransfer-Encoding: chunked\r\n\r\n100001\r\n";

/// Bodies in chunks.
const CASES: [Case; 14] = [
    (b"3\r\nabc\r\n0\r\n\r\n", "200 html|abc"),
    (
        b"2\r\nab\r\n00A\r\n0123456789\r\n00\r\nX: y",
        "200 html|ab0123456789",
    ),
    (b"1 ;a=\"b\"\r\na\r\n0\r\n", "200 html|a"),
    (b"0\r\n", "200 html|"),
    (b"", "short 47"),
    (b"0\r", "short 49"),
    (b"3\r\nab", "short 52"),
    (b"3\r\nabc\r", "short 54"),
    (b"ffffffffffffffff\r\nabc", "short 68"),
    (b"00000000000000000\r\nabc", "bad 64"),
    (b"3\r\nabcd", "bad 54"),
    (b"3\r\nabc\rd", "bad 55"),
    (b"3\nabc", "bad 49"),
    (b"x", "bad 48"),
];

#[test]
fn bodies_in_chunks_are_read(rt: HostRuntime) -> Result<(), Fail> {
    assert_answers(&rt, rt.alloc(), HEAD, &CASES, 16_384)?;
    assert_answers(&rt, rt.alloc(), HEAD, &CASES, 1)
}

/// The limits of chunk lines and of bodies in chunks.
const LIMITS: [Long; 7] = [
    (HEAD, b"0", 300, b"", Want::Page, "bad 64"),
    (NAMED, b"a", 300, b"", Want::Page, "bad 303"),
    (
        NAMED,
        b"a",
        252,
        b"\r\nb\r\n0\r\n\r\n",
        Want::Page,
        "200 html|b",
    ),
    (
        NAMED,
        b"a",
        253,
        b"\r\nb\r\n0\r\n\r\n",
        Want::Page,
        "bad 303",
    ),
    (
        FULL,
        PART,
        16_384,
        b"\r\n0\r\n\r\n",
        Want::Page,
        "200 html|1048576 bytes",
    ),
    (PAST, PART, 16_384, b"a", Want::Page, "large 1048632"),
    (
        FULL,
        PART,
        9_000,
        b"",
        Want::Robots,
        "200 html|512000 bytes",
    ),
];

#[test]
fn limits_of_chunks_hold(rt: HostRuntime) -> Result<(), Fail> {
    assert_long(&rt, rt.alloc(), &LIMITS, 10_000, 10_000)
}
