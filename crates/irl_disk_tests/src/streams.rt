ghost use Rattle.std.specs.Prelude.{None};

use irl_io::{
    Clock, Failed, JumpClock, Lines, MemSink, MemSource, ReadSource, Sink, Source, Step, WriteSink,
};
use std::alloc::{AllocError, Global};
use std::io;
use std::process::Abort;
use std::test::Fail;

/// Gives one byte at a time, and tells nothing.
#[derive(Drop)]
struct Trickle {
    source: MemSource,
}

impl Source for Trickle {
    ghost left = { λ _. None };

    ghost faults = { λ s. s.source.faults };

    fn read(&mut self, into: &mut [u8]) -> Result<usize, Failed> {
        let room = into.len().min(1);
        self.source.read(&mut into[..room])
    }
}

/// Is interrupted so many times, and has nothing to give.
#[derive(Drop)]
struct Shaky {
    interruptions: u32,
}

impl io::Read for Shaky {
    fn read(&mut self, _: &mut [u8]) -> io::Result<usize> {
        if self.interruptions > 0 {
            self.interruptions -= 1;
            return Err(io::Error::from(io::ErrorKind::Interrupted));
        }
        Ok(0)
    }
}

/// Takes at most three bytes at a time, and nothing once it holds ten. A flush fails once it holds eight, and else tells
/// how many it holds.
#[derive(Drop)]
struct Narrow {
    bytes: Vec<u8>,
    flushed: usize,
}

impl io::Write for Narrow {
    fn write(&mut self, bytes: &[u8]) -> io::Result<usize> {
        if self.bytes.len() >= 10 {
            return Ok(0);
        }
        let count = bytes.len().min(3);
        self.bytes.extend_from_slice(&bytes[..count])?;
        Ok(count)
    }

    fn flush(&mut self) -> io::Result<()> {
        if self.bytes.len() >= 8 {
            return Err(io::Error::from(io::ErrorKind::Other));
        }
        self.flushed = self.bytes.len();
        Ok(())
    }
}

// Shows a step: a line with a `|` behind it, a refused line's number, or how the input ended. Whether it gave a line or
// failed.
fn show_step<I: Source>(
    lines: &mut Lines,
    source: &mut I,
    out: &mut Vec<u8>,
) -> Result<bool, AllocError> {
    match lines.next(source) {
        Step::Line(line) => {
            out.extend_from_slice(line)?;
            out.push(b'|')?;
            return Ok(true);
        }
        Step::Failed => {
            out.push(b'!')?;
            return Ok(true);
        }
        Step::LongLine(n) => {
            out.push(b'>')?;
            out.push(digit(n))?;
        }
        Step::End => out.push(b'.')?,
    }
    Ok(false)
}

// The last digit of a number.
fn digit(n: u64) -> u8 {
    b'0' + (n % 10) as u8
}

// All steps, with one more behind that at which the input ended or a line was refused, and how many lines were given.
fn shown<I: Source>(alloc: Global, source: &mut I) -> Result<Vec<u8>, AllocError> {
    let mut lines = Lines::new(alloc)?;
    let mut out = Vec::new(alloc);
    for _ in 0..u64::MAX {
        if !show_step(&mut lines, source, &mut out)? {
            break;
        }
    }
    show_step(&mut lines, source, &mut out)?;
    out.push(digit(lines.number()))?;
    Ok(out)
}

fn source_of(alloc: Global, bytes: &[u8], failing: &[u64]) -> Result<MemSource, AllocError> {
    Ok(MemSource::new(bytes.to_vec(alloc)?, failing.to_vec(alloc)?))
}

fn shown_whole(alloc: Global, bytes: &[u8]) -> Result<Vec<u8>, AllocError> {
    shown(alloc, &mut source_of(alloc, bytes, &[])?)
}

fn shown_byte_by_byte(alloc: Global, bytes: &[u8], failing: &[u64]) -> Result<Vec<u8>, AllocError> {
    let source = source_of(alloc, bytes, failing)?;
    shown(alloc, &mut Trickle { source })
}

#[test]
fn lines_end_at_line_feeds(rt: HostRuntime) -> Result<(), Fail> {
    let alloc = rt.alloc();
    let table: [(&[u8], &[u8]); 8] = [
        (b"", b"..0"),
        (b"\n", b"|..1"),
        (b"\n\n\n", b"|||..3"),
        (b"a", b"a|..1"),
        (b"a\n", b"a|..1"),
        (b"a\nb", b"a|b|..2"),
        (b"a\n\nb\n", b"a||b|..3"),
        (b"\nab\r\n", b"|ab\r|..2"),
    ];
    for (input, expected) in table {
        let whole = shown_whole(alloc, input)?;
        assert_eq!(rt; whole.as_slice(), expected);
        let trickled = shown_byte_by_byte(alloc, input, &[])?;
        assert_eq!(rt; trickled.as_slice(), expected);
    }
    Ok(())
}

// The numbers are those of the reads that fail, which give one byte each.
#[test]
fn a_failed_read_loses_nothing(rt: HostRuntime) -> Result<(), Fail> {
    let alloc = rt.alloc();
    let table: [([u64; 2], &[u8]); 4] = [
        ([0, 1], b"!!ab|c|..2"),
        ([1, 2], b"!!ab|c|..2"),
        ([2, 4], b"!ab|!c|..2"),
        ([5, 6], b"ab|c|!!..2"),
    ];
    for (failing, expected) in table {
        let trickled = shown_byte_by_byte(alloc, b"ab\nc\n", &failing)?;
        assert_eq!(rt; trickled.as_slice(), expected);
    }
    Ok(())
}

// Some bytes, so many `x`, and some bytes more.
fn padded(alloc: Global, head: &[u8], count: usize, tail: &[u8]) -> Result<Vec<u8>, AllocError> {
    let mut bytes = head.to_vec(alloc)?;
    bytes.extend_from_slice(&vec![in alloc; b'x'; count]?)?;
    bytes.extend_from_slice(tail)?;
    Ok(bytes)
}

// The length of the second line and what follows it, and how much of the line is shown and what follows it.
#[test]
fn a_line_has_at_most_2048_bytes(rt: HostRuntime) -> Result<(), Fail> {
    let alloc = rt.alloc();
    let table: [(usize, &[u8], usize, &[u8]); 6] = [
        (2047, b"", 2047, b"|..2"),
        (2048, b"", 2048, b"|..2"),
        (2048, b"\nab", 2048, b"|ab|..3"),
        (2049, b"", 0, b">2>21"),
        (2049, b"\n", 0, b">2>21"),
        (200_000, b"\n", 0, b">2>21"),
    ];
    for (length, rest, count, end) in table {
        let whole = shown_whole(alloc, &padded(alloc, b"first\n", length, rest)?)?;
        let expected = padded(alloc, b"first|", count, end)?;
        assert_eq!(rt; whole.as_slice(), expected.as_slice(), "of {length}");
    }
    Ok(())
}

// 200 lines of 2,040 bytes, each of one byte that is no line feed.
fn long_lines(alloc: Global, separator: u8) -> Result<Vec<u8>, AllocError> {
    let mut bytes = Vec::new(alloc);
    for number in 0..200u8 {
        bytes.extend_from_slice(&vec![in alloc; number.max(11); 2040]?)?;
        bytes.push(separator)?;
    }
    Ok(bytes)
}

// They are more than three times what is read ahead, and no line ends with a read.
#[test]
fn lines_lie_across_reads(rt: HostRuntime) -> Result<(), Fail> {
    let alloc = rt.alloc();
    let whole = shown_whole(alloc, &long_lines(alloc, b'\n')?)?;
    let mut expected = long_lines(alloc, b'|')?;
    expected.extend_from_slice(b"..0")?;
    assert_eq!(rt; whole.as_slice(), expected.as_slice());
    Ok(())
}

// Each read into the same three bytes, its answer and what stands there then.
fn check_reads<I: Source>(
    rt: &impl Abort,
    source: &mut I,
    reads: &[(Result<usize, Failed>, [u8; 3])],
) {
    let mut into = *b"---";
    for (answer, bytes) in reads {
        assert_eq!(rt; source.read(&mut into), *answer);
        assert_eq!(rt; into, *bytes);
    }
}

// Each piece, and whether the write of it fails.
fn check_writes<O: Sink>(rt: &impl Abort, sink: &mut O, pieces: &[(&[u8], bool)]) {
    for (piece, fails) in pieces {
        assert_eq!(rt; sink.write(piece).is_err(), *fails);
    }
}

#[test]
fn memory_gives_and_takes_bytes(rt: HostRuntime) -> Result<(), Fail> {
    let alloc = rt.alloc();
    let mut source = source_of(alloc, b"abcde", &[1])?;
    let reads = [
        (Ok(3), *b"abc"),
        (Err(Failed), *b"abc"),
        (Ok(2), *b"dec"),
        (Ok(0), *b"dec"),
    ];
    check_reads(&rt, &mut source, &reads);

    let mut sink = MemSink::new(alloc, vec![in alloc; 1]?);
    let pieces: [(&[u8], bool); 3] = [(b"ab", false), (b"cd", true), (b"ef", false)];
    check_writes(&rt, &mut sink, &pieces);
    assert_eq!(rt; sink.bytes(), b"abef".as_slice());
    Ok(())
}

#[test]
fn readers_of_std_are_passed_on(rt: HostRuntime) -> Result<(), Fail> {
    let mut source = ReadSource::new(b"ab\nc".as_slice());
    let lines = shown(rt.alloc(), &mut source)?;
    assert_eq!(rt; lines.as_slice(), b"ab|c|..2".as_slice());

    let mut source = ReadSource::new(Shaky { interruptions: 66 });
    check_reads(
        &rt,
        &mut source,
        &[(Err(Failed), *b"---"), (Ok(0), *b"---")],
    );
    Ok(())
}

#[test]
fn writers_of_std_are_passed_on(rt: HostRuntime) {
    let mut bytes = Vec::new(rt.alloc());
    let pieces: [(&[u8], bool); 3] = [(b"ab", false), (b"", false), (b"cde", false)];
    check_writes(&rt, &mut WriteSink::new(&mut bytes), &pieces);
    assert_eq!(rt; bytes.as_slice(), b"abcde".as_slice());

    let mut narrow = Narrow {
        bytes: Vec::new(rt.alloc()),
        flushed: 0,
    };
    // Whether the write fails, and how many bytes were flushed by then.
    let pieces: [(&[u8], bool, usize); 4] = [
        (b"01234", false, 5),
        (b"56", false, 7),
        (b"7", true, 7),
        (b"89abc", true, 7),
    ];
    for (piece, fails, flushed) in pieces {
        let result = WriteSink::new(&mut narrow).write(piece);
        assert_eq!(rt; result.is_err(), fails);
        assert_eq!(rt; narrow.flushed, flushed);
    }
    assert_eq!(rt; narrow.bytes.as_slice(), b"0123456789a".as_slice());
}

// What is waited for, and the moment then. The clock is used as any clock is.
fn check_waits<C: Clock>(rt: &impl Abort, clock: &mut C, waits: &[(u64, u64)]) {
    for (wanted, moment) in waits {
        clock.wait_till(*wanted);
        assert_eq!(rt; clock.now(), *moment);
        assert_eq!(rt; clock.now(), *moment);
    }
}

#[test]
fn a_clock_jumps_and_never_goes_back(rt: HostRuntime) {
    let mut clock = JumpClock::new();
    assert_eq!(rt; clock.now(), 0);
    let waits = [(0, 0), (7, 7), (3, 7), (u64::MAX, u64::MAX), (8, u64::MAX)];
    check_waits(&rt, &mut clock, &waits);
}
