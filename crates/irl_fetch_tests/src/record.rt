mod wire;

use crate::helpers::web;
use crate::tapes::{TAPE_A, tape};
use irl_io::MemSource;
use irl_offer::{Answer, Reply, Want};
use irl_record::{Fetch, Tape, TapeFault, TapeFetch, site};
use std::alloc::{AllocError, Global};
use std::process::Abort;
use std::test::Fail;

// A text as it is read: the tape, or the number of the line that is refused, 0 where the source failed.
fn read(
    alloc: Global,
    text: &[u8],
    pages: bool,
    failing: &[u64],
) -> Result<Result<Tape, u64>, AllocError> {
    let mut source = MemSource::new(text.to_vec(alloc)?, failing.to_vec(alloc)?);
    match Tape::read(alloc, &mut source, pages) {
        Ok(tape) => Ok(Ok(tape)),
        Err(TapeFault::BadRecord(line)) => Ok(Err(line)),
        Err(TapeFault::Failed) => Ok(Err(0)),
        Err(TapeFault::Memory) => Err(AllocError),
    }
}

// A reply in short: its status, whether it is html, its Location and its body.
fn shown(alloc: Global, reply: &Reply) -> Result<String, AllocError> {
    let location = match &reply.location {
        Some(location) => String::from_utf8_lossy(alloc, location.bytes())?,
        None => String::from_str(alloc, "-")?,
    };
    let body = String::from_utf8_lossy(alloc, reply.body.bytes())?;
    format!(in alloc; "{} {} {location} {body}", reply.status, reply.html)
}

// What a fetcher answers to a URL, in short.
fn answer<F: Fetch>(
    alloc: Global,
    fetch: &mut F,
    url: &[u8],
    want: Want,
) -> Result<String, AllocError> {
    match fetch.fetch(alloc, &web(alloc, url)?, want)? {
        Answer::Reply(reply) => shown(alloc, &reply),
        Answer::NoReply => String::from_str(alloc, "lost"),
        _ => String::from_str(alloc, "another answer"),
    }
}

// URLs and what the tape above answers to them.
const ANSWERS: [(&[u8], &str); 8] = [
    (
        b"http://www.a.test/robots.txt",
        "200 false - User-agent: *\nDisallow: /private\n",
    ),
    (b"http://www.a.test/one", "301 false http://c.test/new "),
    (
        b"http://c.test/new",
        "200 true - <a href=\"http://b.test/\">b</a>\n",
    ),
    (b"http://c.test/old", "200 false - old\n"),
    (b"HTTP://C.test:80/lost#x", "lost"),
    (b"http://c.test/none", "204 false - "),
    (b"http://c.test/", "404 false - "),
    (b"http://www.a.test/private/x", "404 false - "),
];

#[test]
fn a_tape_answers_in_place_of_the_network(rt: HostRuntime) -> Result<(), Fail> {
    let alloc = rt.alloc();
    let tape = tape(alloc, TAPE_A)?;
    assert_eq!(rt; tape.suffixes().bytes(), b"test".as_slice());
    assert_eq!(rt; tape.seeds().len(), 1);
    let mut fetch = TapeFetch::new(&tape);
    for (url, expected) in ANSWERS {
        for want in [Want::Page, Want::Robots] {
            let answer = answer(alloc, &mut fetch, url, want)?;
            assert_eq!(rt; answer.as_str(), expected);
        }
    }
    fetch.wait_till(5);
    assert_eq!(rt; fetch.now(), 5);
    Ok(())
}

// Texts, and the line at which each is refused: where pages may be recorded, and where not. 0 where it is taken.
const TEXTS: [(&[u8], u64, u64); 41] = [
    (b"", 0, 0),
    (TAPE_A, 0, 3),
    (b"\n# a\n\n#\n", 0, 0),
    (b" # a", 1, 1),
    (b"suffix a.b-1\nsuffix com\nsuffix a.b-1", 0, 0),
    (b"suffix A", 1, 1),
    (b"suffix ", 1, 1),
    (b"suffix", 1, 1),
    (b"suffix a\nsuffix b..c", 2, 2),
    (b"suffix a b", 1, 1),
    (b"seed http://a.test/\nseed http://a.test/", 0, 0),
    (b"seed https://a.test/", 1, 1),
    (b"seed /a", 1, 1),
    (b"seed", 1, 1),
    (b"seeds http://a.test/", 1, 1),
    (b"lost http://a.test/", 0, 1),
    (b"lost ftp://a.test/", 1, 1),
    (b"lost http://a.test/\nlost http://A.test:80", 2, 1),
    (
        b"lost http://a.test/\npage 200 html http://a.test/\nend",
        2,
        1,
    ),
    (
        b"page 200 html http://a.test/\nend\nlost http://a.test/",
        3,
        1,
    ),
    (b"page 200 html http://a.test/\nend", 0, 1),
    (b"page 200 html http://a.test/", 2, 1),
    (b"page 200 html http://a.test/\n", 2, 1),
    (b"page 999 other http://a.test/\n+\n|\nend\n", 0, 1),
    (b"page 100 other http://a.test/\nto \nend\n", 0, 1),
    (b"page 099 html http://a.test/\nend", 1, 1),
    (b"page 1000 html http://a.test/\nend", 1, 1),
    (b"page 20 html http://a.test/\nend", 1, 1),
    (b"page 2x0 html http://a.test/\nend", 1, 1),
    (b"page 200 text http://a.test/\nend", 1, 1),
    (b"page 200 html  http://a.test/\nend", 0, 1),
    (b"page 200 html mailto:a\nend", 1, 1),
    (b"page 200 html http://a.test/\nto", 2, 1),
    (b"page 200 html http://a.test/\nto /a\nto /b", 3, 1),
    (b"page 200 html http://a.test/\n+\nto /b", 3, 1),
    (b"page 200 html http://a.test/\n#", 2, 1),
    (b"page 200 html http://a.test/\n\nend", 2, 1),
    (b"page 200 html http://a.test/\nend ", 2, 1),
    (b"page 200 html http://a.test/\nseed http://a.test/", 2, 1),
    (b"end", 1, 1),
    (b"|a", 1, 1),
];

#[test]
fn a_text_is_refused_at_its_first_bad_line(rt: HostRuntime) -> Result<(), Fail> {
    let alloc = rt.alloc();
    for (text, with_pages, without) in TEXTS {
        for (pages, line) in [(true, with_pages), (false, without)] {
            let refused = read(alloc, text, pages, &[])?.err();
            assert_eq!(rt; refused.unwrap_or(0), line, "{text:?}");
        }
    }
    // Without its last line it ends inside a page.
    let unended = TAPE_A.get(..TAPE_A.len().saturating_sub(4)).unwrap_or(&[]);
    assert_eq!(rt; read(alloc, unended, true, &[])?.err(), Some(31));
    // The read of this number fails.
    assert_eq!(rt; read(alloc, b"suffix a", true, &[0])?.err(), Some(0));
    assert_eq!(rt; read(alloc, b"suffix A\n", true, &[1])?.err(), Some(1));
    Ok(())
}

// Some bytes, so many lines that begin with `mark` and have `length` bytes more, a number at their front, and some bytes.
fn repeated(
    alloc: Global,
    head: &[u8],
    mark: &str,
    count: usize,
    length: usize,
    tail: &[u8],
) -> Result<Vec<u8>, AllocError> {
    let filler = b"x".repeat(alloc, length)?;
    let mut text = head.to_vec(alloc)?;
    for number in 0..count {
        let line = format!(in alloc; "{mark}{number}")?;
        let digits = line.len().saturating_sub(mark.len());
        text.extend_from_slice(line.as_bytes())?;
        text.extend_from_slice(filler.get(digits..).unwrap_or(&[]))?;
        text.push(b'\n')?;
    }
    text.extend_from_slice(tail)?;
    Ok(text)
}

const PAGE: &[u8] = b"page 200 html http://a.test/\n";

// A front, what lines begin with, how many there are and how long, a tail, and the line that is refused. The first bodies
// have 1,024 times 1,024 bytes.
const LENGTHS: [(&[u8], &str, usize, usize, &[u8], u64); 8] = [
    (PAGE, "|", 1_024, 1_023, b"end", 0),
    (PAGE, "|", 1_024, 1_023, b"+\nend", 0),
    (PAGE, "|", 1_024, 1_023, b"+x\nend", 1_026),
    (PAGE, "|", 1_024, 1_023, b"|\nend", 1_026),
    (PAGE, "+", 512, 2_047, b"+0123456789\nend", 0),
    (PAGE, "+", 514, 2_047, b"end", 514),
    (b"seed http://a.test/", "", 1, 3_000, b"", 1),
    (b"", "#", 1, 2_048, b"", 1),
];

#[test]
fn a_body_and_a_line_have_a_limit(rt: HostRuntime) -> Result<(), Fail> {
    let alloc = rt.alloc();
    for (head, mark, count, length, tail, line) in LENGTHS {
        let text = repeated(alloc, head, mark, count, length, tail)?;
        let refused = read(alloc, &text, true, &[])?.err();
        assert_eq!(rt; refused.unwrap_or(0), line, "{count} of {length}");
    }
    Ok(())
}

// Names as long as they may be. One that comes again is taken once.
#[test]
fn a_tape_may_have_many_suffixes(rt: HostRuntime) -> Result<(), Fail> {
    let alloc = rt.alloc();
    let text = repeated(alloc, b"suffix ab\n", "suffix ", 1_000, 253, b"suffix ab")?;
    let tape = tape(alloc, &text)?;
    // Each behind the first has a line feed before it.
    assert_eq!(rt; tape.suffixes().bytes().len(), 2 + 1_000 * 254);
    Ok(())
}

#[test]
fn a_tape_may_have_100_000_lines(rt: HostRuntime) -> Result<(), Fail> {
    let alloc = rt.alloc();
    let text = repeated(alloc, PAGE, "|", 98_998, 8, b"end\n")?;
    let text = repeated(alloc, &text, "lost http://a.test/", 1_000, 3, b"")?;
    let tape = tape(alloc, &text)?;
    let mut fetch = TapeFetch::new(&tape);
    for (url, expected) in [
        (b"http://a.test/0xx".as_slice(), "lost"),
        (b"http://a.test/999", "lost"),
        (b"http://a.test/xxx", "404 false - "),
    ] {
        let answer = answer(alloc, &mut fetch, url, Want::Page)?;
        assert_eq!(rt; answer.as_str(), expected);
    }
    Ok(())
}

// A line of a page's body, if there is such a page among so many.
fn link(alloc: Global, target: u64, pages: u64) -> Result<String, AllocError> {
    if target >= pages {
        return Ok(String::new(alloc));
    }
    format!(in alloc;
        "|<a href=\"http://s{}.test/p{target}\">x</a>\n",
        target % 16
    )
}

// The tape of a site of so many pages, by its text.
fn site_by_text(alloc: Global, pages: u8) -> Result<Tape, AllocError> {
    let mut text = b"suffix test\nseed http://s0.test/p0\n".to_vec(alloc)?;
    for i in 0..pages {
        let i = u64::from(i);
        let pages = u64::from(pages);
        let head = format!(in alloc; "page 200 html http://s{}.test/p{i}\n", i % 16)?;
        text.extend_from_slice(head.as_bytes())?;
        for target in [2 * i + 1, 2 * i + 2, (7 * i + 3) % pages] {
            text.extend_from_slice(link(alloc, target, pages)?.as_bytes())?;
        }
        text.extend_from_slice(b"end\n")?;
    }
    tape(alloc, &text)
}

// What the tapes answer to each page of a site, and to one more.
fn check_same(
    rt: &impl Abort,
    alloc: Global,
    tapes: [&Tape; 2],
    pages: u8,
) -> Result<(), AllocError> {
    let [one, other] = tapes;
    let pages = u64::from(pages);
    let mut one = TapeFetch::new(one);
    let mut other = TapeFetch::new(other);
    for i in 0..pages + 1 {
        let url = format!(in alloc; "http://s{}.test/p{i}", i % 16)?;
        let expected = answer(alloc, &mut one, url.as_bytes(), Want::Page)?;
        let given = answer(alloc, &mut other, url.as_bytes(), Want::Page)?;
        assert_eq!(rt; given.as_str(), expected.as_str());
        assert_eq!(rt; given.as_bytes().starts_with(b"200 true"), i < pages);
    }
    Ok(())
}

#[test]
fn a_site_is_the_tape_of_its_text(rt: HostRuntime) -> Result<(), Fail> {
    let alloc = rt.alloc();
    for pages in [0u8, 1, 16, 100] {
        let made = site(alloc, u32::from(pages))?;
        let read = site_by_text(alloc, pages)?;
        assert_eq!(rt; made.suffixes().bytes(), read.suffixes().bytes());
        assert_eq!(rt; made.seeds().len(), 1);
        check_same(&rt, alloc, [&made, &read], pages)?;
    }
    Ok(())
}
