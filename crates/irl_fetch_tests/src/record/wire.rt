use super::answer;
use irl_http::MemLink;
use irl_offer::{Text, Want};
use irl_record::{Fetch, WireFetch};
use std::alloc::{AllocError, Global};
use std::test::Fail;

// What the peers of two connections give. A third can't be made.
const GIVES: [&[u8]; 2] = [
    b"HTTP/1.1 404 Not Found\r\n\r\n",
    b"HTTP/1.1 200 OK\r\n\r\nab",
];

const REQUESTS: [&[u8]; 2] = [
    b"GET /robots.txt HTTP/1.1\r\nHost: a.test\r\nUser-Agent: \r\n\
Accept-Encoding: identity\r\nConnection: close\r\n\r\n",
    b"GET / HTTP/1.1\r\nHost: a.test\r\nUser-Agent: irl\r\n\
Accept-Encoding: identity\r\nConnection: close\r\n\r\n",
];

fn texts(alloc: Global, all: &[&[u8]]) -> Result<Vec<Text>, AllocError> {
    let mut texts = Vec::new(alloc);
    for bytes in all {
        texts.push(Text::from_bytes(alloc, bytes)?)?;
    }
    Ok(texts)
}

fn port(alloc: Global) -> Result<MemLink, AllocError> {
    let connections = texts(alloc, &GIVES)?;
    Ok(MemLink::new(alloc, connections, Vec::new(alloc)))
}

#[test]
fn each_page_is_asked_for_on_a_connection_of_its_own(rt: HostRuntime) -> Result<(), Fail> {
    let alloc = rt.alloc();
    let mut fetch = WireFetch::new(alloc, port(alloc)?);
    // Before the first aim the agent has no name.
    let robots = answer(alloc, &mut fetch, b"http://a.test/robots.txt", Want::Robots)?;
    assert_eq!(rt; robots.as_str(), "404 true - ");
    fetch.aim(8080, Text::from_bytes(alloc, b"irl")?);
    for expected in ["200 true - ab", "lost"] {
        let page = answer(alloc, &mut fetch, b"http://a.test/", Want::Page)?;
        assert_eq!(rt; page.as_str(), expected);
    }
    for (i, request) in (0..).zip(REQUESTS) {
        assert_eq!(rt; fetch.port().written(i), Some(request));
    }
    fetch.wait_till(5);
    assert_eq!(rt; fetch.now(), 5);
    Ok(())
}
