ghost use Rattle.std.specs.Prelude.{◌≡◌, length};

use crate::runs::{Left, NONE, new_ports, new_store, run_with, same};
use irl_disk::MemStore;
use irl_http::MemLink;
use irl_offer::Text;
use irl_record::WireFetch;
use std::alloc::{AllocError, Global};
use std::process::Abort;
use std::sync::Wait;
use std::test::Fail;
use std::thread::Threads;

const TAPE: &[u8] = b"suffix test\nseed http://a.test/\n";

fn texts(alloc: Global, all: &[&[u8]]) -> Result<Vec<Text>, AllocError> {
    let mut texts = Vec::new(alloc);
    for bytes in all {
        texts.push(Text::from_bytes(alloc, bytes)?)?;
    }
    Ok(texts)
}

// A link whose connections give these.
fn link_of(alloc: Global, gives: &[&[u8]]) -> Result<MemLink, AllocError> {
    let connections = texts(alloc, gives)?;
    Ok(MemLink::new(alloc, connections, Vec::new(alloc)))
}

// The report of a store that was offered one URL, which is done, with this outcome.
fn report_of(alloc: Global, outcome: &str) -> Result<Vec<u8>, AllocError> {
    let mut text = Vec::new(alloc);
    for name in &[
        "offers", "judged", "unique", "pairs", "fresh", "queued", "last", "front", "done", "page",
        "moved", "status", "denied", "shut", "lost", "bad", "large", "coded",
    ] {
        let is_counted = matches!(*name, "offers" | "judged" | "unique" | "done")
            || *name == outcome;
        put_line(&mut text, name, is_counted)?;
    }
    Ok(text)
}

fn put_line(text: &mut Vec<u8>, name: &str, is_counted: bool) -> Result<(), AllocError> {
    text.extend_from_slice(name.as_bytes())?;
    text.extend_from_slice(if is_counted { b" 1\n" } else { b" 0\n" })
}

// Whether these requests were written, each on a connection of its own, and no more.
fn has_written(port: &MemLink, requests: &[&[u8]]) -> bool {
    for (i, request) in (0..).zip(requests) {
        if port.written(i) != Some(*request) {
            return false;
        }
    }
    port.written(requests.len() as u64).is_none()
}

// A crawl of one page over some ports.
fn crawl_over<R: Threads + Wait + Sync + AllocGlobal>(
    rt: &R,
    ports: &mut [WireFetch<MemLink>],
) -> Result<Left<MemStore>, AllocError>
    requires { length ports.old ≡ 64 }
{
    let words = ["crawl", "--port", "1", "--delay", "0"];
    run_with(rt, &words, TAPE, NONE, new_store(rt.alloc(), NONE)?, ports)
}

// A crawl over a link ends so, with these requests written.
fn check_crawl<R: Threads + Wait + Sync + Abort + AllocGlobal>(
    rt: &R,
    gives: &[&[u8]],
    outcome: &str,
    requests: &[&[u8]],
) -> Result<(), AllocError> {
    let mut ports = new_ports(rt.alloc(), link_of(rt.alloc(), gives)?)?;
    let left = crawl_over(rt, &mut ports)?;
    let report = report_of(rt.alloc(), outcome)?;
    same(rt, left.output.as_slice() == report.as_slice(), outcome);
    same(rt, left.status == 0 && left.errors.is_empty(), outcome);
    let is_written = has_written(ports[0].port(), requests);
    same(rt, is_written, outcome);
    Ok(())
}

// A page is asked for behind its host's robots file, each on a connection of its own. Without an answer to that nothing may be
// fetched, and a page that is too short is lost.
#[test]
fn a_crawl_asks_its_ports(rt: HostRuntime) -> Result<(), Fail> {
    let robots: &[u8] =
        b"GET /robots.txt HTTP/1.1\r\nHost: a.test\r\nUser-Agent: irlbot\r\nAccept-Encoding: identity\r\nConnection: close\r\n\r\n";
    let page: &[u8] =
        b"GET / HTTP/1.1\r\nHost: a.test\r\nUser-Agent: irlbot\r\nAccept-Encoding: identity\r\nConnection: close\r\n\r\n";
    let none: &[u8] = b"HTTP/1.1 404 Not Found\r\n\r\n";
    let short: &[u8] = b"HTTP/1.1 200 OK\r\nContent-Length: 3\r\n\r\nab";
    let body: &[u8] = b"HTTP/1.1 200 OK\r\n\r\nab";
    check_crawl(&rt, &[none, body], "page", &[robots, page])?;
    check_crawl(&rt, &[none, short], "lost", &[robots, page])?;
    check_crawl(&rt, &[none], "lost", &[robots])?;
    check_crawl(&rt, &[], "shut", &[])?;
    Ok(())
}
