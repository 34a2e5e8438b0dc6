//! A tape, and the links of its pages.

ghost use Rattle.std.specs.Prelude.{◌≡◌, ◌≤◌, length, All, IfOk};
ghost use Rattle.irl_base.specs.Limits.{max_page};
ghost use Rattle.irl_scan.specs.Links.{IsWithin};

use crate::score::{Beside, Score};
use crate::words::Stage;
use irl_io::{MemSource, Source};
use irl_key::{Canon, Web, canonical, key_of};
use irl_offer::MAX_PAGE;
use irl_record::{Tape, TapeFault};
use irl_scan::{Span, base, links, text};
use std::alloc::{AllocError, Global};
use std::str;

/// How many bytes are read at a time.
const PIECE: usize = 131_072;

/// The front of the first line of an HTML page that was found.
const HEAD: &str = "page 200 html ";

/// An HTML page, and where it is.
#[derive(Drop)]
struct Page {
    web: Web,
    body: Vec<u8>,
}

/// What pages have of links.
#[derive(Clone, Copy)]
struct Found {
    /// How many of them are web pages.
    links: u64,
    /// The sum of their keys.
    keys: u64,
}

/// Reads a tape of so many HTML pages, and takes the links of each: how many pages there are. Beside them it counts
/// the links that are web pages. `Made` reads the bytes and cuts the pages out of them, `Loaded` reads the tape too, and
/// `Done` takes the links.
pub fn run<I: Source>(
    alloc: Global,
    input: &mut I,
    pages: u32,
    stage: Stage,
) -> Result<Score, AllocError>
    ensures calls { IfOk result (λ score. score.calls ≡ pages) }
{
    let bytes = read_whole(alloc, input)?;
    let cut = cut_pages(alloc, &bytes)?;
    let is_read = match stage {
        Stage::Made => true,
        Stage::Loaded | Stage::Done => is_tape(alloc, bytes)?,
    };
    let found = match stage {
        Stage::Made | Stage::Loaded => Found { links: 0, keys: 0 },
        Stage::Done => find_all(alloc, &cut)?,
    };
    Ok(Score {
        right: if is_read { cut.len() as u64 } else { 0 },
        calls: u64::from(pages),
        beside: Some(Beside::Links {
            links: found.links,
            keys: found.keys,
        }),
    })
}

// All bytes of an input, up to its end or its first failure.
fn read_whole<I: Source>(alloc: Global, input: &mut I) -> Result<Vec<u8>, AllocError> {
    let mut whole = Vec::new(alloc);
    let mut piece = vec![in alloc; 0u8; PIECE]?;
    for _ in 0..u64::MAX {
        match input.read(&mut piece) {
            Ok(count) if count > 0 => whole.extend_from_slice(&piece[..count])?,
            _ => break,
        }
    }
    Ok(whole)
}

// The HTML pages of a tape. Bytes that are no text have none.
fn cut_pages(alloc: Global, tape: &[u8]) -> Result<Vec<Page>, AllocError> {
    let mut pages = Vec::new(alloc);
    let mut is_open = false;
    for line in str::from_utf8(tape).unwrap_or_default().lines() {
        if let Some(url) = line.strip_prefix(HEAD) {
            is_open = begin_page(alloc, &mut pages, url)?;
        } else if line == "end" {
            is_open = false;
        } else if is_open {
            add_line(&mut pages, line)?;
        }
    }
    Ok(pages)
}

// Begins a page, where its URL is one.
fn begin_page(alloc: Global, pages: &mut Vec<Page>, url: &str) -> Result<bool, AllocError> {
    let Canon::Web(web) = canonical(alloc, None, url.as_bytes())? else {
        return Ok(false);
    };
    pages.push(Page {
        web,
        body: Vec::new(alloc),
    })?;
    Ok(true)
}

// Adds a line to the body of the last page.
fn add_line(pages: &mut Vec<Page>, line: &str) -> Result<(), AllocError> {
    let (Some(page), Some(text)) = (pages.last_mut(), line.strip_prefix("|")) else {
        return Ok(());
    };
    page.body.extend_from_slice(text.as_bytes())?;
    page.body.push(b'\n')?;
    Ok(())
}

// Whether the bytes are a tape.
fn is_tape(alloc: Global, bytes: Vec<u8>) -> Result<bool, AllocError> {
    let mut source = MemSource::new(bytes, Vec::new(alloc));
    match Tape::read(alloc, &mut source, true) {
        Ok(_tape) => Ok(true),
        Err(TapeFault::Memory) => Err(AllocError),
        Err(_) => Ok(false),
    }
}

// What all pages have of links.
fn find_all(alloc: Global, pages: &[Page]) -> Result<Found, AllocError> {
    let mut all = Found { links: 0, keys: 0 };
    for page in pages {
        if page.body.len() <= MAX_PAGE {
            let found = find(alloc, &page.web, &page.body)?;
            all.links = all.links.saturating_add(found.links);
            all.keys = all.keys.wrapping_add(found.keys);
        }
    }
    Ok(all)
}

// What a page at this URL has of links.
fn find(alloc: Global, url: &Web, page: &[u8]) -> Result<Found, AllocError>
    requires { length page.now ≤ max_page }
{
    let base = base_of(alloc, url, page)?;
    let spans = links(alloc, page)?;
    keys_at(alloc, &base, page, &spans)
}

// What the links of a page are resolved against.
fn base_of(alloc: Global, url: &Web, page: &[u8]) -> Result<Web, AllocError>
    requires { length page.now ≤ max_page }
{
    if let Some(span) = base(page) {
        let text = text(alloc, page, &span)?;
        if let Canon::Web(web) = canonical(alloc, Some(url), text.bytes())? {
            return Ok(web);
        }
    }
    url.copy(alloc)
}

// What stands at these places of a page.
fn keys_at(alloc: Global, base: &Web, page: &[u8], spans: &[Span]) -> Result<Found, AllocError>
    requires { All (IsWithin (length page.now)) spans.now }
{
    let mut found = Found { links: 0, keys: 0 };
    for span in spans {
        let text = text(alloc, page, span)?;
        if let Canon::Web(web) = canonical(alloc, Some(base), text.bytes())? {
            found.links = found.links.saturating_add(1);
            found.keys = found.keys.wrapping_add(key_of(web.text()));
        }
    }
    Ok(found)
}
