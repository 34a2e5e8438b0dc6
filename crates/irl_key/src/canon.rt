ghost use Rattle.std.specs.Prelude.{◌≡◌, ◌+◌, ◌≤◌, ◌↔◌, ℕ, List, length, codes, Option, option_copied, IfOk, OnOk, Some, None};
ghost use Rattle.url.specs.Parser.{parse_url, Gives, IsOutOfRoom};
ghost use Rattle.irl_base.specs.Limits.{max_text};
ghost use Rattle.irl_key.specs.declared.canon.Canon.{Canon as Answer};
ghost use Rattle.irl_key.specs.Web.{IsWebText, IsHost, host_of, target_of, url_against, robots_text as robots};
ghost use Rattle.irl_key.specs.Links.{IsCause, IsCanonicalText, canon_of, canon_of_link, link_of, own_canon, without_fragment as cut};

use crate::web::Web;
use irl_offer::MAX_TEXT;
use std::alloc::{AllocError, Global};
use std::str;
use url::{ParseError, ParseResult, Url};

/// What a link counts as.
#[derive(Drop)]
pub enum Canon {
    /// A web page, by its canonical text of at most `MAX_TEXT` bytes.
    Web(Web),
    /// A URL of another scheme than http.
    NotHttp,
    /// No URL, or one of scheme http with a user name or a password.
    Bad,
    /// A web page whose canonical text is longer.
    TooLong,
}

/// What the link `text` counts as, resolved against `base` where there is one. A URL of 4 GB or more counts as want
/// of memory, as the parser has no room for it.
pub fn canonical(alloc: Global, base: Option<&Web>, text: &[u8]) -> Result<Canon, AllocError>
    ensures value { IfOk result (λ canon. canon ≡ canon_of (option_copied base.entry) text.now) }
    // Each answer comes exactly where its cause holds, unless memory runs out.
    ensures cause { IfOk result (λ canon. (answer : Answer)
        → (canon ≡ answer) ↔ IsCause (link_of (option_copied base.entry) text.now) answer) }
    // Exactly a canonical text counts as itself, against any base.
    ensures again { IfOk result (λ canon. (canon ≡ Canon.Web text.now) ↔ IsCanonicalText text.now) }
    // The text of a web page, of a robots file too, counts as itself or is too long.
    ensures own { IsWebText text.now → IfOk result (λ canon. canon ≡ own_canon text.now) }
    // What counts as a web page has a canonical text.
    ensures found { IfOk result (λ canon. (web : List ℕ) → canon ≡ Canon.Web web → IsCanonicalText web) }
{
    let link = read_link(alloc, base, text)?;
    sort(link)
}

// The URL that a link reads as, if it reads as one.
fn read_link(alloc: Global, base: Option<&Web>, text: &[u8]) -> Result<Option<Url>, AllocError>
    ensures { IfOk result (λ url. url ≡ link_of (option_copied base.entry) text.now) }
{
    match base {
        Some(base) => read(alloc, Some(base.as_url()), text),
        None => read(alloc, None, text),
    }
}

// The URL that the bytes read as, if they are UTF-8 that reads as one.
fn read(alloc: Global, base: Option<&Url>, text: &[u8]) -> Result<Option<Url>, AllocError>
    ensures { IfOk result (λ url. url ≡ url_against (option_copied base.entry) text.now) }
{
    let Ok(text) = str::from_utf8(text) else {
        return Ok(None);
    };
    match parse(alloc, base, text) {
        Ok(url) => Ok(Some(url)),
        Err(error) => refused(error),
    }
}

fn parse(alloc: Global, base: Option<&Url>, text: &str) -> ParseResult<Url>
    ensures { Gives result (parse_url (option_copied base.entry) text.now) }
{
    match base {
        Some(base) => base.join(text),
        None => Url::parse(alloc, text),
    }
}

// No URL, unless there was no room for one.
fn refused(error: ParseError) -> Result<Option<Url>, AllocError>
    ensures none { IfOk result (λ url. url ≡ None) }
    ensures cause { OnOk result (¬ (IsOutOfRoom error)) }
{
    match error {
        ParseError::OutOfMemory | ParseError::Overflow => Err(AllocError),
        _ => Ok(None),
    }
}

// What a link counts as that reads so.
fn sort(link: Option<Url>) -> Result<Canon, AllocError>
    ensures value { IfOk result (λ canon. canon ≡ canon_of_link link) }
    ensures found { IfOk result (λ canon. (web : List ℕ) → canon ≡ Canon.Web web → IsCanonicalText web) }
{
    let Some(url) = link else {
        return Ok(Canon::Bad);
    };
    if url.scheme() != "http" {
        return Ok(Canon::NotHttp);
    }
    if !url.username().is_empty() || url.password().is_some() {
        return Ok(Canon::Bad);
    }
    let url = without_fragment(url)?;
    if url.as_str().len() > MAX_TEXT {
        return Ok(Canon::TooLong);
    }
    Ok(Canon::Web(Web { url }))
}

// The URL with no fragment.
fn without_fragment(mut url: Url) -> Result<Url, AllocError>
    ensures { IfOk result (λ short. short ≡ cut url) }
{
    if url.fragment().is_none() {
        return Ok(url);
    }
    match url.set_fragment(None) {
        Ok(()) => Ok(url),
        Err(_) => Err(AllocError),
    }
}

/// The robots file of a host that a link gave: `http://HOST/robots.txt`, at most ten bytes longer than `MAX_TEXT`.
pub fn robots_of(alloc: Global, host: &[u8]) -> Result<Web, AllocError>
    requires { IsHost host.now }
    ensures text { IfOk result (λ web. web ≡ robots host.now) }
    ensures short { IfOk result (λ web. length web ≤ max_text + 10) }
    ensures host { IfOk result (λ web. host_of web ≡ host.now) }
    ensures target { IfOk result (λ web. target_of web ≡ codes "/robots.txt") }
    // Against any base it counts as itself, or is too long.
    ensures own { IfOk result (λ web. (base : Option (List ℕ)) → canon_of base web ≡ own_canon web) }
{
    let text = robots_text(alloc, host)?;
    match read(alloc, None, &text)? {
        Some(url) => Ok(Web { url }),
        None => unreachable!(),
    }
}

fn robots_text(alloc: Global, host: &[u8]) -> Result<Vec<u8>, AllocError>
    ensures { IfOk result (λ text. text.items ≡ robots host.now) }
{
    let mut text = b"http://".to_vec(alloc)?;
    text.extend_from_slice(host)?;
    text.extend_from_slice(b"/robots.txt")?;
    Ok(text)
}
