ghost use Rattle.std.specs.Prelude.{◌≡◌, ◌≤◌, ◌∷◌, [], ℕ, List, OnErr, IfOk, IfSome, MatchOption, length, drop, map, All};
ghost use Rattle.irl_base.specs.Limits.{max_page, max_text};
ghost use Rattle.irl_key.specs.Links.{IsCanonicalText};
ghost use Rattle.irl_scan.specs.Links.{IsWithin};
ghost use Rattle.irl_answer.specs.Pages.{text_at};
ghost use Rattle.irl_answer.specs.Outcomes.{web_of};
ghost use Rattle.irl_answer.specs.Found.{base_for as base_of_links, offer_from, webs_at, webs_on, GivesFirst, IsTaken};
ghost use Rattle.irl_answer.specs.Rest.{IsFirst};

use crate::outcomes::web;
use irl_key::{Web, key_of};
use irl_offer::{Offer, Op, Text};
use irl_scan::{Span, base, links};
use std::alloc::{AllocError, Global};
use std::marker::Model;

/// How many links of a page are offered.
const MOST_LINKS: usize = 10_000;

/// The offers that are left of a page's links. Contracts see them as a list.
#[derive(Drop)]
pub struct Links<'a> {
    /// The key of the page's domain.
    domain: u64,
    page: &'a [u8],
    base: Web,
    /// Where the links stand.
    spans: Vec<Span>,
    /// How many of them are behind.
    passed: usize,
    /// How many offers may follow.
    room: usize,
}

impl<'a> Model for Links<'a> {
    ghost use Rattle.std.specs.Prelude.{◌≤◌, List, length, drop, take, map, All};
    ghost use Rattle.irl_offer.specs.Tuple.{Tuple};
    ghost use Rattle.irl_scan.specs.Links.{IsWithin};
    ghost use Rattle.irl_answer.specs.Found.{offer_from, webs_at};

    ghost Value = { List Tuple };

    ghost view = { λ l. map (offer_from l.domain)
        (take l.room (webs_at l.page.now l.base (drop l.passed l.spans.items))) };

    ghost invariant = { λ l. (l.passed ≤ length l.spans.items)
        × All (IsWithin (length l.page.now)) l.spans.items };
}

impl<'a> Links<'a> {
    /// The first links of the page at this URL, of a domain with this key.
    pub fn new(
        alloc: Global,
        domain: u64,
        url: &Web,
        page: &'a [u8],
    ) -> Result<Links<'a>, AllocError>
        requires { length page.now ≤ max_page }
        ensures { IfOk result (λ links. links ≡ map (offer_from domain) (webs_on url.now page.now)) }
    {
        let base = base_for(alloc, url, page)?;
        let spans = links(alloc, page)?;
        Ok(Links {
            domain,
            page,
            base,
            spans,
            passed: 0,
            room: MOST_LINKS,
        })
    }

    /// Hands out the next offer. After want of memory the same are left.
    pub fn next(&mut self, alloc: Global) -> Result<Option<Offer>, AllocError>
        ensures ok { IfOk result (λ one. GivesFirst self.old one self.new) }
        ensures taken { IfOk result (λ one. IfSome one IsTaken) }
        ensures err { OnErr result (self.new ≡ self.old) }
    {
        if self.room == 0 {
            return Ok(None);
        }
        let rest = &self.spans[self.passed..];
        match first_offer(alloc, self.domain, self.page, &self.base, rest)? {
            Some((offer, count)) => {
                self.passed += count;
                self.room -= 1;
                Ok(Some(offer))
            }
            None => {
                self.room = 0;
                Ok(None)
            }
        }
    }
}

/// What the links of a page are resolved against.
fn base_for(alloc: Global, url: &Web, page: &[u8]) -> Result<Web, AllocError>
    requires { length page.now ≤ max_page }
    ensures { IfOk result (λ web. web ≡ base_of_links url.now page.now) }
{
    if let Some(span) = base(page) {
        let text = text_of(alloc, page, &span)?;
        if let Some(web) = web(alloc, url, text.bytes())? {
            return Ok(web);
        }
    }
    url.copy(alloc)
}

/// The offer of the first link at these spans that names a page, and how many links it and those before it are.
fn first_offer(
    alloc: Global,
    domain: u64,
    page: &[u8],
    base: &Web,
    spans: &[Span],
) -> Result<Option<(Offer, usize)>, AllocError>
    requires { All (IsWithin (length page.now)) spans.now }
    ensures { IfOk result (λ found. MatchOption found (webs_at page.now base.now spans.now ≡ [])
        (λ first. IsFirst domain page.now base.now spans.now first.0 first.1)) }
{
    for (i, span) in spans.iter().enumerate() {
        let text = text_of(alloc, page, span)?;
        if let Some(web) = web(alloc, base, text.bytes())? {
            return Ok(Some((offer_of(alloc, domain, &web)?, i + 1)));
        }
    }
    Ok(None)
}

/// The offer of a page that a page of this domain names.
pub fn offer_of(alloc: Global, domain: u64, web: &Web) -> Result<Offer, AllocError>
    requires { length web.now ≤ max_text }
    ensures { IfOk result (λ offer. offer ≡ offer_from domain web.now) }
{
    Ok(Offer {
        op: Op::Both,
        key: key_of(web.text()),
        value: 0,
        from: domain,
        aux: Text::from_bytes(alloc, web.text())?,
    })
}

/// The text of a link of a page.
fn text_of(alloc: Global, page: &[u8], span: &Span) -> Result<Text, AllocError>
    requires { IsWithin (length page.now) span.now }
    ensures { IfOk result (λ text. text ≡ text_at page.now span.now) }
{
    irl_scan::text(alloc, page, span)
}
