ghost use Rattle.std.specs.Prelude.{◌≡◌, IfOk, IfSome, OnErr};
ghost use Rattle.irl_answer.specs.Found.{offers_of, offers_of_reply, GivesFirst, IsTaken};
ghost use Rattle.irl_answer.specs.Rest.{HasTaken, left_of};

use crate::outcomes::{is_success, location};
use crate::pages::{Links, offer_of};
use irl_key::{Web, key_of};
use irl_offer::{Answer, Offer, Reply};
use irl_pld::Suffixes;
use std::alloc::{AllocError, Global};
use std::marker::Model;

/// The offers that an answer gives, handed out one after another, so that the texts of a page's links are not all held.
/// Contracts see those that are left as a list.
#[derive(Drop)]
pub struct Found<'a> {
    rest: Rest<'a>,
}

/// Where they come from.
#[derive(Drop)]
enum Rest<'a> {
    /// A location, or nothing.
    One(Option<Offer>),
    /// The links of a page.
    Page(Links<'a>),
}

impl<'a> Model for Found<'a> {
    ghost use Rattle.std.specs.Prelude.{List};
    ghost use Rattle.irl_offer.specs.Tuple.{Tuple};
    ghost use Rattle.irl_answer.specs.Rest.{HasTaken, left_of};

    ghost Value = { List Tuple };

    ghost view = { λ f. left_of f.rest };

    ghost invariant = { λ f. HasTaken f.rest };
}

impl<'a> Found<'a> {
    /// Hands out the next offer. `None` comes where none is left. A store of kind `Crawl` takes each. After want of
    /// memory, the only refusal, the same are left.
    pub fn next(&mut self, alloc: Global) -> Result<Option<Offer>, AllocError>
        ensures ok { IfOk result (λ one. GivesFirst self.old one self.new) }
        ensures taken { IfOk result (λ one. IfSome one IsTaken) }
        ensures err { OnErr result (self.new ≡ self.old) }
    {
        match &mut self.rest {
            Rest::One(offer) => Ok(offer.take()),
            Rest::Page(links) => links.next(alloc),
        }
    }
}

/// What an answer to this URL gives to offer: of an HTML page the first 10,000 links that are web pages, of a redirect
/// its location, and else nothing. The only refusal is want of memory.
pub fn offers<'a>(
    alloc: Global,
    suffixes: &Suffixes,
    url: &Web,
    answer: &'a Answer,
) -> Result<Found<'a>, AllocError>
    ensures { IfOk result (λ found. found ≡ offers_of suffixes.now url.now answer.now) }
{
    match answer {
        Answer::Reply(reply) => {
            let domain = key_of(suffixes.pld(url.host()));
            let rest = rest_of(alloc, domain, url, reply)?;
            Ok(Found { rest })
        }
        Answer::NoReply
        | Answer::Short(_)
        | Answer::BadReply(_)
        | Answer::TooLarge(_)
        | Answer::Coded => Ok(Found {
            rest: Rest::One(None),
        }),
    }
}

fn rest_of<'a>(
    alloc: Global,
    domain: u64,
    url: &Web,
    reply: &'a Reply,
) -> Result<Rest<'a>, AllocError>
    ensures left { IfOk result (λ rest. left_of rest ≡ offers_of_reply domain url.now reply.now) }
    ensures taken { IfOk result HasTaken }
{
    if is_success(reply.status) {
        if reply.html {
            Ok(Rest::Page(Links::new(alloc, domain, url, reply.body.bytes())?))
        } else {
            Ok(Rest::One(None))
        }
    } else {
        match location(alloc, url, reply)? {
            Some(web) => Ok(Rest::One(Some(offer_of(alloc, domain, &web)?))),
            None => Ok(Rest::One(None)),
        }
    }
}
