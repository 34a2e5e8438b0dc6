ghost use Rattle.std.specs.Prelude.{◌≡◌, OnOk, IfOk, IfSome, List, ℕ, Option};
ghost use Rattle.irl_key.specs.Links.{IsCanonicalText};
ghost use Rattle.irl_robots.specs.Status.{is_redirect};
ghost use Rattle.irl_answer.specs.Outcomes.{is_success, outcome_of, outcome_of_reply, location_of, usable, web_in, web_of};

use irl_key::{Canon, Web, canonical};
use irl_offer::{Answer, Outcome, Reply, Text};
use std::alloc::{AllocError, Global};

/// What comes of a URL by the answer to it. `Denied` and `Shut` never do, as they come of the robots file. The only
/// refusal is want of memory.
pub fn outcome(alloc: Global, url: &Web, answer: &Answer) -> Result<Outcome, AllocError>
    ensures { IfOk result (λ outcome. outcome ≡ outcome_of url.now answer.now) }
{
    match answer {
        Answer::Reply(reply) => outcome_of_reply(alloc, url, reply),
        Answer::NoReply | Answer::Short(_) => Ok(Outcome::Lost),
        Answer::BadReply(_) => Ok(Outcome::Bad),
        Answer::TooLarge(_) => Ok(Outcome::Large),
        Answer::Coded => Ok(Outcome::Coded),
    }
}

fn outcome_of_reply(alloc: Global, url: &Web, reply: &Reply) -> Result<Outcome, AllocError>
    ensures { IfOk result (λ outcome. outcome ≡ outcome_of_reply url.now reply.now) }
{
    if is_success(reply.status) {
        return Ok(Outcome::Page);
    }
    match location(alloc, url, reply)? {
        Some(_) => Ok(Outcome::Moved),
        None => Ok(Outcome::Status(reply.status)),
    }
}

/// Whether the status is a success.
pub fn is_success(status: u16) -> bool
    ensures { result ≡ is_success status }
{
    status >= 200 && status <= 299
}

/// Whether the status is a redirect that is followed.
fn is_redirect(status: u16) -> bool
    ensures { result ≡ is_redirect status }
{
    status == 301 || status == 302 || status == 303 || status == 307 || status == 308
}

/// Where a reply to this URL sends its reader.
pub fn location(alloc: Global, url: &Web, reply: &Reply) -> Result<Option<Web>, AllocError>
    ensures value { IfOk result (λ web. web ≡ location_of url.now reply.now) }
    ensures canonical { IfOk result (λ web. IfSome web IsCanonicalText) }
{
    if is_redirect(reply.status) {
        usable(alloc, url, &reply.location)
    } else {
        Ok(None)
    }
}

/// The location of a reply to this URL, if it is usable.
pub fn usable(alloc: Global, url: &Web, location: &Option<Text>) -> Result<Option<Web>, AllocError>
    ensures value { IfOk result (λ web. web ≡ usable url.now location.now) }
    ensures canonical { IfOk result (λ web. IfSome web IsCanonicalText) }
{
    match location {
        Some(text) => web(alloc, url, text.bytes()),
        None => Ok(None),
    }
}

/// A link as a web page, resolved against a base.
pub fn web(alloc: Global, base: &Web, text: &[u8]) -> Result<Option<Web>, AllocError>
    ensures value { IfOk result (λ web. web ≡ web_of base.now text.now) }
    ensures canonical { IfOk result (λ web. IfSome web IsCanonicalText) }
{
    match canonical(alloc, Some(base), text)? {
        Canon::Web(web) => Ok(Some(web)),
        Canon::NotHttp | Canon::Bad | Canon::TooLong => Ok(None),
    }
}
