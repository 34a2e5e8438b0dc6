ghost use Rattle.std.specs.Prelude.{◌≡◌, ◌≤◌, length, None, IfOk, IfSome};
ghost use Rattle.irl_base.specs.Limits.{max_text};
ghost use Rattle.irl_key.specs.Links.{IsCanonicalText};
ghost use Rattle.irl_ledger.specs.Crawling.{domain_of};

use irl_host::host_at_sight;
use irl_key::{Canon, canonical};
use irl_offer::Text;
use irl_pld::Suffixes;
use std::alloc::{AllocError, Global};

// The pay-level domain of a URL, by its text, and none exactly where the text isn't canonical. Each URL of a crawl has
// a canonical one.
pub fn domain_of_url(
    alloc: Global,
    suffixes: &Suffixes,
    url: &[u8],
) -> Result<Option<Text>, AllocError>
    ensures value { IfOk result (λ found. IfSome found (λ domain. domain ≡ domain_of suffixes.now url.now)) }
    ensures short { IfOk result (λ found. IfSome found (λ domain. length domain ≤ max_text)) }
    ensures none { IfOk result (λ found. found ≡ None → IsCanonicalText url.now → ⊥) }
    ensures some { IfOk result (λ found. IfSome found (λ _. IsCanonicalText url.now)) }
{
    // Of nearly each URL the host is seen without a parse.
    if let Some(host) = host_at_sight(url) {
        let domain = Text::from_bytes(alloc, suffixes.pld(host))?;
        return Ok(Some(domain));
    }
    match canonical(alloc, None, url)? {
        Canon::Web(web) if web.text() == url => {
            let domain = Text::from_bytes(alloc, suffixes.pld(web.host()))?;
            Ok(Some(domain))
        }
        _ => Ok(None),
    }
}
