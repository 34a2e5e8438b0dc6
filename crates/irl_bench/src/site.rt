//! A made-up site.

use irl_key::key_of;
use irl_offer::{MAX_TEXT, Offer, Op, Text};
use std::alloc::{AllocError, Global};
use std::str;

/// A site of so many pages on so many domains.
#[derive(Clone, Copy)]
pub struct Site {
    pub pages: u32,
    pub domains: u32,
}

impl Site {
    /// The pages that a page links to, those below `pages` of these: two behind it, and one anywhere.
    pub fn links(self, page: u32) -> [u64; 3] {
        let page = u64::from(page);
        let anywhere = (7 * page + 3) % u64::from(self.pages).max(1);
        [2 * page + 1, 2 * page + 2, anywhere]
    }

    /// The offer of a page, which a page of a domain links, by that domain's key, or none.
    pub fn offer(self, alloc: Global, page: u64, from: u64) -> Result<Offer, AllocError> {
        let domain = page % u64::from(self.domains).max(1);
        let url = format!(in alloc; "http://s{domain}.test/p{page}")?;
        let text = url.as_bytes();
        let text = &text[..text.len().min(MAX_TEXT)];
        Ok(Offer {
            op: Op::Both,
            key: key_of(text),
            value: 0,
            from,
            aux: Text::from_bytes(alloc, text)?,
        })
    }
}

/// The page of a URL of the site, by what a request asks its domain for.
pub fn page_of(target: &[u8]) -> Option<u32> {
    str::from_utf8(target.get(2..)?).ok()?.parse().ok()
}
