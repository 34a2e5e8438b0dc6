//! What the links between domains are worth in a pass.

use crate::calls::crawling::front;
use crate::calls::{Call, Host, NO_HOST, opened, step, take_each};
use crate::stores::{CRAWL_OF_ONE, blank};
use irl_disk::MemStore;
use irl_offer::{Asked, Fault};
use irl_yard::Yard;
use std::alloc::Global;
use std::test::Fail;

// What is asked of a crawl whose domains have budgets from 1 to 4 over four ranks.
const RANKED: Asked = Asked {
    base: Some(1),
    most: Some(4),
    ranks: Some(4),
    ..CRAWL_OF_ONE
};

// The domain whose page has a link, none of a seed, the link, and how many pairs there are once it was sent.
type Link = (Host, &'static [u8], u64);

// The links of three domains. A domain's own ones and those sent before count for nothing.
const LINKS: [Link; 11] = [
    (NO_HOST, b"http://www.a.test/", 0),
    (*b"a.test", b"http://www.a.test/one", 0),
    (*b"a.test", b"http://www.a.test/private/x", 0),
    (*b"a.test", b"http://b.test/", 1),
    (*b"a.test", b"http://www.a.test/one", 1),
    (*b"a.test", b"http://c.test/new", 2),
    (*b"b.test", b"http://www.a.test/", 3),
    (*b"b.test", b"http://c.test/new", 4),
    (*b"b.test", b"http://b.test/gone", 4),
    (*b"c.test", b"http://b.test/", 5),
    (*b"a.test", b"http://b.test/gone", 5),
];

// Flushes a URL and judges it, and sends the pairs: how many there are.
fn add(alloc: Global, yard: &mut Yard<MemStore>, from: Host, text: &[u8]) -> Result<u64, Fault> {
    take_each(alloc, yard, &[Call::Give(from, 1, text), Call::Merge])?;
    Ok(step(alloc, yard, Call::Send)?[3])
}

// Adds five URLs of each of four domains, without links.
fn add_five(alloc: Global, yard: &mut Yard<MemStore>) -> Result<(), Fault> {
    for letter in b"abcd" {
        for digit in b"01234" {
            let mut text = *b"http://x.test/0";
            (text[7], text[14]) = (*letter, *digit);
            add(alloc, yard, NO_HOST, &text)?;
        }
    }
    Ok(())
}

// Counts a page by the letter of its domain.
fn count(counts: &mut [u64; 4], host: &[u8]) {
    for (counted, domain) in counts
        .iter_mut()
        .zip([b"a.test", b"b.test", b"c.test", b"d.test"])
    {
        if host.ends_with(domain) {
            *counted = counted.saturating_add(1);
        }
    }
}

// How many pages of each of four domains are in front.
fn in_front(alloc: Global, yard: &mut Yard<MemStore>) -> Result<[u64; 4], Fault> {
    let mut counts = [0_u64; 4];
    for work in &front(alloc, yard, 100)? {
        count(&mut counts, work.web.host());
    }
    Ok(counts)
}

// Whether there are so many pairs behind each of the links, and how many pages of each domain a pass puts in front then.
fn passed(alloc: Global) -> Result<(bool, [u64; 4]), Fault> {
    let mut yard = opened(alloc, blank(alloc), &RANKED)?;
    take_each(alloc, &mut yard, &[Call::Begin])?;
    for (from, text, wanted) in LINKS {
        if add(alloc, &mut yard, from, text)? != wanted {
            return Ok((false, [0; 4]));
        }
    }
    add_five(alloc, &mut yard)?;
    take_each(alloc, &mut yard, &[Call::Pass])?;
    Ok((true, in_front(alloc, &mut yard)?))
}

// Two domains link to each of the second and the third, of which the second comes first by its name, one to the first,
// and none to the fourth.
#[test]
fn a_pass_goes_by_the_domains_that_link(rt: HostRuntime) -> Result<(), Fail> {
    assert!(rt; passed(rt.alloc())? == (true, [2, 4, 3, 1]));
    Ok(())
}
