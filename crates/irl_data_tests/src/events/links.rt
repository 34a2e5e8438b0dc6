use crate::helpers::{self, same};
use irl_events::{Domains, degree, pair_offers, pairs};
use irl_offer::{Offer, Op, Text};
use std::alloc::{AllocError, Global};
use std::test::Fail;

// A domain is the first six bytes of a URL, and a key a sum of the bytes by their places.
struct Plain;

impl Domains for Plain {
    ghost use Rattle.std.specs.Prelude.{◌+◌, ◌*◌, ◌%◌, ◌^◌, fold, take};
    ghost use Rattle.std.proofs.Common.{rules};
    ghost use Rattle.std.proofs.lemmas.Grind.{common_steps};

    ghost domain_of = { λ _ url. take 6 url };

    ghost key_of = { λ _ text. fold (λ key b. (key * 257 % 2 ^ 64 + b) % 2 ^ 64) 1 text };

    ghost is_within = { λ _ url. Prim.search (rules, common_steps) };

    fn domain(&self, alloc: Global, url: &[u8]) -> Result<Text, AllocError> {
        Text::from_bytes(alloc, &url[..url.len().min(6)])
    }

    fn key(&self, text: &[u8]) -> u64 {
        text.iter().fold(
            1,
            |key: u64, b| key.wrapping_mul(257).wrapping_add(u64::from(*b)),
        )
    }
}

// An offer of a URL from a page of a domain, or from none where that is empty.
fn offer(alloc: Global, source: &[u8], url: &[u8]) -> Result<Offer, AllocError> {
    let mut offer = helpers::offer(alloc, Op::Both, 1, 0, url)?;
    if !source.is_empty() {
        offer.from = Plain.key(source);
    }
    Ok(offer)
}

// A seed, the four links of its page, a page that moved, and then the links of two pages of other domains: the domain of a page
// and a URL that it links to, for each judged offer.
const JUDGED: [(&[u8], &[u8]); 10] = [
    (b"", b"a.test/"),
    (b"a.test", b"a.test/one"),
    (b"a.test", b"a.test/private/x"),
    (b"a.test", b"b.test/"),
    (b"a.test", b"a.test/one"),
    (b"a.test", b"c.test/new"),
    (b"b.test", b"a.test/"),
    (b"b.test", b"c.test/new"),
    (b"b.test", b"b.test/gone"),
    (b"c.test", b"b.test/"),
];

// The targets of the pairs, and the in-degrees by them. A link within a domain is none, and no page gave the seed.
const TARGETS: &[u8] = b"b.test;c.test;a.test;c.test;b.test;";

const DEGREES: [(&[u8], u64); 4] = [
    (b"a.test", 1),
    (b"b.test", 2),
    (b"c.test", 2),
    (b"d.test", 0),
];

fn offers(alloc: Global, rows: &[(&[u8], &[u8])]) -> Result<Vec<Offer>, AllocError> {
    let mut offers = Vec::new(alloc);
    for (source, url) in rows {
        offers.push(offer(alloc, source, url)?)?;
    }
    Ok(offers)
}

// The domains to which pairs lead, each with a `;` behind it.
fn targets(alloc: Global, pairs: &[Offer]) -> Result<Vec<u8>, AllocError> {
    let mut targets = Vec::new(alloc);
    for pair in pairs {
        targets.extend_from_slice(pair.aux.bytes())?;
        targets.push(b';')?;
    }
    Ok(targets)
}

#[test]
fn each_domain_that_links_counts_once(rt: HostRuntime) -> Result<(), Fail> {
    let pairs = pair_offers(rt.alloc(), &Plain, &offers(rt.alloc(), &JUDGED)?)?;
    let targets = targets(rt.alloc(), &pairs)?;
    same(&rt, targets.as_slice() == TARGETS, "target");
    for (domain, count) in DEGREES {
        same(&rt, degree(&pairs, domain) == count, "degree");
    }
    Ok(())
}

// A page of one of twelve domains; without the last byte the domain.
fn page(number: u32) -> [u8; 7] {
    [
        b'a' + (number % 12) as u8,
        b'.',
        b't',
        b'e',
        b's',
        b't',
        b'/',
    ]
}

// Twelve domains, each of which gives every one 5 links, itself too.
fn many(alloc: Global) -> Result<Vec<Offer>, AllocError> {
    let mut judged = Vec::new(alloc);
    for i in 0..720_u32 {
        judged.push(offer(alloc, &page(i)[..6], &page(i / 12))?)?;
    }
    Ok(judged)
}

// One in five of many links lies below the first cut, and the others below the second: how many pairs these many cuts give, and
// whether each domain has as many links.
fn pairs_of_many(
    alloc: Global,
    lists: &[Vec<Offer>],
    count: usize,
    in_degree: u64,
) -> Result<(usize, bool), AllocError> {
    let cuts = vec![in alloc; vec![in alloc; 144]?, vec![in alloc; 720]?]?;
    let pairs = pairs(alloc, &Plain, 1, lists, &cuts, count)?;
    let mut all = degree(&pairs, b"m.test") == 0;
    for domain in 0..12 {
        all = all && degree(&pairs, &page(domain)[..6]) == in_degree;
    }
    Ok((pairs.len(), all))
}

#[test]
fn many_links_are_few_pairs(rt: HostRuntime) -> Result<(), Fail> {
    let lists = vec![in rt.alloc(); many(rt.alloc())?]?;
    for (count, len, in_degree) in [(0, 0, 0), (1, 132, 11), (2, 660, 11)] {
        let pairs = pairs_of_many(rt.alloc(), &lists, count, in_degree)?;
        same(&rt, pairs == (len, true), "number of pairs or of links");
    }
    Ok(())
}
