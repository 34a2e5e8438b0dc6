//! Flushes of a few offers.

ghost use Rattle.std.specs.Prelude.{◌≡◌, IsTrue};
ghost use Rattle.std.specs.List.{AllByRecursion};
ghost use Rattle.irl_bay.specs.Flushing.{MayFlush};
ghost use Rattle.irl_key.specs.Links.{IsCanonicalText};
ghost use Rattle.irl_ledger.specs.Crawling.{AreTaken};
ghost use Rattle.irl_offer.specs.Buckets.{bucket_of as bucket_of_key, IsBucketCount};
ghost use Rattle.irl_offer.specs.Offering.{IsTakenBy};
ghost use Rattle.irl_offer.specs.declared.settings.Kind.TheVariants.{Crawl};
ghost use Rattle.irl_yard.specs.Holding.{IsSound};

use super::{Host, NO_HOST};
use crate::stores::offer_of;
use irl_array::Array;
use irl_disk::MemStore;
use irl_key::{Canon, canonical, key_of};
use irl_offer::{Fault, Kind, Offer, Op, bucket_of};
use irl_yard::Yard;
use std::alloc::{AllocError, Global};

// One offer more, where there is room for it.
fn put(array: &mut Array, offer: Offer) {
    if !array.is_full() {
        array.push(offer);
    }
}

// An array of these offers, as many as there is room for.
fn array_of(alloc: Global, room: u32, offers: &[(u64, &[u8])]) -> Result<Array, AllocError> {
    let mut array = Array::with_room(alloc, room)?;
    for (key, text) in offers {
        put(&mut array, offer_of(alloc, *key, 0, text)?);
    }
    Ok(array)
}

// The key of a domain, and 0 of none.
fn key_of_domain(domain: Host) -> u64 {
    if domain == NO_HOST {
        return 0;
    }
    key_of(&domain)
}

// An array of a URL so many times, two at most, which a page of this domain has.
fn array_from(alloc: Global, from: Host, times: u32, text: &[u8]) -> Result<Array, AllocError> {
    let mut array = Array::with_room(alloc, 2)?;
    for _ in 0..times {
        let offer = offer_of(alloc, key_of(text), key_of_domain(from), text)?;
        put(&mut array, offer);
    }
    Ok(array)
}

// Whether the offers are all of this bucket.
fn are_of(offers: &[Offer], buckets: u32, b: u32) -> bool
    requires { IsBucketCount buckets }
    ensures { IsTrue result → AllByRecursion (λ offer. bucket_of_key buckets offer.key ≡ b) offers.now }
{
    for offer in offers {
        if bucket_of(offer.key, buckets) != b {
            return false;
        }
    }
    true
}

// Whether an offer is one that a crawl takes.
pub(crate) fn is_page(alloc: Global, offer: &Offer) -> bool
    ensures { IsTrue result → IsTakenBy IsCanonicalText Crawl offer.now }
{
    let text = offer.aux.bytes();
    match canonical(alloc, None, text) {
        Ok(Canon::Web(web)) => web.text() == text && matches!(offer.op, Op::Both),
        _ => false,
    }
}

// Whether there are one or two offers, and all are so.
fn are_pages(alloc: Global, offers: &[Offer]) -> bool
    ensures { IsTrue result → AllByRecursion (IsTakenBy IsCanonicalText Crawl) offers.now }
{
    match offers {
        [one] => is_page(alloc, one),
        [one, other] => is_page(alloc, one) && is_page(alloc, other),
        _ => false,
    }
}

// Whether a store of this kind takes the offers.
fn are_taken(alloc: Global, kind: Kind, offers: &[Offer]) -> bool
    ensures { IsTrue result → AreTaken kind offers.now }
{
    match kind {
        Kind::Lines | Kind::Tuples => true,
        Kind::Crawl => are_pages(alloc, offers),
    }
}

// Whether the array can be flushed to this bucket.
fn can_flush(yard: &Yard<MemStore>, b: u32, array: &Array) -> bool
    ensures sound { IsTrue result → IsSound yard.now.parts }
    ensures offers { IsTrue result → MayFlush b array.now.items yard.now.parts.urls }
{
    let settings = yard.settings();
    yard.is_sound()
        && b < settings.buckets
        && array.len() >= 1
        && array.len() <= settings.array
        && yard.pending(b) < u64::from(settings.trigger)
        && are_of(array.items(), settings.buckets, b)
}

// Flushes an array to a bucket.
fn flush_array(
    alloc: Global,
    yard: &mut Yard<MemStore>,
    b: u32,
    array: &mut Array,
) -> Result<(), Fault> {
    if !are_taken(alloc, yard.settings().kind, array.items()) || !can_flush(yard, b, array) {
        return Err(Fault::Memory);
    }
    yard.flush(b, array)
}

// Flushes offers to a bucket.
pub(crate) fn flush(
    alloc: Global,
    yard: &mut Yard<MemStore>,
    b: u32,
    offers: &[(u64, &[u8])],
) -> Result<(), Fault> {
    let room = yard.settings().array;
    flush_array(alloc, yard, b, &mut array_of(alloc, room, offers)?)
}

// Flushes a URL so many times, which a page of this domain has.
pub(crate) fn give(
    alloc: Global,
    yard: &mut Yard<MemStore>,
    from: Host,
    times: u32,
    text: &[u8],
) -> Result<(), Fault> {
    flush_array(alloc, yard, 0, &mut array_from(alloc, from, times, text)?)
}
