//! Calls of a crawl.

ghost use Rattle.std.specs.Prelude.{IsTrue};
ghost use Rattle.irl_log.specs.Form.{IsSuffixText};
ghost use Rattle.irl_yard.specs.Adding.{MayBegin};
ghost use Rattle.irl_yard.specs.Holding.{IsSound};
ghost use Rattle.irl_yard.specs.Settling.{MaySettle};

use irl_disk::MemStore;
use irl_key::Work;
use irl_offer::{Done, Fault, Kind, Outcome, Receipts, Text};
use irl_pld::Suffixes;
use irl_yard::Yard;
use std::alloc::Global;

// Whether a crawl can begin with this text.
fn is_suffix_text(alloc: Global, text: &[u8]) -> bool
    ensures { IsTrue result → IsSuffixText text.now }
{
    text.len() <= 4_194_304 && Suffixes::read(alloc, text).is_ok()
}

// Whether the crawl can begin.
fn can_begin(alloc: Global, yard: &Yard<MemStore>, suffixes: &Text) -> bool
    ensures sound { IsTrue result → IsSound yard.now.parts }
    ensures begins { IsTrue result → MayBegin yard.now.parts.rest suffixes.now }
{
    yard.is_sound()
        && matches!(yard.settings().kind, Kind::Crawl)
        && !yard.has_begun()
        && is_suffix_text(alloc, suffixes.bytes())
}

// Begins the crawl, with one suffix.
pub(crate) fn begin(alloc: Global, yard: &mut Yard<MemStore>) -> Result<(), Fault> {
    let suffixes = Text::from_bytes(alloc, b"test")?;
    if !can_begin(alloc, yard, &suffixes) {
        return Err(Fault::Memory);
    }
    yard.begin(&suffixes)
}

// Sends the pairs.
pub(crate) fn send(yard: &mut Yard<MemStore>) -> Result<(), Fault> {
    if !yard.is_sound() || !yard.has_begun() {
        return Err(Fault::Memory);
    }
    yard.send_pairs()
}

// A pass, where one is due.
pub(crate) fn pass(yard: &mut Yard<MemStore>) -> Result<(), Fault> {
    if !yard.is_sound() || !yard.is_pass_due() {
        return Err(Fault::Memory);
    }
    yard.pass()?;
    Ok(())
}

// The first so many of the front.
pub(crate) fn front(
    alloc: Global,
    yard: &mut Yard<MemStore>,
    most: u32,
) -> Result<Vec<Work>, Fault> {
    if !yard.is_sound() {
        return Err(Fault::Memory);
    }
    yard.front(alloc, most)
}

// Whether this can be settled: one URL of the front, without links.
fn can_settle(yard: &Yard<MemStore>, done: &[Done]) -> bool
    ensures sound { IsTrue result → IsSound yard.now.parts }
    ensures settles { IsTrue result → MaySettle yard.now.parts.urls yard.now.parts.rest done.now }
{
    match done {
        [one] => {
            yard.is_sound() && yard.is_in_front(one.number) && one.receipts.items().is_empty()
        }
        _ => false,
    }
}

// Settles a page, without links.
fn settle(alloc: Global, yard: &mut Yard<MemStore>, number: u64) -> Result<(), Fault> {
    let done = [Done {
        number,
        outcome: Outcome::Page,
        receipts: Receipts::new(alloc),
    }];
    if !can_settle(yard, &done) {
        return Err(Fault::Memory);
    }
    yard.settle(&done)
}

// Settles the first page of the front, where it has this URL.
pub(crate) fn settle_first(
    alloc: Global,
    yard: &mut Yard<MemStore>,
    text: &[u8],
) -> Result<(), Fault> {
    match front(alloc, yard, 1)?.pop() {
        Some(work) if work.web.text() == text => settle(alloc, yard, work.number),
        _ => Err(Fault::Memory),
    }
}
