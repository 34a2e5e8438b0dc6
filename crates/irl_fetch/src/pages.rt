ghost use Rattle.irl_fetch.specs.Pages.{FetchesPage, OffersAll, Settles};
ghost use Rattle.irl_fetch.specs.Telling.{fetcher, offering, TakesPages};

use crate::gate::Gate;
use crate::keeping::keep;
use irl_answer::{Found, offers, outcome};
use irl_key::Work;
use irl_offer::{Answer, Done, Fault, Offers, Receipts, Want};
use irl_pld::Suffixes;
use irl_record::Fetch;
use std::alloc::Global;
use std::sync::Wait;

/// Fetches a page, offers what it names, and keeps what came of it. It may wait for other fetchers. A fault is want of
/// memory, or one that the offers answered.
pub fn fetch_page<R: Wait, F: Fetch, O: Offers, G: Gate>(
    rt: &R,
    alloc: Global,
    fetch: &mut F,
    sink: &mut O,
    suffixes: &Suffixes,
    gate: &mut G,
    work: &Work,
    done: &mut Vec<Done>,
) -> Result<(), Fault>
    requires takes { TakesPages (O.takes sink.old) }
    ensures { FetchesPage result suffixes.now work.now
        (fetcher F.asked F.gives F.faults F.last F.aim fetch.old) (fetcher F.asked F.gives F.faults F.last F.aim fetch.new)
        (offering O.entries O.last_fault O.takes O.follows sink.old)
        (offering O.entries O.last_fault O.takes O.follows sink.new)
        done.old.items done.new.items }
{
    gate.before(work.number);
    let answer = fetch.fetch(alloc, &work.web, Want::Page);
    gate.after(work.number);
    settle(rt, alloc, sink, suffixes, work, &answer?, done)
}

// Offers what the answer to a page names, and keeps what came of the page.
fn settle<R: Wait, O: Offers>(
    rt: &R,
    alloc: Global,
    sink: &mut O,
    suffixes: &Suffixes,
    work: &Work,
    answer: &Answer,
    done: &mut Vec<Done>,
) -> Result<(), Fault>
    requires takes { TakesPages (O.takes sink.old) }
    ensures { Settles result suffixes.now work.now answer.now
        (offering O.entries O.last_fault O.takes O.follows sink.old)
        (offering O.entries O.last_fault O.takes O.follows sink.new)
        done.old.items done.new.items }
{
    let outcome = outcome(alloc, &work.web, answer)?;
    let mut found = offers(alloc, suffixes, &work.web, answer)?;
    let receipts = offer_all(rt, alloc, sink, &mut found)?;
    let one = Done {
        number: work.number,
        outcome,
        receipts,
    };
    keep(done, one)?;
    Ok(())
}

// Offers all that was found, in order, and answers the receipts.
fn offer_all<R: Wait, O: Offers>(
    rt: &R,
    alloc: Global,
    sink: &mut O,
    found: &mut Found<'_>,
) -> Result<Receipts, Fault>
    requires takes { TakesPages (O.takes sink.old) }
    ensures { OffersAll result found.old
        (offering O.entries O.last_fault O.takes O.follows sink.old)
        (offering O.entries O.last_fault O.takes O.follows sink.new) }
{
    let mut receipts = Receipts::new(alloc);
    while let Some(offer) = found.next(alloc)? {
        match sink.offer(rt, offer) {
            Ok(receipt) => receipts.push(receipt)?,
            Err((fault, _)) => return Err(fault),
        }
    }
    Ok(receipts)
}
