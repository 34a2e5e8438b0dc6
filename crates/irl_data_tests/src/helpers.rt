//! What several tests are made of: offers, places, outcomes, and what is asked of a store.

ghost use Rattle.std.specs.Prelude.{IfOk};
ghost use Rattle.irl_events.specs.Seen.{HasFronts};
ghost use Rattle.irl_frontier.specs.Plans.{IsNoPass};

use irl_events::{Event, Numbers, Places, Settled};
use irl_offer::{Asked, Kind, Offer, Op, Outcome, Place, Slot, Text};
use std::alloc::{AllocError, Global};
use std::process::Abort;

/// Ends the test where two values differ, and says what they are. It formats no value, which `assert_eq!` does with both and which
/// takes the longest in the proof of a test.
pub(crate) fn same(rt: &impl Abort, is_same: bool, what: &str) {
    assert!(rt; is_same, "another {what}");
}

/// Nothing but that the store is for a crawl.
pub(crate) const NOTHING_ASKED: Asked = Asked {
    kind: Kind::Crawl,
    rule: None,
    buckets: None,
    array: None,
    trigger: None,
    block: None,
    cap: None,
    queues: None,
    base: None,
    most: None,
    ranks: None,
};

/// An offer that no page gave, with the front of a text that fits.
pub(crate) fn offer(
    alloc: Global,
    op: Op,
    key: u64,
    value: u64,
    text: &[u8],
) -> Result<Offer, AllocError> {
    Ok(Offer {
        op,
        key,
        value,
        from: 0,
        aux: Text::from_bytes(alloc, text.get(..2_048).unwrap_or(text))?,
    })
}

/// The places of these numbers.
pub(crate) fn places(alloc: Global, told: &[(u64, Slot)]) -> Result<Places, AllocError> {
    let mut places = Places::new(alloc);
    for (number, slot) in told {
        places.push(Place {
            number: *number,
            slot: *slot,
        })?;
    }
    Ok(places)
}

/// The outcomes of these numbers.
pub(crate) fn settled(alloc: Global, told: &[(u64, Outcome)]) -> Result<Settled, AllocError> {
    let mut settled = Settled::new(alloc);
    for one in told {
        settled.push(*one)?;
    }
    Ok(settled)
}

/// A settle of these outcomes, with the front of the one bucket.
pub(crate) fn settle(alloc: Global, front: u64, done: Settled) -> Result<Event, AllocError>
    ensures fronts { IfOk result (λ event. HasFronts 1 event) }
    ensures other { IfOk result (λ event. IsNoPass event) }
{
    let mut fronts = Numbers::new(alloc);
    fronts.push(front)?;
    Ok(Event::Settle { fronts, done })
}
