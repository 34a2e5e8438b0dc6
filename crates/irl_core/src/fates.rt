ghost use Rattle.std.specs.Prelude.{◌≡◌, ◌≤◌, ◌++◌, ◌∷◌, [], length, true, if◌then◌else◌, is_none, None, IfOk, OnOk, OnErr};
ghost use Rattle.irl_offer.specs.Buckets.{IsBucketCount};
ghost use Rattle.irl_events.specs.Events.{after_event, before_all, Pairs as SeenPairs};
ghost use Rattle.irl_events.specs.Legal.{broken};
ghost use Rattle.irl_events.specs.Seen.{seen, HasFronts};

use irl_fate::{Event, FateFault, Fates, Places};
use irl_offer::{Place, Text};
use std::alloc::{AllocError, Global};

/// The fates of a crawl that has begun, and of which nothing else is known.
pub fn begun(alloc: Global, queues: u32, buckets: u32) -> Result<Fates, AllocError>
    requires least { 1 ≤ queues }
    requires most { queues ≤ 64 }
    requires buckets { IsBucketCount buckets }
    ensures { IfOk result (λ fates. fates ≡ record (before_all queues buckets) { begun = true }) }
{
    let mut fates = Fates::new(alloc, queues, buckets)?;
    let event = Event::Begin(Text::from_bytes(alloc, b"")?);
    tell_legal(&mut fates, &event)?;
    Ok(fates)
}

// One event more that gives no places and breaks no rule. After want of memory the fates are as before.
fn tell_legal(fates: &mut Fates, event: &Event) -> Result<(), AllocError>
    requires fronts { HasFronts (length fates.old.fronts) event.now }
    requires legal { broken fates.old (seen event.now) [] ≡ None }
    ensures ok { OnOk result (fates.new ≡ after_event fates.old (seen event.now) []) }
    ensures err { OnErr result (fates.new ≡ fates.old) }
{
    match fates.apply(event, &[]) {
        Ok(()) => Ok(()),
        Err(FateFault::Memory) => Err(AllocError),
        Err(FateFault::Illegal(_)) => unreachable!(),
    }
}

/// One event more, if it breaks no rule. After want of memory the fates are as before.
pub fn tell(fates: &mut Fates, event: &Event, places: &[Place]) -> Result<bool, AllocError>
    requires { HasFronts (length fates.old.fronts) event.now }
    ensures value { IfOk result (λ took. took ≡ is_none (broken fates.old (seen event.now) places.now)) }
    ensures fates { IfOk result (λ took.
        fates.new ≡ (if took then after_event fates.old (seen event.now) places.now else fates.old)) }
    ensures err { OnErr result (fates.new ≡ fates.old) }
{
    match fates.apply(event, places) {
        Ok(()) => Ok(true),
        Err(FateFault::Illegal(_)) => Ok(false),
        Err(FateFault::Memory) => Err(AllocError),
    }
}

/// Tells that the pairs of so many judged offers are sent, which no pass may be told without.
pub fn tell_sent(fates: &mut Fates, judged: u64) -> Result<(), AllocError>
    requires begun { fates.old.begun ≡ true }
    requires cuts { fates.old.cuts ≡ 0 }
    requires pairs { fates.old.pairs ≡ 0 }
    requires sent { fates.old.sent ≤ judged }
    ensures ok { OnOk result (fates.new ≡ after_event fates.old (SeenPairs 0 judged 0) []) }
    ensures err { OnErr result (fates.new ≡ fates.old) }
{
    let event = Event::Pairs {
        cuts: 0,
        judged,
        pairs: 0,
    };
    tell_legal(fates, &event)
}

/// One event more, if it breaks no rule. After want of memory all is as before.
pub fn add_event(
    events: &mut Vec<(Event, Places)>,
    fates: &mut Fates,
    event: Event,
    places: Places,
) -> Result<bool, AllocError>
    requires { HasFronts (length fates.old.fronts) event }
    ensures value { IfOk result (λ took. took ≡ is_none (broken fates.old (seen event) places)) }
    ensures fates { IfOk result (λ took.
        fates.new ≡ (if took then after_event fates.old (seen event) places else fates.old)) }
    ensures events { IfOk result (λ took.
        events.new.items ≡ (if took then events.old.items ++ (event, places) ∷ [] else events.old.items)) }
    ensures fates_kept { OnErr result (fates.new ≡ fates.old) }
    ensures events_kept { OnErr result (events.new.items ≡ events.old.items) }
{
    events.reserve(1)?;
    if !tell(fates, &event, places.items())? {
        return Ok(false);
    }
    events.push_reserved((event, places));
    Ok(true)
}
