ghost use Rattle.std.specs.Prelude.{◌≡◌, ◌≤◌, length, IfOk};
ghost use Rattle.irl_events.specs.Seen.{HasFronts};
ghost use Rattle.irl_frontier.specs.Plans.{IsNoPass};

use crate::helpers::{same, settle};
use irl_events::{Course, Happening, Places, Settled, course_of};
use irl_frontier::{Event, Fate, FateFault, Frontier, Item};
use irl_offer::{Kind, Outcome, Place, Rule, Settings, Slot, Text};
use std::alloc::{AllocError, Global};
use std::test::Fail;

// A crawl over one bucket, with so many queues, and budgets from a base up to the most, over three ranks.
fn opened(alloc: Global, queues: u32, base: u32, most: u32) -> Result<Frontier, AllocError>
    requires least { 1 ≤ queues }
    requires queues { queues ≤ 64 }
    requires base { 1 ≤ base }
    requires most { base ≤ most }
    requires greatest { most ≤ 1000 }
    ensures { IfOk result (λ frontier. frontier.settings.buckets ≡ 1) }
{
    let settings = Settings {
        kind: Kind::Crawl,
        rule: Rule::Keep,
        buckets: 1,
        array: 4,
        trigger: 2,
        block: 4,
        cap: 1_000_000,
        queues,
        base,
        most,
        ranks: 3,
    };
    Frontier::new(alloc, &settings)
}

// So many items with numbers from a first one, of so many domains in turn.
fn items(alloc: Global, first: u64, count: u64, domains: u64) -> Result<Vec<Item>, AllocError> {
    let mut items = Vec::with_capacity(alloc, 16)?;
    for number in first..first.saturating_add(count) {
        let letter = u8::try_from(number % domains.max(1)).unwrap_or(0);
        let text = [b'a'.saturating_add(letter), b'.', b't', b'e', b's', b't'];
        let pld = Text::from_bytes(alloc, &text)?;
        items.push(Item { number, pld })?;
    }
    Ok(items)
}

fn begin(alloc: Global) -> Result<Event, AllocError>
    ensures fronts { IfOk result (λ event. HasFronts 1 event) }
    ensures other { IfOk result (λ event. IsNoPass event) }
{
    Ok(Event::Begin(Text::from_bytes(alloc, b"test")?))
}

// So many judged offers are told.
fn pairs(judged: u64) -> Event
    ensures fronts { HasFronts 1 result }
    ensures other { IsNoPass result }
{
    Event::Pairs {
        cuts: 1,
        judged,
        pairs: 0,
    }
}

// The rule that a fault names, and 0 where memory ran out.
fn rule_of(fault: FateFault) -> u8 {
    match fault {
        FateFault::Illegal(rule) => rule,
        FateFault::Memory => 0,
    }
}

// Plans an event and does it: by which rule it was refused, or none.
fn carry_out(frontier: &mut Frontier, event: &Event) -> Option<u8>
    requires buckets { frontier.old.settings.buckets ≡ 1 }
    requires fronts { HasFronts 1 event.now }
    requires other { IsNoPass event.now }
    ensures { frontier.new.settings.buckets ≡ 1 }
{
    match frontier.plan(event) {
        Ok(plan) => frontier.commit(plan),
        Err(fault) => return Some(rule_of(fault)),
    }
    None
}

// The same with a pass, of which the places are kept.
fn pass(
    frontier: &mut Frontier,
    judged: u64,
    fresh: &[Item],
    places: &mut Places,
) -> Result<Option<u8>, AllocError>
    requires buckets { frontier.old.settings.buckets ≡ 1 }
    ensures { frontier.new.settings.buckets ≡ 1 }
{
    match frontier.plan_pass(judged, fresh) {
        Ok(plan) => {
            for place in plan.places() {
                places.push(*place)?;
            }
            frontier.commit(plan);
        }
        Err(fault) => return Ok(Some(rule_of(fault))),
    }
    Ok(None)
}

// Judged pairs by the domains that they lead to; one was judged before, and leads to none.
const PAIRS: [Option<&[u8]>; 7] = [
    Some(b"b.test"),
    Some(b"c.test"),
    Some(b"b.test"),
    None,
    Some(b"a.test"),
    Some(b"c.test"),
    Some(b"b.test"),
];

// How many items of each of the four domains a pass lets through, from a.test on.
const LET_THROUGH: [u64; 4] = [2, 4, 3, 1];

// How many places are in front, of the items of one of four domains in turn.
fn in_front(places: &[Place], domain: u64) -> u64 {
    let mut count: u64 = 0;
    for place in places {
        if matches!(place.slot, Slot::Front) && place.number % 4 == domain {
            count = count.saturating_add(1);
        }
    }
    count
}

// How many items of each of four domains a pass puts in front, of the items of these in turn.
fn let_through(frontier: &Frontier, fresh: &[Item]) -> [u64; 4] {
    match frontier.plan_pass(40, fresh) {
        Ok(plan) => [
            in_front(plan.places(), 0),
            in_front(plan.places(), 1),
            in_front(plan.places(), 2),
            in_front(plan.places(), 3),
        ],
        Err(_) => [0; 4],
    }
}

// The rules by which a second begin is refused, and a pass that goes further than what was told.
fn refusals(
    alloc: Global,
    frontier: &mut Frontier,
    fresh: &[Item],
) -> Result<[Option<u8>; 2], AllocError>
    requires { frontier.old.settings.buckets ≡ 1 }
{
    let begun = carry_out(frontier, &begin(alloc)?);
    let passed = pass(frontier, 41, fresh, &mut Places::new(alloc))?;
    Ok([begun, passed])
}

// A crawl that has begun, with budgets from 1 to 4.
fn begun(alloc: Global) -> Result<Frontier, AllocError>
    ensures { IfOk result (λ frontier. frontier.settings.buckets ≡ 1) }
{
    let mut frontier = opened(alloc, 2, 1, 4)?;
    carry_out(&mut frontier, &begin(alloc)?);
    carry_out(&mut frontier, &pairs(40));
    Ok(frontier)
}

#[test]
fn budgets_go_by_what_was_told(rt: HostRuntime) -> Result<(), Fail> {
    let mut frontier = begun(rt.alloc())?;
    let fresh = items(rt.alloc(), 0, 40, 4)?;
    let rules = refusals(rt.alloc(), &mut frontier, &fresh)?;
    same(&rt, rules == [Some(1), Some(3)], "rule");
    for linked in PAIRS {
        frontier.tell(linked)?;
    }
    same(&rt, frontier.told() == 7, "number of told pairs");
    same(&rt, let_through(&frontier, &fresh) == LET_THROUGH, "budget");
    Ok(())
}

// Does an event and keeps it.
fn happen(
    alloc: Global,
    frontier: &mut Frontier,
    event: Event,
    happened: &mut Vec<Happening>,
) -> Result<bool, AllocError>
    requires buckets { frontier.old.settings.buckets ≡ 1 }
    requires fronts { HasFronts 1 event }
    requires other { IsNoPass event }
    ensures { frontier.new.settings.buckets ≡ 1 }
{
    let done = carry_out(frontier, &event).is_none();
    let places = Places::new(alloc);
    happened.push(Happening { event, places })?;
    Ok(done)
}

// The same with a pass that reads these fresh items.
fn read(
    alloc: Global,
    frontier: &mut Frontier,
    fresh: &[Item],
    happened: &mut Vec<Happening>,
) -> Result<bool, AllocError>
    requires { frontier.old.settings.buckets ≡ 1 }
    ensures { frontier.new.settings.buckets ≡ 1 }
{
    let mut places = Places::new(alloc);
    let done = pass(frontier, MANY, fresh, &mut places)?.is_none();
    let event = Event::Pass { judged: MANY };
    happened.push(Happening { event, places })?;
    Ok(done)
}

// All that is in front comes to pages.
fn front_done(alloc: Global, frontier: &Frontier, front: u64) -> Result<Event, AllocError>
    ensures fronts { IfOk result (λ event. HasFronts 1 event) }
    ensures other { IfOk result (λ event. IsNoPass event) }
{
    let mut done = Settled::new(alloc);
    for number in 0..MANY {
        if frontier.fate(number) == Fate::Front {
            done.push((number, Outcome::Page))?;
        }
    }
    settle(alloc, front, done)
}

const MANY: u64 = 10_000;

// Three passes of many items of 100 domains, each of which is settled but for the last.
fn crawl(
    alloc: Global,
    frontier: &mut Frontier,
    happened: &mut Vec<Happening>,
) -> Result<bool, AllocError>
    requires { frontier.old.settings.buckets ≡ 1 }
{
    let fresh = items(alloc, 0, MANY, 100)?;
    let mut done = happen(alloc, frontier, begin(alloc)?, happened)?;
    done &= happen(alloc, frontier, pairs(MANY), happened)?;
    done &= read(alloc, frontier, &fresh, happened)?;
    for front in 1..=2_u64 {
        let settle = front_done(alloc, frontier, front)?;
        done &= happen(alloc, frontier, settle, happened)?;
        done &= read(alloc, frontier, &[], happened)?;
    }
    Ok(done)
}

// Whether each number of a list has this fate.
fn have(frontier: &Frontier, numbers: &[u64], fate: Fate) -> bool {
    numbers.iter().all(|number| frontier.fate(*number) == fate)
}

// Whether each number stands where the plain program has it, and how many these are.
fn agree(frontier: &Frontier, course: &Course) -> Option<usize> {
    let mut same = have(frontier, &course.front, Fate::Front);
    let mut count = course.front.len().saturating_add(course.done.len());
    for (at, list) in course.waiting.lists.iter().enumerate() {
        let fate = if at == 64 {
            Fate::Last
        } else {
            Fate::Queue(u32::try_from(at).unwrap_or(0).saturating_add(1))
        };
        same &= have(frontier, list, fate);
        count = count.saturating_add(list.len());
    }
    for (number, outcome) in &course.done {
        same &= frontier.fate(*number) == Fate::Done(*outcome);
    }
    if same { Some(count) } else { None }
}

// By the plain program how many numbers are in front and done, and how many queues there are; how many numbers the crawl has where
// that has them; and what it has first in front.
fn crawled(alloc: Global, frontier: &mut Frontier) -> Result<([usize; 4], Vec<u64>), AllocError>
    requires { frontier.old.settings.buckets ≡ 1 }
{
    let mut happened = Vec::new(alloc);
    if !crawl(alloc, frontier, &mut happened)? {
        return Err(AllocError);
    }
    let course = course_of(alloc, 2, 1, &happened)?;
    let numbers = [
        course.front.len(),
        course.done.len(),
        course.waiting.queues as usize,
        agree(frontier, &course).unwrap_or(0),
    ];
    Ok((numbers, frontier.first(alloc, 3)?))
}

// How many numbers are left in front, and the counts of five more URLs than were read.
fn counted(frontier: &Frontier) -> [u64; 7] {
    let counts = frontier.counts(MANY + 5);
    [
        frontier.left() as u64,
        counts.fresh,
        counts.queued,
        counts.last,
        counts.front,
        counts.done,
        counts.page,
    ]
}

#[test]
fn many_urls_wait_as_the_plain_program_has_them(rt: HostRuntime) -> Result<(), Fail> {
    let mut frontier = opened(rt.alloc(), 2, 10, 10)?;
    let (numbers, first) = crawled(rt.alloc(), &mut frontier)?;
    let is_same = numbers == [1_000, 2_000, 4, MANY as usize];
    same(&rt, is_same, "place of a URL, or number of them");
    let is_first = first.as_slice() == [2_000, 2_001, 2_002].as_slice();
    same(&rt, is_first, "first URL in front");
    let is_counted = counted(&frontier) == [1_000, 5, 3_000, 4_000, 1_000, 2_000, 2_000];
    same(&rt, is_counted, "count");
    Ok(())
}
