ghost use Rattle.std.specs.Prelude.{◌≡◌, ◌++◌, ◌+◌, ◌<◌, ◌≤◌, [], map, min, nat_eq, if◌then◌else◌, IfOk, OnOk, slice_set, vec_len};
ghost use Rattle.std.specs.List.{filter};
ghost use Rattle.irl_base.specs.Lists.{items_of, list_at, with_one};
ghost use Rattle.irl_events.specs.Events.{after_event, before_all, has_number, is_in_front, numbers_of, progress, without};
ghost use Rattle.irl_events.specs.Queues.{after_pass, delivered, empty_lists, put as with_item, round_ended};
ghost use Rattle.irl_events.specs.Courses.{HasSizes, happened, progress_of, waiting_of};
ghost use Rattle.irl_events.specs.Seen.{seen};

use crate::{Event, Places};
use irl_offer::{Outcome, Place, Slot};
use std::alloc::{AllocError, Global};
use std::mem;

/// An event with the places that it gives; beside an event that is no pass they are not looked at.
#[derive(Drop)]
pub struct Happening {
    pub event: Event,
    pub places: Places,
}

/// What waits: 64 queues, of which the first so many are in use, and the last list behind them; and how many passes of the
/// round are done.
#[derive(Drop)]
pub struct Postponed {
    pub lists: Vec<Vec<u64>>,
    pub queues: u32,
    pub passes: u32,
}

/// How far a crawl has come by its events, in plain lists of URLs by their numbers.
#[derive(Drop)]
pub struct Course {
    /// Whether it has begun.
    pub begun: bool,
    /// The numbers of the last pairs that were sent: cuts, judged offers and judged pairs.
    pub cuts: u64,
    pub sent: u64,
    pub pairs: u64,
    /// The number of the last pass: each URL below it was read.
    pub read: u64,
    /// How many offers each bucket's list had at the last settle.
    pub fronts: Vec<u64>,
    /// What is to be fetched next, in the order of reading.
    pub front: Vec<u64>,
    /// What waits.
    pub waiting: Postponed,
    /// What is done, in order, each with what came of it.
    pub done: Vec<(u64, Outcome)>,
}

// Puts a number behind the others of a list, where there is this list.
fn push_at(lists: &mut Vec<Vec<u64>>, at: usize, number: u64) -> Result<(), AllocError>
    ensures ok { OnOk result (items_of lists.new.items ≡ with_one (items_of lists.old.items) at number) }
    ensures len { vec_len lists.new ≡ vec_len lists.old }
{
    if at >= lists.len() {
        return Ok(());
    }
    lists[at].push(number)?;
    Ok(())
}

// Puts a number where its slot says: one in front leaves the lists.
fn put(lists: &mut Vec<Vec<u64>>, number: u64, slot: Slot) -> Result<(), AllocError>
    ensures ok { OnOk result (items_of lists.new.items ≡ with_item (items_of lists.old.items) number slot) }
    ensures len { vec_len lists.new ≡ vec_len lists.old }
{
    match slot {
        Slot::Front => Ok(()),
        Slot::Queue(queue) => push_at(lists, queue.saturating_sub(1) as usize, number),
        Slot::Last => push_at(lists, 64, number),
    }
}

// Puts numbers where their slots say, in order.
fn put_all(lists: &mut Vec<Vec<u64>>, places: &[Place]) -> Result<(), AllocError>
    ensures ok { OnOk result (items_of lists.new.items
        ≡ delivered (items_of lists.old.items) (numbers_of places.now) places.now) }
    ensures len { vec_len lists.new ≡ vec_len lists.old }
{
    for place in places {
        put(lists, place.number, place.slot)?;
    }
    Ok(())
}

// Puts a list in place of another, and hands that one back.
fn replaced(lists: &mut Vec<Vec<u64>>, at: usize, list: Vec<u64>) -> Vec<u64>
    requires { at < vec_len lists.old }
    ensures old { result.items ≡ list_at (items_of lists.old.items) at }
    ensures lists { items_of lists.new.items ≡ slice_set (items_of lists.old.items) at list.items }
    ensures len { vec_len lists.new ≡ vec_len lists.old }
{
    mem::replace(&mut lists[at], list)
}

// The end of a pass, and of the round where so many passes are all of it.
fn end_pass(alloc: Global, waiting: &mut Postponed, passes: u32)
    requires sizes { HasSizes waiting.old }
    requires passes { passes ≤ 64 + 1 }
    ensures ended { waiting_of waiting.new ≡ round_ended (items_of waiting.old.lists.items) waiting.old.queues passes }
    ensures sizes { HasSizes waiting.new }
{
    if passes < waiting.queues {
        waiting.passes = passes;
        return;
    }
    let last = replaced(&mut waiting.lists, 64, Vec::new(alloc));
    if !last.is_empty() {
        waiting.queues = (2 * waiting.queues).min(64);
    }
    replaced(&mut waiting.lists, 0, last);
    waiting.passes = 0;
}

// A pass that reads the next queue and gives these places.
fn pass(alloc: Global, waiting: &mut Postponed, places: &[Place]) -> Result<(), AllocError>
    requires { HasSizes waiting.old }
    ensures ok { OnOk result (waiting_of waiting.new
        ≡ after_pass (waiting_of waiting.old) (numbers_of places.now) places.now) }
    ensures sizes { OnOk result (HasSizes waiting.new) }
{
    replaced(&mut waiting.lists, waiting.passes as usize, Vec::new(alloc));
    put_all(&mut waiting.lists, places)?;
    let passes = waiting.passes + 1;
    end_pass(alloc, waiting, passes);
    Ok(())
}

// The numbers that places put into the front, in order.
fn front_of(alloc: Global, places: &[Place]) -> Result<Vec<u64>, AllocError>
    ensures { IfOk result (λ front. front.items ≡ numbers_of (filter (λ place. is_in_front place.slot) places.now)) }
{
    places
        .iter()
        .filter(|place| matches!(place.slot, Slot::Front))
        .map(|place| place.number)
        .collect(alloc)
}

// Whether one of these outcomes is of this number.
fn has_outcome(done: &[(u64, Outcome)], number: u64) -> bool
    ensures { result ≡ has_number (map (λ d. d.0) done.now) number }
{
    done.iter().any(|one| one.0 == number)
}

// Numbers without those of some outcomes.
fn left(alloc: Global, numbers: &[u64], done: &[(u64, Outcome)]) -> Result<Vec<u64>, AllocError>
    ensures { IfOk result (λ left. left.items ≡ without numbers.now done.now) }
{
    numbers
        .iter()
        .copied()
        .filter(|number| !has_outcome(done, *number))
        .collect(alloc)
}

// One more event, with its places.
fn step(
    alloc: Global,
    course: &mut Course,
    event: &Event,
    places: &[Place],
) -> Result<(), AllocError>
    requires { HasSizes course.old.waiting }
    ensures ok { OnOk result (progress_of course.new
        ≡ after_event (progress_of course.old) (seen event.now) places.now) }
    ensures sizes { OnOk result (HasSizes course.new.waiting) }
{
    course.begun = true;
    match event {
        Event::Begin(_) | Event::Robots(_) => Ok(()),
        Event::Pairs {
            cuts,
            judged,
            pairs,
        } => {
            course.cuts = *cuts;
            course.sent = *judged;
            course.pairs = *pairs;
            Ok(())
        }
        Event::Pass { judged } => {
            course.read = *judged;
            course.front.append(&mut front_of(alloc, places)?)?;
            pass(alloc, &mut course.waiting, places)?;
            Ok(())
        }
        Event::Settle { fronts, done } => {
            course.fronts = fronts.items().to_vec(alloc)?;
            course.front = left(alloc, &course.front, done.items())?;
            course.done.extend_from_slice(done.items())?;
            Ok(())
        }
    }
}

// 65 lists, all empty.
fn no_lists(alloc: Global) -> Result<Vec<Vec<u64>>, AllocError>
    ensures lists { IfOk result (λ lists. items_of lists.items ≡ empty_lists) }
    ensures len { IfOk result (λ lists. vec_len lists ≡ 65) }
{
    let mut lists = Vec::with_capacity(alloc, 65)?;
    for _ in 0..65_usize {
        lists.push(Vec::new(alloc))?;
    }
    Ok(lists)
}

// Before the first event.
fn before_events(alloc: Global, queues: u32, buckets: u32) -> Result<Course, AllocError>
    requires { queues ≤ 64 }
    ensures value { IfOk result (λ course. progress_of course ≡ before_all queues buckets) }
    ensures sizes { IfOk result (λ course. HasSizes course.waiting) }
{
    let lists = no_lists(alloc)?;
    let waiting = Postponed {
        lists,
        queues,
        passes: 0,
    };
    Ok(Course {
        begun: false,
        cuts: 0,
        sent: 0,
        pairs: 0,
        read: 0,
        fronts: vec![in alloc; 0; buckets as usize]?,
        front: Vec::new(alloc),
        waiting,
        done: Vec::new(alloc),
    })
}

/// How far a crawl with so many queues over so many buckets has come by these events, whatever rules they keep: where each URL
/// waits that was read, and what came of those that are done.
pub fn course_of(
    alloc: Global,
    queues: u32,
    buckets: u32,
    events: &[Happening],
) -> Result<Course, AllocError>
    requires { queues ≤ 64 }
    ensures { IfOk result (λ course. progress_of course ≡ progress queues buckets (happened events.now)) }
{
    let mut course = before_events(alloc, queues, buckets)?;
    for happening in events {
        step(
            alloc,
            &mut course,
            &happening.event,
            happening.places.items(),
        )?;
    }
    Ok(course)
}
