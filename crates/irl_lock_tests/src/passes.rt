ghost use Rattle.std.specs.Prelude.{◌≡◌};
ghost use Rattle.irl_offer.specs.declared.settings.Kind.TheVariants.{Lines as LinesKind};
ghost use Rattle.irl_lock.specs.Sharing.{IsFree, IsOf, opening_of, parts_in};

use crate::crew::{Crew, offer};
use crate::holding::{Holding, looks_until};
use irl_disk::{MemStore, Store};
use irl_lock::{Pass, Shared};
use irl_offer::{Asked, Fault, Kind, Receipt};
use irl_yard::Yard;
use std::alloc::{AllocError, Global};
use std::sync::Wait;
use std::sync::atomic::AtomicBool;
use std::sync::atomic::Ordering::SeqCst;
use std::test::Fail;
use std::thread::{Threads, join};

// What is asked of a store of lines.
fn asked_of(buckets: u32, array: u32, cap: u64) -> Asked {
    Asked {
        kind: Kind::Lines,
        rule: None,
        buckets: Some(buckets),
        array: Some(array),
        trigger: None,
        block: None,
        cap: Some(cap),
        queues: None,
        base: None,
        most: None,
        ranks: None,
    }
}

// Opens a store, or makes one.
fn entered<S: Store + Drop>(alloc: Global, store: S, asked: &Asked) -> Result<Yard<S>, Fault> {
    match Yard::enter(alloc, store, asked) {
        Ok(yard) => Ok(yard),
        Err(_) => Err(Fault::Memory),
    }
}

// An answer that isn't given.
type Answer = Result<Receipt, Fault>;

const NONE: Answer = Err(Fault::Memory);

const FAILED: Answer = Err(Fault::Failed);

fn at(bucket: u32, number: u64) -> Answer {
    Ok(Receipt { bucket, number })
}

// ---- a flush goes on while another pass pushes
type OfTwo = [Answer; 2];

// The first pass hands in two offers of bucket 0.
fn offer_twice<R: Wait, S: Store>(
    rt: &R,
    alloc: Global,
    shared: &Shared<S>,
    pass: Pass<S>,
) -> (Pass<S>, OfTwo)
    requires lines { (opening_of shared.now).parts.urls.settings.kind ≡ Kind.Lines }
    requires own { IsOf shared.now pass }
    requires free { IsFree pass }
    ensures own { IsOf shared.now result.0 }
    ensures free { IsFree result.0 }
    ensures parts { parts_in result.0 ≡ parts_in pass }
{
    let mut pass = pass;
    let one = offer(rt, alloc, shared, &mut pass, 1);
    let two = offer(rt, alloc, shared, &mut pass, 1);
    (pass, [one, two])
}

// The flags by which the two threads meet.
#[derive(Clone, Copy)]
struct Flags<'a> {
    is_there: &'a AtomicBool,
    may_go: &'a AtomicBool,
}

// The second pass waits until the first is in its flush, and hands in an offer of bucket 1. Whether it saw the first there.
fn offer_between<R: Wait, S: Store>(
    rt: &R,
    alloc: Global,
    shared: &Shared<S>,
    pass: Pass<S>,
    flags: &Flags<'_>,
) -> (Pass<S>, (Answer, bool))
    requires lines { (opening_of shared.now).parts.urls.settings.kind ≡ Kind.Lines }
    requires own { IsOf shared.now pass }
    requires free { IsFree pass }
    ensures own { IsOf shared.now result.0 }
    ensures free { IsFree result.0 }
    ensures parts { parts_in result.0 ≡ parts_in pass }
{
    let mut pass = pass;
    let saw = looks_until(flags.is_there);
    let answer = offer(rt, alloc, shared, &mut pass, 0x8000_0000_0000_0001);
    flags.may_go.store(true, SeqCst);
    (pass, (answer, saw))
}

// Both at once.
fn offer_both<R: Threads + Wait + Sync, S: Store + Send>(
    rt: &R,
    alloc: Global,
    shared: &Shared<S>,
    first: Pass<S>,
    second: Pass<S>,
    flags: &Flags<'_>,
) -> ((Pass<S>, OfTwo), (Pass<S>, (Answer, bool)))
    requires lines { (opening_of shared.now).parts.urls.settings.kind ≡ Kind.Lines }
    requires first { IsOf shared.now first × IsFree first }
    requires second { IsOf shared.now second × IsFree second }
    ensures first { IsOf shared.now result.0.0 × IsFree result.0.0 × (parts_in result.0.0 ≡ parts_in first) }
    ensures second { IsOf shared.now result.1.0 × IsFree result.1.0 × (parts_in result.1.0 ≡ parts_in second) }
{
    join(
        rt,
        move || -> (Pass<S>, OfTwo)
            requires { ((opening_of shared.now).parts.urls.settings.kind ≡ Kind.Lines) × IsOf shared.now first × IsFree first }
            ensures { IsOf shared.entry.now result.0 × IsFree result.0 × (parts_in result.0 ≡ parts_in first) }
        { offer_twice(rt, alloc, shared, first) },
        move || -> (Pass<S>, (Answer, bool))
            requires { ((opening_of shared.now).parts.urls.settings.kind ≡ Kind.Lines) × IsOf shared.now second × IsFree second }
            ensures { IsOf shared.entry.now result.0 × IsFree result.0 × (parts_in result.0 ≡ parts_in second) }
        { offer_between(rt, alloc, shared, second, flags) },
    )
}

fn run_both<R: Threads + Wait + Sync, S: Store + Drop + Send>(
    rt: &R,
    alloc: Global,
    yard: Yard<S>,
    flags: &Flags<'_>,
) -> Result<(OfTwo, (Answer, bool), Result<(), Fault>, Yard<S>), Fault> {
    let Crew {
        shared,
        first,
        second,
        room,
    } = Crew::of(alloc, yard)?;
    let (one, two) = offer_both(rt, alloc, &shared, first, second, flags);
    let (first, of_first) = one;
    let (second, of_second) = two;
    let crew = Crew {
        shared,
        first,
        second,
        room,
    };
    let (closed, yard) = crew.close();
    Ok((of_first, of_second, closed, yard))
}

#[test]
fn a_pass_pushes_while_another_flushes(rt: HostRuntime) -> Result<(), Fail> {
    let alloc = rt.alloc();
    let is_there = AtomicBool::new(false);
    let may_go = AtomicBool::new(false);
    let flags = Flags {
        is_there: &is_there,
        may_go: &may_go,
    };
    let store = Holding::new(alloc, &is_there, &may_go)?;
    let yard = entered(alloc, store, &asked_of(2, 1, 1_000))?;
    let (of_first, of_second, closed, yard) = run_both(&rt, alloc, yard, &flags)?;
    assert_eq!(rt; of_first, [at(0, 0), at(0, 1)]);
    assert_eq!(rt; of_second, (at(1, 0), true));
    assert_eq!(rt; closed, Ok(()));
    assert!(rt; !yard.into_store().gave_up);
    Ok(())
}

// ---- offers of two passes, one after another
// What is answered to them, the last fault of each pass then, what closing answers, and how many offers bucket 0 has.
type Ran = ([Answer; 5], [Option<Fault>; 2], Result<(), Fault>, u64);

fn run<R: Wait, S: Store + Drop>(
    rt: &R,
    alloc: Global,
    yard: Yard<S>,
    offers: &[(bool, u64)],
) -> Result<Ran, Fault> {
    let mut crew = Crew::of(alloc, yard)?;
    let mut answers = [NONE; 5];
    for (answer, (by_second, key)) in answers.iter_mut().zip(offers) {
        *answer = crew.offer(rt, alloc, *by_second, *key);
    }
    let lasts = [crew.first.last_fault(), crew.second.last_fault()];
    let (closed, yard) = crew.close();
    let durable = if yard.settings().buckets > 0 {
        yard.durable(0)
    } else {
        0
    };
    Ok((answers, lasts, closed, durable))
}

// A store whose files are empty, and one of which the call of this number fails.
fn blank(alloc: Global) -> MemStore {
    MemStore::new(alloc, Vec::new(alloc))
}

fn failing(alloc: Global, call: u64) -> Result<MemStore, AllocError> {
    Ok(MemStore::new(alloc, vec![in alloc; call]?))
}

const FIRST: (bool, u64) = (false, 1);

const SECOND: (bool, u64) = (true, 1);

#[test]
fn passes_take_turns(rt: HostRuntime) -> Result<(), Fail> {
    let alloc = rt.alloc();
    let yard = entered(alloc, blank(alloc), &asked_of(1, 2, 1_000))?;
    let ran = run(&rt, alloc, yard, &[FIRST, SECOND, FIRST])?;
    let answers = [at(0, 0), at(0, 1), at(0, 2), NONE, NONE];
    assert_eq!(rt; ran, (answers, [None, None], Ok(()), 3));
    Ok(())
}

// Where the first call behind those that make the store fails.
#[test]
fn a_failure_is_answered_to_all(rt: HostRuntime) -> Result<(), Fail> {
    let alloc = rt.alloc();
    let asked = asked_of(2, 1, 1_000);
    let calls = entered(alloc, blank(alloc), &asked)?.into_store().calls();
    let yard = entered(alloc, failing(alloc, calls)?, &asked)?;
    let other = (true, 0x8000_0000_0000_0001);
    let ran = run(&rt, alloc, yard, &[FIRST, FIRST, SECOND, other])?;
    let last = Some(Fault::Failed);
    let answers = [at(0, 0), FAILED, FAILED, at(1, 0), NONE];
    assert_eq!(rt; ran, (answers, [last, last], Err(Fault::Failed), 0));
    Ok(())
}

#[test]
fn a_full_bucket_is_answered_to_all(rt: HostRuntime) -> Result<(), Fail> {
    let alloc = rt.alloc();
    let yard = entered(alloc, blank(alloc), &asked_of(1, 1, 2))?;
    let ran = run(&rt, alloc, yard, &[FIRST, FIRST, FIRST, SECOND, FIRST])?;
    let full = Fault::Full(0);
    let answers = [at(0, 0), at(0, 1), at(0, 2), Err(full), Err(full)];
    assert_eq!(rt; ran, (answers, [Some(full), Some(full)], Err(full), 2));
    Ok(())
}
