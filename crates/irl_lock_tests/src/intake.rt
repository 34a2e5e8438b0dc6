use irl_disk::{MemStore, Part};
use irl_intake::{Intake, Next};
use irl_offer::{Asked, Fault, Judged, Kind, Offer, Op, Rule, Text, Verdict, bucket_of};
use irl_yard::Yard;
use std::alloc::{AllocError, Global};
use std::test::Fail;

// What is asked of a store of tuples.
fn asked_of(buckets: u32, array: u32, trigger: u32, cap: Option<u64>) -> Asked {
    Asked {
        kind: Kind::Tuples,
        rule: Some(Rule::Keep),
        buckets: Some(buckets),
        array: Some(array),
        trigger: Some(trigger),
        block: None,
        cap,
        queues: None,
        base: None,
        most: None,
        ranks: None,
    }
}

// Opens a store, or makes one.
fn entered(alloc: Global, store: MemStore, asked: &Asked) -> Result<Yard<MemStore>, Fault> {
    match Yard::enter(alloc, store, asked) {
        Ok(yard) => Ok(yard),
        Err(_) => Err(Fault::Memory),
    }
}

// Arrays in front of it.
fn opened(alloc: Global, store: MemStore, asked: &Asked) -> Result<Intake<MemStore>, Fault> {
    match Intake::new(alloc, entered(alloc, store, asked)?) {
        Ok(intake) => Ok(intake),
        Err(_) => Err(Fault::Memory),
    }
}

// An offer with this text.
fn offer_of(alloc: Global, key: u64, text: &[u8; 1]) -> Result<Offer, AllocError> {
    Ok(Offer {
        op: Op::Both,
        key,
        value: 0,
        from: 0,
        aux: Text::from_bytes(alloc, text)?,
    })
}

// The next step before an offer of a bucket, or at the end of the input.
fn step(intake: &mut Intake<MemStore>, bucket: Option<u32>) -> Result<Next, Fault> {
    if !intake.is_sound() || bucket.unwrap_or(0) >= intake.settings().buckets {
        return Err(Fault::Memory);
    }
    intake.advance(bucket)
}

// Pushes an offer, where there is room for it.
fn push(intake: &mut Intake<MemStore>, offer: Offer) -> Result<(), Fault> {
    let b = bucket_of(offer.key, intake.settings().buckets);
    if intake.is_full(b) {
        return Err(Fault::Memory);
    }
    intake.push(offer);
    Ok(())
}

// All steps before an offer of a bucket, or at the end of the input: at most one merge runs alone.
fn steps(intake: &mut Intake<MemStore>, bucket: Option<u32>) -> Result<(), Fault> {
    if step(intake, bucket)? == Next::Merged {
        step(intake, bucket)?;
    }
    Ok(())
}

// Hands an offer in.
fn feed(intake: &mut Intake<MemStore>, offer: Offer) -> Result<(), Fault> {
    let b = bucket_of(offer.key, intake.settings().buckets);
    steps(intake, Some(b))?;
    push(intake, offer)
}

// The end of the input.
fn end(intake: &mut Intake<MemStore>) -> Result<(), Fault> {
    steps(intake, None)
}

// A letter for a verdict.
fn mark_of(judged: &Judged) -> u8 {
    match judged.verdict {
        Some(Verdict::Unique) => b'u',
        Some(Verdict::Absent) => b'a',
        Some(Verdict::Known(_)) => b'k',
        None => b'n',
    }
}

// All judged offers, in order.
fn all_judged(alloc: Global, intake: &mut Intake<MemStore>) -> Result<Vec<Judged>, Fault> {
    if !intake.is_sound() || intake.judged_len() == 0 {
        return Ok(Vec::new(alloc));
    }
    Ok(intake.judged_from(0, 10_000)?.to_vec(alloc)?)
}

// The text of each, with the letter of its verdict.
fn texts_of(alloc: Global, judged: &[Judged]) -> Result<Vec<u8>, AllocError> {
    let mut text = Vec::new(alloc);
    for one in judged {
        text.extend_from_slice(one.offer.aux.bytes())?;
        text.push(mark_of(one))?;
    }
    Ok(text)
}

fn told(alloc: Global, intake: &mut Intake<MemStore>) -> Result<Vec<u8>, Fault> {
    Ok(texts_of(alloc, &all_judged(alloc, intake)?)?)
}

// One item more.
fn add<T: Drop>(items: &mut Vec<T>, item: T) -> Result<(), AllocError> {
    items.push(item)?;
    Ok(())
}

// A store of which the call of this number fails.
fn failing(alloc: Global, call: u64) -> Result<MemStore, AllocError> {
    Ok(MemStore::new(alloc, vec![in alloc; call]?))
}

// Hands offers in, each with a letter as its text, and gives how many are judged after each.
fn feed_all(
    alloc: Global,
    intake: &mut Intake<MemStore>,
    offers: &[(u64, &[u8; 1])],
) -> Result<Vec<u64>, Fault> {
    let mut counts = Vec::new(alloc);
    for (key, text) in offers {
        feed(intake, offer_of(alloc, *key, *text)?)?;
        add(&mut counts, intake.judged_len())?;
    }
    Ok(counts)
}

// How many offers were judged after each that was handed in, and at the end what is told and how many cuts there are.
#[derive(Drop)]
struct Run {
    counts: Vec<u64>,
    told: Vec<u8>,
    cuts: u64,
}

// Hands offers in up to the end of the input, over this store.
fn fed_to_the_end(
    alloc: Global,
    store: MemStore,
    asked: &Asked,
    offers: &[(u64, &[u8; 1])],
) -> Result<Run, Fault> {
    let mut intake = opened(alloc, store, asked)?;
    let counts = feed_all(alloc, &mut intake, offers)?;
    end(&mut intake)?;
    let told = told(alloc, &mut intake)?;
    let cuts = entered(alloc, intake.into_store(), asked)?.cuts();
    Ok(Run { counts, told, cuts })
}

// A store whose files are empty.
fn blank(alloc: Global) -> MemStore {
    MemStore::new(alloc, Vec::new(alloc))
}

const HIGH: u64 = 1 << 63;

#[test]
fn merges_run_as_the_trigger_says(rt: HostRuntime) -> Result<(), Fail> {
    let alloc = rt.alloc();
    let offers = [
        (HIGH | 1, b"x"),
        (1, b"y"),
        (HIGH | 1, b"z"),
        (HIGH | 2, b"w"),
    ];
    // How many offers come, the trigger, how many are judged after each, and what is told at the end.
    for (count, trigger, counts, texts) in [
        (3, 4, [0, 0, 0, 0], b"yuxuzk".as_slice()),
        // The merge leaves the array of bucket 0.
        (4, 2, [0, 0, 0, 2], b"xuzkyuwu".as_slice()),
    ] {
        let asked = asked_of(2, 2, trigger, None);
        let found = fed_to_the_end(alloc, blank(alloc), &asked, &offers[..count])?;
        assert!(rt;
            found.counts.as_slice() == &counts[..count],
            "trigger {trigger}"
        );
        assert!(rt; found.told.as_slice() == texts, "trigger {trigger}");
    }
    Ok(())
}

// Three offers, of which each bucket has room for two: what the end of the input answers, and the store.
fn overfull(alloc: Global, asked: &Asked) -> Result<(Result<(), Fault>, MemStore), Fault> {
    let mut intake = opened(alloc, blank(alloc), asked)?;
    feed_all(alloc, &mut intake, &[(1, b"p"), (2, b"q"), (3, b"r")])?;
    let answer = end(&mut intake);
    Ok((answer, intake.into_store()))
}

#[test]
fn a_full_bucket_is_refused_and_keeps_what_it_has(rt: HostRuntime) -> Result<(), Fail> {
    let alloc = rt.alloc();
    let asked = asked_of(1, 1, 16_384, Some(2));
    let (answer, store) = overfull(alloc, &asked)?;
    assert!(rt; answer == Err(Fault::Full(0)));
    // Opened again, it has the two that fitted.
    let found = fed_to_the_end(alloc, store, &asked, &[])?;
    assert!(rt; found.told.as_slice() == b"puqu".as_slice());
    Ok(())
}

// Three offers of bucket 1, of which the first two let a merge run.
const DUE: [(u64, &[u8; 1]); 3] = [(HIGH | 1, b"x"), (HIGH | 2, b"z"), (HIGH | 3, b"w")];

// A store of which the call of this number fails, where as many offers wait in bucket 1 then as let a merge run.
fn left_due(alloc: Global, asked: &Asked, call: u64) -> Result<Option<MemStore>, Fault> {
    let mut intake = opened(alloc, failing(alloc, call)?, asked)?;
    let _counts = feed_all(alloc, &mut intake, &DUE);
    let yard = entered(alloc, intake.into_store(), asked)?;
    if yard.settings().buckets == 2 && yard.pending(1) >= 2 {
        return Ok(Some(yard.into_store()));
    }
    Ok(None)
}

// How many calls there are once a store was made, and once those offers came.
fn calls(alloc: Global, asked: &Asked) -> Result<(u64, u64), Fault> {
    let first = opened(alloc, blank(alloc), asked)?.into_store().calls();
    let mut intake = opened(alloc, blank(alloc), asked)?;
    feed_all(alloc, &mut intake, &DUE)?;
    Ok((first, intake.into_store().calls()))
}

// How many offers come to such a store, how many are judged after each, and what is told and how many cuts there are at
// the end: where no offer comes, or one, the merge runs at the end before the first flush.
const THEN: [(usize, [u64; 3], &[u8], u64); 3] = [
    (0, [0; 3], b"xuzu", 1),
    (1, [0; 3], b"xuzuau", 2),
    (3, [0, 2, 4], b"xuzuaubucu", 3),
];

// The same store once more, of which no call was made.
fn copied(alloc: Global, store: &MemStore) -> Result<MemStore, AllocError> {
    let calls = store.calls();
    if calls == 0 {
        return Err(AllocError);
    }
    store.image(alloc, calls - 1, Part::New)
}

// Whether these come of such a store.
fn is_so(alloc: Global, asked: &Asked, store: &MemStore) -> Result<bool, Fault> {
    let offers = [(1, b"a"), (2, b"b"), (3, b"c")];
    for (count, counts, told, cuts) in THEN {
        let found = fed_to_the_end(alloc, copied(alloc, store)?, asked, &offers[..count])?;
        if found.counts.as_slice() != &counts[..count]
            || found.told.as_slice() != told
            || found.cuts != cuts
        {
            return Ok(false);
        }
    }
    Ok(true)
}

#[test]
fn a_merge_that_failed_runs_before_the_next_flush(rt: HostRuntime) -> Result<(), Fail> {
    let alloc = rt.alloc();
    let asked = asked_of(2, 1, 2, None);
    let (first, last) = calls(alloc, &asked)?;
    let mut found = 0_u32;
    for call in first..last {
        if let Some(store) = left_due(alloc, &asked, call)? {
            found = found.saturating_add(1);
            assert!(rt; is_so(alloc, &asked, &store)?, "at {call}");
        }
    }
    assert!(rt; found > 3, "{found}");
    Ok(())
}

// Hands in so many offers over 4 buckets, of 601 keys that come again.
fn feed_many(alloc: Global, intake: &mut Intake<MemStore>, count: u64) -> Result<(), Fault> {
    for i in 0..count {
        let key = (i.wrapping_mul(7_919) % 601) << 54;
        feed(intake, offer_of(alloc, key, b"t")?)?;
    }
    end(intake)
}

// How many of these are unique.
fn count_unique(judged: &[Judged]) -> usize {
    let mut count: usize = 0;
    for one in judged {
        if mark_of(one) == b'u' {
            count = count.saturating_add(1);
        }
    }
    count
}

// How many of so many offers are judged at the end, and how many of them unique.
fn judged_of(alloc: Global, asked: &Asked, count: u64) -> Result<(u64, usize), Fault> {
    let mut intake = opened(alloc, blank(alloc), asked)?;
    feed_many(alloc, &mut intake, count)?;
    let found = all_judged(alloc, &mut intake)?;
    Ok((intake.judged_len(), count_unique(&found)))
}

#[test]
fn each_key_of_many_offers_is_unique_once(rt: HostRuntime) -> Result<(), Fail> {
    let alloc = rt.alloc();
    for (count, array, trigger, keys) in [(1_500, 16, 100, 601), (200, 3, 5, 200), (40, 1, 1, 40)] {
        let asked = asked_of(4, array, trigger, None);
        let found = judged_of(alloc, &asked, count)?;
        assert!(rt; found == (count, keys), "array {array}: {found:?}");
    }
    Ok(())
}
