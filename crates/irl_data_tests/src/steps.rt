use crate::helpers::{NOTHING_ASKED, offer, places, same, settled};
use irl_core::{Core, Reply, Step};
use irl_fate::{Fate, Places};
use irl_offer::{Asked, Op, Outcome, Place, Receipt, Rule, Settings, Slot, Verdict, bucket_of};
use std::alloc::{AllocError, Global};
use std::test::Fail;

// One bucket with an array of two, a merge at four offers, a cap of five, and two queues.
const ASKED: Asked = Asked {
    rule: Some(Rule::Keep),
    buckets: Some(1),
    array: Some(2),
    trigger: Some(4),
    cap: Some(5),
    queues: Some(2),
    ..NOTHING_ASKED
};

// A step as the table has it.
enum Told {
    Offer(u64),
    Flush,
    Merge,
    Stop,
    // Stops in calls that took effect.
    FlushStop,
    MergeStop,
    Pass(&'static [(u64, Slot)]),
    Settle(&'static [(u64, Outcome)]),
    SettleStop(&'static [(u64, Outcome)]),
}

fn step(alloc: Global, told: &Told) -> Result<Step, AllocError> {
    Ok(match told {
        Told::Offer(key) => Step::Offer {
            bucket: 0,
            offer: offer(alloc, Op::Both, *key, 0, b"a")?,
        },
        Told::Flush => Step::Flush(0),
        Told::Merge => Step::Merge,
        Told::Stop => Step::Stop,
        Told::FlushStop => Step::FlushStop(0, true),
        Told::MergeStop => Step::MergeStop(true),
        Told::Pass(told) => Step::Pass(places(alloc, told)?),
        Told::Settle(told) => Step::Settle(settled(alloc, told)?),
        Told::SettleStop(told) => Step::SettleStop(settled(alloc, told)?, true),
    })
}

// Receipts of the bucket.
const FIRST: Reply = Reply::Receipt(Receipt {
    bucket: 0,
    number: 0,
});

const SECOND: Reply = Reply::Receipt(Receipt {
    bucket: 0,
    number: 1,
});

const THIRD: Reply = Reply::Receipt(Receipt {
    bucket: 0,
    number: 2,
});

// A step, what it is answered, and then what is acknowledged of the bucket, and the fates of the numbers from 0 on.
type Row = (Told, Reply, &'static [u64], &'static [Fate]);

// A core of a new store of which this is asked, if the settings are valid.
fn opened(alloc: Global, asked: &Asked) -> Result<Core, AllocError> {
    let settings = Settings::of_new_store(asked);
    if settings.is_valid() {
        Core::new(alloc, settings)
    } else {
        Err(AllocError)
    }
}

// Whether the core takes a step of the table, or refuses it, as a row says.
fn answers(alloc: Global, core: &mut Core, row: &Row) -> Result<bool, AllocError> {
    Ok(core.step(step(alloc, &row.0)?)? == row.1)
}

// Whether each bucket's list is acknowledged as far as this.
fn acknowledges(core: &Core, numbers: &[u64]) -> bool {
    core.acknowledged() == numbers
}

// Whether the numbers from 0 on have these fates.
fn have(core: &Core, fates: &[Fate]) -> bool {
    for (number, fate) in fates.iter().enumerate() {
        if core.fate(number as u64) != *fate {
            return false;
        }
    }
    true
}

// The first row of which the core answers something else, or is something else after it.
fn first_wrong(alloc: Global, core: &mut Core, rows: &[Row]) -> Result<Option<usize>, AllocError> {
    for (i, row) in rows.iter().enumerate() {
        if !answers(alloc, core, row)? || !acknowledges(core, row.2) || !have(core, row.3) {
            return Ok(Some(i));
        }
    }
    Ok(None)
}

// The bucket, the key and the verdict of each judged offer.
fn verdicts(alloc: Global, core: &Core) -> Result<Vec<(u32, u64, Verdict)>, AllocError> {
    let mut verdicts = Vec::new(alloc);
    for one in core.judged()? {
        if let Some(verdict) = one.verdict {
            verdicts.push((one.bucket, one.offer.key, verdict))?;
        }
    }
    Ok(verdicts)
}

// The same URL is offered three times, and the third is lost.
static ONE_URL: [Row; 8] = [
    (Told::Offer(9), FIRST, &[0], &[]),
    (Told::Offer(9), SECOND, &[0], &[]),
    (Told::Flush, Reply::Taken, &[2], &[]),
    (Told::Merge, Reply::Cut(1), &[2], &[Fate::Fresh]),
    (Told::Offer(9), THIRD, &[2], &[]),
    (Told::Stop, Reply::Stopped, &[2], &[]),
    (
        Told::Pass(&[(0, Slot::Front)]),
        Reply::Taken,
        &[2],
        &[Fate::Front, Fate::Fresh],
    ),
    (
        Told::Settle(&[(0, Outcome::Page)]),
        Reply::Taken,
        &[2],
        &[Fate::Done(Outcome::Page), Fate::Fresh],
    ),
];

// What is judged then.
static BOTH: [(u32, u64, Verdict); 2] = [(0, 9, Verdict::Unique), (0, 9, Verdict::Known(0))];

// Stops in a flush, a merge and a settle that each took effect. No flush was acknowledged, and a merge finds nothing more.
static STOPS: [Row; 6] = [
    (Told::Offer(9), FIRST, &[0], &[]),
    (Told::FlushStop, Reply::Stopped, &[0], &[]),
    (Told::MergeStop, Reply::Stopped, &[0], &[Fate::Fresh]),
    (
        Told::Pass(&[(0, Slot::Front)]),
        Reply::Taken,
        &[0],
        &[Fate::Front],
    ),
    (
        Told::SettleStop(&[(0, Outcome::Page)]),
        Reply::Stopped,
        &[0],
        &[Fate::Done(Outcome::Page)],
    ),
    (
        Told::Merge,
        Reply::Refused,
        &[0],
        &[Fate::Done(Outcome::Page)],
    ),
];

static ONE: [(u32, u64, Verdict); 1] = [(0, 9, Verdict::Unique)];

#[test]
fn one_url_is_judged_read_and_settled(rt: HostRuntime) -> Result<(), Fail> {
    for (rows, judged) in [
        (ONE_URL.as_slice(), BOTH.as_slice()),
        (STOPS.as_slice(), ONE.as_slice()),
    ] {
        let mut core = opened(rt.alloc(), &ASKED)?;
        let wrong = first_wrong(rt.alloc(), &mut core, rows)?;
        assert!(rt; wrong.is_none(), "at row {wrong:?}");
        let verdicts = verdicts(rt.alloc(), &core)?;
        same(&rt, verdicts.as_slice() == judged, "verdict");
    }
    Ok(())
}

// How many offers there are of many, and how far their keys lie apart: they are spread over all keys.
const MANY: u64 = 10_000;

const APART: u64 = 1_844_674_407_370_955;

// Puts many offers behind some steps.
fn push_offers(alloc: Global, steps: &mut Vec<Step>) -> Result<(), AllocError> {
    for number in 0..MANY {
        let key = number.wrapping_mul(APART);
        steps.push(Step::Offer {
            bucket: bucket_of(key, 16),
            offer: offer(alloc, Op::Both, key, 0, b"a")?,
        })?;
    }
    Ok(())
}

// A place in front for each of many.
fn front(alloc: Global) -> Result<Places, AllocError> {
    let mut places = Places::new(alloc);
    for number in 0..MANY {
        places.push(Place {
            number,
            slot: Slot::Front,
        })?;
    }
    Ok(places)
}

// Many offers, and then a flush of each bucket, a merge and a pass.
fn many_steps(alloc: Global) -> Result<Vec<Step>, AllocError> {
    let mut steps = Vec::new(alloc);
    push_offers(alloc, &mut steps)?;
    for bucket in 0..16 {
        steps.push(Step::Flush(bucket))?;
    }
    steps.push(Step::Merge)?;
    steps.push(Step::Pass(front(alloc)?))?;
    Ok(steps)
}

// The core that many steps leave of a new one with the default settings.
fn run_many(alloc: Global) -> Result<Core, AllocError> {
    let settings = Settings::of_new_store(&NOTHING_ASKED);
    if settings.is_valid() {
        Core::run_all(alloc, settings, many_steps(alloc)?)
    } else {
        Err(AllocError)
    }
}

// What a settle of the last of many is answered.
fn settle_last(alloc: Global, core: &mut Core) -> Result<Reply, AllocError> {
    core.step(Step::Settle(settled(alloc, &[(MANY - 1, Outcome::Page)])?))
}

// The fates of the first of many, the last and the next, how many are judged, and how many of bucket 0 are acknowledged.
fn shown(core: &Core) -> Result<([Fate; 3], usize, Option<u64>), AllocError> {
    let fates = [core.fate(0), core.fate(MANY - 1), core.fate(MANY)];
    Ok((
        fates,
        core.judged()?.len(),
        core.acknowledged().first().copied(),
    ))
}

#[test]
fn ten_thousand_offers_are_judged_and_read(rt: HostRuntime) -> Result<(), Fail> {
    let mut core = run_many(rt.alloc())?;
    let read = [Fate::Front, Fate::Front, Fate::Fresh];
    same(&rt, shown(&core)? == (read, 10_000, Some(626)), "count");
    let reply = settle_last(rt.alloc(), &mut core)?;
    same(&rt, reply == Reply::Taken, "reply");
    let fate = core.fate(MANY - 1);
    same(&rt, fate == Fate::Done(Outcome::Page), "fate");
    Ok(())
}
