ghost use Rattle.std.specs.Prelude.{◌≡◌, true, IsTrue, IfOk};
ghost use Rattle.std.specs.List.{AllByRecursion};
ghost use Rattle.irl_offer.specs.Buckets.{IsBucketCount, bucket_of as bucket_of_key};
ghost use Rattle.irl_offer.specs.Settings.{AreValid};
ghost use Rattle.irl_bay.specs.Drum.{SomePending};
ghost use Rattle.irl_bay.specs.Flushing.{MayFlush};

mod cache_file;
mod earlier;
mod judging;

use crate::quiet::Quiet;
use irl_array::Array;
use irl_bay::Bay;
use irl_disk::Part;
use irl_offer::{Fault, Kind, Offer, Op, Rule, Settings, Text, bucket_of};
use std::alloc::{AllocError, Global};
use std::test::Fail;

// A store with a bay whose first file is 1000, and offers that wait for one of its buckets.
#[derive(Drop)]
pub(crate) struct Waiting {
    pub store: Quiet,
    pub bay: Bay,
    pub array: Array,
}

// Settings of a store of tuples.
pub(crate) fn settings_of(buckets: u32, array: u32, cap: u64) -> Settings {
    Settings {
        kind: Kind::Tuples,
        rule: Rule::Keep,
        buckets,
        array,
        trigger: 1_024,
        block: 4_096,
        cap,
        queues: 2,
        base: 10,
        most: 10_000,
        ranks: 10_000,
    }
}

// Opens a bay.
pub(crate) fn adopted(
    alloc: Global,
    store: &mut Quiet,
    base: u16,
    settings: &Settings,
) -> Result<Bay, Fault>
    ensures { IfOk result (λ bay. bay.is_sound ≡ true) }
{
    if !settings.is_valid() || base > 9_000 {
        return Err(Fault::Memory);
    }
    Bay::adopt(alloc, store, base, settings)
}

impl Waiting {
    // Makes a bay: for each journal, the manifest's and the buckets', in two calls of the store.
    pub(crate) fn made(
        alloc: Global,
        failing: Option<u64>,
        settings: &Settings,
    ) -> Result<Waiting, Fault> {
        if !settings.is_valid() {
            return Err(Fault::Memory);
        }
        let mut store = Quiet::failing(alloc, failing)?;
        let bay = Bay::make(alloc, &mut store, 1_000, settings)?;
        Ok(Waiting {
            store,
            bay,
            array: Array::with_room(alloc, settings.array)?,
        })
    }

    // Lets an offer wait.
    pub(crate) fn wait(&mut self, offer: Offer) {
        if !self.array.is_full() {
            self.array.push(offer);
        }
    }

    // Lets an offer of a key wait.
    pub(crate) fn put(&mut self, alloc: Global, key: u64, aux: &[u8; 1]) -> Result<(), AllocError> {
        let offer = Offer {
            op: Op::Both,
            key,
            value: 7,
            from: 0,
            aux: Text::from_bytes(alloc, aux)?,
        };
        self.wait(offer);
        Ok(())
    }

    // Flushes the offers that wait to this bucket.
    pub(crate) fn flush(&mut self, b: u32) -> Result<(), Fault> {
        flush(&mut self.store, &mut self.bay, b, &mut self.array)
    }

    // Judges what was flushed, where an offer of this bucket waits.
    pub(crate) fn merge(&mut self, b: u32) -> Result<u64, Fault> {
        merge(&mut self.store, &mut self.bay, b)
    }

    // How many offers are judged, how many Unique, and how many cuts there are.
    pub(crate) fn judged(&self) -> [u64; 3] {
        judged_of(&self.bay)
    }
}

pub(crate) fn judged_of(bay: &Bay) -> [u64; 3] {
    [bay.judged_len(), bay.unique_len(), bay.cuts()]
}

// How many offers a bucket has, and how many of them wait to be judged.
pub(crate) fn counts(bay: &Bay, b: u32) -> Option<(u64, u64)> {
    if b >= bay.settings().buckets {
        return None;
    }
    Some((bay.durable(b), bay.pending(b)))
}

// Whether the offers are all of this bucket.
fn are_of(offers: &[Offer], buckets: u32, b: u32) -> bool
    requires { IsBucketCount buckets }
    ensures { IsTrue result → AllByRecursion (λ offer. bucket_of_key buckets offer.key ≡ b) offers.now }
{
    for offer in offers {
        if bucket_of(offer.key, buckets) != b {
            return false;
        }
    }
    true
}

// Whether the array can be flushed to this bucket.
fn can_flush(bay: &Bay, b: u32, array: &Array) -> bool
    ensures sound { IsTrue result → bay.now.is_sound ≡ true }
    ensures offers { IsTrue result → MayFlush b array.now.items bay.now }
{
    let settings = bay.settings();
    bay.is_sound()
        && b < settings.buckets
        && array.len() >= 1
        && array.len() <= settings.array
        && bay.pending(b) < u64::from(settings.trigger)
        && are_of(array.items(), settings.buckets, b)
}

// Flushes offers to a bucket.
pub(crate) fn flush(
    store: &mut Quiet,
    bay: &mut Bay,
    b: u32,
    array: &mut Array,
) -> Result<(), Fault> {
    if !can_flush(bay, b, array) {
        return Err(Fault::Memory);
    }
    bay.flush(store, b, array)
}

// Whether an offer of this bucket waits to be judged.
fn can_merge(bay: &Bay, b: u32) -> bool
    ensures sound { IsTrue result → bay.now.is_sound ≡ true }
    ensures some { IsTrue result → SomePending bay.now }
{
    bay.is_sound() && b < bay.settings().buckets && bay.pending(b) > 0
}

// Judges what was flushed, where an offer of this bucket waits.
pub(crate) fn merge(store: &mut Quiet, bay: &mut Bay, b: u32) -> Result<u64, Fault> {
    if !can_merge(bay, b) {
        return Err(Fault::Memory);
    }
    bay.merge(store)
}

// A bay of one bucket that was made in calls 0 to 3, with two offers that wait.
fn two_waiting(alloc: Global, failing: Option<u64>) -> Result<Waiting, Fault> {
    let mut kept = Waiting::made(alloc, failing, &settings_of(1, 2, 1_000))?;
    kept.put(alloc, 1, b"p")?;
    kept.put(alloc, 2, b"q")?;
    Ok(kept)
}

// How many offers of 27 bytes a stop in this call leaves in bucket 0, where their texts are there; 9 where they aren't.
fn left(alloc: Global, store: &Quiet, call: u64, part: Part) -> Result<u64, Fault> {
    let mut image = store.image(alloc, call, part)?;
    let texts = image.bytes(alloc, 1_011)?;
    let bay = adopted(alloc, &mut image, 1_000, &settings_of(1, 2, 1_000))?;
    match counts(&bay, 0) {
        Some((0, 0)) => Ok(0),
        Some((2, 2)) if texts.as_slice() == b"pq".as_slice() => Ok(2),
        _ => Ok(9),
    }
}

// What a stop in this call of a flush, which failed or was done, leaves as old, as new and torn.
fn stopped(alloc: Global, call: u64, is_failing: bool) -> Result<[u64; 3], Fault> {
    let mut kept = two_waiting(alloc, is_failing.then_some(call))?;
    let wanted = is_failing.then_some(Fault::Failed);
    if kept.flush(0).err() != wanted || kept.bay.is_sound() == is_failing {
        return Err(Fault::Memory);
    }
    let mut found = [0; 3];
    for (offers, part) in found.iter_mut().zip([Part::Old, Part::New, Part::Torn]) {
        *offers = left(alloc, &kept.store, call, part)?;
    }
    Ok(found)
}

#[test]
fn a_stop_leaves_both_offers_or_none(rt: HostRuntime) -> Result<(), Fail> {
    // The call of the stop, and how many offers are left as old, as new and torn, where it failed and where it was done.
    for (call, failed, done) in [
        (4, [0, 0, 0], [0, 0, 0]),
        (5, [0, 0, 0], [0, 0, 0]),
        (6, [0, 0, 0], [0, 0, 0]),
        (7, [0, 0, 0], [0, 0, 0]),
        (8, [0, 0, 0], [0, 2, 2]),
        (9, [0, 2, 2], [2, 2, 2]),
    ] {
        for (is_failing, wanted) in [(true, failed), (false, done)] {
            let found = stopped(rt.alloc(), call, is_failing)?;
            assert!(rt; found == wanted, "at {call}, {is_failing}");
        }
    }
    Ok(())
}

#[test]
fn a_call_that_fails_makes_no_bay(rt: HostRuntime) -> Result<(), Fail> {
    for call in 0..4 {
        let found = two_waiting(rt.alloc(), Some(call)).err();
        assert!(rt; found == Some(Fault::Failed), "at {call}");
    }
    Ok(())
}

#[test]
fn an_entry_stands_in_a_record(rt: HostRuntime) -> Result<(), Fail> {
    let alloc = rt.alloc();
    let mut kept = Waiting::made(alloc, None, &settings_of(1, 1, 1_000))?;
    kept.put(alloc, 1, b"p")?;
    kept.flush(0)?;
    // The gate and the length, the operation and the text's length, the key, the value and the source, the next gate.
    let record = b"\xA5\x1B\0\0\0\x02\x01\0\x01\0\0\0\0\0\0\0\x07\0\0\0\0\0\0\0\0\0\0\0\0\0\0\0\0";
    let journal = kept.store.bytes(alloc, 1_010)?;
    let texts = kept.store.bytes(alloc, 1_011)?;
    assert!(rt; journal.as_slice() == record.as_slice() && texts.as_slice() == b"p".as_slice());
    Ok(())
}

// What a bucket answers to the last of three offers, of which it may have two, whether that made no call, how many offers
// wait in memory then, and how many in the bucket.
fn overfull(alloc: Global) -> Result<(Result<(), Fault>, bool, u32, Option<(u64, u64)>), Fault> {
    let mut kept = Waiting::made(alloc, None, &settings_of(1, 1, 2))?;
    for key in 0..2 {
        kept.put(alloc, key, b"p")?;
        kept.flush(0)?;
    }
    kept.put(alloc, 2, b"r")?;
    let calls = kept.store.calls();
    let answer = kept.flush(0);
    let is_idle = kept.store.calls() == calls && kept.bay.is_sound();
    Ok((answer, is_idle, kept.array.len(), counts(&kept.bay, 0)))
}

#[test]
fn a_full_bucket_takes_no_more(rt: HostRuntime) -> Result<(), Fail> {
    let found = overfull(rt.alloc())?;
    assert!(rt;
        found == (Err(Fault::Full(0)), true, 1, Some((2, 2))),
        "{found:?}"
    );
    Ok(())
}

// Flushes 1,000 offers to 16 buckets, one bucket after the other, as soon as the array is full or the bucket's last waits.
fn flush_all(alloc: Global) -> Result<Waiting, Fault> {
    let mut kept = Waiting::made(alloc, None, &settings_of(16, 10, 1_000))?;
    for i in 0..1_000 {
        let b = i * 16 / 1_000;
        kept.put(alloc, u64::from(b) << 60 | u64::from(i), b"x")?;
        if kept.array.is_full() || (i + 1) * 16 / 1_000 != b {
            kept.flush(b)?;
        }
    }
    Ok(kept)
}

#[test]
fn offers_are_counted_by_their_buckets(rt: HostRuntime) -> Result<(), Fail> {
    let kept = flush_all(rt.alloc())?;
    for b in 0..16 {
        let count = 63 - u64::from(b % 2);
        assert!(rt; counts(&kept.bay, b) == Some((count, count)), "bucket {b}");
    }
    assert!(rt; kept.judged() == [0, 0, 0]);
    Ok(())
}
