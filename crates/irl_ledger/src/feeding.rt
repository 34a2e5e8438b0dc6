ghost use Rattle.std.specs.Prelude.{◌≡◌, ◌<◌, ◌∷◌, ℕ, [], true, length, OnOk};
ghost use Rattle.std.specs.Option.{ForSome};
ghost use Rattle.irl_offer.specs.Buckets.{bucket_of as bucket_of_key};
ghost use Rattle.irl_bay.specs.Drum.{pending_at};
ghost use Rattle.irl_bay.specs.Holding.{IsLong};
ghost use Rattle.irl_schedule.specs.Schedule.{IsDue, none_more, one_more};
ghost use Rattle.irl_schedule.specs.Arrays.{AreArrays, waiting_at};
ghost use Rattle.irl_ledger.specs.Running.{Feeding, HandsIn, Takes, nowhere};

use irl_array::Array;
use irl_bay::Bay;
use irl_disk::Store;
use irl_offer::{Fault, Offer, bucket_of};
use irl_schedule::{flush_some, make_room, merge_if_due, merge_rest};

// Hands an offer in: where its bucket's array is full, a merge runs that is due, and then the array is flushed, and a
// merge runs that is due then.
pub fn hand_in<S: Store>(
    bay: &mut Bay,
    store: &mut S,
    arrays: &mut [Array],
    offer: Offer,
) -> Result<(), Fault>
    requires sound { bay.old.is_sound ≡ true }
    requires long { ForSome (S.told store.old).files (λ files. IsLong bay.old files) }
    requires arrays { AreArrays bay.old.settings arrays.old }
    ensures { HandsIn result nowhere (offer ∷ []) arrays.old arrays.new
        bay.old bay.new (S.told store.old) (S.told store.new) }
{
    let _is_sound = bay.is_sound();
    let b = bucket_of(offer.key, bay.settings().buckets);
    before_offer(bay, store, arrays, b)?;
    put(bay, store, arrays, offer);
    Ok(())
}

// Puts an offer into its bucket's array, which has room.
fn put<S: Store>(bay: &Bay, store: &S, arrays: &mut [Array], offer: Offer)
    requires arrays { AreArrays bay.now.settings arrays.old }
    requires sound { bay.now.is_sound ≡ true }
    requires long { ForSome (S.told store.now).files (λ files. IsLong bay.now files) }
    requires room { length (waiting_at arrays.old (bucket_of_key bay.now.settings.buckets offer.key))
        < bay.now.settings.array }
    ensures { Takes (offer ∷ []) arrays.old arrays.new bay.now (S.told store.now) }
{
    let (_is_sound, _) = (bay.is_sound(), store);
    let b = bucket_of(offer.key, bay.settings().buckets);
    arrays[b as usize].push(offer);
}

// Makes room for an offer of a bucket.
fn before_offer<S: Store>(
    bay: &mut Bay,
    store: &mut S,
    arrays: &mut [Array],
    b: u32,
) -> Result<(), Fault>
    requires sound { bay.old.is_sound ≡ true }
    requires long { ForSome (S.told store.old).files (λ files. IsLong bay.old files) }
    requires arrays { AreArrays bay.old.settings arrays.old }
    requires bucket { b < bay.old.settings.buckets }
    ensures feeds { Feeding result nowhere 0 none_more [] arrays.old arrays.new
        bay.old bay.new (S.told store.old) (S.told store.new) }
    ensures room { OnOk result (length (waiting_at arrays.new b) < bay.old.settings.array) }
{
    let _is_sound = bay.is_sound();
    if arrays[b as usize].is_full() {
        merge_if_due(bay, store)?;
        make_room(bay, store, b, &mut arrays[b as usize])?;
    }
    Ok(())
}

// Ends it: a merge runs that is due, every array that isn't empty is flushed, bucket 0 first, and then a merge runs
// where an offer is unjudged.
pub fn finish<S: Store>(bay: &mut Bay, store: &mut S, arrays: &mut [Array]) -> Result<(), Fault>
    requires sound { bay.old.is_sound ≡ true }
    requires long { ForSome (S.told store.old).files (λ files. IsLong bay.old files) }
    requires arrays { AreArrays bay.old.settings arrays.old }
    ensures feeds { Feeding result nowhere 1 one_more [] arrays.old arrays.new
        bay.old bay.new (S.told store.old) (S.told store.new) }
    ensures emptied { OnOk result ((b : ℕ) → waiting_at arrays.new b ≡ []) }
    ensures judged { OnOk result ((b : ℕ) → b < bay.old.settings.buckets → pending_at bay.new b ≡ 0) }
{
    merge_if_due(bay, store)?;
    flush_all(bay, store, arrays)?;
    merge_rest(bay, store)
}

// Flushes every array that isn't empty, bucket 0 first.
fn flush_all<S: Store>(bay: &mut Bay, store: &mut S, arrays: &mut [Array]) -> Result<(), Fault>
    requires sound { bay.old.is_sound ≡ true }
    requires long { ForSome (S.told store.old).files (λ files. IsLong bay.old files) }
    requires arrays { AreArrays bay.old.settings arrays.old }
    requires ready { IsDue bay.old → ⊥ }
    ensures feeds { Feeding result nowhere 0 one_more [] arrays.old arrays.new
        bay.old bay.new (S.told store.old) (S.told store.new) }
    ensures emptied { OnOk result ((b : ℕ) → waiting_at arrays.new b ≡ []) }
{
    let _is_sound = bay.is_sound();
    for b in 0..bay.settings().buckets {
        flush_some(bay, store, b, &mut arrays[b as usize])?;
    }
    Ok(())
}
