ghost use Rattle.std.specs.Prelude.{◌≡◌, ◌↔◌, [], true, IsErrOf};
ghost use Rattle.std.specs.Option.{ForSome};
ghost use Rattle.irl_base.specs.declared.fault.Fault.TheVariants.{Failed as FailedFault};
ghost use Rattle.irl_bay.specs.Drum.{SomePending};
ghost use Rattle.irl_bay.specs.Holding.{IsLong, GoesOn};
ghost use Rattle.irl_schedule.specs.Calls.{MergesIfDue, MergesRest, MergeKeeps, MayMakeRoom, MakesRoom, MayFlushSome, FlushesSome};
ghost use Rattle.irl_schedule.specs.Feeding.{Waits, moment, with_waiting};
ghost use Rattle.irl_schedule.specs.Schedule.{IsDue, none_more, one_more_at};
ghost use Rattle.irl_schedule.specs.Scheduling.{Schedules};

use irl_array::Array;
use irl_bay::Bay;
use irl_disk::Store;
use irl_offer::Fault;

/// Runs the merge that is due, if one is: where some bucket has as many unjudged offers as the trigger says. Answers
/// whether it ran; then nothing is unjudged, and else nothing changed.
pub fn merge_if_due<S: Store>(bay: &mut Bay, store: &mut S) -> Result<bool, Fault>
    requires sound { bay.old.is_sound ≡ true }
    requires long { ForSome (S.told store.old).files (λ files. IsLong bay.old files) }
    ensures schedules { (waits : Waits) → Schedules result 0 none_more []
        (moment (S.told store.old) bay.old waits) (moment (S.told store.new) bay.new waits) }
    ensures merges { MergesIfDue result bay.old bay.new store.old store.new }
    ensures kept { MergeKeeps result bay.old bay.new (S.told store.old) (S.told store.new) }
    ensures goes_on { GoesOn (IsErrOf result Fault.Failed) bay.new (S.told store.new) }
{
    let _is_sound = bay.is_sound();
    if !is_due(bay) {
        return Ok(false);
    }
    match bay.merge(store) {
        Ok(_) => Ok(true),
        Err(fault) => Err(fault),
    }
}

/// Makes room in a bucket's array: where it is full it is flushed, and a merge runs that is due then. Where it is full
/// no merge may be due before.
pub fn make_room<S: Store>(
    bay: &mut Bay,
    store: &mut S,
    b: u32,
    array: &mut Array,
) -> Result<(), Fault>
    requires sound { bay.old.is_sound ≡ true }
    requires long { ForSome (S.told store.old).files (λ files. IsLong bay.old files) }
    requires room { MayMakeRoom b array.old bay.old }
    ensures schedules { (others : Waits) → Schedules result 0 none_more []
        (moment (S.told store.old) bay.old (with_waiting others b array.old.items))
        (moment (S.told store.new) bay.new (with_waiting others b array.new.items)) }
    ensures makes { MakesRoom result b array.old array.new bay.old bay.new store.old store.new }
    ensures goes_on { GoesOn (IsErrOf result Fault.Failed) bay.new (S.told store.new) }
{
    let _is_sound = bay.is_sound();
    if !array.is_full() {
        return Ok(());
    }
    match bay.flush(store, b, array) {
        Ok(()) => match merge_if_due(bay, store) {
            Ok(_) => Ok(()),
            Err(fault) => Err(fault),
        },
        Err(fault) => Err(fault),
    }
}

/// Flushes a bucket's array, whole or not, where an offer waits in it.
pub fn flush_some<S: Store>(
    bay: &mut Bay,
    store: &mut S,
    b: u32,
    array: &mut Array,
) -> Result<(), Fault>
    requires sound { bay.old.is_sound ≡ true }
    requires long { ForSome (S.told store.old).files (λ files. IsLong bay.old files) }
    requires some { MayFlushSome b array.old bay.old }
    ensures schedules { (others : Waits) → Schedules result 0 (one_more_at b) []
        (moment (S.told store.old) bay.old (with_waiting others b array.old.items))
        (moment (S.told store.new) bay.new (with_waiting others b array.new.items)) }
    ensures flushes { FlushesSome result b array.old array.new bay.old bay.new store.old store.new }
    ensures goes_on { GoesOn (IsErrOf result Fault.Failed) bay.new (S.told store.new) }
{
    let _is_sound = bay.is_sound();
    if array.len() == 0 {
        return Ok(());
    }
    bay.flush(store, b, array)
}

/// Judges what is left: a merge runs where an offer is unjudged, and else nothing changes.
pub fn merge_rest<S: Store>(bay: &mut Bay, store: &mut S) -> Result<(), Fault>
    requires sound { bay.old.is_sound ≡ true }
    requires long { ForSome (S.told store.old).files (λ files. IsLong bay.old files) }
    ensures schedules { (waits : Waits) → Schedules result 1 none_more []
        (moment (S.told store.old) bay.old waits) (moment (S.told store.new) bay.new waits) }
    ensures merges { MergesRest result bay.old bay.new store.old store.new }
    ensures kept { MergeKeeps result bay.old bay.new (S.told store.old) (S.told store.new) }
    ensures goes_on { GoesOn (IsErrOf result Fault.Failed) bay.new (S.told store.new) }
{
    let _is_sound = bay.is_sound();
    if !has_pending(bay) {
        return Ok(());
    }
    match bay.merge(store) {
        Ok(_) => Ok(()),
        Err(fault) => Err(fault),
    }
}

// Whether some bucket has as many unjudged offers as let a merge run.
fn is_due(bay: &Bay) -> bool
    ensures { (result ≡ true) ↔ IsDue bay.now }
{
    let settings = bay.settings();
    for b in 0..settings.buckets {
        if bay.pending(b) >= u64::from(settings.trigger) {
            return true;
        }
    }
    false
}

// Whether an offer is unjudged.
fn has_pending(bay: &Bay) -> bool
    ensures { (result ≡ true) ↔ SomePending bay.now }
{
    for b in 0..bay.settings().buckets {
        if bay.pending(b) > 0 {
            return true;
        }
    }
    false
}
