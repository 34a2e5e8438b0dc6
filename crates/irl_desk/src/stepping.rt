ghost use Rattle.std.specs.Prelude.{◌≡◌, ◌+◌, ◌<◌, ℕ, [], length, IfOk, OnErr, OnOk, IsErrOf};
ghost use Rattle.irl_base.specs.declared.fault.Fault.TheVariants.{Failed as FailedFault, Full as FullFault};
ghost use Rattle.irl_bay.specs.Drum.{durable_at};
ghost use Rattle.irl_schedule.specs.Arrays.{waiting_at};
ghost use Rattle.irl_schedule.specs.Schedule.{none_more, one_more};
ghost use Rattle.irl_yard.specs.Holding.{IsSound, StaysSound};
ghost use Rattle.irl_intake.specs.Advancing.{moment_of, StopsAt};
ghost use Rattle.irl_desk.specs.Stepping.{Steps, handed_at};

use irl_disk::Store;
use irl_intake::{Intake, Next};
use irl_offer::Fault;

/// Makes room for an offer of a bucket, and gives the number that it gets.
pub fn make_room<S: Store>(intake: &mut Intake<S>, b: u32) -> Result<u64, Fault>
    requires sound { IsSound intake.old.yard.parts }
    requires bucket { b < intake.old.yard.parts.urls.settings.buckets }
    ensures steps { Steps result none_more (moment_of intake.old) (moment_of intake.new) }
    ensures number { IfOk result (λ n. n ≡ handed_at (moment_of intake.new) b) }
    ensures room { OnOk result (length (waiting_at intake.new.arrays.items b)
        < intake.new.yard.parts.urls.settings.array) }
    ensures rest { intake.new.yard.parts.rest ≡ intake.old.yard.parts.rest }
    ensures goes_on { StaysSound (IsErrOf result Fault.Failed) intake.new.yard.parts }
{
    let _is_sound = intake.is_sound();
    'steps: loop {
        if let Next::Ready = intake.advance(Some(b))? {
            return intake.next_number(b);
        }
    }
}

/// Flushes all that waits.
pub fn flush_all<S: Store>(intake: &mut Intake<S>) -> Result<(), Fault>
    requires sound { IsSound intake.old.yard.parts }
    ensures steps { Steps result one_more (moment_of intake.old) (moment_of intake.new) }
    ensures emptied { OnOk result ((b : ℕ) → waiting_at intake.new.arrays.items b ≡ []) }
    ensures ordered { OnErr result ((n : ℕ) × StopsAt n (moment_of intake.old) (moment_of intake.new)
        × ((m : ℕ) → IsErrOf result (Fault.Full m) → m ≡ n)) }
    ensures rest { intake.new.yard.parts.rest ≡ intake.old.yard.parts.rest }
    ensures goes_on { StaysSound (IsErrOf result Fault.Failed) intake.new.yard.parts }
{
    let _is_sound = intake.is_sound();
    'steps: loop {
        if let Next::Ready = intake.flush_waiting()? {
            return Ok(());
        }
    }
}
