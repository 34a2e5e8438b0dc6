ghost use Rattle.std.specs.Prelude.{◌≡◌, ◌≤◌, ◌<◌, ◌⊎◌, [], ◌∷◌, Ok, IfErr, IfSome, OnOk, OnErr, IsErrOf};
ghost use Rattle.std.specs.Io.KnownBytes.{Appends};
ghost use Rattle.irl_base.specs.Faults.{HasCause};
ghost use Rattle.irl_io.specs.Written.{AppendsPrefix};
ghost use Rattle.irl_yard.specs.Holding.{IsSound};
ghost use Rattle.irl_schedule.specs.Schedule.{none_more, one_more};
ghost use Rattle.irl_intake.specs.Advancing.{moment_of, IsReady, early_at, uneven_at};
ghost use Rattle.irl_intake.specs.declared.next.Next.TheVariants.{Ready as ReadyNext};
ghost use Rattle.irl_top.specs.Message.{ending_of, IsEndOfInput};
ghost use Rattle.irl_top.specs.Printed.{judged_lines};
ghost use Rattle.irl_top.specs.Session.{place_of, Steps, EndsWith, HasReason};
ghost use Rattle.irl_top.specs.declared.ending.Ending.TheVariants.{NoMemory as NoMemoryEnding, OutputFault as OutputEnding};

use crate::Ending;
use crate::line::LineKind;
use crate::printing::{PIECE, judged_text};
use irl_bay::JudgedPart;
use irl_disk::Store;
use irl_intake::{Intake, Next};
use irl_io::Sink;
use irl_offer::{Offer, bucket_of};
use std::alloc::Global;

/// Takes in one offer, and prints what is judged before it; so many judged offers were printed.
pub fn take_offer<O: Sink, S: Store>(
    alloc: Global,
    kind: LineKind,
    intake: &mut Intake<S>,
    printed: &mut u64,
    output: &mut O,
    offer: Offer,
) -> Result<(), Ending>
    requires sound { IsSound intake.old.yard.parts }
    requires whole { intake.old.yard.parts.urls.last.judged ≤ printed.old }
    ensures steps { let at = place_of O.written O.faults in Steps result kind 0 none_more (offer ∷ [])
        (at intake.old output.old printed.old) (at intake.new output.new printed.new) }
    ensures sound { OnOk result (IsSound intake.new.yard.parts) }
{
    let b = bucket_of(offer.key, intake.settings().buckets);
    advance_and_print(alloc, kind, intake, printed, output, Some(b))?;
    intake.push(offer);
    Ok(())
}

/// Ends an input: flushes what waits, judges what is unjudged, and prints it; so many judged offers were printed.
pub fn end_input<O: Sink, S: Store>(
    alloc: Global,
    kind: LineKind,
    intake: &mut Intake<S>,
    printed: &mut u64,
    output: &mut O,
) -> Result<(), Ending>
    requires sound { IsSound intake.old.yard.parts }
    requires whole { intake.old.yard.parts.urls.last.judged ≤ printed.old }
    ensures ends { let at = place_of O.written O.faults in EndsWith kind 1 one_more []
        (at intake.old output.old printed.old) (at intake.new output.new printed.new) (ending_of result) }
    ensures kinds { IfErr result (λ ending. IsEndOfInput ending → ⊥) }
    ensures reason { let at = place_of O.written O.faults in HasReason
        (at intake.old output.old printed.old) (at intake.new output.new printed.new) (ending_of result) }
{
    let ended = advance_and_print(alloc, kind, intake, printed, output, None);
    let _is_sound = intake.is_sound();
    ended
}

// Advances the intake for an offer of a bucket, or to the end of an input, and prints after each merge what it judged.
fn advance_and_print<O: Sink, S: Store>(
    alloc: Global,
    kind: LineKind,
    intake: &mut Intake<S>,
    printed: &mut u64,
    output: &mut O,
    bucket: Option<u32>,
) -> Result<(), Ending>
    requires sound { IsSound intake.old.yard.parts }
    requires whole { intake.old.yard.parts.urls.last.judged ≤ printed.old }
    requires bucket { IfSome bucket (λ b. b < intake.old.yard.parts.urls.settings.buckets) }
    ensures steps { let at = place_of O.written O.faults in
        Steps result kind (early_at bucket (Ok Next.Ready)) (uneven_at bucket (Ok Next.Ready)) []
        (at intake.old output.old printed.old) (at intake.new output.new printed.new) }
    ensures sound { OnOk result (IsSound intake.new.yard.parts) }
    ensures ready { OnOk result (IsReady bucket (moment_of intake.new)) }
{
    let _is_sound = intake.is_sound();
    'steps: loop {
        let next = intake.advance(bucket)?;
        print_new(alloc, kind, intake, printed, output)?;
        if let Next::Ready = next {
            return Ok(());
        }
    }
}

// Prints the judged offers behind the printed ones.
fn print_new<O: Sink, S: Store>(
    alloc: Global,
    kind: LineKind,
    intake: &mut Intake<S>,
    printed: &mut u64,
    output: &mut O,
) -> Result<(), Ending>
    requires sound { IsSound intake.old.yard.parts }
    ensures steps { let at = place_of O.written O.faults in Steps result kind 0 none_more []
        (at intake.old output.old printed.old) (at intake.new output.new printed.new) }
    ensures sound { OnOk result (IsSound intake.new.yard.parts) }
    ensures drum { intake.new.yard.parts.urls ≡ intake.old.yard.parts.urls }
    ensures arrays { intake.new.arrays ≡ intake.old.arrays }
{
    let _is_sound = intake.is_sound();
    while *printed < intake.judged_len() {
        let judged = intake.judged_from(*printed, PIECE)?;
        print_piece(alloc, kind, &judged, output)?;
        *printed += judged.len() as u64;
    }
    Ok(())
}

// Prints some judged offers.
fn print_piece<O: Sink>(
    alloc: Global,
    kind: LineKind,
    judged: &JudgedPart,
    output: &mut O,
) -> Result<(), Ending>
    ensures ok { OnOk result (Appends (O.written output.old) (O.written output.new) (judged_lines kind judged.now)) }
    ensures err { OnErr result (AppendsPrefix (O.written output.old) (O.written output.new)
        (judged_lines kind judged.now)) }
    ensures kinds { IfErr result (λ ending. (ending ≡ NoMemoryEnding) ⊎ (ending ≡ OutputEnding)) }
    ensures cause { HasCause (IsErrOf result OutputEnding) (O.faults output.old) (O.faults output.new) }
{
    let text = judged_text(alloc, kind, judged)?;
    if !text.is_empty() {
        output.write(&text)?;
    }
    Ok(())
}
