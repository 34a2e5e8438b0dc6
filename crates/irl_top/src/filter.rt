ghost use Rattle.std.specs.Prelude.{◌≡◌, ◌≢◌, ◌+◌, ◌≤◌, List, ℕ, []};
ghost use Rattle.std.specs.Option.{ForSome};
ghost use Rattle.irl_base.specs.Faults.{HasCause};
ghost use Rattle.irl_offer.specs.Tuple.{Tuple};
ghost use Rattle.irl_model.specs.Book.{IsPrefixOf};
ghost use Rattle.irl_yard.specs.Holding.{IsSound};
ghost use Rattle.irl_schedule.specs.Schedule.{one_more};
ghost use Rattle.irl_top.specs.Message.{ending_of};
ghost use Rattle.irl_top.specs.Input.{offered};
ghost use Rattle.irl_offer.specs.declared.settings.Kind.TheVariants.{Crawl};
ghost use Rattle.irl_top.specs.Outside.{lent};
ghost use Rattle.irl_top.specs.Run.{Ran, line_task};
ghost use Rattle.irl_top.specs.Session.{place_of, EndsWith, HasReason, HasRead};

use crate::Ending;
use crate::line::LineKind;
use crate::reading::next_offer;
use crate::session::{end_input, take_offer};
use irl_disk::Store;
use irl_intake::Intake;
use irl_io::{Lines, Sink, Source};
use irl_offer::Asked;
use irl_yard::Yard;
use std::alloc::Global;

/// Keeps what the lines of the input offer, and writes what they are judged as.
pub fn filter<I: Source, O: Sink, S: Store>(
    alloc: Global,
    kind: LineKind,
    asked: &Asked,
    input: &mut I,
    output: &mut O,
    store: S,
) -> (Ending, S)
    requires lines { asked.now.kind ≢ Crawl }
    ensures { let tells = lent S.told I.left I.faults O.written O.faults in
        Ran (line_task kind asked.now) (tells store input.old output.old) (tells result.1 input.new output.new) result.0 }
{
    let yard = match Yard::enter(alloc, store, asked) {
        Ok(yard) => yard,
        Err((fault, store)) => return (fault.into(), store),
    };
    let mut printed = yard.judged_len();
    let mut intake = match Intake::new(alloc, yard) {
        Ok(intake) => intake,
        Err(yard) => return (Ending::NoMemory, yard.into_store()),
    };
    let taken = take_in(alloc, kind, &mut intake, &mut printed, input, output);
    let _is_sound = intake.is_sound();
    (Ending::of(taken), intake.into_store())
}

// Takes in the lines of an input, and prints what is judged; so many judged offers were printed before.
fn take_in<I: Source, O: Sink, S: Store>(
    alloc: Global,
    kind: LineKind,
    intake: &mut Intake<S>,
    printed: &mut u64,
    input: &mut I,
    output: &mut O,
) -> Result<(), Ending>
    requires sound { IsSound intake.old.yard.parts }
    requires whole { intake.old.yard.parts.urls.last.judged ≤ printed.old }
    ensures ends { let at = place_of O.written O.faults in (news : List Tuple)
        × HasRead kind news (I.left input.old) (I.left input.new) (ending_of result)
        × EndsWith kind 1 one_more news
        (at intake.old output.old printed.old) (at intake.new output.new printed.new) (ending_of result) }
    ensures reason { let at = place_of O.written O.faults in HasReason
        (at intake.old output.old printed.old) (at intake.new output.new printed.new) (ending_of result) }
    ensures cause { HasCause (ending_of result ≡ Ending.InputFault) (I.faults input.old) (I.faults input.new) }
{
    let _is_sound = intake.is_sound();
    let mut lines = Lines::new(alloc)?;
    'offers: loop {
        let _is_sound = intake.is_sound();
        match next_offer(alloc, kind, &mut lines, input)? {
            Some(offer) => take_offer(alloc, kind, intake, printed, output, offer)?,
            None => return end_input(alloc, kind, intake, printed, output),
        }
    }
}
