ghost use Rattle.std.specs.Prelude.{◌≡◌, ◌<◌, ◌≤◌, ◌⊎◌, ℕ, List, [], ◌∷◌, IfOk, IfErr, IfSome, None, IsErrOf};
ghost use Rattle.irl_base.specs.Faults.{HasCause};
ghost use Rattle.irl_io.specs.Lines.{most_lines};
ghost use Rattle.irl_top.specs.Session.{ReadsOnTold, EndsTold, RefusesTold};
ghost use Rattle.irl_top.specs.declared.ending.Ending.TheVariants.{NoMemory as NoMemoryEnding, InputFault as InputEnding, LineRefused as RefusedEnding};

use crate::Ending;
use crate::line::{LineKind, Reading, read_line};
use irl_io::{Lines, Source, Step};
use irl_offer::Offer;
use std::alloc::Global;

/// The offer of the next line that offers something, or none at the end of the input.
pub fn next_offer<I: Source>(
    alloc: Global,
    kind: LineKind,
    lines: &mut Lines,
    input: &mut I,
) -> Result<Option<Offer>, Ending>
    ensures some { IfOk result (λ found. IfSome found (λ offer.
        ReadsOnTold kind lines.old lines.new (I.left input.old) (I.left input.new) (offer ∷ []))) }
    ensures number { IfOk result (λ found. IfSome found (λ _.
        (lines.old.number < lines.new.number) × (lines.new.number ≤ most_lines))) }
    ensures none { IfOk result (λ found. found ≡ None → EndsTold kind lines.old (I.left input.old) (I.left input.new)) }
    ensures kinds { IfErr result (λ ending. (ending ≡ NoMemoryEnding) ⊎ (ending ≡ InputEnding)
        ⊎ ((n : ℕ) × (ending ≡ RefusedEnding n))) }
    ensures refused { (n : ℕ) → IsErrOf result (Ending.LineRefused n)
        → RefusesTold kind lines.old (I.left input.old) n }
    ensures cause { HasCause (IsErrOf result InputEnding) (I.faults input.old) (I.faults input.new) }
{
    'lines: loop {
        match lines.next(input) {
            Step::Line(line) => match read_line(alloc, kind, line)? {
                Reading::Skipped => {}
                Reading::Offered(offer) => return Ok(Some(offer)),
                Reading::Refused => return Err(Ending::LineRefused(lines.number())),
            },
            Step::End => return Ok(None),
            Step::LongLine(n) => return Err(Ending::LineRefused(n)),
            Step::Failed => return Err(Ending::InputFault),
        }
    }
}
