ghost use Rattle.std.specs.Prelude.{◌≡◌, ◌++◌, IfOk, OnOk};
ghost use Rattle.irl_bay.specs.JudgedParts.{as_judged};
ghost use Rattle.irl_top.specs.Printed.{judged_line, judged_lines, line_if_unique};

use crate::line::LineKind;
use irl_bay::{JudgedPart, JudgedRef};
use irl_offer::Verdict;
use irl_tuple::push_verdict;
use std::alloc::{AllocError, Global};

/// How many judged offers are printed at once.
pub const PIECE: u32 = 2_048;

/// What is printed of judged offers, which lines of a kind were read as.
pub fn judged_text(
    alloc: Global,
    kind: LineKind,
    judged: &JudgedPart,
) -> Result<Vec<u8>, AllocError>
    ensures { IfOk result (λ text. text.items ≡ judged_lines kind judged.now) }
{
    let mut text = Vec::new(alloc);
    for i in 0..judged.len() {
        push_judged(kind, &judged.get(i), &mut text)?;
    }
    Ok(text)
}

// Puts behind a text what is printed of one.
fn push_judged(kind: LineKind, one: &JudgedRef<'_>, text: &mut Vec<u8>) -> Result<(), AllocError>
    ensures { OnOk result (text.new.items ≡ text.old.items ++ judged_line kind (as_judged one.now)) }
{
    match kind {
        LineKind::Text => push_if_unique(one.aux, one.verdict, text),
        LineKind::Tuple => push_verdict(one.key, one.verdict, one.aux, text),
    }
}

// Puts behind a text a line that was judged Unique.
fn push_if_unique(
    line: &[u8],
    verdict: Option<Verdict>,
    text: &mut Vec<u8>,
) -> Result<(), AllocError>
    ensures { OnOk result (text.new.items ≡ text.old.items ++ line_if_unique line.now verdict) }
{
    match verdict {
        Some(Verdict::Unique) => {
            text.extend_from_slice(line)?;
            text.push(b'\n')?;
        }
        Some(Verdict::Absent) | Some(Verdict::Known(_)) | None => {}
    }
    Ok(())
}
