ghost use Rattle.std.specs.Prelude.{◌≡◌, ◌++◌, codes, IfOk, OnOk};
ghost use Rattle.irl_report.specs.Report.{count_line, report_of};

use irl_fate::Counts;
use irl_offer::Text;
use itoa::Buffer;
use std::alloc::{AllocError, Global};

// Puts the line of a count behind the others.
fn push_line(bytes: &mut Vec<u8>, name: &[u8], count: u64) -> Result<(), AllocError>
    ensures { OnOk result (bytes.new.items ≡ bytes.old.items ++ count_line name.now count) }
{
    let mut buffer = Buffer::new();
    bytes.extend_from_slice(name)?;
    bytes.extend_from_slice(b" ")?;
    bytes.extend_from_slice(buffer.format(count).as_bytes())?;
    bytes.extend_from_slice(b"\n")?;
    Ok(())
}

// Puts the lines of what was offered, and of where URLs are, behind the others.
fn push_places(bytes: &mut Vec<u8>, counts: &Counts) -> Result<(), AllocError>
    ensures { OnOk result (bytes.new.items ≡ bytes.old.items
        ++ count_line (codes "offers") counts.now.offers ++ count_line (codes "judged") counts.now.judged
        ++ count_line (codes "unique") counts.now.unique ++ count_line (codes "pairs") counts.now.pairs
        ++ count_line (codes "fresh") counts.now.fresh ++ count_line (codes "queued") counts.now.queued
        ++ count_line (codes "last") counts.now.last ++ count_line (codes "front") counts.now.front
        ++ count_line (codes "done") counts.now.done) }
{
    push_line(bytes, b"offers", counts.offers)?;
    push_line(bytes, b"judged", counts.judged)?;
    push_line(bytes, b"unique", counts.unique)?;
    push_line(bytes, b"pairs", counts.pairs)?;
    push_line(bytes, b"fresh", counts.fresh)?;
    push_line(bytes, b"queued", counts.queued)?;
    push_line(bytes, b"last", counts.last)?;
    push_line(bytes, b"front", counts.front)?;
    push_line(bytes, b"done", counts.done)?;
    Ok(())
}

// Puts the lines of what came of URLs behind the others.
fn push_outcomes(bytes: &mut Vec<u8>, counts: &Counts) -> Result<(), AllocError>
    ensures { OnOk result (bytes.new.items ≡ bytes.old.items
        ++ count_line (codes "page") counts.now.page ++ count_line (codes "moved") counts.now.moved
        ++ count_line (codes "status") counts.now.status ++ count_line (codes "denied") counts.now.denied
        ++ count_line (codes "shut") counts.now.shut ++ count_line (codes "lost") counts.now.lost
        ++ count_line (codes "bad") counts.now.bad ++ count_line (codes "large") counts.now.large
        ++ count_line (codes "coded") counts.now.coded) }
{
    push_line(bytes, b"page", counts.page)?;
    push_line(bytes, b"moved", counts.moved)?;
    push_line(bytes, b"status", counts.status)?;
    push_line(bytes, b"denied", counts.denied)?;
    push_line(bytes, b"shut", counts.shut)?;
    push_line(bytes, b"lost", counts.lost)?;
    push_line(bytes, b"bad", counts.bad)?;
    push_line(bytes, b"large", counts.large)?;
    push_line(bytes, b"coded", counts.coded)?;
    Ok(())
}

/// The report of these counts: 18 lines `NAME N`, in their order.
pub fn report(alloc: Global, counts: &Counts) -> Result<Text, AllocError>
    ensures { IfOk result (λ text. text ≡ report_of counts.now) }
{
    let mut bytes = Vec::new(alloc);
    push_places(&mut bytes, counts)?;
    push_outcomes(&mut bytes, counts)?;
    Ok(Text::from_vec(bytes))
}
