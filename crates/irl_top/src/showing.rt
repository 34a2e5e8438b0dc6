//! The commands that print what a store has. They look at it, and change nothing of what its files stand for.

ghost use Rattle.std.specs.Prelude.{◌≡◌, ◌+◌, ◌<◌, ◌^◌, ◌++◌, ◌∷◌, [], length, IfErr, IfOk, IsErrOf, OnErr, OnOk};
ghost use Rattle.std.specs.Io.KnownBytes.{Appends};
ghost use Rattle.irl_base.specs.Faults.{HasCause};
ghost use Rattle.irl_io.specs.Written.{AppendsPrefix};
ghost use Rattle.irl_model.specs.Book.{uniques_from};
ghost use Rattle.irl_events.specs.State.{State};
ghost use Rattle.irl_bay.specs.JudgedParts.{as_judged};
ghost use Rattle.irl_yard.specs.Holding.{HoldsState, IsSound};
ghost use Rattle.irl_report.specs.Report.{report_of};
ghost use Rattle.irl_top.specs.Listing.{IsWriteEnding, Prints, PrintsPart};
ghost use Rattle.irl_top.specs.Outside.{lent_beside, stream};
ghost use Rattle.irl_top.specs.Shown.{url_lines, IsListingOf, IsReportOf, Shown};
ghost use Rattle.irl_top.specs.Stream.{Stream};
ghost use Rattle.irl_top.specs.declared.ending.Ending.TheVariants.{OutputFault as OutputEnding};

use crate::Ending;
use crate::printing::PIECE;
use irl_bay::{JudgedPart, JudgedRef};
use irl_disk::Store;
use irl_fate::Counts;
use irl_io::Sink;
use irl_offer::Verdict;
use irl_report::{list_line, report};
use irl_yard::{Looked, Yard};
use std::alloc::{AllocError, Global};

/// The counts of a store that wasn't made yet.
const NO_COUNTS: Counts = Counts {
    offers: 0,
    judged: 0,
    unique: 0,
    pairs: 0,
    fresh: 0,
    queued: 0,
    last: 0,
    front: 0,
    done: 0,
    page: 0,
    moved: 0,
    status: 0,
    denied: 0,
    shut: 0,
    lost: 0,
    bad: 0,
    large: 0,
    coded: 0,
};

/// Prints the report of a store.
pub fn show<O: Sink, S: Store>(alloc: Global, output: &mut O, store: S) -> (Ending, S)
    ensures { (input : Stream) → let tells = lent_beside input S.told O.written O.faults in
        Shown IsReportOf (tells store output.old) (tells result.1 output.new) result.0 }
{
    match Yard::look(alloc, store) {
        Ok(Looked::Blank(store)) => {
            let printed = print_report(alloc, &NO_COUNTS, output);
            (Ending::of(printed), store)
        }
        Ok(Looked::Made(yard)) => {
            let printed = print_report(alloc, &yard.counts(), output);
            let _is_sound = yard.is_sound();
            (Ending::of(printed), yard.into_store())
        }
        Err((fault, store)) => (fault.into(), store),
    }
}

/// Prints a line for each unique number of a store.
pub fn list<O: Sink, S: Store>(alloc: Global, output: &mut O, store: S) -> (Ending, S)
    ensures { (input : Stream) → let tells = lent_beside input S.told O.written O.faults in
        Shown IsListingOf (tells store output.old) (tells result.1 output.new) result.0 }
{
    match Yard::look(alloc, store) {
        Ok(Looked::Blank(store)) => (Ending::Done, store),
        Ok(Looked::Made(yard)) => {
            let mut yard = yard;
            let printed = print_urls(alloc, &mut yard, output);
            (Ending::of(printed), yard.into_store())
        }
        Err((fault, store)) => (fault.into(), store),
    }
}

/// Prints a report.
pub fn print_report<O: Sink>(alloc: Global, counts: &Counts, output: &mut O) -> Result<(), Ending>
    ensures ok { OnOk result (Appends (O.written output.old) (O.written output.new) (report_of counts.now)) }
    ensures err { OnErr result (AppendsPrefix (O.written output.old) (O.written output.new) (report_of counts.now)) }
    ensures kinds { IfErr result IsWriteEnding }
    ensures cause { HasCause (IsErrOf result OutputEnding) (O.faults output.old) (O.faults output.new) }
{
    let text = report(alloc, counts)?;
    output.write(text.bytes())?;
    Ok(())
}

// Prints the lines of all unique numbers, some judged offers at a time.
fn print_urls<O: Sink, S: Store>(
    alloc: Global,
    yard: &mut Yard<S>,
    output: &mut O,
) -> Result<(), Ending>
    requires sound { IsSound yard.old.parts }
    ensures { let tells = stream O.written O.faults in Prints IsListingOf result yard.old.parts
        (S.told yard.old.store) (S.told yard.new.store) (tells output.old) (tells output.new) }
{
    let _is_sound = yard.is_sound();
    let mut number = 0;
    while number < yard.judged_len() {
        let judged = yard.judged_from(number, PIECE)?;
        print_part(alloc, yard, number, &judged, output)?;
        number += judged.len() as u64;
    }
    Ok(())
}

// Prints those of some judged offers that are unique; the first of the judged ones has this number.
fn print_part<O: Sink, S: Store>(
    alloc: Global,
    yard: &Yard<S>,
    first: u64,
    judged: &JudgedPart,
    output: &mut O,
) -> Result<(), Ending>
    requires { first + length judged.now < 2 ^ 64 }
    ensures { let tells = stream O.written O.faults in PrintsPart result (S.told yard.now.store).images
        yard.now.parts first judged.now (tells output.old) (tells output.new) }
{
    let text = part_text(alloc, yard, first, judged)?;
    output.write(&text)?;
    Ok(())
}

// What is printed of them.
fn part_text<S: Store>(
    alloc: Global,
    yard: &Yard<S>,
    first: u64,
    judged: &JudgedPart,
) -> Result<Vec<u8>, AllocError>
    requires { first + length judged.now < 2 ^ 64 }
    ensures { IfOk result (λ text. (state : State)
        → HoldsState (S.told yard.now.store).images yard.now.parts state
        → text.items ≡ url_lines yard.now.parts.urls.settings state (uniques_from first judged.now)) }
{
    let mut text = Vec::new(alloc);
    for i in 0..judged.len() {
        push_url(alloc, yard, first + i as u64, &judged.get(i), &mut text)?;
    }
    Ok(text)
}

// Puts behind a text the line of a judged offer with this number, where it is unique.
fn push_url<S: Store>(
    alloc: Global,
    yard: &Yard<S>,
    number: u64,
    one: &JudgedRef<'_>,
    text: &mut Vec<u8>,
) -> Result<(), AllocError>
    ensures { OnOk result ((state : State) → HoldsState (S.told yard.now.store).images yard.now.parts state
        → text.new.items ≡ text.old.items
        ++ url_lines yard.now.parts.urls.settings state (uniques_from number (as_judged one.now ∷ []))) }
{
    if let Some(Verdict::Unique) = one.verdict {
        let line = list_line(alloc, number, &yard.fate(number), one.aux)?;
        text.extend_from_slice(line.bytes())?;
    }
    Ok(())
}
