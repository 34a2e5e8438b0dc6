ghost use Rattle.std.specs.Prelude.{◌≡◌, ◌≤◌, ℕ, List, Some, length, min, IfOk, IsErrOf, OnOk};
ghost use Rattle.std.specs.List.{All, AllByRecursion};
ghost use Rattle.irl_base.specs.declared.fault.Fault.TheVariants.{Failed as FailedFault};
ghost use Rattle.irl_ledger.specs.Settling.{max_settled};
ghost use Rattle.irl_log.specs.Form.{IsNote, IsWord};
ghost use Rattle.irl_yard.specs.Passing.{front_in, suffixes_in};
ghost use Rattle.irl_yard.specs.Settling.{MaySettle};
ghost use Rattle.irl_crawl.specs.Batches.{Batches, Turned, a_desk_unless, besides, judged_in, just};
ghost use Rattle.irl_crawl.specs.Fetching.{Fetches};
ghost use Rattle.irl_crawl.specs.Leading.{IsOpen, IsSent, KeepsBegun, Leads};
ghost use Rattle.irl_crawl.specs.Refusing.{RefusesAsFound};
ghost use Rattle.irl_crawl.specs.Serving.{KeepsNumbers};
ghost use Rattle.irl_crawl.specs.Settling.{IsSettling, Settles};
ghost use Rattle.irl_crawl.specs.Turning.{MayTurn, Turns};
ghost use Rattle.irl_crawl.specs.Workers.{AllGoOn, AreFor, AreIdle, AreReady, given_by, schedules};

use crate::crew::Crew;
use crate::seeds::judge;
use crate::work::work_all;
use irl_disk::Store;
use irl_fetch::{Gate, WorkLog};
use irl_lock::Shared;
use irl_offer::{Done, Fault, Note};
use irl_record::Fetch;
use irl_yard::Yard;
use std::alloc::Global;
use std::sync::Wait;
use std::thread::Threads;

/// One turn: the first so many pages of the front are fetched, and what came of them is settled. Answers how many were.
pub fn turn<R, S, F, G>(
    rt: &R,
    alloc: Global,
    yard: Yard<S>,
    fetchers: &mut [F],
    gates: &mut [G],
    crew: &mut Crew,
    most: u32,
) -> (Result<u32, Fault>, Yard<S>)
where
    R: Threads + Wait + Sync,
    S: Store + Send,
    F: Fetch + Send,
    G: Gate + Send,
    requires open { IsOpen yard.parts }
    requires suffixes { suffixes_in yard.parts.rest ≡ Some crew.old.suffixes }
    requires some { (1 ≤ length fetchers.old) × (length fetchers.old ≤ 64) × (length gates.old ≡ length fetchers.old) }
    requires idle { AreIdle (length fetchers.old) crew.old.agent (schedules crew.old.fronts.items) }
    requires front { (1 ≤ length (front_in yard.parts.rest)) × (1 ≤ most) × (most ≤ max_settled) }
    ensures leads { Leads (IsErrOf result.0 Fault.Failed)
        (MayTurn (given_by F.asked F.gives F.faults fetchers.old fetchers.new) crew.old.agent crew.old.suffixes
        yard.parts.urls.settings most (schedules crew.old.fronts.items))
        (Turns result.0 (given_by F.asked F.gives F.faults fetchers.old fetchers.new) crew.old.agent crew.old.suffixes
        yard.parts.urls.settings most (schedules crew.old.fronts.items) (schedules crew.new.fronts.items))
        yard.parts result.1.parts (S.told yard.store) (S.told result.1.store) }
    ensures batches { Batches (IsErrOf result.0 Fault.Failed) (a_desk_unless result.0) (besides 1 0)
        yard.parts result.1.parts (S.told yard.store) (S.told result.1.store) }
    ensures refused { RefusesAsFound result.0 result.1.parts (S.told result.1.store) }
    ensures keeps { OnOk result.0 (KeepsBegun yard.parts result.1.parts × IsSent result.1.parts) }
    ensures count { IfOk result.0 (λ count. (1 ≤ count) × (count ≤ most)) }
    ensures all { IfOk result.0 (λ count. count ≡ min most (length (front_in yard.parts.rest))) }
    ensures idle { OnOk result.0 (AreIdle (length fetchers.old) crew.new.agent (schedules crew.new.fronts.items)) }
    ensures crew { (crew.new.agent ≡ crew.old.agent) × (crew.new.suffixes ≡ crew.old.suffixes) }
    // A host that has a worker keeps it.
    ensures numbers { KeepsNumbers crew.old.hosts crew.new.hosts }
    ensures fetchers { AllGoOn F.asked F.gives F.faults F.last F.aim fetchers.old fetchers.new }
{
    let mut yard = yard;
    let _is_sound = yard.is_sound();
    if let Err(fault) = crew.load(&mut yard, fetchers, most) {
        return (Err(fault), yard);
    }
    let (worked, yard) = fetch_all(rt, alloc, yard, fetchers, gates, crew);
    let mut yard = yard;
    match worked {
        Ok(log) => {
            moments_are_words(&log.notes);
            let settled = settle(&mut yard, &log.notes, &log.done);
            (settled, yard)
        }
        Err(fault) => (Err(fault), yard),
    }
}

// What the workers do, side by side, over the store that they share.
fn fetch_all<R, S, F, G>(
    rt: &R,
    alloc: Global,
    yard: Yard<S>,
    fetchers: &mut [F],
    gates: &mut [G],
    crew: &mut Crew,
) -> (Result<WorkLog, Fault>, Yard<S>)
where
    R: Threads + Wait + Sync,
    S: Store + Send,
    F: Fetch + Send,
    G: Gate + Send,
    requires open { IsOpen yard.parts }
    requires some { (1 ≤ length fetchers.old) × (length fetchers.old ≤ 64) }
    requires fronts { length crew.old.fronts.items ≡ length fetchers.old }
    requires gates { length gates.old ≡ length fetchers.old }
    requires agents { AreFor crew.old.agent (schedules crew.old.fronts.items) }
    requires ready { AreReady (schedules crew.old.fronts.items) }
    ensures fetches { Fetches result.0 (given_by F.asked F.gives F.faults fetchers.old fetchers.new) crew.old.agent
        crew.old.suffixes (schedules crew.old.fronts.items) (schedules crew.new.fronts.items)
        yard.parts result.1.parts (S.told yard.store) (S.told result.1.store) }
    ensures batches { Batches (IsErrOf result.0 Fault.Failed) (just 1 0) (just 1 0) yard.parts result.1.parts
        (S.told yard.store) (S.told result.1.store) }
    ensures refused { RefusesAsFound result.0 result.1.parts (S.told result.1.store) }
    ensures fetchers { AllGoOn F.asked F.gives F.faults F.last F.aim fetchers.old fetchers.new }
    ensures crew { crew.new ≡ record crew.old { fronts = crew.new.fronts } }
{
    let _is_sound = yard.is_sound();
    let (shared, passes) = match Shared::new(alloc, yard, fetchers.len() as u32) {
        Ok(made) => made,
        Err((fault, yard)) => return (Err(fault), yard),
    };
    let (worked, passes) = work_all(rt, alloc, &shared, passes, fetchers, gates, crew);
    match shared.close(passes) {
        Ok(yard) => (worked, yard),
        Err((fault, yard)) => (Err(fault), yard),
    }
}

// Keeps the notes of a turn, and then settles its outcomes; what is unjudged is judged, and pairs are sent.
fn settle<S: Store>(yard: &mut Yard<S>, notes: &[Note], done: &[Done]) -> Result<u32, Fault>
    requires open { IsOpen yard.old.parts }
    requires notes { AllByRecursion IsNote notes.now }
    requires settles { MaySettle yard.old.parts.urls yard.old.parts.rest done.now }
    ensures leads { (suffixes : List ℕ) → suffixes_in yard.old.parts.rest ≡ Some suffixes →
        Leads (IsErrOf result Fault.Failed)
        (IsSettling suffixes yard.old.parts.urls.settings notes.now done.now)
        (Settles result suffixes yard.old.parts.urls.settings notes.now done.now) yard.old.parts yard.new.parts
        (S.told yard.old.store) (S.told yard.new.store) }
    ensures batches { Batches (IsErrOf result Fault.Failed) judged_in judged_in yard.old.parts yard.new.parts
        (S.told yard.old.store) (S.told yard.new.store) }
    ensures refused { RefusesAsFound result yard.new.parts (S.told yard.new.store) }
    ensures turned { Turned result yard.old.parts yard.new.parts (S.told yard.old.store) (S.told yard.new.store) }
    ensures keeps { OnOk result (KeepsBegun yard.old.parts yard.new.parts × IsSent yard.new.parts) }
    ensures count { IfOk result (λ count. count ≡ length done.now) }
{
    let _is_sound = yard.is_sound();
    yard.note_all(notes)?;
    yard.settle(done)?;
    judge(yard)?;
    Ok(done.len() as u32)
}

// A law: the moments of notes have 64 bits. It does nothing.
fn moments_are_words(notes: &[Note])
    ensures { All (λ note. IsWord note.when) notes.now }
{
    for note in notes {
        moment_is_word(note);
    }
}

// A law: the moment of a note has 64 bits, as its type says. It does nothing.
fn moment_is_word(note: &Note)
    ensures { IsWord note.now.when }
{
    let _when = note.when;
}
