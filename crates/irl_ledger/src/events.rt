//! Events that are added to a crawl's log.

ghost use Rattle.std.specs.Prelude.{◌≡◌, ◌<◌, [], true, false, length, map, None, Some, IfOk, IsOk};
ghost use Rattle.std.specs.Option.{ForSome};
ghost use Rattle.irl_events.specs.Events.{Begin as SeenBegin, Robots as SeenRobots};
ghost use Rattle.irl_events.specs.Legal.{broken};
ghost use Rattle.irl_events.specs.Seen.{seen, HasFronts};
ghost use Rattle.irl_frontier.specs.Frontier.{after_other};
ghost use Rattle.irl_frontier.specs.Plans.{IsNoPass, IsPlanOf, after_plan};
ghost use Rattle.irl_log.specs.Form.{IsLogged};
ghost use Rattle.irl_ledger.specs.Adding.{AddsAllToLog, AddsToLog, MayBegin, MayNote, MayNoteAll};

use crate::Ledger;
use irl_disk::Store;
use irl_events::Event;
use irl_frontier::{FateFault, Plan};
use irl_offer::{Fault, Note, NoteState, Text};
use irl_pld::{SuffixFault, Suffixes};
use std::alloc::{AllocError, Global};

impl Ledger {
    /// Begins the crawl, with a text of suffixes: the first event. Want of memory changes nothing; `Failed` ends the log's
    /// soundness.
    pub fn begin<S: Store>(&mut self, store: &mut S, suffixes: &Text) -> Result<(), Fault>
        requires sound { self.old.log.journal.is_sound ≡ true }
        requires place { ForSome (S.told store.old).files (λ files.
            self.old.log.journal.end < length (files self.old.log.journal.file)) }
        requires begins { MayBegin self.old suffixes.now }
        ensures { AddsToLog S.told result (SeenBegin suffixes.now)
            (after_other self.old.frontier (SeenBegin suffixes.now)) (Some suffixes.now) self.old self.new
            store.old store.new }
    {
        let read = match Suffixes::read(self.alloc, suffixes.bytes()) {
            Ok(read) => read,
            Err(SuffixFault::Memory) => return Err(Fault::Memory),
            Err(SuffixFault::BadLine(_)) => unreachable!(),
        };
        let event = Event::Begin(suffixes.copy(self.alloc)?);
        self.add(store, event)?;
        self.suffixes = Some(read);
        Ok(())
    }

    /// Notes what is known of a host's robots file. Want of memory changes nothing; `Failed` ends the log's soundness.
    pub fn note_robots<S: Store>(&mut self, store: &mut S, note: &Note) -> Result<(), Fault>
        requires sound { self.old.log.journal.is_sound ≡ true }
        requires place { ForSome (S.told store.old).files (λ files.
            self.old.log.journal.end < length (files self.old.log.journal.file)) }
        requires notes { MayNote self.old note.now }
        ensures { AddsToLog S.told result (SeenRobots note.now)
            (after_other self.old.frontier (SeenRobots note.now)) self.old.suffixes self.old self.new
            store.old store.new }
    {
        let event = Event::Robots(copied(self.alloc, note)?);
        self.add(store, event)
    }

    /// Notes what is known of several hosts' robots files, in order: all of it is in one append, of two syncs. Want of
    /// memory changes nothing, and neither do no notes; `Failed` ends the log's soundness.
    pub fn note_all<S: Store>(&mut self, store: &mut S, notes: &[Note]) -> Result<(), Fault>
        requires sound { self.old.log.journal.is_sound ≡ true }
        requires place { ForSome (S.told store.old).files (λ files.
            self.old.log.journal.end < length (files self.old.log.journal.file)) }
        requires notes { MayNoteAll self.old notes.now }
        ensures { AddsAllToLog S.told result (map SeenRobots notes.now) self.old.frontier self.old.suffixes
            self.old self.new store.old store.new }
    {
        let events = robots_events(self.alloc, notes)?;
        let before = self.notes.take_all(self.log.end(), &events)?;
        if let Err(fault) = self.log.append(self.alloc, store, &events) {
            self.notes.put_all_back(before);
            return Err(fault);
        }
        // No place was cut off, since the end behind all of them is a number.
        let _end = self.log.end();
        Ok(())
    }

    // One event more, which breaks no rule and gives no places: it is planned, logged, and then done.
    pub(crate) fn add<S: Store>(&mut self, store: &mut S, event: Event) -> Result<(), Fault>
        requires sound { self.old.log.journal.is_sound ≡ true }
        requires place { ForSome (S.told store.old).files (λ files.
            self.old.log.journal.end < length (files self.old.log.journal.file)) }
        requires other { IsNoPass event }
        requires fronts { HasFronts self.old.frontier.settings.buckets event }
        requires logged { IsLogged self.old.log.buckets (seen event) }
        requires legal { broken self.old.frontier.progress (seen event) [] ≡ None }
        ensures { AddsToLog S.told result (seen event) (after_other self.old.frontier (seen event))
            self.old.suffixes self.old self.new store.old store.new }
    {
        let plan = match self.frontier.plan(&event) {
            Ok(plan) => plan,
            Err(FateFault::Memory) => return Err(Fault::Memory),
            Err(FateFault::Illegal(_)) => unreachable!(),
        };
        self.append(store, event, plan)
    }

    // One event more that is planned: it is logged, and then done. A note's place is known before, and put back where the log
    // refuses it.
    pub(crate) fn append<S: Store>(
        &mut self,
        store: &mut S,
        event: Event,
        plan: Plan,
    ) -> Result<(), Fault>
        requires sound { self.old.log.journal.is_sound ≡ true }
        requires place { ForSome (S.told store.old).files (λ files.
            self.old.log.journal.end < length (files self.old.log.journal.file)) }
        requires logged { IsLogged self.old.log.buckets (seen event) }
        requires plan { IsPlanOf self.old.frontier plan }
        ensures { AddsToLog S.told result (seen event) (after_plan self.old.frontier plan)
            self.old.suffixes self.old self.new store.old store.new }
    {
        let before = self.notes.take(self.log.end(), &event)?;
        if let Err(fault) = self.log.append(self.alloc, store, &[event]) {
            self.notes.put_back(before);
            return Err(fault);
        }
        self.frontier.commit(plan);
        Ok(())
    }
}

// The events of some notes, in order.
fn robots_events(alloc: Global, notes: &[Note]) -> Result<Vec<Event>, AllocError>
    ensures value { IfOk result (λ events. map seen events.items ≡ map SeenRobots notes.now) }
    ensures none { length notes.now ≡ 0 → IsOk result }
{
    let mut events = Vec::new(alloc);
    for note in notes {
        events.push(Event::Robots(copied(alloc, note)?))?;
    }
    Ok(events)
}

// The same note once more.
fn copied(alloc: Global, note: &Note) -> Result<Note, AllocError>
    ensures { IfOk result (λ copy. copy ≡ note.now) }
{
    let state = match &note.state {
        NoteState::Rules(text) => NoteState::Rules(text.copy(alloc)?),
        NoteState::Free => NoteState::Free,
        NoteState::Shut => NoteState::Shut,
    };
    Ok(Note {
        host: note.host.copy(alloc)?,
        when: note.when,
        state,
    })
}
