//! The calls of a crawl that add to its log.

ghost use Rattle.std.specs.Prelude.{[], IsErrOf};
ghost use Rattle.irl_base.specs.declared.fault.Fault.TheVariants.{Failed as FailedFault};
ghost use Rattle.irl_events.specs.Events.{Begin as SeenBegin, Robots as SeenRobots};
ghost use Rattle.irl_yard.specs.Adding.{AddsEvent, AddsNotes, MayBegin, MayNote, MayNoteAll};
ghost use Rattle.irl_yard.specs.Holding.{IsSound, StaysSound};
ghost use Rattle.irl_yard.specs.Settling.{KeepsLinks, MaySettle, settle_of};

use crate::parts::Rest;
use crate::yard::Yard;
use irl_disk::Store;
use irl_offer::{Done, Fault, Note, Text};

impl<S: Store> Yard<S> {
    /// Begins the crawl, with a text of suffixes: the first event. Want of memory changes nothing; `Failed` ends the
    /// soundness.
    pub fn begin(&mut self, suffixes: &Text) -> Result<(), Fault>
        requires sound { IsSound self.old.parts }
        requires begins { MayBegin self.old.parts.rest suffixes.now }
        ensures adds { AddsEvent S.told result (SeenBegin suffixes.now) self.old.parts self.new.parts
            self.old.store self.new.store }
        ensures goes_on { StaysSound (IsErrOf result Fault.Failed) self.new.parts }
    {
        let _is_sound = self.parts.urls.is_sound();
        match &mut self.parts.rest {
            Rest::Plain => unreachable!(),
            Rest::Crawl(ledger) => {
                ledger.keeps();
                ledger.begin(&mut self.store, suffixes)
            }
        }
    }

    /// Notes what is known of a host's robots file. Want of memory changes nothing; `Failed` ends the soundness.
    pub fn note_robots(&mut self, note: &Note) -> Result<(), Fault>
        requires sound { IsSound self.old.parts }
        requires notes { MayNote self.old.parts.rest note.now }
        ensures adds { AddsEvent S.told result (SeenRobots note.now) self.old.parts self.new.parts
            self.old.store self.new.store }
        ensures goes_on { StaysSound (IsErrOf result Fault.Failed) self.new.parts }
    {
        let _is_sound = self.parts.urls.is_sound();
        match &mut self.parts.rest {
            Rest::Plain => unreachable!(),
            Rest::Crawl(ledger) => ledger.note_robots(&mut self.store, note),
        }
    }

    /// Notes what is known of several hosts' robots files, in order, by two syncs in all. A stop leaves all of it or
    /// nothing. Want of memory changes nothing, and neither do no notes; `Failed` ends the soundness.
    pub fn note_all(&mut self, notes: &[Note]) -> Result<(), Fault>
        requires sound { IsSound self.old.parts }
        requires notes { MayNoteAll self.old.parts.rest notes.now }
        ensures adds { AddsNotes S.told result notes.now self.old.parts self.new.parts self.old.store self.new.store }
        ensures goes_on { StaysSound (IsErrOf result Fault.Failed) self.new.parts }
    {
        let _is_sound = self.parts.urls.is_sound();
        match &mut self.parts.rest {
            Rest::Plain => unreachable!(),
            Rest::Crawl(ledger) => ledger.note_all(&mut self.store, notes),
        }
    }

    /// Settles URLs of the front, the offers of whose links are flushed: one event, with what came of each and with how
    /// many offers each bucket of URLs has. Want of memory changes nothing; `Failed` ends the soundness.
    pub fn settle(&mut self, done: &[Done]) -> Result<(), Fault>
        requires sound { IsSound self.old.parts }
        requires settles { MaySettle self.old.parts.urls self.old.parts.rest done.now }
        ensures adds { AddsEvent S.told result (settle_of self.old.parts.urls done.now) self.old.parts self.new.parts
            self.old.store self.new.store }
        ensures links { KeepsLinks done.now self.old.parts (S.told self.old.store) (S.told self.new.store) }
        ensures goes_on { StaysSound (IsErrOf result Fault.Failed) self.new.parts }
    {
        let _is_sound = self.parts.urls.is_sound();
        match &mut self.parts.rest {
            Rest::Plain => unreachable!(),
            Rest::Crawl(ledger) => {
                ledger.keeps();
                ledger.has_begun();
                ledger.settle(&mut self.store, &self.parts.urls, done)
            }
        }
    }
}
