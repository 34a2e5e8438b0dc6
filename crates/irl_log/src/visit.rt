ghost use Rattle.std.specs.Prelude.{◌≡◌, ◌<◌, ◌≤◌, ℕ, true, false, IfOk};
ghost use Rattle.irl_events.specs.Events.{Event as SeenEvent};
ghost use Rattle.irl_events.specs.Seen.{seen};
ghost use Rattle.irl_log.specs.Visiting.{TakesRecord, RefusesRecord, OpensLog, RevisitsLog};

use crate::codec::read_payload;
use crate::log::Log;
use irl_disk::Store;
use irl_events::Event;
use irl_journal::{Journal, JournalFault, Visit};
use std::alloc::{AllocError, Global};

/// What a log's events are handed to.
pub trait VisitEvents {
    /// What a visitor becomes that takes an event: the visitor before, the place of the gate of the event's first
    /// record, the event, and the visitor after.
    ghost takes: { Self → ℕ → SeenEvent → Self → Type 0 };

    /// A visitor refuses the event with this place. The last is what the visitor becomes.
    ghost refuses: { Self → ℕ → SeenEvent → Self → Type 0 };

    /// Takes an event, or answers false where it refuses it.
    fn take(&mut self, at: u64, event: Event) -> Result<bool, AllocError>
        ensures taken { IfOk result (λ is_taken. is_taken ≡ true → takes self.old at (seen event) self.new) }
        ensures refused { IfOk result (λ is_taken. is_taken ≡ false → refuses self.old at (seen event) self.new) };
}

impl Log {
    /// Opens the log of a file, of a crawl over so many buckets: syncs the file, and hands each event to the visitor,
    /// in order, with the place of the gate of its first record. A file of at most one byte is an empty log: its gate
    /// is written closed where it isn't. `Damaged` names the first place whose record passes the file's end or the
    /// limit of a payload, is of no event, or is of one that the visitor refuses.
    pub fn visit<S: Store, V: VisitEvents>(
        alloc: Global,
        store: &mut S,
        f: u16,
        buckets: u32,
        visitor: &mut V,
    ) -> Result<Log, JournalFault>
        requires { f < 10000 }
        ensures { OpensLog V.takes V.refuses result f buckets visitor.old visitor.new
            (S.told store.old) (S.told store.new) }
    {
        let mut records = RecordVisitor {
            alloc,
            buckets,
            visitor,
        };
        let journal = Journal::visit(alloc, store, f, &mut records)?;
        Ok(Log { journal, buckets })
    }

    /// Hands the events from the one whose first record's gate stands at this place on to a visitor, in order. It opens
    /// nothing and changes nothing. At the log's end there are none, and it makes no call of the store. `Damaged` names
    /// a place as for `visit`, or that of a closed gate which isn't the log's end.
    pub fn revisit<S: Store, V: VisitEvents>(
        &self,
        alloc: Global,
        store: &mut S,
        at: u64,
        visitor: &mut V,
    ) -> Result<(), JournalFault>
        requires { at ≤ self.now.journal.end }
        ensures { RevisitsLog S.told V.takes V.refuses result self.now at visitor.old visitor.new store.old store.new }
    {
        let mut records = RecordVisitor {
            alloc,
            buckets: self.buckets,
            visitor,
        };
        self.journal.revisit(alloc, store, at, &mut records)
    }
}

// Takes the records of a log's journal: each is read, and its event handed on. Contracts say that it keeps its
// reference, so that the visitor is found behind that in the end.
#[derive(Drop)]
struct RecordVisitor<'a, V: VisitEvents> {
    alloc: Global,
    buckets: u32,
    visitor: &'a mut V,
}

impl<V: VisitEvents> Visit for RecordVisitor<'_, V> {
    ghost takes = { λ old at payload new. TakesRecord V.takes old.buckets old.visitor.now at payload new.visitor.now
        × (new.buckets ≡ old.buckets) × (new.visitor.ghost_name ≡ old.visitor.ghost_name) };

    ghost refuses = { λ old at payload new. RefusesRecord V.refuses old.buckets old.visitor.now at payload
        new.visitor.now × (new.buckets ≡ old.buckets) × (new.visitor.ghost_name ≡ old.visitor.ghost_name) };

    fn take(&mut self, at: u64, payload: &[u8]) -> Result<bool, AllocError> {
        match read_payload(self.alloc, self.buckets, payload)? {
            Some(event) => self.visitor.take(at, event),
            None => Ok(false),
        }
    }
}
