ghost use Rattle.std.specs.Prelude.{◌≡◌, ◌<◌, ◌≤◌, [], ◌∷◌, true, length, map, IfOk, OnOk, IsErr};
ghost use Rattle.std.specs.Option.{ForSome};
ghost use Rattle.irl_disk.specs.Disk.{Changes, ChangesFile, Scribbled};
ghost use Rattle.irl_disk.specs.Effects.{OnlyChanges};
ghost use Rattle.irl_events.specs.Seen.{seen};
ghost use Rattle.irl_log.specs.Appending.{AppendsEvents};
ghost use Rattle.irl_log.specs.Log.{AreLogged, HoldsLog};

use crate::payloads::EventPayloads;
use irl_base::Fault;
use irl_disk::{Failed, Store};
use irl_events::Event;
use irl_journal::Journal;
use std::alloc::Global;
use std::marker::Model;

/// The log of a crawl, open at its end. Contracts see it as an `OpenLog`.
#[derive(Drop)]
pub struct Log {
    pub(crate) journal: Journal,
    pub(crate) buckets: u32,
}

impl Model for Log {
    ghost use Rattle.irl_log.specs.Log.{OpenLog};

    ghost Value = { OpenLog };

    ghost view = { λ l. record { journal = l.journal; buckets = l.buckets } };
}

impl Log {
    /// Makes an empty log of a file of at most one byte, of a crawl over so many buckets: writes its closed gate and
    /// syncs it.
    pub fn make<S: Store>(store: &mut S, f: u16, buckets: u32) -> Result<Log, Failed>
        requires file { f < 10000 }
        requires short { ForSome (S.told store.old).files (λ files. length (files f) ≤ 1) }
        ensures log { IfOk result (λ log.
            log ≡ record { journal = record { file = f; end = 0; is_sound = true }; buckets = buckets }) }
        ensures holds { IfOk result (λ log. HoldsLog (S.told store.new).images log []) }
        ensures ok { OnOk result (Changes f (λ _ new. new ≡ 0 ∷ []) (S.told store.old).files (S.told store.new).files) }
        // A stop at any moment leaves every file as it was, but for the first byte of this one.
        ensures changes { OnlyChanges (ChangesFile f (Scribbled 0 1)) (IsErr result)
            (S.told store.old) (S.told store.new) }
    {
        let journal = Journal::make(store, f)?;
        Ok(Log { journal, buckets })
    }

    /// Appends some events, in order, by two syncs in all. A stop leaves all of them or none. Its memory is reserved
    /// before the first call of the store. At `Ok` they are acknowledged: each stop from then on leaves them. `Failed`
    /// ends the log's soundness, and `Memory` changes nothing; it has no other error. Of no events it makes no call.
    pub fn append<S: Store>(
        &mut self,
        alloc: Global,
        store: &mut S,
        events: &[Event],
    ) -> Result<(), Fault>
        requires sound { self.old.journal.is_sound ≡ true }
        requires place { ForSome (S.told store.old).files (λ files.
            self.old.journal.end < length (files self.old.journal.file)) }
        requires logged { AreLogged self.old.buckets (map seen events.now) }
        ensures { AppendsEvents S.told result (map seen events.now) self.old self.new store.old store.new }
    {
        let payloads = EventPayloads { events };
        self.journal.append_all(alloc, store, &payloads)
    }

    /// The number of its file.
    pub fn file(&self) -> u16
        ensures value { result ≡ self.now.journal.file }
        ensures limit { result < 10000 }
    {
        self.journal.file()
    }

    /// The place of the closed gate.
    pub fn end(&self) -> u64
        ensures { result ≡ self.now.journal.end }
    {
        self.journal.end()
    }

    /// Whether no append failed.
    pub fn is_sound(&self) -> bool
        ensures { result ≡ self.now.journal.is_sound }
    {
        self.journal.is_sound()
    }

    /// Over how many buckets its crawl goes.
    pub fn buckets(&self) -> u32
        ensures { result ≡ self.now.buckets }
    {
        self.buckets
    }
}
