ghost use Rattle.std.specs.Prelude.{◌≡◌, ◌↔◌, ◌<◌, ◌≤◌, ◌+◌, ◌^◌, [], ◌∷◌, true, length, IfOk, OnOk, IsOk, IsErr};
ghost use Rattle.std.specs.Option.{ForSome};
ghost use Rattle.irl_base.specs.Faults.{HasCause};
ghost use Rattle.irl_disk.specs.Disk.{Changes, ChangesFile, Scribbled};
ghost use Rattle.irl_disk.specs.Effects.{OnlyChanges};
ghost use Rattle.irl_journal.specs.Appending.{Appends, AppendsAll, IsOpen};

use crate::format::{CLOSED, LONGEST, OPEN};
use crate::frame::Frame;
use crate::several::{Behind, Payloads};
use crate::synced::write_synced;
use irl_base::Fault;
use irl_disk::{Failed, Store};
use std::alloc::Global;
use std::marker::Model;

/// A journal's end: where the closed gate stands, behind which the next record goes. Contracts see it as a `Tail`.
#[derive(Drop)]
pub struct Journal {
    file: u16,
    end: u64,
    is_sound: bool,
}

impl Model for Journal {
    ghost use Rattle.std.specs.Prelude.{◌<◌, ◌+◌, ◌^◌};
    ghost use Rattle.irl_journal.specs.Appending.{Tail};

    ghost Value = { Tail };

    ghost view = { λ j. record { file = j.file; end = j.end; is_sound = j.is_sound } };

    ghost invariant = { λ j. (j.file < 10000) × (j.end + 1 < 2 ^ 64) };
}

impl Journal {
    /// Makes an empty journal of a file of at most one byte: writes its closed gate and syncs it.
    pub fn make<S: Store>(store: &mut S, f: u16) -> Result<Journal, Failed>
        requires file { f < 10000 }
        requires short { ForSome (S.told store.old).files (λ files. length (files f) ≤ 1) }
        ensures journal { IfOk result (λ journal. journal ≡ record { file = f; end = 0; is_sound = true }) }
        ensures open { IfOk result (λ journal. IsOpen (S.told store.new).images journal []) }
        ensures ok { OnOk result (Changes f (λ _ new. new ≡ 0 ∷ []) (S.told store.old).files (S.told store.new).files) }
        // A stop at any moment leaves every file as it was, but for the first byte of this one.
        ensures changes { OnlyChanges (ChangesFile f (Scribbled 0 1)) (IsErr result)
            (S.told store.old) (S.told store.new) }
    {
        write_synced(store, f, 0, &[CLOSED])?;
        Ok(Journal::behind(f, 0))
    }

    // A sound journal whose closed gate stands at this place.
    pub(crate) fn behind(f: u16, end: u64) -> Journal
        requires file { f < 10000 }
        requires within { end + 1 < 2 ^ 64 }
        ensures { result ≡ record { file = f; end = end; is_sound = true } }
    {
        Journal {
            file: f,
            end,
            is_sound: true,
        }
    }

    /// Appends a record, in four calls of the store: its bytes with the next gate behind the closed one, a sync, the
    /// open gate over the closed one, and a sync. At `Ok` it is acknowledged: each stop from then on leaves it. A
    /// refusal ends the journal's soundness, and the file stands for the records before or for these and the new one.
    /// It takes no memory.
    pub fn append<S: Store>(&mut self, store: &mut S, frame: &mut Frame) -> Result<(), Failed>
        requires sound { self.old.is_sound ≡ true }
        requires place { ForSome (S.told store.old).files (λ files. self.old.end < length (files self.old.file)) }
        ensures appends { Appends result (IsErr result) (frame.old.bytes ∷ []) self.old self.new
            (S.told store.old) (S.told store.new) }
        ensures sound { (self.new.is_sound ≡ true) ↔ IsOk result }
        ensures frame { frame.new ≡ frame.old }
    {
        self.is_sound = false;
        let bytes = frame.closed_record();
        write_synced(store, self.file, self.end + 1, bytes)?;
        write_synced(store, self.file, self.end, &[OPEN])?;
        self.end += bytes.len() as u64;
        self.is_sound = true;
        Ok(())
    }

    /// Appends several records by two syncs in all, as single appends would, byte for byte. The records but the first
    /// one's gate are written behind the closed gate in pieces of at most the longest record, with the next gate,
    /// closed, behind them; then a sync, the open gate over the closed one, and a sync. A stop leaves all of them or
    /// none. Its memory, for the longest payload and a piece, is reserved before the first call of the store. Of no
    /// records it makes no call.
    pub fn append_all<S: Store, P: Payloads>(
        &mut self,
        alloc: Global,
        store: &mut S,
        payloads: &P,
    ) -> Result<(), Fault>
        requires sound { self.old.is_sound ≡ true }
        requires place { ForSome (S.told store.old).files (λ files. self.old.end < length (files self.old.file)) }
        ensures { AppendsAll S.told result (P.payloads payloads.now) self.old self.new store.old store.new }
    {
        self.append_in_pieces(alloc, store, payloads, LONGEST)
    }

    // The same, in pieces of so many bytes; a longer record's bytes are written at once.
    pub(crate) fn append_in_pieces<S: Store, P: Payloads>(
        &mut self,
        alloc: Global,
        store: &mut S,
        payloads: &P,
        piece: usize,
    ) -> Result<(), Fault>
        requires sound { self.old.is_sound ≡ true }
        requires place { ForSome (S.told store.old).files (λ files. self.old.end < length (files self.old.file)) }
        ensures { AppendsAll S.told result (P.payloads payloads.now) self.old self.new store.old store.new }
    {
        if payloads.count() == 0 {
            return Ok(());
        }
        let behind = Behind::reserve(alloc, self.file, self.end + 1, payloads, piece)?;
        self.is_sound = false;
        let length = behind.write(store, payloads)?;
        write_synced(store, self.file, self.end, &[OPEN])?;
        self.end = length - 1;
        self.is_sound = true;
        Ok(())
    }

    /// The number of its file.
    pub fn file(&self) -> u16
        ensures value { result ≡ self.now.file }
        ensures limit { result < 10000 }
    {
        self.file
    }

    /// The place of the closed gate.
    pub fn end(&self) -> u64
        ensures { result ≡ self.now.end }
    {
        self.end
    }

    /// Whether no append failed.
    pub fn is_sound(&self) -> bool
        ensures { result ≡ self.now.is_sound }
    {
        self.is_sound
    }
}
