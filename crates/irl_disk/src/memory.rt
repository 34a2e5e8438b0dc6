ghost use Rattle.std.specs.Prelude.{◌≡◌, ◌+◌, ◌^◌, ◌<◌, ◌≤◌, ◌⊎◌, ◌↔◌, ℕ, [], Bool, true, false, Vec, Some};
ghost use Rattle.std.specs.Prelude.{length, is_ok, if◌then◌else◌, OnErr, OnOk, IfOk, IsErr};
ghost use Rattle.std.specs.List.{Contains};
ghost use Rattle.std.specs.declared.alloc.Global.{Global};
ghost use Rattle.irl_base.specs.Faults.{HasCause, Rose, counted};
ghost use Rattle.irl_disk.specs.DeviceCall.{DeviceCall};
ghost use Rattle.irl_disk.specs.Disk.{Files, Reads};
ghost use Rattle.irl_disk.specs.Taken.{CountsBytes};
ghost use Rattle.irl_disk.specs.Model.{AreImages, after_write, after_cut, after_sync};
ghost use Rattle.irl_disk.specs.Calls.{History, ChangesState, ImagesSince, states, states_at, Logs, EndsWithin, IsPart};
ghost use Rattle.irl_disk.specs.Memory.{files_in, fault_count, call_count, counts_of, told_by, LogsCall};
ghost use Rattle.irl_disk.specs.MemoryLaws.{consistent};

use crate::calls::{Call, Part};
use crate::log::{Log, NotDone};
use crate::{Failed, Store};
use std::alloc::{AllocError, Global};
use std::collections::BTreeMap;

/// A store in memory, for tests. It keeps all its calls, so that it can tell what a stop inside each of them may leave. The
/// calls whose numbers (from 0) are listed fail, and so does one that finds no memory.
#[derive(Drop)]
pub struct MemStore {
    alloc: Global,
    log: Log,
    failing: Vec<u64>,
    faults: u64,
    taken: BTreeMap<u16, u64>,
}

impl MemStore {
    /// A store whose files are empty.
    pub fn new(alloc: Global, failing: Vec<u64>) -> MemStore
        ensures empty { (f : ℕ) → files_in result f ≡ [] }
        ensures no_fault { fault_count result ≡ 0 }
        ensures no_call { call_count result ≡ 0 }
        ensures failing { result.failing.items ≡ failing.items }
        ensures none_taken { (f : ℕ) → counts_of result.taken f ≡ 0 }
    {
        MemStore {
            alloc,
            log: Log::new(alloc),
            failing,
            faults: 0,
            taken: BTreeMap::new(alloc),
        }
    }

    /// How many calls were made.
    pub fn calls(&self) -> u64
        ensures { result ≡ call_count self.now }
    {
        self.log.calls()
    }

    /// A store that starts again on what a stop in this call left: this part of each file.
    pub fn image(&self, alloc: Global, call: u64, part: Part) -> Result<MemStore, AllocError>
        requires made { call < call_count self.now }
        ensures part { IfOk result (λ store. (f : ℕ) →
            IsPart part (states_at (call + 1) self.now.log f) (files_in store f)) }
        ensures image { IfOk result (λ store. AreImages (states_at (call + 1) self.now.log) (files_in store)) }
        ensures no_fault { IfOk result (λ store. fault_count store ≡ 0) }
        ensures no_call { IfOk result (λ store. call_count store ≡ 0) }
        ensures none_fails { IfOk result (λ store. store.failing.items ≡ []) }
        ensures none_taken { IfOk result (λ store. (f : ℕ) → counts_of store.taken f ≡ 0) }
    {
        let files = self.log.image(alloc, call, part)?;
        Ok(MemStore {
            alloc,
            log: Log::begun(alloc, files)?,
            failing: Vec::new(alloc),
            faults: 0,
            taken: BTreeMap::new(alloc),
        })
    }

    fn fault(&mut self) -> Failed
        ensures log { self.new.log ≡ self.old.log }
        ensures taken { self.new.taken ≡ self.old.taken }
        ensures failing { self.new.failing ≡ self.old.failing }
        ensures faults { self.new.faults ≡ counted self.old.faults }
        ensures later { self.old.faults ≤ self.new.faults }
        ensures rose { Rose self.old.faults self.new.faults }
    {
        self.faults = self.faults.saturating_add(1);
        Failed
    }

    // Makes a call and logs it. One that is listed fails, and so does one that finds no memory.
    fn make(&mut self, call: Call) -> Result<(), Failed>
        ensures done { OnOk result (Logs call true self.old.log self.new.log) }
        ensures failed { OnErr result ((self.new.log ≡ self.old.log) ⊎ Logs call false self.old.log self.new.log) }
        ensures listed { OnOk result (Contains self.old.failing.items (call_count self.old) → ⊥) }
        ensures within { OnOk result (EndsWithin call (files_in self.old)) }
        ensures taken { self.new.taken ≡ self.old.taken }
        ensures failing { self.new.failing ≡ self.old.failing }
        ensures faults { self.new.faults ≡ (if is_ok result then self.old.faults else counted self.old.faults) }
        ensures cause { HasCause (IsErr result) self.old.faults self.new.faults }
    {
        let is_failing = self.failing.contains(&self.log.calls());
        match self.log.attempt(self.alloc, call, is_failing) {
            Ok(()) => Ok(()),
            Err(NotDone) => Err(self.fault()),
        }
    }

    // Counts the bytes that a read gave of a file.
    fn count(&mut self, f: u16, bytes: usize) -> Result<(), Failed>
        ensures counted { OnOk result (CountsBytes f bytes (counts_of self.old.taken) (counts_of self.new.taken)) }
        ensures failed { OnErr result (counts_of self.new.taken ≡ counts_of self.old.taken) }
        ensures log { self.new.log ≡ self.old.log }
        ensures failing { self.new.failing ≡ self.old.failing }
        ensures faults { self.new.faults ≡ (if is_ok result then self.old.faults else counted self.old.faults) }
        ensures cause { HasCause (IsErr result) self.old.faults self.new.faults }
    {
        let before = self.taken.get(&f).copied().unwrap_or(0);
        let Some(after) = before.checked_add(bytes as u64) else {
            return Err(self.fault());
        };
        match self.taken.insert(f, after) {
            Ok(_) => Ok(()),
            Err(_) => Err(self.fault()),
        }
    }
}

/// What a stop may leave of a store in memory is just what the disk model says of the calls that it keeps.
pub fn images_are_the_models()
    ensures files { (store : MemStore) → (⟦<MemStore as Store>⟧.told store).files ≡ Some (files_in store) }
    ensures taken { (store : MemStore) → (⟦<MemStore as Store>⟧.told store).taken ≡ Some (counts_of store.taken) }
    ensures faults { (store : MemStore) → (⟦<MemStore as Store>⟧.told store).faults ≡ fault_count store }
    ensures moment { (store : MemStore) → (⟦<MemStore as Store>⟧.told store).moment ≡ call_count store }
    ensures now { (store : MemStore) (image : Files) →
        (⟦<MemStore as Store>⟧.told store).images image ↔ AreImages (states store.log) image }
    ensures since { (store : MemStore) (t : ℕ) (image : Files) →
        (⟦<MemStore as Store>⟧.told store).since t image ↔ ImagesSince store.log t image }
    ensures logs { (call : DeviceCall) (is_ok : Bool) (old new : MemStore) →
        ⟦<MemStore as Store>⟧.logs call is_ok old new ↔ LogsCall call is_ok old new }
    ensures query { (old new : History) (is_done : Bool) → Logs Call.Query is_done old new →
        (f : ℕ) → states new f ≡ states old f }
    ensures write { (old new : History) (is_done : Bool) (file at : ℕ) (bytes : Vec ℕ Global) →
        Logs (Call.Write file at bytes) is_done old new →
        ChangesState file (after_write is_done at bytes.items) old new }
    ensures cut { (old new : History) (is_done : Bool) (file to : ℕ) →
        Logs (Call.Cut file to) is_done old new → ChangesState file (after_cut is_done to) old new }
    ensures sync { (old new : History) (is_done : Bool) (file : ℕ) →
        Logs (Call.Sync file) is_done old new → ChangesState file (after_sync is_done) old new }
{}

// Copies the file's bytes from a place on, as many as there is room for, and says how many.
fn copied(file: &[u8], at: usize, into: &mut [u8]) -> usize
    requires { at ≤ length file.now }
    ensures within { (result ≤ length into.new) × (at + result < 2 ^ 64) }
    ensures bytes { Reads at (length into.new) result into.new file.now }
{
    let rest = &file[at..];
    let count = rest.len().min(into.len());
    into[..count].copy_from_slice(&rest[..count]);
    count
}

impl Store for MemStore {
    ghost told = { told_by };

    ghost logs = { λ call is_ok old new. LogsCall call is_ok old new };

    fn length(&mut self, f: u16) -> Result<u64, Failed> {
        self.make(Call::Query)?;
        Ok(self.log.file(f).len() as u64)
    }

    fn read(&mut self, f: u16, at: u64, into: &mut [u8]) -> Result<usize, Failed> {
        self.make(Call::Query)?;
        let count = copied(self.log.file(f), at as usize, into);
        self.count(f, count)?;
        Ok(count)
    }

    fn write(&mut self, f: u16, at: u64, bytes: &[u8]) -> Result<(), Failed> {
        match bytes.to_vec(self.alloc) {
            Ok(bytes) => self.make(Call::Write { file: f, at, bytes }),
            Err(_) => Err(self.fault()),
        }
    }

    fn cut(&mut self, f: u16, to: u64) -> Result<(), Failed> {
        self.make(Call::Cut { file: f, to })
    }

    fn sync(&mut self, f: u16) -> Result<(), Failed> {
        self.make(Call::Sync { file: f })
    }

    ghost is_consistent = { consistent };
}
