ghost use Rattle.std.specs.Prelude.{◌≡◌, ◌⊎◌, ℕ, ◌+◌, ◌<◌, ◌≤◌, [], ◌∷◌, ◌++◌, true, false, IfOk, OnOk, OnErr, length};
ghost use Rattle.irl_disk.specs.Changes.{AllStay};
ghost use Rattle.irl_disk.specs.Calls.{EndsWithin, IsPart, Logs, files_among, files_of, read_after, states, states_at};

use crate::calls::{Call, LoggedCall, Part};
use crate::changes::{bytes_in, carry_out, show_next};
use std::alloc::{AllocError, Global};
use std::collections::BTreeMap;
use std::marker::Model;

// A call that was not done.
#[derive(Drop)]
pub struct NotDone;

// The calls of a store, with the files that it began with and what a read gives of each now.
#[derive(Drop)]
pub struct Log {
    first: BTreeMap<u16, Vec<u8>>,
    entries: Vec<LoggedCall>,
    files: BTreeMap<u16, Vec<u8>>,
}

impl Model for Log {
    ghost use Rattle.std.specs.Prelude.{ℕ, ◌≡◌};
    ghost use Rattle.irl_disk.specs.Calls.{History, files_of, states};

    ghost Value = { History };

    ghost view = { λ log. record { first = log.first.entries; entries = log.entries.items } };

    ghost invariant = { λ log. (f : ℕ) → files_of log.files f
        ≡ (states (record { first = log.first.entries; entries = log.entries.items }) f).now };
}

impl Log {
    // No call yet, on files that are empty.
    pub fn new(alloc: Global) -> Log
        ensures first { (f : ℕ) → files_among result.first f ≡ [] }
        ensures entries { result.entries ≡ [] }
    {
        Log {
            first: BTreeMap::new(alloc),
            entries: Vec::new(alloc),
            files: BTreeMap::new(alloc),
        }
    }

    // No call yet, on these files.
    pub fn begun(alloc: Global, first: BTreeMap<u16, Vec<u8>>) -> Result<Log, AllocError>
        ensures first { IfOk result (λ log. log.first ≡ first.entries) }
        ensures entries { IfOk result (λ log. log.entries ≡ []) }
    {
        Ok(Log {
            files: first.clone()?,
            first,
            entries: Vec::new(alloc),
        })
    }

    // How many calls were made.
    pub fn calls(&self) -> u64
        ensures { result ≡ length self.now.entries }
    {
        self.entries.len() as u64
    }

    // What a read gives of a file.
    pub fn file(&self, f: u16) -> &[u8]
        ensures { result.now ≡ (states self.now f).now }
    {
        bytes_in(&self.files, f)
    }

    // Makes a call and logs it: as not done where it is to fail, or finds no memory. A call that finds no memory to be
    // logged was not made.
    pub fn attempt(&mut self, alloc: Global, call: Call, is_failing: bool) -> Result<(), NotDone>
        ensures done { OnOk result (Logs call true self.old self.new) }
        ensures not_done { OnErr result ((self.new ≡ self.old) ⊎ Logs call false self.old self.new) }
        ensures listed { OnOk result (is_failing ≡ false) }
        ensures within { OnOk result (EndsWithin call (λ f. (states self.old f).now)) }
    {
        make_entry(&mut self.entries, &mut self.files, alloc, call, is_failing)
    }

    // What a stop in this call leaves of each file.
    pub fn image(
        &self,
        alloc: Global,
        call: u64,
        part: Part,
    ) -> Result<BTreeMap<u16, Vec<u8>>, AllocError>
        requires { call < length self.now.entries }
        ensures { IfOk result (λ files. (f : ℕ) → IsPart part (states_at (call + 1) self.now f) (files_of files f)) }
    {
        let mut now = self.first.clone()?;
        let mut shown = self.first.clone()?;
        for entry in &self.entries[..call as usize + 1] {
            show_next(part, &mut shown, alloc, entry, &now)?;
            if entry.is_done {
                carry_out(&mut now, alloc, &entry.call)?;
            }
        }
        Ok(shown)
    }
}

// Logs a call as not done, and then carries it out unless it is to fail.
fn make_entry(
    entries: &mut Vec<LoggedCall>,
    files: &mut BTreeMap<u16, Vec<u8>>,
    alloc: Global,
    call: Call,
    is_failing: bool,
) -> Result<(), NotDone>
    ensures done { OnOk result (entries.new.items ≡ entries.old.items ++ record { call = call; is_done = true } ∷ []) }
    ensures files { OnOk result ((f : ℕ) → files_of files.new f ≡ read_after call f (files_of files.old f)) }
    ensures not_done { OnErr result ((entries.new.items ≡ entries.old.items)
        ⊎ (entries.new.items ≡ entries.old.items ++ record { call = call; is_done = false } ∷ [])) }
    ensures kept { OnErr result (AllStay files.old files.new) }
    ensures listed { OnOk result (is_failing ≡ false) }
    ensures within { OnOk result (EndsWithin call (files_of files.old)) }
{
    let place = entries.len();
    let entry = LoggedCall {
        call,
        is_done: false,
    };
    if entries.push(entry).is_err() || is_failing {
        return Err(NotDone);
    }
    match finish(files, alloc, &mut entries[place]) {
        Ok(()) => Ok(()),
        Err(_) => Err(NotDone),
    }
}

// Carries out a call, and marks it as done.
fn finish(
    files: &mut BTreeMap<u16, Vec<u8>>,
    alloc: Global,
    entry: &mut LoggedCall,
) -> Result<(), AllocError>
    ensures done { OnOk result (entry.new ≡ record { call = entry.old.call; is_done = true }) }
    ensures files { OnOk result ((f : ℕ) → files_of files.new f ≡ read_after entry.old.call f (files_of files.old f)) }
    ensures within { OnOk result (EndsWithin entry.old.call (files_of files.old)) }
    ensures err { OnErr result (entry.new ≡ entry.old) }
    ensures kept { OnErr result (AllStay files.old files.new) }
{
    carry_out(files, alloc, &entry.call)?;
    entry.is_done = true;
    Ok(())
}
