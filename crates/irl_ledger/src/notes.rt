//! Where the last robots note of each host stands.

ghost use Rattle.std.specs.Prelude.{◌≡◌, ◌+◌, ◌<◌, ◌≤◌, ◌^◌, ℕ, [], map, length, vec_capacity, IfOk, IsOk, OnOk, OnErr};
ghost use Rattle.std.specs.FinMap.{get};
ghost use Rattle.std.specs.List.{AllByRecursion};
ghost use Rattle.irl_events.specs.Seen.{seen};
ghost use Rattle.irl_journal.specs.Format.{IsPayload, records_text};
ghost use Rattle.irl_log.specs.Spelling.{log_records, payload_of, records_of};
ghost use Rattle.irl_ledger.specs.Noting.{CanRestore, CanRestoreAll, no_notes, noted, noted_all, restored, restored_all};

use irl_events::Event;
use irl_log::payload_length;
use irl_offer::Text;
use std::alloc::{AllocError, Global};
use std::collections::BTreeMap;
use std::marker::Model;

/// Of each host the place of the gate of its last note's record. Contracts see it as a function from hosts to places.
#[derive(Drop)]
pub struct Notes {
    alloc: Global,
    // None where the host's only note was put back.
    places: BTreeMap<Vec<u8>, Option<u64>>,
}

impl Model for Notes {
    ghost use Rattle.std.specs.Coded.{coded_ℕ, coded_list};
    ghost use Rattle.std.specs.FinMap as map;
    ghost use Rattle.irl_ledger.specs.Noting.{NotePlaces, places_in};

    ghost Value = { NotePlaces };

    ghost coded = { map.code (coded_list coded_ℕ) coded_ℕ };

    ghost view = { λ n. places_in n.places.entries };
}

impl Notes {
    /// Of no host. It takes no memory.
    pub fn new(alloc: Global) -> Notes
        ensures { result ≡ no_notes }
    {
        Notes {
            alloc,
            places: BTreeMap::new(alloc),
        }
    }

    /// The place of a host's last note. It takes no memory.
    pub fn place(&self, host: &[u8]) -> Option<u64>
        ensures { result ≡ get self.now host.now }
    {
        self.places.get(host).copied().flatten()
    }

    /// Takes one more event, the gate of whose first record stands at this place. `Ok` gives what puts its note back. Want of
    /// memory changes nothing.
    pub fn take(
        &mut self,
        at: u64,
        event: &Event,
    ) -> Result<Option<(Text, Option<u64>)>, AllocError>
        ensures ok { OnOk result (self.new ≡ noted at (seen event.now) self.old) }
        ensures err { OnErr result (self.new ≡ self.old) }
        ensures can { IfOk result (λ before. CanRestore before self.new) }
        ensures restores { IfOk result (λ before. restored before self.new ≡ self.old) }
    {
        match event {
            Event::Robots(note) => {
                let name = note.host.copy(self.alloc)?;
                let host = note.host.bytes().to_vec(self.alloc)?;
                let before = self.places.insert(host, Some(at))?;
                Ok(Some((name, before.flatten())))
            }
            _ => Ok(None),
        }
    }

    /// Takes several events in order, the gate of the first of whose records stands at this place. `Ok` gives what puts
    /// their notes back. Want of memory changes nothing.
    pub fn take_all(
        &mut self,
        at: u64,
        events: &[Event],
    ) -> Result<Vec<Option<(Text, Option<u64>)>>, AllocError>
        requires { AllByRecursion IsPayload (log_records (map seen events.now)) }
        // A place that is no number of 64 bits is none of any log.
        ensures ok { OnOk result (at + length (records_text (log_records (map seen events.now))) < 2 ^ 64 →
            self.new ≡ noted_all at (map seen events.now) self.old) }
        ensures err { OnErr result (self.new ≡ self.old) }
        ensures none { length events.now ≡ 0 → IsOk result }
        ensures can { IfOk result (λ before. CanRestoreAll before.items self.new) }
        ensures restores { IfOk result (λ before. restored_all before.items self.new ≡ self.old) }
    {
        let mut before = Vec::with_capacity(self.alloc, events.len())?;
        if let Err(error) = self.take_each(at, events, &mut before) {
            self.put_all_back(before);
            return Err(error);
        }
        Ok(before)
    }

    // Takes them one by one, and keeps what puts those back that it took, for which there is room.
    fn take_each(
        &mut self,
        at: u64,
        events: &[Event],
        before: &mut Vec<Option<(Text, Option<u64>)>>,
    ) -> Result<(), AllocError>
        requires fit { AllByRecursion IsPayload (log_records (map seen events.now)) }
        requires none { before.old.items ≡ [] }
        requires room { length events.now ≤ vec_capacity before.old }
        ensures ok { OnOk result (at + length (records_text (log_records (map seen events.now))) < 2 ^ 64 →
            self.new ≡ noted_all at (map seen events.now) self.old) }
        ensures none { length events.now ≡ 0 → IsOk result }
        ensures can { CanRestoreAll before.new.items self.new }
        ensures restores { restored_all before.new.items self.new ≡ self.old }
    {
        let mut here = at;
        for event in events {
            let one = self.take(here, event)?;
            before.push_reserved(one);
            here = here.saturating_add(record_length(event));
        }
        Ok(())
    }

    /// Puts several notes back. It takes no memory.
    pub fn put_all_back(&mut self, mut all: Vec<Option<(Text, Option<u64>)>>)
        requires { CanRestoreAll all.items self.old }
        ensures { self.new ≡ restored_all all.items self.old }
    {
        while let Some(before) = all.pop() {
            self.put_back(before);
        }
    }

    /// Puts a note back. It takes no memory.
    pub fn put_back(&mut self, before: Option<(Text, Option<u64>)>)
        requires { CanRestore before self.old }
        ensures { self.new ≡ restored before self.old }
    {
        let Some((name, place)) = before else {
            return;
        };
        if self.places.insert(name.into_vec(), place).is_err() {
            unreachable!();
        }
    }
}

// How many bytes the record of an event takes, with its gate and its length.
fn record_length(event: &Event) -> u64
    requires { IsPayload (payload_of (seen event.now)) }
    ensures { result ≡ length (records_text (records_of (seen event.now))) }
{
    5 + u64::from(payload_length(event))
}
