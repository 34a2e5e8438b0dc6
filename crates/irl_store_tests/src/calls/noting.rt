//! Notes of robots files.

ghost use Rattle.std.specs.List.{AllByRecursion};
ghost use Rattle.std.specs.Prelude.{IfOk, IsTrue};
ghost use Rattle.irl_log.specs.Form.{IsNote};
ghost use Rattle.irl_yard.specs.Adding.{MayNote, MayNoteAll};
ghost use Rattle.irl_yard.specs.Holding.{IsSound};

use super::{Call, Host, opened, take_each};
use crate::stores::add;
use irl_disk::MemStore;
use irl_offer::{Asked, Fault, MAX_TEXT, Note, NoteState, Text};
use irl_yard::Yard;
use std::alloc::{AllocError, Global};

// Whether it is a note that a host has no robots file.
fn is_note(note: &Note) -> bool
    ensures { IsTrue result → IsNote note.now }
{
    let _when = note.when;
    let host = note.host.bytes();
    if host.is_empty() || host.len() > MAX_TEXT {
        return false;
    }
    matches!(note.state, NoteState::Free)
}

// Whether the crawl can take a note.
fn can_note(yard: &Yard<MemStore>, note: &Note) -> bool
    ensures sound { IsTrue result → IsSound yard.now.parts }
    ensures notes { IsTrue result → MayNote yard.now.parts.rest note.now }
{
    if !yard.is_sound() {
        return false;
    }
    if !yard.has_begun() {
        return false;
    }
    is_note(note)
}

// Whether the crawl can take notes.
fn can_note_all(yard: &Yard<MemStore>, notes: &[Note]) -> bool
    requires { AllByRecursion IsNote notes.now }
    ensures sound { IsTrue result → IsSound yard.now.parts }
    ensures notes { IsTrue result → MayNoteAll yard.now.parts.rest notes.now }
{
    if !yard.is_sound() {
        return false;
    }
    yard.has_begun()
}

// A note that a host has no robots file.
fn free(alloc: Global, host: Host, when: u64) -> Result<Note, AllocError> {
    Ok(Note {
        host: Text::from_bytes(alloc, &host)?,
        when,
        state: NoteState::Free,
    })
}

// Such notes, each with its moment.
fn all_free(alloc: Global, hosts: &[(Host, u64)]) -> Result<Vec<Note>, Fault>
    ensures { IfOk result (λ notes. AllByRecursion IsNote notes.items) }
{
    let mut notes = Vec::new(alloc);
    for (host, when) in hosts {
        let note = free(alloc, *host, *when)?;
        if !is_note(&note) {
            return Err(Fault::Memory);
        }
        if let Err(error) = notes.push(note) {
            return Err(AllocError::from(error).into());
        }
    }
    Ok(notes)
}

// One note alone.
fn note_one(yard: &mut Yard<MemStore>, note: &Note) -> Result<(), Fault> {
    if !can_note(yard, note) {
        return Err(Fault::Memory);
    }
    yard.note_robots(note)
}

// Several at once.
fn note_all(alloc: Global, yard: &mut Yard<MemStore>, hosts: &[(Host, u64)]) -> Result<(), Fault> {
    let notes = all_free(alloc, hosts)?;
    if !can_note_all(yard, &notes) {
        return Err(Fault::Memory);
    }
    yard.note_all(&notes)
}

// Notes that hosts have no robots file.
pub(crate) fn note(
    alloc: Global,
    yard: &mut Yard<MemStore>,
    hosts: &[(Host, u64)],
) -> Result<(), Fault> {
    match hosts {
        [(host, when)] => note_one(yard, &free(alloc, *host, *when)?),
        _ => note_all(alloc, yard, hosts),
    }
}

// The moment of the note of a host that is in use.
fn noted(
    alloc: Global,
    yard: &mut Yard<MemStore>,
    host: &[u8],
    moment: u64,
) -> Result<Option<u64>, Fault> {
    if !yard.is_sound() {
        return Err(Fault::Memory);
    }
    match yard.robots(alloc, host, moment)? {
        Some(note) => Ok(Some(note.when)),
        None => Ok(None),
    }
}

// Enters a store and makes calls: the notes in use then, each of a host at a moment, and the store.
pub(crate) fn noted_after(
    alloc: Global,
    store: MemStore,
    asked: &Asked,
    calls: &[Call<'_>],
    asks: &[(&[u8], u64)],
) -> Result<(Vec<Option<u64>>, MemStore), Fault> {
    let mut yard = opened(alloc, store, asked)?;
    take_each(alloc, &mut yard, calls)?;
    let mut found = Vec::new(alloc);
    for (host, moment) in asks {
        add(&mut found, noted(alloc, &mut yard, host, *moment)?)?;
    }
    Ok((found, yard.into_store()))
}
