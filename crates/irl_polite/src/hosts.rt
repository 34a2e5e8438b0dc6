ghost use Rattle.std.specs.Prelude.{◌≡◌, ◌<◌, ℕ, List, [], None, Some, true, false, IfOk, OnOk, slice_get, slice_set, vec_len};
ghost use Rattle.std.specs.List.{All, AllZip};
ghost use Rattle.irl_polite.specs.Inside.{place_of, IsTable, IsResting, Grows, IsRead, Noted, IsPlaced};
ghost use Rattle.irl_polite.specs.declared.hosts.Host.{Host};

use crate::known::Known;
use irl_offer::{Note, Text};
use irl_robots::HostState;
use std::alloc::{AllocError, Global};
use std::collections::BTreeMap;
use std::mem;

/// A host that was named.
#[derive(Drop)]
pub struct Host {
    // Its name, which is lent out while its robots file is awaited.
    pub name: Text,
    // What was last handed in of its robots file.
    pub known: Option<Known>,
    pub due: u64,
    pub awaited: bool,
    // The place of its first item left.
    pub first: Option<usize>,
}

/// The place of a host.
pub fn find(names: &BTreeMap<Vec<u8>, usize>, name: &[u8]) -> Option<usize>
    ensures { result ≡ place_of names.now.entries name.now }
{
    names.get(name).copied()
}

/// The place of a host, which is entered where it wasn't named before.
pub fn enter(
    alloc: Global,
    names: &mut BTreeMap<Vec<u8>, usize>,
    hosts: &mut Vec<Host>,
    name: &[u8],
) -> Result<usize, AllocError>
    requires table { IsTable (place_of names.old.entries) hosts.old.items }
    requires resting { All IsResting hosts.old.items }
    ensures place { IfOk result (λ place. place_of names.new.entries name.now ≡ Some place) }
    ensures grown { Grows (place_of names.old.entries) hosts.old.items (place_of names.new.entries) hosts.new.items }
{
    if let Some(place) = find(names, name) {
        return Ok(place);
    }
    let place = hosts.len();
    let host = Host {
        name: Text::from_bytes(alloc, name)?,
        known: None,
        due: 0,
        awaited: false,
        first: None,
    };
    hosts.reserve(1)?;
    let key = name.to_vec(alloc)?;
    names.insert(key, place)?;
    hosts.push_reserved(host);
    Ok(place)
}

/// Reads notes for an agent, each with the place of its host.
pub fn read_all(
    alloc: Global,
    names: &mut BTreeMap<Vec<u8>, usize>,
    hosts: &mut Vec<Host>,
    notes: Vec<Note>,
    agent: &[u8],
) -> Result<Vec<(usize, Known)>, AllocError>
    requires table { IsTable (place_of names.old.entries) hosts.old.items }
    requires resting { All IsResting hosts.old.items }
    ensures read { IfOk result (λ read. AllZip (IsRead (place_of names.new.entries) agent.now) notes.items read.items) }
    ensures grown { Grows (place_of names.old.entries) hosts.old.items (place_of names.new.entries) hosts.new.items }
{
    let mut read = Vec::with_capacity(alloc, notes.len())?;
    for note in notes {
        let place = enter(alloc, names, hosts, note.host.bytes())?;
        let state = HostState::read(alloc, &note.state, agent)?;
        let when = note.when;
        read.push((place, Known { state, when }))?;
    }
    Ok(read)
}

/// Puts what was read of notes in place of what was known, the last one for a host at last. It takes no memory.
pub fn note_all(hosts: &mut Vec<Host>, read: Vec<(usize, Known)>)
    requires { All (IsPlaced hosts.old.items) read.items }
    ensures { Noted hosts.old.items read.items hosts.new.items }
{
    for (place, known) in read {
        set_known(hosts, place, known);
    }
}

// Puts what was read in place of what was known of a host.
fn set_known(hosts: &mut Vec<Host>, place: usize, known: Known)
    requires { place < vec_len hosts.old }
    ensures { (host : Host) → slice_get hosts.old.items place ≡ Some host →
        hosts.new.items ≡ slice_set hosts.old.items place (record host { known = Some known }) }
{
    hosts[place].known = Some(known);
}

/// Lends out the name of a host, whose robots file is awaited from now on.
pub fn ask(hosts: &mut Vec<Host>, alloc: Global, place: usize, due: u64) -> Text
    requires { place < vec_len hosts.old }
    ensures { (host : Host) → slice_get hosts.old.items place ≡ Some host →
        (result ≡ host.name)
        × (hosts.new.items ≡ slice_set hosts.old.items place (record host { name = []; due = due; awaited = true })) }
{
    let host = &mut hosts[place];
    host.due = due;
    host.awaited = true;
    mem::replace(&mut host.name, Text::from_vec(Vec::new(alloc)))
}

/// Another item is the first one of a host, which is due then.
pub fn advance(hosts: &mut Vec<Host>, place: usize, due: u64, first: Option<usize>)
    requires { place < vec_len hosts.old }
    ensures { (host : Host) → slice_get hosts.old.items place ≡ Some host →
        hosts.new.items ≡ slice_set hosts.old.items place (record host { due = due; first = first }) }
{
    let host = &mut hosts[place];
    host.due = due;
    host.first = first;
}

/// Takes back the name of a host with what its robots file said, and gives when it is due and the place of its first item.
pub fn hand_in(
    hosts: &mut Vec<Host>,
    place: usize,
    name: Text,
    known: Known,
) -> (u64, Option<usize>)
    requires { place < vec_len hosts.old }
    ensures { (host : Host) → slice_get hosts.old.items place ≡ Some host →
        (result ≡ (host.due, host.first))
        × (hosts.new.items
        ≡ slice_set hosts.old.items place (record host { name = name; known = Some known; awaited = false })) }
{
    let host = &mut hosts[place];
    host.name = name;
    host.known = Some(known);
    host.awaited = false;
    (host.due, host.first)
}
