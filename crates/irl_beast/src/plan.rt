ghost use Rattle.std.specs.Prelude.{◌≡◌, ◌+◌, ◌<◌, ◌≤◌, ◌++◌, [], length, map, IfOk, vec_len, vec_capacity};
ghost use Rattle.irl_base.specs.Lists.{items_of};
ghost use Rattle.irl_beast.specs.Plans.{joined};
ghost use Rattle.irl_beast.specs.Rooms.{IsRoom, HaveRoom};

use crate::Item;
use crate::lists::LISTS;
use irl_offer::Place;
use std::alloc::{AllocError, Global};
use std::marker::Model;
use std::mem;

/// A pass that is planned and not done yet, with all the memory that it takes. Contracts see it as a `Planned`.
#[derive(Drop)]
pub struct Plan {
    places: Vec<Place>,
    // How many items each list has when the pass puts others behind them, and these others.
    lengths: Vec<usize>,
    more: Vec<Vec<Item>>,
    // For each list that gets some an empty vector that may take all of it.
    rooms: Vec<Vec<Item>>,
}

impl Model for Plan {
    ghost use Rattle.irl_base.specs.Lists.{items_of};
    ghost use Rattle.irl_beast.specs.Plans.{Planned};
    ghost use Rattle.irl_beast.specs.Rooms.{HaveRoom};

    ghost Value = { Planned };

    ghost view = { λ p. record { places = p.places.items; lengths = p.lengths.items; more = items_of p.more.items } };

    ghost invariant = { λ p. HaveRoom p.lengths.items p.more.items p.rooms.items };
}

impl Plan {
    /// What puts these items behind those of each list, where the lists have so many then.
    pub(crate) fn new(
        alloc: Global,
        places: Vec<Place>,
        lengths: Vec<usize>,
        more: Vec<Vec<Item>>,
    ) -> Result<Plan, AllocError>
        requires lengths { vec_len lengths ≡ 65 }
        requires more { vec_len more ≡ 65 }
        ensures { IfOk result (λ plan. plan
            ≡ record { places = places.items; lengths = lengths.items; more = items_of more.items }) }
    {
        let rooms = rooms(alloc, &lengths, &more)?;
        Ok(Plan {
            places,
            lengths,
            more,
            rooms,
        })
    }

    /// The places that the pass gives, in the order of reading. It takes no memory.
    pub fn places(&self) -> &[Place]
        ensures { result.now ≡ self.now.places }
    {
        &self.places
    }

    /// Puts the items behind those of the lists, and tells the places. It takes no memory.
    pub(crate) fn put(self, lists: &mut Vec<Vec<Item>>) -> Vec<Place>
        requires len { vec_len lists.old ≡ 65 }
        requires lengths { self.lengths ≡ map length (items_of lists.old.items) }
        ensures places { result.items ≡ self.places }
        ensures lists { items_of lists.new.items ≡ joined (items_of lists.old.items) self.more }
        ensures len { vec_len lists.new ≡ 65 }
    {
        let Plan {
            places,
            mut more,
            mut rooms,
            ..
        } = self;
        put_all(lists, &mut more, &mut rooms);
        places
    }
}

// An empty vector that may take the items of a list and those that it gets, where it gets any. It may take twice the list, so
// that one which grows by little at a time isn't moved at each pass.
fn room(alloc: Global, len: usize, more: usize) -> Result<Vec<Item>, AllocError>
    ensures none { IfOk result (λ room. room.items ≡ []) }
    ensures fits { IfOk result (λ room. 0 < more → len + more ≤ vec_capacity room) }
{
    if more == 0 {
        return Ok(Vec::new(alloc));
    }
    let least = len.checked_add(more).ok_or(AllocError)?;
    Vec::with_capacity(alloc, least.max(len.saturating_add(len)))
}

// The rooms of all lists.
fn rooms(alloc: Global, lengths: &[usize], more: &[Vec<Item>]) -> Result<Vec<Vec<Item>>, AllocError>
    requires lengths { length lengths.now ≡ 65 }
    requires more { length more.now ≡ 65 }
    ensures { IfOk result (λ rooms. HaveRoom lengths.now more.now rooms.items) }
{
    let mut rooms = Vec::with_capacity(alloc, LISTS)?;
    for at in 0..LISTS {
        rooms.push(room(alloc, lengths[at], more[at].len())?)?;
    }
    Ok(rooms)
}

// Puts items behind those of a list: in its own room where that is large enough, and else in the other one.
fn put_behind(list: &mut Vec<Item>, more: &mut Vec<Item>, room: &mut Vec<Item>)
    requires { IsRoom (vec_len list.old) more.old room.old }
    ensures { list.new.items ≡ list.old.items ++ more.old.items }
{
    if list.capacity() - list.len() < more.len() {
        let _fits = room.append(list);
        mem::swap(list, room);
    }
    let _fits = list.append(more);
}

// Puts items behind those of each list.
fn put_all(lists: &mut [Vec<Item>], more: &mut [Vec<Item>], rooms: &mut [Vec<Item>])
    requires len { length lists.old ≡ 65 }
    requires room { HaveRoom (map length (items_of lists.old)) more.old rooms.old }
    ensures { items_of lists.new ≡ joined (items_of lists.old) (items_of more.old) }
{
    for at in 0..LISTS {
        put_behind(&mut lists[at], &mut more[at], &mut rooms[at]);
    }
}
