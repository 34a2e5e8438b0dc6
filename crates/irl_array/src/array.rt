ghost use Rattle.std.specs.Prelude.{◌≡◌, ◌↔◌, ◌<◌, ◌≤◌, ◌++◌, [], ◌∷◌, length, IsTrue, IfOk};

use irl_offer::Offer;
use std::alloc::{AllocError, Global};
use std::marker::Model;

/// The offers of a bucket that wait in memory to be flushed, at most as many as its room. Contracts see it as a `Waiting`.
#[derive(Drop)]
pub struct Array {
    room: u32,
    // Its capacity is at least the room, so no push takes memory.
    offers: Vec<Offer>,
}

impl Model for Array {
    ghost use Rattle.std.specs.Prelude.{◌≤◌, ◌<◌, ◌^◌, vec_len, vec_capacity};
    ghost use Rattle.irl_array.specs.Waiting.{Waiting};

    ghost Value = { Waiting };

    ghost view = { λ a. record { room = a.room; items = a.offers.items } };

    ghost invariant = { λ a. (vec_len a.offers ≤ a.room) × (a.room ≤ vec_capacity a.offers) × (a.room < 2 ^ 32) };
}

impl Array {
    /// An array without offers that has room for this many. All the memory that pushes need is taken here.
    pub fn with_room(alloc: Global, room: u32) -> Result<Array, AllocError>
        ensures { IfOk result (λ array. array ≡ record { room = room; items = [] }) }
    {
        let offers = Vec::with_capacity(alloc, room as usize)?;
        Ok(Array { room, offers })
    }

    /// Puts an offer behind the others. It takes no memory.
    pub fn push(&mut self, offer: Offer)
        requires { length self.old.items < self.old.room }
        ensures { self.new ≡ record { room = self.old.room; items = self.old.items ++ offer ∷ [] } }
    {
        self.offers.push_reserved(offer);
    }

    /// Whether there are as many offers as the room, so that none may be pushed.
    pub fn is_full(&self) -> bool
        ensures { IsTrue result ↔ (self.now.room ≤ length self.now.items) }
    {
        self.len() == self.room
    }

    /// How many offers there are, at most the room.
    pub fn len(&self) -> u32
        ensures value { result ≡ length self.now.items }
        ensures within { result ≤ self.now.room }
    {
        self.offers.len() as u32
    }

    /// How many offers there may be.
    pub fn room(&self) -> u32
        ensures { result ≡ self.now.room }
    {
        self.room
    }

    /// The offers, the one that was pushed first in front.
    pub fn items(&self) -> &[Offer]
        ensures value { result.now ≡ self.now.items }
        ensures within { length result.now ≤ self.now.room }
    {
        &self.offers
    }

    /// Drops the offers. It takes no memory and keeps what was reserved.
    pub fn clear(&mut self)
        ensures { self.new ≡ record { room = self.old.room; items = [] } }
    {
        self.offers.clear();
    }
}
