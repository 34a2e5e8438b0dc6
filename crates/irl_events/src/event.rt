ghost use Rattle.std.specs.Prelude.{◌≡◌, ◌++◌, ◌∷◌, [], OnOk, OnErr};

use irl_offer::{Note, Outcome, Place, Text};
use std::alloc::{AllocError, Global};
use std::marker::Model;

/// Numbers, in order. Contracts see them as a list.
#[derive(Drop)]
pub struct Numbers {
    numbers: Vec<u64>,
}

impl Model for Numbers {
    ghost use Rattle.std.specs.Prelude.{List, ℕ};

    ghost Value = { List ℕ };

    ghost view = { λ n. n.numbers.items };
}

impl Numbers {
    /// None yet. It takes no memory.
    pub fn new(alloc: Global) -> Numbers
        ensures { result ≡ [] }
    {
        Numbers {
            numbers: Vec::new(alloc),
        }
    }

    /// One more, at the end. After want of memory they are as before.
    pub fn push(&mut self, number: u64) -> Result<(), AllocError>
        ensures ok { OnOk result (self.new ≡ self.old ++ number ∷ []) }
        ensures err { OnErr result (self.new ≡ self.old) }
    {
        self.numbers.push(number)?;
        Ok(())
    }

    /// All of them.
    pub fn items(&self) -> &[u64]
        ensures { result.now ≡ self.now }
    {
        &self.numbers
    }
}

/// URLs that were fetched, by their numbers, each with what came of it, in order. Contracts see them as a list.
#[derive(Drop)]
pub struct Settled {
    done: Vec<(u64, Outcome)>,
}

impl Model for Settled {
    ghost use Rattle.std.specs.Prelude.{List, ℕ};
    ghost use Rattle.irl_offer.specs.declared.outcome.Outcome.{Outcome};

    ghost Value = { List (ℕ × Outcome) };

    ghost view = { λ s. s.done.items };
}

impl Settled {
    /// None yet. It takes no memory.
    pub fn new(alloc: Global) -> Settled
        ensures { result ≡ [] }
    {
        Settled {
            done: Vec::new(alloc),
        }
    }

    /// One more, at the end. After want of memory they are as before.
    pub fn push(&mut self, one: (u64, Outcome)) -> Result<(), AllocError>
        ensures ok { OnOk result (self.new ≡ self.old ++ one ∷ []) }
        ensures err { OnErr result (self.new ≡ self.old) }
    {
        self.done.push(one)?;
        Ok(())
    }

    /// All of them.
    pub fn items(&self) -> &[(u64, Outcome)]
        ensures { result.now ≡ self.now }
    {
        &self.done
    }
}

/// Places, in the order of reading. Contracts see them as a list.
#[derive(Drop)]
pub struct Places {
    places: Vec<Place>,
}

impl Model for Places {
    ghost use Rattle.std.specs.Prelude.{List};
    ghost use Rattle.irl_offer.specs.declared.place.Place.{Place};

    ghost Value = { List Place };

    ghost view = { λ p. p.places.items };
}

impl Places {
    /// None yet. It takes no memory.
    pub fn new(alloc: Global) -> Places
        ensures { result ≡ [] }
    {
        Places {
            places: Vec::new(alloc),
        }
    }

    /// One more, at the end. After want of memory they are as before.
    pub fn push(&mut self, place: Place) -> Result<(), AllocError>
        ensures ok { OnOk result (self.new ≡ self.old ++ place ∷ []) }
        ensures err { OnErr result (self.new ≡ self.old) }
    {
        self.places.push(place)?;
        Ok(())
    }

    /// All of them.
    pub fn items(&self) -> &[Place]
        ensures { result.now ≡ self.now }
    {
        &self.places
    }
}

/// What a crawl does, as its journal keeps it.
#[derive(Drop)]
pub enum Event {
    /// The crawl begins, with this text of suffixes.
    Begin(Text),
    /// The pairs of the first so many cuts are sent.
    Pairs {
        /// How many cuts.
        cuts: u64,
        /// How many offers these judged.
        judged: u64,
        /// How many offers of pairs were judged then.
        pairs: u64,
    },
    /// A pass reads the next queue, and then the URLs that no pass has read and that have a number below this one.
    Pass {
        /// How many offers were judged.
        judged: u64,
    },
    /// A host's robots file was found so.
    Robots(Note),
    /// This came of so many URLs.
    Settle {
        /// How many offers each bucket's list had then.
        fronts: Numbers,
        /// The URLs, each with what came of it.
        done: Settled,
    },
}
