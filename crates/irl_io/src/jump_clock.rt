ghost use Rattle.std.specs.Prelude.{◌≡◌, ◌≤◌, max};

use crate::clock::Clock;
use std::marker::Model;

/// A clock that stands still, and jumps to the moment that is waited for. Contracts see it as its moment.
#[derive(Drop)]
pub struct JumpClock {
    moment: u64,
}

impl Model for JumpClock {
    ghost use Rattle.std.specs.Prelude.{ℕ};

    ghost Value = { ℕ };

    ghost view = { λ c. c.moment };
}

impl JumpClock {
    /// A clock at moment 0. It takes no memory.
    pub fn new() -> JumpClock
        ensures { result ≡ 0 }
    {
        JumpClock { moment: 0 }
    }
}

impl Clock for JumpClock {
    ghost last = { λ c. c };

    // It is its moment and nothing else, which no call makes less.
    ghost apart = { λ old new. old ≤ new };

    fn now(&mut self) -> u64
        ensures value { result ≡ self.old }
        ensures same { self.new ≡ self.old }
    {
        self.moment
    }

    fn wait_till(&mut self, moment: u64)
        ensures { self.new ≡ max self.old moment }
    {
        self.moment = self.moment.max(moment);
    }
}
