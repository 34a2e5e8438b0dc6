ghost use Rattle.std.specs.Prelude.{◌↔◌, IsTrue};
ghost use Rattle.irl_offer.specs.Notes.{IsInUse};

use irl_robots::HostState;

/// A host's robots file, read for the agent, as it was found at a moment in milliseconds.
#[derive(Drop)]
pub struct Known {
    pub state: HostState,
    pub when: u64,
}

/// For how many milliseconds a note is used.
const NOTE_LIFE: u64 = 86_400_000;

impl Known {
    /// Whether it is used at this moment: from its own on, for 24 hours.
    pub fn is_in_use(&self, moment: u64) -> bool
        ensures { IsTrue result ↔ IsInUse self.now.when moment }
    {
        self.when <= moment && moment - self.when < NOTE_LIFE
    }
}
