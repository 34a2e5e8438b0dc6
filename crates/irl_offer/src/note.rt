ghost use Rattle.std.specs.Prelude.{◌↔◌, IsTrue};
ghost use Rattle.irl_offer.specs.Notes.{IsInUse};

use crate::Text;

/// For how many milliseconds a note is used.
const NOTE_LIFE: u64 = 86_400_000;

/// What is known of a host's robots file.
#[derive(Drop)]
pub enum NoteState {
    /// The file gives rules: what is kept of its text, at most 512,000 bytes.
    Rules(Text),
    /// There is no such file, so all is allowed.
    Free,
    /// The file could not be had, so nothing is allowed.
    Shut,
}

/// A host's robots file as it was found at a moment.
#[derive(Drop)]
pub struct Note {
    /// The host, with `:port` where its URLs have one.
    pub host: Text,
    /// The moment of the fetch, in milliseconds.
    pub when: u64,
    /// What was found.
    pub state: NoteState,
}

impl Note {
    /// Whether the note is used at this moment: from its own on, for 24 hours.
    pub fn is_in_use(&self, moment: u64) -> bool
        ensures { IsTrue result ↔ IsInUse self.now.when moment }
    {
        self.when <= moment && moment - self.when < NOTE_LIFE
    }
}
