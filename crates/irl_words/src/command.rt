use irl_offer::{Asked, Text};
use std::alloc::{AllocError, AllocFailed};

/// What the program is to do.
#[derive(Drop)]
pub enum Command {
    /// Keeps the lines of the input, and prints those that are new. It asks this of the store.
    Seen(Asked),
    /// Checks and updates the keys of the input's tuples, and prints each verdict. It asks this of the store.
    Drum(Asked),
    /// Crawls the pages of a tape, and prints the report. It asks this of the store, and runs with these options.
    Replay(Asked, RunOptions),
    /// Crawls sites that answer on this machine, at this port, and prints the report. It asks this of the store, and
    /// runs with these options.
    Crawl(Asked, RunOptions, u16),
    /// Crawls a made-up site of so many pages, and prints the report. It asks this of the store, and runs with these
    /// options.
    Gen(Asked, RunOptions, u32),
    /// Prints the report of the store.
    Show,
    /// Prints a line for each URL or line of the store that was judged Unique.
    List,
}

/// How a crawl is run.
#[derive(Drop)]
pub struct RunOptions {
    /// How many workers fetch: 1 to 64.
    pub workers: u32,
    /// How many milliseconds apart two fetches of one host start at least: 0 to 86,399,999.
    pub delay: u64,
    /// After how many URLs the run ends: 1 to 4,294,967,295.
    pub pages: u32,
    /// How many URLs a turn takes at most: 1 to 16,384.
    pub batch: u32,
    /// The name that robots files are read for: 1 to 64 letters, `-` or `_`.
    pub agent: Text,
}

/// Why words are no command.
#[derive(Drop)]
pub enum WordFault {
    /// The word with which they are refused.
    Refused(Text),
    /// The allocator had no memory.
    Memory,
}

impl From<AllocError> for WordFault {
    ghost use Rattle.std.specs.Prelude.{◌≡◌};
    ghost use Rattle.irl_words.specs.declared.command.WordFault.TheVariants.{Memory};

    ghost from_gives = { λ _ e. e ≡ Memory };

    fn from(_: AllocError) -> WordFault {
        WordFault::Memory
    }
}
