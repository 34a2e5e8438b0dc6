use irl_key::Web;
use irl_offer::{Fault, Text};

/// What a crawl is to do.
#[derive(Drop)]
pub struct Plan {
    /// Where it begins.
    pub seeds: Vec<Web>,
    /// How many URLs it settles at most: 1 to 4,294,967,295.
    pub pages: u32,
    /// How many of these in one turn at most: 1 to 16,384.
    pub batch: u32,
    /// How many milliseconds two fetches of one host start apart: 0 to 86,399,999.
    pub delay: u64,
    /// The product token for which robots files are read.
    pub agent: Text,
}

/// How a crawl ends.
#[derive(Clone, Copy, Debug, PartialEq, Eq)]
pub enum Ended {
    /// No URL waits.
    Done,
    /// As many are settled as were asked for, and some wait.
    Limit,
    /// It met this.
    Fault(Fault),
}
