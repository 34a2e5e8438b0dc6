use crate::Fate;
use irl_offer::{Outcome, Place};

/// An event that is planned and not done yet, with all the memory that it takes. Contracts say what it is to do by `IsPlanOf`
/// and `after_plan`.
#[derive(Drop)]
pub struct Plan {
    pub(crate) act: Act,
}

// What is to be done.
#[derive(Drop)]
pub(crate) enum Act {
    // The crawl has begun: it begins, or a robots file was found.
    Begin,
    // Pairs are sent.
    Pairs {
        cuts: u64,
        judged: u64,
        pairs: u64,
    },
    // A pass reads.
    Pass(Reading),
    // Numbers of the front are done.
    Settle {
        fronts: Vec<u64>,
        done: Vec<(u64, Outcome)>,
    },
}

// What a pass is to do.
#[derive(Drop)]
pub(crate) struct Reading {
    pub(crate) judged: u64,
    pub(crate) places: Vec<Place>,
    // What it puts into the front, this in rising order, and the lists as it leaves them.
    pub(crate) front: Vec<u64>,
    pub(crate) order: Vec<u64>,
    pub(crate) lists: Vec<Vec<u64>>,
    // Empty vectors for the fates and for what is done, each with the room that it may need.
    pub(crate) fates: Vec<(u64, Fate)>,
    pub(crate) done: Vec<(u64, Outcome)>,
}
