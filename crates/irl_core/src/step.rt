use irl_fate::{Places, Settled};
use irl_offer::{Offer, Receipt};

/// What is done to a core.
#[derive(Drop)]
pub enum Step {
    /// An offer is pushed into its bucket's array.
    Offer {
        /// The bucket of the offer's key.
        bucket: u32,
        /// The offer.
        offer: Offer,
    },
    /// The array of this bucket moves to the bucket's list, which is acknowledged.
    Flush(u32),
    /// All that is pending is judged.
    Merge,
    /// A stop between two calls.
    Stop,
    /// A stop in a flush, and whether the flush took effect.
    FlushStop(u32, bool),
    /// A stop in a merge, and whether the merge took effect.
    MergeStop(bool),
    /// A pass gives these places to the next queue and to the URLs that no pass has read.
    Pass(Places),
    /// These outcomes are settled.
    Settle(Settled),
    /// A stop in a settle, and whether the settle took effect.
    SettleStop(Settled, bool),
}

/// What a core answers to a step.
#[derive(Clone, Copy, Debug, PartialEq, Eq)]
pub enum Reply {
    /// Where the offer will stand once its array is flushed.
    Receipt(Receipt),
    /// The step was taken.
    Taken,
    /// All that was pending is judged, and there are so many cuts now.
    Cut(u64),
    /// What waited in memory is lost.
    Stopped,
    /// The step's condition isn't met, and nothing has changed.
    Refused,
}
