//! The plain programs behind the crawler's definitions: slow and obvious, to compare the fast ones with.
#![tactic(auto)]

mod judging;
mod key_set;
mod laws;
mod plain;

pub use judging::{answer, combined, enters, judge};
pub use key_set::KeySet;
pub use laws::{
    a_book_that_dropped_nothing_is_whole, a_cut_counts_the_judged, a_flush_adds_offers,
    a_merge_judges_the_pending, an_earlier_book, asking_adds_keys, buckets_are_judged_apart,
    buckets_follow_the_keys, fronts_stay, parts_are_judged_apart, rising_pairs_are_a_set,
    unique_keys_differ,
};
pub use plain::{judged, judged_offers, uniques};
