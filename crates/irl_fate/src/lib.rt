//! What becomes of the URLs of a crawl: the fate of each, by the events of the crawl, which keep rules.
#![tactic(auto)]

mod counts;
mod fate;
mod fates;
mod laws;
mod lists;
mod numbers;
mod order;
mod plan;
mod room;
mod rules;
mod table;

pub use counts::Counts;
pub use fate::{Fate, FateFault};
pub use fates::Fates;
pub use irl_events::{Event, Numbers, Places, Settled};
pub use laws::{
    counts_add_up, queues_wait_for_their_pass, what_is_done_stays_done, what_was_read_stands_once,
};
pub use plan::Plan;
pub use rules::{a_front_rose, no_front_fell, numbers_differ};
