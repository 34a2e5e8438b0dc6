//! What an open crawl keeps in memory of its URLs: how far each has come, which wait, and what each domain has to spend. What
//! an event changes is planned with all its memory first, and done without any.
#![tactic(auto)]

mod frontier;
mod laws;
mod plan;
mod tally;

pub use frontier::Frontier;
pub use irl_beast::Item;
pub use irl_fate::{Counts, Event, Fate, FateFault};
pub use laws::{a_pass_breaks_no_rule, an_event_brings_a_crawl_on, places_go_by_degrees};
pub use plan::Plan;
