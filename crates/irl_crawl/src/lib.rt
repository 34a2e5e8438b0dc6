//! A crawl: turn after turn, of what is to be fetched, until nothing is left or as many pages are settled as were asked for.

#![tactic(auto)]

mod crawling;
mod crew;
mod dealing;
mod hosts;
mod laws;
mod plan;
mod seeds;
mod turn;
mod work;

pub use crawling::crawl;
pub use laws::a_crawl_of_few_pages_has_room;
pub use plan::{Ended, Plan};
