//! Laws alone: which URLs a crawl of a tape reaches, and that a crawl whose answers are the tape's stays on it.
#![tactic(auto)]

mod laws;

pub use laws::{
    a_blank_store_is_along, a_crawl_stays_along, a_step_is_a_crawl, all_that_is_reached_is_judged,
    flushes_add_offers, one_note_a_host, one_outcome_a_url, suffixes_dont_matter,
    the_reached_are_least, two_crawls_are_one, what_is_settled_is_done,
    where_nothing_waits_all_is_done,
};
