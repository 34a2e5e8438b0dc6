//! The core of a store, without a disk: what its calls and its stops make of arrays, a book and a crawl, one step at a time.
#![tactic(auto)]

mod fates;
mod laws;
mod lists;
mod pure;
mod states;
mod step;

pub use laws::{
    a_flushed_offer_stands_at_its_number, a_refused_step_changes_nothing, a_stop_leaves_a_prefix,
    a_stop_takes_effect_or_not, an_opened_store_is_a_core, each_step_keeps_a_core,
    each_url_stands_once, lists_stay_within_bounds, other_events_are_no_steps, the_urls_are_a_book,
    what_is_acknowledged_is_there, what_was_given_keeps_its_number, what_was_there_stays,
};
pub use pure::Core;
pub use states::{
    a_legal_store_is_a_core, a_worked_crawl_is_legal, longer_books_keep_a_legal_state,
    one_event_more_is_legal, sent_pairs_give_the_budgets,
};
pub use step::{Reply, Step};
