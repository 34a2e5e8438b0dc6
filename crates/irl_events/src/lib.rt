//! What a crawl does, one event after another, and what that comes to: the definitions that its crates cite, with the plain
//! programs of the links between domains.
#![tactic(auto)]

mod event;
mod links;
mod plain;

pub use event::{Event, Numbers, Places, Settled};
pub use links::{
    Domains, degree, first_offers_are_unique, first_texts_give_the_degrees, pair_offers, pairs,
};
pub use plain::{Course, Happening, Postponed, course_of};
