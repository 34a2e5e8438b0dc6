//! The one desk at which the offers of a crawl's turn are handed in: an open store with an array in front of each bucket.
#![tactic(auto)]

mod desk;
mod laws;
mod offering;
mod stepping;
#[cfg(test)]
mod tests;
mod turn;

pub use desk::Desk;
pub use laws::{serves_both, serves_entered, serves_same, what_a_desk_hands_back};
