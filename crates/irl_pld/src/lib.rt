//! The pay-level domains of hosts, by a list of public suffixes.
#![tactic(auto)]

mod hosts;
mod names;
mod parts;
mod suffixes;

pub use names::is_name;
pub use suffixes::{SuffixFault, Suffixes};
