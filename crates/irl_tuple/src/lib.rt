//! The lines of the command `drum`: tuples that are offered, and the verdicts on them.
#![tactic(auto)]

mod laws;
mod number;
mod reading;
mod verdict;

pub use laws::{told_keys_are_read_again, tuple_lines_are_their_forms};
pub use reading::read_tuple;
pub use verdict::push_verdict;
