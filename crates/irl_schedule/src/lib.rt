//! When arrays are flushed into a bay, and when its merges run.
#![tactic(auto)]

mod arrays;
mod schedule;

pub use arrays::arrays_of;
pub use schedule::{flush_some, make_room, merge_if_due, merge_rest};
