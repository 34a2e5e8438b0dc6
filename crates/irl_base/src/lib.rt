//! What the crates of the crawler share and what stands on none of them.
#![tactic(auto)]

mod blanks;
mod fault;
mod limits;
pub mod lists;

pub use blanks::{is_blank, trim, trim_end, trim_start};
pub use fault::Fault;
pub use limits::{MAX_PAGE, MAX_ROBOTS, MAX_TEXT};
