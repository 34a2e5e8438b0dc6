//! The texts in which a crawl is reported: its counts, and a line for each URL.
#![tactic(auto)]

mod listing;
mod summary;

pub use listing::list_line;
pub use summary::report;
