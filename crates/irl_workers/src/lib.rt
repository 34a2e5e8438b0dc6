//! Workers side by side, each with a fetcher, a front and a way into the store of its own.

#![tactic(auto)]

mod halves;

pub use halves::{Worker, work_side_by_side};
