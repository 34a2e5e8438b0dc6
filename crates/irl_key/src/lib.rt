//! Links to web pages: their canonical texts, and the keys under which they are known.
#![tactic(auto)]

mod canon;
mod key;
mod web;

pub use canon::{Canon, canonical, robots_of};
pub use key::key_of;
pub use web::{Web, Work};
