//! What the answer of a fetch means: what comes of the URL, which pages it names, and what it says of a robots file.
#![tactic(auto)]

mod found;
mod laws;
mod notes;
mod outcomes;
mod pages;

pub use found::{Found, offers};
pub use laws::chains_are_short;
pub use notes::{Step, note, robots_step};
pub use outcomes::outcome;
