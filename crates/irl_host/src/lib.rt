//! The host of a URL's text that is plainly canonical, with no parse.
#![tactic(auto)]

mod sight;

pub use sight::host_at_sight;
