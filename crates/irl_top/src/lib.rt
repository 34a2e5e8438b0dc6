//! The top call: one run of the program.
#![tactic(auto)]

mod crawling;
mod ending;
mod filter;
mod line;
mod printing;
mod program;
mod reading;
mod session;
mod showing;
mod telling;

pub use ending::Ending;
pub use program::{plain, run};
