//! Arrays in front of an open store: when a full one is flushed, when a merge runs, and what the end of an input does.
#![tactic(auto)]

mod feeding;
mod intake;
mod judged;
mod next;

pub use intake::Intake;
pub use next::Next;
