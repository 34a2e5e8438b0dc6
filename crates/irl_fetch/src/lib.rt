//! What a fetcher does with the pages that are to be fetched: by the robots files of their hosts, and with an offer of
//! each link that it finds.

#![tactic(auto)]

mod gate;
mod keeping;
mod laws;
mod pages;
mod robots;
mod working;

pub use gate::{Gate, NoGate};
pub use laws::notes_are_short;
pub use working::{WorkLog, work};
