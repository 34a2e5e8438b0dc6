//! Connections to this machine over TCP, none of which waits for ever, with the system's clock.
#![tactic(auto)]

mod limits;
mod meter;
mod metered;
mod wire;

pub use meter::Meter;
pub use metered::{Cleared, Metered};
pub use wire::Wire;
