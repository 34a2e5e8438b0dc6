//! A store of numbered files: its trait, and two forms of it in memory.
#![tactic(auto)]

mod calls;
mod changes;
mod fault;
mod log;
mod memory;
mod store;
mod sure;

pub use calls::Part;
pub use memory::MemStore;
pub use store::{Failed, Store};
pub use sure::SureStore;
