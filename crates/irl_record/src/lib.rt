//! Fetchers: one over a link, and tapes that answer in place of the network.
#![tactic(auto)]

mod fetch;
mod generator;
mod grammar;
mod laws;
mod lines;
mod names;
mod page;
mod reading;
mod record;
mod sure_source;
mod tape;
mod tape_fetch;
mod wire_fetch;

pub use fetch::Fetch;
pub use generator::site;
pub use grammar::tapes_are_their_items;
pub use laws::a_site_is_a_tape;
pub use reading::TapeFault;
pub use tape::Tape;
pub use tape_fetch::TapeFetch;
pub use wire_fetch::WireFetch;
