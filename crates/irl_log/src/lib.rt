//! The log of a crawl: a journal whose records are the crawl's events.
#![tactic(auto)]

mod codec;
mod laws;
mod log;
mod note;
mod payloads;
mod visit;

pub use codec::{payload_length, put_payload, read_payload};
pub use laws::one_list_of_events;
pub use log::Log;
pub use visit::VisitEvents;
