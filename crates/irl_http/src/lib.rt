//! Requests for pages and their replies, over a link.
#![tactic(auto)]

mod chunks;
mod fields;
mod head;
mod link;
mod mem_link;
mod message;
mod reading;
mod reply;

pub use link::{Connection, Link};
pub use mem_link::MemLink;
pub use message::request;
pub use reply::read_reply;
