//! The rules of a robots file (RFC 9309), and which of them holds for a path.
#![tactic(auto)]

mod answer;
mod groups;
mod heads;
mod host;
mod lines;
mod matching;
mod octets;
mod robots;
mod rule;
mod runs;
mod status;
mod target;

pub use answer::Class;
pub use host::{HostState, Leave};
pub use lines::kept;
pub use robots::Robots;
pub use rule::PathRule;
pub use status::class;
