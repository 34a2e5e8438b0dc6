//! What the crawler reads, where it writes and what tells it the time, as traits with a meaning, and the lines of an input.
#![tactic(auto)]

mod clock;
mod jump_clock;
mod lines;
mod mem_sink;
mod mem_source;
mod read_source;
mod sink;
mod source;
mod write_sink;

pub use clock::Clock;
pub use jump_clock::JumpClock;
pub use lines::{Lines, Step};
pub use mem_sink::MemSink;
pub use mem_source::MemSource;
pub use read_source::ReadSource;
pub use sink::Sink;
pub use source::{Failed, Source};
pub use write_sink::WriteSink;
