//! A sorted run of keys on the disk, which is read in blocks and written in order.
#![tactic(auto)]

mod decode;
mod reader;
mod writer;

pub use reader::CacheReader;
pub use writer::CacheWriter;
