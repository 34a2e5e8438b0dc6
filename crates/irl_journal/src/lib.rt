//! A write-ahead journal: records behind a gate, each on the disk before it counts. And two ways to keep bytes at a
//! file's growing end: a blob, written at once, and a writer in pieces.
#![tactic(auto)]

mod blob;
mod fault;
mod file_writer;
mod format;
mod frame;
mod journal;
mod laws;
mod opening;
mod part;
mod record;
mod several;
mod synced;
mod visit;

pub use blob::Blob;
pub use fault::JournalFault;
pub use file_writer::{FileWriter, PIECE};
pub use frame::Frame;
pub use journal::Journal;
pub use laws::one_list;
pub use part::read_part;
pub use several::Payloads;
pub use visit::Visit;
