//! The head of a store: a journal whose one record has the settings. What is asked of a store, and why one can't be opened.
#![tactic(auto)]

mod asked;
mod files;
mod head;
mod head_visitor;
mod journal;
mod laws;
mod open_fault;
mod ranges;

pub use asked::{first_bad, first_other};
pub use files::{CRAWL, FILES, HEAD, PAIRS_BASE, URLS_BASE};
pub use head::{HEAD_LEN, decode, encode};
pub use journal::{find_head, has_others, head_frame, write_head};
pub use laws::{a_head_tells_its_settings, a_new_store_is_as_it_was_asked};
pub use open_fault::OpenFault;
