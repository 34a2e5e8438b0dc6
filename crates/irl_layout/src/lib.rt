//! The bytes of a bay: which file is which, and what stands in them.
#![tactic(auto)]

mod commit;
mod decode;
mod entries;
mod files;
mod judged;
mod judged_entry;
mod number;
mod run;

pub use commit::{Commit, Live, commit_len};
pub use entries::read_run;
pub use files::BayFile;
pub use judged::push_judged;
pub use judged_entry::JudgedEntry;
pub use run::Run;
