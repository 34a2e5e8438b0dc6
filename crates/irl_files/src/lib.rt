//! A store over the files of a folder.
#![tactic(auto)]

mod failure;
mod failures;
mod file_store;
mod folder;
mod hold;
mod lost;
mod opening;
mod paths;
mod place;
mod table;

pub use failure::{Call, Failure};
pub use file_store::FileStore;
pub use hold::Lockable;
