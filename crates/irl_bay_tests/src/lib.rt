//! Tests of `irl_bay`, and of the crates below it that have the bytes of a store: `irl_array`, `irl_journal`, `irl_cache`,
//! `irl_merge` and `irl_layout`. They stand here since a crate that has tests itself is proved twice.
#![tactic(auto)]

#[cfg(test)]
mod adopt;
#[cfg(test)]
mod array;
#[cfg(test)]
mod bay;
#[cfg(test)]
mod blob;
#[cfg(test)]
mod cache;
#[cfg(test)]
mod journal;
#[cfg(test)]
mod layout;
#[cfg(test)]
mod merge;
#[cfg(test)]
mod quiet;
#[cfg(test)]
mod sweep;
#[cfg(test)]
mod writer;
