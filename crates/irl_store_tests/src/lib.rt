//! Tests of an open store: of `irl_yard`, and by its calls of `irl_ledger`; and those of `irl_head` and `irl_log`. They stand
//! here since a crate that has tests itself is proved twice.
#![tactic(auto)]

#[cfg(test)]
mod calls;
#[cfg(test)]
mod head;
#[cfg(test)]
mod ledger;
#[cfg(test)]
mod log;
#[cfg(test)]
mod stores;
#[cfg(test)]
mod yard;
