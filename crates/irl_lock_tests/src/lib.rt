//! Tests of passes that share a store, and of arrays in front of one. They stand here since a crate that has tests itself is
//! proved twice.
#![tactic(auto)]

#[cfg(test)]
mod crew;
#[cfg(test)]
mod holding;
#[cfg(test)]
mod intake;
#[cfg(test)]
mod passes;
