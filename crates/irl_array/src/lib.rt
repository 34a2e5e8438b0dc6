//! The offers of a bucket that wait in memory to be flushed: a list that has room for so many and takes no more memory.
#![tactic(auto)]

mod array;

pub use array::Array;
