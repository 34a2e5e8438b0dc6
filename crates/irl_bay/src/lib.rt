//! A DRUM on the disk.
#![tactic(auto)]

mod adopt;
mod bay;
mod bucket;
mod cuts;
mod emptying;
mod found;
mod gathering;
mod history;
mod judge;
mod judged;
mod judged_part;
mod laws;
mod merge;
mod parts;
mod pending;
mod sides;
mod tally;
mod telling;

pub use bay::Bay;
pub use judged_part::{JudgedPart, JudgedRef};
pub use laws::{
    a_bays_files_are_its_own, a_blank_bay_stands, one_book, opening_keeps_the_book,
    other_files_are_free, what_is_held_stands,
};
