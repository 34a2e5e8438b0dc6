//! The whole store: its head, and the bay of URLs.
#![tactic(auto)]

mod due;
mod enter;
mod events;
mod laws;
mod look;
mod parts;
mod passes;
mod robots;
mod scheduling;
mod sending;
mod tie;
mod yard;

pub use enter::{no_two_grounds, what_entering_keeps};
pub use laws::{
    a_buckets_files_are_its_own, books_lead_states, books_make_states, calls_lead_states,
    notes_are_events, one_state, states_grow, what_is_held_has_its_state,
};
pub use look::Looked;
pub use parts::{Parts, Rest};
pub use tie::{calls_are_steps, events_are_steps};
pub use yard::Yard;
