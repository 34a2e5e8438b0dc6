//! Whose turn it is: pages to fetch by the robots files of their hosts, two fetches of one host at least a delay apart.
#![tactic(auto)]

mod front;
mod hosts;
mod job;
mod known;
mod laws;
mod loading;
mod slots;
mod turns;

pub use front::Front;
pub use irl_robots::HostState;
pub use job::Job;
