//! DRUM's merge of one bucket (Lee, Leonard, Wang and Loguinov, "IRLbot: Scaling to 6 Billion Pages and Beyond", WWW 2008,
//! section 4), without a disk: takes the bucket's pending entries, and its keys in blocks, and gives the verdicts and the new keys.
#![tactic(auto)]

mod last;
mod laws;
mod query;
mod sweep;
mod verdicts;

pub use laws::what_is_given_rises;
pub use sweep::Sweep;
