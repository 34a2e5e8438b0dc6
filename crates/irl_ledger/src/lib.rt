//! What a store of a crawl keeps beside its URLs: the bay of pairs, the log of events, and the tables that these make.
#![tactic(auto)]

mod domains;
mod events;
mod feeding;
mod fresh;
mod history;
mod laws;
mod ledger;
mod make;
mod notes;
mod open;
mod pass;
mod read_log;
mod robots;
mod sending;
mod settle;
mod telling;

pub use history::History;
pub use laws::a_legal_log_is_taken;
pub use ledger::Ledger;
pub use pass::offers_len;
pub use read_log::a_legal_log_is_whole;
