//! Queues of postponed URLs (Lee, Leonard, Wang and Loguinov, "IRLbot: Scaling to 6 Billion Pages and Beyond", WWW 2008,
//! section 6: Budget Enforcement with Anti-Spam Tactics), in memory.
#![tactic(auto)]

mod beast;
mod counts;
mod item;
mod laws;
mod lists;
mod placing;
mod plan;

pub use beast::Beast;
pub use item::Item;
pub use laws::a_pass_is_legal;
pub use plan::Plan;
