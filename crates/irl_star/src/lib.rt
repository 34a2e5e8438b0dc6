//! Budgets of pages by in-degree (Lee, Leonard, Wang and Loguinov, "IRLbot: Scaling to 6 Billion Pages and Beyond", WWW 2008,
//! section 5: Spam Tracking and Avoidance through Reputation).
#![tactic(auto)]

mod budgets;
mod degrees;
mod laws;
mod ranking;

pub use budgets::Budgets;
pub use degrees::Degrees;
pub use laws::budgets_depend_on_degrees;
