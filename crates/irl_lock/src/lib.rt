//! Several fetchers that hand offers into one open store at the same time.
#![tactic(auto)]

mod closing;
mod held;
mod laws;
mod opening;
mod pass;
mod room;
mod rule;
mod seated;
mod shared;
mod sharing;
mod turns;
mod view;

pub use held::Bin;
pub use laws::{passes_spread, what_passes_hand_back};
pub use pass::Pass;
pub use seated::Seated;
pub use shared::Shared;
