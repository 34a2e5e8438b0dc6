//! Where the links of an HTML page stand, and what their text is.
#![tactic(auto)]

mod attribute;
mod cursor;
mod kind;
mod piece;
mod reference;
mod run;
mod scan;
mod span;

pub use reference::{one_text, text};
pub use scan::{base, links, one_cut};
pub use span::Span;
