//! Plain data that the crates of the crawler share.
#![tactic(auto)]

mod buckets;
mod done;
mod entry;
mod note;
mod offer;
mod offers;
mod outcome;
mod place;
mod receipt;
mod reply;
mod settings;
mod text;

pub use buckets::bucket_of;
pub use done::{Done, Receipts};
pub use entry::{ENTRY_LEN, Entry, decode, encode};
pub use irl_base::{Fault, MAX_PAGE, MAX_ROBOTS, MAX_TEXT};
pub use note::{Note, NoteState};
pub use offer::{Offer, Op, Rule, Verdict};
pub use offers::Offers;
pub use outcome::Outcome;
pub use place::{Place, Purse, Slot};
pub use receipt::{Judged, Pair, Receipt};
pub use reply::{Answer, Reply, Want};
pub use settings::{Asked, Kind, Settings};
pub use text::Text;
