//! The payloads of events' records: a tag, and behind it what the event tells. Numbers have the lowest byte first.

mod reading;
mod spelling;

pub use reading::read_payload;
pub use spelling::{payload_length, put_payload};

// The tags.
const BEGIN: u8 = 1;

const PAIRS: u8 = 2;

const PASS: u8 = 3;

const ROBOTS: u8 = 4;

const SETTLE: u8 = 5;

// How many bytes an outcome takes with its URL's number.
const DONE_LEN: usize = 13;
