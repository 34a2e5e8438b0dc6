use crate::{Offer, Verdict};

/// A key with its value.
#[derive(Clone, Copy, Debug, PartialEq, Eq)]
pub struct Pair {
    pub key: u64,
    pub value: u64,
}

/// Where an offer stands: its bucket, and its number there, from 0, from the beginning of time.
#[derive(Clone, Copy, Debug, PartialEq, Eq)]
pub struct Receipt {
    pub bucket: u32,
    pub number: u64,
}

/// An offer that was judged, with its bucket. One that only updates has no verdict.
#[derive(Drop)]
pub struct Judged {
    pub bucket: u32,
    pub offer: Offer,
    pub verdict: Option<Verdict>,
}
