use crate::held::Held;
use irl_disk::Store;
use irl_offer::{Fault, Offer, Receipt};
use irl_yard::Yard;
use std::collections::LinkedList;
use std::snapshot::Snapshot;

// What seats know. No value of these types is made: contracts alone see them.

/// An offer that was taken, and where it stands.
pub struct Taken {
    pub receipt: Receipt,
    pub offer: Offer,
}

/// What one pass did: the offers that it handed in, and the last fault but want of memory that it was answered.
pub struct Share {
    pub entries: LinkedList<Taken>,
    pub last: Option<Fault>,
}

/// What a seat knows of what was done: what its own pass did, and the passes that it took in.
pub struct Known {
    // Its part of the right to know all: 64 parts are all of it.
    pub parts: u64,
    pub mine: Share,
    pub joined: LinkedList<Share>,
}

/// What a seat knows.
pub struct View<S: Store> {
    // The store as it was opened. A seat that is of no use any more has forgotten it.
    pub opening: Option<Snapshot<Yard<S>>>,
    // The turns that it holds, the last one first, with what stands behind each.
    pub turns: LinkedList<(u64, Held<S>)>,
    pub known: Known,
}
