use irl_array::Array;
use irl_disk::Store;
use irl_offer::Fault;
use irl_yard::Yard;

/// What stands behind a bucket's turn: the offers that wait, and the number that the first of them has, or the next one
/// gets.
#[derive(Drop)]
pub struct Bin {
    pub first: u64,
    pub array: Array,
}

/// What stands behind the store's turn: the store, and the fault by which it stopped, if it did. After one nothing
/// more is done with it.
#[derive(Drop)]
pub struct Stand<S: Store> {
    pub yard: Yard<S>,
    pub last: Option<Fault>,
}

/// What stands behind a turn.
#[derive(Drop)]
pub enum Held<S: Store> {
    InBin(Bin),
    InYard(Stand<S>),
}
