ghost use Rattle.std.specs.Prelude.{◌≡◌, None};
ghost use Rattle.std.proofs.Props.{props};
ghost use Rattle.irl_yard.specs.Holding.{IsSound};
ghost use Rattle.irl_desk.specs.Sound.{sound_rest};

use irl_disk::Store;
use irl_intake::Intake;
use irl_offer::{Fault, Offer, Receipt};
use std::snapshot::Snapshot;

/// An offer that was taken, and where it stands. No value of it is kept: contracts alone see it.
#[derive(Drop)]
pub struct Taken {
    pub(crate) receipt: Receipt,
    pub(crate) offer: Offer,
}

/// An open store, at which offers are handed in.
///
/// Each offer gets the number behind all that its bucket has and that wait, before it is flushed. After a fault but want of
/// memory nothing more is done: it is answered again, and what waits is dropped with the desk.
#[derive(Drop)]
pub struct Desk<S: Store> {
    pub(crate) intake: Intake<S>,
    // What was taken, which takes no memory.
    pub(crate) entries: Vec<Snapshot<Taken>>,
    // The last fault but want of memory that was answered.
    pub(crate) last: Option<Fault>,
    ghost sound: { last ≡ None → IsSound intake.yard.parts } by { Prim.hlevel (props, sound_rest) },
}
