use crate::held::Held;
use crate::view::View;
use atomic_table::{Join, Play, Seat, Shared as Board, Split, TableRule};
use irl_disk::Store;
use irl_yard::Yard;
use std::marker::{Brand, PhantomData};
use std::snapshot::Snapshot;

/// A token of no bytes by which a thread does steps.
pub type Token<S> = Seat<Option<Held<S>>, View<S>>;

/// What threads share: a word and a slot for each turn, and a word that counts the offers of each bucket.
pub type Turns<S> = Board<Option<Held<S>>, View<S>, Snapshot<Yard<S>>, Rule>;

/// What holds between any two steps.
pub struct Rule;

impl<S: Store> TableRule<Option<Held<S>>, View<S>, Snapshot<Yard<S>>> for Rule {
    ghost use Rattle.irl_lock.specs.Rule.{IsKept, first_view};

    ghost holds = { λ key s. IsKept key.value s };

    ghost first = { λ key. first_view key.value };
}

// ---- the kinds of steps

/// A turn is claimed, with what stands behind it.
pub struct Claim;

impl<S: Store> Play<Option<Held<S>>, View<S>> for Claim {
    ghost use Rattle.irl_lock.specs.Plays.{Claimed};

    ghost then = { Claimed };
}

/// The turn that was claimed last is given back, with what stands behind it.
pub struct Release;

impl<S: Store> Play<Option<Held<S>>, View<S>> for Release {
    ghost use Rattle.irl_lock.specs.Plays.{Released};

    ghost then = { λ s me found after. Released s me found after };
}

/// Which offer is counted, and of which bucket.
pub trait Says {
    ghost use Rattle.std.specs.Prelude.{ℕ};
    ghost use Rattle.irl_offer.specs.Tuple.{Tuple};

    ghost bucket: { ℕ };

    ghost offer: { Tuple };
}

impl Says for Brand {
    ghost use Rattle.irl_lock.specs.Plays.{no_offer};

    ghost bucket = { 0 };

    ghost offer = { no_offer };
}

/// An offer is counted, under its bucket's turn.
pub struct Count<J> {
    of: PhantomData<J>,
}

impl<S: Store, J: Says> Play<Option<Held<S>>, View<S>> for Count<J> {
    ghost use Rattle.irl_lock.specs.Plays.{Counted};

    ghost then = { Counted J.bucket J.offer };
}

/// What the store's slot and a bucket's have now is kept, under both turns.
pub struct Note;

impl<S: Store> Play<Option<Held<S>>, View<S>> for Note {
    ghost use Rattle.irl_lock.specs.Plays.{Noted};

    ghost then = { Noted };
}

/// A seat gets one part of another's.
pub struct Parts;

impl<S: Store> Split<View<S>> for Parts {
    ghost use Rattle.irl_lock.specs.Plays.{left_of, right_of};

    ghost left = { left_of };

    ghost right = { right_of };
}

impl<S: Store> Join<View<S>> for Parts {
    ghost use Rattle.irl_lock.specs.Plays.{both_of, spent_of};

    ghost both = { both_of };

    ghost spent = { spent_of };
}
