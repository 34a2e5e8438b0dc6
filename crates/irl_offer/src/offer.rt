use crate::Text;
use std::marker::Model;

/// What an offer asks of the set of seen keys. `Both` is DRUM's check+update.
#[derive(Clone, Copy, Debug, PartialEq, Eq)]
pub enum Op {
    /// Whether the key is there, and with which value. It changes nothing.
    Check,
    /// Enters an absent key, and combines the value of a present one. It has no verdict.
    Update,
    /// The verdict of `Check`, and then the change of `Update`.
    Both,
}

impl Op {
    ghost use Rattle.std.specs.Prelude.{◌≡◌};
    ghost use Rattle.irl_offer.specs.Entries.{op_number, op_of};

    /// The number that stands for the operation in files.
    pub fn number(self) -> u8
        ensures { result ≡ op_number self }
    {
        match self {
            Op::Check => 0,
            Op::Update => 1,
            Op::Both => 2,
        }
    }

    /// The operation that a number stands for, if there is one.
    pub fn from_number(number: u8) -> Option<Op>
        ensures { result ≡ op_of number }
    {
        match number {
            0 => Some(Op::Check),
            1 => Some(Op::Update),
            2 => Some(Op::Both),
            _ => None,
        }
    }
}

/// How a value combines with the one that its key has already.
#[derive(Clone, Copy, Debug, PartialEq, Eq)]
pub enum Rule {
    /// The old value stays.
    Keep,
    /// The new value takes its place.
    Replace,
    /// The sum, which stops at 18446744073709551615.
    Add,
}

/// The answer to an offer that checks.
#[derive(Clone, Copy, Debug, PartialEq, Eq)]
pub enum Verdict {
    /// `Both` on a key that was absent.
    Unique,
    /// `Check` on a key that was absent.
    Absent,
    /// The key was there, with this value from before the offer.
    Known(u64),
}

/// A DRUM tuple with its operation. Contracts see it as a `Tuple`.
#[derive(Drop)]
pub struct Offer {
    pub op: Op,
    pub key: u64,
    pub value: u64,
    /// The key of the domain whose page gave this link, or 0.
    pub from: u64,
    /// At most 2,048 bytes: the text that the key stands for.
    pub aux: Text,
}

impl Model for Offer {
    ghost use Rattle.std.specs.Prelude.{◌≤◌, length};
    ghost use Rattle.irl_base.specs.Limits.{max_text};
    ghost use Rattle.irl_offer.specs.Tuple.{Tuple};

    ghost Value = { Tuple };

    ghost view = { λ o. record { op = o.op; key = o.key; value = o.value; from = o.from; aux = o.aux } };

    ghost invariant = { λ o. length o.aux ≤ max_text };
}
