ghost use Rattle.std.specs.Prelude.{◌≡◌, IfOk, map};
ghost use Rattle.std.specs.FinMap.{empty};
ghost use Rattle.irl_model.specs.Judging.{answer as answer_of, combined as combined_of, enters as enters_of, judgements};

use crate::KeySet;
use irl_offer::{Offer, Op, Rule, Verdict};
use std::alloc::{AllocError, Global};

/// The value that a key has once `new` was entered for it.
pub fn combined(rule: Rule, known: Option<u64>, new: u64) -> u64
    ensures { result ≡ combined_of rule known new }
{
    match (known, rule) {
        (None, _) | (Some(_), Rule::Replace) => new,
        (Some(old), Rule::Keep) => old,
        (Some(old), Rule::Add) => old.saturating_add(new),
    }
}

/// Whether an operation enters its key.
pub fn enters(op: Op) -> bool
    ensures { result ≡ enters_of op }
{
    match op {
        Op::Check => false,
        Op::Update | Op::Both => true,
    }
}

/// What a set answers that has this value, or none, at the key that is asked for.
pub fn answer(op: Op, known: Option<u64>) -> Option<Verdict>
    ensures { result ≡ answer_of op known }
{
    match op {
        Op::Update => None,
        Op::Check => Some(known.map_or(Verdict::Absent, Verdict::Known)),
        Op::Both => Some(known.map_or(Verdict::Unique, Verdict::Known)),
    }
}

/// The verdicts of one unbounded set that is empty at first and is asked the offers in order.
pub fn judge(
    alloc: Global,
    rule: Rule,
    offers: &[Offer],
) -> Result<Vec<Option<Verdict>>, AllocError>
    ensures { IfOk result (λ verdicts. verdicts.items ≡ map (λ p. p.1) (judgements rule empty offers.now)) }
{
    KeySet::new(alloc).ask_all(alloc, rule, offers)
}
