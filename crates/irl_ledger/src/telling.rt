//! The judged pairs, of which the tables are told.

ghost use Rattle.std.specs.Prelude.{◌≡◌, ◌<◌, ◌≤◌, ◌∷◌, [], true, OnOk};
ghost use Rattle.std.specs.Option.{ForSome};
ghost use Rattle.irl_bay.specs.Holding.{IsLong};
ghost use Rattle.irl_bay.specs.JudgedParts.{as_judged};
ghost use Rattle.irl_ledger.specs.Telling.{TellsEach, TellsPairs};

use crate::Ledger;
use irl_bay::{JudgedPart, JudgedRef};
use irl_disk::Store;
use irl_frontier::Frontier;
use irl_offer::{Fault, Verdict};
use std::alloc::AllocError;

// How many judged pairs are read in one piece.
const PIECE: u32 = 4096;

impl Ledger {
    /// Tells the tables the judged pairs that they weren't told yet: how many domains link to each. It changes no file.
    /// After a refusal those of some may be told.
    pub fn tell_pairs<S: Store>(&mut self, store: &mut S) -> Result<(), Fault>
        requires sound { self.old.pairs.is_sound ≡ true }
        requires long { ForSome (S.told store.old).files (λ files. IsLong self.old.pairs files) }
        requires told { self.old.frontier.told ≤ self.old.pairs.last.judged }
        ensures tells { TellsPairs result self.old self.new (S.told store.old) (S.told store.new) }
        ensures all { OnOk result (self.new.frontier.told ≡ self.old.pairs.last.judged) }
    {
        let _is_sound = self.pairs.is_sound();
        let to = self.pairs.judged_len();
        self.tell_pairs_to(store, to)
    }

    // The same of those before a place of the judged order.
    pub(crate) fn tell_pairs_to<S: Store>(&mut self, store: &mut S, to: u64) -> Result<(), Fault>
        requires sound { self.old.pairs.is_sound ≡ true }
        requires long { ForSome (S.told store.old).files (λ files. IsLong self.old.pairs files) }
        requires told { self.old.frontier.told ≤ to }
        requires to { to ≤ self.old.pairs.last.judged }
        ensures tells { TellsPairs result self.old self.new (S.told store.old) (S.told store.new) }
        ensures all { OnOk result (self.new.frontier.told ≡ to) }
    {
        let _is_sound = self.pairs.is_sound();
        while self.frontier.told() < to {
            self.tell_piece(store, to)?;
        }
        Ok(())
    }

    // Tells one piece of them.
    fn tell_piece<S: Store>(&mut self, store: &mut S, to: u64) -> Result<(), Fault>
        requires sound { self.old.pairs.is_sound ≡ true }
        requires long { ForSome (S.told store.old).files (λ files. IsLong self.old.pairs files) }
        requires told { self.old.frontier.told < to }
        requires to { to ≤ self.old.pairs.last.judged }
        ensures tells { TellsPairs result self.old self.new (S.told store.old) (S.told store.new) }
        ensures some { OnOk result (self.old.frontier.told < self.new.frontier.told) }
        ensures within { OnOk result (self.new.frontier.told ≤ to) }
    {
        let _is_sound = self.pairs.is_sound();
        let from = self.frontier.told();
        let most = (to - from).min(u64::from(PIECE)) as u32;
        let part = self.pairs.judged_from(store, from, most)?;
        tell_part(&mut self.frontier, &part)?;
        Ok(())
    }
}

// Tells the tables a part of the judged pairs.
fn tell_part(frontier: &mut Frontier, part: &JudgedPart) -> Result<(), AllocError>
    ensures { TellsEach result part.now frontier.old frontier.new }
{
    for i in 0..part.len() {
        tell_one(frontier, &part.get(i))?;
    }
    Ok(())
}

// Tells them one judged pair.
fn tell_one(frontier: &mut Frontier, one: &JudgedRef) -> Result<(), AllocError>
    ensures { TellsEach result (as_judged one.now ∷ []) frontier.old frontier.new }
{
    match one.verdict {
        Some(Verdict::Unique) => frontier.tell(Some(one.aux)),
        _ => frontier.tell(None),
    }
}
