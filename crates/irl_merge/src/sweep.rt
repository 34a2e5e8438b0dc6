ghost use Rattle.std.specs.Prelude.{◌≡◌, ◌↔◌, ◌<◌, ◌≤◌, ◌+◌, ◌++◌, [], ℕ, List, true, map, length, All, IsTrue, IsOk, OnOk, OnErr, IfOk};
ghost use Rattle.irl_offer.specs.declared.offer.Rule.{Rule};
ghost use Rattle.irl_offer.specs.declared.receipt.Pair.{Pair};
ghost use Rattle.irl_offer.specs.Tuple.{Tuple};
ghost use Rattle.irl_model.specs.Book.{IsPrefixOf};
ghost use Rattle.irl_model.specs.Judging.{KeyMap, after, judgements};
ghost use Rattle.irl_model.specs.Pairs.{ArePairsOf, IsRising};
ghost use Rattle.irl_merge.specs.Queries.{AreEntriesOf};

use crate::last::{last_value, set_last};
use crate::query::{Query, sorted};
use crate::verdicts::in_original_order;
use irl_model::{answer, combined, enters};
use irl_offer::{Entry, Pair, Rule, Verdict};
use std::alloc::{AllocError, Global};

/// One pass through a bucket's keys, which judges its pending offers and makes its new keys. The keys are fed block by block.
#[derive(Drop)]
pub struct Sweep {
    alloc: Global,
    rule: Rule,
    // What the offers ask, in the order of their keys, and the verdicts on the first of them.
    queries: Vec<Query>,
    verdicts: Vec<Option<Verdict>>,
    // The greatest key so far, which isn't given out yet: offers that are still to be judged may change its value.
    last: Option<Pair>,
    is_sound: bool,
    ghost placed: { All (λ q. q.place < length queries.items) queries.items },
    ghost counted: { length verdicts.items ≤ length queries.items },
}

impl Sweep {
    ghost use Rattle.irl_merge.specs.Sweeping.{HasAsked, HasSwept, IsBehind, next_key};

    /// A sweep for these entries, which are numbered as they stand here.
    pub fn new(alloc: Global, rule: Rule, entries: &[Entry]) -> Result<Sweep, AllocError>
        ensures swept { IfOk result (λ sweep. (offers : List Tuple) →
            AreEntriesOf offers entries.now → HasSwept rule offers [] [] sweep) }
        ensures sound { IfOk result (λ sweep. sweep.is_sound ≡ true) }
    {
        let queries = sorted(alloc, entries)?;
        let verdicts = Vec::with_capacity(alloc, queries.len())?;
        Ok(Sweep {
            alloc,
            rule,
            queries,
            verdicts,
            last: None,
            is_sound: true,
        })
    }

    /// Goes through the next of the bucket's keys: judges the offers below them, and puts pairs of the new set behind what `out`
    /// has. Where the keys don't rise, or aren't above all that were fed before, nothing is promised of what the sweep gives.
    /// After want of memory `out` is as before and the sweep is spent: only dropping it is left.
    pub fn feed(&mut self, block: &[Pair], out: &mut Vec<Pair>) -> Result<(), AllocError>
        requires sound { self.old.is_sound ≡ true }
        // `more` are the pairs that this call gave.
        ensures swept { OnOk result ((rule : Rule) (offers : List Tuple) (fed given more : List Pair) →
            out.new.items ≡ out.old.items ++ more → HasSwept rule offers fed given self.old
            → IsRising (fed ++ block.now) →
            HasSwept rule offers (fed ++ block.now) (given ++ more) self.new) }
        ensures sound { (self.new.is_sound ≡ true) ↔ IsOk result }
        ensures kept { IsPrefixOf out.old.items out.new.items }
        ensures out_kept { OnErr result (out.new.items ≡ out.old.items) }
    {
        let before = out.len();
        if let Err(error) = self.feed_all(block, out) {
            self.is_sound = false;
            out.truncate(before);
            return Err(error);
        }
        Ok(())
    }

    /// Judges the offers that are left, puts the rest of the new set behind what `out` has, and gives the verdicts in the order
    /// of the entries. After want of memory `out` is as before.
    pub fn end(mut self, out: &mut Vec<Pair>) -> Result<Vec<Option<Verdict>>, AllocError>
        requires sound { self.is_sound ≡ true }
        // Each verdict is that of the set of all that was fed, asked the offers before it.
        ensures verdicts { IfOk result (λ verdicts.
            (rule : Rule) (offers : List Tuple) (fed given : List Pair) (keys : KeyMap) →
            HasSwept rule offers fed given self → ArePairsOf keys fed →
            verdicts.items ≡ map (λ p. p.1) (judgements rule keys offers)) }
        ensures count { IfOk result (λ verdicts. (rule : Rule) (offers : List Tuple) (fed given : List Pair) →
            HasSwept rule offers fed given self → length verdicts.items ≡ length offers) }
        // All that was given, and what this call gave, is that set after all offers.
        ensures pairs { OnOk result ((rule : Rule) (offers : List Tuple) (fed given more : List Pair) (keys : KeyMap) →
            out.new.items ≡ out.old.items ++ more → HasSwept rule offers fed given self → ArePairsOf keys fed →
            ArePairsOf (after rule keys offers) (given ++ more)) }
        ensures kept { IsPrefixOf out.old.items out.new.items }
        ensures out_kept { OnErr result (out.new.items ≡ out.old.items) }
    {
        let before = out.len();
        match self.end_all(out) {
            Ok(verdicts) => Ok(verdicts),
            Err(error) => {
                out.truncate(before);
                Err(error)
            }
        }
    }

    /// Whether no call ran out of memory, which is the condition of the others.
    pub fn is_sound(&self) -> bool
        ensures { IsTrue result ↔ (self.now.is_sound ≡ true) }
    {
        self.is_sound
    }

    // As `feed`, but for what want of memory leaves.
    fn feed_all(&mut self, block: &[Pair], out: &mut Vec<Pair>) -> Result<(), AllocError>
        ensures swept { OnOk result ((rule : Rule) (offers : List Tuple) (fed given more : List Pair) →
            out.new.items ≡ out.old.items ++ more → HasSwept rule offers fed given self.old
            → IsRising (fed ++ block.now) →
            HasSwept rule offers (fed ++ block.now) (given ++ more) self.new) }
        ensures sound { self.new.is_sound ≡ self.old.is_sound }
        ensures kept { IsPrefixOf out.old.items out.new.items }
    {
        for pair in block {
            self.ask_below(pair.key, out)?;
            set_last(&mut self.last, *pair, out)?;
        }
        Ok(())
    }

    // As `end`, but for what want of memory leaves.
    fn end_all(&mut self, out: &mut Vec<Pair>) -> Result<Vec<Option<Verdict>>, AllocError>
        ensures verdicts { IfOk result (λ verdicts.
            (rule : Rule) (offers : List Tuple) (fed given : List Pair) (keys : KeyMap) →
            HasSwept rule offers fed given self.old → ArePairsOf keys fed →
            verdicts.items ≡ map (λ p. p.1) (judgements rule keys offers)) }
        ensures count { IfOk result (λ verdicts. length verdicts.items ≡ length self.old.queries.items) }
        ensures pairs { OnOk result ((rule : Rule) (offers : List Tuple) (fed given more : List Pair) (keys : KeyMap) →
            out.new.items ≡ out.old.items ++ more → HasSwept rule offers fed given self.old → ArePairsOf keys fed →
            ArePairsOf (after rule keys offers) (given ++ more)) }
        ensures kept { IsPrefixOf out.old.items out.new.items }
    {
        self.ask_rest(out)?;
        if let Some(last) = self.last {
            out.push(last)?;
        }
        in_original_order(self.alloc, &self.queries, &self.verdicts)
    }

    // Judges the next offer, in the order of the keys.
    fn ask_next(&mut self, out: &mut Vec<Pair>) -> Result<(), AllocError>
        requires { length self.old.verdicts.items < length self.old.queries.items }
        ensures asked { OnOk result ((rule : Rule) (keys : KeyMap) (given more : List Pair) →
            out.new.items ≡ out.old.items ++ more →
            HasAsked rule keys given self.old → HasAsked rule keys (given ++ more) self.new) }
        ensures behind { OnOk result ((key : ℕ) →
            next_key self.old < key → IsBehind key self.old → IsBehind key self.new) }
        ensures count { OnOk result (length self.new.verdicts.items ≡ length self.old.verdicts.items + 1) }
        ensures same { self.new.queries ≡ self.old.queries }
        ensures sound { self.new.is_sound ≡ self.old.is_sound }
        ensures kept { IsPrefixOf out.old.items out.new.items }
    {
        let query = self.queries[self.verdicts.len()];
        let known = last_value(&self.last, query.key);
        self.verdicts.push(answer(query.op, known))?;
        if enters(query.op) {
            let value = combined(self.rule, known, query.value);
            let key = query.key;
            set_last(&mut self.last, Pair { key, value }, out)?;
        }
        Ok(())
    }

    // Judges the offers below a key.
    fn ask_below(&mut self, key: u64, out: &mut Vec<Pair>) -> Result<(), AllocError>
        ensures asked { OnOk result ((rule : Rule) (keys : KeyMap) (given more : List Pair) →
            out.new.items ≡ out.old.items ++ more →
            HasAsked rule keys given self.old → HasAsked rule keys (given ++ more) self.new) }
        ensures behind { OnOk result (IsBehind key self.old → IsBehind key self.new) }
        ensures ahead { OnOk result (length self.new.verdicts.items < length self.new.queries.items
            → key ≤ next_key self.new) }
        ensures same { self.new.queries ≡ self.old.queries }
        ensures sound { self.new.is_sound ≡ self.old.is_sound }
        ensures kept { IsPrefixOf out.old.items out.new.items }
    {
        for i in self.verdicts.len()..self.queries.len() {
            if self.queries[i].key >= key {
                break;
            }
            self.ask_next(out)?;
        }
        Ok(())
    }

    // Judges all that are left.
    fn ask_rest(&mut self, out: &mut Vec<Pair>) -> Result<(), AllocError>
        ensures asked { OnOk result ((rule : Rule) (keys : KeyMap) (given more : List Pair) →
            out.new.items ≡ out.old.items ++ more →
            HasAsked rule keys given self.old → HasAsked rule keys (given ++ more) self.new) }
        ensures count { OnOk result (length self.new.verdicts.items ≡ length self.new.queries.items) }
        ensures same { self.new.queries ≡ self.old.queries }
        ensures kept { IsPrefixOf out.old.items out.new.items }
    {
        for _ in self.verdicts.len()..self.queries.len() {
            self.ask_next(out)?;
        }
        Ok(())
    }
}
