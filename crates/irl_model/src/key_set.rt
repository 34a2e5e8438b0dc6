ghost use Rattle.std.specs.Prelude.{◌≡◌, OnOk, OnErr, IfOk, length};
ghost use Rattle.std.specs.Prelude.{map as list_map};
ghost use Rattle.std.specs.FinMap as map;
ghost use Rattle.irl_model.specs.Judging.{after, answer, combined as combined_of, entered, judgements};
ghost use Rattle.irl_model.specs.Pairs.{ArePairsOf};

use crate::judging::{answer, combined, enters};
use irl_offer::{Offer, Pair, Rule, Verdict};
use std::alloc::{AllocError, Global};
use std::collections::BTreeMap;
use std::marker::Model;

/// The set of seen keys, each with its value. Contracts see it as a finite map.
#[derive(Drop)]
pub struct KeySet {
    values: BTreeMap<u64, u64>,
}

impl Model for KeySet {
    ghost use Rattle.std.specs.Prelude.{ℕ};
    ghost use Rattle.std.specs.Ordering.{nat_cmp};
    ghost use Rattle.std.specs.Coded.{coded_ℕ};
    ghost use Rattle.std.specs.FinMap as map;

    ghost Value = { map.FinMap nat_cmp ℕ };

    ghost coded = { map.code coded_ℕ coded_ℕ };

    ghost view = { λ s. map.from_entries s.values.entries };
}

impl KeySet {
    /// A set without keys. It takes no memory.
    pub fn new(alloc: Global) -> KeySet
        ensures { result ≡ map.empty }
    {
        KeySet {
            values: BTreeMap::new(alloc),
        }
    }

    /// The value of a key that is there.
    pub fn get(&self, key: u64) -> Option<u64>
        ensures { result ≡ map.get self.now key }
    {
        self.values.get(&key).copied()
    }

    /// Sets the value of a key.
    pub fn insert(&mut self, key: u64, value: u64) -> Result<(), AllocError>
        ensures ok { OnOk result (self.new ≡ map.insert self.old key value) }
        ensures err { OnErr result (self.new ≡ self.old) }
    {
        self.values.insert(key, value)?;
        Ok(())
    }

    /// The keys with their values, keys rising.
    pub fn pairs(&self, alloc: Global) -> Result<Vec<Pair>, AllocError>
        ensures { IfOk result (λ pairs. ArePairsOf self.now pairs.items) }
    {
        let mut pairs = Vec::new(alloc);
        for (key, value) in &self.values {
            pairs.push(Pair {
                key: *key,
                value: *value,
            })?;
        }
        Ok(pairs)
    }

    /// Enters a value for a key: the key's value is then the two combined. After want of memory the set is as before.
    pub fn enter(&mut self, rule: Rule, key: u64, value: u64) -> Result<(), AllocError>
        ensures ok { OnOk result (self.new ≡ map.insert self.old key (combined_of rule (map.get self.old key) value)) }
        ensures err { OnErr result (self.new ≡ self.old) }
    {
        let value = combined(rule, self.get(key), value);
        self.insert(key, value)
    }

    /// The set's verdict on an offer, and the offer's change. After want of memory the set is as before.
    pub fn ask(&mut self, rule: Rule, offer: &Offer) -> Result<Option<Verdict>, AllocError>
        ensures verdict { IfOk result (λ v. v ≡ answer offer.now.op (map.get self.old offer.now.key)) }
        ensures ok { OnOk result (self.new ≡ entered rule self.old offer.now) }
        ensures err { OnErr result (self.new ≡ self.old) }
    {
        let known = self.get(offer.key);
        if enters(offer.op) {
            self.enter(rule, offer.key, offer.value)?;
        }
        Ok(answer(offer.op, known))
    }

    /// The verdicts on the offers in order, and their changes. After want of memory some of them were asked.
    pub fn ask_all(
        &mut self,
        alloc: Global,
        rule: Rule,
        offers: &[Offer],
    ) -> Result<Vec<Option<Verdict>>, AllocError>
        ensures verdicts { IfOk result (λ verdicts.
            verdicts.items ≡ list_map (λ p. p.1) (judgements rule self.old offers.now)) }
        ensures count { IfOk result (λ verdicts. length verdicts.items ≡ length offers.now) }
        ensures ok { OnOk result (self.new ≡ after rule self.old offers.now) }
    {
        let mut verdicts = Vec::new(alloc);
        for offer in offers {
            verdicts.push(self.ask(rule, offer)?)?;
        }
        Ok(verdicts)
    }
}
