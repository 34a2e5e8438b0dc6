ghost use Rattle.std.specs.Prelude.{◌≡◌, ◌++◌, ◌∷◌, [], OnOk, OnErr};

use crate::{Outcome, Receipt};
use std::alloc::{AllocError, Global};
use std::marker::Model;

/// Receipts, in order. Contracts see them as a list.
#[derive(Drop)]
pub struct Receipts {
    receipts: Vec<Receipt>,
}

impl Model for Receipts {
    ghost use Rattle.std.specs.Prelude.{List};
    ghost use Rattle.irl_offer.specs.declared.receipt.Receipt.{Receipt};

    ghost Value = { List Receipt };

    ghost view = { λ r. r.receipts.items };
}

impl Receipts {
    /// None yet. It takes no memory.
    pub fn new(alloc: Global) -> Receipts
        ensures { result ≡ [] }
    {
        Receipts {
            receipts: Vec::new(alloc),
        }
    }

    /// One more, at the end. After want of memory they are as before.
    pub fn push(&mut self, receipt: Receipt) -> Result<(), AllocError>
        ensures ok { OnOk result (self.new ≡ self.old ++ receipt ∷ []) }
        ensures err { OnErr result (self.new ≡ self.old) }
    {
        self.receipts.push(receipt)?;
        Ok(())
    }

    /// All of them.
    pub fn items(&self) -> &[Receipt]
        ensures { result.now ≡ self.now }
    {
        &self.receipts
    }
}

/// A URL that was fetched, by its number: what came of it, and the receipts of the links that it gave.
#[derive(Drop)]
pub struct Done {
    pub number: u64,
    pub outcome: Outcome,
    pub receipts: Receipts,
}
