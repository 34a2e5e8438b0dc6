ghost use Rattle.std.specs.Prelude.{◌≡◌, ◌+◌, [], ◌∷◌, ◌++◌, List, ℕ, IfOk, OnOk, OnErr};
ghost use Rattle.std.specs.FinMap as map;
ghost use Rattle.irl_offer.specs.Settings.{AreValid};
ghost use Rattle.irl_star.specs.Budgets.{degree as degree_of, budget as budget_of};
ghost use Rattle.irl_star.specs.Degrees.{degree_in, Counts};

use crate::budgets::Budgets;
use crate::ranking::{ranked, ranks_of};
use irl_offer::{Purse, Settings};
use std::alloc::{AllocError, Global};
use std::collections::BTreeMap;
use std::marker::Model;

/// How many domains link to each domain: each add is one that does. Contracts see it as a finite map from the texts of domains
/// to their degrees, and tie it to the list of the adds by `Counts`.
#[derive(Drop)]
pub struct Degrees {
    alloc: Global,
    degrees: BTreeMap<Vec<u8>, u64>,
}

impl Model for Degrees {
    ghost use Rattle.std.specs.Prelude.{ℕ};
    ghost use Rattle.std.specs.Coded.{coded_ℕ, coded_list};
    ghost use Rattle.std.specs.FinMap as map;
    ghost use Rattle.irl_star.specs.Degrees.{DegreeMap, texts_of};

    ghost Value = { DegreeMap };

    ghost coded = { map.code (coded_list coded_ℕ) coded_ℕ };

    ghost view = { λ d. map.from_entries (texts_of d.degrees.entries) };
}

impl Degrees {
    /// No adds yet. It takes no memory.
    pub fn new(alloc: Global) -> Degrees
        ensures value { result ≡ map.empty }
        ensures counts { Counts result [] }
    {
        Degrees {
            alloc,
            degrees: BTreeMap::new(alloc),
        }
    }

    /// One more domain links to this one. After want of memory the degrees are as before; an add that would pass the last
    /// `u64` is refused as want of memory.
    pub fn add(&mut self, pld: &[u8]) -> Result<(), AllocError>
        ensures ok { OnOk result (self.new ≡ map.insert self.old pld.now (degree_in self.old pld.now + 1)) }
        ensures err { OnErr result (self.new ≡ self.old) }
        ensures counts { (adds : List (List ℕ)) → Counts self.old adds →
            OnOk result (Counts self.new (adds ++ pld.now ∷ [])) }
    {
        let more = self.degree(pld).checked_add(1).ok_or(AllocError)?;
        let text = pld.to_vec(self.alloc)?;
        self.degrees.insert(text, more)?;
        Ok(())
    }

    /// How many of the adds were of this domain. It takes no memory.
    pub fn degree(&self, pld: &[u8]) -> u64
        ensures value { result ≡ degree_in self.now pld.now }
        ensures counts { (adds : List (List ℕ)) → Counts self.now adds → result ≡ degree_of adds pld.now }
    {
        self.degrees.get(pld).copied().unwrap_or(0)
    }

    /// The budgets that the settings give to the domains: the domains that were added rank by degree, the greatest first, and
    /// then by text; the first `ranks` of them have from `most` down to `base`, all others `base`.
    pub fn budgets(&self, settings: &Settings) -> Result<Budgets, AllocError>
        requires { AreValid settings.now }
        ensures { IfOk result (λ budgets. (adds : List (List ℕ)) → Counts self.now adds →
            (pld : List ℕ) → ⟦<Budgets as Purse>⟧.budgets budgets pld ≡ budget_of settings.now adds pld) }
    {
        let ranked = ranked(self.alloc, &self.degrees)?;
        let ranks = ranks_of(self.alloc, &ranked, settings.ranks)?;
        Ok(Budgets::new(settings, ranks))
    }
}
