ghost use Rattle.std.specs.Prelude.{◌≡◌, ◌≤◌, List, ℕ};
ghost use Rattle.std.specs.Option.{option_map_or};

use irl_offer::{Purse, Settings};
use std::collections::BTreeMap;

/// What each domain has to spend: how many of its pages one pass lets through.
#[derive(Drop)]
pub struct Budgets {
    base: u32,
    most: u32,
    ranks: u32,
    // The domains that rank before `ranks`, each with its rank.
    rank_of: BTreeMap<Vec<u8>, u32>,
    ghost base_in_range: { (1 ≤ base) × (base ≤ most) },
    ghost most_in_range: { most ≤ 1000000 },
    ghost ranks_in_range: { (1 ≤ ranks) × (ranks ≤ 1000000) },
}

impl Budgets {
    ghost use Rattle.irl_offer.specs.Settings.{AreValid};
    ghost use Rattle.irl_star.specs.Budgets.{budget_at};
    ghost use Rattle.irl_star.specs.Ranks.{rank_in};

    /// The budgets by these ranks of domains.
    pub(crate) fn new(settings: &Settings, rank_of: BTreeMap<Vec<u8>, u32>) -> Budgets
        requires { AreValid settings.now }
        ensures { (pld : List ℕ) → ⟦<Budgets as Purse>⟧.budgets result pld
            ≡ option_map_or (budget_at settings.now.base settings.now.most settings.now.ranks)
            (rank_in rank_of pld) settings.now.base }
    {
        Budgets {
            base: settings.base,
            most: settings.most,
            ranks: settings.ranks,
            rank_of,
        }
    }

    // The budget at a rank.
    fn at_rank(&self, rank: u32) -> u32
        ensures { result ≡ budget_at self.now.base self.now.most self.now.ranks rank }
    {
        let spread = u64::from(self.most - self.base);
        let left = u64::from(self.ranks.saturating_sub(rank));
        self.base + (spread * left / u64::from(self.ranks)) as u32
    }
}

impl Purse for Budgets {
    ghost use Rattle.irl_star.specs.Budgets.{budget_at};
    ghost use Rattle.irl_star.specs.Ranks.{rank_in, budget-positive};

    ghost budgets = { λ b pld. option_map_or (budget_at b.base b.most b.ranks) (rank_in b.rank_of pld) b.base };

    ghost is_positive = { λ b pld. budget-positive b.base b.most b.ranks (rank_in b.rank_of pld) b.base_in_range.0 };

    fn budget(&self, pld: &[u8]) -> u32 {
        match self.rank_of.get(pld) {
            Some(rank) => self.at_rank(*rank),
            None => self.base,
        }
    }
}
