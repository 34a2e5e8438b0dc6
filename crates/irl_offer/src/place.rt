ghost use Rattle.std.specs.Prelude.{◌≡◌, ◌≤◌, ℕ, List};
ghost use Rattle.irl_offer.specs.Purses.{Budget};

/// Who gives each domain a budget of pages.
pub trait Purse {
    /// The budget of each domain, by its text.
    ghost budgets: { Self → Budget };

    /// How many pages of a domain one pass lets through: at least 1. It takes no memory.
    fn budget(&self, pld: &[u8]) -> u32
        ensures { result ≡ budgets self.now pld.now };

    /// Each budget is at least 1.
    ghost is_positive: { (purse : Self) (pld : List ℕ) → 1 ≤ budgets purse pld };
}

/// Where a URL waits.
#[derive(Clone, Copy, Debug, PartialEq, Eq)]
pub enum Slot {
    /// It is to be fetched next.
    Front,
    /// It waits in the queue of this number, from 1.
    Queue(u32),
    /// It waits behind all queues, till the round ends.
    Last,
}

/// A URL, by its number, and where it waits.
#[derive(Clone, Copy, Debug, PartialEq, Eq)]
pub struct Place {
    pub number: u64,
    pub slot: Slot,
}
