ghost use Rattle.std.specs.Prelude.{◌≡◌, ◌↔◌, ℕ, true};
ghost use Rattle.irl_events.specs.Events.{has_number};
ghost use Rattle.irl_frontier.specs.Frontier.{IsFrontier};
ghost use Rattle.irl_yard.specs.declared.parts.Rest.TheVariants.{Crawl as CrawlRest};
ghost use Rattle.irl_yard.specs.Holding.{IsSoundRest};

use irl_bay::Bay;
use irl_ledger::Ledger;

/// What an open store keeps in memory.
#[derive(Drop)]
pub struct Parts {
    pub(crate) urls: Bay,
    pub(crate) rest: Rest,
    // Whether the store failed in a call that the bay survived.
    pub(crate) has_failed: bool,
}

/// What it keeps beside the bay of URLs, by its kind.
#[derive(Drop)]
pub enum Rest {
    // A store of lines or of tuples has nothing else.
    Plain,
    Crawl(Ledger),
}

impl Rest {
    // Whether no call failed.
    pub(crate) fn is_sound(&self) -> bool
        ensures { (result ≡ true) ↔ IsSoundRest self.now }
    {
        match self {
            Rest::Plain => true,
            Rest::Crawl(ledger) => ledger.is_sound(),
        }
    }

    // A law: what the tables of a crawl keep. It does nothing.
    pub(crate) fn keeps(&self)
        ensures frontier { (ledger : Ledger) → self.now ≡ CrawlRest ledger → IsFrontier ledger.frontier }
        ensures begun { (ledger : Ledger) (n : ℕ) → self.now ≡ CrawlRest ledger →
            has_number ledger.frontier.progress.front n ≡ true → ledger.frontier.progress.begun ≡ true }
    {
        match self {
            Rest::Plain => {}
            Rest::Crawl(ledger) => {
                ledger.keeps();
                ledger.has_begun();
            }
        }
    }
}
