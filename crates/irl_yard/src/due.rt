//! How far a crawl has come: what may be asked of it now.

ghost use Rattle.std.specs.Prelude.{◌≡◌, ◌↔◌, ℕ, List, true, false};
ghost use Rattle.irl_fate.specs.declared.fate.Fate.TheVariants.{Front as FrontFate};
ghost use Rattle.irl_events.specs.Events.{has_number};
ghost use Rattle.irl_log.specs.Form.{IsSuffixText};
ghost use Rattle.irl_offer.specs.declared.settings.Kind.TheVariants.{Crawl as CrawlKind};
ghost use Rattle.irl_ledger.specs.declared.ledger.Ledger.{Ledger};
ghost use Rattle.irl_yard.specs.declared.parts.Rest.TheVariants.{Crawl as CrawlRest};
ghost use Rattle.irl_yard.specs.Adding.{MayBegin};
ghost use Rattle.irl_yard.specs.Holding.{HasLedger};
ghost use Rattle.irl_yard.specs.Passing.{MayPass, front_in};
ghost use Rattle.irl_yard.specs.Sending.{HasBegun};

use crate::parts::Rest;
use crate::yard::Yard;
use irl_disk::Store;
use irl_frontier::Fate;

impl<S: Store> Yard<S> {
    /// Whether it is a crawl that has begun. It takes no memory.
    pub fn has_begun(&self) -> bool
        ensures value { (result ≡ true) ↔ HasBegun self.now.parts.rest }
        ensures begins { result ≡ false → self.now.parts.urls.settings.kind ≡ CrawlKind → (suffixes : List ℕ) →
            IsSuffixText suffixes → MayBegin self.now.parts.rest suffixes }
    {
        self.suffixes().is_some()
    }

    /// A law: a store of a crawl keeps one in memory beside its URLs. It does nothing.
    pub fn has_ledger(&self)
        ensures { self.now.parts.urls.settings.kind ≡ CrawlKind → HasLedger self.now.parts.rest }
    {}

    /// Whether it is a crawl that a pass is due in: one that has begun, the pairs of whose cuts are all sent, and that
    /// has nothing left in front. It takes no memory.
    pub fn is_pass_due(&self) -> bool
        ensures { (result ≡ true) ↔ MayPass self.now.parts.urls self.now.parts.rest }
    {
        self.has_begun() && self.sent_cuts() == self.cuts() && self.front_len() == 0
    }

    /// Whether a URL is in front, by its number. It takes no memory.
    pub fn is_in_front(&self, number: u64) -> bool
        ensures { (result ≡ true) ↔ (has_number (front_in self.now.parts.rest) number ≡ true) }
    {
        matches!(self.fate(number), Fate::Front)
    }

    // Of how many cuts the pairs are sent.
    fn sent_cuts(&self) -> u64
        ensures { (ledger : Ledger) → self.now.parts.rest ≡ CrawlRest ledger →
            result ≡ ledger.frontier.progress.cuts }
    {
        match &self.parts.rest {
            Rest::Plain => 0,
            Rest::Crawl(ledger) => ledger.sent_cuts(),
        }
    }
}
