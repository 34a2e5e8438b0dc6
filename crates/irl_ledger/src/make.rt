//! Making what a new store of a crawl has beside its URLs.

ghost use Rattle.std.specs.Prelude.{◌≡◌};
ghost use Rattle.std.specs.Option.{ForSome};
ghost use Rattle.irl_offer.specs.Settings.{AreValid};
ghost use Rattle.irl_ledger.specs.Crawling.{pair_settings as settings_of_pairs};
ghost use Rattle.irl_ledger.specs.Making.{IsUnmadeCrawl, MakesLedger};

use crate::Ledger;
use crate::notes::Notes;
use irl_bay::Bay;
use irl_disk::Store;
use irl_frontier::Frontier;
use irl_head::{CRAWL, PAIRS_BASE};
use irl_log::Log;
use irl_offer::{Fault, Rule, Settings};
use std::alloc::Global;

impl Ledger {
    /// Makes the files of a crawl without pairs and events: the closed gate of each journal of the bay of pairs, and that of
    /// the log, each written and synced. Want of memory comes before anything is written.
    pub fn make<S: Store>(
        alloc: Global,
        store: &mut S,
        settings: &Settings,
    ) -> Result<Ledger, Fault>
        requires settings { AreValid settings.now }
        requires unmade { ForSome (S.told store.old).files (IsUnmadeCrawl settings.now.buckets) }
        ensures { MakesLedger result settings.now store.old store.new (S.told store.old) (S.told store.new) }
    {
        let frontier = Frontier::new(alloc, settings)?;
        let pairs = Bay::make(alloc, store, PAIRS_BASE, &pair_settings(settings))?;
        let log = Log::make(store, CRAWL, settings.buckets)?;
        Ok(Ledger {
            alloc,
            pairs,
            log,
            frontier,
            suffixes: None,
            notes: Notes::new(alloc),
        })
    }
}

// The settings of the bay of pairs.
pub(crate) fn pair_settings(settings: &Settings) -> Settings
    ensures { result ≡ settings_of_pairs settings.now }
{
    Settings {
        rule: Rule::Keep,
        ..*settings
    }
}
