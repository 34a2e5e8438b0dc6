//! Reading the log of a crawl, before the bays are opened.

ghost use Rattle.std.specs.Prelude.{◌≡◌, ℕ, List};
ghost use Rattle.irl_offer.specs.declared.settings.Settings.{Settings as SettingsValue};
ghost use Rattle.irl_events.specs.Events.{Happened};
ghost use Rattle.irl_events.specs.Legal.{AreLegal};
ghost use Rattle.irl_disk.specs.Disk.{Files};
ghost use Rattle.irl_head.specs.StoreFiles.{crawl_file};
ghost use Rattle.irl_log.specs.Log.{HasEvents};
ghost use Rattle.irl_ledger.specs.Crawling.{events_of};
ghost use Rattle.irl_ledger.specs.Damage.{IsLogDamagedAt, ReadsLog, fault_of_log};

use crate::history::History;
use irl_disk::Store;
use irl_head::CRAWL;
use irl_journal::JournalFault;
use irl_log::Log;
use irl_offer::{Fault, Settings};
use std::alloc::Global;

impl History {
    /// Opens the log of a crawl with these settings, and takes its events. `Damaged` names the first place that its journal, the
    /// form of its records or its events by themselves show. No file changes but a log of at most one byte, which becomes an
    /// empty one.
    pub fn read<S: Store>(
        alloc: Global,
        store: &mut S,
        settings: &Settings,
    ) -> Result<(Log, History), Fault>
        ensures { ReadsLog result settings.now (S.told store.old) (S.told store.new) }
    {
        let mut history = History::blank(alloc, settings.buckets)?;
        match Log::visit(alloc, store, CRAWL, settings.buckets, &mut history) {
            Ok(log) => Ok((log, history)),
            Err(fault) => Err(log_fault(fault)),
        }
    }
}

// What the log was refused with.
pub(crate) fn log_fault(fault: JournalFault) -> Fault
    ensures { result ≡ fault_of_log fault }
{
    match fault {
        JournalFault::Failed => Fault::Failed,
        JournalFault::Memory => Fault::Memory,
        JournalFault::Damaged(at) => Fault::Damaged(CRAWL, at),
    }
}

/// A law: the log of a crawl whose events keep the rules isn't damaged by itself, at any place.
pub fn a_legal_log_is_whole()
    ensures { (settings : SettingsValue) (events : List Happened) (files : Files) (f at : ℕ) →
        AreLegal settings.queues settings.buckets events →
        HasEvents settings.buckets (files crawl_file) (events_of events) → IsLogDamagedAt settings files f at → ⊥ }
{}
