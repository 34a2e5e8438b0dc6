//! URLs that are settled.

ghost use Rattle.std.specs.Prelude.{◌≡◌, ◌<◌, true, length, IfOk};
ghost use Rattle.std.specs.List.{AllByRecursion};
ghost use Rattle.std.specs.Option.{ForSome};
ghost use Rattle.irl_events.specs.Events.{Settle as SeenSettle};
ghost use Rattle.irl_bay.specs.Drum.{IsDrum, durables};
ghost use Rattle.irl_frontier.specs.Frontier.{after_other};
ghost use Rattle.irl_log.specs.Form.{IsDone, IsOutcome, IsWord};
ghost use Rattle.irl_ledger.specs.Adding.{AddsToLog};
ghost use Rattle.irl_ledger.specs.Holding.{FitsBays};
ghost use Rattle.irl_ledger.specs.Settling.{MaySettle, outcomes_of};

use crate::Ledger;
use irl_bay::Bay;
use irl_disk::Store;
use irl_events::{Event, Numbers, Settled};
use irl_offer::{Done, Fault, Outcome};
use std::alloc::{AllocError, Global};

impl Ledger {
    /// Settles URLs of the front, the offers of whose links are flushed: one event, with what came of each and with how
    /// many offers each bucket of the URLs has. Want of memory changes nothing; `Failed` ends the log's soundness.
    pub fn settle<S: Store>(
        &mut self,
        store: &mut S,
        urls: &Bay,
        done: &[Done],
    ) -> Result<(), Fault>
        requires sound { self.old.log.journal.is_sound ≡ true }
        requires place { ForSome (S.told store.old).files (λ files.
            self.old.log.journal.end < length (files self.old.log.journal.file)) }
        // What holds of every open ledger beside its bay of URLs.
        requires drum { IsDrum urls.now }
        requires buckets { self.old.log.buckets ≡ urls.now.settings.buckets }
        requires fits { FitsBays urls.now self.old.pairs self.old.frontier }
        requires settles { MaySettle urls.now self.old done.now }
        ensures { AddsToLog S.told result (SeenSettle (durables urls.now) (outcomes_of done.now))
            (after_other self.old.frontier (SeenSettle (durables urls.now) (outcomes_of done.now)))
            self.old.suffixes self.old self.new store.old store.new }
    {
        self.keeps();
        self.has_begun();
        let fronts = fronts_of(self.alloc, urls)?;
        let done = settled(self.alloc, done)?;
        self.add(store, Event::Settle { fronts, done })
    }
}

// How many offers each bucket has.
fn fronts_of(alloc: Global, urls: &Bay) -> Result<Numbers, AllocError>
    requires { IsDrum urls.now }
    ensures value { IfOk result (λ fronts. fronts ≡ durables urls.now) }
    ensures words { IfOk result (λ fronts. AllByRecursion IsWord fronts) }
{
    let mut fronts = Numbers::new(alloc);
    for b in 0..urls.settings().buckets {
        fronts.push(urls.durable(b))?;
    }
    Ok(fronts)
}

// What came of each.
fn settled(alloc: Global, done: &[Done]) -> Result<Settled, AllocError>
    ensures value { IfOk result (λ settled. settled ≡ outcomes_of done.now) }
    ensures form { IfOk result (λ settled. AllByRecursion IsDone settled) }
{
    let mut settled = Settled::new(alloc);
    for one in done {
        settled.push(outcome_of(one.number, one.outcome))?;
    }
    Ok(settled)
}

// What came of a URL, by its number.
fn outcome_of(number: u64, outcome: Outcome) -> (u64, Outcome)
    ensures value { result ≡ (number, outcome) }
    ensures form { IsDone result }
{
    outcome_fits(outcome);
    (number, outcome)
}

// A status has 16 bits, and the line of a rule 32, which an outcome alone doesn't tell.
fn outcome_fits(outcome: Outcome)
    ensures { IsOutcome outcome }
{
    match outcome {
        Outcome::Status(_status) => {}
        Outcome::Denied(_line) => {}
        _ => {}
    }
}
