//! The pairs of the links that judged URLs show, which a crawl sends to its bay of pairs.

ghost use Rattle.std.specs.Prelude.{◌≡◌, ◌<◌, ℕ, OnOk, IsErrOf};
ghost use Rattle.irl_base.specs.declared.fault.Fault.TheVariants.{Failed as FailedFault};
ghost use Rattle.irl_yard.specs.Holding.{IsSound, StaysSound};
ghost use Rattle.irl_yard.specs.Sending.{HasBegun, HasToldAll, LogsPairs, OffersState, SendsPairs, StaysSent, TellsState, counted_behind};

use crate::parts::Rest;
use crate::yard::{Yard, is_failure};
use irl_disk::Store;
use irl_offer::Fault;

impl<S: Store> Yard<S> {
    /// Sends the pairs of domains that the judged URLs link: each new link is offered to the bay of pairs, all that it
    /// has is judged and told to the tables, and one event says that the pairs of all cuts are sent, where none said so
    /// before. After want of memory, damage or a full bucket some pairs may be sent, and no event was added; a later call
    /// offers all new links again. A bucket of pairs is named by its number and 64. `Failed` ends the soundness.
    pub fn send_pairs(&mut self) -> Result<(), Fault>
        requires sound { IsSound self.old.parts }
        requires begun { HasBegun self.old.parts.rest }
        ensures sends { SendsPairs result self.old.parts self.new.parts
            (S.told self.old.store) (S.told self.new.store) }
        // Where the pairs of all cuts are sent and none is pending, the state stays.
        ensures idle { StaysSent result self.old.parts self.new.parts
            (S.told self.old.store) (S.told self.new.store) }
        ensures goes_on { StaysSound (IsErrOf result Fault.Failed) self.new.parts }
    {
        self.offer_pairs()?;
        self.tell_pairs()?;
        self.log_pairs()
    }

    // Offers the bay of pairs the links of the URLs that were judged since pairs were last sent, each once and in
    // order, and judges all that it has then. `Failed` ends the soundness.
    fn offer_pairs(&mut self) -> Result<(), Fault>
        requires sound { IsSound self.old.parts }
        requires begun { HasBegun self.old.parts.rest }
        ensures offers { OffersState result self.old.parts self.new.parts
            (S.told self.old.store) (S.told self.new.store) }
        ensures begun { HasBegun self.new.parts.rest }
        ensures goes_on { StaysSound (IsErrOf result Fault.Failed) self.new.parts }
    {
        let _is_sound = self.parts.urls.is_sound();
        let offered = match &mut self.parts.rest {
            Rest::Plain => unreachable!(),
            Rest::Crawl(ledger) => ledger.offer_pairs(&mut self.store, &self.parts.urls),
        };
        self.parts.has_failed = is_failure(&offered);
        of_pairs(offered)
    }

    // Tells the tables the judged pairs that they weren't told yet. It changes no file; `Failed` ends the soundness.
    fn tell_pairs(&mut self) -> Result<(), Fault>
        requires sound { IsSound self.old.parts }
        requires begun { HasBegun self.old.parts.rest }
        ensures tells { TellsState result self.old.parts self.new.parts
            (S.told self.old.store) (S.told self.new.store) }
        ensures begun { HasBegun self.new.parts.rest }
        ensures all { OnOk result (HasToldAll self.new.parts.rest) }
        ensures goes_on { StaysSound (IsErrOf result Fault.Failed) self.new.parts }
    {
        let _is_sound = self.parts.urls.is_sound();
        let told = match &mut self.parts.rest {
            Rest::Plain => unreachable!(),
            Rest::Crawl(ledger) => ledger.tell_pairs(&mut self.store),
        };
        self.parts.has_failed = is_failure(&told);
        told
    }

    // Adds the event that the pairs of all cuts are sent, where none said so before. Want of memory changes nothing;
    // `Failed` ends the soundness.
    fn log_pairs(&mut self) -> Result<(), Fault>
        requires sound { IsSound self.old.parts }
        requires begun { HasBegun self.old.parts.rest }
        requires told { HasToldAll self.old.parts.rest }
        ensures logs { LogsPairs S.told result self.old.parts self.new.parts self.old.store self.new.store }
        ensures begun { HasBegun self.new.parts.rest }
        ensures goes_on { StaysSound (IsErrOf result Fault.Failed) self.new.parts }
    {
        let _is_sound = self.parts.urls.is_sound();
        match &mut self.parts.rest {
            Rest::Plain => unreachable!(),
            Rest::Crawl(ledger) => ledger.log_pairs(&mut self.store, &self.parts.urls),
        }
    }
}

// An answer of the bay of pairs, whose buckets are counted behind those of the URLs.
fn of_pairs(answer: Result<(), Fault>) -> Result<(), Fault>
    requires { (n : ℕ) → IsErrOf answer (Fault.Full n) → n < 64 }
    ensures { result ≡ counted_behind answer }
{
    match answer {
        Err(Fault::Full(b)) => Err(Fault::Full(64 + b)),
        other => other,
    }
}
