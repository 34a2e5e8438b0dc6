ghost use Rattle.std.specs.Prelude.{◌≡◌, ◌↔◌, List, Option, IfErr};
ghost use Rattle.irl_base.specs.declared.fault.Fault.{Fault as FaultValue};
ghost use Rattle.irl_offer.specs.Tuple.{Tuple};
ghost use Rattle.irl_offer.specs.Offering.{Entered, entries_after, fault_after};

use crate::{Offer, Receipt};
use irl_base::Fault;
use std::sync::Wait;

/// Where a fetcher puts what it found: the way into a store that other fetchers may use at the same time.
pub trait Offers {
    /// Where they are told: the receipts that were given, in order, each with the offer that was handed in.
    ghost entries: { Self → Option (List Entered) };

    /// The last fault but want of memory that was answered, if there was one.
    ghost last_fault: { Self → Option FaultValue };

    /// Which offers are taken, as `IsTakenBy` says for the store's kind. They stay the same.
    ghost takes: { Self → Tuple → Type 0 };

    /// Which values calls make of one. Who is generic over offers hands it on, and so tells a caller who knows them all that
    /// the calls did.
    ghost follows: { Self → Self → Type 0 };

    /// Puts an offer into the store, and answers where it stands. A refusal hands it back, and nothing was put in. It may
    /// wait for other fetchers.
    fn offer<R: Wait>(&mut self, rt: &R, offer: Offer) -> Result<Receipt, (Fault, Offer)>
        requires { takes self.old offer }
        ensures entries { entries self.new ≡ entries_after result offer (entries self.old) }
        ensures back { IfErr result (λ refusal. refusal.1 ≡ offer) }
        ensures fault { last_fault self.new ≡ fault_after result (last_fault self.old) }
        ensures takes { (one : Tuple) → takes self.new one ↔ takes self.old one }
        ensures follows { follows self.old self.new };

    /// It is so of no call.
    ghost follows_none: { (x : Self) → follows x x };

    /// It is so of some calls behind others.
    ghost follows_both: { (x y z : Self) → follows x y → follows y z → follows x z };
}
