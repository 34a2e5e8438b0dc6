ghost use Rattle.std.specs.Prelude.{◌≡◌, ◌↔◌, [], None, Some, map, refl, IfErr};
ghost use Rattle.irl_offer.specs.Offering.{IsTakenBy, entries_after, fault_after, fault_or};
ghost use Rattle.irl_offer.specs.Tuple.{Tuple};
ghost use Rattle.irl_key.specs.Links.{IsCanonicalText};
ghost use Rattle.irl_desk.specs.Serving.{serving_of, entered_by, Follows, Serves};
ghost use Rattle.irl_desk.specs.ServingLaws.{both_follow};

use crate::desk::{Desk, Taken};
use crate::stepping::make_room;
use irl_disk::Store;
use irl_offer::{Fault, Offer, Offers, Receipt, bucket_of};
use std::snapshot::Snapshot;
use std::sync::Wait;

impl<S: Store> Offers for Desk<S> {
    ghost entries = { λ desk. Some (map (λ taken. record { receipt = taken.value.receipt; offer = taken.value.offer })
        desk.entries.items) };

    ghost last_fault = { λ desk. desk.last };

    ghost takes = { λ desk. IsTakenBy IsCanonicalText desk.intake.yard.parts.urls.settings.kind };

    ghost follows = { λ old new. Follows S.told (serving_of old) (serving_of new) };

    /// It waits for nobody.
    fn offer<R: Wait>(&mut self, _rt: &R, offer: Offer) -> Result<Receipt, (Fault, Offer)>
        requires { IsTakenBy IsCanonicalText self.old.intake.yard.parts.urls.settings.kind offer }
        ensures serves { Serves S.told (entered_by result offer) (serving_of self.old) (serving_of self.new) }
        ensures entries { Some (serving_of self.new).entries
            ≡ entries_after result offer (Some (serving_of self.old).entries) }
        ensures back { IfErr result (λ refusal. refusal.1 ≡ offer) }
        ensures fault { self.new.last ≡ fault_after result self.old.last }
        ensures takes { (one : Tuple) →
            IsTakenBy IsCanonicalText self.new.intake.yard.parts.urls.settings.kind one
            ↔ IsTakenBy IsCanonicalText self.old.intake.yard.parts.urls.settings.kind one }
        ensures follows { Follows S.told (serving_of self.old) (serving_of self.new) }
    {
        if let Some(fault) = self.last {
            return Err((fault, offer));
        }
        let b = bucket_of(offer.key, self.intake.settings().buckets);
        let number = match make_room(&mut self.intake, b) {
            Ok(number) => number,
            Err(fault) => {
                self.last = kept(fault);
                return Err((fault, offer));
            }
        };
        let taken = Taken {
            receipt: Receipt { bucket: b, number },
            offer,
        };
        let was_noted = self.entries.push(Snapshot::of(&taken));
        let Taken { receipt, offer } = taken;
        if was_noted.is_err() {
            return Err((Fault::Memory, offer));
        }
        self.intake.push(offer);
        Ok(receipt)
    }

    ghost follows_none = { λ _. ([], refl) };

    ghost follows_both = { λ old mid new. both_follow S.told (serving_of old) (serving_of mid) (serving_of new) };
}

// A fault, where it is answered again: want of memory isn't.
fn kept(fault: Fault) -> Option<Fault>
    ensures { result ≡ fault_or None fault }
{
    match fault {
        Fault::Memory => None,
        Fault::Failed | Fault::Full(_) | Fault::Damaged(_, _) => Some(fault),
    }
}
