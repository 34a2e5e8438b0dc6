ghost use Rattle.std.specs.Prelude.{◌≡◌, ◌↔◌, Some, IfErr};
ghost use Rattle.irl_offer.specs.Offering.{IsTakenBy, entries_after, fault_after};
ghost use Rattle.irl_offer.specs.Tuple.{Tuple};
ghost use Rattle.irl_key.specs.Links.{IsCanonicalText};
ghost use Rattle.irl_lock.specs.Seated.{GoesOn, free_prop, goes_on_both, goes_on_none, own_prop};
ghost use Rattle.irl_lock.specs.Sharing.{IsFree, IsOf, OffersOne, entries_in, opening_of};

use crate::pass::Pass;
use crate::shared::Shared;
use irl_disk::Store;
use irl_offer::{Fault, Offer, Offers, Receipt};
use std::sync::Wait;

/// A pass beside the store that it is one of: where a fetcher puts what it found.
#[derive(Drop)]
pub struct Seated<'a, S: Store> {
    pass: Pass<S>,
    shared: &'a Shared<S>,
    ghost own: { IsOf shared.now pass } by { own_prop pass-code pass shared.now },
    ghost free: { IsFree pass } by { free_prop pass-code pass },
}

impl<'a, S: Store> Seated<'a, S> {
    /// A pass that holds no turn, at its store.
    pub fn new(pass: Pass<S>, shared: &'a Shared<S>) -> Seated<'a, S>
        requires own { IsOf shared.now pass }
        requires free { IsFree pass }
        ensures pass { result.pass ≡ pass }
        ensures shared { result.shared.now ≡ shared.now }
    {
        Seated { pass, shared }
    }

    /// The pass, which holds no turn.
    pub fn into_pass(self) -> Pass<S>
        ensures pass { result ≡ self.entry.pass }
        ensures own { IsOf self.entry.shared.now result }
        ensures free { IsFree result }
    {
        let Seated { pass, shared: _ } = self;
        pass
    }

    /// The last fault but want of memory that was answered, if there was one.
    pub fn last_fault(&self) -> Option<Fault>
        ensures { result ≡ self.now.pass.last }
    {
        self.pass.last_fault()
    }
}

impl<'a, S: Store> Offers for Seated<'a, S> {
    ghost entries = { λ seated. Some (entries_in seated.pass) };

    ghost last_fault = { λ seated. seated.pass.last };

    ghost takes = { λ seated. IsTakenBy IsCanonicalText (opening_of seated.shared.now).parts.urls.settings.kind };

    ghost follows = { λ old new. GoesOn old.shared.now new.shared.now old.pass new.pass };

    fn offer<R: Wait>(&mut self, rt: &R, offer: Offer) -> Result<Receipt, (Fault, Offer)>
        requires { IsTakenBy IsCanonicalText (opening_of self.old.shared.now).parts.urls.settings.kind offer }
        ensures offers { OffersOne result offer self.old.pass self.new.pass }
        ensures entries { Some (entries_in self.new.pass)
            ≡ entries_after result offer (Some (entries_in self.old.pass)) }
        ensures back { IfErr result (λ refusal. refusal.1 ≡ offer) }
        ensures fault { self.new.pass.last ≡ fault_after result self.old.pass.last }
        ensures takes { (one : Tuple) →
            IsTakenBy IsCanonicalText (opening_of self.new.shared.now).parts.urls.settings.kind one
            ↔ IsTakenBy IsCanonicalText (opening_of self.old.shared.now).parts.urls.settings.kind one }
        ensures follows { GoesOn self.old.shared.now self.new.shared.now self.old.pass self.new.pass }
    {
        self.pass.offer(rt, self.shared, offer)
    }

    ghost follows_none = { λ x. goes_on_none x.shared.now x.pass };

    ghost follows_both = { λ x y z. goes_on_both x.shared.now y.shared.now z.shared.now x.pass y.pass z.pass };
}
