//! The last robots note of a host.

ghost use Rattle.std.specs.Prelude.{◌≡◌, IsErrOf};
ghost use Rattle.irl_base.specs.declared.fault.Fault.TheVariants.{Failed as FailedFault};
ghost use Rattle.irl_yard.specs.Holding.{IsSound, StaysSound};
ghost use Rattle.irl_yard.specs.Noting.{MayReadNoteIn, ReadsLastNote, ReadsNoteIn};

use crate::parts::Rest;
use crate::yard::{Yard, is_failure};
use irl_disk::Store;
use irl_offer::{Fault, Note};
use std::alloc::Global;

impl<S: Store> Yard<S> {
    /// The last note of a host, where it is in use at this moment. None comes exactly where the host has no note or its last one
    /// isn't in use at the moment. It changes nothing; `Failed` ends the soundness.
    pub fn robots(&mut self, alloc: Global, host: &[u8], moment: u64) -> Result<Option<Note>, Fault>
        requires sound { IsSound self.old.parts }
        ensures note { ReadsLastNote result host.now moment self.old.parts self.new.parts
            (S.told self.old.store) (S.told self.new.store) }
        ensures goes_on { StaysSound (IsErrOf result Fault.Failed) self.new.parts }
    {
        let _is_sound = self.parts.urls.is_sound();
        let note = self.parts.rest.robots(alloc, &mut self.store, host, moment);
        self.parts.has_failed = is_failure(&note);
        note
    }
}

impl Rest {
    // The last note of a host: none without a crawl.
    fn robots<S: Store>(
        &self,
        alloc: Global,
        store: &mut S,
        host: &[u8],
        moment: u64,
    ) -> Result<Option<Note>, Fault>
        requires { MayReadNoteIn self.now host.now }
        ensures { ReadsNoteIn result host.now moment self.now (S.told store.old) (S.told store.new) }
    {
        match self {
            Rest::Plain => Ok(None),
            Rest::Crawl(ledger) => ledger.robots(alloc, store, host, moment),
        }
    }
}
