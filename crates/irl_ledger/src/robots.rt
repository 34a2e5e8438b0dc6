//! The last robots note of a host.

ghost use Rattle.std.specs.FinMap.{get};
ghost use Rattle.std.specs.Prelude.{Some};
ghost use Rattle.irl_ledger.specs.Noting.{IsUsedOf, MayReadNote, ReadsNote};

use crate::Ledger;
use crate::read_log::log_fault;
use irl_disk::Store;
use irl_offer::{Fault, Note};
use std::alloc::Global;

impl Ledger {
    /// The last note of a host, where it is in use at this moment. None comes exactly where the host has no note or its last one
    /// isn't in use. It changes nothing. `Damaged` names the place of the note where no note's record stands there.
    pub fn robots<S: Store>(
        &self,
        alloc: Global,
        store: &mut S,
        host: &[u8],
        moment: u64,
    ) -> Result<Option<Note>, Fault>
        requires { MayReadNote self.now.log (get self.now.notes host.now) }
        ensures { ReadsNote result host.now moment self.now.log self.now.notes (S.told store.old) (S.told store.new) }
    {
        let Some(at) = self.notes.place(host) else {
            return Ok(None);
        };
        match self.log.note(alloc, store, at) {
            Ok(note) => Ok(used_at(note, moment)),
            Err(fault) => Err(log_fault(fault)),
        }
    }
}

// A note where it is in use at this moment.
fn used_at(note: Note, moment: u64) -> Option<Note>
    ensures { IsUsedOf moment (Some note) result }
{
    if !note.is_in_use(moment) {
        return None;
    }
    Some(note)
}
