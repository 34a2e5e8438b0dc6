ghost use Rattle.std.specs.Prelude.{◌≡◌, ◌<◌, None, IfOk, IfSome};
ghost use Rattle.irl_events.specs.Events.{Robots};
ghost use Rattle.irl_events.specs.Seen.{seen};
ghost use Rattle.irl_offer.specs.declared.note.Note.{Note as SeenNote};
ghost use Rattle.irl_log.specs.Noting.{FindsNote, IsNoteIn};

use crate::codec::read_payload;
use crate::log::Log;
use irl_disk::Store;
use irl_events::Event;
use irl_journal::JournalFault;
use irl_offer::Note;
use std::alloc::{AllocError, Global};

impl Log {
    /// The robots note whose record's gate stands at this place. Where no note's record stands there within the log's
    /// end, that place is damaged.
    pub fn note<S: Store>(
        &self,
        alloc: Global,
        store: &mut S,
        at: u64,
    ) -> Result<Note, JournalFault>
        requires { at < self.now.journal.end }
        ensures { FindsNote result self.now at (S.told store.old) (S.told store.new) }
    {
        let payload = self.journal.record(alloc, store, at)?;
        let Some(note) = read_note(alloc, self.buckets, &payload)? else {
            return Err(JournalFault::Damaged(at));
        };
        Ok(note)
    }
}

// The note that this is the payload of, if there is one.
fn read_note(alloc: Global, buckets: u32, payload: &[u8]) -> Result<Option<Note>, AllocError>
    ensures found { IfOk result (λ found. IfSome found (λ note. IsNoteIn buckets payload.now note)) }
    ensures none { IfOk result (λ found. found ≡ None → (note : SeenNote) → IsNoteIn buckets payload.now note → ⊥) }
{
    let Some(event) = read_payload(alloc, buckets, payload)? else {
        return Ok(None);
    };
    Ok(note_of(event))
}

// The note that an event brings, if it brings one.
fn note_of(event: Event) -> Option<Note>
    ensures found { IfSome result (λ note. seen event ≡ Robots note) }
    ensures none { result ≡ None → (note : SeenNote) → seen event ≡ Robots note → ⊥ }
{
    match event {
        Event::Robots(note) => Some(note),
        _ => None,
    }
}
