ghost use Rattle.std.specs.Prelude.{◌≡◌, ◌<◌, ◌≤◌, ℕ, List, Some, length};
ghost use Rattle.irl_base.specs.Limits.{max_robots, max_text};
ghost use Rattle.irl_key.specs.Web.{IsHost};
ghost use Rattle.irl_offer.specs.declared.note.NoteState.TheVariants.{Rules};
ghost use Rattle.irl_offer.specs.declared.reply.Answer.{Answer};
ghost use Rattle.irl_answer.specs.Notes.{note_of};

/// What is noted of a robots file fits a crawl's log: its host has some bytes and no more than a text may have, and of
/// the file's text no more is kept than of a robots file.
pub fn notes_are_short()
    ensures host { (host : List ℕ) → IsHost host → 0 < length host }
    ensures short { (host : List ℕ) → IsHost host → length host ≤ max_text }
    ensures text { (host : List ℕ) (answers : List Answer) (text : List ℕ)
        → note_of host answers ≡ Some (Rules text) → length text ≤ max_robots }
{}
