ghost use Rattle.std.specs.Prelude.{◌≡◌, ◌≤◌, ℕ, List, Some, length};
ghost use Rattle.irl_offer.specs.declared.note.NoteState.{NoteState};
ghost use Rattle.irl_offer.specs.declared.reply.Answer.{Answer};
ghost use Rattle.irl_answer.specs.Notes.{note_of, requests_of};

/// A chain of answers that says something of a robots file is short: five redirects are followed, and a sixth isn't.
/// Each answer was given to one request.
pub fn chains_are_short()
    ensures short { (host : List ℕ) (answers : List Answer) (state : NoteState)
        → note_of host answers ≡ Some state → length answers ≤ 6 }
    ensures asked { (host : List ℕ) (answers : List Answer) (state : NoteState)
        → note_of host answers ≡ Some state → length (requests_of host answers) ≡ length answers }
{}
