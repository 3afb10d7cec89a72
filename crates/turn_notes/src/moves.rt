ghost use Rattle.std.specs.Prelude.{◌≡◌};
ghost use Rattle.turn_notes.specs.Notes.{has_moved as moves};

use trace_text::Note;

/// Whether a turn with this note moved anything; one that waits, or has nothing left to do, did not.
pub fn has_moved(note: &Note) -> bool
    ensures { result ≡ moves note.now }
{
    match note {
        Note::Off
        | Note::Waits { .. }
        | Note::Finished
        | Note::Stopped
        | Note::Nothing { .. }
        | Note::Order { .. }
        | Note::Retries { .. } => false,
        Note::Step
        | Note::Done
        | Note::Deadlock { .. }
        | Note::Duplicate
        | Note::Victim
        | Note::Begin
        | Note::Start
        | Note::Commit { .. }
        | Note::CommitNone
        | Note::CommitLocal
        | Note::Rollback
        | Note::Take { .. }
        | Note::Clear { .. }
        | Note::Choose { .. }
        | Note::Master { .. } => true,
    }
}
