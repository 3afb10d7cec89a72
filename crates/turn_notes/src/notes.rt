ghost use Rattle.std.specs.Prelude.{◌≡◌, ◌≤◌, ◌+◌, [], length, vec_len, vec_capacity};
ghost use Rattle.turn_notes.specs.Notes.{visit_note as the_visit_note, commit_note as the_commit_note, session_note as the_session_note, tool_note as the_tool_note, applier_note as the_applier_note, cycle_of, session_cycle, tool_cycle, applier_cycle};

use crate::actors::{Place, actor_at, actors_at};
use applier::Turn;
use checksum_tool::ToolTurn;
use node_engine::Visit;
use session::SessionTurn;
use trace_text::Note;
use workload::Actor;

fn visit_note(place: Place, visit: Visit, spare: Vec<Actor>) -> Note
    requires empty { spare.items ≡ [] }
    requires room { vec_len spare + length (cycle_of visit) ≤ vec_capacity spare }
    ensures { result ≡ the_visit_note place visit }
{
    match visit {
        Visit::Stepped => Note::Step,
        Visit::Done => Note::Done,
        Visit::Duplicate { .. } => Note::Duplicate,
        Visit::Waits { by } => Note::Waits {
            by: actor_at(place, by),
        },
        Visit::Deadlock { victim, cycle } => Note::Deadlock {
            victim: actor_at(place, victim),
            cycle: actors_at(place, cycle.as_slice(), spare),
        },
    }
}

fn commit_note(place: Place, position: Option<u64>) -> Note
    ensures { result ≡ the_commit_note place position }
{
    match place {
        Place::Source => match position {
            Some(position) => Note::Commit { position },
            None => Note::CommitNone,
        },
        Place::Replica(_) => Note::CommitLocal,
    }
}

/// The note of a session's turn on a node. `spare` is empty, with capacity for the actors of a cycle.
pub fn session_note(place: Place, turn: SessionTurn, spare: Vec<Actor>) -> Note
    requires empty { spare.items ≡ [] }
    requires room { vec_len spare + length (session_cycle turn) ≤ vec_capacity spare }
    ensures { result ≡ the_session_note place turn }
{
    match turn {
        SessionTurn::Began => Note::Begin,
        SessionTurn::Started => Note::Start,
        SessionTurn::Visited(visit) => visit_note(place, visit, spare),
        SessionTurn::Committed { position } => commit_note(place, position),
        SessionTurn::RolledBack => Note::Rollback,
        SessionTurn::Victim => Note::Victim,
        SessionTurn::Finished => Note::Finished,
    }
}

/// The note of the checksum tool's turn. `spare` is empty, with capacity for the actors of a cycle.
pub fn tool_note(turn: ToolTurn, spare: Vec<Actor>) -> Note
    requires empty { spare.items ≡ [] }
    requires room { vec_len spare + length (tool_cycle turn) ≤ vec_capacity spare }
    ensures { result ≡ the_tool_note turn }
{
    match turn {
        ToolTurn::Cleared { position } => Note::Clear { position },
        ToolTurn::Chose { table, chunk } => Note::Choose { table, chunk },
        ToolTurn::Visited(visit) => visit_note(Place::Source, visit, spare),
        ToolTurn::Committed { position } => Note::Commit { position },
        ToolTurn::Mastered { position } => Note::Master { position },
        ToolTurn::Victim => Note::Victim,
        ToolTurn::RetriesUsed { rollbacks, .. } => Note::Retries { rollbacks },
        ToolTurn::Finished => Note::Finished,
    }
}

/// The note of an applier's turn on its replica. `spare` is empty, with capacity for the actors of a cycle.
pub fn applier_note(replica: u32, turn: Turn, spare: Vec<Actor>) -> Note
    requires empty { spare.items ≡ [] }
    requires room { vec_len spare + length (applier_cycle turn) ≤ vec_capacity spare }
    ensures { result ≡ the_applier_note replica turn }
{
    match turn {
        Turn::Took { entry } => Note::Take { entry },
        Turn::Visited(visit) => visit_note(Place::Replica(replica), visit, spare),
        Turn::Committed { entry } => Note::Commit { position: entry },
        Turn::Nothing { applied } => Note::Nothing { applied },
        Turn::OrderWait { entry } => Note::Order { entry },
        Turn::Stopped => Note::Stopped,
    }
}
