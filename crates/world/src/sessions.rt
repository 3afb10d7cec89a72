ghost use Rattle.std.specs.Prelude.{◌≡◌, ◌<◌, length, IfOk, OnErr};
ghost use Rattle.std.specs.List.{slice_get};
ghost use Rattle.world_model.specs.Good.{SessionsFit};
ghost use Rattle.world.specs.SessionTurns.{SessionsTurned, turned_at, sessions_turned};

use node_engine::Node;
use row_types::R;
use session::Session;
use std::alloc::Global;
use trace_text::Note;
use turn_notes::{Place, session_note};

/// The turn of the session at a position of a node's sessions. Out of memory changes nothing.
#[tactic(auto, using(crate::proofs::CycleLemmas::session_room, crate::proofs::SessionLemmas::turned_one))]
fn turn_at(
    alloc: Global,
    place: Place,
    at: usize,
    retries: u32,
    sessions: &mut Vec<Session>,
    node: &mut Node,
) -> R<Note>
    requires fits { SessionsFit node.old.schemas sessions.old.items }
    requires there { at < length sessions.old.items }
    ensures ok { IfOk result (λ note. record { note = note; sessions = sessions.new.items; node = node.new } ≡ turned_at place retries at (slice_get sessions.old.items at) sessions.old.items node.old) }
    ensures err { OnErr result ((sessions.new.items ≡ sessions.old.items) × (node.new ≡ node.old)) }
{
    let spare = Vec::with_capacity(alloc, node.open_count())?;
    let one = &mut sessions[at];
    let turn = one.turn(alloc, node, retries)?;
    Ok(session_note(place, turn, spare))
}

/// The turn of a session of a node, by its number from 1; Off where there is none of this number. Out of memory
/// changes nothing.
#[tactic(auto, using(crate::proofs::SessionLemmas::none_at, crate::proofs::SessionLemmas::none_zero, crate::proofs::SessionLemmas::one_at))]
pub fn session_turn(
    alloc: Global,
    place: Place,
    number: u32,
    retries: u32,
    sessions: &mut Vec<Session>,
    node: &mut Node,
) -> R<Note>
    requires { SessionsFit node.old.schemas sessions.old.items }
    ensures ok { IfOk result (λ note. record { note = note; sessions = sessions.new.items; node = node.new } ≡ sessions_turned place retries number sessions.old.items node.old) }
    ensures err { OnErr result ((sessions.new.items ≡ sessions.old.items) × (node.new ≡ node.old)) }
{
    if number == 0 || sessions.len() < number as usize {
        return Ok(Note::Off);
    }
    let note = turn_at(alloc, place, number as usize - 1, retries, sessions, node)?;
    Ok(note)
}
