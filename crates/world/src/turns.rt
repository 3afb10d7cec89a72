ghost use Rattle.std.specs.Prelude.{◌≡◌, ◌<◌, ◌≤◌, length, IfOk, OnErr};
ghost use Rattle.std.specs.List.{slice_get};
ghost use Rattle.workload.specs.declared.actors.Actor.{Actor as TheActor};
ghost use Rattle.world_model.specs.Good.{IsGood};
ghost use Rattle.world_model.specs.Turns.{session_turn, tool_turn, on_replica, worker_turn, local_turn, turn, move};
ghost use Rattle.world.specs.WorldParts.{world_view, turned_by};
ghost use Rattle.world.specs.NoteCycles.{note_cycle, open_on};

use crate::parts::Parts;
use crate::sessions;
use row_types::R;
use std::alloc::Global;
use trace_text::Note;
use turn_notes::{Place, tool_note};
use workload::{Actor, Item};

/// The turn of a session of the source.
#[tactic(auto, using(crate::proofs::SessionLemmas::source_turn))]
fn session_turn(alloc: Global, number: u32, parts: &mut Parts) -> R<Note>
    requires { IsGood (world_view parts.old) }
    ensures ok { IfOk result (λ note. turned_by note parts.new ≡ session_turn number (world_view parts.old)) }
    ensures err { OnErr result (world_view parts.new ≡ world_view parts.old) }
    ensures journal { parts.new.journal ≡ parts.old.journal }
    ensures moves { parts.new.moves ≡ parts.old.moves }
{
    let retries = parts.options.retries;
    let note = sessions::session_turn(
        alloc,
        Place::Source,
        number,
        retries,
        &mut parts.sessions,
        &mut parts.source,
    )?;
    Ok(note)
}

/// The turn of the checksum tool.
#[tactic(auto, using(crate::proofs::CycleLemmas::tool_room, crate::proofs::TurnLemmas::tool_is))]
fn tool_turn(alloc: Global, parts: &mut Parts) -> R<Note>
    requires { IsGood (world_view parts.old) }
    ensures ok { IfOk result (λ note. turned_by note parts.new ≡ tool_turn (world_view parts.old)) }
    ensures err { OnErr result (world_view parts.new ≡ world_view parts.old) }
    ensures journal { parts.new.journal ≡ parts.old.journal }
    ensures moves { parts.new.moves ≡ parts.old.moves }
{
    let spare = Vec::with_capacity(alloc, parts.source.open_count())?;
    let turn = parts.tool.turn(alloc, &mut parts.source)?;
    Ok(tool_note(turn, spare))
}

/// The turn of a worker of a replica.
#[tactic(auto, using(crate::proofs::TurnLemmas::no_replica, crate::proofs::TurnLemmas::replica_is, crate::proofs::TurnLemmas::log_fits_there))]
fn worker_turn(alloc: Global, replica: u32, worker: u32, parts: &mut Parts) -> R<Note>
    requires { IsGood (world_view parts.old) }
    ensures ok { IfOk result (λ note. turned_by note parts.new ≡ on_replica replica (worker_turn replica worker (world_view parts.old).source.history) (world_view parts.old)) }
    ensures err { OnErr result (world_view parts.new ≡ world_view parts.old) }
    ensures journal { parts.new.journal ≡ parts.old.journal }
    ensures moves { parts.new.moves ≡ parts.old.moves }
{
    if replica == 0 || parts.replicas.len() < replica as usize {
        return Ok(Note::Off);
    }
    let one = &mut parts.replicas[replica as usize - 1];
    let note = one.worker_turn(alloc, replica, worker, parts.source.history())?;
    Ok(note)
}

/// The turn of a local session of a replica.
#[tactic(auto, using(crate::proofs::TurnLemmas::no_replica, crate::proofs::TurnLemmas::replica_is, crate::proofs::TurnLemmas::locals_fit_there))]
fn local_turn(alloc: Global, replica: u32, local: u32, parts: &mut Parts) -> R<Note>
    requires { IsGood (world_view parts.old) }
    ensures ok { IfOk result (λ note. turned_by note parts.new ≡ on_replica replica (local_turn replica (world_view parts.old).options.retries local) (world_view parts.old)) }
    ensures err { OnErr result (world_view parts.new ≡ world_view parts.old) }
    ensures journal { parts.new.journal ≡ parts.old.journal }
    ensures moves { parts.new.moves ≡ parts.old.moves }
{
    if replica == 0 || parts.replicas.len() < replica as usize {
        return Ok(Note::Off);
    }
    let retries = parts.options.retries;
    let one = &mut parts.replicas[replica as usize - 1];
    let note = one.local_turn(alloc, replica, local, retries)?;
    Ok(note)
}

/// The turn of an actor; Off where it takes no part.
fn actor_turn(alloc: Global, actor: Actor, parts: &mut Parts) -> R<Note>
    requires { IsGood (world_view parts.old) }
    ensures ok { IfOk result (λ note. turned_by note parts.new ≡ turn actor (world_view parts.old)) }
    ensures err { OnErr result (world_view parts.new ≡ world_view parts.old) }
    ensures journal { parts.new.journal ≡ parts.old.journal }
    ensures moves { parts.new.moves ≡ parts.old.moves }
{
    match actor {
        Actor::Session(number) => session_turn(alloc, number, parts),
        Actor::Tool => tool_turn(alloc, parts),
        Actor::Sync(_) => Ok(Note::Off),
        Actor::Worker { replica, worker } => worker_turn(alloc, replica, worker, parts),
        Actor::Local { replica, session } => local_turn(alloc, replica, session, parts),
    }
}

/// The move of an item, which is not written to the journal yet. Out of memory changes nothing.
pub fn item_turn(alloc: Global, item: Item, parts: &mut Parts) -> R<Note>
    requires { IsGood (world_view parts.old) }
    ensures ok { IfOk result (λ note. turned_by note parts.new ≡ move item (world_view parts.old)) }
    ensures err { OnErr result (world_view parts.new ≡ world_view parts.old) }
    ensures journal { parts.new.journal ≡ parts.old.journal }
    ensures moves { parts.new.moves ≡ parts.old.moves }
{
    match item {
        Item::Turn(actor) => actor_turn(alloc, actor, parts),
        Item::StopTool => Ok(Note::Off),
        Item::ResumeTool => Ok(Note::Off),
        Item::StopReplica(_) => Ok(Note::Off),
        Item::StartReplica(_) => Ok(Note::Off),
    }
}

/// How many transactions are open on a replica, 0 where there is none of this number.
fn open_on(replica: u32, parts: &Parts) -> usize
    ensures { result ≡ open_on replica (world_view parts.now).replicas }
{
    if replica == 0 || parts.replicas.len() < replica as usize {
        return 0;
    }
    parts.replicas[replica as usize - 1].node().open_count()
}

/// How many transactions are open on the node of an actor: no cycle that its turn closes is longer.
fn most_for(actor: Actor, parts: &Parts) -> usize
    ensures { length (note_cycle (turn actor (world_view parts.now)).note) ≤ result }
{
    match actor {
        Actor::Session(_) => parts.source.open_count(),
        Actor::Tool => parts.source.open_count(),
        Actor::Sync(_) => 0,
        Actor::Worker { replica, .. } => open_on(replica, parts),
        Actor::Local { replica, .. } => open_on(replica, parts),
    }
}

/// How many actors the cycle may have that an item's move closes.
pub fn most_on_cycle(item: Item, parts: &Parts) -> usize
    ensures { length (note_cycle (move item (world_view parts.now)).note) ≤ result }
{
    match item {
        Item::Turn(actor) => most_for(actor, parts),
        Item::StopTool => 0,
        Item::ResumeTool => 0,
        Item::StopReplica(_) => 0,
        Item::StartReplica(_) => 0,
    }
}
