ghost use Rattle.std.specs.Prelude.{OnOk};
ghost use Rattle.statement_text.specs.Written.{Appended};
ghost use Rattle.trace_text.specs.Trace.{replica_text, worker_text, local_text, actor_text, item_text, cycle_text};

use row_types::R;
use statement_text::Writer;
use workload::{Actor, Item};

#[tactic(auto, unfolding(crate::specs::Trace::replica_text))]
fn push_replica(writer: &mut Writer, replica: u32) -> R<()>
    ensures { OnOk result (Appended (replica_text replica) writer.old writer.new) }
{
    writer.push_bytes(b"r")?;
    writer.push_number(replica as u64)
}

/// The first worker of a replica has the replica's name.
#[tactic(auto, unfolding(crate::specs::Trace::worker_text))]
fn push_worker(writer: &mut Writer, replica: u32, worker: u32) -> R<()>
    ensures { OnOk result (Appended (worker_text replica worker) writer.old writer.new) }
{
    push_replica(writer, replica)?;
    if worker == 1 {
        return Ok(());
    }
    writer.push_bytes(b".")?;
    writer.push_number(worker as u64)
}

#[tactic(auto, unfolding(crate::specs::Trace::local_text))]
fn push_local(writer: &mut Writer, replica: u32, session: u32) -> R<()>
    ensures { OnOk result (Appended (local_text replica session) writer.old writer.new) }
{
    push_replica(writer, replica)?;
    writer.push_bytes(b".l")?;
    writer.push_number(session as u64)
}

#[tactic(auto, unfolding(crate::specs::Trace::actor_text))]
pub(crate) fn push_actor(writer: &mut Writer, actor: Actor) -> R<()>
    ensures { OnOk result (Appended (actor_text actor) writer.old writer.new) }
{
    match actor {
        Actor::Session(session) => {
            writer.push_bytes(b"s")?;
            writer.push_number(session as u64)
        }
        Actor::Tool => writer.push_bytes(b"c"),
        Actor::Sync(replica) => {
            writer.push_bytes(b"y")?;
            writer.push_number(replica as u64)
        }
        Actor::Worker { replica, worker } => push_worker(writer, replica, worker),
        Actor::Local { replica, session } => push_local(writer, replica, session),
    }
}

#[tactic(auto, unfolding(crate::specs::Trace::item_text))]
pub(crate) fn push_item(writer: &mut Writer, item: Item) -> R<()>
    ensures { OnOk result (Appended (item_text item) writer.old writer.new) }
{
    match item {
        Item::Turn(actor) => push_actor(writer, actor),
        Item::StopTool => writer.push_bytes(b"stop:c"),
        Item::ResumeTool => writer.push_bytes(b"resume:c"),
        Item::StopReplica(replica) => {
            writer.push_bytes(b"stop:")?;
            push_replica(writer, replica)
        }
        Item::StartReplica(replica) => {
            writer.push_bytes(b"start:")?;
            push_replica(writer, replica)
        }
    }
}

/// The actors of a cycle, each behind a space.
pub(crate) fn push_cycle(writer: &mut Writer, cycle: &[Actor]) -> R<()>
    ensures { OnOk result (Appended (cycle_text cycle.now) writer.old writer.new) }
{
    for actor in cycle {
        writer.push_bytes(b" ")?;
        push_actor(writer, *actor)?;
    }
    Ok(())
}
