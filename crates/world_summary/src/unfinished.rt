//! The actors that have not finished, and why.
ghost use Rattle.std.specs.Prelude.{◌≡◌, ◌++◌, IfOk, OnOk};
ghost use Rattle.world_model.specs.Ends.{why_of as reason_of, unfinished_at, unfinished_of};
ghost use Rattle.world_model.specs.Rounds.{IsBehindSchedule, IsStillAt, IsStill};
ghost use Rattle.world_summary.specs.Told.{line_for};

use row_types::R;
use std::alloc::Global;
use trace_text::{Note, UnfinishedLine, UnfinishedLines, Why};
use workload::Item;
use world::World;

/// What a still turn tells of an actor that has not finished.
fn why_of(note: &Note) -> Option<Why>
    ensures { result ≡ reason_of note.now }
{
    match note {
        Note::Waits { by } => Some(Why::Waits { by: *by }),
        Note::Order { entry } => Some(Why::Order { entry: *entry }),
        Note::Retries { rollbacks } => Some(Why::Retries {
            rollbacks: *rollbacks,
        }),
        Note::Off
        | Note::Step
        | Note::Done
        | Note::Deadlock { .. }
        | Note::Duplicate
        | Note::Victim
        | Note::Begin
        | Note::Start
        | Note::Commit { .. }
        | Note::CommitNone
        | Note::CommitLocal
        | Note::Rollback
        | Note::Finished
        | Note::Stopped
        | Note::Take { .. }
        | Note::Nothing { .. }
        | Note::Clear { .. }
        | Note::Choose { .. }
        | Note::Master { .. } => None,
    }
}

/// Appends a line on the actor of an item whose turn came to this note, where it has not finished.
fn add_line(lines: &mut UnfinishedLines, item: Item, note: &Note) -> R<()>
    ensures { OnOk result (lines.new ≡ lines.old ++ line_for item note.now) }
{
    match item {
        Item::Turn(actor) => match why_of(note) {
            Some(why) => lines.push(UnfinishedLine { actor, why }),
            None => Ok(()),
        },
        Item::StopTool => Ok(()),
        Item::ResumeTool => Ok(()),
        Item::StopReplica(_) => Ok(()),
        Item::StartReplica(_) => Ok(()),
    }
}

/// Appends a line on the actor of a still item, where it has not finished: its turn is taken, and leaves the world.
fn add_actor(alloc: Global, lines: &mut UnfinishedLines, world: &mut World, item: Item) -> R<()>
    requires behind { IsBehindSchedule world.old }
    requires still { IsStillAt world.old item }
    ensures ok { OnOk result (lines.new ≡ lines.old ++ unfinished_at world.old item) }
    ensures world { world.new ≡ world.old }
{
    let note = world.step(alloc, item)?;
    add_line(lines, item, &note)
}

/// The actors that have not finished, in the order of a round. The world stays as it is.
pub fn unfinished(alloc: Global, world: &mut World) -> R<UnfinishedLines>
    requires behind { IsBehindSchedule world.old }
    requires still { IsStill world.old }
    ensures ok { IfOk result (λ lines. lines ≡ unfinished_of world.old) }
    ensures world { world.new ≡ world.old }
{
    let items = world.order(alloc)?;
    let mut lines = UnfinishedLines::new(alloc);
    let mut rest = items.as_slice();
    while let Some((item, more)) = rest.split_first() {
        add_actor(alloc, &mut lines, world, *item)?;
        rest = more;
    }
    Ok(lines)
}
