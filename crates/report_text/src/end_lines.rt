//! Equal tables, duplicates and the status.
ghost use Rattle.std.specs.Prelude.{◌≡◌, OnOk};
ghost use Rattle.std.specs.List.{flat_map};
ghost use Rattle.statement_text.specs.Written.{Appended};
ghost use Rattle.report_text.specs.Report.{equal_line, equal_lines, actor_text, duplicate_line, status_line};

use crate::row_lines::push_replica;
use crate::summaries::{DuplicateLine, EqualLine};
use row_types::R;
use statement_text::Writer;
use workload_file::Actor;

#[tactic(auto, unfolding(crate::specs::Report::equal_line))]
fn push_equal_line(writer: &mut Writer, line: &EqualLine) -> R<()>
    ensures { OnOk result (Appended (equal_line writer.old.schemas line.now) writer.old writer.new) }
{
    if line.equal {
        writer.push_bytes(b"EQUAL ")?;
    } else {
        writer.push_bytes(b"UNEQUAL ")?;
    }
    push_replica(writer, line.replica as u64)?;
    writer.push_bytes(b" ")?;
    writer.push_name(line.table as usize)?;
    writer.push_bytes(b"\n")
}

/// Lines on which tables of which replicas are equal to the source's at the log's end.
pub fn push_equal_lines(writer: &mut Writer, lines: &[EqualLine]) -> R<()>
    ensures { OnOk result (Appended (equal_lines writer.old.schemas lines.now) writer.old writer.new) }
{
    for line in lines {
        push_equal_line(writer, line)?;
    }
    Ok(())
}

/// The first worker of a replica has the replica's name.
#[tactic(auto, unfolding(crate::specs::Report::actor_text))]
fn push_actor(writer: &mut Writer, actor: Actor) -> R<()>
    ensures { OnOk result (Appended (actor_text actor) writer.old writer.new) }
{
    match actor {
        Actor::Session(session) => {
            writer.push_bytes(b"s")?;
            writer.push_number(session as u64)
        }
        Actor::Tool => writer.push_bytes(b"c"),
        Actor::Worker { replica, worker } => {
            push_replica(writer, replica as u64)?;
            if worker == 1 {
                return Ok(());
            }
            writer.push_bytes(b".")?;
            writer.push_number(worker as u64)
        }
    }
}

#[tactic(auto, unfolding(crate::specs::Report::duplicate_line))]
fn push_duplicate(writer: &mut Writer, line: &DuplicateLine) -> R<()>
    ensures { OnOk result (Appended (duplicate_line line.now) writer.old writer.new) }
{
    writer.push_bytes(b"DUPLICATE ")?;
    push_actor(writer, line.actor)?;
    writer.push_bytes(b" line ")?;
    writer.push_number(line.line as u64)?;
    writer.push_bytes(b"\n")
}

pub(crate) fn push_duplicates(writer: &mut Writer, lines: &[DuplicateLine]) -> R<()>
    ensures { OnOk result (Appended (flat_map duplicate_line lines.now) writer.old writer.new) }
{
    for line in lines {
        push_duplicate(writer, line)?;
    }
    Ok(())
}

/// The line of the status, the last one.
#[tactic(auto, unfolding(crate::specs::Report::status_line))]
pub fn push_status(writer: &mut Writer, status: u8) -> R<()>
    ensures { OnOk result (Appended (status_line status) writer.old writer.new) }
{
    writer.push_bytes(b"STATUS ")?;
    writer.push_number(status as u64)?;
    writer.push_bytes(b"\n")
}
