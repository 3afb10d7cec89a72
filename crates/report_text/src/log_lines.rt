//! The log, and the histories of replicas.
ghost use Rattle.std.specs.Prelude.{◌≡◌, OnOk};
ghost use Rattle.statement_text.specs.Written.{Appended};
ghost use Rattle.report_text.specs.Report.{repair_text, origin_text, statement_line, statement_lines, entry_line, log_lines, item_origin_text, item_line, item_lines, history_lines, histories_lines};

use crate::row_lines::push_replica;
use ptc_statement::Statement;
use row_types::{R, Span};
use statement_log::{Entries, Entry, Origin};
use statement_text::Writer;

/// The repair tool of a replica, with the table and the span that it repaired.
#[tactic(auto, unfolding(crate::specs::Report::repair_text))]
fn push_repair(writer: &mut Writer, replica: u32, table: u32, span: &Span) -> R<()>
    ensures { OnOk result (Appended (repair_text writer.old.schemas replica table span.now) writer.old writer.new) }
{
    writer.push_bytes(b"y")?;
    writer.push_number(replica as u64)?;
    writer.push_bytes(b" ")?;
    writer.push_name(table as usize)?;
    writer.push_bytes(b" ")?;
    writer.push_span(span)
}

#[tactic(auto, unfolding(crate::specs::Report::origin_text))]
fn push_origin(writer: &mut Writer, origin: &Origin) -> R<()>
    ensures { OnOk result (Appended (origin_text writer.old.schemas origin.now) writer.old writer.new) }
{
    match origin {
        Origin::Session(session) => {
            writer.push_bytes(b"s")?;
            writer.push_number(*session as u64)
        }
        Origin::Checksum => writer.push_bytes(b"c"),
        Origin::Sync {
            replica,
            table,
            span,
        } => push_repair(writer, *replica, *table, span),
        Origin::Local(session) => {
            writer.push_bytes(b"l")?;
            writer.push_number(*session as u64)
        }
        Origin::Applied(entry) => {
            writer.push_bytes(b"applied ")?;
            writer.push_number(*entry)
        }
    }
}

#[tactic(auto, unfolding(crate::specs::Report::statement_line))]
fn push_statement_line(writer: &mut Writer, statement: &Statement) -> R<()>
    ensures { OnOk result (Appended (statement_line writer.old.schemas statement.now) writer.old writer.new) }
{
    writer.push_bytes(b"  ")?;
    writer.push_statement(statement)?;
    writer.push_bytes(b"\n")
}

fn push_statements(writer: &mut Writer, statements: &[Statement]) -> R<()>
    ensures { OnOk result (Appended (statement_lines writer.old.schemas statements.now) writer.old writer.new) }
{
    for statement in statements {
        push_statement_line(writer, statement)?;
    }
    Ok(())
}

#[tactic(auto, unfolding(crate::specs::Report::entry_line))]
fn push_entry_line(writer: &mut Writer, number: u64, origin: &Origin) -> R<()>
    ensures { OnOk result (Appended (entry_line writer.old.schemas number origin.now) writer.old writer.new) }
{
    writer.push_bytes(b"LOG ")?;
    writer.push_number(number)?;
    writer.push_bytes(b" ")?;
    push_origin(writer, origin)?;
    writer.push_bytes(b"\n")
}

/// The entries of a log, numbered from 1, each with its statements.
pub fn push_log(writer: &mut Writer, entries: &[Entry]) -> R<()>
    ensures { OnOk result (Appended (log_lines writer.old.schemas 1 entries.now) writer.old writer.new) }
{
    for (index, entry) in entries.iter().enumerate() {
        push_entry_line(writer, index as u64 + 1, &entry.origin)?;
        push_statements(writer, entry.statements.as_slice())?;
    }
    Ok(())
}

/// The entry that a replica applied, or its local session.
#[tactic(auto, unfolding(crate::specs::Report::item_origin_text))]
fn push_item_origin(writer: &mut Writer, replica: u64, origin: &Origin) -> R<()>
    ensures { OnOk result (Appended (item_origin_text writer.old.schemas replica origin.now) writer.old writer.new) }
{
    if let Origin::Local(_) = origin {
        writer.push_bytes(b"local ")?;
        push_replica(writer, replica)?;
        writer.push_bytes(b".")?;
    }
    push_origin(writer, origin)
}

#[tactic(auto, unfolding(crate::specs::Report::item_line))]
fn push_item_line(writer: &mut Writer, replica: u64, origin: &Origin) -> R<()>
    ensures { OnOk result (Appended (item_line writer.old.schemas replica origin.now) writer.old writer.new) }
{
    writer.push_bytes(b"HISTORY ")?;
    push_replica(writer, replica)?;
    writer.push_bytes(b" ")?;
    push_item_origin(writer, replica, origin)?;
    writer.push_bytes(b"\n")
}

/// An item of a replica's history; the statements of an entry that it applied stand in the log.
#[tactic(auto, unfolding(crate::specs::Report::item_lines))]
fn push_item(writer: &mut Writer, replica: u64, item: &Entry) -> R<()>
    ensures { OnOk result (Appended (item_lines writer.old.schemas replica item.now) writer.old writer.new) }
{
    push_item_line(writer, replica, &item.origin)?;
    match item.origin {
        Origin::Applied(_) => Ok(()),
        Origin::Session(_) | Origin::Checksum | Origin::Sync { .. } | Origin::Local(_) => {
            push_statements(writer, item.statements.as_slice())
        }
    }
}

fn push_history(writer: &mut Writer, replica: u64, history: &[Entry]) -> R<()>
    ensures { OnOk result (Appended (history_lines writer.old.schemas replica history.now) writer.old writer.new) }
{
    for item in history {
        push_item(writer, replica, item)?;
    }
    Ok(())
}

/// The histories of replicas, which are numbered from 1.
pub fn push_histories(writer: &mut Writer, histories: &[Entries]) -> R<()>
    ensures { OnOk result (Appended (histories_lines writer.old.schemas 1 histories.now) writer.old writer.new) }
{
    for (index, history) in histories.iter().enumerate() {
        push_history(writer, index as u64 + 1, history.as_slice())?;
    }
    Ok(())
}
