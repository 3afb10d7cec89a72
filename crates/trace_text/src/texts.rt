ghost use Rattle.std.specs.Prelude.{◌++◌, OnOk};
ghost use Rattle.std.specs.Fmt.{decimal};
ghost use Rattle.std.specs.List.{flat_map};
ghost use Rattle.statement_text.specs.Written.{Appended};
ghost use Rattle.trace_text.specs.Trace.{deadlock_text, choose_text, note_text, journal_line, journal_lines, duplicate_line, abandoned_line, why_text, unfinished_word, unfinished_line};

use crate::lines::{AbandonedLine, DuplicateLine, JournalLine, UnfinishedLine};
use crate::names::{push_actor, push_cycle, push_item};
use crate::notes::{Note, Why};
use row_types::R;
use statement_text::Writer;
use workload::Actor;

#[tactic(auto, unfolding(crate::specs::Trace::deadlock_text))]
fn push_deadlock(writer: &mut Writer, victim: Actor, cycle: &[Actor]) -> R<()>
    ensures { OnOk result (Appended (deadlock_text victim cycle.now) writer.old writer.new) }
{
    writer.push_bytes(b"deadlock ")?;
    push_actor(writer, victim)?;
    writer.push_bytes(b" cycle")?;
    push_cycle(writer, cycle)
}

#[tactic(auto, unfolding(crate::specs::Trace::choose_text))]
fn push_choose(writer: &mut Writer, table: u32, chunk: u32) -> R<()>
    ensures { OnOk result (Appended (choose_text writer.old.schemas table chunk) writer.old writer.new) }
{
    writer.push_bytes(b"choose ")?;
    writer.push_name(table as usize)?;
    writer.push_bytes(b" ")?;
    writer.push_number(chunk as u64)
}

/// A word, and a number behind it.
fn push_counted(writer: &mut Writer, word: &[u8], number: u64) -> R<()>
    ensures { OnOk result (Appended (word.now ++ decimal number) writer.old writer.new) }
{
    writer.push_bytes(word)?;
    writer.push_number(number)
}

#[tactic(auto, unfolding(crate::specs::Trace::note_text))]
fn push_note(writer: &mut Writer, note: &Note) -> R<()>
    ensures { OnOk result (Appended (note_text writer.old.schemas note.now) writer.old writer.new) }
{
    match note {
        Note::Off => writer.push_bytes(b"off"),
        Note::Step => writer.push_bytes(b"step"),
        Note::Done => writer.push_bytes(b"done"),
        Note::Waits { by } => {
            writer.push_bytes(b"waits ")?;
            push_actor(writer, *by)
        }
        Note::Deadlock { victim, cycle } => push_deadlock(writer, *victim, cycle.as_slice()),
        Note::Duplicate => writer.push_bytes(b"duplicate"),
        Note::Victim => writer.push_bytes(b"victim"),
        Note::Begin => writer.push_bytes(b"begin"),
        Note::Start => writer.push_bytes(b"start"),
        Note::Commit { position } => push_counted(writer, b"commit ", *position),
        Note::CommitNone => writer.push_bytes(b"commit none"),
        Note::CommitLocal => writer.push_bytes(b"commit local"),
        Note::Rollback => writer.push_bytes(b"rollback"),
        Note::Finished => writer.push_bytes(b"finished"),
        Note::Stopped => writer.push_bytes(b"stopped"),
        Note::Take { entry } => push_counted(writer, b"take ", *entry),
        Note::Nothing { applied } => push_counted(writer, b"nothing ", *applied),
        Note::Order { entry } => push_counted(writer, b"order ", *entry),
        Note::Retries { rollbacks } => push_counted(writer, b"retries ", *rollbacks as u64),
        Note::Clear { position } => push_counted(writer, b"clear ", *position),
        Note::Choose { table, chunk } => push_choose(writer, *table, *chunk),
        Note::Master { position } => push_counted(writer, b"master ", *position),
    }
}

#[tactic(auto, unfolding(crate::specs::Trace::journal_line))]
fn push_journal_line(writer: &mut Writer, number: u64, line: &JournalLine) -> R<()>
    ensures { OnOk result (Appended (journal_line writer.old.schemas number line.now) writer.old writer.new) }
{
    push_counted(writer, b"T ", number)?;
    writer.push_bytes(b" ")?;
    push_item(writer, line.item)?;
    writer.push_bytes(b" ")?;
    push_note(writer, &line.note)?;
    writer.push_bytes(b"\n")
}

/// The lines of a journal, numbered from 1.
pub fn push_journal(writer: &mut Writer, journal: &[JournalLine]) -> R<()>
    ensures { OnOk result (Appended (journal_lines writer.old.schemas 1 journal.now) writer.old writer.new) }
{
    for (index, line) in journal.iter().enumerate() {
        push_journal_line(writer, index as u64 + 1, line)?;
    }
    Ok(())
}

#[tactic(auto, unfolding(crate::specs::Trace::duplicate_line))]
fn push_duplicate(writer: &mut Writer, line: &DuplicateLine) -> R<()>
    ensures { OnOk result (Appended (duplicate_line line.now) writer.old writer.new) }
{
    writer.push_bytes(b"DUPLICATE ")?;
    push_actor(writer, line.actor)?;
    push_counted(writer, b" line ", line.line as u64)?;
    writer.push_bytes(b"\n")
}

/// Lines on statements that were refused as duplicates.
pub fn push_duplicates(writer: &mut Writer, lines: &[DuplicateLine]) -> R<()>
    ensures { OnOk result (Appended (flat_map duplicate_line lines.now) writer.old writer.new) }
{
    for line in lines {
        push_duplicate(writer, line)?;
    }
    Ok(())
}

#[tactic(auto, unfolding(crate::specs::Trace::abandoned_line))]
fn push_abandoned_line(writer: &mut Writer, line: &AbandonedLine) -> R<()>
    ensures { OnOk result (Appended (abandoned_line line.now) writer.old writer.new) }
{
    writer.push_bytes(b"ABANDONED ")?;
    push_actor(writer, line.actor)?;
    push_counted(writer, b" ", line.number as u64)?;
    writer.push_bytes(b"\n")
}

/// Lines on transactions that were given up.
pub fn push_abandoned(writer: &mut Writer, lines: &[AbandonedLine]) -> R<()>
    ensures { OnOk result (Appended (flat_map abandoned_line lines.now) writer.old writer.new) }
{
    for line in lines {
        push_abandoned_line(writer, line)?;
    }
    Ok(())
}

#[tactic(auto, unfolding(crate::specs::Trace::why_text))]
fn push_why(writer: &mut Writer, why: Why) -> R<()>
    ensures { OnOk result (Appended (why_text why) writer.old writer.new) }
{
    match why {
        Why::Retries { rollbacks } => push_counted(writer, b"retries ", rollbacks as u64),
        Why::Waits { by } => {
            writer.push_bytes(b"waits ")?;
            push_actor(writer, by)
        }
        Why::Order { entry } => push_counted(writer, b"order ", entry),
    }
}

#[tactic(auto, unfolding(crate::specs::Trace::unfinished_word))]
fn push_unfinished_word(writer: &mut Writer) -> R<()>
    ensures { OnOk result (Appended unfinished_word writer.old writer.new) }
{
    writer.push_bytes(b"UNFINISHED ")
}

#[tactic(auto, unfolding(crate::specs::Trace::unfinished_line))]
fn push_unfinished_line(writer: &mut Writer, line: &UnfinishedLine) -> R<()>
    ensures { OnOk result (Appended (unfinished_line line.now) writer.old writer.new) }
{
    push_unfinished_word(writer)?;
    push_actor(writer, line.actor)?;
    writer.push_bytes(b" ")?;
    push_why(writer, line.why)?;
    writer.push_bytes(b"\n")
}

/// Lines on actors that could not finish.
pub fn push_unfinished(writer: &mut Writer, lines: &[UnfinishedLine]) -> R<()>
    ensures { OnOk result (Appended (flat_map unfinished_line lines.now) writer.old writer.new) }
{
    for line in lines {
        push_unfinished_line(writer, line)?;
    }
    Ok(())
}
