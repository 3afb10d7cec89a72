//! The verdicts on chunks.
ghost use Rattle.std.specs.Prelude.{◌≡◌, OnOk};
ghost use Rattle.statement_text.specs.Written.{Appended};
ghost use Rattle.report_text.specs.Report.{verdict_text, count_text, verdict_place_text, verdict_span_text, verdict_counts_text, verdict_line, verdict_lines};

use crate::row_lines::push_replica;
use crate::summaries::VerdictLine;
use checksum_table::Verdict;
use row_types::R;
use statement_text::Writer;

#[tactic(auto, unfolding(crate::specs::Report::verdict_text))]
fn push_verdict(writer: &mut Writer, verdict: Verdict) -> R<()>
    ensures { OnOk result (Appended (verdict_text verdict) writer.old writer.new) }
{
    match verdict {
        Verdict::Same => writer.push_bytes(b"SAME"),
        Verdict::Differ => writer.push_bytes(b"DIFFER"),
        Verdict::Pending => writer.push_bytes(b"PENDING"),
    }
}

#[tactic(auto, unfolding(crate::specs::Report::count_text))]
fn push_count(writer: &mut Writer, count: Option<u64>) -> R<()>
    ensures { OnOk result (Appended (count_text count) writer.old writer.new) }
{
    match count {
        None => writer.push_bytes(b"-"),
        Some(count) => writer.push_number(count),
    }
}

#[tactic(auto, unfolding(crate::specs::Report::verdict_place_text))]
fn push_place(writer: &mut Writer, line: &VerdictLine) -> R<()>
    ensures { OnOk result (Appended (verdict_place_text writer.old.schemas line.now) writer.old writer.new) }
{
    writer.push_bytes(b"VERDICT ")?;
    push_replica(writer, line.replica as u64)?;
    writer.push_bytes(b" ")?;
    writer.push_name(line.table as usize)?;
    writer.push_bytes(b" ")?;
    writer.push_number(line.chunk as u64)
}

#[tactic(auto, unfolding(crate::specs::Report::verdict_span_text))]
fn push_line_span(writer: &mut Writer, line: &VerdictLine) -> R<()>
    ensures { OnOk result (Appended (verdict_span_text line.now) writer.old writer.new) }
{
    writer.push_bytes(b" ")?;
    writer.push_span(&line.span)?;
    writer.push_bytes(b" AT ")?;
    writer.push_number(line.position)
}

#[tactic(auto, unfolding(crate::specs::Report::verdict_counts_text))]
fn push_counts(writer: &mut Writer, line: &VerdictLine) -> R<()>
    ensures { OnOk result (Appended (verdict_counts_text line.now) writer.old writer.new) }
{
    writer.push_bytes(b" COUNT ")?;
    push_count(writer, line.master)?;
    writer.push_bytes(b" ")?;
    push_count(writer, line.own)
}

#[tactic(auto, unfolding(crate::specs::Report::verdict_line))]
fn push_verdict_line(writer: &mut Writer, line: &VerdictLine) -> R<()>
    ensures { OnOk result (Appended (verdict_line writer.old.schemas line.now) writer.old writer.new) }
{
    push_place(writer, line)?;
    push_line_span(writer, line)?;
    push_counts(writer, line)?;
    writer.push_bytes(b" ")?;
    push_verdict(writer, line.verdict)?;
    writer.push_bytes(b"\n")
}

/// Lines on chunks: what a replica's check row says beside the source's.
pub fn push_verdicts(writer: &mut Writer, lines: &[VerdictLine]) -> R<()>
    ensures { OnOk result (Appended (verdict_lines writer.old.schemas lines.now) writer.old writer.new) }
{
    for line in lines {
        push_verdict_line(writer, line)?;
    }
    Ok(())
}
