ghost use Rattle.std.specs.Prelude.{◌≡◌, IfOk, OnOk};
ghost use Rattle.statement_text.specs.Written.{Appended};
ghost use Rattle.report_text.specs.Report.{start_word, final_word, nodes_lines};
ghost use Rattle.run_report.specs.RunReport.{trace_lines, run_text, end_text, report_of};

use crate::summaries::RunSummary;
use report_text::{
    NodeTables, push_equal_lines, push_head, push_histories, push_log, push_nodes, push_status,
    push_verdicts,
};
use row_types::R;
use statement_text::Writer;
use std::alloc::Global;
use trace_text::{JournalLine, push_abandoned, push_duplicates, push_journal, push_unfinished};

#[tactic(auto, unfolding(report_text::specs::Report::start_word))]
fn push_starts(writer: &mut Writer, start: &NodeTables) -> R<()>
    ensures { OnOk result (Appended (nodes_lines writer.old.schemas start_word 0 start.now) writer.old writer.new) }
{
    push_nodes(writer, b"START", start.as_slice())
}

#[tactic(auto, unfolding(report_text::specs::Report::final_word))]
fn push_finals(writer: &mut Writer, finals: &NodeTables) -> R<()>
    ensures { OnOk result (Appended (nodes_lines writer.old.schemas final_word 0 finals.now) writer.old writer.new) }
{
    push_nodes(writer, b"FINAL", finals.as_slice())
}

fn push_trace(writer: &mut Writer, trace: bool, journal: &[JournalLine]) -> R<()>
    ensures { OnOk result (Appended (trace_lines writer.old.schemas trace journal.now) writer.old writer.new) }
{
    if trace {
        push_journal(writer, journal)
    } else {
        Ok(())
    }
}

/// What was logged and applied, and the verdicts on it.
#[tactic(auto, unfolding(crate::specs::RunReport::run_text))]
fn push_run(writer: &mut Writer, summary: &RunSummary) -> R<()>
    requires { writer.old.schemas ≡ summary.now.schemas.tables }
    ensures { OnOk result (Appended (run_text summary.now) writer.old writer.new) }
{
    push_log(writer, summary.log.as_slice())?;
    push_histories(writer, summary.histories.as_slice())?;
    push_verdicts(writer, summary.verdicts.as_slice())
}

/// Which tables are equal, what the actors leave, and the status.
#[tactic(auto, unfolding(crate::specs::RunReport::end_text))]
fn push_end(writer: &mut Writer, summary: &RunSummary) -> R<()>
    requires { writer.old.schemas ≡ summary.now.schemas.tables }
    ensures { OnOk result (Appended (end_text summary.now) writer.old writer.new) }
{
    push_equal_lines(writer, summary.equal.as_slice())?;
    push_duplicates(writer, summary.duplicates.as_slice())?;
    push_abandoned(writer, summary.abandoned.as_slice())?;
    push_unfinished(writer, summary.unfinished.as_slice())?;
    push_status(writer, summary.status)
}

/// The text of a report, with the journal's turns where a trace is asked for.
#[tactic(auto, unfolding(crate::specs::RunReport::report_of))]
pub fn report(alloc: Global, summary: &RunSummary, trace: bool) -> R<Vec<u8>>
    ensures { IfOk result (λ text. text.items ≡ report_of trace summary.now) }
{
    let mut writer = Writer::new(alloc, &summary.schemas.tables);
    push_head(&mut writer, summary.schemas.tables.as_slice())?;
    push_starts(&mut writer, &summary.start)?;
    push_trace(&mut writer, trace, summary.journal.as_slice())?;
    push_run(&mut writer, summary)?;
    push_finals(&mut writer, &summary.finals)?;
    push_end(&mut writer, summary)?;
    Ok(writer.into_text())
}
