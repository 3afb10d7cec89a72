ghost use Rattle.std.specs.Prelude.{◌≡◌, IfOk, OnOk};
ghost use Rattle.statement_text.specs.Written.{Appended};
ghost use Rattle.report_text.specs.Report.{start_word, final_word, nodes_lines, end_text, report_of};

use crate::end_lines::{push_duplicates, push_equal_lines, push_status};
use crate::log_lines::{push_histories, push_log};
use crate::row_lines::{push_head, push_nodes};
use crate::summaries::{NodeTables, Summary};
use crate::verdict_lines::push_verdicts;
use row_types::R;
use statement_text::Writer;
use std::alloc::Global;

#[tactic(auto, unfolding(crate::specs::Report::start_word))]
fn push_starts(writer: &mut Writer, start: &NodeTables) -> R<()>
    ensures { OnOk result (Appended (nodes_lines writer.old.schemas start_word 0 start.now) writer.old writer.new) }
{
    push_nodes(writer, b"START", start.as_slice())
}

#[tactic(auto, unfolding(crate::specs::Report::final_word))]
fn push_finals(writer: &mut Writer, finals: &NodeTables) -> R<()>
    ensures { OnOk result (Appended (nodes_lines writer.old.schemas final_word 0 finals.now) writer.old writer.new) }
{
    push_nodes(writer, b"FINAL", finals.as_slice())
}

/// Which tables are equal, the duplicates and the status.
#[tactic(auto, unfolding(crate::specs::Report::end_text))]
fn push_end(writer: &mut Writer, summary: &Summary) -> R<()>
    requires { writer.old.schemas ≡ summary.now.schemas.tables }
    ensures { OnOk result (Appended (end_text summary.now) writer.old writer.new) }
{
    push_equal_lines(writer, summary.equal.as_slice())?;
    push_duplicates(writer, summary.duplicates.as_slice())?;
    push_status(writer, summary.status)
}

/// The text of a report.
#[tactic(auto, unfolding(crate::specs::Report::report_of))]
pub fn report(alloc: Global, summary: &Summary) -> R<Vec<u8>>
    ensures { IfOk result (λ text. text.items ≡ report_of summary.now) }
{
    let mut writer = Writer::new(alloc, &summary.schemas.tables);
    push_head(&mut writer, summary.schemas.tables.as_slice())?;
    push_starts(&mut writer, &summary.start)?;
    push_log(&mut writer, summary.log.as_slice())?;
    push_histories(&mut writer, summary.histories.as_slice())?;
    push_verdicts(&mut writer, summary.verdicts.as_slice())?;
    push_finals(&mut writer, &summary.finals)?;
    push_end(&mut writer, summary)?;
    Ok(writer.into_text())
}
