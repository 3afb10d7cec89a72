ghost use Rattle.std.specs.Prelude.{◌≡◌, ◌≤◌, ℕ, List, Some, [], length, IfOk, MatchOption};
ghost use Rattle.file_text.specs.declared.places.Section.TheVariants.{TableLines};
ghost use Rattle.file_text.specs.Rules.{Opens};
ghost use Rattle.line_items.specs.Readings.{IsReading};
ghost use Rattle.line_values.specs.Tables.{schema_in};
ghost use Rattle.text_check.specs.Checks.{IsNoTable, IsTableLine};

use file_lines::{Opening, opening_of};
use file_text::Section;
use line_items::{Counts, LineItem, LineReading, read_line};
use line_values::{table_text, whole_lines_say};
use row_types::{R, Schema};
use std::alloc::Global;

fn table_of(alloc: Global, items: Vec<LineItem>) -> R<Option<Schema>>
    ensures { IfOk result (λ told. told ≡ Some (schema_in items.items)) }
{
    Ok(Some(table_text(alloc, items.as_slice())?))
}

fn table_read(alloc: Global, reading: LineReading) -> R<Option<Schema>>
    ensures { (line : List ℕ) → length line ≤ 65535 → Opens TableLines line → IsReading TableLines [] line reading → IfOk result (λ told. MatchOption told (IsNoTable line) (λ schema. IsTableLine line schema)) }
{
    whole_lines_say();
    match reading {
        LineReading::Whole(items) => table_of(alloc, items),
        LineReading::Over(_) => Ok(None),
        LineReading::Misfit { .. } => Ok(None),
    }
}

fn table_line(alloc: Global, line: &[u8]) -> R<Option<Schema>>
    requires short { length line.now ≤ 65535 }
    requires opens { Opens TableLines line.now }
    ensures { IfOk result (λ told. MatchOption told (IsNoTable line.now) (λ schema. IsTableLine line.now schema)) }
{
    let counts = Counts::new(alloc);
    table_read(alloc, read_line(alloc, Section::TableLines, &counts, line)?)
}

/// The table of a TABLE line of the workload file.
#[tactic(auto, using(crate::proofs::TableLemmas::long_no_table, crate::proofs::TableLemmas::skipped_no_table, crate::proofs::TableLemmas::other_no_table, crate::proofs::TableLemmas::unopened_no_table))]
pub fn table_in(alloc: Global, line: &[u8]) -> R<Option<Schema>>
    ensures { IfOk result (λ told. MatchOption told (IsNoTable line.now) (λ schema. IsTableLine line.now schema)) }
{
    if line.len() > 65535 {
        return Ok(None);
    }
    match opening_of(line) {
        Opening::Opened(Section::TableLines) => table_line(alloc, line),
        Opening::Opened(_) => Ok(None),
        Opening::Skipped => Ok(None),
        Opening::Unopened { .. } => Ok(None),
    }
}
