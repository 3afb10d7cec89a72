ghost use Rattle.std.specs.Prelude.{◌≡◌, ◌≤◌, ℕ, List, length, IfOk};
ghost use Rattle.file_text.specs.declared.places.Section.TheVariants.{TableLines, RowLines};
ghost use Rattle.file_text.specs.Said.{Said};
ghost use Rattle.file_state.specs.Keeps.{Keeps, IsKept};
ghost use Rattle.line_takes.specs.Takes.{Takes, IsLine, IsNext, HasPlace, IsPutOf};

use file_state::FileState;
use line_checks::LineFault;
use line_decisions::{row_line_fault, table_fault};
use line_items::LineItem;
use line_values::{RowText, row_text, table_text};
use row_types::R;
use std::alloc::Global;

/// A TABLE line. After want of memory nothing is known of the state.
pub fn take_table(
    alloc: Global,
    state: &mut FileState,
    line: &[u8],
    items: &[LineItem],
) -> R<Option<LineFault>>
    requires { IsNext TableLines state.old line.now items.now }
    ensures { IfOk result (λ fault. (before : List Said) → Keeps state.old before → IsLine TableLines before line.now items.now → Takes before line.now state.new fault) }
{
    let schema = table_text(alloc, items)?;
    match table_fault(&state.marks, &state.rows, &schema) {
        Some(fault) => Ok(Some(fault)),
        None => {
            state.take_table(alloc, schema)?;
            Ok(None)
        }
    }
}

/// Puts a row that breaks no rule into its table.
fn put_row(alloc: Global, state: &mut FileState, row: &RowText) -> R<()>
    requires kept { IsKept state.old }
    requires place { HasPlace state.old row.now }
    ensures { IfOk result (λ done. IsPutOf row.now state.old state.new) }
{
    match state.rows.place_of(row.table.as_slice()) {
        None => unreachable!(),
        Some(place) => state.take_row(alloc, place, row.node, &row.values),
    }
}

/// A ROW line. After want of memory nothing is known of the state.
pub fn take_row(
    alloc: Global,
    state: &mut FileState,
    line: &[u8],
    items: Vec<LineItem>,
) -> R<Option<LineFault>>
    requires { IsNext RowLines state.old line.now items.items }
    ensures { IfOk result (λ fault. (before : List Said) → Keeps state.old before → IsLine RowLines before line.now items.items → Takes before line.now state.new fault) }
{
    let row = row_text(alloc, items)?;
    match row_line_fault(&state.marks, &state.rows, line, &row) {
        Some(fault) => Ok(Some(fault)),
        None => {
            put_row(alloc, state, &row)?;
            Ok(None)
        }
    }
}
