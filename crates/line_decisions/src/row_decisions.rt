ghost use Rattle.std.specs.Prelude.{◌≡◌, ◌≤◌, ◌<◌, ◌^◌, ◌↔◌, ℕ, List, false, None, map, length, IsTrue};
ghost use Rattle.std.specs.List.{AllByRecursion};
ghost use Rattle.row_types.specs.Faults.{IsShort, TextIsShort, row_fault as the_row_fault};
ghost use Rattle.file_text.specs.declared.places.Section.TheVariants.{RowLines};
ghost use Rattle.file_text.specs.Said.{Said, RowOf, Node, Literal, value_of};
ghost use Rattle.line_values.specs.Lines.{row_said};
ghost use Rattle.line_checks.specs.MarksOf.{IsMarked};
ghost use Rattle.file_rows.specs.Holds.{HoldsRows};
ghost use Rattle.line_decisions.specs.Decides.{Decides};
ghost use Rattle.line_decisions.specs.Rows.{node_actor as the_node_actor, unknown_actor as the_unknown_actor, row_twice as is_row_twice, row_tests};

use crate::tests::{LineTests, breaks_script, first_broken, replica_count};
use file_rows::{FileRows, FileTable};
use file_scripts::node_is_declared;
use file_text::Section;
use line_checks::{LineFault, Marks};
use line_items::part_place;
use line_values::RowText;
use line_words::NodeWord;
use row_types::{Row, RowFault, Schema, Value};

fn text_is_short(value: &Value) -> bool
    ensures { IsTrue result ↔ TextIsShort value.now }
{
    match value {
        Value::Text(text) => text.len() < 4_294_967_296,
        _ => true,
    }
}

fn texts_are_short(values: &[Value]) -> bool
    ensures { IsTrue result ↔ AllByRecursion TextIsShort values.now }
{
    let mut rest = values;
    while let Some((value, more)) = rest.split_first() {
        if !text_is_short(value) {
            return false;
        }
        rest = more;
    }
    true
}

fn is_short(schema: &Schema, row: &Row) -> bool
    ensures { IsTrue result ↔ IsShort schema.now row.now }
{
    schema.columns.len() < 4_294_967_296
        && row.len() < 4_294_967_296
        && texts_are_short(row.as_slice())
}

/// Why a row does not fit, if it does not. (Those of a line are short.)
fn row_fault(schema: &Schema, row: &Row) -> Option<RowFault>
    ensures { IsShort schema.now row.now → result ≡ the_row_fault schema.now row.now }
{
    if !is_short(schema, row) {
        return None;
    }
    match schema.check(row) {
        Ok(()) => None,
        Err(fault) => Some(fault),
    }
}

fn node_actor(replicas: u32, line: &[u8], node: NodeWord) -> Option<u32>
    requires { length line.now ≤ 65535 }
    ensures { result ≡ the_node_actor replicas line.now node }
{
    if node_is_declared(replicas, node) {
        return None;
    }
    Some(part_place(Section::RowLines, line, 1))
}

fn unknown_actor(replicas: u32, line: &[u8], node: NodeWord) -> Option<u32>
    requires { length line.now ≤ 65535 }
    ensures { result ≡ the_unknown_actor replicas line.now node }
{
    if node_is_declared(replicas, node) {
        return Some(part_place(Section::RowLines, line, 2));
    }
    Some(part_place(Section::RowLines, line, 1))
}

/// Whether a node that the line names has a row at its key.
fn row_twice(table: &FileTable, row: &RowText) -> bool
    ensures { result ≡ is_row_twice table.now row.now }
{
    table.schema.key_len as usize <= row.values.len()
        && table.has_row(row.node, table.schema.key_values(&row.values))
}

/// The tests of a row for a table that is there.
fn table_tests(marks: &Marks, table: &FileTable, line: &[u8], row: &RowText) -> LineTests
    requires { length line.now ≤ 65535 }
    ensures few { marks.now.replicas < 2 ^ 32 }
    ensures tests { IsShort table.now.schema row.now.values → result ≡ row_tests (is_row_twice table.now row.now) (the_row_fault table.now.schema row.now.values) (the_node_actor marks.now.replicas line.now row.now.node) marks.now }
{
    LineTests {
        twice: row_twice(table, row),
        level: false,
        row: row_fault(&table.schema, &row.values),
        script: breaks_script(marks, Section::RowLines),
        actor: node_actor(replica_count(marks), line, row.node),
    }
}

/// The tests of a row for a table that is not there.
fn unknown_tests(marks: &Marks, line: &[u8], row: &RowText) -> LineTests
    requires { length line.now ≤ 65535 }
    ensures few { marks.now.replicas < 2 ^ 32 }
    ensures tests { result ≡ row_tests false None (the_unknown_actor marks.now.replicas line.now row.now.node) marks.now }
{
    LineTests {
        twice: false,
        level: false,
        row: None,
        script: breaks_script(marks, Section::RowLines),
        actor: unknown_actor(replica_count(marks), line, row.node),
    }
}

/// The first rule that is broken by a ROW line of this row.
pub fn row_line_fault(
    marks: &Marks,
    rows: &FileRows,
    line: &[u8],
    row: &RowText,
) -> Option<LineFault>
    requires { length line.now ≤ 65535 }
    ensures { (before : List Said) (node : Node) (table : List ℕ) (literals : List Literal) → IsMarked marks.now before → HoldsRows rows.now.tables.items before → row.now ≡ row_said node table literals
        → length (map value_of literals) ≤ 65535 → AllByRecursion TextIsShort (map value_of literals) → Decides RowLines before line.now (RowOf node table literals) result }
{
    match rows.place_of(row.table.as_slice()) {
        None => first_broken(unknown_tests(marks, line, row)),
        Some(place) => first_broken(table_tests(marks, &rows.tables[place], line, row)),
    }
}
