ghost use Rattle.std.specs.Prelude.{◌≡◌, IfOk, OnOk};
ghost use Rattle.std.specs.List.{AllByRecursion};
ghost use Rattle.node_model.specs.Node.{committed_rows};
ghost use Rattle.node_parts.specs.Kept.{node_view, PartsKept};
ghost use Rattle.row_types.specs.KeyRows.{HasKey, put_row};
ghost use Rattle.node_parts.specs.Written.{written};
ghost use Rattle.node_parts.specs.PutAll.{IsKeyed, NoteIsKeyed, ArePutBack};

use crate::notes::{Note, Notes};
use crate::parts::Parts;
use crate::views::table_at;
use ordered_table::Table;
use row_types::{R, Row, Rows};
use std::alloc::Global;

/// The committed rows of a table, none where there is no such table.
pub fn committed_in(alloc: Global, parts: &Parts, number: u32) -> R<Rows>
    requires { PartsKept parts.now }
    ensures { IfOk result (λ rows. rows ≡ committed_rows (node_view parts.now) number) }
{
    match parts.schemas.tables.get(number) {
        None => Ok(Rows::new(alloc)),
        Some(_) => {
            let Some(live) = table_at(parts, number) else {
                unreachable!()
            };
            let rows = put_all_back(alloc, live, &parts.notes, number)?;
            Ok(rows)
        }
    }
}

/// The rows of a table, with all that is noted of it put back, the last first.
fn put_all_back(alloc: Global, live: &Table, notes: &Notes, number: u32) -> R<Rows>
    requires { AllByRecursion (NoteIsKeyed number live.now.key_len) notes.now.notes }
    ensures { IfOk result (λ rows. ArePutBack number live.now notes.now.notes rows) }
{
    let mut table = live.copy(alloc)?;
    let mut index = notes.len();
    while index > 0 {
        index -= 1;
        let note = notes.at(index);
        if note.table == number {
            put_copy(alloc, &mut table, note)?;
        }
    }
    let _ordered = table.len();
    table.into_rows(alloc)
}

/// Puts back a copy of what a note is of.
fn put_copy(alloc: Global, table: &mut Table, note: &Note) -> R<()>
    requires { IsKeyed table.old.key_len note.now }
    ensures rows { OnOk result (table.new.rows ≡ written table.old.key_len note.now.key note.now.was table.old.rows) }
    ensures key_len { table.new.key_len ≡ table.old.key_len }
{
    match &note.was {
        None => {
            table.remove(&note.key);
            Ok(())
        }
        Some(row) => {
            let row = row.copy(alloc)?;
            put_row(table, row)
        }
    }
}

fn put_row(table: &mut Table, row: Row) -> R<()>
    requires { HasKey table.old.key_len row }
    ensures rows { OnOk result (table.new.rows ≡ put_row table.old.key_len row table.old.rows) }
    ensures key_len { table.new.key_len ≡ table.old.key_len }
{
    match table.put(row) {
        Ok(_) => Ok(()),
        Err((_, error)) => Err(error),
    }
}
