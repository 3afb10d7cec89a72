ghost use Rattle.std.specs.Prelude.{ℕ, ◌≡◌, ◌≤◌, ◌+◌, [], ◌∷◌, ◌++◌, None, Some, IfOk, OnOk};
ghost use Rattle.row_types.specs.Fit.{IsSchema, IsTable, RowFits};
ghost use Rattle.ptc_statement.specs.Effect.{after_sets, effect_within};
ghost use Rattle.ptc_statement.specs.Fits.{StatementFits};
ghost use Rattle.ptc_statement.specs.declared.statements.Statement.TheVariants.{Insert, Replace};
ghost use Rattle.row_types.specs.KeyRows.{rows_in};
ghost use Rattle.table_changes.specs.declared.row_changes.RowChange.TheVariants.{Put};
ghost use Rattle.table_changes.specs.RowChanges.{ChangeHasKey, done, room_of, row_changed, is_same, changes_to, changes_within};
ghost use Rattle.table_changes.specs.Plans.{ChangeFits, IsDue, IsSound};

use crate::row_changes::{RowChange, RowChanges};
use ordered_table::Table;
use ptc_statement::{Assignments, Statement, reach, takes, updated};
use row_types::{Key, R, Row, Schema, Span, compare_values};
use std::alloc::Global;

/// What a statement does to a table, worked out before anything is changed: the changes of its rows,
/// and the number of rows, 0 or 1, that it puts at absent keys and for which room has to be reserved.
#[derive(Debug, Drop)]
pub struct TableChange {
    pub rows: RowChanges,
    pub room: u64,
}

/// The change that a statement makes to a table. Only the rows in the statement's reach are visited,
/// and the table stays as it is.
pub fn planned(
    alloc: Global,
    statement: &Statement,
    schema: &Schema,
    table: &Table,
) -> R<TableChange>
    requires statement { StatementFits schema.now statement.now }
    requires schema { IsSchema schema.now }
    requires table { IsTable schema.now table.now.rows }
    requires key_len { table.now.key_len ≡ schema.now.key_len }
    ensures { IfOk result (IsDue table.now.key_len schema.now statement.now table.now.rows) }
{
    match statement {
        Statement::Insert { row, .. } => insertion(alloc, schema, row, table),
        Statement::Replace { row, .. } => replacement(alloc, schema, row, table),
        Statement::Delete { .. } | Statement::Update { .. } => {
            revision(alloc, statement, schema, table)
        }
        Statement::LockRead { .. }
        | Statement::Check { .. }
        | Statement::SetMaster { .. }
        | Statement::ClearChecks { .. } => Ok(nothing(alloc)),
    }
}

/// The change that leaves every row.
fn nothing(alloc: Global) -> TableChange
    ensures { result ≡ record { rows = []; room = 0 } }
{
    TableChange {
        rows: RowChanges::new(alloc),
        room: 0,
    }
}

/// The change that puts one row.
fn one_put(alloc: Global, row: &Row, room: u64) -> R<TableChange>
    ensures { IfOk result (λ change. change ≡ record { rows = Put row.now ∷ []; room = room }) }
{
    let mut rows = RowChanges::new(alloc);
    rows.push(RowChange::Put(row.copy(alloc)?))?;
    Ok(TableChange { rows, room })
}

/// The change that puts a row in at an absent key, and at a present one leaves the rows.
fn insertion(alloc: Global, schema: &Schema, row: &Row, table: &Table) -> R<TableChange>
    requires row { RowFits schema.now row.now }
    requires sound { IsSound schema.now table.now.key_len table.now.rows }
    ensures { IfOk result (λ change. (number : ℕ) → IsDue table.now.key_len schema.now (Insert number row.now) table.now.rows change) }
{
    match table.get_at(schema.key_values(row)) {
        None => one_put(alloc, row, 1),
        Some(_) => Ok(nothing(alloc)),
    }
}

/// The change that puts a row at its place, instead of one that has its key.
fn replacement(alloc: Global, schema: &Schema, row: &Row, table: &Table) -> R<TableChange>
    requires row { RowFits schema.now row.now }
    requires sound { IsSound schema.now table.now.key_len table.now.rows }
    ensures { IfOk result (λ change. (number : ℕ) → IsDue table.now.key_len schema.now (Replace number row.now) table.now.rows change) }
{
    match table.get_at(schema.key_values(row)) {
        None => one_put(alloc, row, 1),
        Some(_) => one_put(alloc, row, 0),
    }
}

/// The change of the rows in the reach of a statement that puts none at an absent key.
fn revision(alloc: Global, statement: &Statement, schema: &Schema, table: &Table) -> R<TableChange>
    requires statement { StatementFits schema.now statement.now }
    requires absent { effect_within schema.now statement.now None ≡ None }
    requires sound { IsSound schema.now table.now.key_len table.now.rows }
    ensures { IfOk result (IsDue table.now.key_len schema.now statement.now table.now.rows) }
{
    let span = reach(alloc, statement, schema)?;
    let rows = changes_in(alloc, statement, schema, table, &span)?;
    Ok(TableChange { rows, room: 0 })
}

/// The changes that a statement makes to the rows of a span, in its reach.
fn changes_in(
    alloc: Global,
    statement: &Statement,
    schema: &Schema,
    table: &Table,
    span: &Span,
) -> R<RowChanges>
    requires absent { effect_within schema.now statement.now None ≡ None }
    ensures { IfOk result (λ changes. changes ≡ changes_within schema.now statement.now (rows_in table.now.key_len span.now table.now.rows)) }
{
    let mut changes = RowChanges::new(alloc);
    let mut ahead = table.each(span);
    while let Some(row) = ahead.next_row() {
        push_change(alloc, statement, schema, row, &mut changes)?;
    }
    Ok(changes)
}

/// Puts what a statement that makes no row does to a row in its reach at the end, if it does anything.
/// Nothing is copied of a row that the statement doesn't take.
fn push_change(
    alloc: Global,
    statement: &Statement,
    schema: &Schema,
    row: &Row,
    changes: &mut RowChanges,
) -> R<()>
    requires absent { effect_within schema.now statement.now None ≡ None }
    ensures { OnOk result (changes.new ≡ changes.old ++ changes_to schema.now row.now (effect_within schema.now statement.now (Some row.now))) }
{
    match statement {
        Statement::Delete { cond, .. } => {
            if takes(schema, cond, row) {
                push_gone(alloc, schema, row, changes)?;
            }
            Ok(())
        }
        Statement::Update { sets, cond, .. } => {
            if takes(schema, cond, row) {
                push_updated(alloc, schema, sets, row, changes)?;
            }
            Ok(())
        }
        _ => Ok(()),
    }
}

/// Puts the change at the end that takes a row away.
fn push_gone(alloc: Global, schema: &Schema, row: &Row, changes: &mut RowChanges) -> R<()>
    ensures { OnOk result (changes.new ≡ changes.old ++ changes_to schema.now row.now None) }
{
    let key = Key::from_values(alloc, schema.key_values(row))?;
    changes.push(RowChange::Gone(key))
}

/// Puts the change at the end that an UPDATE's assignments make to a row, if they change it.
fn push_updated(
    alloc: Global,
    schema: &Schema,
    sets: &Assignments,
    row: &Row,
    changes: &mut RowChanges,
) -> R<()>
    ensures { OnOk result (changes.new ≡ changes.old ++ changes_to schema.now row.now (Some (after_sets schema.now sets.now row.now))) }
{
    let new = updated(alloc, schema, sets, row)?;
    if is_same(&new, row) {
        return Ok(());
    }
    changes.push(RowChange::Put(new))
}

/// Whether two rows have the same values.
fn is_same(ours: &Row, theirs: &Row) -> bool
    ensures { result ≡ is_same ours.now theirs.now }
{
    compare_values(ours.as_slice(), theirs.as_slice()).is_eq()
}

/// Does a change to the table for whose rows it was worked out, without memory: room for the rows that
/// it puts at absent keys has been reserved.
pub fn perform(table: &mut Table, change: TableChange)
    requires fits { ChangeFits table.old.key_len table.old.rows change }
    requires room { change.room ≤ table.old.spare }
    ensures rows { table.new.rows ≡ done table.old.key_len change.rows table.old.rows }
    ensures key_len { table.new.key_len ≡ table.old.key_len }
    ensures spare { table.old.spare ≤ table.new.spare + change.room }
{
    let mut changes = change.rows;
    while let Some(change) = changes.pop() {
        change_row(table, change);
    }
}

/// Does one change of a row.
fn change_row(table: &mut Table, change: RowChange)
    requires key { ChangeHasKey table.old.key_len change }
    requires room { room_of table.old.key_len change table.old.rows ≤ table.old.spare }
    ensures rows { table.new.rows ≡ row_changed table.old.key_len change table.old.rows }
    ensures key_len { table.new.key_len ≡ table.old.key_len }
    ensures spare { table.old.spare ≤ table.new.spare + room_of table.old.key_len change table.old.rows }
{
    match change {
        RowChange::Gone(key) => {
            table.remove(&key);
        }
        RowChange::Put(row) => {
            table.put_back(row);
        }
    }
}
