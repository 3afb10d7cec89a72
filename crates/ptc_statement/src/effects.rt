ghost use Rattle.std.specs.Prelude.{◌≡◌, ◌≤◌, ◌<◌, ◌+◌, ◌-◌, List, [], ◌∷◌, ◌++◌, Some, None, Option, length, take, slice_set, IfOk, OnOk, OnErr};
ghost use Rattle.std.specs.Option.{option_copied};
ghost use Rattle.row_types.specs.Faults.{clipped};
ghost use Rattle.ptc_statement.specs.Effect.{empty_of, cut, stored, assigned, after_sets, effect, effect_within};

use crate::assignments::{Assignment, Assignments};
use crate::evaluation::takes;
use crate::reaches::reach;
use crate::statements::Statement;
use row_types::{Bytes, Column, ColumnKind, Key, R, Row, Schema, Value, clip};
use std::alloc::Global;

/// The row, or none, at a key after a statement; outside the statement's reach the old one.
pub fn act(
    alloc: Global,
    statement: &Statement,
    schema: &Schema,
    key: &Key,
    old: Option<&Row>,
) -> R<Option<Row>>
    ensures { IfOk result (λ row. row ≡ effect schema.now statement.now key.now (option_copied old.entry)) }
{
    let span = reach(alloc, statement, schema)?;
    match old {
        None => {
            if span.has(key) {
                return row_made(alloc, statement);
            }
            Ok(None)
        }
        Some(row) => {
            if span.has(key) {
                return row_left(alloc, statement, schema, row);
            }
            Ok(Some(row.copy(alloc)?))
        }
    }
}

/// What a statement makes at an absent key in its reach.
fn row_made(alloc: Global, statement: &Statement) -> R<Option<Row>>
    ensures { IfOk result (λ row. (schema : Schema) → row ≡ effect_within schema statement.now None) }
{
    match statement {
        Statement::Insert { row, .. } | Statement::Replace { row, .. } => {
            Ok(Some(row.copy(alloc)?))
        }
        _ => Ok(None),
    }
}

/// What a statement leaves of a row in its reach.
fn row_left(alloc: Global, statement: &Statement, schema: &Schema, row: &Row) -> R<Option<Row>>
    ensures { IfOk result (λ left. left ≡ effect_within schema.now statement.now (Some row.now)) }
{
    match statement {
        Statement::Replace { row: new, .. } => Ok(Some(new.copy(alloc)?)),
        Statement::Delete { cond, .. } => {
            if takes(schema, cond, row) {
                return Ok(None);
            }
            Ok(Some(row.copy(alloc)?))
        }
        Statement::Update { sets, cond, .. } => {
            if takes(schema, cond, row) {
                return Ok(Some(updated(alloc, schema, sets, row)?));
            }
            Ok(Some(row.copy(alloc)?))
        }
        _ => Ok(Some(row.copy(alloc)?)),
    }
}

/// The row with an UPDATE's assignments done, from the first to the last.
/// Source: MySQL Reference Manual, "UPDATE Statement".
pub fn updated(alloc: Global, schema: &Schema, sets: &Assignments, row: &Row) -> R<Row>
    ensures { IfOk result (λ new. new ≡ after_sets schema.now sets.now row.now) }
{
    let mut new = row.copy(alloc)?;
    let mut rest = sets.as_slice();
    while let Some((assignment, more)) = rest.split_first() {
        assign(alloc, schema, assignment, &mut new)?;
        rest = more;
    }
    Ok(new)
}

/// Does one assignment to a row; a refusal leaves the row.
fn assign(alloc: Global, schema: &Schema, assignment: &Assignment, row: &mut Row) -> R<()>
    ensures ok { OnOk result (row.new ≡ assigned schema.now assignment.now row.old) }
    ensures err { OnErr result (row.new ≡ row.old) }
{
    let place = assignment.column as usize;
    match schema.columns.as_slice().get(place) {
        None => Ok(()),
        Some(column) => {
            let value = assignment.expr.value(alloc, row)?;
            let value = kept(alloc, column, value)?;
            set_value(row, place, value);
            Ok(())
        }
    }
}

/// Makes this the row's value of a column; a row that hasn't the column stays.
fn set_value(row: &mut Row, place: usize, value: Value)
    ensures { row.new ≡ slice_set row.old place value }
{
    if place < row.items.len() {
        row.items[place] = value;
    }
}

/// What a column keeps of a value that is assigned to it: a number is clipped, a text is cut, and NULL is 0 or
/// the empty text where the column takes none. Answers an error only when out of memory.
/// Source: MySQL Reference Manual, "Server SQL Modes" (without strict mode) and "UPDATE Statement".
pub fn kept(alloc: Global, column: &Column, value: Value) -> R<Value>
    ensures { IfOk result (λ kept. kept ≡ stored column.now value) }
{
    match value {
        Value::Null => Ok(kept_null(alloc, column)),
        Value::Int(number) => Ok(Value::Int(clip_number(column.kind, number))),
        Value::Text(text) => Ok(Value::Text(cut_text(alloc, column.kind, text)?)),
    }
}

/// What a column keeps of NULL.
fn kept_null(alloc: Global, column: &Column) -> Value
    ensures { result ≡ stored column.now Value.Null }
{
    if column.nullable {
        return Value::Null;
    }
    match column.kind {
        ColumnKind::Int | ColumnKind::BigInt => Value::Int(0),
        ColumnKind::Text { .. } => Value::Text(Bytes::new(alloc)),
    }
}

/// A number, clipped to its column.
fn clip_number(kind: ColumnKind, number: i64) -> i64
    ensures { result ≡ clipped kind number }
{
    match kind {
        ColumnKind::Int | ColumnKind::BigInt => clip(&kind, number as i128),
        ColumnKind::Text { .. } => number,
    }
}

/// A text, cut to its column's length in bytes.
fn cut_text(alloc: Global, kind: ColumnKind, text: Bytes) -> R<Bytes>
    ensures { IfOk result (λ kept. kept ≡ cut kind text) }
{
    match kind {
        ColumnKind::Int | ColumnKind::BigInt => Ok(text),
        ColumnKind::Text { max } => {
            if text.len() <= max as usize {
                return Ok(text);
            }
            Ok(Bytes {
                items: Vec::from_slice(alloc, text.as_slice().split_at(max as usize).0)?,
            })
        }
    }
}
