use ptc_statement::{Cond, Statement, Statements, act};
use row_types::{LockMode, R, Row, Span, Value};
use statement_builders::{
    SET_MASTER, check, clear_checks, column_is, delete, insert, lock_read, one, replace, set_five,
    update,
};
use std::alloc::Global;
use std::test::Fail;
use test_builders::{key, null_row, pair_schema, row};

/// The second number beside a first one in the rows (2, 20), (4, 40), (6, 60).
fn of_three(id: i64) -> Option<i64> {
    match id {
        2 => Some(20),
        4 => Some(40),
        6 => Some(60),
        _ => None,
    }
}

/// The row of two numbers, if there is a second one.
fn maybe_row(alloc: Global, id: i64, value: Option<i64>) -> R<Option<Row>> {
    match value {
        None => Ok(None),
        Some(value) => Ok(Some(row(alloc, id, value)?)),
    }
}

fn is_pair(row: &Row, id: i64, value: i64) -> bool {
    match row.as_slice() {
        [Value::Int(own_id), Value::Int(own_value)] => *own_id == id && *own_value == value,
        _ => false,
    }
}

fn is_left(left: &Option<Row>, id: i64, value: Option<i64>) -> bool {
    match (left, value) {
        (None, None) => true,
        (Some(row), Some(value)) => is_pair(row, id, value),
        _ => false,
    }
}

/// What a statement leaves at a key.
fn left_at(alloc: Global, statement: &Statement, id: i64, old: Option<&Row>) -> R<Option<Row>> {
    let schema = pair_schema(alloc, b"t")?;
    act(alloc, statement, &schema, &key(alloc, id)?, old)
}

/// Whether a statement leaves at a key the row with this number, where one with the old number is, or
/// none.
fn gives(
    alloc: Global,
    statement: &Statement,
    id: i64,
    old: Option<i64>,
    new: Option<i64>,
) -> R<bool> {
    let old = maybe_row(alloc, id, old)?;
    let left = left_at(alloc, statement, id, old.as_ref())?;
    Ok(is_left(&left, id, new))
}

/// Whether a statement leaves at this key of the three rows this number, or no row, and the others as
/// they are, as told at each key from 0 to 8.
fn changes_one(alloc: Global, statement: &Statement, changed: i64, new: Option<i64>) -> R<bool> {
    for id in 0..9i64 {
        let old = of_three(id);
        let wanted = if id == changed { new } else { old };
        if !gives(alloc, statement, id, old, wanted)? {
            return Ok(false);
        }
    }
    Ok(true)
}

/// Whether a statement leaves at each key of the three rows this number, or no row.
fn changes_all(alloc: Global, statement: &Statement, new: Option<i64>) -> R<bool> {
    for id in 0..9i64 {
        let old = of_three(id);
        let wanted = if old.is_some() { new } else { None };
        if !gives(alloc, statement, id, old, wanted)? {
            return Ok(false);
        }
    }
    Ok(true)
}

/// Whether each of the statements leaves this number, or no row, at this key of the three rows.
fn each_changes(alloc: Global, statements: &Statements, changed: i64, new: Option<i64>) -> R<bool> {
    for statement in statements.as_slice() {
        if !changes_one(alloc, statement, changed, new)? {
            return Ok(false);
        }
    }
    Ok(true)
}

/// Whether each of the statements leaves the three rows.
fn each_leaves_all(alloc: Global, statements: &Statements) -> R<bool> {
    each_changes(alloc, statements, 9, None)
}

/// Whether each of the statements leaves this number, or no row, at each key of the three rows.
fn each_changes_all(alloc: Global, statements: &Statements, new: Option<i64>) -> R<bool> {
    for statement in statements.as_slice() {
        if !changes_all(alloc, statement, new)? {
            return Ok(false);
        }
    }
    Ok(true)
}

fn insert_leaves(alloc: Global, id: i64, value: i64) -> R<bool> {
    let inserts = one(alloc, insert(alloc, id, 5)?)?;
    each_changes(alloc, &inserts, id, Some(value))
}

fn replace_leaves(alloc: Global, id: i64, value: i64) -> R<bool> {
    let replaces = one(alloc, replace(alloc, id, 5)?)?;
    each_changes(alloc, &replaces, id, Some(value))
}

fn delete_takes(alloc: Global, column: u32, value: i64, id: i64) -> R<bool> {
    let deletes = one(alloc, delete(column_is(column, Value::Int(value))))?;
    each_changes(alloc, &deletes, id, None)
}

fn delete_takes_all(alloc: Global) -> R<bool> {
    let deletes = one(alloc, delete(None))?;
    each_changes_all(alloc, &deletes, None)
}

fn updates(alloc: Global, cond: Option<Cond>) -> R<Statements> {
    one(alloc, update(set_five(alloc)?, cond))
}

fn update_sets(alloc: Global, column: u32, value: i64, id: i64) -> R<bool> {
    let updates = updates(alloc, column_is(column, Value::Int(value)))?;
    each_changes(alloc, &updates, id, Some(5))
}

fn update_sets_all(alloc: Global) -> R<bool> {
    let updates = updates(alloc, None)?;
    each_changes_all(alloc, &updates, Some(5))
}

fn update_of_absent_key(alloc: Global) -> R<bool> {
    let updates = updates(alloc, column_is(0, Value::Int(3)))?;
    each_leaves_all(alloc, &updates)
}

/// An INSERT puts its row at an absent key, and leaves the row at a present one.
#[test]
fn inserts_put_rows_in(rt: HostRuntime) -> Result<(), Fail> {
    let alloc = rt.alloc();
    assert!(rt; insert_leaves(alloc, 1, 5)?);
    assert!(rt; insert_leaves(alloc, 5, 5)?);
    assert!(rt; insert_leaves(alloc, 7, 5)?);
    assert!(rt; insert_leaves(alloc, 4, 40)?);
    Ok(())
}

/// A REPLACE puts its row at its key, whether that is there or not.
#[test]
fn replaces_put_rows_in(rt: HostRuntime) -> Result<(), Fail> {
    let alloc = rt.alloc();
    assert!(rt; replace_leaves(alloc, 1, 5)?);
    assert!(rt; replace_leaves(alloc, 4, 5)?);
    assert!(rt; replace_leaves(alloc, 6, 5)?);
    assert!(rt; replace_leaves(alloc, 7, 5)?);
    Ok(())
}

/// A DELETE takes the rows of its condition away, by the key or by another column, or all.
#[test]
fn deletes_take_rows_away(rt: HostRuntime) -> Result<(), Fail> {
    let alloc = rt.alloc();
    assert!(rt; delete_takes(alloc, 0, 2, 2)?);
    assert!(rt; delete_takes(alloc, 1, 40, 4)?);
    assert!(rt; delete_takes(alloc, 0, 3, 3)?);
    assert!(rt; delete_takes_all(alloc)?);
    Ok(())
}

/// An UPDATE changes the rows of its condition, or all.
#[test]
fn updates_change_rows(rt: HostRuntime) -> Result<(), Fail> {
    let alloc = rt.alloc();
    assert!(rt; update_sets(alloc, 0, 6, 6)?);
    assert!(rt; update_sets(alloc, 1, 20, 2)?);
    assert!(rt; update_of_absent_key(alloc)?);
    assert!(rt; update_sets_all(alloc)?);
    Ok(())
}

/// Two locking reads of all rows, for share and for update.
fn reads(alloc: Global) -> R<Statements> {
    let mut statements = Statements::new(alloc);
    statements.push(lock_read(LockMode::Shared, Span::whole(), None))?;
    statements.push(lock_read(LockMode::Exclusive, Span::whole(), None))?;
    Ok(statements)
}

/// The checksum tool's statements.
fn tool_statements(alloc: Global) -> R<Statements> {
    let mut statements = Statements::new(alloc);
    statements.push(check(Span::whole()))?;
    statements.push(SET_MASTER)?;
    statements.push(clear_checks())?;
    Ok(statements)
}

/// Locking reads and the checksum tool's statements leave every row.
#[test]
fn other_statements_leave_rows(rt: HostRuntime) -> Result<(), Fail> {
    let alloc = rt.alloc();
    assert!(rt; each_leaves_all(alloc, &reads(alloc)?)?);
    assert!(rt; each_leaves_all(alloc, &tool_statements(alloc)?)?);
    Ok(())
}

/// Whether a statement takes the row of a key and NULL away.
fn null_row_goes(alloc: Global, statement: &Statement) -> R<bool> {
    let old = null_row(alloc, 1)?;
    let left = left_at(alloc, statement, 1, Some(&old))?;
    Ok(left.is_none())
}

fn each_takes_null_row(alloc: Global, statements: &Statements) -> R<bool> {
    for statement in statements.as_slice() {
        if !null_row_goes(alloc, statement)? {
            return Ok(false);
        }
    }
    Ok(true)
}

/// Whether a DELETE with the condition does.
fn takes_null_row(alloc: Global, cond: Option<Cond>) -> R<bool> {
    let deletes = one(alloc, delete(cond))?;
    each_takes_null_row(alloc, &deletes)
}

/// A comparison with NULL takes no row, and without a condition each is taken.
#[test]
fn null_is_unknown(rt: HostRuntime) -> Result<(), Fail> {
    let alloc = rt.alloc();
    assert!(rt; !takes_null_row(alloc, column_is(1, Value::Null))?);
    assert!(rt; !takes_null_row(alloc, column_is(1, Value::Int(5)))?);
    assert!(rt; takes_null_row(alloc, None)?);
    Ok(())
}

/// Whether the statements have these modes, and each is logged or none is.
fn are_so(statements: &Statements, modes: &[LockMode], are_logged: bool) -> bool {
    for (statement, mode) in statements.as_slice().iter().zip(modes.iter()) {
        if statement.mode() != *mode || statement.is_logged() != are_logged {
            return false;
        }
    }
    statements.len() == modes.len()
}

const READ_MODES: [LockMode; 2] = [LockMode::Shared, LockMode::Exclusive];

const TOOL_MODES: [LockMode; 3] = [LockMode::Shared, LockMode::Exclusive, LockMode::Exclusive];

/// The mode is that of the locking read, shared for CHECKSUM, and else exclusive; all statements but
/// locking reads are logged.
#[test]
fn statements_have_modes(rt: HostRuntime) -> Result<(), Fail> {
    let alloc = rt.alloc();
    assert!(rt; are_so(&reads(alloc)?, &READ_MODES, false));
    assert!(rt; are_so(&tool_statements(alloc)?, &TOOL_MODES, true));
    assert!(rt; are_so(&one(alloc, delete(None))?, &[LockMode::Exclusive], true));
    Ok(())
}
