ghost use Rattle.std.specs.Prelude.{◌≡◌, IfOk};
ghost use Rattle.row_types.specs.declared.edges.Edge.TheVariants.{Low, After};
ghost use Rattle.row_types.specs.Fit.{key_of};
ghost use Rattle.row_types.specs.Order.{no_keys};
ghost use Rattle.txn_walk.specs.Plans.{row_visit, last_visit, stop_visit, no_visit, walk_visit};
ghost use Rattle.txn_walk.specs.StopsAt.{is_live_in, plan_at};

use crate::plans::Plan;
use crate::walk_stops::Stops;
use lock_table::{LockTable, Owner};
use ordered_table::Table;
use ptc_statement::{Statement, reach};
use row_types::{Edge, Key, LockMode, R, Row, Schema, Span};
use std::alloc::Global;

/// The next visit of an owner's statement that is done up to the cursor, over its live table and what
/// others have locked. An INSERT or a REPLACE visits its row's own key; another statement walks the
/// stops of its reach, and takes each with the gap before it. `next_plan` takes nothing itself.
/// Source: MySQL Reference Manual, "Locks Set by Different SQL Statements in InnoDB".
pub fn next_plan(
    alloc: Global,
    statement: &Statement,
    schema: &Schema,
    cursor: &Edge,
    table: &Table,
    locks: &LockTable,
    owner: Owner,
) -> R<Plan>
    ensures { IfOk result (λ plan. plan ≡ plan_at schema.now statement.now cursor.now owner.0 table.now locks.now.held) }
{
    let stops = Stops {
        owner,
        number: statement.table(),
        table,
        locks,
    };
    match statement {
        Statement::Insert { row, .. } => row_plan(alloc, schema, row, LockMode::Shared, table),
        Statement::Replace { row, .. } => {
            row_plan(alloc, schema, row, LockMode::Exclusive, table)
        }
        Statement::Delete { .. }
        | Statement::Update { .. }
        | Statement::LockRead { .. }
        | Statement::Check { .. } => {
            let span = reach(alloc, statement, schema)?;
            walk_plan(alloc, statement.mode(), span, cursor, &stops)
        }
        Statement::SetMaster { .. } | Statement::ClearChecks { .. } => Ok(no_plan(Edge::Low)),
    }
}

/// INSERT and REPLACE visit their row's own key.
fn row_plan(alloc: Global, schema: &Schema, row: &Row, mode: LockMode, table: &Table) -> R<Plan>
    ensures { IfOk result (λ plan. plan ≡ row_visit (key_of schema.now row.now) mode (is_live_in table.now (key_of schema.now row.now))) }
{
    let key = Key::from_values(alloc, schema.key_values(row))?;
    let after = Edge::After(key.copy(alloc)?);
    let is_live = table.get(&key).is_some();
    Ok(plan_at_key(key, after, mode, is_live))
}

/// A visit at a live key takes a lock of this mode there; at another key it puts the row in.
fn plan_at_key(key: Key, after: Edge, mode: LockMode, is_live: bool) -> Plan
    requires { after ≡ After key }
    ensures { result ≡ row_visit key mode is_live }
{
    let mode = if is_live { mode } else { LockMode::Exclusive };
    Plan {
        gap: None,
        on_key: Some((key, mode)),
        insert: !is_live,
        after,
        ends: true,
    }
}

/// A statement without keys in its reach takes nothing and is done.
fn no_plan(hi: Edge) -> Plan
    ensures { result ≡ no_visit (record { lo = Low; hi = hi }) }
{
    Plan {
        gap: None,
        on_key: None,
        insert: false,
        after: hi,
        ends: true,
    }
}

/// A walk visits the stops in its reach one after the other.
fn walk_plan(alloc: Global, mode: LockMode, reach: Span, cursor: &Edge, stops: &Stops) -> R<Plan>
    ensures { IfOk result (λ plan. plan ≡ walk_visit mode reach cursor.now stops.now) }
{
    if reach.hi.compare(&reach.lo).is_le() {
        return Ok(no_plan(reach.hi));
    }
    match stops.next(alloc, cursor)? {
        None => last_plan(alloc, reach, cursor, stops),
        Some(stop) => {
            let after = Edge::After(stop.copy(alloc)?);
            if after.compare(&reach.hi).is_le() {
                stop_plan(alloc, mode, reach, stop, after, cursor, stops)
            } else {
                last_plan(alloc, reach, cursor, stops)
            }
        }
    }
}

/// The last visit of a walk takes the gap behind its last stop.
fn last_plan(alloc: Global, reach: Span, cursor: &Edge, stops: &Stops) -> R<Plan>
    ensures { IfOk result (λ plan. plan ≡ last_visit reach cursor.now stops.now) }
{
    let gap = stops.gap_at(alloc, cursor)?;
    Ok(Plan {
        gap: Some(gap),
        on_key: None,
        insert: false,
        after: reach.hi,
        ends: true,
    })
}

/// A visit at a stop takes the gap before it, unless it begins exactly there.
fn stop_plan(
    alloc: Global,
    mode: LockMode,
    reach: Span,
    stop: Key,
    after: Edge,
    cursor: &Edge,
    stops: &Stops,
) -> R<Plan>
    requires { after ≡ After stop }
    ensures { IfOk result (λ plan. plan ≡ stop_visit mode reach cursor.now stops.now stop) }
{
    let before = Edge::Before(stop.copy(alloc)?);
    let ends = after.compare(&reach.hi).is_eq();
    if cursor.compare(&before).is_eq() {
        return Ok(Plan {
            gap: None,
            on_key: Some((stop, mode)),
            insert: false,
            after,
            ends,
        });
    }
    let gap = stops.gap_at(alloc, cursor)?;
    Ok(Plan {
        gap: Some(gap),
        on_key: Some((stop, mode)),
        insert: false,
        after,
        ends,
    })
}
