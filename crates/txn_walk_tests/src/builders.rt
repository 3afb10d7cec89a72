//! A table with rows and a lock on it, statements, and what their visits are to be.
use lock_table::{LockTable, Owner, Want};
use ordered_table::Table;
use ptc_statement::{Cond, Expr, Op, Statement};
use row_types::{DigestKind, Edge, Key, LockMode, Memory, R, Row, Schema, Span, Value};
use std::alloc::Global;
use test_builders::{key, pair_schema, row};
use txn_walk::{Plan, next_plan};

/// A table, its form, and what owners hold on it.
#[derive(Drop)]
pub(crate) struct LiveTable {
    schema: Schema,
    rows: Table,
    locks: LockTable,
}

fn put(table: &mut Table, row: Row) -> R<()> {
    if !table.takes(&row) {
        return Err(Memory);
    }
    match table.put(row) {
        Ok(_) => Ok(()),
        Err((_, memory)) => Err(memory),
    }
}

/// The rows of the keys 10, 20 and 30.
fn three_rows(alloc: Global) -> R<Table> {
    let mut table = Table::new(alloc, 1);
    for id in [20, 10, 30] {
        put(&mut table, row(alloc, id, 0)?)?;
    }
    Ok(table)
}

/// Takes an exclusive lock on a key for owner 2.
fn lock(locks: &mut LockTable, key: Key) -> R<()> {
    let mode = LockMode::Exclusive;
    let want = Want::OnKey { key, mode };
    match locks.excluder(Owner(2), 0, &want) {
        Some(_) => Ok(()),
        None => locks.take(Owner(2), 0, want, None),
    }
}

/// Owner 2 has an exclusive lock on key 25, where no row is.
fn one_lock(alloc: Global) -> R<LockTable> {
    let key = key(alloc, 25)?;
    let mut locks = LockTable::new(alloc);
    lock(&mut locks, key)?;
    Ok(locks)
}

/// Rows of the keys 10, 20 and 30, and a lock of owner 2 on key 25.
pub(crate) fn live_table(alloc: Global) -> R<LiveTable> {
    let schema = pair_schema(alloc, b"t")?;
    let rows = three_rows(alloc)?;
    let locks = one_lock(alloc)?;
    Ok(LiveTable {
        schema,
        rows,
        locks,
    })
}

/// An edge at a key of one number.
#[derive(Clone, Copy)]
pub(crate) enum Place {
    Low,
    Before(i64),
    After(i64),
    High,
}

/// A statement on the table.
#[derive(Clone, Copy)]
pub(crate) enum Sample {
    Checksum,
    DeleteWhere(Op, i64),
    Read(LockMode),
    ReadNothing,
    ClearChecks,
    Insert(i64),
    Replace(i64),
}

/// What a visit is to be.
#[derive(Clone, Copy)]
pub(crate) struct Visit {
    pub(crate) gap: Option<(Place, Place)>,
    pub(crate) on_key: Option<(i64, LockMode)>,
    pub(crate) insert: bool,
    pub(crate) after: Place,
    pub(crate) ends: bool,
}

fn edge(alloc: Global, place: Place) -> R<Edge> {
    match place {
        Place::Low => Ok(Edge::Low),
        Place::Before(id) => Ok(Edge::Before(key(alloc, id)?)),
        Place::After(id) => Ok(Edge::After(key(alloc, id)?)),
        Place::High => Ok(Edge::High),
    }
}

/// A locking read of all keys from the lowest edge to another.
fn read(mode: LockMode, hi: Edge) -> Statement {
    let span = Span { lo: Edge::Low, hi };
    Statement::LockRead {
        table: 0,
        mode,
        span,
        cond: None,
    }
}

/// DELETE where the key compares so with a number.
fn delete_where(op: Op, id: i64) -> Statement {
    let left = Expr::Cell(0);
    let right = Expr::Lit(Value::Int(id));
    Statement::Delete {
        table: 0,
        cond: Some(Cond::Compare { op, left, right }),
    }
}

fn checksum() -> Statement {
    Statement::Check {
        table: 0,
        chunk: 1,
        span: Span::whole(),
        kind: DigestKind::Md5,
    }
}

fn statement(alloc: Global, sample: Sample) -> R<Statement> {
    match sample {
        Sample::Checksum => Ok(checksum()),
        Sample::DeleteWhere(op, id) => Ok(delete_where(op, id)),
        Sample::Read(mode) => Ok(read(mode, Edge::High)),
        Sample::ReadNothing => Ok(read(LockMode::Shared, Edge::Low)),
        Sample::ClearChecks => Ok(Statement::ClearChecks { table: 0 }),
        Sample::Insert(id) => {
            let row = row(alloc, id, 1)?;
            Ok(Statement::Insert { table: 0, row })
        }
        Sample::Replace(id) => {
            let row = row(alloc, id, 1)?;
            Ok(Statement::Replace { table: 0, row })
        }
    }
}

/// The next visit of an owner's statement that is done up to an edge.
fn plan_from(
    alloc: Global,
    live: &LiveTable,
    owner: u32,
    statement: &Statement,
    cursor: &Edge,
) -> R<Plan> {
    let owner = Owner(owner);
    next_plan(
        alloc,
        statement,
        &live.schema,
        cursor,
        &live.rows,
        &live.locks,
        owner,
    )
}

/// The next visit of an owner's sample that is done up to a place.
pub(crate) fn plan(
    alloc: Global,
    live: &LiveTable,
    owner: u32,
    sample: Sample,
    cursor: Place,
) -> R<Plan> {
    let cursor = edge(alloc, cursor)?;
    let statement = statement(alloc, sample)?;
    plan_from(alloc, live, owner, &statement, &cursor)
}

fn is_key(key: &Key, wanted: i64) -> bool {
    match key.as_slice() {
        [Value::Int(id)] => *id == wanted,
        _ => false,
    }
}

fn is_edge(edge: &Edge, wanted: Place) -> bool {
    match (edge, wanted) {
        (Edge::Low, Place::Low) | (Edge::High, Place::High) => true,
        (Edge::Before(key), Place::Before(id)) => is_key(key, id),
        (Edge::After(key), Place::After(id)) => is_key(key, id),
        _ => false,
    }
}

fn is_gap(gap: &Option<Span>, wanted: Option<(Place, Place)>) -> bool {
    match (gap, wanted) {
        (None, None) => true,
        (Some(span), Some((lo, hi))) => is_edge(&span.lo, lo) && is_edge(&span.hi, hi),
        _ => false,
    }
}

fn is_lock(lock: &Option<(Key, LockMode)>, wanted: Option<(i64, LockMode)>) -> bool {
    match (lock, wanted) {
        (None, None) => true,
        (Some((key, mode)), Some((id, wanted_mode))) => is_key(key, id) && *mode == wanted_mode,
        _ => false,
    }
}

/// Whether a plan is this visit.
pub(crate) fn is_visit(plan: &Plan, wanted: Visit) -> bool {
    is_gap(&plan.gap, wanted.gap)
        && is_lock(&plan.on_key, wanted.on_key)
        && plan.insert == wanted.insert
        && is_edge(&plan.after, wanted.after)
        && plan.ends == wanted.ends
}

/// Whether the next visit of an owner's sample is this.
pub(crate) fn is_next(
    alloc: Global,
    live: &LiveTable,
    owner: u32,
    sample: Sample,
    cursor: Place,
    wanted: Visit,
) -> R<bool> {
    let plan = plan(alloc, live, owner, sample, cursor)?;
    Ok(is_visit(&plan, wanted))
}

/// A visit at a key.
pub(crate) fn visit_at(gap: Option<(Place, Place)>, id: i64, mode: LockMode, ends: bool) -> Visit {
    Visit {
        gap,
        on_key: Some((id, mode)),
        insert: false,
        after: Place::After(id),
        ends,
    }
}

/// A walk's last visit.
pub(crate) fn visit_behind(gap: Option<(Place, Place)>, after: Place) -> Visit {
    Visit {
        gap,
        on_key: None,
        insert: false,
        after,
        ends: true,
    }
}
