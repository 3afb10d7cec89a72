//! Statements on one table of two numbers.
use node_builders::{own_key_where, whole_check, whole_clear};
use ptc_statement::{Cond, Expr, Op, Statement};
use row_types::{Edge, LockMode, R, Span};
use statement_builders::{compare, delete, insert, lock_read, number, replace, set, update};
use std::alloc::Global;
use test_builders::{key, null_row};

#[derive(Clone, Copy)]
pub(crate) enum Sample {
    Insert(i64, i64),
    InsertNull(i64),
    Replace(i64, i64),
    Delete,
    DeleteAt(i64),
    Update(i64),
    UpdateAt(i64, i64),
    /// A locking read of the keys between two, for update.
    Read(i64, i64),
    /// A locking read of the keys behind one, for update.
    ReadBehind(i64),
    /// A locking read of the rows whose second number is below one, for update.
    ReadBelow(i64),
    Check,
    Clear,
}

fn insert_null(alloc: Global, id: i64) -> R<Statement> {
    Ok(Statement::Insert {
        table: 0,
        row: null_row(alloc, id)?,
    })
}

fn update_where(alloc: Global, v: i64, cond: Option<Cond>) -> R<Statement> {
    Ok(update(set(alloc, 1, number(v))?, cond))
}

fn between(alloc: Global, lo: i64, hi: i64) -> R<Span> {
    Ok(Span {
        lo: Edge::After(key(alloc, lo)?),
        hi: Edge::Before(key(alloc, hi)?),
    })
}

fn behind(alloc: Global, id: i64) -> R<Span> {
    Ok(Span {
        lo: Edge::After(key(alloc, id)?),
        hi: Edge::High,
    })
}

fn read(span: Span, cond: Option<Cond>) -> Statement {
    lock_read(LockMode::Exclusive, span, cond)
}

fn below(v: i64) -> Option<Cond> {
    Some(compare(Op::Lt, Expr::Cell(1), number(v)))
}

pub(crate) fn statement(alloc: Global, sample: Sample) -> R<Statement> {
    match sample {
        Sample::Insert(id, v) => insert(alloc, id, v),
        Sample::InsertNull(id) => insert_null(alloc, id),
        Sample::Replace(id, v) => replace(alloc, id, v),
        Sample::Delete => Ok(delete(None)),
        Sample::DeleteAt(id) => Ok(delete(own_key_where(id))),
        Sample::Update(v) => update_where(alloc, v, None),
        Sample::UpdateAt(id, v) => update_where(alloc, v, own_key_where(id)),
        Sample::Read(lo, hi) => Ok(read(between(alloc, lo, hi)?, None)),
        Sample::ReadBehind(id) => Ok(read(behind(alloc, id)?, None)),
        Sample::ReadBelow(v) => Ok(read(Span::whole(), below(v))),
        Sample::Check => Ok(whole_check()),
        Sample::Clear => Ok(whole_clear()),
    }
}
