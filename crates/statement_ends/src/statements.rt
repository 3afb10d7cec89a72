ghost use Rattle.std.specs.Prelude.{◌≡◌, List, IfOk};
ghost use Rattle.row_types.specs.declared.table_schema.Schema.{Schema as TableSchema};
ghost use Rattle.statement_grammar.specs.Draft.{kind_of_crc, xor_of_crc};
ghost use Rattle.statement_grammar.specs.Terms.{column_or_0 as number_or_0};
ghost use Rattle.statement_ends.specs.Ends.{said};

use crate::checksums::{kind_of, xor_of};
use ptc_statement::{Assignments, Cond, Statement};
use row_types::{Digest, Edge, R, Row, Span};
use statement_drafts::{Draft, Form};
use std::alloc::Global;

fn number_of(table: Option<u32>) -> u32
    ensures { result ≡ number_or_0 table }
{
    match table {
        None => 0,
        Some(number) => number,
    }
}

fn row_of(draft: Draft, _sets: Assignments, _cond: Option<Cond>) -> Row
    ensures { result ≡ draft.values }
{
    draft.values
}

fn delete(table: u32, _draft: Draft, _sets: Assignments, cond: Option<Cond>) -> Statement
    ensures { result ≡ Statement.Delete table cond }
{
    Statement::Delete { table, cond }
}

fn update(table: u32, _draft: Draft, sets: Assignments, cond: Option<Cond>) -> Statement
    ensures { result ≡ Statement.Update table sets cond }
{
    Statement::Update { table, sets, cond }
}

/// A locking read reads all keys; its condition leaves some.
fn lock_read(table: u32, draft: Draft, _sets: Assignments, cond: Option<Cond>) -> Statement
    ensures { result ≡ Statement.LockRead table draft.mode (record { lo = Edge.Low; hi = Edge.High }) cond }
{
    Statement::LockRead {
        table,
        mode: draft.mode,
        span: Span {
            lo: Edge::Low,
            hi: Edge::High,
        },
        cond,
    }
}

fn check(table: u32, draft: Draft, _sets: Assignments, _cond: Option<Cond>) -> Statement
    ensures { result ≡ Statement.Check table draft.chunk (record { lo = draft.lo; hi = draft.hi }) draft.kind }
{
    Statement::Check {
        table,
        chunk: draft.chunk,
        span: Span {
            lo: draft.lo,
            hi: draft.hi,
        },
        kind: draft.kind,
    }
}

fn set_master(alloc: Global, table: u32, chunk: u32, count: u64, crc: &[u8]) -> R<Statement>
    ensures { IfOk result (λ statement. statement ≡ Statement.SetMaster table chunk (kind_of_crc crc.now) (record { count = count; xor = xor_of_crc crc.now })) }
{
    let kind = kind_of(crc);
    let xor = xor_of(alloc, crc)?;
    Ok(Statement::SetMaster {
        table,
        chunk,
        kind,
        master: Digest { count, xor },
    })
}

fn master(
    alloc: Global,
    table: u32,
    draft: Draft,
    _sets: Assignments,
    _cond: Option<Cond>,
) -> R<Statement>
    ensures { IfOk result (λ statement. statement ≡ Statement.SetMaster table draft.chunk (kind_of_crc draft.crc) (record { count = draft.count; xor = xor_of_crc draft.crc })) }
{
    set_master(alloc, table, draft.chunk, draft.count, draft.crc.as_slice())
}

fn clear(table: u32, _draft: Draft, _sets: Assignments, _cond: Option<Cond>) -> Statement
    ensures { result ≡ Statement.ClearChecks table }
{
    Statement::ClearChecks { table }
}

/// The statement that a draft says, with its expressions and its condition.
pub fn statement_of(
    alloc: Global,
    draft: Draft,
    sets: Assignments,
    cond: Option<Cond>,
) -> R<Statement>
    ensures { IfOk result (λ statement. (schemas : List TableSchema) → statement ≡ said schemas draft sets cond) }
{
    let table = number_of(draft.table);
    match draft.form {
        Form::Insert => Ok(Statement::Insert {
            table,
            row: row_of(draft, sets, cond),
        }),
        Form::Replace => Ok(Statement::Replace {
            table,
            row: row_of(draft, sets, cond),
        }),
        Form::Delete => Ok(delete(table, draft, sets, cond)),
        Form::Update => Ok(update(table, draft, sets, cond)),
        Form::Read => Ok(lock_read(table, draft, sets, cond)),
        Form::Check => Ok(check(table, draft, sets, cond)),
        Form::Master => master(alloc, table, draft, sets, cond),
        Form::Clear => Ok(clear(table, draft, sets, cond)),
        Form::Unknown => Ok(clear(table, draft, sets, cond)),
    }
}
