use crate::expression_builders::number;
use ptc_statement::{Assignment, Assignments, Cond, Expr, Statement, Statements};
use row_types::{Digest, DigestKind, LockMode, R, Span};
use std::alloc::Global;
use test_builders::row;

/// A list of one: tests hold a statement in a list, since one held by itself takes a minute to prove.
pub fn one(alloc: Global, statement: Statement) -> R<Statements> {
    let mut statements = Statements::new(alloc);
    statements.push(statement)?;
    Ok(statements)
}

pub fn insert(alloc: Global, id: i64, value: i64) -> R<Statement> {
    Ok(Statement::Insert {
        table: 0,
        row: row(alloc, id, value)?,
    })
}

pub fn replace(alloc: Global, id: i64, value: i64) -> R<Statement> {
    Ok(Statement::Replace {
        table: 0,
        row: row(alloc, id, value)?,
    })
}

pub fn delete(cond: Option<Cond>) -> Statement {
    Statement::Delete { table: 0, cond }
}

/// One assignment.
pub fn set(alloc: Global, column: u32, expr: Expr) -> R<Assignments> {
    let mut sets = Assignments::new(alloc);
    sets.push(Assignment { column, expr })?;
    Ok(sets)
}

/// The second column set to 5.
pub fn set_five(alloc: Global) -> R<Assignments> {
    set(alloc, 1, number(5))
}

pub fn update(sets: Assignments, cond: Option<Cond>) -> Statement {
    Statement::Update {
        table: 0,
        sets,
        cond,
    }
}

pub fn lock_read(mode: LockMode, span: Span, cond: Option<Cond>) -> Statement {
    Statement::LockRead {
        table: 0,
        mode,
        span,
        cond,
    }
}

pub fn check(span: Span) -> Statement {
    Statement::Check {
        table: 0,
        chunk: 1,
        span,
        kind: DigestKind::Md5,
    }
}

pub fn clear_checks() -> Statement {
    Statement::ClearChecks { table: 3 }
}

pub const SET_MASTER: Statement = Statement::SetMaster {
    table: 1,
    chunk: 2,
    kind: DigestKind::Md5,
    master: Digest {
        count: 3,
        xor: [7; 20],
    },
};
