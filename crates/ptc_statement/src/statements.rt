ghost use Rattle.std.specs.Prelude.{◌≡◌, ◌↔◌, IsTrue, IfOk};
ghost use Rattle.ptc_statement.specs.Effect.{table_of, mode_of};
ghost use Rattle.ptc_statement.specs.Effect.{is_logged as is_logged_statement};

use crate::assignments::Assignments;
use crate::conditions::{Cond, copy_cond, same_cond};
use row_types::{Digest, DigestKind, Items, LockMode, Plain, R, Row, Span};
use std::alloc::Global;

/// A statement on the table of a number, counted from 0. Chunks are numbered from 1.
///
/// The first five are the clients'. The other three are the checksum tool's: pt-table-checksum's
/// REPLACE .. SELECT of a chunk's count and digest, its UPDATE of the source's values, and its DELETE
/// of a table's earlier checksums.
#[derive(Debug, Drop)]
pub enum Statement {
    /// Gives its row where the key is absent.
    Insert {
        table: u32,
        row: Row,
    },
    /// Gives its row, in place of one that has its key.
    Replace {
        table: u32,
        row: Row,
    },
    /// Takes away the rows where the condition is true, or all.
    Delete {
        table: u32,
        cond: Option<Cond>,
    },
    /// Changes the rows where the condition is true, or all.
    Update {
        table: u32,
        sets: Assignments,
        cond: Option<Cond>,
    },
    /// Reads the rows of the span where the condition is true, or all, and locks what it meets.
    LockRead {
        table: u32,
        mode: LockMode,
        span: Span,
        cond: Option<Cond>,
    },
    /// Each node sums its own rows of the span.
    Check {
        table: u32,
        chunk: u32,
        span: Span,
        kind: DigestKind,
    },
    /// Gives each node the source's checksum of the chunk.
    SetMaster {
        table: u32,
        chunk: u32,
        kind: DigestKind,
        master: Digest,
    },
    /// Forgets the table's check rows.
    ClearChecks {
        table: u32,
    },
}

/// Statements, in the order in which they act.
pub type Statements = Items<Statement>;

impl Statement {
    /// The number of the table that the statement is on.
    pub fn table(&self) -> u32
        ensures { result ≡ table_of self.now }
    {
        match self {
            Statement::Insert { table, .. }
            | Statement::Replace { table, .. }
            | Statement::Delete { table, .. }
            | Statement::Update { table, .. }
            | Statement::LockRead { table, .. }
            | Statement::Check { table, .. }
            | Statement::SetMaster { table, .. }
            | Statement::ClearChecks { table } => *table,
        }
    }

    /// The mode of the locks that the statement takes on rows.
    /// Source: MySQL Reference Manual, "Locks Set by Different SQL Statements in InnoDB".
    pub fn mode(&self) -> LockMode
        ensures { result ≡ mode_of self.now }
    {
        match self {
            Statement::LockRead { mode, .. } => *mode,
            Statement::Check { .. } => LockMode::Shared,
            _ => LockMode::Exclusive,
        }
    }

    /// Whether the statement stands in the log once its transaction commits.
    pub fn is_logged(&self) -> bool
        ensures { result ≡ is_logged_statement self.now }
    {
        !matches!(self, Statement::LockRead { .. })
    }

    pub fn copy(&self, alloc: Global) -> R<Statement>
        ensures { IfOk result (λ copy. copy ≡ self.now) }
    {
        match self {
            Statement::Insert { table, row } => Ok(Statement::Insert {
                table: *table,
                row: row.copy(alloc)?,
            }),
            Statement::Replace { table, row } => Ok(Statement::Replace {
                table: *table,
                row: row.copy(alloc)?,
            }),
            Statement::Delete { table, cond } => Ok(Statement::Delete {
                table: *table,
                cond: copy_cond(alloc, cond)?,
            }),
            Statement::Update { table, sets, cond } => copy_update(alloc, *table, sets, cond),
            Statement::LockRead {
                table,
                mode,
                span,
                cond,
            } => copy_lock_read(alloc, *table, *mode, span, cond),
            Statement::Check {
                table,
                chunk,
                span,
                kind,
            } => copy_check(alloc, *table, *chunk, span, *kind),
            Statement::SetMaster {
                table,
                chunk,
                kind,
                master,
            } => Ok(copy_set_master(*table, *chunk, *kind, master)),
            Statement::ClearChecks { table } => Ok(Statement::ClearChecks { table: *table }),
        }
    }

    pub fn same(&self, other: &Statement) -> bool
        ensures { IsTrue result ↔ (self.now ≡ other.now) }
    {
        match self {
            Statement::Insert { table, row } => other.is_insert(*table, row),
            Statement::Replace { table, row } => other.is_replace(*table, row),
            Statement::Delete { table, cond } => other.is_delete(*table, cond),
            Statement::Update { table, sets, cond } => other.is_update(*table, sets, cond),
            Statement::LockRead {
                table,
                mode,
                span,
                cond,
            } => other.is_lock_read(*table, *mode, span, cond),
            Statement::Check {
                table,
                chunk,
                span,
                kind,
            } => other.is_check(*table, *chunk, span, *kind),
            Statement::SetMaster {
                table,
                chunk,
                kind,
                master,
            } => other.is_set_master(*table, *chunk, *kind, master),
            Statement::ClearChecks { table } => other.is_clear_checks(*table),
        }
    }

    fn is_insert(&self, table: u32, row: &Row) -> bool
        ensures { IsTrue result ↔ (self.now ≡ Statement.Insert table row.now) }
    {
        match self {
            Statement::Insert {
                table: own_table,
                row: own_row,
            } => *own_table == table && own_row.same(row),
            _ => false,
        }
    }

    fn is_replace(&self, table: u32, row: &Row) -> bool
        ensures { IsTrue result ↔ (self.now ≡ Statement.Replace table row.now) }
    {
        match self {
            Statement::Replace {
                table: own_table,
                row: own_row,
            } => *own_table == table && own_row.same(row),
            _ => false,
        }
    }

    fn is_delete(&self, table: u32, cond: &Option<Cond>) -> bool
        ensures { IsTrue result ↔ (self.now ≡ Statement.Delete table cond.now) }
    {
        match self {
            Statement::Delete {
                table: own_table,
                cond: own_cond,
            } => *own_table == table && same_cond(own_cond, cond),
            _ => false,
        }
    }

    fn is_update(&self, table: u32, sets: &Assignments, cond: &Option<Cond>) -> bool
        ensures { IsTrue result ↔ (self.now ≡ Statement.Update table sets.now cond.now) }
    {
        match self {
            Statement::Update {
                table: own_table,
                sets: own_sets,
                cond: own_cond,
            } => *own_table == table && own_sets.same(sets) && same_cond(own_cond, cond),
            _ => false,
        }
    }

    fn is_lock_read(&self, table: u32, mode: LockMode, span: &Span, cond: &Option<Cond>) -> bool
        ensures { IsTrue result ↔ (self.now ≡ Statement.LockRead table mode span.now cond.now) }
    {
        match self {
            Statement::LockRead {
                table: own_table,
                mode: own_mode,
                span: own_span,
                cond: own_cond,
            } => {
                *own_table == table
                    && own_mode.same(&mode)
                    && own_span.same(span)
                    && same_cond(own_cond, cond)
            }
            _ => false,
        }
    }

    fn is_check(&self, table: u32, chunk: u32, span: &Span, kind: DigestKind) -> bool
        ensures { IsTrue result ↔ (self.now ≡ Statement.Check table chunk span.now kind) }
    {
        match self {
            Statement::Check {
                table: own_table,
                chunk: own_chunk,
                span: own_span,
                kind: own_kind,
            } => {
                *own_table == table
                    && *own_chunk == chunk
                    && own_span.same(span)
                    && own_kind.same(&kind)
            }
            _ => false,
        }
    }

    fn is_set_master(&self, table: u32, chunk: u32, kind: DigestKind, master: &Digest) -> bool
        ensures { IsTrue result ↔ (self.now ≡ Statement.SetMaster table chunk kind master.now) }
    {
        match self {
            Statement::SetMaster {
                table: own_table,
                chunk: own_chunk,
                kind: own_kind,
                master: own_master,
            } => {
                *own_table == table
                    && *own_chunk == chunk
                    && own_kind.same(&kind)
                    && own_master.same(master)
            }
            _ => false,
        }
    }

    fn is_clear_checks(&self, table: u32) -> bool
        ensures { IsTrue result ↔ (self.now ≡ Statement.ClearChecks table) }
    {
        match self {
            Statement::ClearChecks { table: own_table } => *own_table == table,
            _ => false,
        }
    }
}

fn copy_update(alloc: Global, table: u32, sets: &Assignments, cond: &Option<Cond>) -> R<Statement>
    ensures { IfOk result (λ copy. copy ≡ Statement.Update table sets.now cond.now) }
{
    Ok(Statement::Update {
        table,
        sets: sets.copy(alloc)?,
        cond: copy_cond(alloc, cond)?,
    })
}

fn copy_lock_read(
    alloc: Global,
    table: u32,
    mode: LockMode,
    span: &Span,
    cond: &Option<Cond>,
) -> R<Statement>
    ensures { IfOk result (λ copy. copy ≡ Statement.LockRead table mode span.now cond.now) }
{
    Ok(Statement::LockRead {
        table,
        mode,
        span: span.copy(alloc)?,
        cond: copy_cond(alloc, cond)?,
    })
}

fn copy_check(alloc: Global, table: u32, chunk: u32, span: &Span, kind: DigestKind) -> R<Statement>
    ensures { IfOk result (λ copy. copy ≡ Statement.Check table chunk span.now kind) }
{
    Ok(Statement::Check {
        table,
        chunk,
        span: span.copy(alloc)?,
        kind,
    })
}

fn copy_set_master(table: u32, chunk: u32, kind: DigestKind, master: &Digest) -> Statement
    ensures { result ≡ Statement.SetMaster table chunk kind master.now }
{
    Statement::SetMaster {
        table,
        chunk,
        kind,
        master: *master,
    }
}

impl Plain for Statement {
    fn copy(&self, alloc: Global) -> R<Statement> {
        Statement::copy(self, alloc)
    }

    fn same(&self, other: &Statement) -> bool {
        Statement::same(self, other)
    }
}
