ghost use Rattle.std.specs.Prelude.{◌≡◌, true, None, IfOk, OnOk, OnErr};
ghost use Rattle.node_reads.specs.CheckChanges.{checks_with, checks_by, sums_left, changes_once, changes_any, changes_checks};

use checksum_table::{CheckRow, Checks};
use ptc_statement::Statement;
use row_types::{Digest, DigestKind, R, Span};
use std::alloc::Global;

/// Changes check rows as statements do, one after the other, where the CHECKSUMs among them made these
/// checksums; a refusal leaves them as they were. One change is made in place, several in a copy that takes
/// the place of the old rows.
pub fn set_checks(
    alloc: Global,
    checks: &mut Checks,
    statements: &[Statement],
    sums: &[Digest],
    position: u64,
) -> R<()>
    ensures ok { OnOk result (checks.new ≡ checks_with position statements.now sums.now checks.old) }
    ensures err { OnErr result (checks.new ≡ checks.old) }
{
    if changes_once(statements) {
        return change_one(alloc, checks, statements, sums, position);
    }
    let mut made = checks.copy(alloc)?;
    change_each(alloc, &mut made, statements, sums, position)?;
    *checks = made;
    Ok(())
}

/// Whether at most one of the statements changes check rows.
fn changes_once(statements: &[Statement]) -> bool
    ensures { result ≡ changes_once statements.now }
{
    let mut rest = statements;
    while let Some((statement, more)) = rest.split_first() {
        if changes_checks(statement) {
            return !changes_any(more);
        }
        rest = more;
    }
    true
}

/// Whether one of the statements changes check rows.
fn changes_any(statements: &[Statement]) -> bool
    ensures { result ≡ changes_any statements.now }
{
    let mut rest = statements;
    while let Some((statement, more)) = rest.split_first() {
        if changes_checks(statement) {
            return true;
        }
        rest = more;
    }
    false
}

fn changes_checks(statement: &Statement) -> bool
    ensures { result ≡ changes_checks statement.now }
{
    matches!(
        statement,
        Statement::Check { .. } | Statement::SetMaster { .. } | Statement::ClearChecks { .. }
    )
}

/// The change of the only statement that makes one.
fn change_one(
    alloc: Global,
    checks: &mut Checks,
    statements: &[Statement],
    sums: &[Digest],
    position: u64,
) -> R<()>
    requires { changes_once statements.now ≡ true }
    ensures ok { OnOk result (checks.new ≡ checks_with position statements.now sums.now checks.old) }
    ensures err { OnErr result (checks.new ≡ checks.old) }
{
    let mut rest = statements;
    while let Some((statement, more)) = rest.split_first() {
        if changes_checks(statement) {
            change(alloc, checks, statement, sums, position)?;
            return Ok(());
        }
        rest = more;
    }
    Ok(())
}

fn change_each(
    alloc: Global,
    checks: &mut Checks,
    statements: &[Statement],
    sums: &[Digest],
    position: u64,
) -> R<()>
    ensures ok { OnOk result (checks.new ≡ checks_with position statements.now sums.now checks.old) }
{
    let mut rest = statements;
    let mut left = sums;
    while let Some((statement, more)) = rest.split_first() {
        change(alloc, checks, statement, left, position)?;
        left = sums_left(statement, left);
        rest = more;
    }
    Ok(())
}

/// The change of one statement; a CHECKSUM's checksum is the first of those left.
fn change(
    alloc: Global,
    checks: &mut Checks,
    statement: &Statement,
    sums: &[Digest],
    position: u64,
) -> R<()>
    ensures ok { OnOk result (checks.new ≡ checks_by position statement.now sums.now checks.old) }
    ensures err { OnErr result (checks.new ≡ checks.old) }
{
    match statement {
        Statement::Check {
            table,
            chunk,
            span,
            kind,
        } => match sums.first() {
            None => Ok(()),
            Some(sum) => {
                let row = check_row(alloc, span, *kind, *sum, position)?;
                checks.set(*table, *chunk, row)
            }
        },
        Statement::SetMaster {
            table,
            chunk,
            master,
            ..
        } => {
            checks.set_master(*table, *chunk, *master);
            Ok(())
        }
        Statement::ClearChecks { table } => {
            checks.clear(*table);
            Ok(())
        }
        _ => Ok(()),
    }
}

fn check_row(
    alloc: Global,
    span: &Span,
    kind: DigestKind,
    this: Digest,
    position: u64,
) -> R<CheckRow>
    ensures { IfOk result (λ row. row ≡ record { span = span.now; kind = kind; this = this; master = None; position = position }) }
{
    Ok(CheckRow {
        span: span.copy(alloc)?,
        kind,
        this,
        master: None,
        position,
    })
}

/// The checksums behind that of a CHECKSUM, all of them behind any other statement.
fn sums_left<'a>(statement: &Statement, sums: &'a [Digest]) -> &'a [Digest]
    ensures { result.now ≡ sums_left statement.now sums.now }
{
    match statement {
        Statement::Check { .. } => match sums.split_first() {
            None => sums,
            Some((_, more)) => more,
        },
        _ => sums,
    }
}
