use crate::texts::are_written;
use ptc_statement::{Assignment, Assignments, Cond, Expr, Op, Statement, Statements};
use row_types::{Digest, DigestKind, Edge, LockMode, R, Span};
use statement_builders::{compare, delete, lock_read, number, one, set, update};
use std::alloc::Global;
use std::test::Fail;
use test_builders::{key_of_two, null_row, row_of_text};

fn a_is_above(value: i64) -> Option<Cond> {
    Some(compare(Op::Gt, Expr::Cell(0), number(value)))
}

fn quoted_insert(alloc: Global) -> R<Statements> {
    let row = row_of_text(alloc, -1, b"it's ''so''")?;
    one(alloc, Statement::Insert { table: 0, row })
}

fn replace_by_null(alloc: Global) -> R<Statements> {
    let row = null_row(alloc, 1)?;
    one(alloc, Statement::Replace { table: 0, row })
}

#[test]
fn rows_are_put(rt: HostRuntime) -> Result<(), Fail> {
    let alloc = rt.alloc();
    let text = b"INSERT INTO t VALUES (-1, 'it''s ''''so''''')";
    assert!(rt; are_written(alloc, &quoted_insert(alloc)?, text)?);
    let text = b"REPLACE INTO t VALUES (1, NULL)";
    assert!(rt; are_written(alloc, &replace_by_null(alloc)?, text)?);
    Ok(())
}

/// v = b, b = the least number.
fn two_sets(alloc: Global) -> R<Assignments> {
    let mut sets = set(alloc, 2, Expr::Cell(1))?;
    sets.push(Assignment {
        column: 1,
        expr: number(i64::MIN),
    })?;
    Ok(sets)
}

fn two_set(alloc: Global) -> R<Statements> {
    one(alloc, update(two_sets(alloc)?, a_is_above(5)))
}

#[test]
fn rows_are_changed(rt: HostRuntime) -> Result<(), Fail> {
    let alloc = rt.alloc();
    let text = b"UPDATE t SET v = b, b = -9223372036854775808 WHERE a > 5";
    assert!(rt; are_written(alloc, &two_set(alloc)?, text)?);
    assert!(rt; are_written(alloc, &one(alloc, delete(None))?, b"DELETE FROM t")?);
    Ok(())
}

fn read(alloc: Global, mode: LockMode, cond: Option<Cond>) -> R<Statements> {
    one(alloc, lock_read(mode, Span::whole(), cond))
}

#[test]
fn rows_are_read(rt: HostRuntime) -> Result<(), Fail> {
    let alloc = rt.alloc();
    let text = b"SELECT * FROM t WHERE a > 100 FOR SHARE";
    assert!(rt;
        are_written(
            alloc,
            &read(alloc, LockMode::Shared, a_is_above(100))?,
            text
        )?
    );
    let text = b"SELECT * FROM t FOR UPDATE";
    assert!(rt; are_written(alloc, &read(alloc, LockMode::Exclusive, None)?, text)?);
    Ok(())
}

fn check(alloc: Global, kind: DigestKind, lo: Edge) -> R<Statements> {
    let hi = Edge::After(key_of_two(alloc, 1, b"a'b")?);
    let span = Span { lo, hi };
    one(
        alloc,
        Statement::Check {
            table: 0,
            chunk: 4_294_967_295,
            span,
            kind,
        },
    )
}

fn check_before(alloc: Global) -> R<Statements> {
    let before = Edge::Before(key_of_two(alloc, 0, b"")?);
    check(alloc, DigestKind::Sha1, before)
}

#[test]
fn chunks_are_summed(rt: HostRuntime) -> Result<(), Fail> {
    let alloc = rt.alloc();
    let text = b"CHECKSUM t CHUNK 4294967295 FROM LOW TO AFTER (1, 'a''b') USING MD5";
    assert!(rt; are_written(alloc, &check(alloc, DigestKind::Md5, Edge::Low)?, text)?);
    let text = b"CHECKSUM t CHUNK 4294967295 FROM BEFORE (0, '') TO AFTER (1, 'a''b') USING SHA1";
    assert!(rt; are_written(alloc, &check_before(alloc)?, text)?);
    let clear = one(alloc, Statement::ClearChecks { table: 0 })?;
    assert!(rt; are_written(alloc, &clear, b"CLEARCHECKS t")?);
    Ok(())
}

fn master(alloc: Global, kind: DigestKind) -> R<Statements> {
    let master = Digest {
        count: 18_446_744_073_709_551_615,
        xor: [171; 20],
    };
    one(
        alloc,
        Statement::SetMaster {
            table: 0,
            chunk: 2,
            kind,
            master,
        },
    )
}

/// The digits of an MD5 are 32, and those of a SHA1 40.
#[test]
fn masters_are_set(rt: HostRuntime) -> Result<(), Fail> {
    let alloc = rt.alloc();
    let text =
        b"SETMASTER t CHUNK 2 CNT 18446744073709551615 CRC 'abababababababababababababababab'";
    assert!(rt; are_written(alloc, &master(alloc, DigestKind::Md5)?, text)?);
    let text =
        b"SETMASTER t CHUNK 2 CNT 18446744073709551615 CRC 'abababababababababababababababababababab'";
    assert!(rt; are_written(alloc, &master(alloc, DigestKind::Sha1)?, text)?);
    Ok(())
}
