use crate::tables::{is_read_as, is_refused, is_statement};
use ptc_statement::{Expr, Op};
use row_types::R;
use statement_builders::{add, and, compare, mul, not, null_test, number, one, set, update};
use statement_grammar::TextFault;
use std::alloc::Global;
use std::test::Fail;

const WORKED: &[u8] = b"update t set v=v+1*2 where id>=3 and not v is null;";

/// Whether the worked text is the statement that is built here.
fn is_worked(alloc: Global) -> R<bool> {
    let sum = add(alloc, Expr::Cell(1), mul(alloc, number(1), number(2))?)?;
    let is_null = not(alloc, null_test(1, false))?;
    let both = and(alloc, compare(Op::Ge, Expr::Cell(0), number(3)), is_null)?;
    let wanted = one(alloc, update(set(alloc, 1, sum)?, Some(both)))?;
    is_statement(alloc, WORKED, &wanted)
}

#[test]
fn worked_texts_are_read(rt: HostRuntime) -> Result<(), Fail> {
    let alloc = rt.alloc();
    assert!(rt; is_worked(alloc)?);
    let written = b"UPDATE t SET v = v + (1 * 2) WHERE id >= 3 AND NOT (v IS NULL)".as_slice();
    assert!(rt; is_read_as(alloc, WORKED, written)?);
    let fault = TextFault::KeyAssigned { place: 14 };
    assert!(rt; is_refused(alloc, b"UPDATE t SET id = 1".as_slice(), fault)?);
    Ok(())
}

/// Whether a condition is read as one that is written so.
fn is_cond(alloc: Global, text: &[u8], written: &[u8]) -> R<bool> {
    let mut all = Vec::from_slice(alloc, b"DELETE FROM t WHERE ")?;
    let mut wanted = Vec::from_slice(alloc, all.as_slice())?;
    all.extend_from_slice(text)?;
    wanted.extend_from_slice(written)?;
    is_read_as(alloc, all.as_slice(), wanted.as_slice())
}

/// Each sign, and which of two binds tighter.
#[test]
fn signs_bind_as_tightly_as_they_do(rt: HostRuntime) -> Result<(), Fail> {
    let alloc = rt.alloc();
    for (text, written) in [
        (b"v=1".as_slice(), b"v = 1".as_slice()),
        (b"v<>1".as_slice(), b"v <> 1".as_slice()),
        (b"v!=1".as_slice(), b"v <> 1".as_slice()),
        (b"v<1".as_slice(), b"v < 1".as_slice()),
        (b"v<=1".as_slice(), b"v <= 1".as_slice()),
        (b"v>1".as_slice(), b"v > 1".as_slice()),
        (b"v>=1".as_slice(), b"v >= 1".as_slice()),
        (b"-v*2=1".as_slice(), b"(-v) * 2 = 1".as_slice()),
        (b"1+2*3-4=v".as_slice(), b"(1 + (2 * 3)) - 4 = v".as_slice()),
        (b"1-2-3=v".as_slice(), b"(1 - 2) - 3 = v".as_slice()),
        (b"(1+2)*3=v".as_slice(), b"(1 + 2) * 3 = v".as_slice()),
        (b"v--1=1".as_slice(), b"v - -1 = 1".as_slice()),
        (b"-(5)=v".as_slice(), b"-(5) = v".as_slice()),
        (b"-5=v".as_slice(), b"-5 = v".as_slice()),
        (b"- -5=v".as_slice(), b"--5 = v".as_slice()),
    ] {
        assert!(rt; is_cond(alloc, text, written)?);
    }
    Ok(())
}

#[test]
fn words_bind_as_tightly_as_they_do(rt: HostRuntime) -> Result<(), Fail> {
    let alloc = rt.alloc();
    for (text, written) in [
        (
            b"NOT v = 1 AND v = 2".as_slice(),
            b"NOT (v = 1) AND v = 2".as_slice(),
        ),
        (
            b"v = 1 OR v = 2 AND v = 3".as_slice(),
            b"v = 1 OR (v = 2 AND v = 3)".as_slice(),
        ),
        (
            b"(v = 1 OR v = 2) AND v = 3".as_slice(),
            b"(v = 1 OR v = 2) AND v = 3".as_slice(),
        ),
        (
            b"v = 1 OR v = 2 OR v = 3".as_slice(),
            b"v = 1 OR v = 2 OR v = 3".as_slice(),
        ),
        (
            b"v = 1 AND (v = 2 AND v = 3)".as_slice(),
            b"v = 1 AND (v = 2 AND v = 3)".as_slice(),
        ),
        (
            b"v BETWEEN 1 AND 2 AND v = 3".as_slice(),
            b"v >= 1 AND v <= 2 AND v = 3".as_slice(),
        ),
        (
            b"v + 1 iS nOt NuLL".as_slice(),
            b"v + 1 IS NOT NULL".as_slice(),
        ),
        (
            b"NOT NOT v IS NULL".as_slice(),
            b"NOT (NOT (v IS NULL))".as_slice(),
        ),
    ] {
        assert!(rt; is_cond(alloc, text, written)?);
    }
    Ok(())
}

/// Numbers are clipped to 64 bits.
#[test]
fn numbers_are_clipped(rt: HostRuntime) -> Result<(), Fail> {
    let alloc = rt.alloc();
    for (text, written) in [
        (
            b"v=9223372036854775807".as_slice(),
            b"v = 9223372036854775807".as_slice(),
        ),
        (
            b"v=9223372036854775808".as_slice(),
            b"v = 9223372036854775807".as_slice(),
        ),
        (
            b"v=-9223372036854775808".as_slice(),
            b"v = -9223372036854775808".as_slice(),
        ),
        (
            b"v=-9223372036854775809".as_slice(),
            b"v = -9223372036854775808".as_slice(),
        ),
        (
            b"v=170141183460469231731687303715884105727".as_slice(),
            b"v = 9223372036854775807".as_slice(),
        ),
        (
            b"v=-170141183460469231731687303715884105728".as_slice(),
            b"v = -9223372036854775808".as_slice(),
        ),
        (b"v=007".as_slice(), b"v = 7".as_slice()),
        (b"v=-0".as_slice(), b"v = 0".as_slice()),
    ] {
        assert!(rt; is_cond(alloc, text, written)?);
    }
    Ok(())
}

/// Texts, the values of columns, and the tool's statements.
#[test]
fn statements_are_read(rt: HostRuntime) -> Result<(), Fail> {
    let alloc = rt.alloc();
    for (text, written) in [
        (
            b"insert INTO t values(1,- 2,'it''s')".as_slice(),
            b"INSERT INTO t VALUES (1, -2, 'it''s')".as_slice(),
        ),
        (
            b"REPLACE INTO k VALUES (3000000000, 'abcde', NULL, '\x80\xff')".as_slice(),
            b"REPLACE INTO k VALUES (2147483647, 'abcd', NULL, '\x80\xff')".as_slice(),
        ),
        (
            b"DELETE FROM k WHERE (a,b)>=(-1,'')".as_slice(),
            b"DELETE FROM k WHERE (a, b) >= (-1, '')".as_slice(),
        ),
        (
            b"select * from t lock in share mode ; ".as_slice(),
            b"SELECT * FROM t FOR SHARE".as_slice(),
        ),
        (
            b"SELECT*FROM t WHERE s='a' FOR UPDATE".as_slice(),
            b"SELECT * FROM t WHERE s = 'a' FOR UPDATE".as_slice(),
        ),
        (
            b"checksum k chunk 007 from before (1,'abcdef') to high using sha1".as_slice(),
            b"CHECKSUM k CHUNK 7 FROM BEFORE (1, 'abcd') TO HIGH USING SHA1".as_slice(),
        ),
        (
            b"SETMASTER t CHUNK 1 CNT 18446744073709551615 CRC '0123456789abcdef0123456789abcdef'".as_slice(),
            b"SETMASTER t CHUNK 1 CNT 18446744073709551615 CRC '0123456789abcdef0123456789abcdef'".as_slice(),
        ),
        (b"CLEARCHECKS k;".as_slice(), b"CLEARCHECKS k".as_slice()),
    ] {
        assert!(rt; is_read_as(alloc, text, written)?);
    }
    Ok(())
}
