use crate::texts::are_both;
use ptc_statement::{Cond, Expr, Op, Statements};
use row_types::{Key, R, Value};
use statement_builders::{
    add, and, compare, delete, mul, neg, not, null_test, number, one, or, set, sub, update,
};
use std::alloc::Global;
use std::test::Fail;

/// The UPDATE that sets the column v to the expression.
fn update_to(alloc: Global, expr: Expr) -> R<Statements> {
    one(alloc, update(set(alloc, 2, expr)?, None))
}

/// Whether the expression is written so, set to the column v.
fn expr_is(alloc: Global, expr: Expr, text: &[u8]) -> R<bool> {
    let updates = update_to(alloc, expr)?;
    are_both(alloc, &updates, b"UPDATE t SET v = ", text)
}

fn sum_of_product(alloc: Global) -> R<Expr> {
    add(alloc, Expr::Cell(2), mul(alloc, number(1), number(2))?)
}

fn difference_of_difference(alloc: Global) -> R<Expr> {
    let inner = sub(alloc, Expr::Cell(2), number(-1))?;
    sub(alloc, inner, Expr::Lit(Value::Null))
}

fn twice_negative(alloc: Global) -> R<Expr> {
    neg(alloc, neg(alloc, Expr::Cell(2))?)
}

/// Operands that are neither literals nor columns stand in parentheses.
#[test]
fn expressions_are_written(rt: HostRuntime) -> Result<(), Fail> {
    let alloc = rt.alloc();
    assert!(rt; expr_is(alloc, sum_of_product(alloc)?, b"v + (1 * 2)")?);
    assert!(rt; expr_is(alloc, difference_of_difference(alloc)?, b"(v - -1) - NULL")?);
    assert!(rt; expr_is(alloc, twice_negative(alloc)?, b"-(-v)")?);
    Ok(())
}

/// A number from 0 on stands in parentheses after a sign.
#[test]
fn numbers_behind_signs_are_written(rt: HostRuntime) -> Result<(), Fail> {
    let alloc = rt.alloc();
    assert!(rt; expr_is(alloc, neg(alloc, number(5))?, b"-(5)")?);
    assert!(rt; expr_is(alloc, neg(alloc, number(-5))?, b"--5")?);
    Ok(())
}

fn is(op: Op, column: u32, value: i64) -> Cond {
    compare(op, Expr::Cell(column), number(value))
}

/// Whether the condition is written so, of a DELETE.
fn cond_is(alloc: Global, cond: Cond, text: &[u8]) -> R<bool> {
    let deletes = one(alloc, delete(Some(cond)))?;
    are_both(alloc, &deletes, b"DELETE FROM t WHERE ", text)
}

fn above_and_not_null(alloc: Global) -> R<Cond> {
    and(alloc, is(Op::Ge, 0, 3), not(alloc, null_test(2, false))?)
}

fn first_and_second(alloc: Global) -> R<Cond> {
    and(alloc, is(Op::Eq, 0, 1), is(Op::Eq, 1, 2))
}

fn first_or_second(alloc: Global) -> R<Cond> {
    or(alloc, is(Op::Le, 0, 1), is(Op::Gt, 1, 2))
}

fn chain(alloc: Global) -> R<Cond> {
    let left = and(alloc, is(Op::Eq, 0, 1), is(Op::Ne, 1, 2))?;
    and(alloc, left, is(Op::Lt, 2, 3))
}

/// `(a <= 1 OR b > 2) AND (a = 1 AND b = 2)`.
fn or_under_and(alloc: Global) -> R<Cond> {
    let left = first_or_second(alloc)?;
    and(alloc, left, first_and_second(alloc)?)
}

/// `(a = 1 AND b = 2) OR (a <= 1 OR b > 2)`.
fn and_under_or(alloc: Global) -> R<Cond> {
    let left = first_and_second(alloc)?;
    or(alloc, left, first_or_second(alloc)?)
}

/// An AND or OR under another stands in parentheses, but for a left one of the same word.
#[test]
fn conditions_are_written(rt: HostRuntime) -> Result<(), Fail> {
    let alloc = rt.alloc();
    assert!(rt;
        cond_is(
            alloc,
            above_and_not_null(alloc)?,
            b"a >= 3 AND NOT (v IS NULL)"
        )?
    );
    assert!(rt; cond_is(alloc, chain(alloc)?, b"a = 1 AND b <> 2 AND v < 3")?);
    let text = b"(a <= 1 OR b > 2) AND (a = 1 AND b = 2)";
    assert!(rt; cond_is(alloc, or_under_and(alloc)?, text)?);
    let text = b"(a = 1 AND b = 2) OR (a <= 1 OR b > 2)";
    assert!(rt; cond_is(alloc, and_under_or(alloc)?, text)?);
    Ok(())
}

fn whole_key_above(alloc: Global) -> R<Cond> {
    let mut key = Key::new(alloc);
    key.push(Value::Int(1))?;
    key.push(Value::Int(-2))?;
    Ok(Cond::KeyCompare { op: Op::Gt, key })
}

#[test]
fn keys_and_nulls_are_compared(rt: HostRuntime) -> Result<(), Fail> {
    let alloc = rt.alloc();
    assert!(rt; cond_is(alloc, whole_key_above(alloc)?, b"(a, b) > (1, -2)")?);
    assert!(rt; cond_is(alloc, null_test(2, true), b"v IS NOT NULL")?);
    Ok(())
}
