use crate::expression_builders::number;
use ptc_statement::{Cond, Expr, Op};
use row_types::{R, Value};
use sqlite_items::Boxed;
use std::alloc::Global;
use test_builders::key;

pub const OPS: [Op; 6] = [Op::Eq, Op::Ne, Op::Lt, Op::Le, Op::Gt, Op::Ge];

pub fn compare(op: Op, left: Expr, right: Expr) -> Cond {
    Cond::Compare { op, left, right }
}

/// The first column compared with a number.
pub fn key_compare(op: Op, value: i64) -> Cond {
    compare(op, Expr::Cell(0), number(value))
}

/// The condition that a column has a value.
pub fn column_is(column: u32, value: Value) -> Option<Cond> {
    Some(compare(Op::Eq, Expr::Cell(column), Expr::Lit(value)))
}

/// The whole key, of one column, compared with a number.
pub fn whole_key(alloc: Global, op: Op, value: i64) -> R<Cond> {
    Ok(Cond::KeyCompare {
        op,
        key: key(alloc, value)?,
    })
}

/// IS NULL, or where negated IS NOT NULL.
pub fn null_test(column: u32, negated: bool) -> Cond {
    Cond::IsNull {
        expr: Expr::Cell(column),
        negated,
    }
}

fn both(alloc: Global, left: Cond, right: Cond) -> R<(Boxed<Cond>, Boxed<Cond>)> {
    Ok((Boxed::new(alloc, left)?, Boxed::new(alloc, right)?))
}

pub fn not(alloc: Global, cond: Cond) -> R<Cond> {
    Ok(Cond::Not(Boxed::new(alloc, cond)?))
}

pub fn and(alloc: Global, left: Cond, right: Cond) -> R<Cond> {
    let (left, right) = both(alloc, left, right)?;
    Ok(Cond::And(left, right))
}

pub fn or(alloc: Global, left: Cond, right: Cond) -> R<Cond> {
    let (left, right) = both(alloc, left, right)?;
    Ok(Cond::Or(left, right))
}
