use ptc_statement::Expr;
use row_types::{R, Value};
use sqlite_items::Boxed;
use std::alloc::Global;

pub fn number(number: i64) -> Expr {
    Expr::Lit(Value::Int(number))
}

fn both(alloc: Global, left: Expr, right: Expr) -> R<(Boxed<Expr>, Boxed<Expr>)> {
    Ok((Boxed::new(alloc, left)?, Boxed::new(alloc, right)?))
}

pub fn neg(alloc: Global, operand: Expr) -> R<Expr> {
    Ok(Expr::Neg(Boxed::new(alloc, operand)?))
}

pub fn add(alloc: Global, left: Expr, right: Expr) -> R<Expr> {
    let (left, right) = both(alloc, left, right)?;
    Ok(Expr::Add(left, right))
}

pub fn sub(alloc: Global, left: Expr, right: Expr) -> R<Expr> {
    let (left, right) = both(alloc, left, right)?;
    Ok(Expr::Sub(left, right))
}

pub fn mul(alloc: Global, left: Expr, right: Expr) -> R<Expr> {
    let (left, right) = both(alloc, left, right)?;
    Ok(Expr::Mul(left, right))
}
