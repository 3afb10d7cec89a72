use ptc_statement::{Assignment, Assignments, Expr, updated};
use row_types::{R, Row, Value};
use statement_builders::{add, four, four_columns, mul, neg, number, set, sub};
use std::alloc::Global;
use std::test::Fail;
use test_builders::text_value;

/// Whether an UPDATE's assignments make this row of the other.
fn makes(alloc: Global, sets: &Assignments, old: &Row, new: &Row) -> R<bool> {
    let schema = four_columns(alloc)?;
    Ok(updated(alloc, &schema, sets, old)?.same(new))
}

/// Whether one assignment to the column b makes this number of the greatest one.
fn makes_of_greatest(alloc: Global, expr: Expr, wanted: i64) -> R<bool> {
    let sets = set(alloc, 1, expr)?;
    let old = four(alloc, i64::MAX, 0, b"")?;
    makes(alloc, &sets, &old, &four(alloc, wanted, 0, b"")?)
}

/// Whether one assignment to the column n, which has 32 bits, makes this number of its greatest one.
fn makes_of_narrow(alloc: Global, expr: Expr, wanted: i64) -> R<bool> {
    let sets = set(alloc, 2, expr)?;
    let old = four(alloc, 7, 2147483647, b"")?;
    makes(alloc, &sets, &old, &four(alloc, 7, wanted, b"")?)
}

/// Sums, products, differences and negatives are clipped to 64 bits.
#[test]
fn results_are_clipped(rt: HostRuntime) -> Result<(), Fail> {
    let alloc = rt.alloc();
    let above = add(alloc, Expr::Cell(1), number(1))?;
    assert!(rt; makes_of_greatest(alloc, above, i64::MAX)?);
    let below = mul(alloc, Expr::Cell(1), number(-2))?;
    assert!(rt; makes_of_greatest(alloc, below, i64::MIN)?);
    let least = sub(alloc, number(i64::MIN), Expr::Cell(1))?;
    assert!(rt; makes_of_greatest(alloc, least, i64::MIN)?);
    let negative = neg(alloc, number(i64::MIN))?;
    assert!(rt; makes_of_greatest(alloc, negative, i64::MAX)?);
    Ok(())
}

/// (b + 1) - 1.
fn up_and_down(alloc: Global) -> R<Expr> {
    sub(alloc, add(alloc, Expr::Cell(1), number(1))?, number(1))
}

/// Each result is clipped before it is used further.
#[test]
fn each_result_is_clipped(rt: HostRuntime) -> Result<(), Fail> {
    let alloc = rt.alloc();
    assert!(rt; makes_of_greatest(alloc, up_and_down(alloc)?, i64::MAX - 1)?);
    Ok(())
}

/// A number is clipped to its column.
#[test]
fn numbers_are_clipped_to_columns(rt: HostRuntime) -> Result<(), Fail> {
    let alloc = rt.alloc();
    assert!(rt; makes_of_narrow(alloc, number(2147483648), 2147483647)?);
    assert!(rt; makes_of_narrow(alloc, number(-3000000000), -2147483648)?);
    assert!(rt; makes_of_narrow(alloc, add(alloc, Expr::Cell(2), number(1))?, 2147483647)?);
    assert!(rt; makes_of_narrow(alloc, add(alloc, Expr::Cell(1), number(1))?, 8)?);
    Ok(())
}

fn text_becomes(alloc: Global, assigned: &[u8], wanted: &[u8]) -> R<bool> {
    let sets = set(alloc, 3, Expr::Lit(text_value(alloc, assigned)?))?;
    let old = four(alloc, 7, 8, b"abc")?;
    makes(alloc, &sets, &old, &four(alloc, 7, 8, wanted)?)
}

/// A text is cut to its column's length.
#[test]
fn texts_are_cut(rt: HostRuntime) -> Result<(), Fail> {
    let alloc = rt.alloc();
    assert!(rt; text_becomes(alloc, b"xyzzy", b"xyz")?);
    assert!(rt; text_becomes(alloc, b"xyz", b"xyz")?);
    assert!(rt; text_becomes(alloc, b"", b"")?);
    Ok(())
}

/// SET b = 7, n = b + 1.
fn two_sets(alloc: Global) -> R<Assignments> {
    let mut sets = set(alloc, 1, number(7))?;
    let expr = add(alloc, Expr::Cell(1), number(1))?;
    sets.push(Assignment { column: 2, expr })?;
    Ok(sets)
}

fn two_sets_make(alloc: Global) -> R<bool> {
    let sets = two_sets(alloc)?;
    let old = four(alloc, i64::MIN, -2147483648, b"xyz")?;
    makes(alloc, &sets, &old, &four(alloc, 7, 8, b"xyz")?)
}

/// A later assignment sees the new value of an earlier column.
#[test]
fn later_assignments_see_new_values(rt: HostRuntime) -> Result<(), Fail> {
    assert!(rt; two_sets_make(rt.alloc())?);
    Ok(())
}

/// Whether an expression has this value over (1, 5, 6, 'ab').
fn has_value(alloc: Global, expr: &Expr, value: &Value) -> R<bool> {
    let row = four(alloc, 5, 6, b"ab")?;
    Ok(expr.value(alloc, &row)?.same(value))
}

fn has_number(alloc: Global, expr: Expr, number: i64) -> R<bool> {
    has_value(alloc, &expr, &Value::Int(number))
}

fn last_column_is_text(alloc: Global) -> R<bool> {
    let text = text_value(alloc, b"ab")?;
    has_value(alloc, &Expr::Cell(3), &text)
}

/// Literals and columns have their values.
#[test]
fn leaves_have_values(rt: HostRuntime) -> Result<(), Fail> {
    let alloc = rt.alloc();
    assert!(rt; has_value(alloc, &Expr::Lit(Value::Null), &Value::Null)?);
    assert!(rt; has_number(alloc, number(9), 9)?);
    assert!(rt; has_number(alloc, Expr::Cell(2), 6)?);
    assert!(rt; last_column_is_text(alloc)?);
    Ok(())
}

/// Each kind of arithmetic.
#[test]
fn expressions_have_values(rt: HostRuntime) -> Result<(), Fail> {
    let alloc = rt.alloc();
    assert!(rt; has_number(alloc, neg(alloc, Expr::Cell(1))?, -5)?);
    assert!(rt; has_number(alloc, add(alloc, Expr::Cell(1), Expr::Cell(2))?, 11)?);
    assert!(rt; has_number(alloc, sub(alloc, Expr::Cell(1), Expr::Cell(2))?, -1)?);
    assert!(rt; has_number(alloc, mul(alloc, Expr::Cell(1), Expr::Cell(2))?, 30)?);
    Ok(())
}
