use ptc_statement::{Cond, Expr, Op, takes};
use row_types::{R, Row, Value};
use statement_builders::{OPS, add, and, compare, four_columns, neg, not, null_test, number, or};
use std::alloc::Global;
use std::test::Fail;
use test_builders::{row, text_value};

/// The row (1, 5, NULL, 'ab').
fn row_with_null(alloc: Global) -> R<Row> {
    let mut row = row(alloc, 1, 5)?;
    row.push(Value::Null)?;
    row.push(text_value(alloc, b"ab")?)?;
    Ok(row)
}

/// Whether a condition is true, false or unknown over that row.
fn truth(alloc: Global, cond: &Cond) -> R<Option<bool>> {
    let schema = four_columns(alloc)?;
    let row = row_with_null(alloc)?;
    Ok(cond.truth(&schema, &row))
}

fn comparison(alloc: Global, op: Op, left: Expr, right: Expr) -> R<Option<bool>> {
    let cond = compare(op, left, right);
    truth(alloc, &cond)
}

/// A comparison with NULL on a side, or on both, is unknown, whatever the sign.
#[test]
fn comparisons_with_null_are_unknown(rt: HostRuntime) -> Result<(), Fail> {
    let alloc = rt.alloc();
    for op in OPS {
        assert!(rt; comparison(alloc, op, Expr::Cell(2), number(1))?.is_none());
        assert!(rt; comparison(alloc, op, number(1), Expr::Lit(Value::Null))?.is_none());
        assert!(rt; comparison(alloc, op, Expr::Cell(2), Expr::Cell(2))?.is_none());
    }
    Ok(())
}

/// Arithmetic with NULL is NULL.
#[test]
fn arithmetic_with_null_is_unknown(rt: HostRuntime) -> Result<(), Fail> {
    let alloc = rt.alloc();
    for op in OPS {
        let sum = add(alloc, Expr::Cell(1), Expr::Cell(2))?;
        assert!(rt; comparison(alloc, op, sum, number(1))?.is_none());
        let negated = neg(alloc, Expr::Cell(2))?;
        assert!(rt; comparison(alloc, op, negated, number(1))?.is_none());
    }
    Ok(())
}

/// For each sign, whether it is met by sides that are greater, equal and less.
const WANTED: [[bool; 3]; 6] = [
    [false, true, false],
    [true, false, true],
    [false, false, true],
    [false, true, true],
    [true, false, false],
    [true, true, false],
];

fn text_comparison(alloc: Global, op: Op, bytes: &[u8]) -> R<Option<bool>> {
    comparison(
        alloc,
        op,
        Expr::Cell(3),
        Expr::Lit(text_value(alloc, bytes)?),
    )
}

/// Each sign on 5 against 4, 5 and 6, and on 'ab' against 'aa', 'ab' and 'abc'.
#[test]
fn values_are_compared(rt: HostRuntime) -> Result<(), Fail> {
    let alloc = rt.alloc();
    let others: [&[u8]; 3] = [b"aa", b"ab", b"abc"];
    for (op, wanted) in OPS.iter().zip(WANTED.iter()) {
        for (j, want) in wanted.iter().enumerate() {
            assert!(rt;
                comparison(alloc, *op, Expr::Cell(1), number(4 + j as i64))? == Some(*want)
            );
            assert!(rt; text_comparison(alloc, *op, others[j])? == Some(*want));
        }
    }
    Ok(())
}

fn constant(truth: Option<bool>) -> Cond {
    match truth {
        None => compare(Op::Eq, Expr::Lit(Value::Null), number(1)),
        Some(true) => compare(Op::Eq, number(1), number(1)),
        Some(false) => compare(Op::Eq, number(1), number(2)),
    }
}

const TRUTHS: [Option<bool>; 3] = [Some(true), Some(false), None];

fn not_gives(alloc: Global, operand: Option<bool>) -> R<Option<bool>> {
    truth(alloc, &not(alloc, constant(operand))?)
}

fn and_gives(alloc: Global, left: Option<bool>, right: Option<bool>) -> R<Option<bool>> {
    truth(alloc, &and(alloc, constant(left), constant(right))?)
}

fn or_gives(alloc: Global, left: Option<bool>, right: Option<bool>) -> R<Option<bool>> {
    truth(alloc, &or(alloc, constant(left), constant(right))?)
}

/// NOT of true, false and unknown.
#[test]
fn opposites_have_three_values(rt: HostRuntime) -> Result<(), Fail> {
    let alloc = rt.alloc();
    assert!(rt; not_gives(alloc, Some(true))? == Some(false));
    assert!(rt; not_gives(alloc, Some(false))? == Some(true));
    assert!(rt; not_gives(alloc, None)?.is_none());
    Ok(())
}

/// AND and OR of true, false and unknown.
#[test]
fn conditions_have_three_values(rt: HostRuntime) -> Result<(), Fail> {
    let alloc = rt.alloc();
    let ands = [
        [Some(true), Some(false), None],
        [Some(false), Some(false), Some(false)],
        [None, Some(false), None],
    ];
    let ors = [
        [Some(true), Some(true), Some(true)],
        [Some(true), Some(false), None],
        [Some(true), None, None],
    ];
    for i in 0..3usize {
        for j in 0..3usize {
            assert!(rt;
                and_gives(alloc, TRUTHS[i], TRUTHS[j])? == ands[i][j],
                "{i} {j}"
            );
            assert!(rt;
                or_gives(alloc, TRUTHS[i], TRUTHS[j])? == ors[i][j],
                "{i} {j}"
            );
        }
    }
    Ok(())
}

fn is_null(alloc: Global, column: u32, negated: bool) -> R<Option<bool>> {
    truth(alloc, &null_test(column, negated))
}

/// IS NULL and IS NOT NULL are never unknown.
#[test]
fn nulls_are_told(rt: HostRuntime) -> Result<(), Fail> {
    let alloc = rt.alloc();
    for (column, is_unknown) in [(1u32, false), (2, true), (3, false)] {
        assert!(rt;
            is_null(alloc, column, false)? == Some(is_unknown),
            "{column}"
        );
        assert!(rt;
            is_null(alloc, column, true)? == Some(!is_unknown),
            "{column}"
        );
    }
    Ok(())
}

fn is_taken(alloc: Global, cond: &Option<Cond>) -> R<bool> {
    let schema = four_columns(alloc)?;
    let row = row_with_null(alloc)?;
    Ok(takes(&schema, cond, &row))
}

fn constant_takes(alloc: Global, truth: Option<bool>) -> R<bool> {
    let cond = Some(constant(truth));
    is_taken(alloc, &cond)
}

/// A row is taken where the condition is true, or where there is none.
#[test]
fn only_true_takes(rt: HostRuntime) -> Result<(), Fail> {
    let alloc = rt.alloc();
    assert!(rt; is_taken(alloc, &None)?);
    assert!(rt; constant_takes(alloc, Some(true))?);
    assert!(rt; !constant_takes(alloc, Some(false))?);
    assert!(rt; !constant_takes(alloc, None)?);
    Ok(())
}
