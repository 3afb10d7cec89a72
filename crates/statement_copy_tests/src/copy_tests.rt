//! Copies of expressions and conditions, as parts of assignments and statements.
use ptc_statement::{Assignment, Assignments, Cond, Expr, Op, Statements};
use row_types::{R, Value};
use statement_builders::{
    OPS, add, and, compare, delete, key_compare, mul, neg, not, null_test, number, or, sub,
    whole_key,
};
use std::alloc::Global;
use std::test::Fail;
use test_builders::text_value;

fn push(sets: &mut Assignments, expr: Expr) -> R<()> {
    sets.push(Assignment { column: 1, expr })
}

/// Each kind of literal, and a column.
fn leaves(alloc: Global) -> R<Assignments> {
    let mut sets = Assignments::new(alloc);
    push(&mut sets, Expr::Lit(Value::Null))?;
    push(&mut sets, number(5))?;
    push(&mut sets, Expr::Lit(text_value(alloc, b"ab")?))?;
    push(&mut sets, Expr::Cell(3))?;
    Ok(sets)
}

/// Each kind of arithmetic.
fn arithmetic(alloc: Global) -> R<Assignments> {
    let mut sets = Assignments::new(alloc);
    push(&mut sets, neg(alloc, number(1))?)?;
    push(&mut sets, add(alloc, number(1), Expr::Cell(2))?)?;
    push(&mut sets, sub(alloc, number(1), Expr::Cell(2))?)?;
    push(&mut sets, mul(alloc, number(1), Expr::Cell(2))?)?;
    Ok(sets)
}

/// Whether the copy is the same, and no assignment is the same as another.
fn sets_are_copied(alloc: Global, sets: &Assignments) -> R<bool> {
    let copy = sets.copy(alloc)?;
    Ok(copy.same(sets) && copy.len() == 4 && sets_differ(sets.as_slice()))
}

fn sets_differ(sets: &[Assignment]) -> bool {
    for i in 0..sets.len() {
        if !is_only(sets, i) {
            return false;
        }
    }
    true
}

fn is_only(sets: &[Assignment], place: usize) -> bool {
    for (i, other) in sets.iter().enumerate() {
        match sets.get(place) {
            Some(set) if set.same(other) == (i == place) => (),
            _ => return false,
        }
    }
    true
}

/// Each kind of expression has a copy, and is told from the others.
#[test]
fn expressions_are_copied(rt: HostRuntime) -> Result<(), Fail> {
    let alloc = rt.alloc();
    assert!(rt; sets_are_copied(alloc, &leaves(alloc)?)?);
    assert!(rt; sets_are_copied(alloc, &arithmetic(alloc)?)?);
    Ok(())
}

fn push_delete(statements: &mut Statements, cond: Cond) -> R<()> {
    statements.push(delete(Some(cond)))
}

/// Each kind of condition that holds no other.
fn terms(alloc: Global) -> R<Statements> {
    let mut deletes = Statements::new(alloc);
    push_delete(&mut deletes, compare(Op::Le, Expr::Cell(1), number(2)))?;
    push_delete(&mut deletes, whole_key(alloc, Op::Gt, 1)?)?;
    push_delete(&mut deletes, null_test(1, true))?;
    push_delete(&mut deletes, null_test(1, false))?;
    Ok(deletes)
}

/// NOT, AND and OR.
fn joined(alloc: Global) -> R<Statements> {
    let mut deletes = Statements::new(alloc);
    push_delete(&mut deletes, not(alloc, null_test(1, true))?)?;
    push_delete(
        &mut deletes,
        and(alloc, null_test(1, true), key_compare(Op::Lt, 2))?,
    )?;
    push_delete(
        &mut deletes,
        or(alloc, null_test(1, true), key_compare(Op::Lt, 2))?,
    )?;
    Ok(deletes)
}

fn are_copied(alloc: Global, statements: &Statements) -> R<bool> {
    let copy = statements.copy(alloc)?;
    Ok(copy.same(statements) && copy.len() > 2)
}

/// Each kind of condition has a copy.
#[test]
fn conditions_are_copied(rt: HostRuntime) -> Result<(), Fail> {
    let alloc = rt.alloc();
    assert!(rt; are_copied(alloc, &terms(alloc)?)?);
    assert!(rt; are_copied(alloc, &joined(alloc)?)?);
    Ok(())
}

/// Each sign has a copy.
#[test]
fn signs_are_copied(rt: HostRuntime) -> Result<(), Fail> {
    let alloc = rt.alloc();
    for op in OPS {
        assert!(rt; op.copy(alloc)?.same(&op));
    }
    Ok(())
}
