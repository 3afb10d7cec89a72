use ptc_statement::{Cond, Expr, Op, Statement, Statements, reach};
use row_types::{Edge, LockMode, R, Span, Value};
use statement_builders::{
    OPS, SET_MASTER, add, and, check, clear_checks, column_is, compare, delete, four_columns,
    insert, key_compare, lock_read, not, null_test, number, one, or, set_five, two_keys, update,
};
use std::alloc::Global;
use std::test::Fail;
use test_builders::{key, key_of_two, keys_between};

/// Whether a statement walks these keys of a table whose key is one number.
fn walks(alloc: Global, statement: &Statement, wanted: &Span) -> R<bool> {
    let schema = four_columns(alloc)?;
    Ok(reach(alloc, statement, &schema)?.same(wanted))
}

/// Whether each of the statements walks these keys.
fn each_walks(alloc: Global, statements: &Statements, wanted: &Span) -> R<bool> {
    for statement in statements.as_slice() {
        if !walks(alloc, statement, wanted)? {
            return Ok(false);
        }
    }
    Ok(true)
}

/// Whether a DELETE with the condition walks these keys.
fn leaves(alloc: Global, cond: Option<Cond>, wanted: &Span) -> R<bool> {
    let deletes = one(alloc, delete(cond))?;
    each_walks(alloc, &deletes, wanted)
}

/// Whether a DELETE with the condition walks all keys.
fn leaves_all(alloc: Global, cond: Option<Cond>) -> R<bool> {
    leaves(alloc, cond, &Span::whole())
}

/// An INSERT and an UPDATE of one key.
fn of_one_key(alloc: Global) -> R<Statements> {
    let mut statements = one(alloc, insert(alloc, 5, 1)?)?;
    statements.push(update(set_five(alloc)?, column_is(0, Value::Int(5))))?;
    Ok(statements)
}

/// A statement with a row walks its key, one with a condition those that it leaves.
#[test]
fn statements_walk_keys(rt: HostRuntime) -> Result<(), Fail> {
    let alloc = rt.alloc();
    let five = keys_between(alloc, 5, 5)?;
    assert!(rt; each_walks(alloc, &of_one_key(alloc)?, &five)?);
    assert!(rt; leaves_all(alloc, column_is(1, Value::Int(5)))?);
    assert!(rt; leaves_all(alloc, None)?);
    Ok(())
}

fn before_five(alloc: Global) -> R<Span> {
    Ok(Span {
        lo: Edge::Low,
        hi: Edge::Before(key(alloc, 5)?),
    })
}

fn between_two_and_five(alloc: Global) -> R<Span> {
    Ok(Span {
        lo: Edge::After(key(alloc, 2)?),
        hi: Edge::Before(key(alloc, 5)?),
    })
}

fn lock_read_meets_both(alloc: Global) -> R<bool> {
    let cond = Some(key_compare(Op::Gt, 2));
    let reads = one(
        alloc,
        lock_read(LockMode::Shared, before_five(alloc)?, cond),
    )?;
    each_walks(alloc, &reads, &between_two_and_five(alloc)?)
}

fn check_walks_its_span(alloc: Global) -> R<bool> {
    let checks = one(alloc, check(before_five(alloc)?))?;
    each_walks(alloc, &checks, &before_five(alloc)?)
}

/// The tool's statements on check rows walk no key.
fn others_walk_none(alloc: Global) -> R<bool> {
    let mut statements = one(alloc, clear_checks())?;
    statements.push(SET_MASTER)?;
    let nothing = Span {
        lo: Edge::Low,
        hi: Edge::Low,
    };
    each_walks(alloc, &statements, &nothing)
}

/// A locking read walks the keys of both span and condition, CHECKSUM those of its span, and the
/// tool's other statements none.
#[test]
fn spans_are_walked(rt: HostRuntime) -> Result<(), Fail> {
    let alloc = rt.alloc();
    assert!(rt; lock_read_meets_both(alloc)?);
    assert!(rt; check_walks_its_span(alloc)?);
    assert!(rt; others_walk_none(alloc)?);
    Ok(())
}

/// The span that a sign gives on 5.
fn of_five(alloc: Global, op: Op) -> R<Span> {
    let (before, after) = (Edge::Before(key(alloc, 5)?), Edge::After(key(alloc, 5)?));
    let (lo, hi) = match op {
        Op::Eq => (before, after),
        Op::Ne => (Edge::Low, Edge::High),
        Op::Lt => (Edge::Low, before),
        Op::Le => (Edge::Low, after),
        Op::Gt => (after, Edge::High),
        Op::Ge => (before, Edge::High),
    };
    Ok(Span { lo, hi })
}

const EXCHANGED: [Op; 6] = [Op::Eq, Op::Ne, Op::Gt, Op::Ge, Op::Lt, Op::Le];

/// Whether the first column compared with 5 leaves the keys that the sign gives.
fn left_narrows(alloc: Global, op: Op) -> R<bool> {
    let wanted = of_five(alloc, op)?;
    leaves(alloc, Some(key_compare(op, 5)), &wanted)
}

/// Whether 5 compared with the first column by the exchanged sign leaves the same ones.
fn right_narrows(alloc: Global, op: Op, exchanged: Op) -> R<bool> {
    let wanted = of_five(alloc, op)?;
    leaves(
        alloc,
        Some(compare(exchanged, number(5), Expr::Cell(0))),
        &wanted,
    )
}

/// Each sign, with the column on the left and on the right.
#[test]
fn comparisons_narrow_either_way(rt: HostRuntime) -> Result<(), Fail> {
    let alloc = rt.alloc();
    for (op, exchanged) in OPS.iter().zip(EXCHANGED.iter()) {
        assert!(rt; left_narrows(alloc, *op)?);
        assert!(rt; right_narrows(alloc, *op, *exchanged)?);
    }
    Ok(())
}

/// `9 >= id AND (id > 2 AND b = 0)`.
fn nested(alloc: Global) -> R<Cond> {
    let inner = and(
        alloc,
        key_compare(Op::Gt, 2),
        compare(Op::Eq, Expr::Cell(1), number(0)),
    )?;
    and(alloc, compare(Op::Ge, number(9), Expr::Cell(0)), inner)
}

fn after_two_to_nine(alloc: Global) -> R<Span> {
    Ok(Span {
        lo: Edge::After(key(alloc, 2)?),
        hi: Edge::After(key(alloc, 9)?),
    })
}

fn nested_narrows(alloc: Global) -> R<bool> {
    let wanted = after_two_to_nine(alloc)?;
    leaves(alloc, Some(nested(alloc)?), &wanted)
}

/// ANDs under ANDs narrow.
#[test]
fn joined_terms_narrow(rt: HostRuntime) -> Result<(), Fail> {
    assert!(rt; nested_narrows(rt.alloc())?);
    Ok(())
}

/// DELETEs where the key is below 2 and above 9.
fn crossed(alloc: Global) -> R<Statements> {
    let cond = and(alloc, key_compare(Op::Lt, 2), key_compare(Op::Gt, 9))?;
    one(alloc, delete(Some(cond)))
}

/// Whether a statement walks a key.
fn walks_key(alloc: Global, statement: &Statement, id: i64) -> R<bool> {
    let schema = four_columns(alloc)?;
    let reached = reach(alloc, statement, &schema)?;
    Ok(reached.has(&key(alloc, id)?))
}

/// Whether one of the statements walks a key.
fn one_walks_key(alloc: Global, statements: &Statements, id: i64) -> R<bool> {
    for statement in statements.as_slice() {
        if walks_key(alloc, statement, id)? {
            return Ok(true);
        }
    }
    Ok(false)
}

/// Terms that exclude one another leave no key.
#[test]
fn crossed_terms_leave_nothing(rt: HostRuntime) -> Result<(), Fail> {
    let alloc = rt.alloc();
    let deletes = crossed(alloc)?;
    for id in [1, 2, 5, 9, 10] {
        assert!(rt; !one_walks_key(alloc, &deletes, id)?, "{id}");
    }
    Ok(())
}

fn either(alloc: Global) -> R<Cond> {
    or(alloc, key_compare(Op::Eq, 1), key_compare(Op::Eq, 2))
}

/// The key compared with NULL.
fn key_is_unknown() -> Cond {
    compare(Op::Eq, Expr::Cell(0), Expr::Lit(Value::Null))
}

fn key_is_sum(alloc: Global) -> R<Cond> {
    let sum = add(alloc, number(2), number(3))?;
    Ok(compare(Op::Eq, Expr::Cell(0), sum))
}

/// OR and NOT don't narrow.
#[test]
fn other_terms_narrow_nothing(rt: HostRuntime) -> Result<(), Fail> {
    let alloc = rt.alloc();
    assert!(rt; leaves_all(alloc, Some(either(alloc)?))?);
    assert!(rt; leaves_all(alloc, Some(not(alloc, key_compare(Op::Ne, 1))?))?);
    Ok(())
}

/// NULL and what is no literal don't narrow.
#[test]
fn other_sides_narrow_nothing(rt: HostRuntime) -> Result<(), Fail> {
    let alloc = rt.alloc();
    assert!(rt; leaves_all(alloc, Some(key_is_sum(alloc)?))?);
    assert!(rt; leaves_all(alloc, Some(key_is_unknown()))?);
    assert!(rt; leaves_all(alloc, Some(null_test(0, false)))?);
    Ok(())
}

/// `(a, b) > (1, 'a') AND (a, b) < (2, '')`.
fn between_rows(alloc: Global) -> R<Cond> {
    let above = Cond::KeyCompare {
        op: Op::Gt,
        key: key_of_two(alloc, 1, b"a")?,
    };
    let below = Cond::KeyCompare {
        op: Op::Lt,
        key: key_of_two(alloc, 2, b"")?,
    };
    and(alloc, above, below)
}

fn keys_between_rows(alloc: Global) -> R<Span> {
    Ok(Span {
        lo: Edge::After(key_of_two(alloc, 1, b"a")?),
        hi: Edge::Before(key_of_two(alloc, 2, b"")?),
    })
}

/// Whether a statement walks these keys of a table whose key has two columns.
fn walks_of_two(alloc: Global, statement: &Statement, wanted: &Span) -> R<bool> {
    let schema = two_keys(alloc)?;
    Ok(reach(alloc, statement, &schema)?.same(wanted))
}

/// Whether a DELETE with the condition does.
fn leaves_of_two(alloc: Global, cond: Cond, wanted: &Span) -> R<bool> {
    let deletes = one(alloc, delete(Some(cond)))?;
    each_walks_of_two(alloc, &deletes, wanted)
}

fn each_walks_of_two(alloc: Global, statements: &Statements, wanted: &Span) -> R<bool> {
    for statement in statements.as_slice() {
        if !walks_of_two(alloc, statement, wanted)? {
            return Ok(false);
        }
    }
    Ok(true)
}

fn whole_key_narrows(alloc: Global) -> R<bool> {
    let wanted = keys_between_rows(alloc)?;
    leaves_of_two(alloc, between_rows(alloc)?, &wanted)
}

fn first_column_narrows_nothing(alloc: Global) -> R<bool> {
    leaves_of_two(alloc, key_compare(Op::Eq, 1), &Span::whole())
}

/// Comparisons of the whole key narrow, and one of its first column alone doesn't.
#[test]
fn row_comparisons_narrow(rt: HostRuntime) -> Result<(), Fail> {
    let alloc = rt.alloc();
    assert!(rt; whole_key_narrows(alloc)?);
    assert!(rt; first_column_narrows_nothing(alloc)?);
    Ok(())
}
