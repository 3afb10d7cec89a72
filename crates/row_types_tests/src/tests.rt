ghost use Rattle.std.specs.Prelude.{◌≡◌, ◌<◌, ◌^◌, IfOk, [], ◌∷◌, length};
ghost use Rattle.row_types.specs.Faults.{TextIsShort};

use row_types::{
    Bytes, ColumnKind, Columns, Digest, DigestKind, Edge, Key, LockMode, Memory, Plain, R, Row,
    RowFault, Rows, Schema, Schemas, Span, Value, clip,
};
use std::alloc::Global;
use std::test::Fail;
use test_builders::{
    column, key_of_two as key, null_row as row, schema, schemas, tables, text_value,
};

/// Keys that rise: a key before those that it is a prefix of, a number before each text.
fn keys(alloc: Global) -> R<Vec<Key>> {
    let mut keys = Vec::new(alloc);
    keys.push(Key::from_values(alloc, &[Value::Int(-7)])?)?;
    keys.push(key(alloc, -7, b"a")?)?;
    keys.push(key(alloc, -7, b"ab")?)?;
    keys.push(key(alloc, i64::MAX, b"")?)?;
    let mut worded = Key::new(alloc);
    worded.push(text_value(alloc, b"")?)?;
    keys.push(worded)?;
    Ok(keys)
}

/// Whether a copy of the key of this number stands in its place among the keys.
fn key_is_placed(copy: &Key, keys: &[Key], place: usize) -> bool {
    for i in 0..keys.len() {
        if copy.compare(&keys[i]) != place.cmp(&i) || copy.same(&keys[i]) != (i == place) {
            return false;
        }
    }
    true
}

#[test]
fn keys_are_ordered(rt: HostRuntime) -> Result<(), Fail> {
    let keys = keys(rt.alloc())?;
    assert!(rt; keys.len() == 5);
    for i in 0..keys.len() {
        let copy = keys[i].copy(rt.alloc())?;
        assert!(rt; key_is_placed(&copy, keys.as_slice(), i), "at {i}");
    }
    Ok(())
}

/// The keys after one and before another.
fn keys_within(alloc: Global, low: &[u8], high: &[u8]) -> R<Span> {
    let lo = Edge::After(key(alloc, 1, low)?);
    let hi = Edge::Before(key(alloc, 3, high)?);
    Ok(Span { lo, hi })
}

/// A span from after one key to before another has neither.
#[test]
fn spans_have_keys(rt: HostRuntime) -> Result<(), Fail> {
    let span = keys_within(rt.alloc(), b"a", b"")?;
    for (number, bytes, want) in [(1, b"a", false), (1, b"b", true), (3, b" ", false)] {
        let key = key(rt.alloc(), number, bytes)?;
        assert!(rt;
            span.has(&key) == want && Span::whole().has(&key),
            "at {number}"
        );
    }
    let copy = span.copy(rt.alloc())?;
    assert!(rt; copy.same(&span) && !copy.same(&Span::whole()));
    Ok(())
}

/// The schemas of the table `t (a INT, b VARCHAR(4))`, whose key is both columns.
fn two_columns(alloc: Global) -> R<Schemas> {
    let mut columns = Columns::new(alloc);
    columns.push(column(alloc, b"a", ColumnKind::Int, false)?)?;
    columns.push(column(alloc, b"b", ColumnKind::Text { max: 4 }, false)?)?;
    let tables = schemas(alloc, schema(alloc, b"t", columns, 2)?)?;
    Ok(Schemas { tables })
}

#[test]
fn schemas_are_copied(rt: HostRuntime) -> Result<(), Fail> {
    let schemas = two_columns(rt.alloc())?;
    let mut copy = schemas.copy(rt.alloc())?;
    assert!(rt; copy.same(&schemas) && copy.tables.len() == 1);
    assert!(rt; copy.tables.get(1).is_none() && copy.tables.get(0).is_some());
    copy.tables.items.clear();
    assert!(rt; !copy.same(&schemas));
    Ok(())
}

/// A copy of tables is the same until a table more is put in.
#[test]
fn tables_are_copied(rt: HostRuntime) -> Result<(), Fail> {
    let tables = tables(rt.alloc(), &[(i64::MIN, 0)])?;
    let mut copy = tables.copy(rt.alloc())?;
    assert!(rt; copy.same(&tables) && copy.len() == 1 && !copy.is_empty());
    copy.push(Rows::new(rt.alloc()))?;
    assert!(rt; !copy.same(&tables) && copy.len() == 2);
    Ok(())
}

/// A digest is the same as its copy, and as none with another count or another byte.
#[test]
fn digests_are_copied(rt: HostRuntime) -> Result<(), Fail> {
    let alloc = rt.alloc();
    let digest = Digest {
        count: u64::MAX,
        xor: [255; 20],
    };
    let mut xor = [255; 20];
    xor[19] = 254;
    let copy = digest.copy(alloc)?;
    assert!(rt; copy.same(&digest));
    assert!(rt;
        !copy.same(&Digest {
            count: 0,
            xor: [255; 20]
        })
    );
    assert!(rt;
        !copy.same(&Digest {
            count: u64::MAX,
            xor
        })
    );
    Ok(())
}

/// Both ends of each kind of numbers, and the numbers beside them.
#[test]
fn numbers_are_clipped(rt: HostRuntime) -> Result<(), Fail> {
    let (int, big) = (ColumnKind::Int, ColumnKind::BigInt);
    assert!(rt; clip(&int, 2147483647) == 2147483647 && clip(&int, 2147483648) == 2147483647);
    assert!(rt; clip(&int, -2147483648) == -2147483648 && clip(&int, -2147483649) == -2147483648);
    assert!(rt; clip(&big, 9223372036854775807) == i64::MAX);
    assert!(rt; clip(&big, 9223372036854775808) == i64::MAX);
    assert!(rt; clip(&big, -9223372036854775808) == i64::MIN);
    assert!(rt; clip(&big, -9223372036854775809) == i64::MIN);
    assert!(rt; clip(&big, i128::MAX) == i64::MAX && clip(&int, i128::MIN) == -2147483648);
    assert!(rt; clip(&int, -1) == -1 && clip(&big, 0) == 0);
    Ok(())
}

/// The meeting of two spans that overlap, either way round.
#[test]
fn spans_meet(rt: HostRuntime) -> Result<(), Fail> {
    let one = keys_within(rt.alloc(), b"a", b"x")?;
    let two = keys_within(rt.alloc(), b"b", b"y")?;
    let both = one.meet(rt.alloc(), &two)?;
    assert!(rt; both.lo.same(&two.lo) && both.hi.same(&one.hi));
    assert!(rt; two.meet(rt.alloc(), &one)?.same(&both));
    Ok(())
}

/// A span that ends where another begins has no key in common with it.
#[test]
fn spans_that_touch_have_no_key_in_common(rt: HostRuntime) -> Result<(), Fail> {
    let above = keys_within(rt.alloc(), b"a", b"x")?;
    let upto = Span {
        lo: Edge::Low,
        hi: Edge::After(key(rt.alloc(), 1, b"a")?),
    };
    let none = above.meet(rt.alloc(), &upto)?;
    assert!(rt; none.lo.same(&Edge::Low) && none.hi.same(&Edge::Low));
    assert!(rt; upto.meet(rt.alloc(), &Span::whole())?.same(&upto));
    Ok(())
}

/// Edges that rise, around equal keys: Before, then After; those of a greater key follow.
fn edges(alloc: Global) -> R<Vec<Edge>> {
    let mut edges = Vec::new(alloc);
    edges.push(Edge::Low)?;
    edges.push(Edge::Before(key(alloc, 1, b"a")?))?;
    edges.push(Edge::After(key(alloc, 1, b"a")?))?;
    edges.push(Edge::Before(key(alloc, 1, b"ab")?))?;
    edges.push(Edge::High)?;
    Ok(edges)
}

/// Whether a copy of the edge of this number stands in its place among the edges.
fn edge_is_placed(copy: &Edge, edges: &[Edge], place: usize) -> bool {
    for i in 0..edges.len() {
        if copy.compare(&edges[i]) != place.cmp(&i) || copy.same(&edges[i]) != (i == place) {
            return false;
        }
    }
    true
}

#[test]
fn edges_are_ordered(rt: HostRuntime) -> Result<(), Fail> {
    let edges = edges(rt.alloc())?;
    assert!(rt; edges.len() == 5);
    for i in 0..edges.len() {
        let copy = edges[i].copy(rt.alloc())?;
        assert!(rt; edge_is_placed(&copy, edges.as_slice(), i), "at {i}");
    }
    Ok(())
}

/// `(a BIGINT KEY, n INT, s VARCHAR(3) NOT NULL)`.
fn checked_schema(alloc: Global) -> R<Schema>
    ensures { IfOk result (λ schema. length schema.columns ≡ 3) }
{
    let mut columns = Columns::new(alloc);
    columns.push(column(alloc, b"c", ColumnKind::BigInt, false)?)?;
    columns.push(column(alloc, b"c", ColumnKind::Int, true)?)?;
    columns.push(column(alloc, b"c", ColumnKind::Text { max: 3 }, false)?)?;
    schema(alloc, b"t", columns, 1)
}

fn triple(alloc: Global, first: Value, second: Value, third: &[u8]) -> R<Row>
    ensures { IfOk result (λ row. row ≡ first ∷ second ∷ Value.Text third.now ∷ []) }
{
    let mut row = Row::new(alloc);
    row.push(first)?;
    row.push(second)?;
    row.push(text_value(alloc, third)?)?;
    Ok(row)
}

/// Rows that fit, and the key of one.
#[test]
fn rows_fit(rt: HostRuntime) -> Result<(), Fail> {
    let alloc = rt.alloc();
    let schema = checked_schema(alloc)?;
    let row = triple(alloc, Value::Int(i64::MIN), Value::Null, b"abc")?;
    assert!(rt; schema.check(&row).is_ok());
    let mut want = Key::new(alloc);
    want.push(Value::Int(i64::MIN))?;
    assert!(rt; schema.key_of(alloc, &row)?.same(&want));
    assert!(rt; Key::from_values(alloc, schema.key_values(&row))?.same(&want));
    let low = triple(alloc, Value::Int(0), Value::Int(-2147483648), b"")?;
    assert!(rt; schema.check(&low).is_ok());
    Ok(())
}

/// What is wrong with a row of these values.
fn check_triple(alloc: Global, first: Value, second: Value, third: &[u8]) -> R<Result<(), RowFault>>
    requires first { TextIsShort first }
    requires second { TextIsShort second }
    requires third { length third.now < 2 ^ 32 }
{
    let row = triple(alloc, first, second, third)?;
    let schema = checked_schema(alloc)?;
    Ok(schema.check(&row))
}

/// Each fault, the first column's first.
#[test]
fn rows_have_faults(rt: HostRuntime) -> Result<(), Fail> {
    let alloc = rt.alloc();
    let big = 2147483648;
    let null = check_triple(alloc, Value::Null, Value::Int(big), b"")?;
    assert!(rt; null == Err(RowFault::NullIn { column: 0 }));
    let high = check_triple(alloc, Value::Int(1), Value::Int(big), b"abcd")?;
    assert!(rt;
        high == Err(RowFault::OutOfRange {
            column: 1,
            value: big
        })
    );
    let long = check_triple(alloc, Value::Int(1), Value::Int(0), b"abcd")?;
    assert!(rt; long == Err(RowFault::TooLong { column: 2, len: 4 }));
    let kind = check_triple(alloc, Value::Int(1), text_value(alloc, b"x")?, b"abcd")?;
    assert!(rt; kind == Err(RowFault::Kind { column: 1 }));
    Ok(())
}

#[test]
fn rows_have_a_value_for_each_column(rt: HostRuntime) -> Result<(), Fail> {
    let schema = checked_schema(rt.alloc())?;
    let short = row(rt.alloc(), 1)?;
    assert!(rt; schema.check(&short) == Err(RowFault::Arity { got: 2, want: 3 }));
    Ok(())
}

/// Each variant is the same as its copy, and as no other.
#[test]
fn variants_are_copied(rt: HostRuntime) -> Result<(), Fail> {
    let alloc = rt.alloc();
    let modes = [LockMode::Shared, LockMode::Exclusive];
    let digests = [DigestKind::Md5, DigestKind::Sha1];
    for i in 0..2usize {
        let (mode, digest) = (modes[i].copy(alloc)?, digests[i].copy(alloc)?);
        for j in 0..2usize {
            assert!(rt; mode.same(&modes[j]) == (i == j), "{i} and {j}");
            assert!(rt; digest.same(&digests[j]) == (i == j), "{i} and {j}");
        }
    }
    assert!(rt; Memory.copy(alloc)?.same(&Memory));
    Ok(())
}

#[test]
fn kinds_are_copied(rt: HostRuntime) -> Result<(), Fail> {
    let alloc = rt.alloc();
    let kinds = [
        ColumnKind::Int,
        ColumnKind::BigInt,
        ColumnKind::Text { max: 4 },
        ColumnKind::Text { max: 5 },
    ];
    for i in 0..4usize {
        let kind = kinds[i].copy(alloc)?;
        for j in 0..4usize {
            assert!(rt; kind.same(&kinds[j]) == (i == j), "{i} and {j}");
        }
    }
    Ok(())
}

#[test]
fn faults_are_copied(rt: HostRuntime) -> Result<(), Fail> {
    let alloc = rt.alloc();
    let faults = [
        RowFault::Arity { got: 1, want: 2 },
        RowFault::NullIn { column: 1 },
        RowFault::Kind { column: 1 },
        RowFault::OutOfRange {
            column: 1,
            value: 2,
        },
        RowFault::TooLong { column: 1, len: 2 },
    ];
    for i in 0..5usize {
        let fault = faults[i].copy(alloc)?;
        for j in 0..5usize {
            assert!(rt; fault.same(&faults[j]) == (i == j), "{i} and {j}");
        }
    }
    Ok(())
}

/// A text grows byte by byte, and its copy does not grow with it.
#[test]
fn texts_are_copied(rt: HostRuntime) -> Result<(), Fail> {
    let alloc = rt.alloc();
    let mut text = Bytes::new(alloc);
    assert!(rt; text.is_empty());
    text.push(b'a')?;
    let copy = text.copy(alloc)?;
    assert!(rt; copy.same(&text) && copy.as_slice() == b"a".as_slice());
    text.push(b'b')?;
    assert!(rt; !copy.same(&text) && text.len() == 2);
    Ok(())
}

/// Values of each kind.
fn values(alloc: Global) -> R<Vec<Value>> {
    let mut values = Vec::new(alloc);
    values.push(Value::Null)?;
    values.push(Value::Int(1))?;
    values.push(Value::Int(-1))?;
    values.push(text_value(alloc, b"ab")?)?;
    values.push(text_value(alloc, b"aa")?)?;
    Ok(values)
}

/// Whether the copy of the value of this number is the same as that value alone.
fn is_only(copy: &Value, values: &[Value], place: usize) -> bool {
    for i in 0..values.len() {
        if copy.same(&values[i]) != (i == place) {
            return false;
        }
    }
    true
}

#[test]
fn values_are_copied(rt: HostRuntime) -> Result<(), Fail> {
    let values = values(rt.alloc())?;
    assert!(rt; values.len() == 5);
    for i in 0..values.len() {
        let copy = values[i].copy(rt.alloc())?;
        assert!(rt; is_only(&copy, values.as_slice(), i), "at {i}");
    }
    Ok(())
}

/// Slices of values are the same as their copies, and as no others of the same length.
#[test]
fn slices_are_copied(rt: HostRuntime) -> Result<(), Fail> {
    let values = values(rt.alloc())?;
    let copies = Value::copies(rt.alloc(), values.as_slice())?;
    assert!(rt; values.len() == 5 && copies.len() == 5);
    assert!(rt; Value::all_same(copies.as_slice(), values.as_slice()));
    let (upto, after) = (
        values.as_slice().split_at(4).0,
        values.as_slice().split_at(1).1,
    );
    assert!(rt; !Value::all_same(upto, copies.as_slice()) && !Value::all_same(upto, after));
    Ok(())
}
