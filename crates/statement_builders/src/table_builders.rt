use row_types::{ColumnKind, Columns, R, Row, Schema, Value};
use std::alloc::Global;
use test_builders::{column, row, schema, text_value};

/// `t (id BIGINT KEY, b BIGINT, n INT, s VARCHAR(3))`.
pub fn four_columns(alloc: Global) -> R<Schema> {
    let mut columns = Columns::new(alloc);
    columns.push(column(alloc, b"id", ColumnKind::BigInt, false)?)?;
    columns.push(column(alloc, b"b", ColumnKind::BigInt, true)?)?;
    columns.push(column(alloc, b"n", ColumnKind::Int, true)?)?;
    columns.push(column(alloc, b"s", ColumnKind::Text { max: 3 }, true)?)?;
    schema(alloc, b"t", columns, 1)
}

/// The row (1, b, n, s) of such a table.
pub fn four(alloc: Global, b: i64, n: i64, s: &[u8]) -> R<Row> {
    let mut row = row(alloc, 1, b)?;
    row.push(Value::Int(n))?;
    row.push(text_value(alloc, s)?)?;
    Ok(row)
}

/// `t (a BIGINT, b VARCHAR(4), KEY (a, b))`.
pub fn two_keys(alloc: Global) -> R<Schema> {
    let mut columns = Columns::new(alloc);
    columns.push(column(alloc, b"a", ColumnKind::BigInt, false)?)?;
    columns.push(column(alloc, b"b", ColumnKind::Text { max: 4 }, false)?)?;
    schema(alloc, b"t", columns, 2)
}
