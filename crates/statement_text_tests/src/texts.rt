use ptc_statement::{Statement, Statements};
use row_types::{ColumnKind, Columns, R, Schemas};
use statement_text::write;
use std::alloc::Global;
use test_builders::{column, schema, schemas};

/// `t (a BIGINT KEY, b BIGINT KEY, v BIGINT)`.
fn three_columns(alloc: Global) -> R<Schemas> {
    let mut columns = Columns::new(alloc);
    columns.push(column(alloc, b"a", ColumnKind::BigInt, false)?)?;
    columns.push(column(alloc, b"b", ColumnKind::BigInt, false)?)?;
    columns.push(column(alloc, b"v", ColumnKind::BigInt, true)?)?;
    Ok(Schemas {
        tables: schemas(alloc, schema(alloc, b"t", columns, 2)?)?,
    })
}

/// Whether a statement is written so, after what stood in the text before.
fn is_written(alloc: Global, statement: &Statement, expected: &[u8]) -> R<bool> {
    let mut out = Vec::from_slice(alloc, b">")?;
    write(alloc, statement, &three_columns(alloc)?, &mut out)?;
    Ok(out.as_slice() == expected)
}

/// Whether each of the statements is written as these two texts, one after the other.
pub fn are_both(alloc: Global, statements: &Statements, start: &[u8], text: &[u8]) -> R<bool> {
    let mut expected = Vec::from_slice(alloc, b">")?;
    expected.extend_from_slice(start)?;
    expected.extend_from_slice(text)?;
    for statement in statements.as_slice() {
        if !is_written(alloc, statement, expected.as_slice())? {
            return Ok(false);
        }
    }
    Ok(true)
}

/// Whether each of the statements is written so.
pub fn are_written(alloc: Global, statements: &Statements, text: &[u8]) -> R<bool> {
    are_both(alloc, statements, b"", text)
}
