use ptc_statement::{Statement, Statements};
use row_types::{ColumnKind, Columns, R, Schema, SchemaList, Schemas};
use statement_grammar::TextFault;
use statement_reads::{are_countable, read};
use statement_text::write;
use std::alloc::Global;
use test_builders::{column, schema};

/// `t (id BIGINT KEY, v BIGINT, s VARCHAR(5) NOT NULL)`.
fn one_key(alloc: Global) -> R<Schema> {
    let mut columns = Columns::new(alloc);
    columns.push(column(alloc, b"id", ColumnKind::BigInt, false)?)?;
    columns.push(column(alloc, b"v", ColumnKind::BigInt, true)?)?;
    columns.push(column(alloc, b"s", ColumnKind::Text { max: 5 }, false)?)?;
    schema(alloc, b"t", columns, 1)
}

/// `k (a INT, b VARCHAR(4), v BIGINT, s VARCHAR(5), KEY (a, b))`.
fn two_keys(alloc: Global) -> R<Schema> {
    let mut columns = Columns::new(alloc);
    columns.push(column(alloc, b"a", ColumnKind::Int, false)?)?;
    columns.push(column(alloc, b"b", ColumnKind::Text { max: 4 }, false)?)?;
    columns.push(column(alloc, b"v", ColumnKind::BigInt, true)?)?;
    columns.push(column(alloc, b"s", ColumnKind::Text { max: 5 }, true)?)?;
    schema(alloc, b"k", columns, 2)
}

fn two_tables(alloc: Global) -> R<Schemas> {
    let mut tables = SchemaList::new(alloc);
    tables.push(one_key(alloc)?)?;
    tables.push(two_keys(alloc)?)?;
    Ok(Schemas { tables })
}

fn read_over(alloc: Global, text: &[u8], schemas: &Schemas) -> Result<Statement, TextFault> {
    if text.len() > 100000 || !are_countable(schemas) {
        return Err(TextFault::Memory);
    }
    read(alloc, text, schemas)
}

fn fault_of(read: Result<Statement, TextFault>) -> Option<TextFault> {
    match read {
        Ok(_) => None,
        Err(fault) => Some(fault),
    }
}

/// Whether this is the text's first fault.
pub fn is_refused(alloc: Global, text: &[u8], fault: TextFault) -> R<bool> {
    let schemas = two_tables(alloc)?;
    Ok(fault_of(read_over(alloc, text, &schemas)) == Some(fault))
}

fn is_written(alloc: Global, statement: &Statement, schemas: &Schemas, text: &[u8]) -> R<bool> {
    let mut out = Vec::new(alloc);
    write(alloc, statement, schemas, &mut out)?;
    Ok(out.as_slice() == text)
}

fn is_written_so(
    alloc: Global,
    read: Result<Statement, TextFault>,
    schemas: &Schemas,
    text: &[u8],
) -> R<bool> {
    match read {
        Ok(statement) => is_written(alloc, &statement, schemas, text),
        Err(_) => Ok(false),
    }
}

/// Whether the text is read as a statement that is written so.
pub fn is_read_as(alloc: Global, text: &[u8], written: &[u8]) -> R<bool> {
    let schemas = two_tables(alloc)?;
    is_written_so(alloc, read_over(alloc, text, &schemas), &schemas, written)
}

fn is_first(read: Result<Statement, TextFault>, wanted: &Statements) -> bool {
    match (read, wanted.as_slice().first()) {
        (Ok(statement), Some(first)) => statement.same(first),
        _ => false,
    }
}

/// Whether the text is read as this statement, the one of the list.
pub fn is_statement(alloc: Global, text: &[u8], wanted: &Statements) -> R<bool> {
    let schemas = two_tables(alloc)?;
    Ok(is_first(read_over(alloc, text, &schemas), wanted))
}

/// Whether the text is read.
pub fn is_read(alloc: Global, text: &[u8]) -> R<bool> {
    let schemas = two_tables(alloc)?;
    Ok(fault_of(read_over(alloc, text, &schemas)).is_none())
}
