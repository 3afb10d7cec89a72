use report_text::{
    DuplicateLines, EqualLines, Histories, NodeTables, Summary, VerdictLines, report,
};
use row_types::{ColumnKind, Columns, Edge, R, Schemas, Span};
use statement_log::Entries;
use std::alloc::Global;
use test_builders::{column, key_of_two, schema, schemas};

/// `t` with a key of two columns, and columns that take NULL and that don't.
fn four_columns(alloc: Global) -> R<Schemas> {
    let mut columns = Columns::new(alloc);
    columns.push(column(alloc, b"a", ColumnKind::BigInt, false)?)?;
    columns.push(column(alloc, b"b", ColumnKind::Text { max: 4 }, false)?)?;
    columns.push(column(alloc, b"v", ColumnKind::Int, false)?)?;
    columns.push(column(alloc, b"w", ColumnKind::Int, true)?)?;
    Ok(Schemas {
        tables: schemas(alloc, schema(alloc, b"t", columns, 2)?)?,
    })
}

/// A report of one table and of nothing else.
pub fn empty_summary(alloc: Global) -> R<Summary> {
    Ok(Summary {
        schemas: four_columns(alloc)?,
        start: NodeTables::new(alloc),
        log: Entries::new(alloc),
        histories: Histories::new(alloc),
        verdicts: VerdictLines::new(alloc),
        finals: NodeTables::new(alloc),
        equal: EqualLines::new(alloc),
        duplicates: DuplicateLines::new(alloc),
        status: 0,
    })
}

/// Up to after the key 1, a'b.
pub fn some_span(alloc: Global) -> R<Span> {
    Ok(Span {
        lo: Edge::Low,
        hi: Edge::After(key_of_two(alloc, 1, b"a'b")?),
    })
}

const HEAD: &[u8] =
    b"PTC REPORT 1\nTABLE t (a BIGINT KEY, b VARCHAR(4) KEY, v INT NOT NULL, w INT)\n";

/// Whether the report has just these lines after its first two.
pub fn has_lines(alloc: Global, summary: &Summary, lines: &[u8]) -> R<bool> {
    let text = report(alloc, summary)?;
    let text = text.as_slice();
    let is_split = text.len().checked_sub(lines.len()) == Some(HEAD.len());
    Ok(is_split && text.starts_with(HEAD) && text.ends_with(lines))
}
