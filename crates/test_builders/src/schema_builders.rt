ghost use Rattle.std.specs.Prelude.{◌≡◌, [], ◌∷◌, codes, IfOk};
ghost use Rattle.row_types.specs.declared.table_schema.Column.{Column};
ghost use Rattle.row_types.specs.declared.table_schema.Schema.{Schema};
ghost use Rattle.test_builders.specs.Builders.{pair_columns};

use crate::row_builders::text;
use row_types::{Column, ColumnKind, Columns, R, Schema, SchemaList};
use std::alloc::Global;

pub fn column(alloc: Global, name: &[u8], kind: ColumnKind, nullable: bool) -> R<Column>
    ensures { IfOk result (λ column. column ≡ record { name = name.now; kind = kind; nullable = nullable }) }
{
    Ok(Column {
        name: text(alloc, name)?,
        kind,
        nullable,
    })
}

/// The columns `id BIGINT KEY, v BIGINT`, the second of which takes NULL.
pub fn pair_columns(alloc: Global) -> R<Columns>
    ensures { IfOk result (λ columns. columns ≡ pair_columns (codes "id") (codes "v")) }
{
    let mut columns = Columns::new(alloc);
    columns.push(column(alloc, b"id", ColumnKind::BigInt, false)?)?;
    columns.push(column(alloc, b"v", ColumnKind::BigInt, true)?)?;
    Ok(columns)
}

/// A table's form; its key is its first `key_len` columns.
pub fn schema(alloc: Global, name: &[u8], columns: Columns, key_len: u8) -> R<Schema>
    ensures { IfOk result (λ schema. schema ≡ record { name = name.now; columns = columns; key_len = key_len }) }
{
    Ok(Schema {
        name: text(alloc, name)?,
        columns,
        key_len,
    })
}

/// The table `NAME (id BIGINT KEY, v BIGINT)`.
pub fn pair_schema(alloc: Global, name: &[u8]) -> R<Schema>
    ensures { IfOk result (λ schema. schema ≡
        record { name = name.now; columns = pair_columns (codes "id") (codes "v"); key_len = 1 }) }
{
    let columns = pair_columns(alloc)?;
    schema(alloc, name, columns, 1)
}

/// The schemas of one table.
pub fn schemas(alloc: Global, schema: Schema) -> R<SchemaList>
    ensures { IfOk result (λ schemas. schemas ≡ schema ∷ []) }
{
    let mut schemas = SchemaList::new(alloc);
    schemas.push(schema)?;
    Ok(schemas)
}
