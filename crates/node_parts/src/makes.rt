ghost use Rattle.std.specs.Prelude.{◌≡◌, IfOk};
ghost use Rattle.std.specs.List.{AllByRecursion};
ghost use Rattle.row_types.specs.Fit.{IsSchema, IsTable, AreTables};
ghost use Rattle.node_model.specs.Calls.{fresh_node};
ghost use Rattle.node_parts.specs.Kept.{node_view, PartsKept};
ghost use Rattle.node_parts.specs.KeptReads.{ReadsKept};
ghost use Rattle.node_parts.specs.Fresh.{fresh_tables};

use crate::notes::Notes;
use crate::parts::Parts;
use checksum_table::Checks;
use lock_table::LockTable;
use node_model::Txns;
use ordered_table::Table;
use row_types::{R, Rows, Schema, Schemas, Tables};
use statement_log::Log;
use std::alloc::Global;

/// What a node keeps at first, without a history and without transactions.
pub fn fresh_parts(alloc: Global, schemas: Schemas, start: Tables) -> R<Parts>
    requires schemas { AllByRecursion IsSchema schemas.tables }
    requires start { AreTables schemas.tables start }
    ensures view { IfOk result (λ parts. node_view parts ≡ fresh_node schemas.tables start) }
    ensures kept { IfOk result (λ parts. PartsKept parts) }
    ensures reads { IfOk result (λ parts. ReadsKept parts) }
{
    let tables = fresh_tables(alloc, schemas.tables.as_slice(), start.as_slice())?;
    Ok(Parts {
        schemas,
        start,
        history: Log::new(alloc),
        checks: Checks::new(alloc),
        applied: 0,
        tables,
        txns: Txns::new(alloc),
        locks: LockTable::new(alloc),
        notes: Notes::new(alloc),
        reads: Vec::new(alloc),
    })
}

/// A table for each schema, of copies of these rows.
fn fresh_tables(alloc: Global, schemas: &[Schema], start: &[Rows]) -> R<Vec<Table>>
    requires schemas { AllByRecursion IsSchema schemas.now }
    requires start { AreTables schemas.now start.now }
    ensures { IfOk result (λ tables. tables.items ≡ fresh_tables schemas.now start.now) }
{
    let mut tables = Vec::new(alloc);
    let (mut schemas, mut start) = (schemas, start);
    while let Some((schema, more)) = schemas.split_first() {
        let Some((rows, more_rows)) = start.split_first() else {
            unreachable!()
        };
        tables.push(fresh_table(alloc, schema, rows)?)?;
        schemas = more;
        start = more_rows;
    }
    Ok(tables)
}

/// A table of copies of these rows.
fn fresh_table(alloc: Global, schema: &Schema, rows: &Rows) -> R<Table>
    requires schema { IsSchema schema.now }
    requires rows { IsTable schema.now rows.now }
    ensures { IfOk result (λ table. table ≡ record { key_len = schema.now.key_len; rows = rows.now; spare = 0 }) }
{
    Table::from_rows(alloc, schema.key_len, rows.as_slice())
}
