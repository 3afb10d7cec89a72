ghost use Rattle.std.specs.Prelude.{◌≡◌, length, is_some, option_copied, slice_get, map, IfOk, OnOk, OnErr};
ghost use Rattle.std.specs.List.{AllByRecursion};
ghost use Rattle.row_types.specs.Fit.{IsSchema, AreTables};
ghost use Rattle.row_types.specs.KeyRows.{rows_in};
ghost use Rattle.ptc_statement.specs.Effect.{rows_after};
ghost use Rattle.ptc_statement.specs.Fits.{FitsSchemas, StatementFits};
ghost use Rattle.row_digest.specs.Encoding.{IsEncodable};
ghost use Rattle.row_digest.specs.Digest.{digest_of, no_rows};
ghost use Rattle.table_changes.specs.Plans.{IsSound};
ghost use Rattle.history.specs.Replay.{chunk_rows, tables_after};
ghost use Rattle.cluster_core.specs.LiveTables.{row_in, rows_of_each};
ghost use Rattle.cluster_core.specs.LiveParts.{AreSound, without_spare};

use ordered_table::Table;
use ptc_statement::Statement;
use row_digest::add_with;
use row_types::{Digest, DigestKind, R, Row, Schema, SchemaList, Schemas, Span, Tables};
use std::alloc::Global;
use std::marker::Model;
use table_changes::{perform, planned};

/// The tables of a node as they are now, one for each schema. They are seen as the schemas and the
/// rows of each table.
#[derive(Drop)]
pub struct LiveTables {
    schemas: Schemas,
    tables: Vec<Table>,
}

impl Model for LiveTables {
    ghost use Rattle.cluster_core.specs.LiveTables.{LiveView};

    ghost Value = { LiveView };

    ghost use Rattle.cluster_core.specs.LiveParts.{live_view, EachIsSound};

    ghost view = { live_view };

    ghost invariant = { EachIsSound };
}

impl LiveTables {
    /// Tables of copies of these rows, one for each schema.
    pub fn new(alloc: Global, schemas: Schemas, start: &Tables) -> R<LiveTables>
        requires schemas { AllByRecursion IsSchema schemas.tables }
        requires start { AreTables schemas.tables start.now }
        ensures { IfOk result (λ live. live ≡ record { schemas = schemas.tables; tables = start.now }) }
    {
        let tables = tables_of(alloc, &schemas.tables, start)?;
        Ok(LiveTables { schemas, tables })
    }

    pub fn copy(&self, alloc: Global) -> R<LiveTables>
        ensures { IfOk result (λ copy. copy ≡ self.now) }
    {
        Ok(LiveTables {
            schemas: self.schemas.copy(alloc)?,
            tables: table_copies(alloc, self.tables.as_slice())?,
        })
    }

    pub fn schemas(&self) -> &Schemas
        ensures { result.now.tables ≡ self.now.schemas }
    {
        &self.schemas
    }

    /// The tables, in the order of their schemas.
    pub fn as_slice(&self) -> &[Table]
        ensures rows { rows_of_each result.now ≡ self.now.tables }
        ensures len { length result.now ≡ length self.now.schemas }
    {
        self.tables.as_slice()
    }

    /// Copies of the rows of each table.
    pub fn rows(&self, alloc: Global) -> R<Tables>
        ensures { IfOk result (λ rows. rows ≡ self.now.tables) }
    {
        let rows = row_copies(alloc, self.tables.as_slice())?;
        Ok(rows)
    }

    /// The schemas, and the rows of each table, none of them copied.
    pub fn into_rows(self, alloc: Global) -> R<(Schemas, Tables)>
        ensures schemas { IfOk result (λ parts. parts.0.tables ≡ self.schemas) }
        ensures rows { IfOk result (λ parts. parts.1 ≡ self.tables) }
    {
        let LiveTables { schemas, tables } = self;
        let rows = rows_out(alloc, tables)?;
        Ok((schemas, rows))
    }

    /// Whether a table has a row at the key of this one; a table that isn't there has none.
    pub fn has_row(&self, table: u32, row: &Row) -> bool
        ensures { result ≡ is_some (row_in self.now.schemas self.now.tables table row.now) }
    {
        let Some(schema) = self.schemas.tables.get(table) else {
            return false;
        };
        match table_at(self.tables.as_slice(), table) {
            None => false,
            Some(live) => live.get_at(schema.key_values(row)).is_some(),
        }
    }

    /// The checksum of a table's rows in a span; a table that isn't there has no rows.
    pub fn digest(&self, alloc: Global, kind: DigestKind, table: u32, span: &Span) -> R<Digest>
        ensures { IfOk result (λ digest. digest ≡ digest_of kind (chunk_rows self.now.schemas self.now.tables table span.now)) }
    {
        match table_at(self.tables.as_slice(), table) {
            None => Ok(empty_digest()),
            Some(live) => digest_rows(alloc, kind, live, span),
        }
    }

    /// Does a statement to its table; a refusal leaves the rows as they were.
    pub fn change(&mut self, alloc: Global, statement: &Statement) -> R<()>
        requires { FitsSchemas self.old.schemas statement.now }
        ensures ok { OnOk result (self.new ≡ record self.old { tables = tables_after self.old.schemas statement.now self.old.tables }) }
        ensures err { OnErr result (self.new ≡ self.old) }
    {
        let table = statement.table();
        let Some(schema) = self.schemas.tables.get(table) else {
            unreachable!()
        };
        change_table(alloc, statement, schema, &mut self.tables[table as usize])
    }
}

/// The table of this number, if there is one.
fn table_at(tables: &[Table], table: u32) -> Option<&Table>
    ensures { option_copied result ≡ slice_get tables.now table }
{
    tables.get(table as usize)
}

/// A table for each schema, of copies of these rows.
fn tables_of(alloc: Global, schemas: &SchemaList, start: &Tables) -> R<Vec<Table>>
    requires schemas { AllByRecursion IsSchema schemas.now }
    requires start { AreTables schemas.now start.now }
    ensures rows { IfOk result (λ tables. rows_of_each tables.items ≡ start.now) }
    ensures sound { IfOk result (λ tables. AreSound schemas.now tables.items) }
{
    let (schemas, start) = (schemas.as_slice(), start.as_slice());
    let mut tables = Vec::with_capacity(alloc, schemas.len())?;
    for place in 0..schemas.len() {
        let rows = start[place].as_slice();
        tables.push(Table::from_rows(alloc, schemas[place].key_len, rows)?)?;
    }
    Ok(tables)
}

/// Copies of tables, in which no rows are spare.
fn table_copies(alloc: Global, tables: &[Table]) -> R<Vec<Table>>
    ensures { IfOk result (λ copies. copies.items ≡ map without_spare tables.now) }
{
    let mut copies = Vec::with_capacity(alloc, tables.len())?;
    for table in tables {
        copies.push(table.copy(alloc)?)?;
    }
    Ok(copies)
}

/// Copies of the rows of each of these tables.
fn row_copies(alloc: Global, tables: &[Table]) -> R<Tables>
    ensures { IfOk result (λ rows. rows ≡ rows_of_each tables.now) }
{
    let mut rows = Tables::new(alloc);
    for table in tables {
        let copy = table.copy(alloc)?;
        rows.push(copy.into_rows(alloc)?)?;
    }
    Ok(rows)
}

/// The rows of each of these tables, which are taken from the front.
fn rows_out(alloc: Global, mut tables: Vec<Table>) -> R<Tables>
    ensures { IfOk result (λ rows. rows ≡ rows_of_each tables.items) }
{
    let mut rows = Tables::new(alloc);
    while !tables.is_empty() {
        let table = tables.remove(0);
        rows.push(table.into_rows(alloc)?)?;
    }
    Ok(rows)
}

/// Does a statement to a table of its schema; a refusal leaves the rows as they were.
fn change_table(alloc: Global, statement: &Statement, schema: &Schema, table: &mut Table) -> R<()>
    requires statement { StatementFits schema.now statement.now }
    requires sound { IsSound schema.now table.old.key_len table.old.rows }
    ensures ok { OnOk result (table.new.rows ≡ rows_after schema.now statement.now table.old.rows) }
    ensures err { OnErr result (table.new.rows ≡ table.old.rows) }
    ensures sound { IsSound schema.now table.new.key_len table.new.rows }
{
    let change = planned(alloc, statement, schema, table)?;
    table.reserve(change.room)?;
    perform(table, change);
    Ok(())
}

/// The checksum of no rows.
fn empty_digest() -> Digest
    ensures { result ≡ no_rows }
{
    Digest {
        count: 0,
        xor: [0; 20],
    }
}

/// The checksum of a table's rows in a span.
fn digest_rows(alloc: Global, kind: DigestKind, table: &Table, span: &Span) -> R<Digest>
    requires { AllByRecursion IsEncodable table.now.rows }
    ensures { IfOk result (λ digest. digest ≡ digest_of kind (rows_in table.now.key_len span.now table.now.rows)) }
{
    let mut buffer = Vec::new(alloc);
    let mut digest = empty_digest();
    let mut ahead = table.each(span);
    let countable = ahead.len() < usize::MAX;
    prove!(countable);
    while let Some(row) = ahead.next_row() {
        add_with(&mut buffer, &mut digest, kind, row)?;
    }
    Ok(digest)
}
