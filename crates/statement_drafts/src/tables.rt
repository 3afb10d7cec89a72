ghost use Rattle.std.specs.Prelude.{◌≡◌, ◌<◌, ◌^◌, [], length, take};
ghost use Rattle.std.specs.Option.{option_map};
ghost use Rattle.std.specs.Option.{option_copied};
ghost use Rattle.statement_grammar.specs.Draft.{columns_of as the_columns, table_from};
ghost use Rattle.statement_reader.specs.Spots.{literals_of};
ghost use Rattle.statement_drafts.specs.Drafts.{schema_at};

use row_types::{Column, Schema, Schemas};
use statement_reader::Literals;

/// The number of the first table of a name.
#[tactic(auto, using(crate::proofs::TableLemmas::found_here, crate::proofs::TableLemmas::found_later))]
pub fn table_named(schemas: &Schemas, name: &[u8]) -> Option<u32>
    requires { length schemas.now.tables < 2 ^ 32 }
    ensures { result ≡ option_map (λ found. found.0) (table_from 0 schemas.now.tables name.now) }
{
    let mut rest = schemas.tables.as_slice();
    let mut number = 0u32;
    while let Some((schema, more)) = rest.split_first() {
        if schema.name.as_slice() == name {
            return Some(number);
        }
        number += 1;
        rest = more;
    }
    None
}

/// The schema of a statement's table, where it is named.
pub fn schema_of<'a>(table: Option<u32>, schemas: &'a Schemas) -> Option<&'a Schema>
    ensures { option_copied result ≡ schema_at schemas.now.tables table }
{
    match table {
        None => None,
        Some(number) => schemas.tables.as_slice().get(number as usize),
    }
}

fn front<'a>(columns: &'a [Column], count: usize) -> &'a [Column]
    ensures { result.now ≡ take count columns.now }
{
    if columns.len() <= count {
        return columns;
    }
    columns.split_at(count).0
}

/// The columns that a list of literals is for.
pub fn columns_of<'a>(of: Literals, schema: &'a Schema) -> &'a [Column]
    ensures { result.now ≡ the_columns (literals_of of) schema.now }
{
    let columns = schema.columns.as_slice();
    match of {
        Literals::OfRow => columns,
        Literals::OfEdge(_) => front(columns, schema.key_len as usize),
    }
}
