ghost use Rattle.std.specs.Prelude.{◌≡◌};
ghost use Rattle.statement_reads.specs.Reads.{are_countable as all_countable, columns_fit as all_fit};

use row_types::{Schema, Schemas};

fn columns_fit(schemas: &[Schema]) -> bool
    ensures { result ≡ all_fit schemas.now }
{
    let mut rest = schemas;
    while let Some((schema, more)) = rest.split_first() {
        if schema.columns.len() >= 4294967296 {
            return false;
        }
        rest = more;
    }
    true
}

/// Whether the tables, and the columns of each, can be counted in 32 bits, as `read` asks.
pub fn are_countable(schemas: &Schemas) -> bool
    ensures { result ≡ all_countable schemas.now.tables }
{
    schemas.tables.len() < 4294967296 && columns_fit(schemas.tables.as_slice())
}
