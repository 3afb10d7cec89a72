ghost use Rattle.std.specs.Prelude.{◌≡◌, is_some, option_copied, slice_get};
ghost use Rattle.node_parts.specs.Kept.{node_view, PartsKept};
ghost use Rattle.node_parts.specs.KeptReads.{ReadsKept};
ghost use Rattle.node_parts.specs.ReadRows.{read_rows_of};
ghost use Rattle.node_parts.specs.Views.{walk_of, IsLiveTable};

use crate::parts::Parts;
use lock_table::Owner;
use node_reads::read_in;
use ordered_table::Table;
use row_types::Row;

/// The live table of this number: its row at each key is the live row.
pub fn live_in(parts: &Parts, number: u32) -> Option<&Table>
    requires { PartsKept parts.now }
    ensures { IsLiveTable (node_view parts.now) number (option_copied result) }
{
    match parts.schemas.tables.get(number) {
        None => None,
        Some(_) => table_at(parts, number),
    }
}

/// The live table of this number.
pub fn table_at(parts: &Parts, number: u32) -> Option<&Table>
    ensures { option_copied result ≡ slice_get parts.now.tables.items number }
{
    parts.tables.get(number as usize)
}

/// Whether an owner has a statement in progress.
pub fn is_under_way(parts: &Parts, owner: Owner) -> bool
    ensures { result ≡ is_some (walk_of owner.0 parts.now.txns) }
{
    match parts.txns.get(owner) {
        None => false,
        Some(txn) => txn.current.is_some(),
    }
}

/// The rows that the last locking read took that is done in an owner's transaction.
pub fn read_rows_in(parts: &Parts, owner: Owner) -> &[Row]
    requires { ReadsKept parts.now }
    ensures { result.now ≡ read_rows_of owner.0 (node_view parts.now) }
{
    match read_in(parts.reads.as_slice(), owner) {
        None => &[],
        Some(reading) => reading.rows.as_slice(),
    }
}
