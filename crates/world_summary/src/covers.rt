//! Whether the chunks of a table that have the source's checksum hold each key.
ghost use Rattle.std.specs.Prelude.{◌≡◌, ◌<◌, ◌^◌, ◌==◌, ◌&&◌, is_some, length};
ghost use Rattle.world_model.specs.Summary.{covers_all as are_covered};
ghost use Rattle.world_model.specs.Verdicts.{goes_on, covers as is_covered};

use checksum_table::CheckEntry;
use row_types::{Edge, Span};

/// Whether a chunk begins where the one before ended, and is not empty.
fn goes_on(reached: &Edge, span: &Span) -> bool
    ensures { result ≡ goes_on reached.now span.now }
{
    span.lo.compare(reached).is_eq() && span.lo.compare(&span.hi).is_lt()
}

/// Whether a check row is of this table and has the source's checksum.
fn is_checked(entry: &CheckEntry, table: u32) -> bool
    ensures { result ≡ ((entry.now.table == table) && is_some entry.now.row.master) }
{
    entry.table == table && entry.row.master.is_some()
}

/// Whether a check row is the one of this chunk, which goes on from this edge.
fn is_next(entry: &CheckEntry, chunk: u64, reached: &Edge) -> bool
    ensures { result ≡ ((entry.now.chunk == chunk) && goes_on reached.now entry.now.row.span) }
{
    u64::from(entry.chunk) == chunk && goes_on(reached, &entry.row.span)
}

/// Whether the chunks of a table that have the source's checksum go from Low to High, each behind the one before.
fn covers(checks: &[CheckEntry], table: u32) -> bool
    ensures { result ≡ is_covered checks.now table }
{
    let (low, high) = (Edge::Low, Edge::High);
    let (mut rest, mut chunk, mut reached) = (checks, 1u64, &low);
    while let Some((entry, more)) = rest.split_first() {
        if is_checked(entry, table) {
            if !is_next(entry, chunk, reached) {
                return false;
            }
            chunk += 1;
            reached = &entry.row.span.hi;
        }
        rest = more;
    }
    reached.compare(&high).is_eq()
}

/// Whether check rows cover each of so many tables.
pub fn covers_all(checks: &[CheckEntry], count: u32) -> bool
    ensures { result ≡ are_covered checks.now count }
{
    let mut left = count;
    while left > 0 {
        left -= 1;
        if !covers(checks, left) {
            return false;
        }
    }
    true
}
