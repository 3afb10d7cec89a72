//! The rows that a node's history leaves, and which tables of a replica have the source's.
ghost use Rattle.std.specs.Prelude.{◌≡◌, ◌<◌, ◌^◌, ◌++◌, length, IfOk, OnOk};
ghost use Rattle.world_model.specs.Summary.{replayed_of};
ghost use Rattle.world_model.specs.Verdicts.{rows_equal as have_same_rows, equals_on};

use node_engine::Node;
use report_text::{EqualLine, EqualLines};
use row_types::{R, Rows, Tables};
use std::alloc::Global;

/// The rows of each table of a node that its history leaves.
pub fn final_tables(alloc: Global, node: &Node) -> R<Tables>
    requires { length node.now.schemas < 2 ^ 31 }
    ensures rows { IfOk result (λ tables. tables ≡ (replayed_of node.now).tables) }
    ensures few { IfOk result (λ tables. length tables < 2 ^ 31) }
{
    node.keeps_laws();
    let count = node.schemas().tables.len() as u32;
    let mut tables = Tables::new(alloc);
    for number in 0..count {
        tables.push(node.committed(alloc, number)?)?;
    }
    Ok(tables)
}

/// Whether two tables have the same rows.
fn rows_equal(rows: &Rows, others: &Rows) -> bool
    ensures { result ≡ have_same_rows rows.now others.now }
{
    rows.same(others)
}

/// Appends, table by table, whether a replica's rows are the source's.
pub fn add_equals(lines: &mut EqualLines, replica: u32, source: &[Rows], own: &[Rows]) -> R<()>
    requires { length source.now < 2 ^ 31 }
    ensures { OnOk result (lines.new ≡ lines.old ++ equals_on replica 0 source.now own.now) }
{
    for (table, rows) in source.iter().enumerate() {
        let Some(others) = own.get(table) else {
            return Ok(());
        };
        let equal = rows_equal(rows, others);
        lines.push(EqualLine {
            replica,
            table: table as u32,
            equal,
        })?;
    }
    Ok(())
}
