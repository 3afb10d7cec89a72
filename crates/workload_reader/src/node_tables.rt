ghost use Rattle.std.specs.Prelude.{◌≡◌, ◌++◌, ◌∷◌, [], replicate, IfOk};
ghost use Rattle.file_rows.specs.NodeRows.{rows_of};
ghost use Rattle.workload_reader.specs.Nodes.{with_table as all_with_table, with_tables, tables_by_node};

use file_rows::FileTable;
use ordered_table::Table;
use row_types::{R, Tables};
use std::alloc::Global;
use workload::Copies;

fn empty_nodes(alloc: Global, count: u32) -> R<Copies>
    ensures { IfOk result (λ nodes. nodes ≡ replicate count []) }
{
    let mut nodes = Copies::new(alloc);
    for node in 0..count {
        nodes.push(Tables::new(alloc))?;
    }
    Ok(nodes)
}

/// A node's tables, with the rows of this one behind them.
fn with_rows(alloc: Global, node: Tables, table: Table) -> R<Tables>
    ensures { IfOk result (λ with. with ≡ node ++ table.rows ∷ []) }
{
    let mut node = node;
    node.push(table.into_rows(alloc)?)?;
    Ok(node)
}

/// The nodes, each with its rows of this table.
#[tactic(auto, using(crate::proofs::NodeLemmas::nodes_out, crate::proofs::NodeLemmas::tables_out))]
fn with_table(alloc: Global, nodes: Copies, tables: Vec<Table>) -> R<Copies>
    ensures { IfOk result (λ with. with ≡ all_with_table nodes (rows_of tables.items)) }
{
    let mut with = Copies::new(alloc);
    let mut nodes = nodes.items;
    let mut tables = tables;
    'nodes: while nodes.len() > 0 {
        if tables.len() == 0 {
            return Ok(with);
        }
        with.push(with_rows(alloc, nodes.remove(0), tables.remove(0))?)?;
    }
    Ok(with)
}

/// The rows of each table, node by node, where each table has this number of nodes.
pub(crate) fn node_tables(alloc: Global, count: u32, tables: Vec<FileTable>) -> R<Copies>
    ensures { IfOk result (λ nodes. nodes ≡ with_tables (replicate count []) (tables_by_node tables.items)) }
{
    let mut nodes = empty_nodes(alloc, count)?;
    let mut left = tables;
    'tables: while left.len() > 0 {
        nodes = with_table(alloc, nodes, left.remove(0).nodes)?;
    }
    Ok(nodes)
}
