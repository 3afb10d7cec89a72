ghost use Rattle.std.specs.Prelude.{◌≡◌, ◌&&◌, is_some, map, IfOk, OnOk};
ghost use Rattle.std.specs.List.{AllByRecursion};
ghost use Rattle.row_types.specs.KeyRows.{HasKey, put_row, row_at};
ghost use Rattle.ordered_table.specs.TableView.{TableView};
ghost use Rattle.file_rows.specs.NodeRows.{is_for_word, row_put, rows_put, rows_of, key_lens, has_at, any_has, TakeRow};

use line_words::NodeWord;
use ordered_table::Table;
use row_types::{R, Row, Value};
use std::alloc::Global;

/// Whether the word names the node of this number, 0 the source.
fn is_for(which: NodeWord, node: u64) -> bool
    ensures { result ≡ is_for_word which node }
{
    match which {
        NodeWord::All => true,
        NodeWord::Source => node == 0,
        NodeWord::Replica(replica) => replica >= 1 && node as u128 == replica,
    }
}

fn put_one(mut table: Table, row: Row) -> R<Table>
    requires { HasKey table.key_len row }
    ensures rows { IfOk result (λ new. new.rows ≡ put_row table.key_len row table.rows) }
    ensures key { IfOk result (λ new. new.key_len ≡ table.key_len) }
{
    match table.put(row) {
        Ok(_) => Ok(table),
        Err((_, memory)) => Err(memory),
    }
}

fn put_if(alloc: Global, named: bool, table: Table, row: &Row) -> R<Table>
    requires { HasKey table.key_len row.now }
    ensures rows { IfOk result (λ new. new.rows ≡ row_put named row.now table) }
    ensures key { IfOk result (λ new. new.key_len ≡ table.key_len) }
{
    if named {
        put_one(table, row.copy(alloc)?)
    } else {
        Ok(table)
    }
}

/// The tables of the nodes, by number, with a row at each that the word names.
pub(crate) fn with_row(
    alloc: Global,
    which: NodeWord,
    mut nodes: Vec<Table>,
    row: &Row,
) -> R<Vec<Table>>
    requires { TakeRow row.now nodes.items }
    ensures rows { IfOk result (λ new. rows_of new.items ≡ rows_put which row.now 0 nodes.items) }
    ensures keys { IfOk result (λ new. key_lens new.items ≡ key_lens nodes.items) }
{
    let mut done = Vec::with_capacity(alloc, nodes.len())?;
    'nodes: while !nodes.is_empty() {
        let named = is_for(which, done.len() as u64);
        let table = put_if(alloc, named, nodes.remove(0), row)?;
        done.push(table)?;
    }
    Ok(done)
}

fn is_there(named: bool, table: &Table, key: &[Value]) -> bool
    ensures { result ≡ named && has_at key.now table.now }
{
    named && table.get_at(key).is_some()
}

/// Whether a node that the word names has a row at the key.
pub(crate) fn has_row(which: NodeWord, nodes: &[Table], key: &[Value]) -> bool
    ensures { result ≡ any_has which key.now 0 nodes.now }
{
    for node in 0..nodes.len() {
        if is_there(is_for(which, node as u64), &nodes[node], key) {
            return true;
        }
    }
    false
}
