ghost use Rattle.std.specs.Prelude.{◌≡◌, ◌≤◌, ◌<◌, ◌^◌, suc, replicate, [], IfOk, OnOk};
ghost use Rattle.std.specs.List.{AllByRecursion};
ghost use Rattle.row_types.specs.Fit.{IsSchema, RowFits};
ghost use Rattle.row_types.specs.KeyRows.{HasKey};
ghost use Rattle.file_rows.specs.NodeRows.{rows_of, key_lens, rows_put, any_has, TakeRow};
ghost use Rattle.file_rows.specs.Holds.{IsOfKey};

use crate::node_rows::{has_row, with_row};
use line_words::NodeWord;
use ordered_table::Table;
use row_types::{R, Row, Schema, Value};
use std::alloc::Global;
use std::mem;

/// A table of the file.
#[derive(Drop)]
pub struct FileTable {
    pub schema: Schema,
    /// the rows of the source, and of each replica by its number
    pub nodes: Vec<Table>,
}

fn empty_tables(alloc: Global, key_len: u8, count: u32) -> R<Vec<Table>>
    requires least { 1 ≤ key_len }
    requires most { key_len ≤ 2 }
    ensures rows { IfOk result (λ tables. rows_of tables.items ≡ replicate count []) }
    ensures keys { IfOk result (λ tables. AllByRecursion (IsOfKey key_len) tables.items) }
{
    let mut tables = Vec::new(alloc);
    for node in 0..count {
        tables.push(Table::new(alloc, key_len))?;
    }
    Ok(tables)
}

impl FileTable {
    /// A table without rows, on the source and this number of replicas.
    pub fn new(alloc: Global, schema: Schema, replicas: u32) -> R<FileTable>
        requires schema { IsSchema schema }
        requires few { replicas < 2 ^ 31 }
        ensures schema { IfOk result (λ table. table.schema ≡ schema) }
        ensures rows { IfOk result (λ table. rows_of table.nodes.items ≡ replicate (suc replicas) []) }
        ensures keys { IfOk result (λ table. AllByRecursion (IsOfKey schema.key_len) table.nodes.items) }
    {
        let nodes = empty_tables(alloc, schema.key_len, replicas + 1)?;
        Ok(FileTable { schema, nodes })
    }

    /// Whether a node that the word names has a row at the key.
    pub fn has_row(&self, which: NodeWord, key: &[Value]) -> bool
        ensures { result ≡ any_has which key.now 0 self.now.nodes.items }
    {
        has_row(which, self.nodes.as_slice(), key)
    }

    /// Puts a row at each node that the word names.
    pub fn put(&mut self, alloc: Global, which: NodeWord, row: &Row) -> R<()>
        requires { TakeRow row.now self.old.nodes.items }
        ensures schema { OnOk result (self.new.schema ≡ self.old.schema) }
        ensures rows { OnOk result (rows_of self.new.nodes.items ≡ rows_put which row.now 0 self.old.nodes.items) }
        ensures keys { OnOk result (key_lens self.new.nodes.items ≡ key_lens self.old.nodes.items) }
    {
        let nodes = mem::replace(&mut self.nodes, Vec::new(alloc));
        self.nodes = with_row(alloc, which, nodes, row)?;
        Ok(())
    }
}
