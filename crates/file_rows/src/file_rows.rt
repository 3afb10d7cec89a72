ghost use Rattle.std.specs.Prelude.{◌≡◌, ◌<◌, ◌++◌, ◌∷◌, [], ℕ, None, Some, length, slice_get, option_copied, IfOk, OnOk, MatchOption};
ghost use Rattle.row_types.specs.Fit.{IsSchema};
ghost use Rattle.file_rows.specs.Holds.{schemas_in, HoldsRows};
ghost use Rattle.file_rows.specs.NodeRows.{TakeRow};
ghost use Rattle.file_rows.specs.Puts.{place_named, IsPutAt, TakesAt};

use crate::file_tables::FileTable;
use line_words::NodeWord;
use row_types::{R, Row};
use std::alloc::Global;

/// The tables of the lines so far, in order.
#[derive(Drop)]
pub struct FileRows {
    pub tables: Vec<FileTable>,
}

impl FileRows {
    /// Of no lines.
    #[tactic(auto, using(crate::proofs::HoldLemmas::none_held))]
    pub fn new(alloc: Global) -> FileRows
        ensures { HoldsRows result.tables.items [] }
    {
        FileRows {
            tables: Vec::new(alloc),
        }
    }

    /// The number of the first table of this name, from 0.
    pub fn place_of(&self, name: &[u8]) -> Option<usize>
        ensures { result ≡ place_named name.now 0 self.now.tables.items }
    {
        for place in 0..self.tables.len() {
            if self.tables[place].schema.name.as_slice() == name {
                return Some(place);
            }
        }
        None
    }

    /// Adds a table.
    pub fn begin(&mut self, table: FileTable) -> R<()>
        ensures { OnOk result (self.new.tables.items ≡ self.old.tables.items ++ table ∷ []) }
    {
        self.tables.push(table)?;
        Ok(())
    }

    /// Puts a row into the table of this number, at each node that the word names.
    pub fn put(&mut self, alloc: Global, place: usize, which: NodeWord, row: &Row) -> R<()>
        requires { TakesAt place row.now self.old.tables.items }
        ensures { OnOk result (IsPutAt place which row.now self.old.tables.items self.new.tables.items) }
    {
        self.tables[place].put(alloc, which, row)
    }
}
