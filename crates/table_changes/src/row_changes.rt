ghost use Rattle.std.specs.Prelude.{◌≡◌, [], ◌∷◌, ◌++◌, None, OnOk, OnErr};
ghost use Rattle.std.specs.Option.{option_to_list};

use row_types::{Key, R, Row};
use std::alloc::Global;
use std::marker::Model;

/// What is done to one row of a table.
#[derive(Debug, Drop)]
pub enum RowChange {
    /// The row of this key goes.
    Gone(Key),
    /// This row is put at its key, in place of one that is there.
    Put(Row),
}

/// Changes of rows, of which the last is done first: rows that go from the end of a table go without
/// moving the others.
#[derive(Debug, Drop)]
pub struct RowChanges {
    pub items: Vec<RowChange>,
}

impl Model for RowChanges {
    ghost use Rattle.std.specs.Prelude.{List};
    ghost use Rattle.table_changes.specs.declared.row_changes.RowChange.{RowChange as OneChange};

    ghost Value = { List OneChange };

    ghost view = { λ list. list.items.items };
}

impl RowChanges {
    /// No changes.
    pub fn new(alloc: Global) -> RowChanges
        ensures { result ≡ [] }
    {
        RowChanges {
            items: Vec::new(alloc),
        }
    }

    /// Puts a change at the end; a refusal leaves the list as it was.
    pub fn push(&mut self, item: RowChange) -> R<()>
        ensures ok { OnOk result (self.new ≡ self.old ++ item ∷ []) }
        ensures err { OnErr result (self.new ≡ self.old) }
    {
        self.items.push(item)?;
        Ok(())
    }

    /// Takes the last change away and hands it over, if there is one.
    pub fn pop(&mut self) -> Option<RowChange>
        ensures items { self.old ≡ self.new ++ option_to_list result }
        ensures none { result ≡ None → self.old ≡ [] }
    {
        self.items.pop()
    }
}
