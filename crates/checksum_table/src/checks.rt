ghost use Rattle.std.specs.Prelude.{◌≡◌, ◌<◌, ◌^◌, ◌↔◌, [], length, IsTrue, IfOk, OnOk, OnErr};
ghost use Rattle.std.specs.Option.{option_copied, is_some};
ghost use Rattle.checksum_table.specs.Checks.{check_at, with_check, with_absent, with_master, without_table, last_chunk, verdict_of};

use crate::check_rows::{CheckEntry, CheckRow, Verdict};
use crate::places::{forget_table, last_chunk, place_of, put, put_absent, put_master};
use row_types::{Digest, Plain, R};
use std::alloc::Global;
use std::marker::Model;

/// The check rows of a node, by rising table and chunk, at most one for each chunk.
#[derive(Debug, Drop)]
pub struct Checks {
    items: Vec<CheckEntry>,
}

impl Model for Checks {
    ghost use Rattle.std.specs.Prelude.{List, ℕ};
    ghost use Rattle.checksum_table.specs.declared.check_rows.CheckEntry.{CheckEntry};
    ghost use Rattle.checksum_table.specs.Checks.{IsByPlace};

    ghost Value = { List CheckEntry };

    ghost view = { λ list. list.items.items };

    ghost invariant = { λ list. IsByPlace list.items.items };
}

impl Checks {
    /// An empty list.
    pub fn new(alloc: Global) -> Checks
        ensures { result ≡ [] }
    {
        Checks {
            items: Vec::new(alloc),
        }
    }

    pub fn as_slice(&self) -> &[CheckEntry]
        ensures { result.now ≡ self.now }
    {
        self.items.as_slice()
    }

    pub fn len(&self) -> usize
        ensures value { result ≡ length self.now }
        ensures bound { result < 2 ^ 63 }
    {
        self.items.len()
    }

    pub fn is_empty(&self) -> bool
        ensures { IsTrue result ↔ (self.now ≡ []) }
    {
        self.items.is_empty()
    }

    pub fn copy(&self, alloc: Global) -> R<Checks>
        ensures { IfOk result (λ copy. copy ≡ self.now) }
    {
        Ok(Checks {
            items: CheckEntry::copies(alloc, self.items.as_slice())?,
        })
    }

    pub fn same(&self, other: &Checks) -> bool
        ensures { IsTrue result ↔ (self.now ≡ other.now) }
    {
        CheckEntry::all_same(self.items.as_slice(), other.items.as_slice())
    }

    /// Pending without a row or without the source's checksum; Differ where its count or XOR is not
    /// the row's own; else Same (pt-table-checksum's manual, its query for differing chunks).
    pub fn verdict(row: Option<&CheckRow>) -> Verdict
        ensures { result ≡ verdict_of (option_copied row.entry) }
    {
        match row {
            None => Verdict::Pending,
            Some(row) => row.verdict(),
        }
    }

    /// The chunk's row, if there is one, found by binary search.
    pub fn get(&self, table: u32, chunk: u32) -> Option<&CheckRow>
        ensures { option_copied result ≡ check_at table chunk self.now }
    {
        let entries = self.items.as_slice();
        match place_of(entries, table, chunk) {
            Ok(index) => Some(&entries[index].row),
            Err(_) => None,
        }
    }

    /// Makes this the chunk's row, in place of an earlier one, as the tool's REPLACE does
    /// (pt-table-checksum's manual, the option --replicate); a refusal leaves the list as it was.
    pub fn set(&mut self, table: u32, chunk: u32, row: CheckRow) -> R<()>
        ensures ok { OnOk result (self.new ≡ with_check table chunk row self.old) }
        ensures err { OnErr result (self.new ≡ self.old) }
    {
        put(&mut self.items, CheckEntry { table, chunk, row })
    }

    /// Fills in the source's checksum of a chunk whose row stands (`master_cnt` and `master_crc` in
    /// pt-table-checksum's manual, the option --replicate), and says whether it does; else it changes
    /// nothing.
    pub fn set_master(&mut self, table: u32, chunk: u32, master: Digest) -> bool
        ensures value { self.new ≡ with_master table chunk master self.old }
        ensures found { result ≡ is_some (check_at table chunk self.old) }
    {
        put_master(&mut self.items, table, chunk, master)
    }

    /// Forgets the rows of a table alone, as the tool does before it checks one (pt-table-checksum's
    /// manual, the option --empty-replicate-table).
    pub fn clear(&mut self, table: u32)
        ensures { self.new ≡ without_table table self.old }
    {
        forget_table(&mut self.items, table);
    }

    /// The greatest chunk of a table that has a row, 0 where none has; found by binary search. For a
    /// checksum that goes on after the chunks that it has done.
    pub fn last_of(&self, table: u32) -> u32
        ensures { result ≡ last_chunk table self.now }
    {
        last_chunk(self.items.as_slice(), table)
    }

    /// Puts in the entry where its chunk has no row, else lets it go; a refusal leaves the list as it
    /// was.
    pub fn add_absent(&mut self, entry: CheckEntry) -> R<()>
        ensures ok { OnOk result (self.new ≡ with_absent entry self.old) }
        ensures err { OnErr result (self.new ≡ self.old) }
    {
        put_absent(&mut self.items, entry)
    }
}
