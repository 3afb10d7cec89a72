ghost use Rattle.std.specs.Prelude.{ℕ, ◌≡◌, ◌≤◌, ◌<◌, ◌+◌, ◌-◌, ◌^◌, ◌↔◌, [], length, take, option_copied, is_some, if◌then◌else◌, None, IsTrue, IfOk, IfErr, OnOk, OnErr};
ghost use Rattle.std.specs.List.{AllByRecursion, sum};
ghost use Rattle.row_types.specs.KeyRows.{HasKey, AreOrdered, row_at, put_row, without_key, rows_in, rows_past, row_past, least_past, nth_past, greatest_before};
ghost use Rattle.ordered_table.specs.TableView.{TableView};
ghost use Rattle.ordered_table.specs.Pages.{NeighboursExceed};
ghost use Rattle.ordered_table.specs.Room.{HasRoom};

use crate::edge_search::{all_rows, row_before, rows_between, rows_from};
use crate::key_places::{put_into, row_of, take_from};
use crate::page_lengths::lengths_of;
use crate::places::{has_no_null, key_of, key_values};
use crate::rows_ahead::RowsAhead;
use crate::store::Store;
use row_types::{Edge, Key, Memory, R, Row, Rows, Span, Value};
use std::alloc::Global;
use std::marker::Model;

/// How many rows a table may have, the spare ones among them: twice as many still fit into 64 bits, with
/// what `has_room` adds.
const MOST_ROWS: u64 = 4_611_686_018_427_387_904;

/// A table: its rows by rising key, each key there once. Their keys are their first one or two values.
/// A number of further rows, spare, can be put back without memory.
#[derive(Debug, Drop)]
pub struct Table {
    store: Store,
    key_len: u8,
    count: u64,
    spare: u64,
}

impl Model for Table {
    ghost use Rattle.ordered_table.specs.TableView.{TableView};

    ghost Value = { TableView };

    ghost use Rattle.ordered_table.specs.TableParts.{table_view, IsKept};

    ghost view = { table_view };

    ghost invariant = { IsKept };
}

impl Table {
    /// A table without rows, whose keys are the first `key_len` values of its rows: one or two.
    pub fn new(alloc: Global, key_len: u8) -> Table
        requires least { 1 ≤ key_len }
        requires most { key_len ≤ 2 }
        ensures { result ≡ record { key_len = key_len; rows = []; spare = 0 } }
    {
        Table {
            store: Store::new(alloc),
            key_len,
            count: 0,
            spare: 0,
        }
    }

    /// All rows by rising key, in one list, which alone takes memory: no row is copied.
    pub fn into_rows(self, alloc: Global) -> R<Rows>
        ensures { IfOk result (λ rows. rows ≡ self.rows) }
    {
        let count = self.count as usize;
        let rows = self.store.into_rows(alloc, count)?;
        Ok(rows)
    }

    /// A table of copies of these rows, which rise by key; no rows are spare.
    pub fn from_rows(alloc: Global, key_len: u8, rows: &[Row]) -> R<Table>
        requires least { 1 ≤ key_len }
        requires most { key_len ≤ 2 }
        requires ordered { AreOrdered key_len rows.now }
        ensures { IfOk result (λ table. table ≡ record { key_len = key_len; rows = rows.now; spare = 0 }) }
    {
        let count = rows.len() as u64;
        if count >= MOST_ROWS {
            return Err(Memory);
        }
        let mut store = Store::new(alloc);
        let mut rest = rows;
        while let Some((row, more)) = rest.split_first() {
            store.push(row.copy(alloc)?)?;
            rest = more;
        }
        Ok(Table {
            store,
            key_len,
            count,
            spare: 0,
        })
    }

    /// A table of the same rows; none are spare.
    pub fn copy(&self, alloc: Global) -> R<Table>
        ensures { IfOk result (λ copy. copy ≡ record self.now { spare = 0 }) }
    {
        Ok(Table {
            store: self.store.copy(alloc)?,
            key_len: self.key_len,
            count: self.count,
            spare: 0,
        })
    }

    /// How many values a key has: one or two.
    pub fn key_len(&self) -> u8
        ensures value { result ≡ self.now.key_len }
        ensures least { 1 ≤ result }
        ensures most { result ≤ 2 }
    {
        self.key_len
    }

    /// How many rows there are.
    pub fn len(&self) -> usize
        ensures value { result ≡ length self.now.rows }
        ensures bound { result < 2 ^ 63 }
        ensures ordered { AreOrdered self.now.key_len self.now.rows }
    {
        self.count as usize
    }

    /// How many rows stand in each page, by rising key. Each page has 1 to 64, two neighbours have together
    /// more than 64, and all together have the table's rows. For whoever wants to see how full the pages are.
    pub fn page_lengths(&self, alloc: Global) -> R<Vec<usize>>
        ensures sum { IfOk result (λ lengths. sum lengths.items ≡ length self.now.rows) }
        ensures lengths { IfOk result (λ lengths. AllByRecursion (λ (n : ℕ). (1 ≤ n) × (n ≤ 64)) lengths.items) }
        ensures neighbours { IfOk result (λ lengths. NeighboursExceed 64 lengths.items) }
    {
        let lengths = lengths_of(alloc, self.store.pages())?;
        Ok(lengths)
    }

    pub fn is_empty(&self) -> bool
        ensures { IsTrue result ↔ (self.now.rows ≡ []) }
    {
        self.count == 0
    }

    /// How many rows can be put back without memory.
    pub fn spare(&self) -> u64
        ensures { result ≡ self.now.spare }
    {
        self.spare
    }

    /// Whether a row has a value in each key column, none of them NULL.
    pub fn takes(&self, row: &Row) -> bool
        ensures { IsTrue result ↔ HasKey self.now.key_len row.now }
    {
        row.len() >= self.key_len as usize && has_no_null(key_values(row, self.key_len))
    }

    /// The row at a key, if there is one.
    pub fn get(&self, key: &Key) -> Option<&Row>
        ensures { option_copied result ≡ row_at self.now.key_len key.now self.now.rows }
    {
        self.get_at(key.as_slice())
    }

    /// The row at the key of these values, if there is one.
    pub fn get_at(&self, key: &[Value]) -> Option<&Row>
        ensures { option_copied result ≡ row_at self.now.key_len key.now self.now.rows }
    {
        row_of(self.store.pages(), self.key_len, key)
    }

    /// The row of the least key past the edge, none where no key is past it.
    pub fn row_past(&self, edge: &Edge) -> Option<&Row>
        ensures value { option_copied result ≡ row_past self.now.key_len edge.now self.now.rows }
        ensures ordered { AreOrdered self.now.key_len self.now.rows }
    {
        self.past(edge).get(0)
    }

    /// The values of the least key past the edge, none where no key is past it.
    pub fn next(&self, edge: &Edge) -> Option<&[Value]>
        ensures value { option_copied result ≡ least_past self.now.key_len edge.now self.now.rows }
        ensures ordered { AreOrdered self.now.key_len self.now.rows }
    {
        key_of(self.row_past(edge), self.key_len)
    }

    /// The values of the greatest key before the edge, none where no key is before it. For the gap
    /// before a key that a walk locks.
    pub fn prev(&self, edge: &Edge) -> Option<&[Value]>
        ensures value { option_copied result ≡ greatest_before self.now.key_len edge.now self.now.rows }
        ensures ordered { AreOrdered self.now.key_len self.now.rows }
    {
        key_of(
            row_before(self.store.pages(), self.key_len, edge),
            self.key_len,
        )
    }

    /// The values of the n-th key past the edge, counted from 1; none where fewer keys are past it. For
    /// the upper edge of a chunk of `n` rows.
    pub fn nth(&self, edge: &Edge, n: u64) -> Option<&[Value]>
        requires { 1 ≤ n }
        ensures value { option_copied result ≡ nth_past self.now.key_len edge.now n self.now.rows }
        ensures ordered { AreOrdered self.now.key_len self.now.rows }
    {
        key_of(self.past(edge).get(n - 1), self.key_len)
    }

    /// Copies of the rows whose keys are in the span, by rising key.
    pub fn rows(&self, alloc: Global, span: &Span) -> R<Rows>
        ensures value { IfOk result (λ rows. rows ≡ rows_in self.now.key_len span.now self.now.rows) }
        ensures ordered { AreOrdered self.now.key_len self.now.rows }
    {
        let rows = self.each(span).copies(alloc)?;
        Ok(rows)
    }

    /// The rows whose keys are in the span, to be gone over by rising key.
    pub fn each(&self, span: &Span) -> RowsAhead<'_>
        ensures value { result ≡ rows_in self.now.key_len span.now self.now.rows }
        ensures ordered { AreOrdered self.now.key_len self.now.rows }
    {
        rows_between(self.store.pages(), self.key_len, span)
    }

    /// All rows, to be gone over by rising key.
    pub fn all(&self) -> RowsAhead<'_>
        ensures value { result ≡ self.now.rows }
        ensures ordered { AreOrdered self.now.key_len self.now.rows }
    {
        all_rows(self.store.pages())
    }

    /// Whether another table has the same rows.
    pub fn same_rows(&self, other: &Table) -> bool
        ensures { IsTrue result ↔ (self.now.rows ≡ other.now.rows) }
    {
        self.all().same(other.all())
    }

    /// The rows whose keys are past the edge.
    fn past(&self, edge: &Edge) -> RowsAhead<'_>
        ensures value { result ≡ rows_past self.now.key_len edge.now self.now.rows }
        ensures ordered { AreOrdered self.now.key_len self.now.rows }
    {
        rows_from(self.store.pages(), self.key_len, edge)
    }

    /// Puts a row at its key and hands back the row that it replaced. Only a row at an absent key takes
    /// memory; a refusal hands the row back and leaves the table's rows as they were.
    pub fn put(&mut self, row: Row) -> Result<Option<Row>, (Row, Memory)>
        requires { HasKey self.old.key_len row }
        ensures replaced { IfOk result (λ replaced. replaced ≡ row_at self.old.key_len (take self.old.key_len row) self.old.rows) }
        ensures ok { OnOk result (self.new.rows ≡ put_row self.old.key_len row self.old.rows) }
        ensures err { OnErr result (self.new.rows ≡ self.old.rows) }
        ensures absent { OnErr result (row_at self.old.key_len (take self.old.key_len row) self.old.rows ≡ None) }
        ensures handed_back { IfErr result (λ refused. refused.0 ≡ row) }
        ensures key_len { self.new.key_len ≡ self.old.key_len }
        ensures spare { self.old.spare ≤ self.new.spare }
    {
        if self.spare_another() {
            return Ok(self.put_spared(row));
        }
        if self.get_at(key_values(&row, self.key_len)).is_some() {
            return Ok(self.put_back(row));
        }
        let Ok(()) = self.reserve(self.spare + 1) else {
            return Err((row, Memory));
        };
        Ok(self.put_back(row))
    }

    /// Takes the row at a key away and hands it back, if there is one.
    pub fn remove(&mut self, key: &Key) -> Option<Row>
        ensures removed { result ≡ row_at self.old.key_len key.now self.old.rows }
        ensures rows { self.new.rows ≡ without_key self.old.key_len key.now self.old.rows }
        ensures key_len { self.new.key_len ≡ self.old.key_len }
        ensures spare { self.old.spare ≤ self.new.spare }
    {
        let removed = take_from(&mut self.store, self.key_len, key.as_slice());
        if removed.is_some() {
            self.count -= 1;
        }
        removed
    }

    /// Makes at least this number of rows spare; the table's own stay. A refusal lowers nothing, and comes
    /// only where fewer were spare.
    pub fn reserve(&mut self, rows: u64) -> R<()>
        ensures ok { OnOk result (rows ≤ self.new.spare) }
        ensures err { OnErr result (self.old.spare < rows) }
        ensures rows { self.new.rows ≡ self.old.rows }
        ensures key_len { self.new.key_len ≡ self.old.key_len }
        ensures spare { self.old.spare ≤ self.new.spare }
    {
        if rows <= self.spare {
            return Ok(());
        }
        if rows >= MOST_ROWS - self.count {
            return Err(Memory);
        }
        make_room(&mut self.store, self.count, rows)?;
        self.spare = rows;
        Ok(())
    }

    /// Puts a row at its key without memory and hands back the row that it replaced. At an absent key it
    /// takes the reserved capacity of one of the spare rows.
    pub fn put_back(&mut self, row: Row) -> Option<Row>
        requires key { HasKey self.old.key_len row }
        requires room { row_at self.old.key_len (take self.old.key_len row) self.old.rows ≡ None → 1 ≤ self.old.spare }
        ensures replaced { result ≡ row_at self.old.key_len (take self.old.key_len row) self.old.rows }
        ensures rows { self.new.rows ≡ put_row self.old.key_len row self.old.rows }
        ensures key_len { self.new.key_len ≡ self.old.key_len }
        ensures spare { self.new.spare ≡ (if is_some result then self.old.spare else self.old.spare - 1) }
    {
        let replaced = put_into(&mut self.store, self.key_len, row);
        if replaced.is_none() {
            self.count += 1;
            self.spare -= 1;
        }
        replaced
    }

    /// Makes one more row spare where that takes no memory: whether it did.
    fn spare_another(&mut self) -> bool
        ensures spare { self.new.spare ≡ (if result then self.old.spare + 1 else self.old.spare) }
        ensures rows { self.new.rows ≡ self.old.rows }
        ensures key_len { self.new.key_len ≡ self.old.key_len }
    {
        let spare = self.spare + 1;
        if spare >= MOST_ROWS - self.count {
            return false;
        }
        if !has_room(&self.store, self.count, spare) {
            return false;
        }
        self.spare = spare;
        true
    }

    /// Puts a row at its key, and gives up one of the spare rows even where it replaced a row.
    #[tactic(auto, using(crate::proofs::SizeLemmas::room_less))]
    fn put_spared(&mut self, row: Row) -> Option<Row>
        requires key { HasKey self.old.key_len row }
        requires room { 1 ≤ self.old.spare }
        ensures replaced { result ≡ row_at self.old.key_len (take self.old.key_len row) self.old.rows }
        ensures rows { self.new.rows ≡ put_row self.old.key_len row self.old.rows }
        ensures key_len { self.new.key_len ≡ self.old.key_len }
        ensures spare { self.new.spare + 1 ≡ self.old.spare }
    {
        let replaced = self.put_back(row);
        if replaced.is_some() {
            self.spare -= 1;
        }
        replaced
    }
}

/// Whether so many rows can be put back without memory.
fn has_room(store: &Store, count: u64, spare: u64) -> bool
    requires { count + spare < 2 ^ 62 }
    ensures { IsTrue result ↔ HasRoom count spare (length store.now.pages) store.now.empties }
{
    let empties = store.empties() as u64;
    if spare <= empties {
        return true;
    }
    let pages = store.pages().len() as u64;
    (2 * (count + spare) + 127) / 65 <= pages + empties
}

/// Takes as many empty pages as so many spare rows need.
fn make_room(store: &mut Store, count: u64, spare: u64) -> R<()>
    requires { count + spare < 2 ^ 62 }
    ensures ok { OnOk result (HasRoom count spare (length store.new.pages) store.new.empties) }
    ensures pages { store.new.pages ≡ store.old.pages }
    ensures more { store.old.empties ≤ store.new.empties }
{
    while !has_room(store, count, spare) {
        store.grow()?;
    }
    Ok(())
}
