ghost use Rattle.std.specs.Prelude.{◌≡◌, ◌≤◌, ◌<◌, ◌+◌, ◌++◌, [], length, slice_index_or, slice_set, IfOk, OnOk};
ghost use Rattle.std.specs.List.{insert, remove};
ghost use Rattle.ordered_table.specs.Leading.{page_leading};

use crate::leading_numbers::page_leading;
use crate::row_lists::{exchange, put_in};
use row_types::{R, Row};
use std::alloc::Global;
use std::marker::Model;

/// Rows that stand together: at most 64, with reserved capacity for 64 from the start. The number that the
/// first row begins with is kept beside them, so that a search among pages need not read their rows.
#[derive(Debug, Drop)]
pub(crate) struct Page {
    rows: Vec<Row>,
    leading: Option<i64>,
}

impl Model for Page {
    ghost use Rattle.std.specs.Prelude.{List};
    ghost use Rattle.row_types.specs.declared.values.Value.{Value as ColumnValue};
    ghost use Rattle.ordered_table.specs.PageParts.{HasPlaces};

    ghost Value = { List (List ColumnValue) };

    ghost view = { λ page. page.rows.items };

    ghost invariant = { HasPlaces };
}

impl Page {
    /// A page without rows.
    pub fn new(alloc: Global) -> R<Page>
        ensures { IfOk result (λ page. page ≡ []) }
    {
        let rows = Vec::with_capacity(alloc, 64)?;
        Ok(Page {
            rows,
            leading: None,
        })
    }

    /// A page of copies of the rows.
    pub fn copy(&self, alloc: Global) -> R<Page>
        ensures { IfOk result (λ copy. copy ≡ self.now) }
    {
        let mut rows = Vec::with_capacity(alloc, 64)?;
        for row in self.rows.as_slice() {
            rows.push(row.copy(alloc)?)?;
        }
        let leading = page_leading(rows.as_slice());
        Ok(Page { rows, leading })
    }

    /// Moves the rows to the end of others.
    pub fn move_to(self, rows: &mut Vec<Row>) -> R<()>
        ensures { OnOk result (rows.new.items ≡ rows.old.items ++ self) }
    {
        let mut own = self.rows;
        rows.append(&mut own)?;
        Ok(())
    }

    pub fn len(&self) -> usize
        ensures value { result ≡ length self.now }
        ensures most { result ≤ 64 }
    {
        self.rows.len()
    }

    /// The number that the first row begins with, if it does.
    pub fn leading(&self) -> Option<i64>
        ensures { result ≡ page_leading self.now }
    {
        self.leading
    }

    pub fn rows(&self) -> &[Row]
        ensures value { result.now ≡ self.now }
        ensures most { length result.now ≤ 64 }
    {
        self.rows.as_slice()
    }

    /// Puts a row in the place of another and hands that back.
    pub fn exchange(&mut self, index: usize, row: Row) -> Row
        requires { index < length self.old }
        ensures replaced { result ≡ slice_index_or self.old index result }
        ensures rows { self.new ≡ slice_set self.old index row }
    {
        let replaced = exchange(&mut self.rows, index, row);
        self.leading = page_leading(self.rows.as_slice());
        replaced
    }

    /// Puts a row in before another, where the page is not full.
    pub fn put_in(&mut self, index: usize, row: Row)
        requires within { index ≤ length self.old }
        requires room { length self.old < 64 }
        ensures { self.new ≡ insert self.old index row }
    {
        put_in(&mut self.rows, index, row);
        self.leading = page_leading(self.rows.as_slice());
    }

    /// Takes a row out and hands it back.
    pub fn take_out(&mut self, index: usize) -> Row
        requires { index < length self.old }
        ensures row { result ≡ slice_index_or self.old index result }
        ensures rows { self.new ≡ remove self.old index }
    {
        let row = self.rows.remove(index);
        self.leading = page_leading(self.rows.as_slice());
        row
    }

    /// Moves the rows from this number on into an empty page.
    pub fn give_from(&mut self, from: usize, other: &mut Page)
        requires within { from ≤ length self.old }
        requires empty { other.old ≡ [] }
        ensures rows { self.new ++ other.new ≡ self.old }
        ensures len { length self.new ≡ from }
    {
        while self.rows.len() > from {
            let Some(row) = self.rows.pop() else {
                return;
            };
            put_in(&mut other.rows, 0, row);
        }
        self.leading = page_leading(self.rows.as_slice());
        other.leading = page_leading(other.rows.as_slice());
    }

    /// Moves the upper half of a full page into an empty one, and puts a row into the half that it belongs to.
    pub fn put_parted(&mut self, half: &mut Page, index: usize, row: Row)
        requires full { length self.old ≡ 64 }
        requires within { index ≤ 64 }
        requires empty { half.old ≡ [] }
        ensures rows { self.new ++ half.new ≡ insert self.old index row }
        ensures sum { length self.new + length half.new ≡ 65 }
        ensures most { length self.new ≤ 64 }
        ensures half_most { length half.new ≤ 64 }
    {
        self.give_from(32, half);
        if index <= 32 {
            self.put_in(index, row);
        } else {
            half.put_in(index - 32, row);
        }
    }

    /// Moves all rows of another page to the end of this one, where they fit.
    pub fn take_all(&mut self, other: &mut Page)
        requires { length self.old + length other.old ≤ 64 }
        ensures rows { self.new ≡ self.old ++ other.old }
        ensures other { other.new ≡ [] }
    {
        match self.rows.append(&mut other.rows) {
            Ok(()) => {}
            Err(_) => unreachable!(),
        }
        self.leading = page_leading(self.rows.as_slice());
        other.leading = page_leading(other.rows.as_slice());
    }
}
