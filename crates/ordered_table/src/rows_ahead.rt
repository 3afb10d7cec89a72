ghost use Rattle.std.specs.Prelude.{◌≡◌, ◌<◌, ◌++◌, ◌^◌, ◌↔◌, IsTrue, IfOk, OnOk, List, [], length, drop, slice_get, option_copied};
ghost use Rattle.ordered_table.specs.Pages.{flat};

use crate::pages::Page;
use crate::row_lists::item_at;
use row_types::{R, Row, Rows};
use std::alloc::Global;
use std::marker::Model;

/// Rows of a table that are still to come, by rising key; none of them is copied. It is seen as the
/// list of these rows.
#[derive(Debug, Drop)]
pub struct RowsAhead<'a> {
    pub(crate) first: &'a [Row],
    pub(crate) pages: &'a [Page],
    pub(crate) last: &'a [Row],
}

impl<'a> Model for RowsAhead<'a> {
    ghost use Rattle.std.specs.Prelude.{List};
    ghost use Rattle.row_types.specs.declared.values.Value.{Value as ColumnValue};
    ghost use Rattle.ordered_table.specs.AheadParts.{ahead_rows, IsAhead};

    ghost Value = { List (List ColumnValue) };

    ghost view = { λ ahead. ahead_rows ahead.first.now ahead.pages.now ahead.last.now };

    ghost invariant = { λ ahead. IsAhead ahead.first.now ahead.pages.now ahead.last.now };
}

impl<'a> RowsAhead<'a> {
    /// How many rows are still to come.
    pub fn len(&self) -> usize
        ensures value { result ≡ length self.now }
        ensures bound { result < 2 ^ 63 }
    {
        self.first.len() + count_rows(self.pages) + self.last.len()
    }

    /// Whether no row is still to come.
    pub fn is_empty(&self) -> bool
        ensures { IsTrue result ↔ (self.now ≡ []) }
    {
        match self.get(0) {
            None => true,
            Some(_) => false,
        }
    }

    /// The next row, which is then no longer to come.
    pub fn next_row(&mut self) -> Option<&'a Row>
        ensures row { option_copied result ≡ slice_get self.old 0 }
        ensures rest { self.new ≡ drop 1 self.old }
    {
        if let Some((row, rest)) = self.first.split_first() {
            self.first = rest;
            return Some(row);
        }
        if let Some((page, pages)) = self.pages.split_first() {
            let Some((row, rest)) = page.rows().split_first() else {
                return None;
            };
            self.first = rest;
            self.pages = pages;
            return Some(row);
        }
        let Some((row, rest)) = self.last.split_first() else {
            return None;
        };
        self.last = rest;
        Some(row)
    }

    /// The row of this number, counted from 0; none where fewer are to come.
    #[tactic(auto, using(crate::proofs::AheadLemmas::get_left, crate::proofs::AheadLemmas::get_right))]
    pub(crate) fn get(&self, index: u64) -> Option<&'a Row>
        ensures { option_copied result ≡ slice_get self.now index }
    {
        if index < self.first.len() as u64 {
            return item_at(self.first, index);
        }
        row_among(self.pages, self.last, index - self.first.len() as u64)
    }

    /// Copies of the rows. Their list grows as it is filled: one large piece of memory beside many small ones
    /// makes glibc merge and cut its free pieces again, which costs a quarter more for 100 rows.
    pub(crate) fn copies(self, alloc: Global) -> R<Rows>
        ensures { IfOk result (λ copies. copies ≡ self.entry) }
    {
        let mut items = Vec::new(alloc);
        add_copies(&mut items, alloc, self.first)?;
        add_page_copies(&mut items, alloc, self.pages)?;
        add_copies(&mut items, alloc, self.last)?;
        Ok(Rows { items })
    }

    /// Whether the same rows are to come.
    pub(crate) fn same(self, other: RowsAhead) -> bool
        ensures { IsTrue result ↔ (self.entry ≡ other.entry) }
    {
        let (mut ours, mut theirs) = (self, other);
        while let Some(row) = ours.next_row() {
            let Some(other) = theirs.next_row() else {
                return false;
            };
            if !row.same(other) {
                return false;
            }
        }
        theirs.is_empty()
    }
}

/// Puts copies of rows at the end of others.
fn add_copies(items: &mut Vec<Row>, alloc: Global, rows: &[Row]) -> R<()>
    ensures { OnOk result (items.new.items ≡ items.old.items ++ rows.now) }
{
    let mut rest = rows;
    while let Some((row, more)) = rest.split_first() {
        items.push(row.copy(alloc)?)?;
        rest = more;
    }
    Ok(())
}

/// Puts copies of the rows of pages at the end of others.
fn add_page_copies(items: &mut Vec<Row>, alloc: Global, pages: &[Page]) -> R<()>
    ensures { OnOk result (items.new.items ≡ items.old.items ++ flat pages.now) }
{
    let mut rest = pages;
    while let Some((page, more)) = rest.split_first() {
        add_copies(items, alloc, page.rows())?;
        rest = more;
    }
    Ok(())
}

/// How many rows pages have.
fn count_rows(pages: &[Page]) -> usize
    requires { length (flat pages.now) < 2 ^ 63 }
    ensures { result ≡ length (flat pages.now) }
{
    let mut count = 0;
    let mut rest = pages;
    while let Some((page, more)) = rest.split_first() {
        count += page.len();
        rest = more;
    }
    count
}

/// The row of this number among those of pages and some more, counted from 0.
fn row_among<'a>(pages: &'a [Page], last: &'a [Row], index: u64) -> Option<&'a Row>
    ensures { option_copied result ≡ slice_get (flat pages.now ++ last.now) index }
{
    let mut left = index;
    let mut rest = pages;
    while let Some((page, more)) = rest.split_first() {
        let rows = page.rows();
        if left < rows.len() as u64 {
            return item_at(rows, left);
        }
        left -= rows.len() as u64;
        rest = more;
    }
    item_at(last, left)
}
