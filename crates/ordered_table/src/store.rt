ghost use Rattle.std.specs.Prelude.{◌≡◌, ◌≤◌, ◌<◌, ◌+◌, ◌-◌, ◌^◌, ◌++◌, [], ◌∷◌, List, length, take, slice_index_or, slice_set, IfOk, OnOk, OnErr, vec_len, vec_capacity};
ghost use Rattle.std.specs.List.{All, insert, remove};
ghost use Rattle.row_types.specs.declared.values.Value.{Value as ColumnValue};
ghost use Rattle.ordered_table.specs.Parts.{IsParted};
ghost use Rattle.ordered_table.specs.Pages.{flat, ArePages, IsLastFull, joined, settled_split, settled_loss, without_empty};

use crate::pages::Page;
use row_types::{Memory, R, Row, Rows};
use std::alloc::Global;
use std::marker::Model;

/// Pages by rising key, and empty pages for a split or a first row, which then take no memory. Both
/// vectors have reserved capacity for all of them, so that a page moves between the two without memory.
#[derive(Debug, Drop)]
pub(crate) struct Store {
    pages: Vec<Page>,
    empties: Vec<Page>,
}

impl Model for Store {
    ghost use Rattle.ordered_table.specs.StoreView.{StoreView};
    ghost use Rattle.ordered_table.specs.StoreParts.{store_view, IsStore};

    ghost Value = { StoreView };

    ghost view = { store_view };

    ghost invariant = { IsStore };
}

impl Store {
    /// No pages.
    pub fn new(alloc: Global) -> Store
        ensures { result ≡ record { pages = []; empties = 0 } }
    {
        Store {
            pages: Vec::new(alloc),
            empties: Vec::new(alloc),
        }
    }

    /// Copies of the pages; no empty ones stand by.
    pub fn copy(&self, alloc: Global) -> R<Store>
        ensures { IfOk result (λ copy. copy ≡ record { pages = self.now.pages; empties = 0 }) }
    {
        let mut pages = Vec::with_capacity(alloc, self.pages.len())?;
        for page in self.pages.as_slice() {
            pages.push(page.copy(alloc)?)?;
        }
        Ok(Store {
            pages,
            empties: Vec::with_capacity(alloc, self.pages.len())?,
        })
    }

    /// All rows, page after page, in one list.
    pub fn into_rows(self, alloc: Global, count: usize) -> R<Rows>
        ensures { IfOk result (λ rows. rows ≡ flat self.pages) }
    {
        let mut items = Vec::with_capacity(alloc, count)?;
        for page in self.pages {
            page.move_to(&mut items)?;
        }
        Ok(Rows { items })
    }

    pub fn pages(&self) -> &[Page]
        ensures value { result.now ≡ self.now.pages }
    {
        self.pages.as_slice()
    }

    pub fn empties(&self) -> usize
        ensures value { result ≡ self.now.empties }
        ensures bound { result < 2 ^ 63 }
    {
        self.empties.len()
    }

    /// Takes the memory of one more empty page.
    pub fn grow(&mut self) -> R<()>
        ensures pages { self.new.pages ≡ self.old.pages }
        ensures ok { OnOk result (self.new.empties ≡ self.old.empties + 1) }
        ensures err { OnErr result (self.new.empties ≡ self.old.empties) }
    {
        let empties = self.empties.len();
        let pages = self.pages.len();
        self.pages.reserve(empties + 1)?;
        self.empties.reserve(pages + 1)?;
        let page = Page::new(*self.pages.allocator())?;
        give(&mut self.empties, page);
        Ok(())
    }

    /// Puts a row into a page that is not full, in before another of its rows.
    pub fn put_in(&mut self, page: usize, index: usize, row: Row)
        requires page { page < length self.old.pages }
        requires within { index ≤ length (slice_index_or self.old.pages page []) }
        requires room { length (slice_index_or self.old.pages page []) < 64 }
        ensures pages { self.new.pages ≡ slice_set self.old.pages page (insert (slice_index_or self.old.pages page []) index row) }
        ensures empties { self.new.empties ≡ self.old.empties }
    {
        self.pages[page].put_in(index, row);
    }

    /// Puts a row in the place of another and hands that back.
    pub fn exchange(&mut self, page: usize, index: usize, row: Row) -> Row
        requires page { page < length self.old.pages }
        requires within { index < length (slice_index_or self.old.pages page []) }
        ensures replaced { result ≡ slice_index_or (slice_index_or self.old.pages page []) index result }
        ensures pages { self.new.pages ≡ slice_set self.old.pages page (slice_set (slice_index_or self.old.pages page []) index row) }
        ensures empties { self.new.empties ≡ self.old.empties }
    {
        self.pages[page].exchange(index, row)
    }

    /// Takes a row out of a page.
    pub fn take_out(&mut self, page: usize, index: usize) -> Row
        requires page { page < length self.old.pages }
        requires within { index < length (slice_index_or self.old.pages page []) }
        ensures row { result ≡ slice_index_or (slice_index_or self.old.pages page []) index result }
        ensures pages { self.new.pages ≡ slice_set self.old.pages page (remove (slice_index_or self.old.pages page []) index) }
        ensures empties { self.new.empties ≡ self.old.empties }
    {
        self.pages[page].take_out(index)
    }

    /// Puts an empty page in after all pages before this number.
    pub fn open(&mut self, index: usize)
        requires within { index ≤ length self.old.pages }
        requires some { 1 ≤ self.old.empties }
        ensures pages { self.new.pages ≡ insert self.old.pages index [] }
        ensures empties { self.new.empties + 1 ≡ self.old.empties }
    {
        let Some(page) = self.empties.pop() else {
            return;
        };
        open_at(&mut self.pages, index, page);
    }

    /// Puts a row into a full page, whose upper half goes to an empty page after it.
    pub fn put_parted(&mut self, page: usize, index: usize, row: Row)
        requires page { page < length self.old.pages }
        requires full { length (slice_index_or self.old.pages page []) ≡ 64 }
        requires within { index ≤ 64 }
        requires some { 1 ≤ self.old.empties }
        ensures parts { IsParted page (insert (slice_index_or self.old.pages page []) index row) self.old.pages self.new.pages }
        ensures total { length self.new.pages + self.new.empties ≡ length self.old.pages + self.old.empties }
        ensures less { self.new.empties + 1 ≡ self.old.empties }
    {
        let Some(mut half) = self.empties.pop() else {
            return;
        };
        self.pages[page].put_parted(&mut half, index, row);
        open_at(&mut self.pages, page + 1, half);
    }

    /// Joins each half of a page that was split with its outer neighbour, where the two hold at most 64 rows.
    pub fn settle_split(&mut self, page: usize)
        requires { page < length self.old.pages }
        ensures pages { self.new.pages ≡ settled_split page self.old.pages }
        ensures total { length self.new.pages + self.new.empties ≡ length self.old.pages + self.old.empties }
        ensures more { self.old.empties ≤ self.new.empties }
    {
        let _ = &self.pages;
        self.join(page + 1);
        if page > 0 {
            self.join(page - 1);
        }
    }

    /// Joins a page that lost a row with a neighbour, where the two hold at most 64 rows.
    pub fn settle_loss(&mut self, page: usize)
        requires { page < length self.old.pages }
        ensures pages { self.new.pages ≡ without_empty (settled_loss page self.old.pages) }
        ensures total { length self.new.pages + self.new.empties ≡ length self.old.pages + self.old.empties }
        ensures more { self.old.empties ≤ self.new.empties }
    {
        let _ = &self.pages;
        self.join(page);
        if page > 0 {
            self.join(page - 1);
        }
        self.close();
    }

    /// Puts a row into a page, in before another of its rows.
    pub fn put_at(&mut self, page: usize, index: usize, row: Row)
        requires sizes { ArePages 64 self.old.pages }
        requires page { page < length self.old.pages }
        requires within { index ≤ length (slice_index_or self.old.pages page []) }
        requires some { 1 ≤ self.old.empties }
        ensures rows { flat self.new.pages ≡ flat (slice_set self.old.pages page (insert (slice_index_or self.old.pages page []) index row)) }
        ensures sizes { ArePages 64 self.new.pages }
        ensures total { length self.new.pages + self.new.empties ≡ length self.old.pages + self.old.empties }
        ensures less { self.old.empties ≤ self.new.empties + 1 }
    {
        if self.pages[page].len() < 64 {
            self.put_in(page, index, row);
            return;
        }
        self.put_parted(page, index, row);
        self.settle_split(page);
    }

    /// Puts a row after all others, into a page of its own where the last one is full. Only a new page takes
    /// memory.
    pub fn push(&mut self, row: Row) -> R<()>
        requires sizes { ArePages 64 self.old.pages }
        ensures rows { OnOk result (flat self.new.pages ≡ flat self.old.pages ++ row ∷ []) }
        ensures sizes { ArePages 64 self.new.pages }
    {
        let count = self.pages.len();
        if count == 0 {
            return self.push_page(row);
        }
        let len = self.pages[count - 1].len();
        if len >= 64 {
            return self.push_page(row);
        }
        self.put_in(count - 1, len, row);
        Ok(())
    }

    /// Puts a row into a page of its own, after all others, which are in full pages or in none.
    fn push_page(&mut self, row: Row) -> R<()>
        requires sizes { ArePages 64 self.old.pages }
        requires full { IsLastFull self.old.pages }
        ensures rows { OnOk result (flat self.new.pages ≡ flat self.old.pages ++ row ∷ []) }
        ensures sizes { ArePages 64 self.new.pages }
    {
        self.grow()?;
        let Some(mut page) = self.empties.pop() else {
            return Err(Memory);
        };
        page.put_in(0, row);
        give_page(&mut self.pages, page);
        Ok(())
    }

    /// Puts the first row into a page of its own.
    pub fn put_first(&mut self, row: Row)
        requires none { self.old.pages ≡ [] }
        requires some { 1 ≤ self.old.empties }
        ensures rows { self.new.pages ≡ (row ∷ []) ∷ [] }
        ensures empties { self.new.empties + 1 ≡ self.old.empties }
    {
        self.open(0);
        self.put_in(0, 0, row);
    }

    /// Takes a row out of a page, and hands it back.
    pub fn take_at(&mut self, page: usize, index: usize) -> Row
        requires sizes { ArePages 64 self.old.pages }
        requires page { page < length self.old.pages }
        requires within { index < length (slice_index_or self.old.pages page []) }
        ensures row { result ≡ slice_index_or (slice_index_or self.old.pages page []) index result }
        ensures rows { flat self.new.pages ≡ flat (slice_set self.old.pages page (remove (slice_index_or self.old.pages page []) index)) }
        ensures sizes { ArePages 64 self.new.pages }
        ensures total { length self.new.pages + self.new.empties ≡ length self.old.pages + self.old.empties }
        ensures more { self.old.empties ≤ self.new.empties }
    {
        let row = self.take_out(page, index);
        self.settle_loss(page);
        row
    }

    /// Joins a page with the one after it, where the two hold at most 64 rows.
    pub fn join(&mut self, page: usize)
        requires { page < 2 ^ 63 }
        ensures pages { self.new.pages ≡ joined page self.old.pages }
        ensures total { length self.new.pages + self.new.empties ≡ length self.old.pages + self.old.empties }
        ensures more { self.old.empties ≤ self.new.empties }
    {
        if self.pages.len() <= page + 1 {
            return;
        }
        if self.pages[page].len() + self.pages[page + 1].len() > 64 {
            return;
        }
        let mut next = self.pages.remove(page + 1);
        self.pages[page].take_all(&mut next);
        give(&mut self.empties, next);
    }

    /// Takes the first page out, where it is empty.
    pub fn close(&mut self)
        ensures pages { self.new.pages ≡ without_empty self.old.pages }
        ensures total { length self.new.pages + self.new.empties ≡ length self.old.pages + self.old.empties }
        ensures more { self.old.empties ≤ self.new.empties }
    {
        if self.pages.is_empty() {
            return;
        }
        if self.pages[0].len() > 0 {
            return;
        }
        let page = self.pages.remove(0);
        give(&mut self.empties, page);
    }
}

/// Keeps an empty page, where there is reserved capacity for it.
fn give(empties: &mut Vec<Page>, page: Page)
    requires room { vec_len empties.old < vec_capacity empties.old }
    requires blank { All (λ (rows : List (List ColumnValue)). rows ≡ []) empties.old.items }
    requires empty { page ≡ [] }
    ensures blank { All (λ (rows : List (List ColumnValue)). rows ≡ []) empties.new.items }
    ensures len { vec_len empties.new ≡ vec_len empties.old + 1 }
    ensures capacity { vec_capacity empties.old ≤ vec_capacity empties.new }
{
    match empties.push(page) {
        Ok(()) => {}
        Err(_) => unreachable!(),
    }
}

/// Puts a page after all others, where there is reserved capacity for it.
fn give_page(pages: &mut Vec<Page>, page: Page)
    requires { vec_len pages.old < vec_capacity pages.old }
    ensures items { pages.new.items ≡ pages.old.items ++ page ∷ [] }
    ensures len { vec_len pages.new ≡ vec_len pages.old + 1 }
    ensures capacity { vec_capacity pages.old ≤ vec_capacity pages.new }
{
    match pages.push(page) {
        Ok(()) => {}
        Err(_) => unreachable!(),
    }
}

/// Puts a page in before another, where there is reserved capacity for it.
fn open_at(pages: &mut Vec<Page>, index: usize, page: Page)
    requires within { index ≤ vec_len pages.old }
    requires room { vec_len pages.old < vec_capacity pages.old }
    ensures items { pages.new.items ≡ insert pages.old.items index page }
    ensures len { vec_len pages.new ≡ vec_len pages.old + 1 }
    ensures capacity { vec_capacity pages.old ≤ vec_capacity pages.new }
{
    match pages.insert(index, page) {
        Ok(()) => {}
        Err(_) => unreachable!(),
    }
}
