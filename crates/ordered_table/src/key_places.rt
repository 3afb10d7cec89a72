ghost use Rattle.std.specs.Prelude.{◌≡◌, ◌≤◌, ◌+◌, length, take, option_copied, is_some, if◌then◌else◌, None};
ghost use Rattle.row_types.specs.KeyRows.{HasKey, AreOrdered, row_at, put_row, without_key};
ghost use Rattle.ordered_table.specs.Pages.{flat, ArePages};

use crate::page_search::page_of;
use crate::pages::Page;
use crate::places::{Place, key_values, place_of};
use crate::store::Store;
use row_types::{Row, Value};

/// The row of a page at a key, if there is one.
fn row_in<'a>(page: &'a Page, key_len: u8, key: &[Value]) -> Option<&'a Row>
    requires { AreOrdered key_len page.now }
    ensures { option_copied result ≡ row_at key_len key.now page.now }
{
    let rows = page.rows();
    match place_of(rows, key_len, key) {
        Place::Taken(index) => Some(&rows[index]),
        Place::Free(_) => None,
    }
}

/// The row at a key, if there is one.
pub(crate) fn row_of<'a>(pages: &'a [Page], key_len: u8, key: &[Value]) -> Option<&'a Row>
    requires ordered { AreOrdered key_len (flat pages.now) }
    requires sizes { ArePages 64 pages.now }
    ensures { option_copied result ≡ row_at key_len key.now (flat pages.now) }
{
    if pages.is_empty() {
        return None;
    }
    let page = page_of(pages, key_len, key);
    row_in(&pages[page], key_len, key)
}

/// Puts a row at its key, and hands back the row that it replaced. At an absent key it may use an empty page.
pub(crate) fn put_into(store: &mut Store, key_len: u8, row: Row) -> Option<Row>
    requires key { HasKey key_len row }
    requires ordered { AreOrdered key_len (flat store.old.pages) }
    requires sizes { ArePages 64 store.old.pages }
    requires room { row_at key_len (take key_len row) (flat store.old.pages) ≡ None → 1 ≤ store.old.empties }
    ensures replaced { result ≡ row_at key_len (take key_len row) (flat store.old.pages) }
    ensures rows { flat store.new.pages ≡ put_row key_len row (flat store.old.pages) }
    ensures sizes { ArePages 64 store.new.pages }
    ensures count { length (flat store.new.pages) ≡ (if is_some result then length (flat store.old.pages) else length (flat store.old.pages) + 1) }
    ensures total { length store.new.pages + store.new.empties ≡ length store.old.pages + store.old.empties }
    ensures less { store.old.empties ≤ store.new.empties + (if is_some result then 0 else 1) }
{
    if store.pages().is_empty() {
        store.put_first(row);
        return None;
    }
    let page = page_of(store.pages(), key_len, key_values(&row, key_len));
    match place_of(
        store.pages()[page].rows(),
        key_len,
        key_values(&row, key_len),
    ) {
        Place::Taken(index) => Some(store.exchange(page, index, row)),
        Place::Free(index) => {
            store.put_at(page, index, row);
            None
        }
    }
}

/// Takes the row at a key out, and hands it back, if there is one.
pub(crate) fn take_from(store: &mut Store, key_len: u8, key: &[Value]) -> Option<Row>
    requires ordered { AreOrdered key_len (flat store.old.pages) }
    requires sizes { ArePages 64 store.old.pages }
    ensures removed { result ≡ row_at key_len key.now (flat store.old.pages) }
    ensures rows { flat store.new.pages ≡ without_key key_len key.now (flat store.old.pages) }
    ensures sizes { ArePages 64 store.new.pages }
    ensures count { length (flat store.old.pages) ≡ (if is_some result then length (flat store.new.pages) + 1 else length (flat store.new.pages)) }
    ensures total { length store.new.pages + store.new.empties ≡ length store.old.pages + store.old.empties }
    ensures more { store.old.empties ≤ store.new.empties }
{
    if store.pages().is_empty() {
        return None;
    }
    let page = page_of(store.pages(), key_len, key);
    match place_of(store.pages()[page].rows(), key_len, key) {
        Place::Taken(index) => Some(store.take_at(page, index)),
        Place::Free(_) => None,
    }
}
