ghost use Rattle.std.specs.Prelude.{◌≡◌, ◌≤◌, true, take, length, slice_index_or, []};
ghost use Rattle.row_types.specs.KeyRows.{AreOrdered};
ghost use Rattle.ordered_table.specs.Places.{IsCut, is_past};
ghost use Rattle.ordered_table.specs.Pages.{flat, ArePages};
ghost use Rattle.ordered_table.specs.PageOf.{firsts, IsPageOf};

use crate::leading_numbers::{leading, leading_order};
use crate::pages::Page;
use crate::places::is_behind;
use row_types::Value;

/// Whether the key of the page's first row is past this one.
#[tactic(auto, using(crate::proofs::LeadingLemmas::page_decides))]
fn is_page_behind(page: &Page, key_len: u8, key: &[Value]) -> bool
    ensures { result ≡ is_past true key.now (take key_len (slice_index_or page.now 0 [])) }
{
    if key_len > 0 {
        let first = leading_order(leading(key), page.leading());
        if first.is_ne() {
            return first.is_lt();
        }
    }
    is_first_behind(page, key_len, key)
}

/// The same, by the row itself.
fn is_first_behind(page: &Page, key_len: u8, key: &[Value]) -> bool
    ensures { result ≡ is_past true key.now (take key_len (slice_index_or page.now 0 [])) }
{
    match page.rows().first() {
        None => false,
        Some(row) => is_behind(row, key_len, key, true),
    }
}

/// The number of the first page whose first key is past this one.
fn first_page_past(pages: &[Page], key_len: u8, key: &[Value]) -> usize
    requires ordered { AreOrdered key_len (flat pages.now) }
    requires pages { ArePages 64 pages.now }
    ensures { IsCut key_len (is_past true key.now) (firsts pages.now) result }
{
    pages.partition_point(|page| !is_page_behind(page, key_len, key))
}

/// The number of the page that has the place of a key.
pub(crate) fn page_of(pages: &[Page], key_len: u8, key: &[Value]) -> usize
    requires ordered { AreOrdered key_len (flat pages.now) }
    requires pages { ArePages 64 pages.now }
    requires some { 1 ≤ length pages.now }
    ensures { IsPageOf key_len key.now pages.now result }
{
    let past = first_page_past(pages, key_len, key);
    if past == 0 {
        return 0;
    }
    past - 1
}
