ghost use Rattle.std.specs.Prelude.{◌≡◌, ◌<◌, ◌-◌, ◌++◌, ◌^◌, suc, [], length, take, drop, slice_index_or, slice_get, option_copied};
ghost use Rattle.std.specs.List.{AllByRecursion};
ghost use Rattle.row_types.specs.KeyRows.{AreOrdered, rows_in, rows_past, rows_before};
ghost use Rattle.ordered_table.specs.Pages.{flat, ArePages, HasRow};

use crate::page_search::page_of;
use crate::pages::Page;
use crate::places::{rows_before, rows_past};
use crate::rows_ahead::RowsAhead;
use row_types::{Edge, Row, Span};

/// All rows.
pub(crate) fn all_rows(pages: &[Page]) -> RowsAhead<'_>
    requires sizes { ArePages 64 pages.now }
    requires fits { length (flat pages.now) < 2 ^ 63 }
    ensures { result ≡ flat pages.now }
{
    RowsAhead {
        first: &[],
        pages,
        last: &[],
    }
}

/// The rows whose keys are past the edge.
pub(crate) fn rows_from<'a>(pages: &'a [Page], key_len: u8, edge: &Edge) -> RowsAhead<'a>
    requires ordered { AreOrdered key_len (flat pages.now) }
    requires sizes { ArePages 64 pages.now }
    requires fits { length (flat pages.now) < 2 ^ 63 }
    ensures { result ≡ rows_past key_len edge.now (flat pages.now) }
{
    let (first, pages) = pages_past(pages, key_len, edge);
    RowsAhead {
        first,
        pages,
        last: &[],
    }
}

/// The rows whose keys are in the span.
pub(crate) fn rows_between<'a>(pages: &'a [Page], key_len: u8, span: &Span) -> RowsAhead<'a>
    requires ordered { AreOrdered key_len (flat pages.now) }
    requires sizes { ArePages 64 pages.now }
    requires fits { length (flat pages.now) < 2 ^ 63 }
    ensures { result ≡ rows_in key_len span.now (flat pages.now) }
{
    let (pages, last) = pages_before(pages, key_len, &span.hi);
    let (first, pages) = pages_past(pages, key_len, &span.lo);
    RowsAhead {
        first,
        pages,
        last: rows_past(last, key_len, &span.lo),
    }
}

/// The row of the greatest key before the edge, none where no key is before it.
pub(crate) fn row_before<'a>(pages: &'a [Page], key_len: u8, edge: &Edge) -> Option<&'a Row>
    requires ordered { AreOrdered key_len (flat pages.now) }
    requires sizes { ArePages 64 pages.now }
    ensures { option_copied result ≡ slice_get (rows_before key_len edge.now (flat pages.now)) (length (rows_before key_len edge.now (flat pages.now)) - 1) }
{
    let (pages, last) = pages_before(pages, key_len, edge);
    last_row(pages, last)
}

/// The rows whose keys are past the edge: the rest of a page, and whole pages.
fn pages_past<'a>(pages: &'a [Page], key_len: u8, edge: &Edge) -> (&'a [Row], &'a [Page])
    requires ordered { AreOrdered key_len (flat pages.now) }
    requires sizes { ArePages 64 pages.now }
    ensures rows { result.0.now ++ flat result.1.now ≡ rows_past key_len edge.now (flat pages.now) }
    ensures full { AllByRecursion HasRow result.1.now }
{
    if pages.is_empty() {
        return (&[], pages);
    }
    match edge {
        Edge::Low => (&[], pages),
        Edge::Before(key) => {
            part_past(
                pages,
                key_len,
                edge,
                page_of(pages, key_len, key.as_slice()),
            )
        }
        Edge::After(key) => {
            part_past(
                pages,
                key_len,
                edge,
                page_of(pages, key_len, key.as_slice()),
            )
        }
        Edge::High => (&[], &[]),
    }
}

/// The rows past an edge that lies in this page.
fn part_past<'a>(
    pages: &'a [Page],
    key_len: u8,
    edge: &Edge,
    page: usize,
) -> (&'a [Row], &'a [Page])
    requires within { page < length pages.now }
    requires ordered { AreOrdered key_len (flat pages.now) }
    requires sizes { ArePages 64 pages.now }
    requires parts { rows_past key_len edge.now (flat pages.now) ≡ rows_past key_len edge.now (slice_index_or pages.now page []) ++ flat (drop (suc page) pages.now) }
    ensures rows { result.0.now ++ flat result.1.now ≡ rows_past key_len edge.now (flat pages.now) }
    ensures full { AllByRecursion HasRow result.1.now }
{
    (
        rows_past(pages[page].rows(), key_len, edge),
        pages.split_at(page + 1).1,
    )
}

/// The rows whose keys are before the edge: whole pages, and the first rows of one more.
fn pages_before<'a>(pages: &'a [Page], key_len: u8, edge: &Edge) -> (&'a [Page], &'a [Row])
    requires ordered { AreOrdered key_len (flat pages.now) }
    requires sizes { ArePages 64 pages.now }
    ensures rows { flat result.0.now ++ result.1.now ≡ rows_before key_len edge.now (flat pages.now) }
    ensures sizes { ArePages 64 result.0.now }
{
    if pages.is_empty() {
        return (pages, &[]);
    }
    match edge {
        Edge::Low => (&[], &[]),
        Edge::Before(key) => {
            part_before(
                pages,
                key_len,
                edge,
                page_of(pages, key_len, key.as_slice()),
            )
        }
        Edge::After(key) => {
            part_before(
                pages,
                key_len,
                edge,
                page_of(pages, key_len, key.as_slice()),
            )
        }
        Edge::High => (pages, &[]),
    }
}

/// The rows before an edge that lies in this page.
fn part_before<'a>(
    pages: &'a [Page],
    key_len: u8,
    edge: &Edge,
    page: usize,
) -> (&'a [Page], &'a [Row])
    requires within { page < length pages.now }
    requires ordered { AreOrdered key_len (flat pages.now) }
    requires sizes { ArePages 64 pages.now }
    requires parts { rows_before key_len edge.now (flat pages.now) ≡ flat (take page pages.now) ++ rows_before key_len edge.now (slice_index_or pages.now page []) }
    ensures rows { flat result.0.now ++ result.1.now ≡ rows_before key_len edge.now (flat pages.now) }
    ensures sizes { ArePages 64 result.0.now }
{
    (
        pages.split_at(page).0,
        rows_before(pages[page].rows(), key_len, edge),
    )
}

/// The last row of pages and some more.
#[tactic(auto, using(crate::proofs::AheadLemmas::last_left, crate::proofs::AheadLemmas::last_right))]
fn last_row<'a>(pages: &'a [Page], last: &'a [Row]) -> Option<&'a Row>
    requires { ArePages 64 pages.now }
    ensures { option_copied result ≡ slice_get (flat pages.now ++ last.now) (length (flat pages.now ++ last.now) - 1) }
{
    if last.is_empty() {
        return last_of_pages(pages);
    }
    last.last()
}

/// The last row of pages.
fn last_of_pages(pages: &[Page]) -> Option<&Row>
    requires { ArePages 64 pages.now }
    ensures { option_copied result ≡ slice_get (flat pages.now) (length (flat pages.now) - 1) }
{
    let count = pages.len();
    if count == 0 {
        return None;
    }
    pages[count - 1].rows().last()
}
