ghost use Rattle.std.specs.Prelude.{◌≡◌, ◌↔◌, IsTrue, take, option_copied, option_map};
ghost use Rattle.std.specs.List.{AllByRecursion};
ghost use Rattle.row_types.specs.Order.{key_cmp, is_past_edge};
ghost use Rattle.row_types.specs.KeyRows.{AreOrdered, IsNotNull, rows_past, rows_before};
ghost use Rattle.ordered_table.specs.Places.{IsCut, IsPlaced, is_past, is_there};

use crate::leading_numbers::{leading, leading_order};
use row_types::{Edge, Row, Value, compare_values};
use std::cmp::Ordering;

/// Where the row of a key stands, or would stand.
#[derive(Clone, Copy, Debug, PartialEq, Eq)]
pub(crate) enum Place {
    Taken(usize),
    Free(usize),
}

/// The place of a key among rows by rising key, found by binary search.
pub(crate) fn place_of(rows: &[Row], key_len: u8, key: &[Value]) -> Place
    requires { AreOrdered key_len rows.now }
    ensures { IsPlaced key_len key.now rows.now result }
{
    let index = first_past(rows, key_len, key, false);
    if is_there(rows, key_len, key, index) {
        return Place::Taken(index);
    }
    Place::Free(index)
}

/// Whether the row of this number has the key.
fn is_there(rows: &[Row], key_len: u8, key: &[Value], index: usize) -> bool
    ensures { result ≡ is_there key_len key.now rows.now index }
{
    match rows.get(index) {
        None => false,
        Some(row) => key_order(key, row, key_len).is_eq(),
    }
}

/// The rows whose keys are past the edge.
#[tactic(auto, using(crate::proofs::CutLemmas::past_from))]
pub(crate) fn rows_past<'a>(rows: &'a [Row], key_len: u8, edge: &Edge) -> &'a [Row]
    requires { AreOrdered key_len rows.now }
    ensures { result.now ≡ rows_past key_len edge.now rows.now }
{
    rows.split_at(first_past_edge(rows, key_len, edge)).1
}

/// The rows whose keys are before the edge.
#[tactic(auto, using(crate::proofs::CutLemmas::before_to))]
pub(crate) fn rows_before<'a>(rows: &'a [Row], key_len: u8, edge: &Edge) -> &'a [Row]
    requires { AreOrdered key_len rows.now }
    ensures { result.now ≡ rows_before key_len edge.now rows.now }
{
    rows.split_at(first_past_edge(rows, key_len, edge)).0
}

/// The number of the first row whose key is past the edge.
fn first_past_edge(rows: &[Row], key_len: u8, edge: &Edge) -> usize
    requires { AreOrdered key_len rows.now }
    ensures { IsCut key_len (is_past_edge edge.now) rows.now result }
{
    match edge {
        Edge::Low => 0,
        Edge::Before(key) => first_past(rows, key_len, key.as_slice(), false),
        Edge::After(key) => first_past(rows, key_len, key.as_slice(), true),
        Edge::High => rows.len(),
    }
}

/// The number of the first row whose key is past this one, or at it unless only later keys count.
fn first_past(rows: &[Row], key_len: u8, key: &[Value], strictly: bool) -> usize
    requires { AreOrdered key_len rows.now }
    ensures { IsCut key_len (is_past strictly key.now) rows.now result }
{
    rows.partition_point(|row| !is_behind(row, key_len, key, strictly))
}

/// Whether a row's key is past this one, or at it unless only later keys count.
pub(crate) fn is_behind(row: &Row, key_len: u8, key: &[Value], strictly: bool) -> bool
    ensures { result ≡ is_past strictly key.now (take key_len row.now) }
{
    let ordering = key_order(key, row, key_len);
    if strictly {
        return ordering.is_lt();
    }
    ordering.is_le()
}

/// The order of a key and that of a row.
#[tactic(auto, using(crate::proofs::LeadingLemmas::leading_decides))]
fn key_order(key: &[Value], row: &Row, key_len: u8) -> Ordering
    ensures { result ≡ key_cmp key.now (take key_len row.now) }
{
    if key_len > 0 {
        let first = leading_order(leading(key), leading(row.as_slice()));
        if first.is_ne() {
            return first;
        }
    }
    compare_values(key, key_values(row, key_len))
}

/// The values of a row's first columns, as far as it has them.
pub(crate) fn key_values(row: &Row, key_len: u8) -> &[Value]
    ensures { result.now ≡ take key_len row.now }
{
    let values = row.as_slice();
    if values.len() <= key_len as usize {
        return values;
    }
    values.split_at(key_len as usize).0
}

/// The values of the first columns of a row, if there is one.
pub(crate) fn key_of(row: Option<&Row>, key_len: u8) -> Option<&[Value]>
    ensures { option_copied result ≡ option_map (take key_len) (option_copied row.entry) }
{
    match row {
        None => None,
        Some(row) => Some(key_values(row, key_len)),
    }
}

/// Whether none of these values is NULL.
pub(crate) fn has_no_null(values: &[Value]) -> bool
    ensures { IsTrue result ↔ AllByRecursion IsNotNull values.now }
{
    let mut rest = values;
    while let Some((first, more)) = rest.split_first() {
        if matches!(first, Value::Null) {
            return false;
        }
        rest = more;
    }
    true
}
