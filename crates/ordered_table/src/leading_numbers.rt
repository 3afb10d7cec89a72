//! The number that a key or a row begins with: it decides most comparisons of a search, without a
//! look at the row itself.
ghost use Rattle.std.specs.Prelude.{◌≡◌};
ghost use Rattle.ordered_table.specs.Leading.{number_of, leading, page_leading, leading_cmp};

use row_types::{Row, Value};
use std::cmp::Ordering;

fn number_of(value: &Value) -> Option<i64>
    ensures { result ≡ number_of value.now }
{
    match value {
        Value::Null => None,
        Value::Int(number) => Some(*number),
        Value::Text(_) => None,
    }
}

/// The number that these values begin with, if they do.
pub(crate) fn leading(values: &[Value]) -> Option<i64>
    ensures { result ≡ leading values.now }
{
    match values.split_first() {
        None => None,
        Some((value, _)) => number_of(value),
    }
}

/// The number that the first of these rows begins with, if it does.
pub(crate) fn page_leading(rows: &[Row]) -> Option<i64>
    ensures { result ≡ page_leading rows.now }
{
    match rows.split_first() {
        None => None,
        Some((row, _)) => leading(row.as_slice()),
    }
}

/// The order of two such numbers, equal where one of them is missing.
pub(crate) fn leading_order(ours: Option<i64>, theirs: Option<i64>) -> Ordering
    ensures { result ≡ leading_cmp ours theirs }
{
    match (ours, theirs) {
        (None, _) => Ordering::Equal,
        (Some(_), None) => Ordering::Equal,
        (Some(ours), Some(theirs)) => ours.cmp(&theirs),
    }
}
