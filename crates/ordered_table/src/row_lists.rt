ghost use Rattle.std.specs.Prelude.{◌≡◌, ◌≤◌, ◌<◌, ◌+◌, slice_index_or, slice_get, slice_set, option_copied, vec_len, vec_capacity};
ghost use Rattle.std.specs.List.{insert};

use row_types::Row;
use std::mem;

/// The row of this number, counted from 0.
pub(crate) fn item_at(rows: &[Row], index: u64) -> Option<&Row>
    ensures { option_copied result ≡ slice_get rows.now index }
{
    match rows.get(index as usize) {
        None => None,
        Some(row) => Some(row),
    }
}

/// Puts a row in the place of another and hands that back.
pub(crate) fn exchange(rows: &mut Vec<Row>, index: usize, row: Row) -> Row
    requires { index < vec_len rows.old }
    ensures replaced { result ≡ slice_index_or rows.old.items index result }
    ensures items { rows.new.items ≡ slice_set rows.old.items index row }
    ensures len { vec_len rows.new ≡ vec_len rows.old }
    ensures capacity { vec_capacity rows.new ≡ vec_capacity rows.old }
{
    mem::replace(&mut rows[index], row)
}

/// Puts a row in before another, where there is reserved capacity for it.
pub(crate) fn put_in(rows: &mut Vec<Row>, index: usize, row: Row)
    requires within { index ≤ vec_len rows.old }
    requires room { vec_len rows.old < vec_capacity rows.old }
    ensures items { rows.new.items ≡ insert rows.old.items index row }
    ensures len { vec_len rows.new ≡ vec_len rows.old + 1 }
    ensures capacity { vec_capacity rows.old ≤ vec_capacity rows.new }
{
    match rows.insert(index, row) {
        Ok(()) => {}
        Err(_) => unreachable!(),
    }
}
