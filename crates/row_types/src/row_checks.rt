ghost use Rattle.std.specs.Prelude.{◌≡◌, ◌<◌, ◌^◌, Some, OkIff, IfOk, IfErr, length};
ghost use Rattle.std.specs.List.{AllByRecursion};
ghost use Rattle.row_types.specs.Fit.{RowFits, key_of};
ghost use Rattle.row_types.specs.Faults.{IsOfNumbers, clipped, value_fault, number_fault, text_fault, first_fault, row_fault, IsShort, TextIsShort};

use crate::byte_list::Bytes;
use crate::keys::Key;
use crate::memory::R;
use crate::row_faults::RowFault;
use crate::table_rows::Row;
use crate::table_schema::{Column, ColumnKind, Schema};
use crate::values::Value;
use std::alloc::Global;

/// The number of the column's kind that is nearest to this one; the kind is one of numbers.
/// Source: MySQL Reference Manual, "Out-of-Range and Overflow Handling", without strict mode.
pub fn clip(kind: &ColumnKind, number: i128) -> i64
    requires { IsOfNumbers kind.now }
    ensures { result ≡ clipped kind.now number }
{
    match kind {
        ColumnKind::Int => number.clamp(-2147483648, 2147483647) as i64,
        _ => number.clamp(-9223372036854775808, 9223372036854775807) as i64,
    }
}

impl Schema {
    /// Whether a row fits; else its first fault: a wrong number of values, then the first column
    /// whose value does not fit. Columns, values and the bytes of each text are fewer than 2^32.
    #[tactic(auto, using(crate::proofs::FaultLemmas::faultless_fits, crate::proofs::FaultLemmas::as_long))]
    pub fn check(&self, row: &Row) -> Result<(), RowFault>
        requires { IsShort self.now row.now }
        ensures fits { OkIff result (RowFits self.now row.now) tt }
        ensures fault { IfErr result (λ fault. row_fault self.now row.now ≡ Some fault) }
    {
        let (columns, values) = (self.columns.as_slice(), row.as_slice());
        if values.len() != columns.len() {
            return Err(RowFault::Arity {
                got: values.len() as u32,
                want: columns.len() as u32,
            });
        }
        match first_fault_of(columns, values) {
            None => Ok(()),
            Some(fault) => Err(fault),
        }
    }

    /// The key of a row that fits.
    pub fn key_of(&self, alloc: Global, row: &Row) -> R<Key>
        requires { RowFits self.now row.now }
        ensures { IfOk result (λ key. key ≡ key_of self.now row.now) }
    {
        Key::from_values(alloc, self.key_values(row))
    }

    /// The values of a row's key columns, as far as it has them.
    pub fn key_values<'a>(&self, row: &'a Row) -> &'a [Value]
        ensures { result.now ≡ key_of self.now row.now }
    {
        let values = row.as_slice();
        if values.len() <= self.key_len as usize {
            return values;
        }
        values.split_at(self.key_len as usize).0
    }
}

/// The first fault among as many values as columns, if there is one.
fn first_fault_of(columns: &[Column], values: &[Value]) -> Option<RowFault>
    requires len { length values.now ≡ length columns.now }
    requires fits { length values.now < 2 ^ 32 }
    requires texts { AllByRecursion TextIsShort values.now }
    ensures { result ≡ first_fault 0 columns.now values.now }
{
    for i in 0..values.len() {
        let fault = fault_of_value(i as u32, &columns[i], &values[i]);
        if fault.is_some() {
            return fault;
        }
    }
    None
}

/// What is wrong with a value in the column of this number, if anything.
fn fault_of_value(place: u32, column: &Column, value: &Value) -> Option<RowFault>
    requires { TextIsShort value.now }
    ensures { result ≡ value_fault place column.now value.now }
{
    match value {
        Value::Null => {
            if column.nullable {
                return None;
            }
            Some(RowFault::NullIn { column: place })
        }
        Value::Int(number) => fault_of_number(place, &column.kind, *number),
        Value::Text(text) => fault_of_text(place, &column.kind, text),
    }
}

fn fault_of_number(place: u32, kind: &ColumnKind, number: i64) -> Option<RowFault>
    ensures { result ≡ number_fault place kind.now number }
{
    match kind {
        ColumnKind::Text { .. } => Some(RowFault::Kind { column: place }),
        _ => {
            if clip(kind, number as i128).cmp(&number).is_eq() {
                return None;
            }
            Some(RowFault::OutOfRange {
                column: place,
                value: number,
            })
        }
    }
}

fn fault_of_text(place: u32, kind: &ColumnKind, text: &Bytes) -> Option<RowFault>
    requires { length text.now < 2 ^ 32 }
    ensures { result ≡ text_fault place kind.now text.now }
{
    match kind {
        ColumnKind::Text { max } => {
            if text.len() <= *max as usize {
                return None;
            }
            Some(RowFault::TooLong {
                column: place,
                len: text.len() as u32,
            })
        }
        _ => Some(RowFault::Kind { column: place }),
    }
}
