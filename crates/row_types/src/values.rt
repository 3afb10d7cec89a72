ghost use Rattle.std.specs.Prelude.{◌≡◌, ◌↔◌, IsTrue, IfOk};
ghost use Rattle.row_types.specs.Order.{value_cmp};

use crate::byte_list::Bytes;
use crate::item_lists::Plain;
use crate::memory::R;
use std::alloc::Global;
use std::cmp::Ordering;

/// A value of a column: NULL, a number of 64 bits, or a text, which is its bytes.
#[derive(Debug, Drop)]
pub enum Value {
    Null,
    Int(i64),
    Text(Bytes),
}

impl Value {
    pub fn copy(&self, alloc: Global) -> R<Value>
        ensures { IfOk result (λ copy. copy ≡ self.now) }
    {
        match self {
            Value::Null => Ok(Value::Null),
            Value::Int(number) => Ok(Value::Int(*number)),
            Value::Text(text) => Ok(Value::Text(text.copy(alloc)?)),
        }
    }

    pub fn same(&self, other: &Value) -> bool
        ensures { IsTrue result ↔ (self.now ≡ other.now) }
    {
        match (self, other) {
            (Value::Null, Value::Null) => true,
            (Value::Int(ours), Value::Int(theirs)) => ours == theirs,
            (Value::Text(ours), Value::Text(theirs)) => ours.same(theirs),
            _ => false,
        }
    }

    /// The order of values: NULL, then numbers by value, then texts by their bytes.
    pub fn compare(&self, other: &Value) -> Ordering
        ensures { result ≡ value_cmp self.now other.now }
    {
        match (self, other) {
            (Value::Null, Value::Null) => Ordering::Equal,
            (Value::Null, _) => Ordering::Less,
            (Value::Int(_), Value::Null) => Ordering::Greater,
            (Value::Int(ours), Value::Int(theirs)) => ours.cmp(theirs),
            (Value::Int(_), Value::Text(_)) => Ordering::Less,
            (Value::Text(ours), Value::Text(theirs)) => ours.as_slice().cmp(theirs.as_slice()),
            (Value::Text(_), _) => Ordering::Greater,
        }
    }
}

impl Plain for Value {
    fn copy(&self, alloc: Global) -> R<Value> {
        Value::copy(self, alloc)
    }

    fn same(&self, other: &Value) -> bool {
        Value::same(self, other)
    }
}
