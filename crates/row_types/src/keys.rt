ghost use Rattle.std.specs.Prelude.{◌≡◌, ◌<◌, ◌^◌, ◌↔◌, List, [], ◌∷◌, ◌++◌, ℕ, length, IsTrue, IfOk, OnOk, OnErr};
ghost use Rattle.row_types.specs.Order.{key_cmp};

use crate::item_lists::Plain;
use crate::memory::R;
use crate::values::Value;
use std::alloc::Global;
use std::cmp::Ordering;
use std::marker::Model;

/// The values of the key columns: one or two, none of them NULL.
#[derive(Debug, Drop)]
pub struct Key {
    pub items: Vec<Value>,
}

impl Model for Key {
    ghost use Rattle.std.specs.Prelude.{List, ℕ};
    ghost use Rattle.row_types.specs.declared.values.Value.{Value as ColumnValue};

    ghost Value = { List ColumnValue };

    ghost view = { λ list. list.items.items };
}

impl Key {
    /// An empty list.
    pub fn new(alloc: Global) -> Key
        ensures { result ≡ [] }
    {
        Key {
            items: Vec::new(alloc),
        }
    }

    pub fn as_slice(&self) -> &[Value]
        ensures { result.now ≡ self.now }
    {
        self.items.as_slice()
    }

    pub fn len(&self) -> usize
        ensures value { result ≡ length self.now }
        ensures bound { result < 2 ^ 63 }
    {
        self.items.len()
    }

    pub fn is_empty(&self) -> bool
        ensures { IsTrue result ↔ (self.now ≡ []) }
    {
        self.items.is_empty()
    }

    /// Puts an item at the end; a refusal leaves the list as it was.
    pub fn push(&mut self, item: Value) -> R<()>
        ensures ok { OnOk result (self.new ≡ self.old ++ item ∷ []) }
        ensures err { OnErr result (self.new ≡ self.old) }
    {
        self.items.push(item)?;
        Ok(())
    }

    pub fn copy(&self, alloc: Global) -> R<Key>
        ensures { IfOk result (λ copy. copy ≡ self.now) }
    {
        Key::from_values(alloc, self.items.as_slice())
    }

    pub fn same(&self, other: &Key) -> bool
        ensures { IsTrue result ↔ (self.now ≡ other.now) }
    {
        Value::all_same(self.items.as_slice(), other.items.as_slice())
    }

    /// The key of these values.
    pub fn from_values(alloc: Global, values: &[Value]) -> R<Key>
        ensures { IfOk result (λ key. key ≡ values.now) }
    {
        Ok(Key {
            items: Value::copies(alloc, values)?,
        })
    }

    /// Compares column by column; a proper prefix is less.
    pub fn compare(&self, other: &Key) -> Ordering
        ensures { result ≡ key_cmp self.now other.now }
    {
        compare_values(self.as_slice(), other.as_slice())
    }
}

/// The order of keys, on the values of two keys.
pub fn compare_values(ours: &[Value], theirs: &[Value]) -> Ordering
    ensures { result ≡ key_cmp ours.now theirs.now }
{
    let (mut ours, mut theirs) = (ours, theirs);
    while let Some((first, rest)) = ours.split_first() {
        let Some((other_first, other_rest)) = theirs.split_first() else {
            return Ordering::Greater;
        };
        let ordering = first.compare(other_first);
        if ordering.is_ne() {
            return ordering;
        }
        ours = rest;
        theirs = other_rest;
    }
    if theirs.is_empty() {
        Ordering::Equal
    } else {
        Ordering::Less
    }
}
