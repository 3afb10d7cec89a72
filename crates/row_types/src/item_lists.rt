ghost use Rattle.std.specs.Prelude.{◌≡◌, ◌<◌, ◌^◌, ◌↔◌, List, [], ◌∷◌, ◌++◌, length, IsTrue, IfOk, OnOk, OnErr};

use crate::memory::R;
use std::alloc::Global;
use std::marker::Model;

/// What can be copied and compared, as all its parts can.
pub trait Plain: Sized + Drop {
    fn copy(&self, alloc: Global) -> R<Self>
        ensures { IfOk result (λ copy. copy ≡ self.now) };

    fn same(&self, other: &Self) -> bool
        ensures { IsTrue result ↔ (self.now ≡ other.now) };

    /// Copies of items, with the reserved capacity that they need and no more.
    fn copies(alloc: Global, items: &[Self]) -> R<Vec<Self>>
        ensures { IfOk result (λ copies. copies.items ≡ items.now) }
    {
        let mut copies = Vec::with_capacity(alloc, items.len())?;
        for item in items {
            copies.push(item.copy(alloc)?)?;
        }
        Ok(copies)
    }

    /// Whether two slices have the same items.
    fn all_same(ours: &[Self], theirs: &[Self]) -> bool
        ensures { IsTrue result ↔ (ours.now ≡ theirs.now) }
    {
        if ours.len() != theirs.len() {
            return false;
        }
        for i in 0..ours.len() {
            if !ours[i].same(&theirs[i]) {
                return false;
            }
        }
        true
    }
}

/// A list of items.
#[derive(Debug, Drop)]
pub struct Items<T> {
    pub items: Vec<T>,
}

impl<T> Model for Items<T> {
    ghost use Rattle.std.specs.Prelude.{List};
    ghost use Rattle.std.specs.Coded.{coded_list};

    ghost Value = { List T };

    ghost coded = { coded_list T.code };

    ghost view = { λ list. list.items.items };
}

impl<T> Items<T> {
    /// An empty list.
    pub fn new(alloc: Global) -> Items<T>
        ensures { result ≡ [] }
    {
        Items {
            items: Vec::new(alloc),
        }
    }

    pub fn as_slice(&self) -> &[T]
        ensures { result.now ≡ self.now }
    {
        self.items.as_slice()
    }

    pub fn len(&self) -> usize
        ensures value { result ≡ length self.now }
        ensures bound { result < 2 ^ 63 }
    {
        self.items.len()
    }

    pub fn is_empty(&self) -> bool
        ensures { IsTrue result ↔ (self.now ≡ []) }
    {
        self.items.is_empty()
    }
}

impl<T: Drop> Items<T> {
    /// Puts an item at the end; a refusal leaves the list as it was.
    pub fn push(&mut self, item: T) -> R<()>
        ensures ok { OnOk result (self.new ≡ self.old ++ item ∷ []) }
        ensures err { OnErr result (self.new ≡ self.old) }
    {
        self.items.push(item)?;
        Ok(())
    }
}

impl<T: Plain> Items<T> {
    /// A copy, with the reserved capacity that it needs and no more.
    pub fn copy(&self, alloc: Global) -> R<Items<T>>
        ensures { IfOk result (λ copy. copy ≡ self.now) }
    {
        Ok(Items {
            items: T::copies(alloc, self.items.as_slice())?,
        })
    }

    pub fn same(&self, other: &Items<T>) -> bool
        ensures { IsTrue result ↔ (self.now ≡ other.now) }
    {
        T::all_same(self.items.as_slice(), other.items.as_slice())
    }
}

impl<T: Plain> Plain for Items<T> {
    fn copy(&self, alloc: Global) -> R<Items<T>> {
        Ok(Items {
            items: T::copies(alloc, self.items.as_slice())?,
        })
    }

    fn same(&self, other: &Items<T>) -> bool {
        T::all_same(self.items.as_slice(), other.items.as_slice())
    }
}
