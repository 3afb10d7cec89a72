ghost use Rattle.std.specs.Prelude.{◌≡◌, ◌↔◌, IsTrue, IfOk};

use row_types::{Items, Key, LockMode, Plain, R, Span};
use std::alloc::Global;

/// Who holds locks: the number of a session, an applier or a tool.
#[derive(Clone, Copy, Debug, PartialEq, Eq)]
pub struct Owner(pub u32);

/// Owners, as they wait for one another.
pub type Owners = Items<Owner>;

/// What a statement wants: a record lock, a gap lock, or to put a row in at a key.
/// Source: MySQL Reference Manual, "InnoDB Locking".
#[derive(Debug, Drop)]
pub enum Want {
    /// A record lock, on a key whether it has a row or not.
    OnKey { key: Key, mode: LockMode },
    /// A gap lock, on the keys of a span.
    OnGap { span: Span },
    /// To put a row in at a key. It is asked for, and never held.
    InsertAt { key: Key },
}

/// The strongest lock that an owner has on a key.
#[derive(Clone, Copy, Debug, PartialEq, Eq)]
pub enum Held {
    Free,
    Shared,
    Exclusive,
}

/// What an owner holds on the table of a number, counted from 0.
#[derive(Debug, Drop)]
pub struct Holding {
    pub owner: Owner,
    pub table: u32,
    pub want: Want,
}

impl Owner {
    pub fn copy(&self, _alloc: Global) -> R<Owner>
        ensures { IfOk result (λ copy. copy ≡ self.now) }
    {
        Ok(*self)
    }

    pub fn same(&self, other: &Owner) -> bool
        ensures { IsTrue result ↔ (self.now ≡ other.now) }
    {
        *self == *other
    }
}

impl Want {
    pub fn copy(&self, alloc: Global) -> R<Want>
        ensures { IfOk result (λ copy. copy ≡ self.now) }
    {
        match self {
            Want::OnKey { key, mode } => Ok(Want::OnKey {
                key: key.copy(alloc)?,
                mode: *mode,
            }),
            Want::OnGap { span } => Ok(Want::OnGap {
                span: span.copy(alloc)?,
            }),
            Want::InsertAt { key } => Ok(Want::InsertAt {
                key: key.copy(alloc)?,
            }),
        }
    }

    pub fn same(&self, other: &Want) -> bool
        ensures { IsTrue result ↔ (self.now ≡ other.now) }
    {
        match (self, other) {
            (
                Want::OnKey { key, mode },
                Want::OnKey {
                    key: other_key,
                    mode: other_mode,
                },
            ) => key.same(other_key) && *mode == *other_mode,
            (Want::OnGap { span }, Want::OnGap { span: other_span }) => span.same(other_span),
            (Want::InsertAt { key }, Want::InsertAt { key: other_key }) => key.same(other_key),
            _ => false,
        }
    }
}

impl Held {
    pub fn copy(&self, _alloc: Global) -> R<Held>
        ensures { IfOk result (λ copy. copy ≡ self.now) }
    {
        Ok(*self)
    }

    pub fn same(&self, other: &Held) -> bool
        ensures { IsTrue result ↔ (self.now ≡ other.now) }
    {
        *self == *other
    }
}

impl Holding {
    pub fn copy(&self, alloc: Global) -> R<Holding>
        ensures { IfOk result (λ copy. copy ≡ self.now) }
    {
        Ok(Holding {
            owner: self.owner,
            table: self.table,
            want: self.want.copy(alloc)?,
        })
    }

    pub fn same(&self, other: &Holding) -> bool
        ensures { IsTrue result ↔ (self.now ≡ other.now) }
    {
        self.owner == other.owner && self.table == other.table && self.want.same(&other.want)
    }
}

impl Plain for Owner {
    fn copy(&self, alloc: Global) -> R<Owner> {
        Owner::copy(self, alloc)
    }

    fn same(&self, other: &Owner) -> bool {
        Owner::same(self, other)
    }
}
