ghost use Rattle.std.specs.Prelude.{◌≡◌, ◌↔◌, IsTrue, IfOk};

use row_types::{Edge, Key, LockMode, R, Span};
use std::alloc::Global;

/// What the next visit of a statement takes and how far it comes. The visit takes both locks or neither.
#[derive(Debug, Drop)]
pub struct Plan {
    /// The keys of the gap lock, if it takes one.
    pub gap: Option<Span>,
    /// The key of the record lock and its mode, if it takes one.
    pub on_key: Option<(Key, LockMode)>,
    /// Whether its row is put in as a new one at the key: what others hold has to let it in there.
    pub insert: bool,
    /// The edge up to which the statement is done after the visit: the end of its reach where it ends.
    pub after: Edge,
    /// Whether the statement is done with it.
    pub ends: bool,
}

impl Plan {
    pub fn copy(&self, alloc: Global) -> R<Plan>
        ensures { IfOk result (λ copy. copy ≡ self.now) }
    {
        let gap = copy_gap(alloc, &self.gap)?;
        let on_key = copy_lock(alloc, &self.on_key)?;
        Ok(Plan {
            gap,
            on_key,
            insert: self.insert,
            after: self.after.copy(alloc)?,
            ends: self.ends,
        })
    }

    pub fn same(&self, other: &Plan) -> bool
        ensures { IsTrue result ↔ (self.now ≡ other.now) }
    {
        same_gap(&self.gap, &other.gap)
            && same_lock(&self.on_key, &other.on_key)
            && self.insert == other.insert
            && self.after.same(&other.after)
            && self.ends == other.ends
    }
}

fn copy_gap(alloc: Global, gap: &Option<Span>) -> R<Option<Span>>
    ensures { IfOk result (λ copy. copy ≡ gap.now) }
{
    match gap {
        None => Ok(None),
        Some(span) => Ok(Some(span.copy(alloc)?)),
    }
}

fn copy_lock(alloc: Global, lock: &Option<(Key, LockMode)>) -> R<Option<(Key, LockMode)>>
    ensures { IfOk result (λ copy. copy ≡ lock.now) }
{
    match lock {
        None => Ok(None),
        Some((key, mode)) => Ok(Some((key.copy(alloc)?, *mode))),
    }
}

fn same_gap(ours: &Option<Span>, theirs: &Option<Span>) -> bool
    ensures { IsTrue result ↔ (ours.now ≡ theirs.now) }
{
    match (ours, theirs) {
        (None, None) => true,
        (Some(span), Some(other)) => span.same(other),
        _ => false,
    }
}

fn same_lock(ours: &Option<(Key, LockMode)>, theirs: &Option<(Key, LockMode)>) -> bool
    ensures { IsTrue result ↔ (ours.now ≡ theirs.now) }
{
    match (ours, theirs) {
        (None, None) => true,
        (Some((key, mode)), Some((other_key, other_mode))) => {
            key.same(other_key) && *mode == *other_mode
        }
        _ => false,
    }
}
