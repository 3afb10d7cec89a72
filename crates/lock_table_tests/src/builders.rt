//! Locks that are taken where nobody excludes them, and whom wants wait for.
use lock_table::{LockTable, Owner, Want};
use row_types::{Edge, LockMode, R, Span};
use std::alloc::Global;
use test_builders::key;

/// A lock on a key.
pub(crate) fn on_key(alloc: Global, id: i64, mode: LockMode) -> R<Want> {
    Ok(Want::OnKey {
        key: key(alloc, id)?,
        mode,
    })
}

/// A lock on the gap between two numbers, neither of them in it.
pub(crate) fn on_gap(alloc: Global, below: i64, above: i64) -> R<Want> {
    let lo = Edge::After(key(alloc, below)?);
    let hi = Edge::Before(key(alloc, above)?);
    Ok(Want::OnGap {
        span: Span { lo, hi },
    })
}

/// To put a row in at a key.
pub(crate) fn insert_at(alloc: Global, id: i64) -> R<Want> {
    Ok(Want::InsertAt {
        key: key(alloc, id)?,
    })
}

/// Takes a lock on a key of table 0: whether nobody excludes it.
pub(crate) fn lock(
    alloc: Global,
    locks: &mut LockTable,
    owner: u32,
    id: i64,
    mode: LockMode,
) -> R<bool> {
    let key = key(alloc, id)?;
    let want = Want::OnKey { key, mode };
    match locks.excluder(Owner(owner), 0, &want) {
        Some(_) => Ok(false),
        None => {
            locks.take(Owner(owner), 0, want, None)?;
            Ok(true)
        }
    }
}

/// Takes a gap lock on table 0: whether nobody excludes it.
pub(crate) fn lock_gap(
    alloc: Global,
    locks: &mut LockTable,
    owner: u32,
    below: i64,
    above: i64,
) -> R<bool> {
    let lo = Edge::After(key(alloc, below)?);
    let hi = Edge::Before(key(alloc, above)?);
    let want = Want::OnGap {
        span: Span { lo, hi },
    };
    match locks.excluder(Owner(owner), 0, &want) {
        Some(_) => Ok(false),
        None => {
            locks.take(Owner(owner), 0, want, None)?;
            Ok(true)
        }
    }
}

/// Whether a want of an owner on a table waits for this one, or for nobody where that is 0.
fn waits(locks: &LockTable, owner: u32, table: u32, want: &Want, by: u32) -> bool {
    match locks.excluder(Owner(owner), table, want) {
        None => by == 0,
        Some(other) => other.0 == by,
    }
}

/// Whether a lock on a key waits so.
pub(crate) fn lock_waits(
    alloc: Global,
    locks: &LockTable,
    owner: u32,
    id: i64,
    mode: LockMode,
    by: u32,
) -> R<bool> {
    let want = on_key(alloc, id, mode)?;
    Ok(waits(locks, owner, 0, &want, by))
}

/// Whether a row that is put in at a key waits so.
pub(crate) fn insert_waits(
    alloc: Global,
    locks: &LockTable,
    owner: u32,
    table: u32,
    id: i64,
    by: u32,
) -> R<bool> {
    let want = insert_at(alloc, id)?;
    Ok(waits(locks, owner, table, &want, by))
}
