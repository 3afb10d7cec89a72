//! What an owner holds, which keys other owners have locked, and what a release leaves.
use crate::builders::{insert_waits, lock, lock_gap, lock_waits};
use lock_table::{Held, LockTable, Owner, Want};
use row_types::{Edge, Key, LockMode, R, Span, Value};
use std::alloc::Global;
use std::test::Fail;
use test_builders::key;

/// Whether this is the strongest lock that an owner has on a key of table 0.
fn holds(alloc: Global, locks: &LockTable, owner: u32, id: i64, wanted: Held) -> R<bool> {
    let key = key(alloc, id)?;
    Ok(locks.holds(Owner(owner), 0, &key) == wanted)
}

fn is_free_at_first(alloc: Global, locks: &mut LockTable) -> R<bool> {
    Ok(
        holds(alloc, locks, 1, 5, Held::Free)?
            && lock(alloc, locks, 1, 5, LockMode::Shared)?
            && holds(alloc, locks, 1, 5, Held::Shared)?,
    )
}

fn is_exclusive_then(alloc: Global, locks: &mut LockTable) -> R<bool> {
    Ok(
        lock(alloc, locks, 1, 5, LockMode::Exclusive)?
            && lock(alloc, locks, 1, 5, LockMode::Shared)?
            && holds(alloc, locks, 1, 5, Held::Exclusive)?
            && holds(alloc, locks, 2, 5, Held::Free)?
            && holds(alloc, locks, 1, 6, Held::Free)?,
    )
}

/// The strongest of an owner's locks on a key counts, in whichever order they were taken.
#[test]
fn the_strongest_lock_counts(rt: HostRuntime) -> Result<(), Fail> {
    let mut locks = LockTable::new(rt.alloc());
    assert!(rt; is_free_at_first(rt.alloc(), &mut locks)?);
    assert!(rt; is_exclusive_then(rt.alloc(), &mut locks)?);
    Ok(())
}

/// Whether a key of one number was found, or none where that is 0.
fn is_key(found: Option<&Key>, wanted: i64) -> bool {
    match found {
        None => wanted == 0,
        Some(key) => match key.as_slice() {
            [Value::Int(id)] => *id == wanted,
            _ => false,
        },
    }
}

/// Whether others have locked these keys of table 0 on both sides of the edge behind key 20.
fn is_between(alloc: Global, locks: &LockTable, owner: u32, below: i64, above: i64) -> R<bool> {
    let edge = Edge::After(key(alloc, 20)?);
    let before = is_key(locks.foreign_prev(Owner(owner), 0, &edge), below);
    let past = is_key(locks.foreign_next(Owner(owner), 0, &edge), above);
    Ok(before && past)
}

/// Owner 2 takes 10, 20 and 30, owner 1 takes 40 and a gap, owner 3 takes 25.
fn locks_of_three(alloc: Global, locks: &mut LockTable) -> R<bool> {
    Ok(
        lock(alloc, locks, 2, 30, LockMode::Exclusive)?
            && lock(alloc, locks, 1, 40, LockMode::Exclusive)?
            && lock(alloc, locks, 2, 10, LockMode::Exclusive)?
            && lock(alloc, locks, 3, 25, LockMode::Exclusive)?
            && lock(alloc, locks, 2, 20, LockMode::Exclusive)?
            && lock_gap(alloc, locks, 1, 20, 24)?,
    )
}

fn keys_of_others(alloc: Global, locks: &LockTable) -> R<bool> {
    Ok(
        is_between(alloc, locks, 1, 20, 25)?
            && is_between(alloc, locks, 2, 0, 25)?
            && is_between(alloc, locks, 3, 20, 30)?
            && is_between(alloc, locks, 4, 20, 25)?,
    )
}

fn keys_left(alloc: Global, locks: &mut LockTable) -> R<bool> {
    Ok(
        is_between(alloc, locks, 4, 0, 25)?
            && is_between(alloc, locks, 3, 0, 40)?
            && holds(alloc, locks, 2, 10, Held::Free)?
            && holds(alloc, locks, 1, 40, Held::Exclusive)?
            && lock(alloc, locks, 1, 10, LockMode::Exclusive)?,
    )
}

/// Other owners' locked keys beside an edge, where one's own and gaps don't count; a release takes all
/// that its owner holds, and nothing else.
#[test]
fn keys_of_others_beside_an_edge(rt: HostRuntime) -> Result<(), Fail> {
    let mut locks = LockTable::new(rt.alloc());
    assert!(rt; locks_of_three(rt.alloc(), &mut locks)?);
    assert!(rt; keys_of_others(rt.alloc(), &locks)?);
    locks.release(Owner(2));
    assert!(rt; keys_left(rt.alloc(), &mut locks)?);
    Ok(())
}

/// Takes two wants by one call, a gap and the key above it.
fn lock_both(locks: &mut LockTable, owner: u32, gap: Span, record: Key) -> R<bool> {
    let gap = Want::OnGap { span: gap };
    let record = Want::OnKey {
        key: record,
        mode: LockMode::Exclusive,
    };
    let is_over = locks.excluder(Owner(owner), 0, &gap).is_none();
    match locks.excluder(Owner(owner), 0, &record) {
        None if is_over => {
            locks.take(Owner(owner), 0, gap, Some(record))?;
            Ok(true)
        }
        _ => Ok(false),
    }
}

/// Takes the gap between two numbers and the upper one.
fn lock_next_key(
    alloc: Global,
    locks: &mut LockTable,
    owner: u32,
    below: i64,
    above: i64,
) -> R<bool> {
    let lo = Edge::After(key(alloc, below)?);
    let hi = Edge::Before(key(alloc, above)?);
    let gap = Span { lo, hi };
    let record = key(alloc, above)?;
    lock_both(locks, owner, gap, record)
}

fn two_next_keys(alloc: Global, locks: &mut LockTable) -> R<bool> {
    locks.reserve()?;
    Ok(
        lock_next_key(alloc, locks, 1, 10, 20)?
            && !lock_next_key(alloc, locks, 2, 5, 20)?
            && lock_next_key(alloc, locks, 2, 20, 30)?,
    )
}

fn both_are_held(alloc: Global, locks: &LockTable) -> R<bool> {
    Ok(
        holds(alloc, locks, 1, 20, Held::Exclusive)?
            && insert_waits(alloc, locks, 3, 0, 15, 1)?
            && insert_waits(alloc, locks, 1, 0, 25, 2)?
            && lock_waits(alloc, locks, 3, 30, LockMode::Shared, 2)?,
    )
}

/// A gap and a key are taken by one call, both or neither.
#[test]
fn both_are_taken(rt: HostRuntime) -> Result<(), Fail> {
    let mut locks = LockTable::new(rt.alloc());
    assert!(rt; two_next_keys(rt.alloc(), &mut locks)?);
    assert!(rt; both_are_held(rt.alloc(), &locks)?);
    Ok(())
}
