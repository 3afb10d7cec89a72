//! Copies of each kind of want, and which are the same.
use crate::builders::{insert_at, on_gap, on_key};
use lock_table::{Held, Holding, Owner, Want};
use row_types::{LockMode, R};
use std::alloc::Global;
use std::test::Fail;

/// Whether a want is the same as its copy, and not as another.
fn is_copied(alloc: Global, want: Want, other: Want) -> R<bool> {
    let copy = want.copy(alloc)?;
    Ok(copy.same(&want) && !copy.same(&other))
}

fn locks_are_copied(alloc: Global) -> R<bool> {
    let shared = on_key(alloc, 5, LockMode::Shared)?;
    let exclusive = on_key(alloc, 5, LockMode::Exclusive)?;
    is_copied(alloc, shared, exclusive)
}

fn gaps_are_copied(alloc: Global) -> R<bool> {
    let gap = on_gap(alloc, 5, 9)?;
    let other = on_gap(alloc, 5, 8)?;
    is_copied(alloc, gap, other)
}

fn inserts_are_copied(alloc: Global) -> R<bool> {
    let insert = insert_at(alloc, 5)?;
    let other = on_key(alloc, 5, LockMode::Exclusive)?;
    is_copied(alloc, insert, other)
}

fn holding_is_copied(alloc: Global) -> R<bool> {
    let want = insert_at(alloc, 5)?;
    let holding = Holding {
        owner: Owner(1),
        table: 2,
        want,
    };
    let copy = holding.copy(alloc)?;
    Ok(copy.same(&holding) && copy.table == 2)
}

#[test]
fn wants_are_copied(rt: HostRuntime) -> Result<(), Fail> {
    assert!(rt; locks_are_copied(rt.alloc())?);
    assert!(rt; gaps_are_copied(rt.alloc())?);
    assert!(rt; inserts_are_copied(rt.alloc())?);
    assert!(rt; holding_is_copied(rt.alloc())?);
    Ok(())
}

#[test]
fn owners_are_copied(rt: HostRuntime) -> Result<(), Fail> {
    let owner = Owner(4).copy(rt.alloc())?;
    assert!(rt; owner.same(&Owner(4)) && !owner.same(&Owner(5)));
    let held = Held::Exclusive.copy(rt.alloc())?;
    assert!(rt; held.same(&Held::Exclusive) && !held.same(&Held::Shared));
    Ok(())
}
