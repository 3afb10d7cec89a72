//! Which locks exclude which, and whom an owner waits for.
use crate::builders::{insert_waits, lock, lock_gap, lock_waits};
use lock_table::LockTable;
use row_types::{LockMode, R};
use std::alloc::Global;
use std::test::Fail;

/// What `SELECT .. WHERE id > 100 FOR UPDATE` takes first of the rows 90 and 102.
fn read_past_a_hundred(alloc: Global, locks: &mut LockTable) -> R<bool> {
    Ok(lock_gap(alloc, locks, 1, 90, 102)? && lock(alloc, locks, 1, 102, LockMode::Exclusive)?)
}

fn keeps_rows_out(alloc: Global, locks: &LockTable) -> R<bool> {
    Ok(
        insert_waits(alloc, locks, 2, 0, 101, 1)?
            && insert_waits(alloc, locks, 2, 0, 102, 1)?
            && insert_waits(alloc, locks, 2, 0, 90, 0)?
            && insert_waits(alloc, locks, 2, 1, 101, 0)?
            && insert_waits(alloc, locks, 1, 0, 101, 0)?,
    )
}

/// Another's INSERT of 101 waits (MySQL Reference Manual, "Phantom Rows").
#[test]
fn a_gap_keeps_rows_out(rt: HostRuntime) -> Result<(), Fail> {
    let mut locks = LockTable::new(rt.alloc());
    assert!(rt; read_past_a_hundred(rt.alloc(), &mut locks)?);
    assert!(rt; keeps_rows_out(rt.alloc(), &locks)?);
    Ok(())
}

fn two_gaps_and_a_key(alloc: Global, locks: &mut LockTable) -> R<bool> {
    Ok(
        lock_gap(alloc, locks, 2, 10, 20)?
            && lock_gap(alloc, locks, 1, 10, 20)?
            && lock(alloc, locks, 3, 15, LockMode::Exclusive)?,
    )
}

fn each_waits_for_the_other(alloc: Global, locks: &LockTable) -> R<bool> {
    Ok(
        insert_waits(alloc, locks, 1, 0, 11, 2)?
            && insert_waits(alloc, locks, 2, 0, 11, 1)?
            && insert_waits(alloc, locks, 3, 0, 11, 1)?,
    )
}

/// Two owners hold gap locks over the same keys, and each keeps the other's rows out.
#[test]
fn gaps_exclude_no_gap(rt: HostRuntime) -> Result<(), Fail> {
    let mut locks = LockTable::new(rt.alloc());
    assert!(rt; two_gaps_and_a_key(rt.alloc(), &mut locks)?);
    assert!(rt; each_waits_for_the_other(rt.alloc(), &locks)?);
    Ok(())
}

fn two_shared_and_one_exclusive(alloc: Global, locks: &mut LockTable) -> R<bool> {
    Ok(
        lock(alloc, locks, 7, 5, LockMode::Shared)?
            && lock(alloc, locks, 3, 5, LockMode::Shared)?
            && lock(alloc, locks, 5, 6, LockMode::Exclusive)?,
    )
}

fn exclusive_waits_for_shared(alloc: Global, locks: &LockTable) -> R<bool> {
    Ok(
        lock_waits(alloc, locks, 4, 5, LockMode::Exclusive, 3)?
            && lock_waits(alloc, locks, 3, 5, LockMode::Exclusive, 7)?
            && lock_waits(alloc, locks, 4, 5, LockMode::Shared, 0)?,
    )
}

fn shared_waits_for_exclusive(alloc: Global, locks: &LockTable) -> R<bool> {
    Ok(
        lock_waits(alloc, locks, 4, 6, LockMode::Shared, 5)?
            && lock_waits(alloc, locks, 5, 6, LockMode::Exclusive, 0)?
            && lock_waits(alloc, locks, 4, 7, LockMode::Exclusive, 0)?,
    )
}

/// Shared locks go together, and an exclusive one waits for the least owner of one.
#[test]
fn shared_locks_go_together(rt: HostRuntime) -> Result<(), Fail> {
    let mut locks = LockTable::new(rt.alloc());
    assert!(rt; two_shared_and_one_exclusive(rt.alloc(), &mut locks)?);
    assert!(rt; exclusive_waits_for_shared(rt.alloc(), &locks)?);
    assert!(rt; shared_waits_for_exclusive(rt.alloc(), &locks)?);
    Ok(())
}
