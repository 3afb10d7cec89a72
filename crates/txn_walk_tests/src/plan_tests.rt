//! Visits of single rows, statements that visit none, and copies of plans.
use crate::builders::{
    LiveTable, Place, Sample, Visit, is_next, live_table, plan, visit_at, visit_behind,
};
use row_types::{LockMode, R};
use std::alloc::Global;
use std::test::Fail;

/// At a live key INSERT takes a shared lock and REPLACE an exclusive one.
fn locks_a_live_key(alloc: Global, live: &LiveTable, sample: Sample, mode: LockMode) -> R<bool> {
    let wanted = visit_at(None, 20, mode, true);
    is_next(alloc, live, 1, sample, Place::Before(20), wanted)
}

/// Elsewhere both put a row in.
fn puts_a_row_in(alloc: Global, live: &LiveTable, sample: Sample, id: i64) -> R<bool> {
    let wanted = Visit {
        gap: None,
        on_key: Some((id, LockMode::Exclusive)),
        insert: true,
        after: Place::After(id),
        ends: true,
    };
    is_next(alloc, live, 1, sample, Place::Before(id), wanted)
}

fn row_visits(alloc: Global, live: &LiveTable) -> R<bool> {
    Ok(
        locks_a_live_key(alloc, live, Sample::Insert(20), LockMode::Shared)?
            && locks_a_live_key(alloc, live, Sample::Replace(20), LockMode::Exclusive)?
            && puts_a_row_in(alloc, live, Sample::Insert(21), 21)?
            && puts_a_row_in(alloc, live, Sample::Replace(25), 25)?,
    )
}

/// Rows at live keys and at others, one of which another owner has locked.
#[test]
fn visits_of_single_rows(rt: HostRuntime) -> Result<(), Fail> {
    let live = live_table(rt.alloc())?;
    assert!(rt; row_visits(rt.alloc(), &live)?);
    Ok(())
}

fn takes_nothing(alloc: Global, live: &LiveTable, sample: Sample) -> R<bool> {
    let wanted = visit_behind(None, Place::Low);
    is_next(alloc, live, 1, sample, Place::Low, wanted)
}

fn visits_of_no_keys(alloc: Global, live: &LiveTable) -> R<bool> {
    Ok(
        takes_nothing(alloc, live, Sample::ReadNothing)?
            && takes_nothing(alloc, live, Sample::ClearChecks)?,
    )
}

/// A statement that walks no keys takes nothing.
#[test]
fn no_keys_to_walk(rt: HostRuntime) -> Result<(), Fail> {
    let live = live_table(rt.alloc())?;
    assert!(rt; visits_of_no_keys(rt.alloc(), &live)?);
    Ok(())
}

/// Whether a sample's first plan is the same as its copy.
fn is_copied(alloc: Global, live: &LiveTable, sample: Sample) -> R<bool> {
    let plan = plan(alloc, live, 1, sample, Place::Low)?;
    let copy = plan.copy(alloc)?;
    Ok(copy.same(&plan))
}

/// Whether two samples have the same first plan.
fn are_same(alloc: Global, live: &LiveTable, first: Sample, second: Sample) -> R<bool> {
    let ours = plan(alloc, live, 1, first, Place::Low)?;
    let theirs = plan(alloc, live, 1, second, Place::Low)?;
    Ok(ours.same(&theirs))
}

fn plans_are_the_same(alloc: Global, live: &LiveTable) -> R<bool> {
    let read = Sample::Read(LockMode::Shared);
    Ok(
        is_copied(alloc, live, Sample::Checksum)?
            && is_copied(alloc, live, Sample::ReadNothing)?
            && are_same(alloc, live, Sample::Checksum, read)?
            && !are_same(
                alloc,
                live,
                Sample::Checksum,
                Sample::Read(LockMode::Exclusive),
            )?
            && !are_same(alloc, live, Sample::Insert(21), Sample::Insert(22))?,
    )
}

#[test]
fn plans_are_copied(rt: HostRuntime) -> Result<(), Fail> {
    let live = live_table(rt.alloc())?;
    assert!(rt; plans_are_the_same(rt.alloc(), &live)?);
    Ok(())
}
