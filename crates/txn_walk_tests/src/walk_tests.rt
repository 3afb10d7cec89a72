//! The visits of walks.
use crate::builders::{LiveTable, Place, Sample, is_next, live_table, visit_at, visit_behind};
use ptc_statement::Op;
use row_types::{LockMode, R};
use std::alloc::Global;
use std::test::Fail;

/// A CHECKSUM's first visit takes 10 and the gap below it.
fn begins_below_ten(alloc: Global, live: &LiveTable) -> R<bool> {
    let below = Some((Place::Low, Place::Before(10)));
    let wanted = visit_at(below, 10, LockMode::Shared, false);
    is_next(alloc, live, 1, Sample::Checksum, Place::Low, wanted)
}

/// From key 20 on an owner's CHECKSUM comes to this key, and takes the gap before it.
fn goes_from_twenty(alloc: Global, live: &LiveTable, owner: u32, id: i64) -> R<bool> {
    let between = Some((Place::After(20), Place::Before(id)));
    let wanted = visit_at(between, id, LockMode::Shared, false);
    is_next(
        alloc,
        live,
        owner,
        Sample::Checksum,
        Place::After(20),
        wanted,
    )
}

/// Its last visit takes the gap behind 30.
fn ends_behind_thirty(alloc: Global, live: &LiveTable) -> R<bool> {
    let behind = Some((Place::After(30), Place::High));
    let wanted = visit_behind(behind, Place::High);
    is_next(alloc, live, 1, Sample::Checksum, Place::After(30), wanted)
}

fn checksum_visits(alloc: Global, live: &LiveTable) -> R<bool> {
    Ok(
        begins_below_ten(alloc, live)?
            && goes_from_twenty(alloc, live, 1, 25)?
            && goes_from_twenty(alloc, live, 2, 30)?
            && !goes_from_twenty(alloc, live, 2, 25)?
            && ends_behind_thirty(alloc, live)?,
    )
}

/// Live keys are stops, and so is a key that another owner has locked; one's own without a row is none.
#[test]
fn a_checksum_walks_the_stops(rt: HostRuntime) -> Result<(), Fail> {
    let live = live_table(rt.alloc())?;
    assert!(rt; checksum_visits(rt.alloc(), &live)?);
    Ok(())
}

/// Where a walk begins exactly at its stop there is no gap before it.
fn begins_at_its_stop(alloc: Global, live: &LiveTable) -> R<bool> {
    let wanted = visit_at(None, 20, LockMode::Exclusive, true);
    let sample = Sample::DeleteWhere(Op::Eq, 20);
    is_next(alloc, live, 1, sample, Place::Before(20), wanted)
}

/// A DELETE of an absent key takes the gap round it.
fn takes_the_gap_alone(alloc: Global, live: &LiveTable) -> R<bool> {
    let round = Some((Place::After(10), Place::Before(20)));
    let wanted = visit_behind(round, Place::After(15));
    let sample = Sample::DeleteWhere(Op::Eq, 15);
    is_next(alloc, live, 1, sample, Place::Before(15), wanted)
}

/// A DELETE that is done up to an edge visits key 20, with the gap back to key 10.
fn visits_twenty(alloc: Global, live: &LiveTable, op: Op, id: i64, ends: bool) -> R<bool> {
    let front = Some((Place::After(10), Place::Before(20)));
    let wanted = visit_at(front, 20, LockMode::Exclusive, ends);
    is_next(
        alloc,
        live,
        1,
        Sample::DeleteWhere(op, id),
        Place::After(14),
        wanted,
    )
}

fn delete_visits(alloc: Global, live: &LiveTable) -> R<bool> {
    Ok(
        begins_at_its_stop(alloc, live)?
            && takes_the_gap_alone(alloc, live)?
            && visits_twenty(alloc, live, Op::Gt, 14, false)?
            && visits_twenty(alloc, live, Op::Le, 20, true)?,
    )
}

/// A gap goes back to the stop before the cursor; at the greatest key of its reach a walk ends.
#[test]
fn walks_of_part_of_a_table(rt: HostRuntime) -> Result<(), Fail> {
    let live = live_table(rt.alloc())?;
    assert!(rt; delete_visits(rt.alloc(), &live)?);
    Ok(())
}

fn reads_in_mode(alloc: Global, live: &LiveTable, mode: LockMode) -> R<bool> {
    let below = Some((Place::Low, Place::Before(10)));
    let wanted = visit_at(below, 10, mode, false);
    is_next(alloc, live, 1, Sample::Read(mode), Place::Low, wanted)
}

fn read_visits(alloc: Global, live: &LiveTable) -> R<bool> {
    Ok(
        reads_in_mode(alloc, live, LockMode::Shared)?
            && reads_in_mode(alloc, live, LockMode::Exclusive)?,
    )
}

/// A locking read takes locks in its own mode.
#[test]
fn locking_reads(rt: HostRuntime) -> Result<(), Fail> {
    let live = live_table(rt.alloc())?;
    assert!(rt; read_visits(rt.alloc(), &live)?);
    Ok(())
}
