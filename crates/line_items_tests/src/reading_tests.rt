//! Lines as a file has them.
use file_text::{LimitKind, Section};
use line_items::{Counts, LineReading, read_line};
use std::test::Fail;

fn counts_of(rt: HostRuntime) -> Result<Counts, Fail> {
    Ok(Counts {
        sessions: 2,
        locals: vec![in rt.alloc(); 0, 1, 16]?,
        scheduled: 10,
    })
}

fn is_whole(reading: &LineReading, count: usize) -> bool {
    match reading {
        LineReading::Whole(items) => items.len() == count,
        LineReading::Over(_) => false,
        LineReading::Misfit { place: _ } => false,
    }
}

fn is_misfit(reading: &LineReading, at: u32) -> bool {
    match reading {
        LineReading::Whole(_) => false,
        LineReading::Over(_) => false,
        LineReading::Misfit { place } => *place == at,
    }
}

fn is_over(reading: &LineReading, limit: LimitKind) -> bool {
    match reading {
        LineReading::Whole(_) => false,
        LineReading::Over(which) => *which == limit,
        LineReading::Misfit { place: _ } => false,
    }
}

#[test]
fn lines_are_read_whole(rt: HostRuntime) -> Result<(), Fail> {
    let counts = counts_of(rt)?;
    let table = read_line(
        rt.alloc(),
        Section::TableLines,
        &counts,
        b"table t(id BIGINT KEY , s VARCHAR ( 10 ) not null)".as_slice(),
    )?;
    assert!(rt; is_whole(&table, 15));
    let row = read_line(
        rt.alloc(),
        Section::RowLines,
        &counts,
        b"ROW * t (-5, 'it''s', null, 007)".as_slice(),
    )?;
    assert!(rt; is_whole(&row, 13));
    let session = read_line(
        rt.alloc(),
        Section::SessionLines,
        &counts,
        b"SESSION s3 ".as_slice(),
    )?;
    assert!(rt; is_whole(&session, 2));
    Ok(())
}

#[test]
fn the_first_misfit_is_told(rt: HostRuntime) -> Result<(), Fail> {
    let counts = counts_of(rt)?;
    let session = read_line(
        rt.alloc(),
        Section::SessionLines,
        &counts,
        b"SESSION  s2".as_slice(),
    )?;
    assert!(rt; is_misfit(&session, 11));
    let row = read_line(
        rt.alloc(),
        Section::RowLines,
        &counts,
        b"ROW source t (1 2)".as_slice(),
    )?;
    assert!(rt; is_misfit(&row, 17));
    let end = read_line(
        rt.alloc(),
        Section::PtcLines,
        &counts,
        b"PTC workload  ".as_slice(),
    )?;
    assert!(rt; is_misfit(&end, 13));
    let turns = read_line(
        rt.alloc(),
        Section::ScheduleLines,
        &counts,
        b"SCHEDULE r1.9*5".as_slice(),
    )?;
    assert!(rt; is_misfit(&turns, 13));
    Ok(())
}

#[test]
fn a_limit_is_told_before_a_misfit(rt: HostRuntime) -> Result<(), Fail> {
    let counts = counts_of(rt)?;
    let replicas = read_line(
        rt.alloc(),
        Section::ReplicaLines,
        &counts,
        b"REPLICAS 9 x".as_slice(),
    )?;
    assert!(rt; is_over(&replicas, LimitKind::Replicas));
    let turns = read_line(
        rt.alloc(),
        Section::ScheduleLines,
        &counts,
        b"SCHEDULE s1 c*20000000 x".as_slice(),
    )?;
    assert!(rt; is_over(&turns, LimitKind::Schedule));
    let local = read_line(
        rt.alloc(),
        Section::LocalLines,
        &counts,
        b"LOCAL r2.l1".as_slice(),
    )?;
    assert!(rt; is_over(&local, LimitKind::Locals));
    Ok(())
}
