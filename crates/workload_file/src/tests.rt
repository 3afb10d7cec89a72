//! Copies: each is the same as what it was made from, and not the same as another.
use crate::{Actor, Copies, Item, Schedule, Workload};
use ptc_statement::Scripts;
use row_types::{R, Row, Rows, SchemaList, Schemas, Tables, Value};
use std::alloc::Global;
use std::test::Fail;

const ACTORS: [Actor; 4] = [
    Actor::Session(1),
    Actor::Session(2),
    Actor::Tool,
    Actor::Worker {
        replica: 1,
        worker: 1,
    },
];

#[test]
fn actors_and_items_are_copied(rt: HostRuntime) -> Result<(), Fail> {
    let alloc = rt.alloc();
    for i in 0..4 {
        for j in 0..4 {
            let actor = ACTORS[i].copy(alloc)?;
            assert!(rt; actor.same(&ACTORS[j]) == (i == j));
            let item = Item::Turn(actor).copy(alloc)?;
            assert!(rt; item.same(&Item::Turn(ACTORS[j])) == (i == j));
        }
    }
    Ok(())
}

fn schedule(alloc: Global) -> R<Schedule> {
    let mut schedule = Schedule::new(alloc);
    for actor in ACTORS {
        schedule.push(Item::Turn(actor))?;
    }
    Ok(schedule)
}

#[test]
fn schedules_are_copied(rt: HostRuntime) -> Result<(), Fail> {
    let alloc = rt.alloc();
    let schedule = schedule(alloc)?;
    let mut copy = schedule.copy(alloc)?;
    assert!(rt; copy.same(&schedule) && copy.len() == 4 && !copy.is_empty());
    copy.push(Item::Turn(Actor::Tool))?;
    assert!(rt; !copy.same(&schedule) && copy.as_slice().len() == 5);
    Ok(())
}

/// One table of one row of one value.
fn tables(alloc: Global, value: i64) -> R<Tables> {
    let mut row = Row::new(alloc);
    row.push(Value::Int(value))?;
    let mut rows = Rows::new(alloc);
    rows.push(row)?;
    let mut tables = Tables::new(alloc);
    tables.push(rows)?;
    Ok(tables)
}

fn copies(alloc: Global) -> R<Copies> {
    let mut copies = Copies::new(alloc);
    copies.push(tables(alloc, 1)?)?;
    Ok(copies)
}

#[test]
fn copies_of_replicas_are_copied(rt: HostRuntime) -> Result<(), Fail> {
    let alloc = rt.alloc();
    let copies = copies(alloc)?;
    let mut copy = copies.copy(alloc)?;
    assert!(rt; copy.same(&copies) && copy.len() == 1 && !copy.is_empty());
    copy.push(tables(alloc, 2)?)?;
    assert!(rt; !copy.same(&copies) && copy.as_slice().len() == 2);
    Ok(())
}

/// A workload without schemas and scripts, whose source has this row.
fn workload(alloc: Global, value: i64) -> R<Workload> {
    Ok(Workload {
        schemas: Schemas {
            tables: SchemaList::new(alloc),
        },
        replicas: 1,
        source: tables(alloc, value)?,
        copies: copies(alloc)?,
        sessions: Scripts::new(alloc),
        schedule: schedule(alloc)?,
    })
}

#[test]
fn workloads_are_copied(rt: HostRuntime) -> Result<(), Fail> {
    let alloc = rt.alloc();
    let own = workload(alloc, 7)?;
    let copy = own.copy(alloc)?;
    let other = workload(alloc, 8)?;
    assert!(rt; copy.same(&own) && !copy.same(&other));
    Ok(())
}
