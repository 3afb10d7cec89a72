//! Copies: each is the same as what it was made from, and not the same as another.
use crate::{Actor, Copies, Item, LocalScripts, Schedule, Workload};
use ptc_statement::Scripts;
use row_types::{R, SchemaList, Schemas, Tables};
use std::alloc::Global;
use std::test::Fail;

const ITEMS: [Item; 9] = [
    Item::Turn(Actor::Session(1)),
    Item::Turn(Actor::Tool),
    Item::Turn(Actor::Sync(1)),
    Item::Turn(Actor::Worker {
        replica: 1,
        worker: 1,
    }),
    Item::Turn(Actor::Local {
        replica: 1,
        session: 1,
    }),
    Item::StopTool,
    Item::ResumeTool,
    Item::StopReplica(1),
    Item::StartReplica(1),
];

#[test]
fn items_are_copied(rt: HostRuntime) -> Result<(), Fail> {
    let alloc = rt.alloc();
    for i in 0..9 {
        for j in 0..9 {
            let item = ITEMS[i].copy(alloc)?;
            assert!(rt; item.same(&ITEMS[j]) == (i == j));
        }
    }
    let actor = Actor::Sync(1).copy(alloc)?;
    assert!(rt; actor.same(&Actor::Sync(1)) && !actor.same(&Actor::Sync(2)));
    Ok(())
}

fn schedule(alloc: Global) -> R<Schedule> {
    let mut schedule = Schedule::new(alloc);
    for item in ITEMS {
        schedule.push(item)?;
    }
    Ok(schedule)
}

#[test]
fn schedules_are_copied(rt: HostRuntime) -> Result<(), Fail> {
    let alloc = rt.alloc();
    let schedule = schedule(alloc)?;
    let mut copy = schedule.copy(alloc)?;
    assert!(rt; copy.same(&schedule) && copy.len() == 9);
    copy.push(Item::StopTool)?;
    assert!(rt; !copy.same(&schedule));
    Ok(())
}

fn workload(alloc: Global, replicas: u32) -> Workload {
    Workload {
        schemas: Schemas {
            tables: SchemaList::new(alloc),
        },
        replicas,
        source: Tables::new(alloc),
        copies: Copies::new(alloc),
        sessions: Scripts::new(alloc),
        locals: LocalScripts::new(alloc),
        schedule: Schedule::new(alloc),
    }
}

#[test]
fn workloads_are_copied(rt: HostRuntime) -> Result<(), Fail> {
    let alloc = rt.alloc();
    let two = workload(alloc, 2);
    let mut copy = two.copy(alloc)?;
    assert!(rt; copy.same(&two) && !copy.same(&workload(alloc, 3)));
    copy.schedule.push(Item::StopTool)?;
    assert!(rt; !copy.same(&two));
    Ok(())
}
