ghost use Rattle.std.specs.Prelude.{◌≡◌, ◌≤◌, ◌<◌, ◌^◌, ◌++◌, length, IfOk, OnOk};
ghost use Rattle.std.specs.List.{AllByRecursion};
ghost use Rattle.world_model.specs.Good.{IsGood};
ghost use Rattle.world_model.specs.Rounds.{turns_of, turns_on, replica_turns, order};
ghost use Rattle.world.specs.Teams.{actor_in, FewActors};
ghost use Rattle.world.specs.WorldParts.{world_view};

use crate::parts::Parts;
use crate::replicas::Replica;
use row_types::R;
use std::alloc::Global;
use workload::{Actor, Item, Schedule};

/// Actors of one kind, which are numbered from 1.
#[derive(Clone, Copy, Debug, PartialEq, Eq)]
pub enum Team {
    Sessions,
    Locals { replica: u32 },
    Workers { replica: u32 },
}

fn member(team: Team, number: u32) -> Actor
    ensures { result ≡ actor_in team number }
{
    match team {
        Team::Sessions => Actor::Session(number),
        Team::Locals { replica } => Actor::Local {
            replica,
            session: number,
        },
        Team::Workers { replica } => Actor::Worker {
            replica,
            worker: number,
        },
    }
}

/// Appends a turn of each of so many actors.
fn push_turns(items: &mut Schedule, team: Team, count: u32) -> R<()>
    requires { count < 2 ^ 31 }
    ensures { OnOk result (items.new ≡ items.old ++ turns_of (actor_in team) count) }
{
    for number in 0..count {
        items.push(Item::Turn(member(team, number + 1)))?;
    }
    Ok(())
}

/// Appends the turns on a replica of this number.
fn push_replica(items: &mut Schedule, number: u32, replica: &Replica) -> R<()>
    requires { FewActors replica.now }
    ensures { OnOk result (items.new ≡ items.old ++ turns_on number replica.now) }
{
    let locals = replica.locals().len() as u32;
    let workers = replica.applier().workers() as u32;
    push_turns(items, Team::Locals { replica: number }, locals)?;
    push_turns(items, Team::Workers { replica: number }, workers)?;
    Ok(())
}

/// Appends the turns on replicas, the first of which has number 1.
fn push_replicas(items: &mut Schedule, replicas: &[Replica]) -> R<()>
    requires few { length replicas.now ≤ 8 }
    requires actors { AllByRecursion FewActors replicas.now }
    ensures { OnOk result (items.new ≡ items.old ++ replica_turns 1 replicas.now) }
{
    let mut number = 1;
    let mut rest = replicas;
    while let Some((replica, more)) = rest.split_first() {
        push_replica(items, number, replica)?;
        number += 1;
        rest = more;
    }
    Ok(())
}

/// The turns of a round.
pub fn order_of(alloc: Global, parts: &Parts) -> R<Schedule>
    requires { IsGood (world_view parts.now) }
    ensures { IfOk result (λ items. items ≡ order (world_view parts.now)) }
{
    let mut items = Schedule::new(alloc);
    push_turns(&mut items, Team::Sessions, parts.sessions.len() as u32)?;
    items.push(Item::Turn(Actor::Tool))?;
    push_replicas(&mut items, parts.replicas.as_slice())?;
    Ok(items)
}
