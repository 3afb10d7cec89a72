ghost use Rattle.std.specs.Prelude.{◌≡◌, ◌≤◌, ◌<◌, ◌+◌, ◌++◌, ◌∷◌, [], map, length, vec_len, vec_capacity};
ghost use Rattle.lock_table.specs.declared.wants.Owner.{Owner as TheOwner};
ghost use Rattle.turn_notes.specs.Actors.{actor_of};

use lock_table::Owner;
use workload::{Actor, Actors};

/// A node of the cluster; replicas are numbered from 1.
#[derive(Clone, Copy, Debug, PartialEq, Eq)]
pub enum Place {
    Source,
    Replica(u32),
}

fn actor_at_source(owner: u32) -> Actor
    ensures { result ≡ actor_of Place.Source owner }
{
    if owner < 100 {
        return Actor::Session(owner);
    }
    if owner == 100 {
        return Actor::Tool;
    }
    Actor::Sync(owner - 100)
}

fn actor_at_replica(replica: u32, owner: u32) -> Actor
    ensures { result ≡ actor_of (Place.Replica replica) owner }
{
    if owner < 100 {
        return Actor::Local {
            replica,
            session: owner,
        };
    }
    if owner > 200 {
        return Actor::Worker {
            replica,
            worker: owner - 200,
        };
    }
    Actor::Sync(owner - 100)
}

/// The actor that holds locks on a node as this owner: below 100 a session of the node, 100 the checksum tool, above it
/// the sync tool of a replica, and above 200 a worker of the replica.
pub fn actor_at(place: Place, owner: Owner) -> Actor
    ensures { result ≡ actor_of place owner.0 }
{
    match place {
        Place::Source => actor_at_source(owner.0),
        Place::Replica(replica) => actor_at_replica(replica, owner.0),
    }
}

/// Puts an actor behind the others, where there is reserved capacity for it.
fn put_last(actors: &mut Vec<Actor>, actor: Actor)
    requires { vec_len actors.old < vec_capacity actors.old }
    ensures items { actors.new.items ≡ actors.old.items ++ actor ∷ [] }
    ensures len { vec_len actors.new ≡ vec_len actors.old + 1 }
    ensures capacity { vec_capacity actors.old ≤ vec_capacity actors.new }
{
    match actors.push(actor) {
        Ok(()) => {}
        Err(_) => unreachable!(),
    }
}

/// The actors of owners on a node, in an empty list that has capacity for them.
pub(crate) fn actors_at(place: Place, owners: &[Owner], spare: Vec<Actor>) -> Actors
    requires empty { spare.items ≡ [] }
    requires room { vec_len spare + length owners.now ≤ vec_capacity spare }
    ensures { result ≡ map (λ (owner : TheOwner). actor_of place owner.0) owners.now }
{
    let mut actors = spare;
    let mut rest = owners;
    while let Some((owner, more)) = rest.split_first() {
        put_last(&mut actors, actor_at(place, *owner));
        rest = more;
    }
    Actors { items: actors }
}
