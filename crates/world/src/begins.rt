ghost use Rattle.std.specs.Prelude.{◌≡◌, ◌≤◌, length, IfOk};
ghost use Rattle.std.specs.List.{AllByRecursion};
ghost use Rattle.row_types.specs.Fit.{IsSchema, AreTables};
ghost use Rattle.world_model.specs.Worlds.{begun_sessions, begun_replica, begun_replicas, begun};
ghost use Rattle.world_model.specs.CanRun.{AreOptions, CanRun};
ghost use Rattle.world.specs.Teams.{origin_of};
ghost use Rattle.world.specs.WorldParts.{world_view, PartsKept};

use crate::parts::Parts;
use crate::replicas::Replica;
use applier::Applier;
use checksum_tool::ChecksumTool;
use lock_table::Owner;
use node_engine::Node;
use ptc_statement::{Script, Scripts};
use row_types::{R, Schemas, Tables};
use session::Session;
use statement_log::Origin;
use std::alloc::Global;
use turn_notes::Place;
use workload::Workload;
use world_model::RunOptions;

/// What the entries of a session on a node have as their origin.
fn origin(place: Place, number: u32) -> Origin
    ensures { result ≡ origin_of place number }
{
    match place {
        Place::Source => Origin::Session(number),
        Place::Replica(_) => Origin::Local(number),
    }
}

/// A session for each of these scripts, which are taken from the front; the first has number 1.
fn new_sessions(alloc: Global, place: Place, mut scripts: Vec<Script>) -> R<Vec<Session>>
    requires { length scripts.items ≤ 64 }
    ensures { IfOk result (λ sessions. sessions.items ≡ begun_sessions (origin_of place) 1 scripts.items) }
{
    let mut sessions = Vec::with_capacity(alloc, scripts.len())?;
    let mut number = 1;
    while !scripts.is_empty() {
        let script = scripts.remove(0);
        sessions.push(Session::new(alloc, Owner(number), origin(place, number), script))?;
        number += 1;
    }
    Ok(sessions)
}

/// A replica of this number.
#[tactic(auto, using(crate::proofs::BeginLemmas::replica_begun))]
fn new_replica(
    alloc: Global,
    options: &RunOptions,
    number: u32,
    schemas: Schemas,
    start: Tables,
    scripts: Scripts,
) -> R<Replica>
    requires options { AreOptions options.now }
    requires schemas { AllByRecursion IsSchema schemas.tables }
    requires start { AreTables schemas.tables start }
    requires scripts { length scripts ≤ 16 }
    ensures { IfOk result (λ replica. replica ≡ begun_replica options.now schemas.tables number start scripts) }
{
    let node = Node::new(alloc, schemas, start)?;
    let locals = new_sessions(alloc, Place::Replica(number), scripts.items)?;
    let applier = Applier::new(alloc, number, options.workers)?;
    Ok(Replica::new(node, locals, applier))
}

/// A replica for each of these tables, which are taken from the front with its scripts; the first has number 1.
fn new_replicas(
    alloc: Global,
    options: &RunOptions,
    schemas: &Schemas,
    mut copies: Vec<Tables>,
    mut locals: Vec<Scripts>,
) -> R<Vec<Replica>>
    requires options { AreOptions options.now }
    requires schemas { AllByRecursion IsSchema schemas.now.tables }
    requires copies { AllByRecursion (AreTables schemas.now.tables) copies.items }
    requires few { length copies.items ≤ 8 }
    requires locals { AllByRecursion (λ scripts. length scripts ≤ 16) locals.items }
    requires each { length locals.items ≡ length copies.items }
    ensures { IfOk result (λ replicas. replicas.items ≡ begun_replicas options.now schemas.now.tables 1 copies.items locals.items) }
{
    let mut replicas = Vec::with_capacity(alloc, copies.len())?;
    let mut number = 1;
    while !copies.is_empty() {
        let start = copies.remove(0);
        let scripts = locals.remove(0);
        let own = schemas.copy(alloc)?;
        replicas.push(new_replica(alloc, options, number, own, start, scripts)?)?;
        number += 1;
    }
    Ok(replicas)
}

/// The parts of a world before its first move.
#[tactic(auto, using(crate::proofs::BeginLemmas::begun_counted, crate::proofs::BeginLemmas::few_scripts, crate::proofs::BeginLemmas::source_sessions))]
pub fn new_parts(alloc: Global, workload: Workload, options: RunOptions) -> R<Parts>
    requires { CanRun options workload }
    ensures parts { IfOk result (λ parts. world_view parts ≡ begun options workload) }
    ensures kept { IfOk result PartsKept }
{
    let Workload {
        schemas,
        replicas: _,
        source,
        copies,
        sessions,
        locals,
        schedule,
    } = workload;
    let replicas = new_replicas(alloc, &options, &schemas, copies.items, locals.items)?;
    let sessions = new_sessions(alloc, Place::Source, sessions.items)?;
    let tables = schemas.tables.len() as u32;
    Ok(Parts {
        options,
        source: Node::new(alloc, schemas, source)?,
        sessions,
        tool: ChecksumTool::new(tables, options.kind, options.retries),
        replicas,
        schedule,
        journal: Vec::new(alloc),
        moves: 0,
    })
}
