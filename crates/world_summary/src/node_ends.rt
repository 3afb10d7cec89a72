//! What a report moves out of the nodes of a world.
ghost use Rattle.std.specs.Prelude.{◌≡◌, IfOk, OnOk};
ghost use Rattle.world_summary.specs.Told.{source_parts, with_replicas};

use node_engine::Node;
use report_text::{Histories, NodeTables};
use row_types::{R, Schemas};
use statement_log::Entries;
use std::alloc::Global;
use world::Replica;

/// The schemas, and what each node began with and did since.
#[derive(Debug, Drop)]
pub struct NodeParts {
    pub schemas: Schemas,
    pub start: NodeTables,
    pub log: Entries,
    pub histories: Histories,
}

/// The parts of the source alone.
fn of_source(alloc: Global, source: Node) -> R<NodeParts>
    ensures { IfOk result (λ parts. parts ≡ source_parts source) }
{
    let schemas = source.schemas().copy(alloc)?;
    let (rows, log) = source.into_start_and_history();
    let mut start = NodeTables::new(alloc);
    start.push(rows)?;
    Ok(NodeParts {
        schemas,
        start,
        log: log.into_entries(),
        histories: Histories::new(alloc),
    })
}

/// Adds the parts of replicas, which are taken from the front.
fn add_replicas(parts: &mut NodeParts, mut replicas: Vec<Replica>) -> R<()>
    ensures { OnOk result (parts.new ≡ with_replicas replicas.items parts.old) }
{
    while !replicas.is_empty() {
        let node = replicas.remove(0).into_node();
        let (rows, log) = node.into_start_and_history();
        parts.start.push(rows)?;
        parts.histories.push(log.into_entries())?;
    }
    Ok(())
}

/// The parts of all nodes.
pub fn parts_of_nodes(alloc: Global, source: Node, replicas: Vec<Replica>) -> R<NodeParts>
    ensures { IfOk result (λ parts. parts ≡ with_replicas replicas.items (source_parts source)) }
{
    let mut parts = of_source(alloc, source)?;
    add_replicas(&mut parts, replicas)?;
    Ok(parts)
}
