//! A worker's transaction on the node of a scene.
ghost use Rattle.std.specs.Prelude.{◌≡◌};

use crate::deeds::visited;
use crate::steps::{Did, Line};
use lock_table::Owner;
use node_builders::{begin, insert_row, read_between, start_and_visit};
use node_engine::Node;
use node_model::Part;
use ptc_statement::Statement;
use row_types::R;
use std::alloc::Global;

pub(crate) fn apply(alloc: Global, node: &mut Node, worker: Owner, entry: u64) -> R<Did>
    ensures { node.new.schemas ≡ node.old.schemas }
{
    if begin(alloc, node, worker, Part::Apply { entry })? {
        return Ok(Did::Began);
    }
    Ok(Did::Refused)
}

fn run(alloc: Global, node: &mut Node, worker: Owner, statement: R<Statement>) -> R<Did>
    ensures { node.new.schemas ≡ node.old.schemas }
{
    match start_and_visit(alloc, node, worker, statement?)? {
        None => Ok(Did::Refused),
        Some(visit) => Ok(visited(&visit)),
    }
}

/// Starts the statement of a line and makes its first visit.
pub(crate) fn work(alloc: Global, node: &mut Node, worker: Owner, line: Line) -> R<Did>
    ensures { node.new.schemas ≡ node.old.schemas }
{
    match line {
        Line::Begin | Line::Commit | Line::Rollback => Ok(Did::Refused),
        Line::Insert(id) => run(alloc, node, worker, insert_row(alloc, id, 0)),
        Line::Read(above, below) => run(alloc, node, worker, read_between(alloc, above, below)),
    }
}
