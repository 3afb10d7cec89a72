//! What the tool and a node tell, in short.
use crate::steps::Came;
use checksum_tool::{ChecksumTool, ToolTurn};
use node_engine::{Node, Visit};

pub(crate) fn came_of(visit: &Visit) -> Came {
    match visit {
        Visit::Stepped => Came::Further,
        Visit::Done => Came::Done,
        Visit::Duplicate { .. } => Came::Duplicate,
        Visit::Waits { by } => Came::Waits(by.0),
        Visit::Deadlock { victim, cycle } => Came::Deadlock(victim.0, cycle.len()),
    }
}

pub(crate) fn deed_of(turn: &ToolTurn) -> Came {
    match turn {
        ToolTurn::Cleared { position } => Came::Cleared(*position),
        ToolTurn::Chose { table, chunk } => Came::Chose(*table, *chunk),
        ToolTurn::Visited(visit) => came_of(visit),
        ToolTurn::Committed { position } => Came::Written(*position),
        ToolTurn::Mastered { position } => Came::Mastered(*position),
        ToolTurn::Victim => Came::Victim,
        ToolTurn::RetriesUsed { rollbacks, .. } => Came::Used(*rollbacks),
        ToolTurn::Finished => Came::Finished,
    }
}

pub(crate) fn counted(node: &Node) -> Came {
    match node.checks().get(0, 1) {
        None => Came::Absent,
        Some(row) => Came::Counts(row.this.count),
    }
}

pub(crate) fn mastered(node: &Node) -> Came {
    match node.checks().get(0, 1) {
        None => Came::Absent,
        Some(row) => match &row.master {
            None => Came::Mastering(false),
            Some(master) => Came::Mastering(master.same(&row.this)),
        },
    }
}

pub(crate) fn ended_at(tool: &ChecksumTool) -> Came {
    match tool.ended_at() {
        None => Came::Absent,
        Some(position) => Came::Written(position),
    }
}
