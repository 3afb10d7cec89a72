//! What a node answers to questions.
use crate::steps::{Came, Question};
use lock_table::Owner;
use node_engine::Node;
use row_types::{R, Row, Value};
use std::alloc::Global;

fn counts(count: usize) -> Came {
    Came::Counts(count as u64)
}

/// The second number of a row.
fn second(row: Option<&Row>) -> Came {
    match row {
        None => Came::Absent,
        Some(row) => match row.as_slice().get(1) {
            Some(Value::Int(n)) => Came::Is(*n),
            _ => Came::Refused,
        },
    }
}

pub(crate) fn value_at(alloc: Global, node: &Node, id: i64) -> R<Came> {
    let key = test_builders::key(alloc, id)?;
    match node.live(0) {
        None => Ok(Came::Refused),
        Some(table) => Ok(second(table.get(&key))),
    }
}

fn waits_for(alloc: Global, node: &Node, owner: Owner) -> R<Came> {
    match node.waits_for(alloc, owner)? {
        None => Ok(Came::Nobody),
        Some(by) => Ok(Came::Waits(by.0)),
    }
}

fn live_rows(node: &Node) -> Came {
    match node.live(0) {
        None => Came::Refused,
        Some(table) => counts(table.len()),
    }
}

fn committed_rows(alloc: Global, node: &Node) -> R<Came> {
    let rows = node.committed(alloc, 0)?;
    Ok(counts(rows.len()))
}

fn checked_rows(node: &Node, chunk: u32) -> Came {
    match node.checks().get(0, chunk) {
        None => Came::NoCheck,
        Some(row) => Came::Counts(row.this.count),
    }
}

fn checked_at(node: &Node, chunk: u32) -> Came {
    match node.checks().get(0, chunk) {
        None => Came::NoCheck,
        Some(row) => Came::Written(row.position),
    }
}

fn logged(node: &Node, position: u64) -> Came {
    match node.history().get(position) {
        None => Came::Unwritten,
        Some(entry) => counts(entry.statements.len()),
    }
}

fn is_begun(node: &Node, owner: Owner) -> Came {
    if node.is_begun(owner) {
        return Came::Begun;
    }
    Came::Ended
}

pub(crate) fn answer(alloc: Global, node: &Node, owner: Owner, question: Question) -> R<Came> {
    match question {
        Question::IsBegun => Ok(is_begun(node, owner)),
        Question::WaitsFor => waits_for(alloc, node, owner),
        Question::Value(id) => value_at(alloc, node, id),
        Question::LiveRows => Ok(live_rows(node)),
        Question::CommittedRows => committed_rows(alloc, node),
        Question::RowsRead => Ok(counts(node.read_rows(owner).len())),
        Question::CheckedRows(chunk) => Ok(checked_rows(node, chunk)),
        Question::CheckedAt(chunk) => Ok(checked_at(node, chunk)),
        Question::Logged(position) => Ok(logged(node, position)),
        Question::Applied => Ok(Came::Counts(node.applied())),
    }
}
