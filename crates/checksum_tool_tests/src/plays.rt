//! Steps played one after the other.
use crate::calls::{go, take};
use crate::steps::{Call, Came, Step};
use checksum_tool::ChecksumTool;
use lock_table::Owner;
use node_builders::empty_node;
use node_engine::Node;
use row_types::{DigestKind, R, Rows, Schemas, Tables};
use std::alloc::Global;
use test_builders::{pair_schema, schemas};

/// Makes a call again for which memory was wanting: a statement that is in progress goes on.
fn again(
    alloc: Global,
    tool: &mut ChecksumTool,
    node: &mut Node,
    owner: Owner,
    call: Call,
) -> R<Came> {
    match call {
        Call::Update(_) | Call::Insert(_) => {
            if node.is_under_way(owner) {
                return go(alloc, node, owner);
            }
            take(alloc, tool, node, owner, call)
        }
        _ => take(alloc, tool, node, owner, call),
    }
}

/// Makes a call, twice where memory is wanting: a refusal leaves the tool and the node as they were, so the second
/// time all comes as it would have come at once.
fn answer_of(
    alloc: Global,
    tool: &mut ChecksumTool,
    node: &mut Node,
    owner: Owner,
    call: Call,
) -> R<Came> {
    match take(alloc, tool, node, owner, call) {
        Ok(came) => Ok(came),
        Err(_) => again(alloc, tool, node, owner, call),
    }
}

/// Makes the calls one after the other: how many came to what is wanted before the first that did not.
fn play_on(alloc: Global, tool: &mut ChecksumTool, node: &mut Node, steps: &[Step]) -> R<usize> {
    for i in 0..steps.len() {
        let (owner, call, wanted) = steps[i];
        if answer_of(alloc, tool, node, Owner(owner), call)? != wanted {
            return Ok(i);
        }
    }
    Ok(steps.len())
}

fn node_of_one(alloc: Global) -> R<Node> {
    match empty_node(alloc) {
        Ok(node) => Ok(node),
        Err(_) => empty_node(alloc),
    }
}

/// Plays steps on a node of one table without rows.
pub(crate) fn play(alloc: Global, retries: u8, steps: &[Step]) -> R<usize> {
    let mut node = node_of_one(alloc)?;
    let mut tool = ChecksumTool::new(1, DigestKind::Md5, retries as u32);
    play_on(alloc, &mut tool, &mut node, steps)
}

/// A node of two tables without rows.
#[tactic(auto, using(crate::proofs::SchemaLemmas::pair_is_schema))]
fn two_tables(alloc: Global) -> R<Node> {
    let mut tables = schemas(alloc, pair_schema(alloc, b"t")?)?;
    tables.push(pair_schema(alloc, b"u")?)?;
    let mut start = Tables::new(alloc);
    start.push(Rows::new(alloc))?;
    start.push(Rows::new(alloc))?;
    Node::new(alloc, Schemas { tables }, start)
}

fn node_of_two(alloc: Global) -> R<Node> {
    match two_tables(alloc) {
        Ok(node) => Ok(node),
        Err(_) => two_tables(alloc),
    }
}

/// Plays steps on a node of two tables without rows.
pub(crate) fn play_on_two(alloc: Global, steps: &[Step]) -> R<usize> {
    let mut node = node_of_two(alloc)?;
    let mut tool = ChecksumTool::new(2, DigestKind::Sha1, 0);
    play_on(alloc, &mut tool, &mut node, steps)
}
