//! Steps played one after the other.
use crate::asks::{go, take};
use crate::steps::{Call, Came, Step};
use lock_table::Owner;
use node_builders::empty_node;
use node_engine::Node;
use row_types::R;
use std::alloc::Global;

/// Makes a call again for which memory was wanting: a statement that is in progress goes on.
fn again(alloc: Global, node: &mut Node, owner: Owner, call: Call) -> R<Came> {
    match call {
        Call::Run(_) => {
            if node.is_under_way(owner) {
                return go(alloc, node, owner);
            }
            take(alloc, node, owner, call)
        }
        _ => take(alloc, node, owner, call),
    }
}

/// Makes a call, twice where memory is wanting: a refusal leaves the node as it was, so the second time
/// all comes as it would have come at once.
fn answer_of(alloc: Global, node: &mut Node, owner: Owner, call: Call) -> R<Came> {
    match take(alloc, node, owner, call) {
        Ok(came) => Ok(came),
        Err(_) => again(alloc, node, owner, call),
    }
}

/// Makes the calls one after the other: how many came to what is wanted before the first that did not.
fn play_on(alloc: Global, node: &mut Node, steps: &[Step]) -> R<usize> {
    for i in 0..steps.len() {
        let (owner, call, wanted) = steps[i];
        if answer_of(alloc, node, Owner(owner), call)? != wanted {
            return Ok(i);
        }
    }
    Ok(steps.len())
}

fn node(alloc: Global) -> R<Node> {
    match empty_node(alloc) {
        Ok(node) => Ok(node),
        Err(_) => empty_node(alloc),
    }
}

/// Plays steps on a node without rows.
pub(crate) fn play(alloc: Global, steps: &[Step]) -> R<usize> {
    let mut node = node(alloc)?;
    play_on(alloc, &mut node, steps)
}
