//! Turns of the tool and calls of others, and what comes of them.
use crate::answers::{came_of, counted, deed_of, ended_at, mastered};
use crate::steps::{Call, Came};
use checksum_tool::ChecksumTool;
use lock_table::Owner;
use node_builders::{begin, commit, own_key_where, start, visit};
use node_engine::{Node, Visit};
use node_model::Part;
use ptc_statement::Statement;
use row_types::R;
use statement_builders::{insert, number, set, update};
use statement_log::Origin;
use std::alloc::Global;
use test_builders::key;

/// The tool's turn, made where the node has as many tables as the tool was made for.
fn turned(alloc: Global, tool: &mut ChecksumTool, node: &mut Node) -> R<Came> {
    if node.schemas().tables.len() != tool.tables() as usize {
        return Ok(Came::Refused);
    }
    let turn = tool.turn(alloc, node)?;
    Ok(deed_of(&turn))
}

fn begun(alloc: Global, node: &mut Node, owner: Owner, part: Part) -> R<Came> {
    if begin(alloc, node, owner, part)? {
        return Ok(Came::Begun);
    }
    Ok(Came::Refused)
}

fn started(alloc: Global, node: &mut Node, owner: Owner, statement: Statement) -> R<Came> {
    if start(alloc, node, owner, statement)? {
        return Ok(Came::Started);
    }
    Ok(Came::Refused)
}

fn came_if(visit: Option<Visit>) -> Came {
    match visit {
        None => Came::Refused,
        Some(visit) => came_of(&visit),
    }
}

fn visited(alloc: Global, node: &mut Node, owner: Owner) -> R<Came> {
    let visit = visit(alloc, node, owner)?;
    Ok(came_if(visit))
}

pub(crate) fn go(alloc: Global, node: &mut Node, owner: Owner) -> R<Came> {
    for _ in 0..100 {
        let came = visited(alloc, node, owner)?;
        if came != Came::Further {
            return Ok(came);
        }
    }
    Ok(Came::Further)
}

fn update_at(alloc: Global, id: i64) -> R<Statement> {
    Ok(update(set(alloc, 1, number(5))?, own_key_where(id)))
}

fn start_update(alloc: Global, node: &mut Node, owner: Owner, id: i64) -> R<Came> {
    started(alloc, node, owner, update_at(alloc, id)?)
}

fn start_insert(alloc: Global, node: &mut Node, owner: Owner, id: i64) -> R<Came> {
    started(alloc, node, owner, insert(alloc, id, 1)?)
}

fn go_on(alloc: Global, node: &mut Node, owner: Owner, started: Came) -> R<Came> {
    if started != Came::Started {
        return Ok(started);
    }
    go(alloc, node, owner)
}

fn update_row(alloc: Global, node: &mut Node, owner: Owner, id: i64) -> R<Came> {
    let started = start_update(alloc, node, owner, id)?;
    go_on(alloc, node, owner, started)
}

fn insert_row(alloc: Global, node: &mut Node, owner: Owner, id: i64) -> R<Came> {
    let started = start_insert(alloc, node, owner, id)?;
    go_on(alloc, node, owner, started)
}

fn committed(alloc: Global, node: &mut Node, owner: Owner) -> R<Came> {
    match commit(alloc, node, owner, Origin::Session(owner.0))? {
        None => Ok(Came::Unwritten),
        Some(position) => Ok(Came::Written(position)),
    }
}

fn is_absent(alloc: Global, node: &Node, id: i64) -> R<bool> {
    let key = key(alloc, id)?;
    match node.live(0) {
        None => Ok(false),
        Some(table) => Ok(table.get(&key).is_none()),
    }
}

fn put(alloc: Global, node: &mut Node, owner: Owner, id: i64) -> R<Came> {
    if !is_absent(alloc, node, id)? {
        return Ok(Came::Done);
    }
    insert_row(alloc, node, owner, id)
}

/// Commits rows with the keys 10, 20, .., so many.
fn fill(alloc: Global, node: &mut Node, owner: Owner, count: u8) -> R<Came> {
    begin(alloc, node, owner, Part::Client)?;
    go(alloc, node, owner)?;
    for number in 1..=count {
        put(alloc, node, owner, number as i64 * 10)?;
    }
    committed(alloc, node, owner)
}

/// Makes a call.
pub(crate) fn take(
    alloc: Global,
    tool: &mut ChecksumTool,
    node: &mut Node,
    owner: Owner,
    call: Call,
) -> R<Came> {
    match call {
        Call::Turn => turned(alloc, tool, node),
        Call::Fill(count) => fill(alloc, node, owner, count),
        Call::Begin => begun(alloc, node, owner, Part::Client),
        Call::Apply => begun(alloc, node, owner, Part::Apply { entry: 1 }),
        Call::Update(id) => update_row(alloc, node, owner, id),
        Call::Start(id) => start_update(alloc, node, owner, id),
        Call::Insert(id) => insert_row(alloc, node, owner, id),
        Call::Go => go(alloc, node, owner),
        Call::Commit => committed(alloc, node, owner),
        Call::Counted => Ok(counted(node)),
        Call::IsMastered => Ok(mastered(node)),
        Call::EndedAt => Ok(ended_at(tool)),
    }
}
