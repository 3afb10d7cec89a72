//! A node of one table and two sessions on it.
ghost use Rattle.std.specs.Prelude.{◌≡◌, IfOk};
ghost use Rattle.session_tests.specs.Scenes.{LinesFit, SceneFits, IsScene};

use crate::deeds::deed_of;
use crate::scripts::script;
use crate::steps::{Did, Line};
use lock_table::Owner;
use node_builders::empty_node;
use node_engine::Node;
use row_types::R;
use session::Session;
use statement_log::Origin;
use std::alloc::Global;

#[derive(Drop)]
pub(crate) struct Scene {
    pub(crate) node: Node,
    pub(crate) one: Session,
    pub(crate) two: Session,
}

fn session(alloc: Global, number: u32, lines: &[Line]) -> R<Session>
    ensures { IfOk result (λ session. LinesFit session.script) }
{
    let script = script(alloc, lines)?;
    let origin = Origin::Session(number);
    Ok(Session::new(alloc, Owner(number), origin, script))
}

/// Sessions 1 and 2 of these scripts, on a node without rows.
pub(crate) fn two_sessions(alloc: Global, one: &[Line], two: &[Line]) -> R<Scene>
    ensures { IfOk result (λ scene. SceneFits scene.node.schemas scene.one.script scene.two.script) }
{
    let node = empty_node(alloc)?;
    let one = session(alloc, 1, one)?;
    let two = session(alloc, 2, two)?;
    Ok(Scene { node, one, two })
}

/// What a session does in its next turn.
#[tactic(auto, using(crate::proofs::SceneLemmas::fit_here))]
pub(crate) fn next_turn(
    alloc: Global,
    session: &mut Session,
    node: &mut Node,
    retries: u32,
) -> R<Did>
    requires { IsScene node.old.schemas session.old.script }
    ensures schemas { node.new.schemas ≡ node.old.schemas }
    ensures script { session.new.script ≡ session.old.script }
{
    let turn = session.turn(alloc, node, retries)?;
    Ok(deed_of(&turn))
}
