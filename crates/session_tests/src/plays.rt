//! Steps played one after the other.
ghost use Rattle.std.specs.Prelude.{IfOk};
ghost use Rattle.session_tests.specs.Scenes.{SceneFits};

use crate::deeds::answer;
use crate::scenes::{Scene, next_turn, two_sessions};
use crate::steps::{Call, Did, Line, Question, Step};
use crate::workers::{apply, work};
use lock_table::Owner;
use row_types::R;
use std::alloc::Global;

#[tactic(auto, using(crate::proofs::SceneLemmas::one_here, crate::proofs::SceneLemmas::two_here, crate::proofs::SceneLemmas::with_one, crate::proofs::SceneLemmas::with_two))]
fn take_turn(alloc: Global, scene: &mut Scene, retries: u32, number: u32) -> R<Did>
    requires { SceneFits scene.old.node.schemas scene.old.one.script scene.old.two.script }
    ensures { SceneFits scene.new.node.schemas scene.new.one.script scene.new.two.script }
{
    if number == 1 {
        return next_turn(alloc, &mut scene.one, &mut scene.node, retries);
    }
    next_turn(alloc, &mut scene.two, &mut scene.node, retries)
}

fn asked(scene: &Scene, number: u32, question: Question) -> Did {
    if number == 1 {
        return answer(&scene.one, question);
    }
    answer(&scene.two, question)
}

#[tactic(auto, using(crate::proofs::SceneLemmas::with_node))]
fn take(alloc: Global, scene: &mut Scene, retries: u32, number: u32, call: Call) -> R<Did>
    requires { SceneFits scene.old.node.schemas scene.old.one.script scene.old.two.script }
    ensures { SceneFits scene.new.node.schemas scene.new.one.script scene.new.two.script }
{
    match call {
        Call::Turn => take_turn(alloc, scene, retries, number),
        Call::Ask(question) => Ok(asked(scene, number, question)),
        Call::Apply(entry) => apply(alloc, &mut scene.node, Owner(number), entry),
        Call::Work(line) => work(alloc, &mut scene.node, Owner(number), line),
    }
}

/// Makes a call, twice where memory is wanting: a refusal leaves all as it was, so the second time all comes as
/// it would have come at once.
fn take_again(alloc: Global, scene: &mut Scene, retries: u32, number: u32, call: Call) -> R<Did>
    requires { SceneFits scene.old.node.schemas scene.old.one.script scene.old.two.script }
    ensures { SceneFits scene.new.node.schemas scene.new.one.script scene.new.two.script }
{
    match take(alloc, scene, retries, number, call) {
        Ok(did) => Ok(did),
        Err(_) => take(alloc, scene, retries, number, call),
    }
}

/// Makes the calls one after the other: how many came to what is wanted before the first that did not.
fn play_on(alloc: Global, scene: &mut Scene, retries: u32, steps: &[Step]) -> R<usize>
    requires { SceneFits scene.old.node.schemas scene.old.one.script scene.old.two.script }
    ensures { SceneFits scene.new.node.schemas scene.new.one.script scene.new.two.script }
{
    for i in 0..steps.len() {
        let (number, call, wanted) = steps[i];
        if take_again(alloc, scene, retries, number, call)? != wanted {
            return Ok(i);
        }
    }
    Ok(steps.len())
}

fn scene(alloc: Global, one: &[Line], two: &[Line]) -> R<Scene>
    ensures { IfOk result (λ scene. SceneFits scene.node.schemas scene.one.script scene.two.script) }
{
    match two_sessions(alloc, one, two) {
        Ok(scene) => Ok(scene),
        Err(_) => two_sessions(alloc, one, two),
    }
}

/// Plays steps of sessions 1 and 2, which have these scripts, on a node without rows. A transaction that was
/// rolled back is begun again so many times.
pub(crate) fn play(
    alloc: Global,
    one: &[Line],
    two: &[Line],
    retries: u32,
    steps: &[Step],
) -> R<usize> {
    let mut scene = scene(alloc, one, two)?;
    play_on(alloc, &mut scene, retries, steps)
}
