//! Scripts, whose statements fit the node's table.
ghost use Rattle.std.specs.Prelude.{IfOk};
ghost use Rattle.node_builders.specs.Nodes.{one_table};
ghost use Rattle.session.specs.Sessions.{RunFits};
ghost use Rattle.session_tests.specs.Scenes.{LinesFit};

use crate::steps::Line;
use node_builders::{insert_row, read_between};
use ptc_statement::{Script, ScriptLine, ScriptLines, ScriptStep};
use row_types::R;
use std::alloc::Global;

fn step(alloc: Global, line: Line) -> R<ScriptStep>
    ensures { IfOk result (λ step. RunFits one_table step) }
{
    match line {
        Line::Begin => Ok(ScriptStep::Begin),
        Line::Commit => Ok(ScriptStep::Commit),
        Line::Rollback => Ok(ScriptStep::Rollback),
        Line::Insert(id) => Ok(ScriptStep::Run(insert_row(alloc, id, 0)?)),
        Line::Read(above, below) => Ok(ScriptStep::Run(read_between(alloc, above, below)?)),
    }
}

#[tactic(auto, using(crate::proofs::SceneLemmas::one_more))]
fn push_line(alloc: Global, lines: &mut ScriptLines, number: u32, line: Line) -> R<()>
    requires { LinesFit lines.old }
    ensures { LinesFit lines.new }
{
    let step = step(alloc, line)?;
    lines.push(ScriptLine { line: number, step })
}

/// The lines of a script, numbered from 1.
pub(crate) fn script(alloc: Global, lines: &[Line]) -> R<Script>
    ensures { IfOk result (λ script. LinesFit script.lines) }
{
    let mut script = ScriptLines::new(alloc);
    for (line, number) in lines.iter().zip(1..100) {
        push_line(alloc, &mut script, number, *line)?;
    }
    Ok(Script { lines: script })
}
