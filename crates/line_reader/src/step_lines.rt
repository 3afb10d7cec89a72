ghost use Rattle.std.specs.Prelude.{◌≡◌, ◌≤◌, ◌∷◌, true, List, length, IfOk};
ghost use Rattle.file_text.specs.Parts.{words_of, past_end};
ghost use Rattle.file_text.specs.Context.{is_script};
ghost use Rattle.file_text.specs.Rules.{OpensNone, next_place};
ghost use Rattle.file_state.specs.Keeps.{IsKept};
ghost use Rattle.line_reader.specs.Reads.{Reads, StepTaken};

use file_state::FileState;
use file_text::LineCause;
use line_checks::LineFault;
use line_decisions::step_fault;
use ptc_statement::{ScriptLine, ScriptStep};
use row_types::R;
use script_steps::{StepReading, read_step};
use std::alloc::Global;

/// A step of the script in which the line stands.
fn take_step(state: &mut FileState, number: u32, step: ScriptStep) -> R<Option<LineFault>>
    requires kept { IsKept state.old }
    requires inside { is_script state.old.marks.last ≡ true }
    ensures { IfOk result (λ fault. StepTaken number step state.old state.new fault) }
{
    match step_fault(&state.marks, &step) {
        Some(fault) => Ok(Some(fault)),
        None => {
            state.take_step(ScriptLine { line: number, step })?;
            Ok(None)
        }
    }
}

/// A line that begins no section, whose first word stands at this place. After want of memory nothing is known of
/// the state.
pub(crate) fn take_unopened(
    alloc: Global,
    state: &mut FileState,
    number: u32,
    place: u32,
    line: &[u8],
) -> R<Option<LineFault>>
    requires kept { IsKept state.old }
    requires short { length line.now ≤ 65535 }
    requires opens { OpensNone line.now }
    requires place { place ≡ next_place (past_end line.now) (words_of line.now) }
    ensures { IfOk result (λ fault. Reads number line.now state.old state.new fault) }
{
    if state.marks.ended {
        return Ok(Some(LineFault::Cause(LineCause::AfterEnd)));
    }
    if !state.marks.is_in_script() {
        return Ok(Some(LineFault::Cause(LineCause::Form { place })));
    }
    match read_step(alloc, &state.schemas, line)? {
        StepReading::Fault(fault) => Ok(Some(LineFault::Cause(LineCause::Statement(fault)))),
        StepReading::Step(step) => take_step(state, number, step),
    }
}
