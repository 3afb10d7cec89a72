ghost use Rattle.std.specs.Prelude.{◌≡◌};
ghost use Rattle.file_scripts.specs.ScriptRules.{may_come, ends_script as is_end};

use file_text::Section;
use ptc_statement::ScriptStep;

/// Whether a step of a script may come next: BEGIN outside a transaction, and the end of one within it.
pub fn step_may_come(within: bool, step: &ScriptStep) -> bool
    ensures { result ≡ may_come within step.now }
{
    match step {
        ScriptStep::Begin => !within,
        ScriptStep::Commit => within,
        ScriptStep::Rollback => within,
        ScriptStep::Run(_) => true,
    }
}

/// Whether a line of a section ends a script, which may not come within a transaction.
pub fn ends_script(section: Section) -> bool
    ensures { result ≡ is_end section }
{
    match section {
        Section::SessionLines => true,
        Section::LocalLines => true,
        Section::ScheduleLines => true,
        Section::EndLines => true,
        _ => false,
    }
}
