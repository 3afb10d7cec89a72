ghost use Rattle.std.specs.Prelude.{◌≡◌, true, List, ℕ, MatchOption};
ghost use Rattle.file_text.specs.Said.{Said, StepOf};
ghost use Rattle.file_text.specs.Context.{in_script};
ghost use Rattle.file_text.specs.Rules.{OpensNone, IsStep};
ghost use Rattle.file_text.specs.Causes.{IsGood, IsRefused};
ghost use Rattle.cause_laws.specs.Clear.{Clear};
ghost use Rattle.line_checks.specs.Faults.{cause_of};
ghost use Rattle.line_checks.specs.MarksOf.{IsMarked};
ghost use Rattle.line_decisions.specs.Steps.{is_clients as is_of_client, is_clients_step as is_step_of_client, step_broken as what_is_broken};

use file_scripts::step_may_come;
use file_text::LineCause;
use line_checks::{LineFault, Marks};
use ptc_statement::{ScriptStep, Statement};

fn is_clients(statement: &Statement) -> bool
    ensures { result ≡ is_of_client statement.now }
{
    match statement {
        Statement::Check { .. } => false,
        Statement::SetMaster { .. } => false,
        Statement::ClearChecks { .. } => false,
        _ => true,
    }
}

fn is_clients_step(step: &ScriptStep) -> bool
    ensures { result ≡ is_step_of_client step.now }
{
    match step {
        ScriptStep::Run(statement) => is_clients(statement),
        _ => true,
    }
}

fn step_broken(within: bool, step: &ScriptStep) -> Option<LineFault>
    ensures { result ≡ what_is_broken within step.now }
{
    if !is_clients_step(step) {
        return Some(LineFault::Cause(LineCause::Tool));
    }
    if !step_may_come(within, step) {
        return Some(LineFault::Cause(LineCause::Script));
    }
    None
}

/// The rule on steps of scripts that a line breaks which is this step, if one: a statement of the tool, a BEGIN in
/// a transaction, or its end without one.
#[tactic(auto, using(crate::proofs::StepLemmas::step_decided))]
pub fn step_fault(marks: &Marks, step: &ScriptStep) -> Option<LineFault>
    ensures { (before : List Said) (line : List ℕ) → IsMarked marks.now before → OpensNone line → in_script before ≡ true → Clear 14 before line → IsStep before line step.now
        → MatchOption result (IsGood before line (StepOf step.now)) (λ fault. IsRefused before line (cause_of fault)) }
{
    step_broken(marks.in_transaction, step)
}
