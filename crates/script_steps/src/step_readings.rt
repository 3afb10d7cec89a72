ghost use Rattle.std.specs.Prelude.{◌≡◌, ◌≤◌, List, length, IfOk, IsTrue};
ghost use Rattle.file_text.specs.Said.{Said};
ghost use Rattle.file_text.specs.Context.{schemas_of};
ghost use Rattle.file_lines.specs.Openings.{step_of};
ghost use Rattle.statement_reads.specs.Reads.{are_countable};
ghost use Rattle.script_steps.specs.StepReadings.{IsStepReading, IsTold};

use file_lines::{StepWord, step_word};
use line_items::trimmed;
use ptc_statement::{ScriptStep, Statement};
use row_types::{Memory, R, Schemas};
use statement_grammar::TextFault;
use statement_reads::read;
use std::alloc::Global;

/// What a line that stands in a script is.
#[derive(Debug, Drop)]
pub enum StepReading {
    Step(ScriptStep),
    /// no step, and the first fault of its statement; places are bytes of the line from 1
    Fault(TextFault),
}

fn word_step(word: StepWord) -> ScriptStep
    ensures { result ≡ step_of word }
{
    match word {
        StepWord::Begin => ScriptStep::Begin,
        StepWord::Commit => ScriptStep::Commit,
        StepWord::Rollback => ScriptStep::Rollback,
    }
}

/// Out of memory is no fault of the line.
fn told(statement: Result<Statement, TextFault>) -> R<StepReading>
    ensures { IfOk result (λ reading. IsTold statement reading) }
{
    match statement {
        Ok(statement) => Ok(StepReading::Step(ScriptStep::Run(statement))),
        Err(TextFault::Memory) => Err(Memory),
        Err(fault) => Ok(StepReading::Fault(fault)),
    }
}

/// Reads a line that stands in a script, over the tables of the lines before it. The spaces at its end do not count.
/// Out of memory, a refusal hands nothing back, and nothing that the caller holds has changed.
#[tactic(auto, using(crate::proofs::StepLemmas::word_read, crate::proofs::StepLemmas::statement_read))]
pub fn read_step(alloc: Global, schemas: &Schemas, line: &[u8]) -> R<StepReading>
    requires short { length line.now ≤ 65535 }
    requires countable { IsTrue (are_countable schemas.now.tables) }
    ensures { IfOk result (λ reading. (before : List Said) → schemas.now.tables ≡ schemas_of before → IsStepReading before line.now reading) }
{
    match step_word(line) {
        Some(word) => Ok(StepReading::Step(word_step(word))),
        None => told(read(alloc, trimmed(line), schemas)),
    }
}
