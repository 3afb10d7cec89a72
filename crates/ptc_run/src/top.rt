//! The top call: from the words and the bytes of the input to the bytes of the output.
ghost use Rattle.std.specs.Prelude.{◌≡◌, ◌<◌, ◌≤◌, ◌⊎◌, List, ℕ, Some, Ok, Err, map, string_bytes, length, take, IfOk, IfSome};
ghost use Rattle.workload_file.specs.declared.workload.Workload.{Workload as WholeWorkload};
ghost use Rattle.workload_file.specs.Workload.{IsWorkload};
ghost use Rattle.ptc_io.specs.Faults.{HasRisen};
ghost use Rattle.ptc_io.specs.Bytes.{IsAtEnd, TakesAtMost};
ghost use Rattle.ptc_run.specs.FirstForm.{IsWorkloadText};
ghost use Rattle.ptc_run.specs.Due.{Due, FileDue, Reports, WroteDue, WroteFront, AreTaken, IsWritten, IsReported, WasReadOut};

use crate::first_form;
use crate::first_form::FileFault;
use crate::words::{read_words, refuse_bytes, refuse_line, refuse_words};
use cluster_core::World;
use ptc_io::{ReadFault, Sink, Source, Status, read_to_limit, write_all};
use report_text::report;
use row_types::{Bytes, Memory, R};
use std::alloc::Global;
use workload_file::Workload;

/// The most bytes that a file may have.
const MOST_BYTES: usize = 16_777_216;

/// A text that is due, and the status that goes with it.
#[derive(Debug, Drop)]
struct Answer {
    text: Bytes,
    code: u8,
}

/// Why there is no answer.
#[derive(Clone, Copy, Debug, PartialEq, Eq)]
enum NoAnswer {
    Read,
    Memory,
}

impl From<Memory> for NoAnswer {
    ghost use Rattle.ptc_run.specs.declared.top.NoAnswer.TheVariants.{Memory as OutOfMemory};

    ghost from_gives = { λ _ e. e ≡ OutOfMemory };

    fn from(_error: Memory) -> NoAnswer {
        NoAnswer::Memory
    }
}

/// Reads the words and the whole input, runs the workload that the input is the file of, and writes
/// the report of the run, or the line that refuses the words or the file.
///
/// The status is 0, or 16 where the report has a DIFFER line; 1 where the words or the file are
/// refused; 2 where the source failed, and 4 when out of memory, both with nothing written; 3 where
/// the sink failed, with a prefix of what was due written. Faults are met in the order words,
/// reading, workload, run, writing.
pub fn ptc<I: Source, O: Sink>(
    alloc: Global,
    words: &[String],
    input: &mut I,
    output: &mut O,
) -> Status
    // No other status comes.
    ensures code { IsWritten result.code ⊎ ((result.code ≡ 2) ⊎ ((result.code ≡ 3) ⊎ (result.code ≡ 4))) }

    // What is due was written whole: the report of the run of the file's workload, in which each
    // verdict compares the source's and the replica's rows at one position of the log, or a refusal.
    ensures whole { IsWritten result.code → WroteDue (map string_bytes words.now) (I.left input.old) (O.written output.old) (O.written output.new) result.code }
    ensures ended { IsReported result.code → AreTaken (map string_bytes words.now) × IsAtEnd (I.left input.new) }

    // No more is taken than shows that an input is too long, and a file is refused only after it was
    // read to its end or shown to be too long.
    ensures taken { TakesAtMost 16777217 (I.left input.old) (I.left input.new) }
    ensures refused { result.code ≡ 1 → AreTaken (map string_bytes words.now) → WasReadOut (I.left input.old) (I.left input.new) }

    // A source that failed, and running out of memory, leave the sink as it was.
    ensures read { result.code ≡ 2 → AreTaken (map string_bytes words.now) × HasRisen (I.faults input.old) (I.faults input.new) × (output.new ≡ output.old) }
    ensures memory { result.code ≡ 4 → output.new ≡ output.old }

    // A sink that failed has a prefix of what is due.
    ensures write { result.code ≡ 3 → HasRisen (O.faults output.old) (O.faults output.new) × WroteFront (map string_bytes words.now) (I.left input.old) (O.written output.old) (O.written output.new) }

    // Words that are refused leave the source as it was.
    ensures unread { (AreTaken (map string_bytes words.now) → ⊥) → input.new ≡ input.old }

    // Good words and a good file give a whole report, where nothing fails and memory suffices.
    ensures complete { (bytes : List ℕ) (workload : WholeWorkload)
        → AreTaken (map string_bytes words.now) → I.left input.old ≡ Some bytes
        → length bytes ≤ 16777216 → IsWorkloadText bytes workload
        → I.faults input.new ≡ I.faults input.old → O.faults output.new ≡ O.faults output.old
        → IsReported result.code ⊎ (result.code ≡ 4) }
{
    match whole_answer(alloc, words, input) {
        Err(NoAnswer::Read) => Status { code: 2 },
        Err(NoAnswer::Memory) => Status { code: 4 },
        Ok(answer) => match write_all(output, answer.text.as_slice()) {
            Err(_failed) => Status { code: 3 },
            Ok(()) => Status { code: answer.code },
        },
    }
}

/// What is due for the words and the input.
fn whole_answer<I: Source>(
    alloc: Global,
    words: &[String],
    input: &mut I,
) -> Result<Answer, NoAnswer>
    ensures due { IfOk result (λ answer. Due (map string_bytes words.now) (I.left input.old) answer.code answer.text) }
    ensures code { IfOk result (λ answer. IsWritten answer.code) }
    ensures ended { IfOk result (λ answer. IsReported answer.code → AreTaken (map string_bytes words.now) × IsAtEnd (I.left input.new)) }
    ensures taken { TakesAtMost 16777217 (I.left input.old) (I.left input.new) }
    ensures refused { IfOk result (λ answer. AreTaken (map string_bytes words.now) → WasReadOut (I.left input.old) (I.left input.new)) }
    ensures read { result ≡ Err NoAnswer.Read → AreTaken (map string_bytes words.now) × HasRisen (I.faults input.old) (I.faults input.new) }
    ensures unread { (AreTaken (map string_bytes words.now) → ⊥) → input.new ≡ input.old }
{
    match read_words(words) {
        Err(fault) => {
            let text = refuse_words(alloc, words, fault)?;
            Ok(Answer { text, code: 1 })
        }
        Ok(()) => {
            let answer = input_answer(alloc, input)?;
            Ok(answer)
        }
    }
}

/// What is due for the input, where the words are taken.
fn input_answer<I: Source>(alloc: Global, input: &mut I) -> Result<Answer, NoAnswer>
    ensures due { IfOk result (λ answer. IfSome (I.left input.old) (λ bytes. FileDue bytes answer.code answer.text)) }
    ensures code { IfOk result (λ answer. IsWritten answer.code) }
    ensures ended { IfOk result (λ answer. IsReported answer.code → IsAtEnd (I.left input.new)) }
    ensures taken { TakesAtMost 16777217 (I.left input.old) (I.left input.new) }
    ensures read_out { IfOk result (λ answer. WasReadOut (I.left input.old) (I.left input.new)) }
    ensures read { result ≡ Err NoAnswer.Read → HasRisen (I.faults input.old) (I.faults input.new) }
{
    match read_to_limit(alloc, input, MOST_BYTES) {
        Err(ReadFault::Failed) => Err(NoAnswer::Read),
        Err(ReadFault::Memory) => Err(NoAnswer::Memory),
        Ok(bytes) => {
            let answer = file_answer(alloc, bytes.as_slice())?;
            Ok(answer)
        }
    }
}

/// What is due for the bytes of the input, or for their front where they are too many.
fn file_answer(alloc: Global, bytes: &[u8]) -> R<Answer>
    ensures due { IfOk result (λ answer. FileDue bytes.now answer.code answer.text) }
    ensures code { IfOk result (λ answer. IsWritten answer.code) }
{
    match first_form::read(alloc, bytes) {
        Ok(workload) => {
            let answer = run_answer(alloc, workload)?;
            Ok(answer)
        }
        Err(FileFault::Early { number }) => {
            let text = refuse_line(alloc, number)?;
            Ok(Answer { text, code: 1 })
        }
        Err(FileFault::Limit { got, .. }) => {
            let text = refuse_bytes(alloc, got)?;
            Ok(Answer { text, code: 1 })
        }
        Err(FileFault::Memory) => Err(Memory),
    }
}

/// The report of a workload's run.
fn run_answer(alloc: Global, workload: Workload) -> R<Answer>
    requires { IsWorkload workload }
    ensures report { IfOk result (λ answer. Reports workload answer.code answer.text) }
{
    let mut world = World::new(alloc, workload)?;
    world.run()?;
    let summary = world.into_summary()?;
    let text = report(alloc, &summary)?;
    Ok(Answer {
        text: Bytes { items: text },
        code: summary.status,
    })
}
