ghost use Rattle.std.specs.Prelude.{◌≡◌, ◌≢◌, ℕ, List, [], ◌∷◌, ◌++◌, IfOk, OnOk};
ghost use Rattle.statement_text.specs.StatementTexts.{statement_text};
ghost use Rattle.statement_reads.specs.Reads.{IsRead};
ghost use Rattle.text_check.specs.Checks.{AddsAnswer, AreAnswers, fault_text, texts_of};

use file_lines::{content, first_line};
use ptc_statement::Statement;
use refusal_text::{place_of, statement_word};
use row_types::{Memory, R, Schemas};
use statement_grammar::TextFault;
use statement_reads::{are_countable, read};
use statement_text::{push_bytes, push_number, write};
use std::alloc::Global;

/// `!`, the place and the words of a fault.
#[tactic(auto, unfolding(crate::specs::Checks::fault_text))]
fn push_fault(fault: TextFault, out: &mut Vec<u8>) -> R<()>
    ensures { OnOk result (out.new.items ≡ out.old.items ++ fault_text fault) }
{
    push_bytes(out, b"!")?;
    push_number(out, place_of(fault) as u64)?;
    push_bytes(out, b" ")?;
    push_bytes(out, statement_word(fault))
}

/// A line with a fault; out of memory is none.
fn push_refusal(fault: TextFault, out: &mut Vec<u8>) -> R<()>
    ensures { OnOk result ((out.new.items ≡ out.old.items ++ fault_text fault ++ 10 ∷ []) × (fault ≢ TextFault.Memory)) }
{
    if fault == TextFault::Memory {
        return Err(Memory);
    }
    push_fault(fault, out)?;
    push_bytes(out, b"\n")
}

fn push_statement(
    alloc: Global,
    statement: &Statement,
    schemas: &Schemas,
    out: &mut Vec<u8>,
) -> R<()>
    ensures { OnOk result (out.new.items ≡ out.old.items ++ statement_text schemas.now.tables statement.now ++ 10 ∷ []) }
{
    write(alloc, statement, schemas, out)?;
    push_bytes(out, b"\n")
}

/// A line too long for places of 32 bits is out of memory, and so are tables that cannot be counted.
fn read_line(alloc: Global, line: &[u8], schemas: &Schemas) -> Result<Statement, TextFault>
    ensures { IsRead schemas.now.tables line.now result }
{
    if line.len() >= 4294967295 || !are_countable(schemas) {
        return Err(TextFault::Memory);
    }
    read(alloc, line, schemas)
}

fn push_read(
    alloc: Global,
    read: &Result<Statement, TextFault>,
    schemas: &Schemas,
    out: &mut Vec<u8>,
) -> R<()>
    ensures { (line : List ℕ) → IsRead schemas.now.tables line read.now → OnOk result (AddsAnswer schemas.now.tables line out.old.items out.new.items) }
{
    match read {
        Ok(statement) => push_statement(alloc, statement, schemas, out),
        Err(fault) => push_refusal(*fault, out),
    }
}

fn push_answer(alloc: Global, line: &[u8], schemas: &Schemas, out: &mut Vec<u8>) -> R<()>
    ensures { OnOk result (AddsAnswer schemas.now.tables line.now out.old.items out.new.items) }
{
    push_read(alloc, &read_line(alloc, line, schemas), schemas, out)
}

/// The answers to lines of statements.
#[tactic(auto, using(crate::proofs::AnswerLemmas::none_answered, crate::proofs::AnswerLemmas::answered, crate::proofs::AnswerLemmas::all_answered))]
pub fn answers(alloc: Global, text: &[u8], schemas: &Schemas) -> R<Vec<u8>>
    ensures { IfOk result (λ out. AreAnswers schemas.now.tables (texts_of text.now) out.items) }
{
    let mut out = Vec::new(alloc);
    let mut rest = text;
    while let Some((line, more)) = first_line(rest) {
        push_answer(alloc, content(line), schemas, &mut out)?;
        rest = more;
    }
    Ok(out)
}
