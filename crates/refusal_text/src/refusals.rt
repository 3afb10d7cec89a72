ghost use Rattle.std.specs.Prelude.{◌≡◌, ◌++◌, IfOk, OnOk};
ghost use Rattle.std.specs.Fmt.{decimal};
ghost use Rattle.refusal_text.specs.Refusals.{cause_text, fault_text, is_refusal as refuses, line_text, place_of as the_place, refusal_of, refused, statement_word as word_of_statement};

use crate::words::{limit_word, place_of, row_word, statement_word};
use file_text::{FileFault, LineCause};
use row_types::{Bytes, R};
use statement_grammar::TextFault;
use statement_text::{push_bytes, push_number};
use std::alloc::Global;

/// The line, with its line feed, with which the program of this name refuses a file. None for out of memory,
/// which refuses nothing. Answers an error only when out of memory.
pub fn file_refusal(alloc: Global, program: &[u8], fault: FileFault) -> R<Option<Bytes>>
    ensures { IfOk result (λ line. line ≡ refusal_of program.now fault) }
{
    if !is_refusal(fault) {
        return Ok(None);
    }
    let mut out = Vec::new(alloc);
    push_refused(&mut out, program)?;
    push_fault(&mut out, fault)?;
    push_bytes(&mut out, b"\n")?;
    Ok(Some(Bytes { items: out }))
}

fn is_refusal(fault: FileFault) -> bool
    ensures { result ≡ refuses fault }
{
    match fault {
        FileFault::Line { cause, .. } => match cause {
            LineCause::Statement(fault) => match fault {
                TextFault::Memory => false,
                _ => true,
            },
            _ => true,
        },
        FileFault::Limit { .. } => true,
        FileFault::Isolation { .. } => true,
        FileFault::Truncated { .. } => true,
        FileFault::Memory => false,
    }
}

#[tactic(auto, unfolding(crate::specs::Refusals::refused))]
fn push_refused(out: &mut Vec<u8>, program: &[u8]) -> R<()>
    ensures { OnOk result (out.new.items ≡ out.old.items ++ refused program.now) }
{
    push_bytes(out, program)?;
    push_bytes(out, b": workload refused: ")
}

#[tactic(auto, unfolding(crate::specs::Refusals::line_text))]
fn push_line(out: &mut Vec<u8>, number: u32) -> R<()>
    ensures { OnOk result (out.new.items ≡ out.old.items ++ line_text number) }
{
    push_bytes(out, b"line ")?;
    push_number(out, number as u64)?;
    push_bytes(out, b": ")
}

#[tactic(auto, unfolding(crate::specs::Refusals::fault_text))]
fn push_fault(out: &mut Vec<u8>, fault: FileFault) -> R<()>
    ensures { OnOk result (out.new.items ≡ out.old.items ++ fault_text fault) }
{
    match fault {
        FileFault::Line { number, cause } => {
            push_line(out, number)?;
            push_cause(out, cause)
        }
        FileFault::Limit { which, got } => {
            push_bytes(out, b"limit ")?;
            push_bytes(out, limit_word(which))?;
            push_bytes(out, b": ")?;
            push_number(out, got)
        }
        FileFault::Isolation { line } => {
            push_line(out, line)?;
            push_bytes(out, b"isolation")
        }
        FileFault::Truncated { line } => {
            push_line(out, line)?;
            push_bytes(out, b"truncated")
        }
        FileFault::Memory => Ok(()),
    }
}

#[tactic(auto, unfolding(crate::specs::Refusals::cause_text))]
fn push_cause(out: &mut Vec<u8>, cause: LineCause) -> R<()>
    ensures { OnOk result (out.new.items ≡ out.old.items ++ cause_text cause) }
{
    match cause {
        LineCause::AfterEnd => push_bytes(out, b"after end"),
        LineCause::Order => push_bytes(out, b"order"),
        LineCause::Form { place } => {
            push_bytes(out, b"form at ")?;
            push_number(out, place as u64)
        }
        LineCause::Twice => push_bytes(out, b"twice"),
        LineCause::Row(fault) => {
            push_bytes(out, b"row: ")?;
            push_bytes(out, row_word(fault))
        }
        LineCause::Statement(fault) => push_statement_fault(out, fault),
        LineCause::Tool => push_bytes(out, b"tool statement"),
        LineCause::Script => push_bytes(out, b"script"),
        LineCause::Actor { place } => {
            push_bytes(out, b"actor at ")?;
            push_number(out, place as u64)
        }
    }
}

#[tactic(auto, unfolding(crate::specs::Refusals::cause_text))]
fn push_statement_fault(out: &mut Vec<u8>, fault: TextFault) -> R<()>
    ensures { OnOk result (out.new.items ≡ out.old.items ++ cause_text (LineCause.Statement fault)) }
{
    push_bytes(out, b"statement at ")?;
    push_number(out, place_of(fault) as u64)?;
    push_bytes(out, b": ")?;
    push_bytes(out, statement_word(fault))
}
