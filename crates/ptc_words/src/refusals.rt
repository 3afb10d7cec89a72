ghost use Rattle.std.specs.Prelude.{◌≡◌, ◌++◌, IfOk, OnOk, map, string_bytes};
ghost use Rattle.ptc_words.specs.Words.{IsOfWords};
ghost use Rattle.ptc_words.specs.Refusals.{word_refusal as the_word_refusal, steps_refusal as the_steps_refusal};

use crate::words::WordFault;
use row_types::{Bytes, R};
use statement_text::{push_bytes, push_number};
use std::alloc::Global;

/// The line with which a program of this name refuses its words.
#[tactic(auto, unfolding(crate::specs::Refusals::word_refusal))]
pub fn word_refusal(alloc: Global, program: &[u8], words: &[String], fault: WordFault) -> R<Bytes>
    requires { IsOfWords (map string_bytes words.now) fault }
    ensures { IfOk result (λ line. line ≡ the_word_refusal program.now (map string_bytes words.now) fault) }
{
    let mut out = Vec::new(alloc);
    push_bytes(&mut out, program)?;
    match fault {
        WordFault::Nothing => push_bytes(&mut out, b": no command\n")?,
        WordFault::Bad { index } => {
            push_bytes(&mut out, b": word ")?;
            push_number(&mut out, index as u64)?;
            push_bytes(&mut out, b" refused: ")?;
            push_bytes(&mut out, words[(index - 1) as usize].as_bytes())?;
            push_bytes(&mut out, b"\n")?;
        }
        WordFault::Missing { index } => {
            push_bytes(&mut out, b": value missing: ")?;
            push_bytes(&mut out, words[(index - 1) as usize].as_bytes())?;
            push_bytes(&mut out, b"\n")?;
        }
    }
    Ok(Bytes { items: out })
}

/// The line with which it refuses a run of more moves than these.
#[tactic(auto, unfolding(crate::specs::Refusals::steps_refusal))]
pub fn steps_refusal(alloc: Global, program: &[u8], moves: u64) -> R<Bytes>
    ensures { IfOk result (λ line. line ≡ the_steps_refusal program.now moves) }
{
    let mut out = Vec::new(alloc);
    push_bytes(&mut out, program)?;
    push_bytes(&mut out, b": step limit ")?;
    push_number(&mut out, moves)?;
    push_bytes(&mut out, b"\n")?;
    Ok(Bytes { items: out })
}
