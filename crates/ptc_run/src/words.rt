//! The words of the command line, and the lines of refusal.
ghost use Rattle.std.specs.Prelude.{◌≡◌, ◌++◌, ◌↔◌, IsTrue, IfOk, IfErr, OnOk, map, string_bytes};
ghost use Rattle.ptc_run.specs.Words.{words_read, IsOfWords, word_refusal, early_refusal, limit_refusal, workload_refused};

use row_types::{Bytes, R};
use statement_text::{push_bytes, push_number};
use std::alloc::Global;

/// Why words are refused. Words are counted from 1.
#[derive(Clone, Copy, Debug, PartialEq, Eq)]
pub enum WordFault {
    /// There is no word.
    Nothing,
    /// The first word that is not allowed at its place.
    Bad { index: u32 },
}

impl WordFault {
    pub fn copy(&self, _alloc: Global) -> R<WordFault>
        ensures { IfOk result (λ copy. copy ≡ self.now) }
    {
        Ok(*self)
    }

    pub fn same(&self, other: &WordFault) -> bool
        ensures { IsTrue result ↔ (self.now ≡ other.now) }
    {
        *self == *other
    }
}

/// Takes the one word `run`, and refuses all others.
pub fn read_words(words: &[String]) -> Result<(), WordFault>
    ensures read { result ≡ words_read (map string_bytes words.now) }
    ensures index { IfErr result (IsOfWords (map string_bytes words.now)) }
{
    match words {
        [] => Err(WordFault::Nothing),
        [word] => {
            if word.as_bytes() == b"run".as_slice() {
                Ok(())
            } else {
                Err(WordFault::Bad { index: 1 })
            }
        }
        [word, _, ..] => {
            if word.as_bytes() == b"run".as_slice() {
                Err(WordFault::Bad { index: 2 })
            } else {
                Err(WordFault::Bad { index: 1 })
            }
        }
    }
}

/// The line that refuses the words.
#[tactic(auto, unfolding(crate::specs::Words::word_refusal))]
pub fn refuse_words(alloc: Global, words: &[String], fault: WordFault) -> R<Bytes>
    requires { IsOfWords (map string_bytes words.now) fault }
    ensures { IfOk result (λ line. line ≡ word_refusal (map string_bytes words.now) fault) }
{
    let mut out = Vec::new(alloc);
    match fault {
        WordFault::Nothing => push_bytes(&mut out, b"ptc: no command\n")?,
        WordFault::Bad { index } => {
            push_bytes(&mut out, b"ptc: word ")?;
            push_number(&mut out, index as u64)?;
            push_bytes(&mut out, b" refused: ")?;
            push_bytes(&mut out, words[(index - 1) as usize].as_bytes())?;
            push_bytes(&mut out, b"\n")?;
        }
    }
    Ok(Bytes { items: out })
}

#[tactic(auto, unfolding(crate::specs::Words::workload_refused))]
fn push_refused(out: &mut Vec<u8>) -> R<()>
    ensures { OnOk result (out.new.items ≡ out.old.items ++ workload_refused) }
{
    push_bytes(out, b"ptc: workload refused: ")
}

/// The line that refuses a file by its first line that is not in the form.
#[tactic(auto, unfolding(crate::specs::Words::early_refusal))]
pub fn refuse_line(alloc: Global, number: u32) -> R<Bytes>
    ensures { IfOk result (λ line. line ≡ early_refusal number) }
{
    let mut out = Vec::new(alloc);
    push_refused(&mut out)?;
    push_bytes(&mut out, b"line ")?;
    push_number(&mut out, number as u64)?;
    push_bytes(&mut out, b": early\n")?;
    Ok(Bytes { items: out })
}

/// The line that refuses a file of too many bytes.
#[tactic(auto, unfolding(crate::specs::Words::limit_refusal))]
pub fn refuse_bytes(alloc: Global, got: u64) -> R<Bytes>
    ensures { IfOk result (λ line. line ≡ limit_refusal got) }
{
    let mut out = Vec::new(alloc);
    push_refused(&mut out)?;
    push_bytes(&mut out, b"limit bytes: ")?;
    push_number(&mut out, got)?;
    push_bytes(&mut out, b"\n")?;
    Ok(Bytes { items: out })
}
