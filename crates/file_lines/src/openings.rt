ghost use Rattle.std.specs.Prelude.{◌≡◌, ◌<◌, ◌^◌, ◌||◌, length};
ghost use Rattle.std.specs.Option.{option_map};
ghost use Rattle.file_text.specs.Parts.{words_of};
ghost use Rattle.file_text.specs.Rules.{is_skipped as is_left_out, is_comment as is_left_out_by_sign, is_one_word as is_the_word, word_step};
ghost use Rattle.file_lines.specs.Openings.{IsOpening, step_of};

use file_text::Section;
use line_items::trimmed;
use line_parts::{Cutting, next_part};
use line_words::section_named;

/// What the first word of a line begins.
#[derive(Clone, Copy)]
pub enum Opening {
    /// the line is empty, a comment, or has only spaces
    Skipped,
    Opened(Section),
    /// no section; the place of the first word
    Unopened { place: u32 },
}

/// A line of a script that is one word.
#[derive(Clone, Copy, Debug, PartialEq, Eq)]
pub enum StepWord {
    Begin,
    Commit,
    Rollback,
}

fn is_comment(line: &[u8]) -> bool
    ensures { result ≡ is_left_out_by_sign line.now }
{
    match line.split_first() {
        None => false,
        Some((byte, _)) => *byte == b'#',
    }
}

#[tactic(auto, using(crate::proofs::OpeningLemmas::empty_is))]
fn is_skipped(line: &[u8]) -> bool
    ensures { result ≡ is_left_out line.now }
{
    is_comment(line) || trimmed(line).len() == 0
}

/// What a line begins.
#[tactic(auto, using(crate::proofs::OpeningLemmas::opens, crate::proofs::OpeningLemmas::opens_none, crate::proofs::OpeningLemmas::opens_nothing))]
pub fn opening_of(line: &[u8]) -> Opening
    requires { length line.now < 2 ^ 31 }
    ensures { IsOpening line.now result }
{
    if is_skipped(line) {
        return Opening::Skipped;
    }
    match next_part(Cutting::Words, 1, line) {
        None => Opening::Unopened {
            place: trimmed(line).len() as u32 + 1,
        },
        Some(part) => match section_named(part.text) {
            Some(section) => Opening::Opened(section),
            None => Opening::Unopened { place: part.place },
        },
    }
}

/// Whether a line is this one word, in any mix of capital and small letters.
#[tactic(auto, using(crate::proofs::OpeningLemmas::no_word, crate::proofs::OpeningLemmas::one_word, crate::proofs::OpeningLemmas::more_words))]
pub fn is_one_word(word: &[u8], line: &[u8]) -> bool
    requires { length line.now < 2 ^ 31 }
    ensures { result ≡ is_the_word word.now (words_of line.now) }
{
    match next_part(Cutting::Words, 1, line) {
        None => false,
        Some(part) => match next_part(part.cutting, part.next, part.rest) {
            None => word.eq_ignore_ascii_case(part.text),
            Some(_) => false,
        },
    }
}

/// Which of the three words of transactions a line is.
pub fn step_word(line: &[u8]) -> Option<StepWord>
    requires { length line.now < 2 ^ 31 }
    ensures { option_map step_of result ≡ word_step (words_of line.now) }
{
    if is_one_word(b"BEGIN".as_slice(), line) {
        return Some(StepWord::Begin);
    }
    if is_one_word(b"COMMIT".as_slice(), line) {
        return Some(StepWord::Commit);
    }
    if is_one_word(b"ROLLBACK".as_slice(), line) {
        return Some(StepWord::Rollback);
    }
    None
}
