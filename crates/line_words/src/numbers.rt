ghost use Rattle.std.specs.Prelude.{◌≡◌, ℕ, MatchOption};
ghost use Rattle.statement_tokens.specs.Spellings.{IsNumberText};
ghost use Rattle.file_text.specs.Said.{IsDecimal, IsLed, begins_zero as first_is_zero};
ghost use Rattle.line_words.specs.Numbers.{Capped, DecimalCut, NoDecimalCut, is_canonical as canonical};

use statement_tokens::behind_digits;

fn begins_zero(text: &[u8]) -> bool
    ensures { result ≡ first_is_zero text.now }
{
    match text.split_first() {
        None => false,
        Some((byte, _)) => *byte == b'0',
    }
}

/// Whether the digits of this number with which a text begins are a number of the file.
fn is_canonical(text: &[u8], size: usize) -> bool
    ensures { result ≡ canonical text.now size }
{
    size != 0 && (size == 1 || !begins_zero(text))
}

/// The number without a leading zero with which a text begins, and what is behind its digits; None where
/// none does. A number past 128 bits is the greatest of 128 bits.
#[tactic(auto, using(statement_tokens::proofs::CutLemmas::behind_shorter, crate::proofs::NumberLemmas::decimal_cut, crate::proofs::NumberLemmas::no_decimal_cut))]
pub fn cut_decimal<'a>(text: &'a [u8]) -> Option<(u128, &'a [u8])>
    ensures { MatchOption result (NoDecimalCut text.now) (λ found. DecimalCut found.0 text.now found.1.now) }
{
    let (number, rest) = behind_digits(text);
    let size = text.len() - rest.len();
    if is_canonical(text, size) {
        Some((number, rest))
    } else {
        None
    }
}

/// The number that a text is, without a leading zero, or the greatest of 128 bits where it is greater; None
/// where it is none.
#[tactic(auto, using(crate::proofs::NumberLemmas::whole_decimal, crate::proofs::NumberLemmas::no_whole_decimal, crate::proofs::NumberLemmas::more_than_decimal))]
pub fn decimal_of(text: &[u8]) -> Option<u128>
    ensures { MatchOption result ((n : ℕ) → IsDecimal n text.now → ⊥) (λ found. Capped (λ n. IsDecimal n text.now) found) }
{
    match cut_decimal(text) {
        None => None,
        Some((number, rest)) => { if rest.len() == 0 { Some(number) } else { None } }
    }
}

/// The number of a text of digits, with leading zeros or without, or the greatest of 128 bits where it is
/// greater; None where the text is none.
#[tactic(auto, using(crate::proofs::NumberLemmas::digits_number, crate::proofs::NumberLemmas::no_digits, crate::proofs::NumberLemmas::not_all_digits))]
pub fn digits_of(text: &[u8]) -> Option<u128>
    ensures { MatchOption result ((n : ℕ) → IsNumberText n text.now → ⊥) (λ found. Capped (λ n. IsNumberText n text.now) found) }
{
    let (number, rest) = behind_digits(text);
    if rest.len() == 0 {
        if text.len() == 0 { None } else { Some(number) }
    } else {
        None
    }
}

/// The number behind a letter; None where a text is not the letter and a number without a leading zero. A
/// number past 128 bits is the greatest of 128 bits.
#[tactic(auto, using(crate::proofs::NumberLemmas::is_led, crate::proofs::NumberLemmas::no_led, crate::proofs::NumberLemmas::other_letter, crate::proofs::NumberLemmas::no_letter))]
pub fn led_number(letter: u8, text: &[u8]) -> Option<u128>
    ensures { MatchOption result ((n : ℕ) → IsLed letter n text.now → ⊥) (λ found. Capped (λ n. IsLed letter n text.now) found) }
{
    match text.split_first() {
        None => None,
        Some((byte, more)) => {
            if *byte == letter {
                decimal_of(more)
            } else {
                None
            }
        }
    }
}
