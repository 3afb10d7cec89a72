ghost use Rattle.std.specs.Prelude.{◌≡◌, ◌<◌, ◌-◌, ◌^◌, length, ◌∷◌, [], min, IfOk, Some, MatchOption};
ghost use Rattle.std.specs.Char.{is_ascii_digit};
ghost use Rattle.std.specs.Option.{option_map};
ghost use Rattle.statement_tokens.specs.Spellings.{is_letter as is_letter_byte, is_word_byte as is_byte_of_words, is_text_byte as is_byte_of_texts, number_from};
ghost use Rattle.statement_tokens.specs.Tokens.{IsCut, NoToken, most_number};
ghost use Rattle.statement_tokens.specs.FirstToken.{behind, front_of, first_token as the_first, greater_sign as the_greater, less_sign as the_less, name_within, number_at as the_number, onto, quoted, sign_at as the_sign, single_sign as the_single, text_of, unequal_sign as the_unequal, word_at as the_word, word_of};

use crate::keywords::reserved_word;
use crate::words::{Math, Word};
use ptc_statement::Op;
use row_types::{Bytes, R};
use std::alloc::Global;

/// A word, and what stands behind it.
type Cut<'a> = Option<(Word, &'a [u8])>;

/// The token with which a text begins, and what is behind it; None where no token begins it. A token is the
/// longest that fits. `behind_sign` says whether a `-` that is a sign stands before.
#[tactic(auto, using(crate::proofs::FirstLemmas::no_token, crate::proofs::FirstLemmas::cut_at))]
pub fn next_token<'a>(alloc: Global, text: &'a [u8], behind_sign: bool) -> R<Cut<'a>>
    ensures { IfOk result (λ cut. MatchOption cut (NoToken behind_sign text.now) (λ found. IsCut behind_sign found.0 text.now found.1.now)) }
{
    match first_token(alloc, text, behind_sign)? {
        None => Ok(None),
        Some((word, rest)) => Ok(Some((word, rest))),
    }
}

fn first_token<'a>(alloc: Global, text: &'a [u8], behind_sign: bool) -> R<Cut<'a>>
    ensures { IfOk result (λ cut. option_map (λ found. (found.0, found.1.now)) cut ≡ the_first behind_sign text.now) }
{
    let Some((byte, rest)) = text.split_first() else {
        return Ok(None);
    };
    if is_letter(*byte) {
        return word_at(alloc, text);
    }
    if byte.is_ascii_digit() {
        return Ok(number_at(text, behind_sign));
    }
    if *byte == b'\'' {
        return text_at(alloc, rest);
    }
    Ok(sign_at(*byte, rest))
}

/// Whether a byte can begin a word: a letter or `_`.
pub fn is_letter(byte: u8) -> bool
    ensures { result ≡ is_letter_byte byte }
{
    byte.is_ascii_alphabetic() || byte == b'_'
}

fn is_word_byte(byte: u8) -> bool
    ensures { result ≡ is_byte_of_words byte }
{
    is_letter(byte) || byte.is_ascii_digit()
}

/// Whether a byte can stand in a text between quotes: all but the ASCII control bytes.
pub fn is_text_byte(byte: u8) -> bool
    ensures { result ≡ is_byte_of_texts byte }
{
    !byte.is_ascii_control()
}

/// What is behind the letters, digits and `_` with which a text begins.
pub fn behind_word<'a>(text: &'a [u8]) -> &'a [u8]
    ensures { result.now ≡ behind is_byte_of_words text.now }
{
    let mut rest = text;
    while let Some((byte, more)) = rest.split_first() {
        if !is_word_byte(*byte) {
            return rest;
        }
        rest = more;
    }
    rest
}

/// What is behind the digits with which a text begins, and their number, or the greatest one of 128 bits where
/// it is greater.
#[tactic(auto, using(crate::proofs::CutLemmas::digit_step, crate::proofs::CutLemmas::digits_end, crate::proofs::CutLemmas::digits_end_there))]
pub fn behind_digits<'a>(text: &'a [u8]) -> (u128, &'a [u8])
    ensures number { result.0 ≡ min (number_from 0 (front_of is_ascii_digit text.now)) (2 ^ 128 - 1) }
    ensures rest { result.1.now ≡ behind is_ascii_digit text.now }
{
    let mut number = 0u128;
    let mut rest = text;
    while let Some((byte, more)) = rest.split_first() {
        if !byte.is_ascii_digit() {
            return (number, rest);
        }
        number = number
            .saturating_mul(10)
            .saturating_add((*byte - b'0') as u128);
        rest = more;
    }
    (number, rest)
}

#[tactic(auto, using(crate::proofs::CutLemmas::behind_shorter, crate::proofs::CutLemmas::front_taken))]
fn word_at<'a>(alloc: Global, text: &'a [u8]) -> R<Cut<'a>>
    ensures { IfOk result (λ cut. option_map (λ found. (found.0, found.1.now)) cut ≡ the_word text.now) }
{
    let rest = behind_word(text);
    let front = text.split_at(text.len() - rest.len()).0;
    match word_named(alloc, front)? {
        None => Ok(None),
        Some(word) => Ok(Some((word, rest))),
    }
}

/// A keyword, or a name of at most 32 bytes.
fn word_named(alloc: Global, text: &[u8]) -> R<Option<Word>>
    ensures { IfOk result (λ word. word ≡ word_of text.now) }
{
    let reserved = reserved_word(text);
    if reserved.is_some() {
        return Ok(reserved);
    }
    if text.len() > 32 {
        return Ok(None);
    }
    Ok(Some(Word::Name(Bytes {
        items: Vec::from_slice(alloc, text)?,
    })))
}

fn number_at<'a>(text: &'a [u8], behind_sign: bool) -> Cut<'a>
    ensures { option_map (λ found. (found.0, found.1.now)) result ≡ the_number behind_sign text.now }
{
    let (number, rest) = behind_digits(text);
    if number > greatest_number(behind_sign) {
        return None;
    }
    Some((Word::Number(number), rest))
}

/// The end of the numbers of 128 bits, above, or below behind a sign.
fn greatest_number(behind_sign: bool) -> u128
    ensures { result ≡ most_number behind_sign }
{
    if behind_sign {
        170141183460469231731687303715884105728
    } else {
        170141183460469231731687303715884105727
    }
}

/// A text, from behind its opening quote.
#[tactic(auto, using(crate::proofs::CutLemmas::quote_step, crate::proofs::CutLemmas::quote_ends, crate::proofs::CutLemmas::text_step, crate::proofs::CutLemmas::text_ends_there))]
fn text_at<'a>(alloc: Global, text: &'a [u8]) -> R<Cut<'a>>
    ensures { IfOk result (λ cut. option_map (λ found. (found.0, found.1.now)) cut ≡ text_of (quoted text.now)) }
{
    let mut content = Bytes::new(alloc);
    let mut rest = text;
    while let Some((byte, more)) = rest.split_first() {
        if *byte == b'\'' {
            let Some(behind) = behind_quote(more) else {
                return Ok(Some((Word::Text(content), more)));
            };
            content.push(b'\'')?;
            rest = behind;
        } else if is_text_byte(*byte) {
            content.push(*byte)?;
            rest = more;
        } else {
            return Ok(None);
        }
    }
    Ok(None)
}

/// What is behind a quote with which a text begins.
fn behind_quote<'a>(text: &'a [u8]) -> Option<&'a [u8]>
    ensures { MatchOption result (quoted (39 ∷ text.now) ≡ Some ([], text.now)) (λ rest. (quoted (39 ∷ text.now) ≡ onto 39 (quoted rest.now)) × (length rest.now < length text.now)) }
{
    match text.split_first() {
        None => None,
        Some((byte, rest)) => { if *byte == b'\'' { Some(rest) } else { None } }
    }
}

fn sign_at<'a>(byte: u8, rest: &'a [u8]) -> Cut<'a>
    ensures { option_map (λ found. (found.0, found.1.now)) result ≡ the_sign byte rest.now }
{
    if byte == b'<' {
        return Some(less_sign(rest));
    }
    if byte == b'>' {
        return Some(greater_sign(rest));
    }
    if byte == b'!' {
        return unequal_sign(rest);
    }
    match single_sign(byte) {
        None => None,
        Some(word) => Some((word, rest)),
    }
}

/// `<=`, `<>` or `<`, from behind the `<`.
fn less_sign<'a>(rest: &'a [u8]) -> (Word, &'a [u8])
    ensures { (result.0, result.1.now) ≡ the_less rest.now }
{
    match rest.split_first() {
        None => (Word::Compare(Op::Lt), rest),
        Some((byte, more)) => {
            if *byte == b'=' {
                return (Word::Compare(Op::Le), more);
            }
            if *byte == b'>' {
                return (Word::Compare(Op::Ne), more);
            }
            (Word::Compare(Op::Lt), rest)
        }
    }
}

/// `>=` or `>`, from behind the `>`.
fn greater_sign<'a>(rest: &'a [u8]) -> (Word, &'a [u8])
    ensures { (result.0, result.1.now) ≡ the_greater rest.now }
{
    match rest.split_first() {
        None => (Word::Compare(Op::Gt), rest),
        Some((byte, more)) => {
            if *byte == b'=' {
                return (Word::Compare(Op::Ge), more);
            }
            (Word::Compare(Op::Gt), rest)
        }
    }
}

/// `!=`, from behind the `!`.
fn unequal_sign<'a>(rest: &'a [u8]) -> Cut<'a>
    ensures { option_map (λ found. (found.0, found.1.now)) result ≡ the_unequal rest.now }
{
    match rest.split_first() {
        None => None,
        Some((byte, more)) => {
            if *byte == b'=' {
                return Some((Word::Compare(Op::Ne), more));
            }
            None
        }
    }
}

fn single_sign(byte: u8) -> Option<Word>
    ensures { result ≡ the_single byte }
{
    match byte {
        b'(' => Some(Word::Open),
        b')' => Some(Word::Close),
        b'*' => Some(Word::Math(Math::Times)),
        b'+' => Some(Word::Math(Math::Plus)),
        b',' => Some(Word::Comma),
        b'-' => Some(Word::Math(Math::Minus)),
        b';' => Some(Word::Semicolon),
        b'=' => Some(Word::Compare(Op::Eq)),
        _ => None,
    }
}
