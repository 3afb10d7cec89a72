ghost use Rattle.std.specs.Prelude.{◌≡◌, ◌<◌, length, [], ◌∷◌, MatchOption};
ghost use Rattle.statement_tokens.specs.FirstToken.{quoted};
ghost use Rattle.file_text.specs.Parts.{behind_quote as the_rest_of_quote, behind_token as the_rest};

use statement_tokens::{behind_digits, behind_word, is_letter, is_text_byte};

/// What is behind a token with this first byte, which stands before the text.
pub(crate) fn behind_token<'a>(byte: u8, text: &'a [u8]) -> &'a [u8]
    ensures { result.now ≡ the_rest byte text.now }
{
    if is_letter(byte) {
        return behind_word(text);
    }
    if byte.is_ascii_digit() {
        return behind_digits(text).1;
    }
    if byte == b'\'' {
        return behind_quote(text);
    }
    text
}

/// What is behind a text in quotes, from behind its first quote; nothing where it does not close.
#[tactic(auto, using(crate::proofs::QuoteLemmas::text_byte, crate::proofs::QuoteLemmas::no_text_byte))]
fn behind_quote<'a>(text: &'a [u8]) -> &'a [u8]
    ensures { result.now ≡ the_rest_of_quote (quoted text.now) }
{
    let mut rest = text;
    while let Some((byte, more)) = rest.split_first() {
        if *byte == b'\'' {
            let Some(behind) = behind_second(more) else {
                return more;
            };
            rest = behind;
        } else if is_text_byte(*byte) {
            rest = more;
        } else {
            return none_of(more);
        }
    }
    rest
}

/// What is behind the second of two quotes, the first of which stands before the text.
#[tactic(auto, using(crate::proofs::QuoteLemmas::rest_onto))]
fn behind_second<'a>(text: &'a [u8]) -> Option<&'a [u8]>
    ensures { MatchOption result (the_rest_of_quote (quoted (39 ∷ text.now)) ≡ text.now) (λ rest. (the_rest_of_quote (quoted (39 ∷ text.now)) ≡ the_rest_of_quote (quoted rest.now)) × (length rest.now < length text.now)) }
{
    match text.split_first() {
        None => None,
        Some((byte, rest)) => { if *byte == b'\'' { Some(rest) } else { None } }
    }
}

fn none_of<'a>(text: &'a [u8]) -> &'a [u8]
    ensures { result.now ≡ [] }
{
    text.split_at(text.len()).1
}
