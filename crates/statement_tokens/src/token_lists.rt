ghost use Rattle.std.specs.Prelude.{◌≡◌, ◌<◌, ◌≤◌, ◌+◌, ◌-◌, ◌^◌, ◌&&◌, not, length, IfOk};
ghost use Rattle.statement_tokens.specs.FirstToken.{behind, is_space};
ghost use Rattle.statement_tokens.specs.Tokens.{AreTokensOf, is_minus, is_operand_end as ends_operand};

use crate::first_tokens::next_token;
use crate::text_ends::TextEnd;
use crate::words::{Math, Token, Tokens, Word};
use row_types::R;
use std::alloc::Global;

/// What is behind the spaces with which a text begins.
#[tactic(auto, using(crate::proofs::CutLemmas::behind_shorter))]
pub fn behind_spaces<'a>(text: &'a [u8]) -> &'a [u8]
    ensures rest { result.now ≡ behind is_space text.now }
    ensures shorter { length result.now ≤ length text.now }
{
    let mut rest = text;
    while let Some((byte, more)) = rest.split_first() {
        if *byte != b' ' {
            return rest;
        }
        rest = more;
    }
    rest
}

/// The tokens of a text, from its first to its last or to the first that is none, and how it ends.
pub fn tokens_of(alloc: Global, text: &[u8]) -> R<(Tokens, TextEnd)>
    requires { length text.now < 2 ^ 32 - 1 }
    ensures { IfOk result (λ read. AreTokensOf text.now read.0 read.1) }
{
    let mut tokens = Tokens::new(alloc);
    let mut rest = text;
    let mut behind_sign = false;
    let mut behind_operand = false;
    'tokens: loop {
        let here = behind_spaces(rest);
        if here.is_empty() {
            let past = place_in(text, rest);
            return Ok((tokens, TextEnd::Whole { past }));
        }
        let place = place_in(text, here);
        let Some((word, more)) = next_token(alloc, here, behind_sign)? else {
            return Ok((tokens, TextEnd::NoToken { place }));
        };
        behind_sign = is_sign(&word, behind_operand);
        behind_operand = is_operand_end(&word);
        tokens.push(Token { word, place })?;
        rest = more;
    }
}

/// The place of the first byte of the rest of a text, counted from 1.
fn place_in(text: &[u8], rest: &[u8]) -> u32
    requires short { length text.now < 2 ^ 32 - 1 }
    requires within { length rest.now ≤ length text.now }
    ensures { result ≡ length text.now - length rest.now + 1 }
{
    (text.len() - rest.len() + 1) as u32
}

/// Whether the word is a `-` in the place of a sign; `behind_operand` says whether an operand ends before it.
fn is_sign(word: &Word, behind_operand: bool) -> bool
    ensures { result ≡ (is_minus word.now && not behind_operand) }
{
    match word {
        Word::Math(Math::Minus) => !behind_operand,
        _ => false,
    }
}

/// Whether an operand ends with this word.
fn is_operand_end(word: &Word) -> bool
    ensures { result ≡ ends_operand word.now }
{
    match word {
        Word::Name(_) | Word::Number(_) | Word::Text(_) | Word::Null | Word::Close => true,
        _ => false,
    }
}
