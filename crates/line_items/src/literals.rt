ghost use Rattle.std.specs.Prelude.{◌≡◌, ℕ, List, IfOk, MatchOption};
ghost use Rattle.statement_tokens.specs.Spellings.{IsQuoted};
ghost use Rattle.line_items.specs.Literals.{texted, texted_before};

use row_types::{Bytes, R};
use statement_tokens::{Word, next_token};
use std::alloc::Global;

/// The text that these bytes are in quotes; None where they are none.
#[tactic(auto, using(crate::proofs::QuoteLemmas::no_token, crate::proofs::QuoteLemmas::quote_cut))]
pub fn quote_of(alloc: Global, text: &[u8]) -> R<Option<Bytes>>
    ensures { IfOk result (λ quote. MatchOption quote ((content : List ℕ) → IsQuoted content text.now → ⊥) (λ found. IsQuoted found text.now)) }
{
    match next_token(alloc, text, false)? {
        None => Ok(None),
        Some((word, rest)) => Ok(text_before(word, rest)),
    }
}

/// The text that a word is, where nothing is left behind it.
fn text_before(word: Word, rest: &[u8]) -> Option<Bytes>
    ensures { result ≡ texted_before word rest.now }
{
    if rest.len() == 0 { text_in(word) } else { None }
}

fn text_in(word: Word) -> Option<Bytes>
    ensures { result ≡ texted word }
{
    match word {
        Word::Text(text) => Some(text),
        _ => None,
    }
}
