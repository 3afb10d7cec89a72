ghost use Rattle.std.specs.Prelude.{◌≡◌, ℕ, List, IfOk, MatchOption};
ghost use Rattle.statement_tokens.specs.Spellings.{IsNameText};
ghost use Rattle.line_words.specs.Names.{named, named_before};

use row_types::{Bytes, R};
use statement_tokens::{Word, next_token};
use std::alloc::Global;

/// The name that a text is; None where it is none.
#[tactic(auto, using(crate::proofs::NameLemmas::no_token, crate::proofs::NameLemmas::name_cut))]
pub fn name_of(alloc: Global, text: &[u8]) -> R<Option<Bytes>>
    ensures { IfOk result (λ name. MatchOption name ((other : List ℕ) → IsNameText other text.now → ⊥) (λ found. IsNameText found text.now)) }
{
    match next_token(alloc, text, false)? {
        None => Ok(None),
        Some((word, rest)) => Ok(name_before(word, rest)),
    }
}

/// The name that a word is, where nothing is left behind it.
fn name_before(word: Word, rest: &[u8]) -> Option<Bytes>
    ensures { result ≡ named_before word rest.now }
{
    if rest.len() == 0 { name_in(word) } else { None }
}

/// The name that a word is.
fn name_in(word: Word) -> Option<Bytes>
    ensures { result ≡ named word }
{
    match word {
        Word::Name(name) => Some(name),
        _ => None,
    }
}
