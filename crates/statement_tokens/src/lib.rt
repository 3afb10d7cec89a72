//! The tokens of statement text.
#![tactic(auto)]

mod first_tokens;
mod keywords;
mod text_ends;
mod token_lists;
mod words;

pub use first_tokens::{behind_digits, behind_word, is_letter, is_text_byte, next_token};
pub use text_ends::TextEnd;
pub use token_lists::{behind_spaces, tokens_of};
pub use words::{Keyword, Math, Token, Tokens, Word};

#[cfg(test)]
mod tests;
