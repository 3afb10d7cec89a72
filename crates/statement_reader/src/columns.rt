ghost use Rattle.std.specs.Prelude.{◌≡◌, ◌<◌, ◌^◌, length};
ghost use Rattle.std.specs.Option.{option_map};
ghost use Rattle.statement_grammar.specs.Kinds.{column_named as the_column, sort_of_number, sort_of_word as the_sort, unknown};
ghost use Rattle.statement_reader.specs.Facts.{as_sort, least_of};

use crate::facts::Sort;
use row_types::{ColumnKind, Schema};
use statement_tokens::{Token, Word};

/// The number of the first column of a name, counted from 0.
#[tactic(auto, using(crate::proofs::NameLemmas::found_here, crate::proofs::NameLemmas::found_later))]
pub fn column_named(schema: &Schema, name: &[u8]) -> Option<u32>
    requires { length schema.now.columns < 2 ^ 32 }
    ensures { result ≡ the_column schema.now name.now }
{
    let mut rest = schema.columns.as_slice();
    let mut number = 0u32;
    while let Some((column, more)) = rest.split_first() {
        if column.name.as_slice() == name {
            return Some(number);
        }
        number += 1;
        rest = more;
    }
    None
}

/// What the column of this number holds; one that is not there may hold anything.
pub fn sort_at(schema: &Schema, number: usize) -> Sort
    ensures { result ≡ as_sort (sort_of_number schema.now (Some number)) }
{
    match schema.columns.as_slice().get(number) {
        None => Sort::Any,
        Some(column) => match column.kind {
            ColumnKind::Text { .. } => Sort::Text,
            ColumnKind::Int => Sort::Number,
            ColumnKind::BigInt => Sort::Number,
        },
    }
}

/// What a column holds; one that is not there may hold anything.
pub fn sort_of_column(schema: &Schema, column: Option<u32>) -> Sort
    ensures { result ≡ as_sort (sort_of_number schema.now column) }
{
    match column {
        None => Sort::Any,
        Some(number) => sort_at(schema, number as usize),
    }
}

/// What an operand of one word holds.
pub fn sort_of_word(schema: &Schema, word: &Word) -> Sort
    requires { length schema.now.columns < 2 ^ 32 }
    ensures { result ≡ as_sort (the_sort schema.now word.now) }
{
    match word {
        Word::Number(_) => Sort::Number,
        Word::Text(_) => Sort::Text,
        Word::Name(name) => sort_of_column(schema, column_named(schema, name.as_slice())),
        _ => Sort::Any,
    }
}

/// The place of a name that is no column.
pub fn unknown_name(schema: &Schema, token: &Token) -> Option<u32>
    requires { length schema.now.columns < 2 ^ 32 }
    ensures { result ≡ least_of (unknown schema.now token.now.word token.now.place) }
{
    match &token.word {
        Word::Name(name) => match column_named(schema, name.as_slice()) {
            None => Some(token.place),
            Some(_) => None,
        },
        _ => None,
    }
}
