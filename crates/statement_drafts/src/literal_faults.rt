ghost use Rattle.std.specs.Prelude.{◌≡◌, ◌<◌, ◌^◌, ◌+◌, Some, length};
ghost use Rattle.std.specs.List.{slice_get};
ghost use Rattle.statement_drafts.specs.LiteralFaults.{kind_breach};
ghost use Rattle.statement_grammar.specs.Kinds.{sort_of_kind};
ghost use Rattle.statement_grammar.specs.Faults.{assigned_fault as the_assigned, list_fault as the_list, literal_fault as the_literal, value_fault as the_value};
ghost use Rattle.statement_grammar.specs.FirstFault.{first_of};
ghost use Rattle.statement_reader.specs.Facts.{as_sort};

use row_types::{Column, ColumnKind, RowFault, Schema};
use statement_grammar::TextFault;
use statement_reader::{Sort, differ};
use statement_tokens::Word;

fn arity(place: u32, got: usize, want: usize) -> TextFault
    requires got { got < 2 ^ 32 }
    requires want { want < 2 ^ 32 }
    ensures { result ≡ TextFault.Literal place (RowFault.Arity got want) }
{
    TextFault::Literal {
        place,
        fault: RowFault::Arity {
            got: got as u32,
            want: want as u32,
        },
    }
}

fn sort_of(kind: ColumnKind) -> Sort
    ensures { result ≡ as_sort (sort_of_kind kind) }
{
    match kind {
        ColumnKind::Int => Sort::Number,
        ColumnKind::BigInt => Sort::Number,
        ColumnKind::Text { .. } => Sort::Text,
    }
}

fn kind_fault(column: &Column, number: usize, sort: Sort, place: u32) -> Option<TextFault>
    requires { number < 2 ^ 32 }
    ensures { result ≡ kind_breach column.now number sort place }
{
    if differ(sort_of(column.kind), sort) {
        return Some(TextFault::Literal {
            place,
            fault: RowFault::Kind {
                column: number as u32,
            },
        });
    }
    None
}

/// What is wrong with a literal for a column, behind so many others.
#[tactic(auto, using(crate::proofs::LiteralLemmas::number_is, crate::proofs::LiteralLemmas::text_is))]
fn fault_for(
    _columns: &[Column],
    column: &Column,
    number: usize,
    word: &Word,
    place: u32,
) -> Option<TextFault>
    requires { number < 2 ^ 32 }
    ensures { result ≡ first_of (the_value _columns.now number (Some column.now) word.now place) }
{
    match word {
        Word::Null => {
            if column.nullable {
                return None;
            }
            Some(TextFault::NullIntoNotNull { place })
        }
        Word::Number(_) => kind_fault(column, number, Sort::Number, place),
        Word::Text(_) => kind_fault(column, number, Sort::Text, place),
        _ => None,
    }
}

fn value_fault(columns: &[Column], number: usize, word: &Word, place: u32) -> Option<TextFault>
    requires number { number + 1 < 2 ^ 32 }
    requires columns { length columns.now < 2 ^ 32 }
    ensures { result ≡ first_of (the_value columns.now number (slice_get columns.now number) word.now place) }
{
    match columns.get(number) {
        None => Some(arity(place, number + 1, columns.len())),
        Some(column) => fault_for(columns, column, number, word, place),
    }
}

/// What is wrong with a literal, or the `-` before a number, behind so many others.
pub fn literal_fault(
    columns: &[Column],
    number: usize,
    word: &Word,
    place: u32,
) -> Option<TextFault>
    requires number { number + 1 < 2 ^ 32 }
    requires columns { length columns.now < 2 ^ 32 }
    ensures { result ≡ first_of (the_literal columns.now number word.now place) }
{
    match word {
        Word::Math(_) => None,
        _ => value_fault(columns, number, word, place),
    }
}

/// What is wrong with `)` behind so many literals.
pub fn list_fault(columns: &[Column], number: usize, word: &Word, place: u32) -> Option<TextFault>
    requires number { number + 1 < 2 ^ 32 }
    requires columns { length columns.now < 2 ^ 32 }
    ensures { result ≡ first_of (the_list columns.now number word.now place) }
{
    match word {
        Word::Close => {
            if number < columns.len() {
                return Some(arity(place, number, columns.len()));
            }
            None
        }
        _ => None,
    }
}

/// What is wrong with a column that is assigned.
pub fn assigned_fault(schema: &Schema, column: Option<u32>, place: u32) -> Option<TextFault>
    ensures { result ≡ first_of (the_assigned schema.now column place) }
{
    match column {
        None => Some(TextFault::UnknownColumn { place }),
        Some(number) => {
            if number < schema.key_len as u32 {
                return Some(TextFault::KeyAssigned { place });
            }
            None
        }
    }
}
