ghost use Rattle.std.specs.Prelude.{◌≡◌, ◌<◌, ◌^◌, length};
ghost use Rattle.statement_grammar.specs.Grammar.{names_first as first_named, names_second as second_named, same_bytes};
ghost use Rattle.statement_grammar.specs.FirstFault.{keys_of};
ghost use Rattle.statement_grammar.specs.Terms.{leaf_expr as the_leaf};
ghost use Rattle.statement_operands.specs.Operands.{leaf_operand, signed_operand};

use crate::operands::{Operand, Tree};
use ptc_statement::Expr;
use row_types::{Bytes, Schema};
use statement_reader::{Facts, Sort, column_named, negative, sort_of_word, unknown_name, value_in};
use statement_tokens::{Token, Word};

fn leaf_expr(schema: &Schema, word: Word) -> Expr
    requires { length schema.now.columns < 2 ^ 32 }
    ensures { result ≡ the_leaf schema.now word }
{
    match word {
        Word::Name(name) => match column_named(schema, name.as_slice()) {
            None => Expr::Cell(0),
            Some(column) => Expr::Cell(column),
        },
        word => Expr::Lit(value_in(word)),
    }
}

/// The facts of a column or a literal.
pub fn leaf_facts(schema: &Schema, token: &Token) -> Facts
    requires { length schema.now.columns < 2 ^ 32 }
    ensures { result ≡ (leaf_operand schema.now token.now.word token.now.place).facts }
{
    Facts::leaf(
        token.place,
        sort_of_word(schema, &token.word),
        unknown_name(schema, token),
    )
}

/// A column or a literal.
pub fn leaf(schema: &Schema, token: Token) -> Operand
    requires { length schema.now.columns < 2 ^ 32 }
    ensures { result ≡ leaf_operand schema.now token.word token.place }
{
    let facts = leaf_facts(schema, &token);
    let Token { word, place: _ } = token;
    Operand {
        tree: Tree::Expr(leaf_expr(schema, word)),
        facts,
    }
}

/// A number behind a `-` at a place.
pub fn signed(place: u32, digits: &Word) -> Operand
    ensures { result ≡ signed_operand place digits.now }
{
    Operand {
        tree: Tree::Expr(Expr::Lit(negative(digits))),
        facts: Facts::leaf(place, Sort::Number, None),
    }
}

#[tactic(auto, using(statement_reader::proofs::NameLemmas::same_is))]
fn same_name(ours: &[u8], theirs: &[u8]) -> bool
    ensures { result ≡ same_bytes ours.now theirs.now }
{
    ours == theirs
}

/// Whether a name is that of the first column of a key of two.
pub fn names_first(schema: &Schema, name: &Bytes) -> bool
    ensures { result ≡ first_named (keys_of schema.now) name.now }
{
    if schema.key_len != 2 {
        return false;
    }
    match schema.columns.as_slice().split_first() {
        None => false,
        Some((first, rest)) => match rest.split_first() {
            None => false,
            Some((_, _)) => same_name(first.name.as_slice(), name.as_slice()),
        },
    }
}

/// Whether a name is that of the second column of a key of two.
pub fn names_second(schema: &Schema, name: &Bytes) -> bool
    ensures { result ≡ second_named (keys_of schema.now) name.now }
{
    if schema.key_len != 2 {
        return false;
    }
    match schema.columns.as_slice().split_first() {
        None => false,
        Some((_, rest)) => match rest.split_first() {
            None => false,
            Some((second, _)) => same_name(second.name.as_slice(), name.as_slice()),
        },
    }
}
