ghost use Rattle.std.specs.Prelude.{◌≡◌, IfOk, OnOk, None, Some, drop};
ghost use Rattle.statement_grammar.specs.Grammar.{is_minus as minus};
ghost use Rattle.statement_grammar.specs.Kinds.{begins_at, row_breaches_from, values_in};
ghost use Rattle.statement_grammar.specs.Cut.{RowTest};
ghost use Rattle.statement_grammar.specs.Terms.{first_op as the_op, key_values};
ghost use Rattle.statement_reader.specs.Facts.{least_of};
ghost use Rattle.statement_operands.specs.Operands.{row_operand};
ghost use Rattle.statement_operands.specs.RowTests.{IsPushed, IsTaken};

use crate::operands::{Operand, Tree};
use ptc_statement::{Cond, Op};
use row_types::{Bytes, Key, R, Schema, Value};
use statement_reader::{Facts, Sort, differ, least_place, negative, sort_at, value_in};
use statement_tokens::{Math, Token, Word};
use std::alloc::Global;

/// What is read of the literals of a row comparison: their values, the place of a `-` whose number is due, and the
/// least place of a literal that does not fit its column.
#[derive(Debug, Drop)]
pub struct RowValues {
    pub key: Key,
    pub minus: Option<u32>,
    pub breach: Option<u32>,
}

fn is_minus(word: &Word) -> bool
    ensures { result ≡ minus word.now }
{
    match word {
        Word::Math(math) => match math {
            Math::Minus => true,
            _ => false,
        },
        _ => false,
    }
}

impl RowValues {
    fn push(&mut self, schema: &Schema, value: Value, sort: Sort, place: u32) -> R<()>
        ensures { OnOk result (IsPushed schema.now self.old value sort place self.new) }
    {
        let column = sort_at(schema, self.key.len());
        let misfit = if differ(column, sort) {
            Some(place)
        } else {
            None
        };
        self.key.push(value)?;
        self.minus = None;
        self.breach = least_place(self.breach, misfit);
        Ok(())
    }

    /// Takes a token behind the second bracket.
    fn take(&mut self, alloc: Global, schema: &Schema, token: &Token) -> R<()>
        ensures { OnOk result (IsTaken schema.now self.old token.now self.new) }
    {
        match self.minus {
            Some(place) => {
                self.take_digits(schema, place, token)?;
                Ok(())
            }
            None => {
                self.take_plain(alloc, schema, token)?;
                Ok(())
            }
        }
    }

    /// Takes the number behind a `-`.
    #[tactic(auto, using(crate::proofs::RowLemmas::taken_digits))]
    fn take_digits(&mut self, schema: &Schema, place: u32, token: &Token) -> R<()>
        requires { self.old.minus ≡ Some place }
        ensures { OnOk result (IsTaken schema.now self.old token.now self.new) }
    {
        self.push(schema, negative(&token.word), Sort::Number, place)?;
        Ok(())
    }

    #[tactic(auto, using(crate::proofs::RowLemmas::taken_number))]
    fn take_number(&mut self, schema: &Schema, number: u128, token: &Token) -> R<()>
        requires plain { self.old.minus ≡ None }
        requires number { token.now.word ≡ Word.Number number }
        ensures { OnOk result (IsTaken schema.now self.old token.now self.new) }
    {
        self.push(
            schema,
            value_in(Word::Number(number)),
            Sort::Number,
            token.place,
        )?;
        Ok(())
    }

    #[tactic(auto, using(crate::proofs::RowLemmas::taken_text))]
    fn take_text(&mut self, schema: &Schema, text: Bytes, token: &Token) -> R<()>
        requires plain { self.old.minus ≡ None }
        requires text { token.now.word ≡ Word.Text text }
        ensures { OnOk result (IsTaken schema.now self.old token.now self.new) }
    {
        self.push(schema, value_in(Word::Text(text)), Sort::Text, token.place)?;
        Ok(())
    }

    fn take_plain(&mut self, alloc: Global, schema: &Schema, token: &Token) -> R<()>
        requires { self.old.minus ≡ None }
        ensures { OnOk result (IsTaken schema.now self.old token.now self.new) }
    {
        match &token.word {
            Word::Number(number) => {
                self.take_number(schema, *number, token)?;
                Ok(())
            }
            Word::Text(text) => {
                let text = text.copy(alloc)?;
                self.take_text(schema, text, token)?;
                Ok(())
            }
            Word::Math(Math::Minus) => {
                self.minus = Some(token.place);
                Ok(())
            }
            _ => Ok(()),
        }
    }
}

/// The values of these tokens, and the least place of one that does not fit its column.
fn row_values(alloc: Global, schema: &Schema, tokens: &[Token]) -> R<RowValues>
    ensures key { IfOk result (λ read. read.key ≡ key_values tokens.now) }
    ensures breach { IfOk result (λ read. read.breach ≡ least_of (row_breaches_from schema.now 0 (values_in tokens.now))) }
{
    let mut read = RowValues {
        key: Key::new(alloc),
        minus: None,
        breach: None,
    };
    let mut rest = tokens;
    while let Some((token, more)) = rest.split_first() {
        read.take(alloc, schema, token)?;
        rest = more;
    }
    Ok(read)
}

fn op_in(tokens: &[Token]) -> Op
    ensures { result ≡ the_op tokens.now }
{
    match tokens.split_first() {
        None => Op::Eq,
        Some((token, _)) => match &token.word {
            Word::Compare(op) => *op,
            _ => Op::Eq,
        },
    }
}

/// What is behind the first tokens.
fn behind<'a>(tokens: &'a [Token], count: usize) -> &'a [Token]
    ensures { result.now ≡ drop count tokens.now }
{
    if tokens.len() <= count {
        return &[];
    }
    tokens.split_at(count).1
}

fn place_in(tokens: &[Token]) -> u32
    ensures { result ≡ begins_at (RowTest tokens.now) }
{
    match tokens.split_first() {
        None => 0,
        Some((token, _)) => token.place,
    }
}

/// The row comparison of these tokens.
pub fn row_test(alloc: Global, schema: &Schema, tokens: &[Token]) -> R<Operand>
    ensures { IfOk result (λ it. it ≡ row_operand schema.now tokens.now) }
{
    let read = row_values(alloc, schema, behind(tokens, 7))?;
    let RowValues {
        key,
        minus: _,
        breach,
    } = read;
    Ok(Operand {
        tree: Tree::Cond(Cond::KeyCompare {
            op: op_in(behind(tokens, 5)),
            key,
        }),
        facts: Facts {
            height: 1,
            place: place_in(tokens),
            sort: Sort::Any,
            text: None,
            breach,
            unknown: None,
        },
    })
}
