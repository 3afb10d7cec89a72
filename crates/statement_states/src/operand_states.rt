ghost use Rattle.std.specs.Prelude.{◌≡◌, ◌∷◌, ◌<◌, ◌^◌, true, Some, IfOk, length};
ghost use Rattle.statement_grammar.specs.Grammar.{first_is};
ghost use Rattle.statement_grammar.specs.Sentence.{setting};
ghost use Rattle.statement_grammar.specs.FirstFault.{keys_of};
ghost use Rattle.statement_grammar.specs.Machine.{begun as what_begins, behind_minus as after_minus, Due as DueState, SawMinus as MinusState, operand as the_operand};
ghost use Rattle.statement_operands.specs.Operands.{operands};
ghost use Rattle.statement_states.specs.States.{state_of};
ghost use Rattle.statement_stacks.specs.Tops.{top_of};
ghost use Rattle.statement_states.specs.Steps.{IsStepped, lone_state, may_compare as compares};

use crate::follows::takes;
use crate::row_slots::is_number;
use crate::states::{State, Stepped};
use row_types::{R, Schema};
use statement_grammar::Frame;
use statement_operands::{Operand, leaf, names_first, signed};
use statement_stacks::{Held, Stack, Top};
use statement_tokens::{Math, Token, Word};
use std::alloc::Global;

fn is_first(schema: &Schema, base: bool, word: &Word) -> bool
    ensures { result ≡ first_is (setting base (keys_of schema.now)) word.now }
{
    match word {
        Word::Name(name) => names_first(schema, name),
        _ => false,
    }
}

/// A parenthesis that takes a condition is what waits.
fn may_compare(top: Top) -> bool
    ensures { result ≡ compares top }
{
    match top {
        Top::Opened { takes } => takes,
        _ => false,
    }
}

/// A parenthesis and the first column of the key.
fn lone(stack: Stack, token: Token) -> State
    requires { compares (top_of stack) ≡ true }
    ensures { lone_state stack token ≡ Some (state_of result) }
{
    let mut stack = stack;
    match stack.pop() {
        Some(Frame::Opened(opened, _)) => State::Lone(stack, opened, token),
        _ => unreachable!(),
    }
}

/// An operand of one word. A parenthesis and the first column of the key may begin a row comparison.
#[tactic(auto, using(crate::proofs::OperandLemmas::operand_is_lone, crate::proofs::OperandLemmas::operand_is_leaf))]
fn operand(schema: &Schema, base: bool, stack: Stack, token: Token) -> State
    requires { length schema.now.columns < 2 ^ 32 }
    ensures { state_of result ≡ the_operand (setting base (keys_of schema.now)) (operands schema.now) token.word stack token }
{
    if may_compare(stack.top()) && is_first(schema, base, &token.word) {
        return lone(stack, token);
    }
    State::Read(Held {
        stack,
        condition: false,
        x: leaf(schema, token),
    })
}

/// A word before its operand, or a parenthesis.
fn opened(stack: Stack, frame: Frame<Operand>) -> R<State>
    ensures { IfOk result (λ state. state_of state ≡ DueState (frame ∷ stack)) }
{
    let mut stack = stack;
    stack.push(frame)?;
    Ok(State::Due(stack))
}

/// A token where an operand is due.
#[tactic(auto, using(crate::proofs::OperandLemmas::takes_is))]
pub fn begun(schema: &Schema, base: bool, stack: Stack, token: Token) -> R<Stepped>
    requires { length schema.now.columns < 2 ^ 32 }
    ensures { IfOk result (λ stepped. IsStepped schema.now (what_begins (setting base (keys_of schema.now)) (operands schema.now) token.word stack token) (DueState stack) token stepped) }
{
    match &token.word {
        Word::Not => {
            if !takes(base, stack.top()) {
                return Ok(Stepped::Stuck(State::Due(stack), token));
            }
            let state = opened(stack, Frame::Before(token))?;
            Ok(Stepped::Moved(state))
        }
        Word::Math(Math::Minus) => Ok(Stepped::Moved(State::SawMinus(stack, token))),
        Word::Open => {
            let may = takes(base, stack.top());
            let state = opened(stack, Frame::Opened(token, may))?;
            Ok(Stepped::Moved(state))
        }
        Word::Name(_) => Ok(Stepped::Moved(operand(schema, base, stack, token))),
        Word::Number(_) => Ok(Stepped::Moved(operand(schema, base, stack, token))),
        Word::Text(_) => Ok(Stepped::Moved(operand(schema, base, stack, token))),
        Word::Null => Ok(Stepped::Moved(operand(schema, base, stack, token))),
        _ => Ok(Stepped::Stuck(State::Due(stack), token)),
    }
}

/// A token behind a `-` where an operand is due.
#[tactic(auto, using(crate::proofs::StepLemmas::minus_steps))]
pub fn behind_minus(
    schema: &Schema,
    base: bool,
    stack: Stack,
    minus: Token,
    token: Token,
) -> R<Stepped>
    requires { length schema.now.columns < 2 ^ 32 }
    ensures { IfOk result (λ stepped. IsStepped schema.now (after_minus (setting base (keys_of schema.now)) (operands schema.now) stack minus token) (MinusState stack minus) token stepped) }
{
    if is_number(&token.word) {
        let x = signed(minus.place, &token.word);
        return Ok(Stepped::Moved(State::Read(Held {
            stack,
            condition: false,
            x,
        })));
    }
    let mut stack = stack;
    stack.push(Frame::Before(minus))?;
    let stepped = begun(schema, base, stack, token)?;
    Ok(stepped)
}
