ghost use Rattle.std.specs.Prelude.{◌≡◌, ◌∷◌, true, false, Some, IfOk};
ghost use Rattle.statement_grammar.specs.declared.frames.Frame.TheVariants.{Behind, Low};
ghost use Rattle.statement_grammar.specs.Sentence.{setting};
ghost use Rattle.statement_grammar.specs.FirstFault.{keys_of};
ghost use Rattle.statement_grammar.specs.Machine.{Due as DueState, Read as ReadState, and_then, closed, followed as what_follows};
ghost use Rattle.statement_operands.specs.Operands.{operands};
ghost use Rattle.statement_stacks.specs.Closes.{held_of};
ghost use Rattle.statement_stacks.specs.Tops.{top_of};
ghost use Rattle.statement_states.specs.States.{state_of};
ghost use Rattle.statement_states.specs.Steps.{IsStepped, closing_level as the_level, continued, follow_and as after_and, follow_of as the_follow, follow_when, is_low, is_opened, state_by, takes as may_take};

use crate::states::{State, Stepped};
use row_types::{R, Schema};
use statement_grammar::Frame;
use statement_operands::{Operand, paren};
use statement_stacks::{Closed, Held, Stack, Top, level};
use statement_tokens::{Token, Word};
use std::alloc::Global;

/// What follows by a word behind an operand: nothing; the right operand; the lower end of a BETWEEN, or its upper
/// end; NULL; or the end of a parenthesis.
#[derive(Clone, Copy, Debug, PartialEq, Eq)]
pub enum Follow {
    Misfit,
    Right,
    Range,
    Upper,
    Nullness,
    End,
}

/// How far a word closes what is open before it; 0 where it follows no operand.
fn closing_level(word: &Word) -> u8
    ensures { result ≡ the_level word.now }
{
    match word {
        Word::Math(_) => level(word),
        Word::Compare(_) => 5,
        Word::Between => 5,
        Word::Is => 5,
        Word::And => 2,
        Word::Or => 1,
        Word::Close => 1,
        _ => 0,
    }
}

/// Whether a condition may stand behind what is open; `base` says it where nothing is.
pub fn takes(base: bool, top: Top) -> bool
    ensures { result ≡ may_take base top }
{
    match top {
        Top::Bare => base,
        Top::Binds { strength: _, wants } => wants,
        Top::Low => false,
        Top::Opened { takes } => takes,
    }
}

fn when(holds: bool, follow: Follow) -> Follow
    ensures { result ≡ follow_when holds follow }
{
    if holds { follow } else { Follow::Misfit }
}

fn follow_and(top: Top, condition: bool) -> Follow
    ensures { result ≡ after_and top condition }
{
    match top {
        Top::Low => when(!condition, Follow::Upper),
        Top::Bare => when(condition, Follow::Right),
        Top::Binds {
            strength: _,
            wants: _,
        } => when(condition, Follow::Right),
        Top::Opened { takes: _ } => when(condition, Follow::Right),
    }
}

fn follow_close(top: Top) -> Follow
    ensures { result ≡ follow_when (is_opened top) Follow.End }
{
    match top {
        Top::Opened { takes: _ } => Follow::End,
        _ => Follow::Misfit,
    }
}

/// What follows by a word, where `condition` says whether the operand before it is one.
fn follow_of(base: bool, word: &Word, top: Top, condition: bool) -> Follow
    ensures { result ≡ the_follow base word.now top condition }
{
    let may = !condition && takes(base, top);
    match word {
        Word::Math(_) => when(!condition, Follow::Right),
        Word::Compare(_) => when(may, Follow::Right),
        Word::Between => when(may, Follow::Range),
        Word::Is => when(may, Follow::Nullness),
        Word::And => follow_and(top, condition),
        Word::Or => when(condition, Follow::Right),
        Word::Close => follow_close(top),
        _ => Follow::Misfit,
    }
}

/// A word between two operands, behind its left one.
fn behind(stack: Stack, x: Operand, token: Token) -> R<State>
    ensures { IfOk result (λ state. state_of state ≡ DueState (Behind x token ∷ stack)) }
{
    let mut stack = stack;
    stack.push(Frame::Behind(x, token))?;
    Ok(State::Due(stack))
}

/// BETWEEN behind its value.
fn low(stack: Stack, x: Operand, token: Token) -> R<State>
    ensures { IfOk result (λ state. state_of state ≡ DueState (Low x token ∷ stack)) }
{
    let mut stack = stack;
    stack.push(Frame::Low(x, token))?;
    Ok(State::Due(stack))
}

/// The AND of a BETWEEN that waits for it.
fn high(stack: Stack, x: Operand, token: Token) -> R<State>
    requires { is_low (top_of stack) ≡ true }
    ensures { IfOk result (λ state. and_then stack false x token ≡ Some (state_of state)) }
{
    let mut stack = stack;
    match stack.pop() {
        Some(Frame::Low(value, between)) => {
            stack.push(Frame::High(value, between, x, token))?;
            Ok(State::Due(stack))
        }
        _ => unreachable!(),
    }
}

/// `)` behind what stands in a parenthesis.
fn ended(stack: Stack, condition: bool, x: Operand, _schema: &Schema, token: Token) -> State
    requires { is_opened (top_of stack) ≡ true }
    ensures { closed (operands _schema.now) stack condition x token ≡ Some (state_of result) }
{
    let mut stack = stack;
    match stack.pop() {
        Some(Frame::Opened(opened, _)) => State::Read(Held {
            stack,
            condition,
            x: paren(opened.place, x),
        }),
        _ => unreachable!(),
    }
}

/// A word behind an operand round which all is closed that the word closes, where this follows.
fn joined(follow: Follow, held: Held, schema: &Schema, token: Token) -> R<Stepped>
    requires upper { follow ≡ Follow.Upper → is_low (top_of held.stack) ≡ true }
    requires end { follow ≡ Follow.End → is_opened (top_of held.stack) ≡ true }
    ensures { IfOk result (λ stepped. IsStepped schema.now (state_by schema.now follow (held_of held) token) (ReadState (held_of held)) token stepped) }
{
    match follow {
        Follow::Misfit => Ok(Stepped::Stuck(State::Read(held), token)),
        Follow::Nullness => Ok(Stepped::Moved(State::SawIs(held, token))),
        Follow::Right => {
            let Held {
                stack,
                condition: _,
                x,
            } = held;
            let state = behind(stack, x, token)?;
            Ok(Stepped::Moved(state))
        }
        Follow::Range => {
            let Held {
                stack,
                condition: _,
                x,
            } = held;
            let state = low(stack, x, token)?;
            Ok(Stepped::Moved(state))
        }
        Follow::Upper => {
            let Held {
                stack,
                condition: _,
                x,
            } = held;
            let state = high(stack, x, token)?;
            Ok(Stepped::Moved(state))
        }
        Follow::End => {
            let Held {
                stack,
                condition,
                x,
            } = held;
            Ok(Stepped::Moved(ended(stack, condition, x, schema, token)))
        }
    }
}

/// A word behind an operand round which all is closed that the word closes.
#[tactic(auto, using(crate::proofs::FollowLemmas::upper_is_low, crate::proofs::FollowLemmas::end_is_opened, crate::proofs::FollowLemmas::continued_is))]
fn continue_with(held: Held, schema: &Schema, base: bool, token: Token) -> R<Stepped>
    ensures { IfOk result (λ stepped. IsStepped schema.now (continued (setting base (keys_of schema.now)) schema.now token.word (held_of held) token) (ReadState (held_of held)) token stepped) }
{
    let follow = follow_of(base, &token.word, held.stack.top(), held.condition);
    let stepped = joined(follow, held, schema, token)?;
    Ok(stepped)
}

/// A word behind an operand.
pub fn followed(alloc: Global, schema: &Schema, base: bool, held: Held, token: Token) -> R<Stepped>
    ensures { IfOk result (λ stepped. IsStepped schema.now (what_follows (setting base (keys_of schema.now)) (operands schema.now) token.word (held_of held) token) (ReadState (held_of held)) token stepped) }
{
    let level = closing_level(&token.word);
    if level == 0 {
        return Ok(Stepped::Stuck(State::Read(held), token));
    }
    let closed = held.close(alloc, schema, level)?;
    let Closed { held, done } = closed;
    if !done {
        return Ok(Stepped::Stuck(State::Read(held), token));
    }
    let stepped = continue_with(held, schema, base, token)?;
    Ok(stepped)
}
