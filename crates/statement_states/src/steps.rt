ghost use Rattle.std.specs.Prelude.{◌≡◌, ◌<◌, ◌^◌, ◌∷◌, [], true, Some, IfOk, length};
ghost use Rattle.std.specs.Option.{option_map};
ghost use Rattle.statement_grammar.specs.Sentence.{setting};
ghost use Rattle.statement_grammar.specs.FirstFault.{keys_of};
ghost use Rattle.statement_grammar.specs.Machine.{InRow as RowState, Lone as LoneState, Read as ReadState, SawIs as IsState, SawNot as NotState, behind_is as after_is, behind_lone as after_lone, behind_not as after_not, in_row as within_row, lone_held as the_lone, moved, row_next as the_next};
ghost use Rattle.statement_operands.specs.Operands.{nullness_operand, operands};
ghost use Rattle.statement_stacks.specs.Closes.{held_of};
ghost use Rattle.statement_states.specs.Slots.{slot_due, slots_left, slots_of};
ghost use Rattle.statement_states.specs.States.{facts_so_far, state_of};
ghost use Rattle.statement_states.specs.Steps.{IsStepped};

use crate::follows::followed;
use crate::operand_states::{begun, behind_minus};
use crate::row_slots::{AfterSlot, Slot, after_slot, is_comma};
use crate::states::{State, Stepped};
use row_types::{R, Schema};
use statement_grammar::Frame;
use statement_operands::{leaf, leaf_facts, nullness, row_test};
use statement_reader::Facts;
use statement_stacks::{Held, Stack};
use statement_tokens::{Token, Tokens, Word};
use std::alloc::Global;

fn nulled(held: Held, negated: bool) -> State
    ensures { state_of result ≡ ReadState (record { stack = held.stack; condition = true; x = nullness_operand held.x negated }) }
{
    let Held {
        stack,
        condition: _,
        x,
    } = held;
    State::Read(Held {
        stack,
        condition: true,
        x: nullness(x, negated),
    })
}

/// A token behind IS.
fn behind_is(held: Held, is: Token, _schema: &Schema, token: Token) -> Stepped
    ensures { IsStepped _schema.now (after_is (operands _schema.now) token.word (held_of held) is token) (IsState (held_of held) is) token result }
{
    match &token.word {
        Word::Not => Stepped::Moved(State::SawNot(held, is, token)),
        Word::Null => Stepped::Moved(nulled(held, false)),
        _ => Stepped::Stuck(State::SawIs(held, is), token),
    }
}

/// A token behind IS NOT.
fn behind_not(held: Held, is: Token, not: Token, _schema: &Schema, token: Token) -> Stepped
    ensures { IsStepped _schema.now (after_not (operands _schema.now) token.word (held_of held) is not token) (NotState (held_of held) is not) token result }
{
    match &token.word {
        Word::Null => Stepped::Moved(nulled(held, true)),
        _ => Stepped::Stuck(State::SawNot(held, is, not), token),
    }
}

fn three(alloc: Global, first: Token, second: Token, third: Token) -> R<Tokens>
    ensures { IfOk result (λ tokens. tokens ≡ first ∷ second ∷ third ∷ []) }
{
    let mut tokens = Tokens::new(alloc);
    tokens.push(first)?;
    tokens.push(second)?;
    tokens.push(third)?;
    Ok(tokens)
}

/// A token behind a parenthesis and the first column of the key.
#[tactic(auto, using(crate::proofs::StepLemmas::lone_steps, crate::proofs::StepLemmas::comma_steps))]
fn behind_lone(
    alloc: Global,
    schema: &Schema,
    base: bool,
    stack: Stack,
    opened: Token,
    name: Token,
    token: Token,
) -> R<Stepped>
    requires { length schema.now.columns < 2 ^ 32 }
    ensures { IfOk result (λ stepped. IsStepped schema.now (after_lone (setting base (keys_of schema.now)) (operands schema.now) token.word stack opened name token) (LoneState stack opened name) token stepped) }
{
    if is_comma(&token.word) {
        let seen = three(alloc, opened, name, token)?;
        return Ok(Stepped::Moved(State::InRow(stack, seen, Slot::SecondColumn)));
    }
    let held = lone_held(schema, stack, opened, name)?;
    let stepped = followed(alloc, schema, base, held, token)?;
    Ok(stepped)
}

/// The parenthesis is open, and the column is read.
pub fn lone_held(schema: &Schema, stack: Stack, opened: Token, name: Token) -> R<Held>
    requires { length schema.now.columns < 2 ^ 32 }
    ensures { IfOk result (λ held. held_of held ≡ the_lone (operands schema.now) stack opened name) }
{
    let mut stack = stack;
    stack.push(Frame::Opened(opened, true))?;
    Ok(Held {
        stack,
        condition: false,
        x: leaf(schema, name),
    })
}

/// The state behind a token that fits in a row comparison.
fn row_next(
    alloc: Global,
    schema: &Schema,
    stack: Stack,
    seen: Tokens,
    after: AfterSlot,
) -> R<State>
    requires { after ≡ AfterSlot.Misfit → ⊥ }
    ensures { IfOk result (λ state. option_map (the_next (operands schema.now) stack seen) (slots_of after) ≡ Some (state_of state)) }
{
    match after {
        AfterSlot::Misfit => unreachable!(),
        AfterSlot::Next(slot) => Ok(State::InRow(stack, seen, slot)),
        AfterSlot::Done => {
            let x = row_test(alloc, schema, seen.as_slice())?;
            Ok(State::Read(Held {
                stack,
                condition: true,
                x,
            }))
        }
    }
}

/// A token within a row comparison.
#[tactic(auto, using(crate::proofs::StepLemmas::row_moves, crate::proofs::StepLemmas::row_stops))]
fn in_row(
    alloc: Global,
    schema: &Schema,
    base: bool,
    stack: Stack,
    seen: Tokens,
    slot: Slot,
    token: Token,
) -> R<Stepped>
    ensures { IfOk result (λ stepped. IsStepped schema.now (within_row (setting base (keys_of schema.now)) (operands schema.now) stack seen (slot_due slot) (slots_left slot) token) (RowState stack seen (slot_due slot) (slots_left slot)) token stepped) }
{
    let after = after_slot(slot, schema, base, &token.word);
    if after == AfterSlot::Misfit {
        return Ok(Stepped::Stuck(State::InRow(stack, seen, slot), token));
    }
    let mut seen = seen;
    seen.push(token)?;
    let state = row_next(alloc, schema, stack, seen, after)?;
    Ok(Stepped::Moved(state))
}

impl State {
    /// What comes of a token; `base` says whether the whole is a condition.
    pub fn step(self, alloc: Global, schema: &Schema, base: bool, token: Token) -> R<Stepped>
        requires { length schema.now.columns < 2 ^ 32 }
        ensures { IfOk result (λ stepped. IsStepped schema.now (moved (setting base (keys_of schema.now)) (operands schema.now) (state_of self) token) (state_of self) token stepped) }
    {
        match self {
            State::Due(stack) => begun(schema, base, stack, token),
            State::Read(held) => followed(alloc, schema, base, held, token),
            State::SawIs(held, is) => Ok(behind_is(held, is, schema, token)),
            State::SawNot(held, is, not) => Ok(behind_not(held, is, not, schema, token)),
            State::Lone(stack, opened, name) => {
                behind_lone(alloc, schema, base, stack, opened, name, token)
            }
            State::InRow(stack, seen, slot) => {
                in_row(alloc, schema, base, stack, seen, slot, token)
            }
            State::SawMinus(stack, minus) => behind_minus(schema, base, stack, minus, token),
        }
    }

    /// What is there of the tree, where the text ends here.
    pub fn facts(&self, alloc: Global, schema: &Schema) -> R<Facts>
        requires { length schema.now.columns < 2 ^ 32 }
        ensures { IfOk result (λ facts. facts ≡ facts_so_far schema.now (state_of self.now)) }
    {
        match self {
            State::Due(stack) => Ok(stack.plug(Facts::gap())),
            State::Read(held) => Ok(held.stack.plug(held.x.facts)),
            State::SawIs(held, _) => Ok(held.stack.plug(held.x.facts.nullness())),
            State::SawNot(held, _, _) => Ok(held.stack.plug(held.x.facts.nullness())),
            State::Lone(stack, opened, name) => {
                Ok(stack.plug(leaf_facts(schema, name).paren(opened.place)))
            }
            State::InRow(stack, seen, _) => {
                let x = row_test(alloc, schema, seen.as_slice())?;
                Ok(stack.plug(x.facts))
            }
            State::SawMinus(stack, minus) => Ok(stack.plug(Facts::sign(minus, Facts::gap()))),
        }
    }
}
