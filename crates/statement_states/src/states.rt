ghost use Rattle.std.specs.Prelude.{◌≡◌, ◌<◌, ◌↔◌, IsTrue, if◌then◌else◌};
ghost use Rattle.statement_grammar.specs.Grammar.{is_number as is_number_word};
ghost use Rattle.statement_states.specs.States.{height_before, state_of};

use crate::row_slots::{Slot, is_number};
use statement_stacks::{Held, Stack};
use statement_tokens::{Token, Tokens};

/// What is read of an expression or a condition.
#[derive(Debug, Drop)]
pub enum State {
    /// An operand is due.
    Due(Stack),
    /// An operand is read.
    Read(Held),
    /// Behind IS.
    SawIs(Held, Token),
    /// Behind IS NOT.
    SawNot(Held, Token, Token),
    /// Behind a parenthesis and the first column of a key of two, where a condition may stand.
    Lone(Stack, Token, Token),
    /// Within a row comparison, with its tokens so far.
    InRow(Stack, Tokens, Slot),
    /// Behind a `-` where an operand is due.
    SawMinus(Stack, Token),
}

/// What comes of a token: the state behind it, or, where it may not follow, a state in which as much is read, and
/// the token.
#[derive(Debug, Drop)]
pub enum Stepped {
    Moved(State),
    Stuck(State, Token),
}

impl State {
    /// Whether the tree so far is more than 64 high, where this token comes next.
    pub fn is_deep_before(&self, token: &Token) -> bool
        ensures { IsTrue result ↔ (64 < height_before (state_of self.now) token.now) }
    {
        match self {
            State::Due(stack) => stack.is_deep(1),
            State::Read(held) => held.stack.is_deep(held.x.facts.height),
            State::SawIs(held, _) => held.stack.is_deep(held.x.facts.nullness().height),
            State::SawNot(held, _, _) => held.stack.is_deep(held.x.facts.nullness().height),
            State::Lone(stack, _, _) => stack.is_deep(1),
            State::InRow(stack, _, _) => stack.is_deep(1),
            State::SawMinus(stack, _) => stack.is_deep(height_of_sign(token)),
        }
    }
}

fn height_of_sign(token: &Token) -> u32
    ensures { result ≡ (if is_number_word token.now.word then 1 else 2) }
{
    if is_number(&token.word) { 1 } else { 2 }
}
