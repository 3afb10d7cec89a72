ghost use Rattle.std.specs.Prelude.{◌≡◌, ◌<◌, ◌^◌, IfOk, length};
ghost use Rattle.statement_grammar.specs.Machine.{Read as ReadState, same_sort};
ghost use Rattle.statement_stacks.specs.Closes.{held_of};
ghost use Rattle.statement_states.specs.States.{state_of};
ghost use Rattle.statement_states.specs.Finishes.{IsFinished, is_all as all_of};

use crate::states::State;
use crate::steps::lone_held;
use row_types::{R, Schema};
use statement_operands::Operand;
use statement_stacks::{Closed, Held, Top};
use std::alloc::Global;

/// A whole tree, or what is read of one.
#[derive(Debug, Drop)]
pub enum Finished {
    Whole(Operand),
    Open(State),
}

fn is_same(a: bool, b: bool) -> bool
    ensures { result ≡ same_sort a b }
{
    if a { b } else { !b }
}

/// Whether nothing is open round an operand of the sort that is due.
fn is_all(top: Top, condition: bool, base: bool) -> bool
    ensures { result ≡ all_of top condition base }
{
    match top {
        Top::Bare => is_same(base, condition),
        _ => false,
    }
}

#[tactic(auto, using(crate::proofs::FinishLemmas::whole_finishes, crate::proofs::FinishLemmas::open_finishes))]
fn finish_held(alloc: Global, schema: &Schema, base: bool, held: Held) -> R<Finished>
    ensures { IfOk result (λ finished. IsFinished schema.now base (ReadState (held_of held)) finished) }
{
    let closed = held.close(alloc, schema, 1)?;
    let Closed { held, done } = closed;
    let all = done && is_all(held.stack.top(), held.condition, base);
    if !all {
        return Ok(Finished::Open(State::Read(held)));
    }
    let Held {
        stack: _,
        condition: _,
        x,
    } = held;
    Ok(Finished::Whole(x))
}

impl State {
    #[tactic(auto, using(crate::proofs::FinishLemmas::lone_finishes))]
    /// Closes all that is open. Where that gives no tree of the sort that is due, as much stays read.
    pub fn finish(self, alloc: Global, schema: &Schema, base: bool) -> R<Finished>
        requires { length schema.now.columns < 2 ^ 32 }
        ensures { IfOk result (λ finished. IsFinished schema.now base (state_of self) finished) }
    {
        match self {
            State::Read(held) => finish_held(alloc, schema, base, held),
            State::Lone(stack, opened, name) => {
                let held = lone_held(schema, stack, opened, name)?;
                let finished = finish_held(alloc, schema, base, held)?;
                Ok(finished)
            }
            State::Due(stack) => Ok(Finished::Open(State::Due(stack))),
            State::SawIs(held, is) => Ok(Finished::Open(State::SawIs(held, is))),
            State::SawNot(held, is, not) => Ok(Finished::Open(State::SawNot(held, is, not))),
            State::InRow(stack, seen, slot) => Ok(Finished::Open(State::InRow(stack, seen, slot))),
            State::SawMinus(stack, minus) => Ok(Finished::Open(State::SawMinus(stack, minus))),
        }
    }
}
