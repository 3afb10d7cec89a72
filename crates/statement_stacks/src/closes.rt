ghost use Rattle.std.specs.Prelude.{◌≡◌, ◌≤◌, IfOk};
ghost use Rattle.statement_grammar.specs.Machine.{filled as the_filled, same_sort};
ghost use Rattle.statement_operands.specs.Operands.{operands};
ghost use Rattle.statement_stacks.specs.Closes.{IsClosed, IsNext, filled_once, held_of, next_at};

use crate::stacks::Stack;
use crate::tops::{Top, frame_gives};
use row_types::{R, Schema};
use statement_grammar::Frame;
use statement_operands::{Operand, range, sign, two};
use std::alloc::Global;

/// An operand that is read, whether it is a condition, and what is open round it.
#[derive(Debug, Drop)]
pub struct Held {
    pub stack: Stack,
    pub condition: bool,
    pub x: Operand,
}

/// Whether all was closed that was to be, and how far it is.
#[derive(Debug, Drop)]
pub struct Closed {
    pub held: Held,
    pub done: bool,
}

/// What comes next of closing: all is closed; the operand is of the wrong sort; or the innermost frame is filled.
#[derive(Clone, Copy, Debug, PartialEq, Eq)]
enum Next {
    Stop,
    Misfit,
    Fill,
}

/// The frame with its operand.
fn filled(alloc: Global, _schema: &Schema, frame: Frame<Operand>, x: Operand) -> R<Operand>
    ensures { IfOk result (λ it. it ≡ the_filled (operands _schema.now) frame x) }
{
    match frame {
        Frame::Before(token) => sign(alloc, &token, x),
        Frame::Behind(left, token) => two(alloc, left, &token.word, x),
        Frame::Low(_, _) => Ok(x),
        Frame::High(value, _, low, _) => range(alloc, value, low, x),
        Frame::Opened(_, _) => Ok(x),
    }
}

fn is_same(a: bool, b: bool) -> bool
    ensures { result ≡ same_sort a b }
{
    if a { b } else { !b }
}

fn next_of(top: Top, level: u8, condition: bool) -> Next
    ensures { result ≡ next_at top level condition }
{
    match top {
        Top::Binds { strength, wants } => {
            if strength < level {
                return Next::Stop;
            }
            if is_same(condition, wants) {
                return Next::Fill;
            }
            Next::Misfit
        }
        Top::Bare => Next::Stop,
        Top::Low => Next::Stop,
        Top::Opened { takes: _ } => Next::Stop,
    }
}

impl Held {
    #[tactic(auto, using(crate::proofs::CloseLemmas::next_is))]
    fn next(&self, _schema: &Schema, level: u8) -> Next
        requires { 1 ≤ level }
        ensures { IsNext _schema.now level self.now.stack self.now.condition self.now.x result }
    {
        next_of(self.stack.top(), level, self.condition)
    }

    /// Fills the innermost frame.
    fn fill(self, alloc: Global, schema: &Schema) -> R<Held>
        ensures { IfOk result (λ held. held_of held ≡ filled_once schema.now self.stack self.condition self.x) }
    {
        let Held {
            mut stack,
            condition,
            x,
        } = self;
        match stack.pop() {
            None => Ok(Held {
                stack,
                condition,
                x,
            }),
            Some(frame) => {
                let condition = frame_gives(&frame);
                let x = filled(alloc, schema, frame, x)?;
                Ok(Held {
                    stack,
                    condition,
                    x,
                })
            }
        }
    }

    /// Closes what binds at least as tightly as a level.
    #[tactic(auto, using(crate::proofs::CloseLemmas::fill_keeps_result, crate::proofs::CloseLemmas::fill_keeps_tree, crate::proofs::CloseLemmas::fill_shortens))]
    pub fn close(self, alloc: Global, schema: &Schema, level: u8) -> R<Closed>
        requires { 1 ≤ level }
        ensures { IfOk result (λ closed. IsClosed schema.now level self closed) }
    {
        let mut held = self;
        'frames: loop {
            match held.next(schema, level) {
                Next::Stop => return Ok(Closed { held, done: true }),
                Next::Misfit => return Ok(Closed { held, done: false }),
                Next::Fill => held = held.fill(alloc, schema)?,
            }
        }
    }
}
