ghost use Rattle.std.specs.Prelude.{◌≡◌, ◌<◌, ◌+◌, ◌↔◌, max, List, [], ◌∷◌, reverse, IsTrue, OnOk, OnErr};
ghost use Rattle.statement_stacks.specs.Tops.{IsPopped, top_of as the_top};
ghost use Rattle.statement_stacks.specs.Levels.{around, frames_of};
ghost use Rattle.statement_stacks.specs.Plugs.{plug as the_plug, plugged as the_part};

use crate::levels::{Level, Size, size_more, size_of_all};
use crate::tops::{Top, top_of};
use row_types::R;
use statement_grammar::Frame;
use statement_operands::Operand;
use statement_reader::Facts;
use std::alloc::Global;
use std::marker::Model;

/// The frames that are open. Contracts see the innermost first.
#[derive(Debug, Drop)]
pub struct Stack {
    levels: Vec<Level>,
}

impl Model for Stack {
    ghost use Rattle.std.specs.Prelude.{List, reverse};
    ghost use Rattle.statement_grammar.specs.declared.frames.Frame.{Frame};
    ghost use Rattle.statement_operands.specs.declared.operands.Operand.{Operand};
    ghost use Rattle.statement_stacks.specs.Levels.{AreSized, frames_of};
    ghost use Rattle.std.specs.Coded.{codes};
    ghost use Rattle.ptc_statement.specs.contracts.expressions.Expr as e;
    ghost use Rattle.ptc_statement.specs.contracts.conditions.Cond as c;

    ghost Value = { List (Frame Operand) };

    ghost coded = { Prim.hlevel (codes, e.the_row.coded, c.the_row.coded) };

    ghost view = { λ s. frames_of (reverse s.levels.items) };

    ghost invariant = { λ s. AreSized (reverse s.levels.items) };
}

impl Stack {
    /// Nothing is open.
    pub fn new(alloc: Global) -> Stack
        ensures { result ≡ [] }
    {
        Stack {
            levels: Vec::new(alloc),
        }
    }

    /// Opens a frame; a refusal leaves all as it was.
    pub fn push(&mut self, frame: Frame<Operand>) -> R<()>
        ensures ok { OnOk result (self.new ≡ frame ∷ self.old) }
        ensures err { OnErr result (self.new ≡ self.old) }
    {
        let size = size_more(&frame, size_of_all(self.levels.as_slice()));
        self.levels.push(Level { frame, size })?;
        Ok(())
    }

    /// Takes the innermost frame off.
    pub fn pop(&mut self) -> Option<Frame<Operand>>
        ensures { IsPopped self.old result self.new }
    {
        match self.levels.pop() {
            None => None,
            Some(level) => {
                let Level { frame, size: _ } = level;
                Some(frame)
            }
        }
    }

    /// What the innermost frame waits for.
    pub fn top(&self) -> Top
        ensures { result ≡ the_top self.now }
    {
        top_of_all(self.levels.as_slice())
    }

    /// Whether the tree so far is more than 64 high, round an operand of this height.
    pub fn is_deep(&self, height: u32) -> bool
        ensures { IsTrue result ↔ (64 < around self.now height) }
    {
        let size = size_of_all(self.levels.as_slice());
        exceeds(size, height)
    }

    /// What is there of the whole tree, where this is there of its last operand.
    pub fn plug(&self, x: Facts) -> Facts
        ensures { result ≡ the_plug self.now x }
    {
        plug_all(self.levels.as_slice(), x)
    }
}

/// Whether what is so open is more than 64 high, round an operand of this height.
fn exceeds(size: Size, height: u32) -> bool
    ensures { IsTrue result ↔ (64 < max size.floor (size.depth + height)) }
{
    let depth = size.depth as u64 + height as u64;
    let floor = size.floor as u64;
    if floor < depth {
        return depth > 64;
    }
    floor > 64
}

fn top_of_all(levels: &[Level]) -> Top
    ensures { result ≡ the_top (frames_of (reverse levels.now)) }
{
    match levels.split_last() {
        None => Top::Bare,
        Some((level, _)) => top_of(&level.frame),
    }
}

fn plugged(frame: &Frame<Operand>, x: Facts) -> Facts
    ensures { result ≡ the_part frame.now x }
{
    match frame {
        Frame::Before(token) => Facts::sign(token, x),
        Frame::Behind(left, token) => left.facts.two(&token.word, x),
        Frame::Low(value, _) => value.facts.lower(x),
        Frame::High(value, _, low, _) => value.facts.range(low.facts, x),
        Frame::Opened(token, _) => x.paren(token.place),
    }
}

fn plug_all(levels: &[Level], x: Facts) -> Facts
    ensures { result ≡ the_plug (frames_of (reverse levels.now)) x }
{
    let mut x = x;
    let mut left = levels;
    while let Some((level, rest)) = left.split_last() {
        x = plugged(&level.frame, x);
        left = rest;
    }
    x
}
