ghost use Rattle.std.specs.Prelude.{◌≡◌, ◌<◌, ◌^◌, nat_lt, Bool, List, [], length, IfOk};
ghost use Rattle.std.specs.Option.{option_or};
ghost use Rattle.row_types.specs.declared.table_schema.Schema.{Schema as TableSchema};
ghost use Rattle.statement_tokens.specs.declared.words.Token.{Token as OneToken};
ghost use Rattle.statement_grammar.specs.Kinds.{when_true};
ghost use Rattle.statement_trees.specs.Trees.{IsReading, IsStep, IsStopped, IsEnd, deep_at_last, end_of, step_of};
ghost use Rattle.statement_trees.specs.declared.trees.TreeEnd.TheVariants.{Whole as WholeEnd};
ghost use Rattle.statement_states.specs.declared.finishes.Finished.TheVariants.{Open as OpenState};

use row_types::{R, Schema};
use statement_operands::Operand;
use statement_reader::Facts;
use statement_stacks::Stack;
use statement_states::{Finished, State, Stepped};
use statement_tokens::Token;
use std::alloc::Global;

/// An expression or a condition that is read: its state, the place of its last token, and the first token with which
/// it is more than 64 high, where the next one is known.
#[derive(Debug, Drop)]
pub struct OpenTree {
    pub state: State,
    pub last: u32,
    pub deep: Option<u32>,
}

/// What comes of a token: the tree with it, or, where the tokens with it begin no tree, as much as before, and the token.
#[derive(Debug, Drop)]
pub enum TreeStep {
    Moved(OpenTree),
    Stuck(OpenTree, Token),
}

/// The whole tree, or the facts of what is read of one; and the first token with which it is more than 64 high.
#[derive(Debug, Drop)]
pub enum TreeEnd {
    Whole(Operand, Option<u32>),
    Open(Facts, Option<u32>),
}

fn deep_with(deep: Option<u32>, is_deep: bool, place: u32) -> Option<u32>
    ensures { result ≡ option_or deep (when_true is_deep place) }
{
    match deep {
        Some(place) => Some(place),
        None => {
            if is_deep {
                return Some(place);
            }
            None
        }
    }
}

fn step_with(
    stepped: Stepped,
    last: u32,
    deep: Option<u32>,
    place: u32,
    next: Option<u32>,
) -> TreeStep
    ensures { result ≡ step_of stepped last deep place next }
{
    match stepped {
        Stepped::Moved(state) => TreeStep::Moved(OpenTree {
            state,
            last: place,
            deep: next,
        }),
        Stepped::Stuck(state, token) => TreeStep::Stuck(OpenTree { state, last, deep }, token),
    }
}

fn is_high(height: u32) -> bool
    ensures { result ≡ nat_lt 64 height }
{
    height > 64
}

fn whole_end(x: Operand, last: u32, deep: Option<u32>) -> TreeEnd
    ensures { result ≡ WholeEnd x (deep_at_last deep x.facts last) }
{
    let deep = deep_with(deep, is_high(x.facts.height), last);
    TreeEnd::Whole(x, deep)
}

fn open_end(
    alloc: Global,
    schema: &Schema,
    state: &State,
    last: u32,
    deep: Option<u32>,
) -> R<TreeEnd>
    requires { length schema.now.columns < 2 ^ 32 }
    ensures { IfOk result (λ end. end ≡ end_of schema.now (OpenState state.now) last deep) }
{
    let facts = state.facts(alloc, schema)?;
    let deep = deep_with(deep, is_high(facts.height), last);
    Ok(TreeEnd::Open(facts, deep))
}

fn end_with(
    alloc: Global,
    schema: &Schema,
    finished: Finished,
    last: u32,
    deep: Option<u32>,
) -> R<TreeEnd>
    requires { length schema.now.columns < 2 ^ 32 }
    ensures { IfOk result (λ end. end ≡ end_of schema.now finished last deep) }
{
    match finished {
        Finished::Whole(x) => Ok(whole_end(x, last, deep)),
        Finished::Open(state) => open_end(alloc, schema, &state, last, deep),
    }
}

impl OpenTree {
    /// Nothing is read.
    pub fn new(alloc: Global) -> OpenTree
        ensures { (schema : TableSchema) (base : Bool) → IsReading schema base [] result }
    {
        OpenTree {
            state: State::Due(Stack::new(alloc)),
            last: 0,
            deep: None,
        }
    }

    /// Reads a token; `base` says whether the whole is a condition.
    pub fn step(self, alloc: Global, schema: &Schema, base: bool, token: Token) -> R<TreeStep>
        requires { length schema.now.columns < 2 ^ 32 }
        ensures { IfOk result (λ step. (ts : List OneToken) → IsReading schema.now base ts self → IsStep schema.now base ts token step) }
    {
        let OpenTree { state, last, deep } = self;
        let place = token.place;
        let next = deep_with(deep, state.is_deep_before(&token), last);
        let stepped = state.step(alloc, schema, base, token)?;
        Ok(step_with(stepped, last, deep, place, next))
    }

    /// Ends the tree behind its last token.
    pub fn finish(self, alloc: Global, schema: &Schema, base: bool) -> R<TreeEnd>
        requires { length schema.now.columns < 2 ^ 32 }
        ensures { IfOk result (λ end. (ts : List OneToken) → IsStopped schema.now base ts self → IsEnd schema.now base ts end) }
    {
        let OpenTree { state, last, deep } = self;
        let finished = state.finish(alloc, schema, base)?;
        let end = end_with(alloc, schema, finished, last, deep)?;
        Ok(end)
    }
}
