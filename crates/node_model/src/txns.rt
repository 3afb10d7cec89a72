ghost use Rattle.std.specs.Prelude.{◌≡◌, [], ◌∷◌, None, Some, IsSome, true, false, option_copied, OnOk, OnErr};
ghost use Rattle.row_types.specs.declared.edges.Edge.TheVariants.{Low};
ghost use Rattle.std.specs.Prelude.{◌++◌, ◌<◌, length, vec_len, vec_capacity};
ghost use Rattle.node_model.specs.Txns.{txn_of, with_txn, without_txn, done_of, place_in, with_current, stepped_if, with_step};

use crate::parts::Part;
use lock_table::Owner;
use ptc_statement::{Statement, Statements};
use row_types::{Edge, R};
use std::alloc::Global;
use std::marker::Model;
use std::mem;

/// A statement in progress, and the edge up to which it is done.
#[derive(Debug, Drop)]
pub struct Walk {
    pub statement: Statement,
    pub cursor: Edge,
}

/// An open transaction: its statements that are done, in order, and the one in progress, if there is one.
#[derive(Debug, Drop)]
pub struct Txn {
    pub owner: Owner,
    pub part: Part,
    pub done: Statements,
    pub current: Option<Walk>,
}

/// The open transactions of a node, one for each owner that has one.
#[derive(Debug, Drop)]
pub struct Txns {
    items: Vec<Txn>,
}

impl Model for Txns {
    ghost use Rattle.std.specs.Prelude.{List};
    ghost use Rattle.std.specs.Coded.{codes};
    ghost use Rattle.ptc_statement.specs.contracts.expressions.Expr as expr;
    ghost use Rattle.ptc_statement.specs.contracts.conditions.Cond as condition;
    ghost use Rattle.node_model.specs.declared.txns.Txn.{Txn as OneTxn};

    ghost Value = { List OneTxn };

    ghost coded = { Prim.hlevel (codes, expr.the_row.coded, condition.the_row.coded) };

    ghost view = { λ txns. txns.items.items };
}

impl Txns {
    pub fn new(alloc: Global) -> Txns
        ensures { result ≡ [] }
    {
        Txns {
            items: Vec::new(alloc),
        }
    }

    pub fn len(&self) -> usize
        ensures { result ≡ length self.now }
    {
        self.items.len()
    }

    /// The open transaction of an owner, if there is one.
    pub fn get(&self, owner: Owner) -> Option<&Txn>
        ensures { option_copied result ≡ txn_of owner.0 self.now }
    {
        txn_in(self.items.as_slice(), owner)
    }

    /// A transaction that begins, of an owner that has none; out of memory changes nothing.
    #[tactic(auto, using(crate::proofs::TxnLemmas::with_absent))]
    pub fn begin(&mut self, txn: Txn) -> R<()>
        requires { txn_of txn.owner.0 self.old ≡ None }
        ensures ok { OnOk result (self.new ≡ with_txn txn self.old) }
        ensures err { OnErr result (self.new ≡ self.old) }
    {
        self.items.push(txn)?;
        Ok(())
    }

    /// A statement is in progress in an owner's transaction, in place of any other.
    pub fn start(&mut self, owner: Owner, walk: Walk)
        requires { IsSome (txn_of owner.0 self.old) }
        ensures { self.new ≡ with_current (Some walk) (txn_of owner.0 self.old) self.old }
    {
        let place = place_in(self.items.as_slice(), owner);
        set_current(&mut self.items[place], walk);
    }

    /// No statement is in progress any more in an owner's transaction.
    pub fn withdraw(&mut self, owner: Owner)
        requires { IsSome (txn_of owner.0 self.old) }
        ensures { self.new ≡ with_current None (txn_of owner.0 self.old) self.old }
    {
        let place = place_in(self.items.as_slice(), owner);
        clear_current(&mut self.items[place]);
    }

    /// A visit of an owner's statement in progress: the statement is refused, done, or goes on behind an
    /// edge. A statement that is done needs memory, and want of it changes nothing.
    pub fn step(&mut self, owner: Owner, refused: bool, ends: bool, after: Edge) -> R<()>
        requires { IsSome (txn_of owner.0 self.old) }
        ensures ok { OnOk result (self.new ≡ with_step refused ends after (txn_of owner.0 self.old) self.old) }
        ensures err { OnErr result (self.new ≡ self.old) }
    {
        let place = place_in(self.items.as_slice(), owner);
        step_one(&mut self.items[place], refused, ends, after)
    }

    /// An owner's transaction goes, and its statements that are done are handed on, without memory.
    pub fn close(&mut self, alloc: Global, owner: Owner) -> Statements
        requires { IsSome (txn_of owner.0 self.old) }
        ensures done { result ≡ done_of (txn_of owner.0 self.old) }
        ensures left { self.new ≡ without_txn owner.0 self.old }
    {
        let place = place_in(self.items.as_slice(), owner);
        let done = take_done(alloc, &mut self.items[place]);
        take_out(&mut self.items, owner);
        done
    }

    /// An owner's transaction goes, if there is one.
    pub fn end(&mut self, owner: Owner)
        ensures { self.new ≡ without_txn owner.0 self.old }
    {
        take_out(&mut self.items, owner);
    }
}

fn txn_in(txns: &[Txn], owner: Owner) -> Option<&Txn>
    ensures { option_copied result ≡ txn_of owner.0 txns.now }
{
    let mut rest = txns;
    while let Some((txn, more)) = rest.split_first() {
        if txn.owner.0 == owner.0 {
            return Some(txn);
        }
        rest = more;
    }
    None
}

/// The number of an owner's transaction, or how many there are.
fn place_in(txns: &[Txn], owner: Owner) -> usize
    ensures { result ≡ place_in owner.0 txns.now }
{
    for place in 0..txns.len() {
        if txns[place].owner.0 == owner.0 {
            return place;
        }
    }
    txns.len()
}

fn take_out(txns: &mut Vec<Txn>, owner: Owner)
    ensures { txns.new.items ≡ without_txn owner.0 txns.old.items }
{
    txns.retain(|txn| txn.owner.0 != owner.0);
}

fn take_done(alloc: Global, txn: &mut Txn) -> Statements
    ensures done { result ≡ txn.old.done }
    ensures left { txn.new ≡ record txn.old { done = [] } }
{
    mem::replace(&mut txn.done, Statements::new(alloc))
}

fn set_current(txn: &mut Txn, walk: Walk)
    ensures { txn.new ≡ record txn.old { current = Some walk } }
{
    txn.current = Some(walk);
}

fn clear_current(txn: &mut Txn)
    ensures { txn.new ≡ record txn.old { current = None } }
{
    txn.current = None;
}

fn step_one(txn: &mut Txn, refused: bool, ends: bool, after: Edge) -> R<()>
    ensures ok { OnOk result (txn.new ≡ stepped_if refused ends after txn.old txn.old.current) }
    ensures err { OnErr result (txn.new ≡ txn.old) }
{
    if refused {
        txn.current = None;
        return Ok(());
    }
    if ends {
        return finish(txn);
    }
    match &mut txn.current {
        None => {}
        Some(walk) => walk.cursor = after,
    }
    Ok(())
}

/// The statement in progress is done.
fn finish(txn: &mut Txn) -> R<()>
    ensures ok { OnOk result (txn.new ≡ stepped_if false true Low txn.old txn.old.current) }
    ensures err { OnErr result (txn.new ≡ txn.old) }
{
    txn.done.items.reserve(1)?;
    match txn.current.take() {
        None => {}
        Some(walk) => put_last(&mut txn.done.items, walk.statement),
    }
    Ok(())
}

fn put_last(statements: &mut Vec<Statement>, statement: Statement)
    requires { vec_len statements.old < vec_capacity statements.old }
    ensures { statements.new.items ≡ statements.old.items ++ statement ∷ [] }
{
    match statements.push(statement) {
        Ok(()) => {}
        Err(_) => unreachable!(),
    }
}
