ghost use Rattle.std.specs.Prelude.{◌≡◌, ◌↔◌, None, IsSome, is_some, option_copied, option_map, length, IfOk, IfErr, OnOk, OnErr};
ghost use Rattle.checksum_table.specs.Checks.{check_at};
ghost use Rattle.node_engine.specs.declared.publishing.MasterFault.TheVariants.{NoCheck};
ghost use Rattle.history.specs.Replay.{fold, applied_of};
ghost use Rattle.node_model.specs.Waits.{next_wait};
ghost use Rattle.node_model.specs.Txns.{txn_of};
ghost use Rattle.node_model.specs.Kept.{IsKept};
ghost use Rattle.node_model.specs.Node.{NodeView, begun, ended, committed_rows};
ghost use Rattle.node_model.specs.Calls.{after_call, fresh_node, Visit as VisitCall, Start as StartCall, Commit as CommitCall, Publish as PublishCall};
ghost use Rattle.std.specs.List.{AllByRecursion};
ghost use Rattle.row_types.specs.Fit.{IsSchema, AreTables};
ghost use Rattle.node_parts.specs.Views.{IsUnderWay, IsIdle, IsLiveTable, walk_of};
ghost use Rattle.node_engine.specs.Commits.{commit_answer};
ghost use Rattle.node_visits.specs.Answers.{visit_answer};
ghost use Rattle.ptc_statement.specs.Fits.{FitsSchemas};
ghost use Rattle.node_parts.specs.ReadRows.{read_rows_of};
ghost use Rattle.node_visits.specs.NextStarts.{next_started};

use crate::begins::begin_and_start_parts;
use crate::commits::commit_parts;
use crate::publishing::{MasterFault, publish_parts};
use checksum_table::Checks;
use lock_table::Owner;
use node_model::Part;
use node_parts::{
    Parts, begin_parts, committed_in, fresh_parts, is_under_way, live_in, read_rows_in,
    rollback_parts, start_parts,
};
use node_visits::{Visit, start_and_visit_parts, visit_and_start_parts, visit_parts, waits_in};
use ordered_table::Table;
use ptc_statement::Statement;
use row_types::{R, Row, Rows, Schemas, Tables};
use statement_log::{Log, Origin};
use std::alloc::Global;
use std::marker::Model;

/// A node: its tables as they are now, its open transactions with what they hold, and its history.
#[derive(Drop)]
pub struct Node {
    parts: Parts,
}

impl Model for Node {
    ghost use Rattle.node_model.specs.Node.{NodeView};
    ghost use Rattle.node_engine.specs.NodeParts.{view_of, NodeKept};
    ghost use Rattle.std.specs.Coded.{codes};
    ghost use Rattle.ptc_statement.specs.contracts.expressions.Expr as expr;
    ghost use Rattle.ptc_statement.specs.contracts.conditions.Cond as condition;

    ghost Value = { NodeView };

    ghost coded = { Prim.hlevel (codes, expr.the_row.coded, condition.the_row.coded) };

    ghost view = { view_of };

    ghost invariant = { NodeKept };
}

impl Node {
    /// A node without a history and without transactions.
    pub fn new(alloc: Global, schemas: Schemas, start: Tables) -> R<Node>
        requires schemas { AllByRecursion IsSchema schemas.tables }
        requires start { AreTables schemas.tables start }
        ensures { IfOk result (λ node. node ≡ fresh_node schemas.tables start) }
    {
        let parts = fresh_parts(alloc, schemas, start)?;
        Ok(Node { parts })
    }

    /// What always holds of a node, for a caller whose proof wants it: the laws of the locks, that the committed
    /// tables are tables, and that the statements of open transactions fit. It does nothing.
    pub fn keeps_laws(&self)
        ensures { IsKept self.now }
    {
        let _ = &self.parts;
    }

    /// Whether an owner has a transaction.
    pub fn is_begun(&self, owner: Owner) -> bool
        ensures { result ≡ is_some (txn_of owner.0 self.now.txns) }
    {
        self.parts.txns.get(owner).is_some()
    }

    /// Whether an owner has a statement in progress.
    pub fn is_under_way(&self, owner: Owner) -> bool
        ensures { result ≡ is_some (walk_of owner.0 self.now.txns) }
    {
        is_under_way(&self.parts, owner)
    }

    pub fn schemas(&self) -> &Schemas
        ensures { result.now.tables ≡ self.now.schemas }
    {
        &self.parts.schemas
    }

    /// The tables that the history began from.
    pub fn start_rows(&self) -> &Tables
        ensures { result.now ≡ self.now.start }
    {
        &self.parts.start
    }

    /// How many transactions are open.
    pub fn open_count(&self) -> usize
        ensures { result ≡ length self.now.txns }
    {
        self.parts.txns.len()
    }

    /// The entries that were committed, in order.
    pub fn history(&self) -> &Log
        ensures { result.now.entries ≡ self.now.history }
    {
        &self.parts.history
    }

    /// The check rows: those of the history's replay.
    pub fn checks(&self) -> &Checks
        ensures { result.now ≡ (fold self.now.schemas self.now.start self.now.history).checks }
    {
        &self.parts.checks
    }

    /// The last entry of the source's log that the history applied, 0 where it applied none.
    pub fn applied(&self) -> u64
        ensures { result ≡ applied_of self.now.history }
    {
        self.parts.applied
    }

    /// Whom an owner's statement in progress would have to wait for now, if it has one and there is such
    /// an owner.
    pub fn waits_for(&self, alloc: Global, owner: Owner) -> R<Option<Owner>>
        ensures { IfOk result (λ by. option_map (λ other. other.0) by ≡ next_wait self.now owner.0) }
    {
        let by = waits_in(alloc, owner, &self.parts)?;
        Ok(by)
    }

    /// The rows that the last locking read took that is done in an owner's open transaction: of its reach, as
    /// the transaction saw them, those of which its condition was true. They stay so until the transaction
    /// ends, whatever others commit; none where there is no such read.
    pub fn read_rows(&self, owner: Owner) -> &[Row]
        ensures { result.now ≡ read_rows_of owner.0 self.now }
    {
        read_rows_in(&self.parts, owner)
    }

    /// The live table of this number: its row at each key is the live row.
    pub fn live(&self, number: u32) -> Option<&Table>
        ensures { IsLiveTable self.now number (option_copied result) }
    {
        live_in(&self.parts, number)
    }

    /// The committed rows of a table, by ascending key: those that the history's replay leaves, whatever open
    /// transactions have changed; none where there is no such table.
    pub fn committed(&self, alloc: Global, number: u32) -> R<Rows>
        ensures { IfOk result (λ rows. rows ≡ committed_rows self.now number) }
    {
        let rows = committed_in(alloc, &self.parts, number)?;
        Ok(rows)
    }

    /// Begins a transaction of an owner that has none; out of memory changes nothing.
    pub fn begin(&mut self, alloc: Global, owner: Owner, part: Part) -> R<()>
        requires { txn_of owner.0 self.old.txns ≡ None }
        ensures ok { OnOk result (self.new ≡ begun owner part self.old) }
        ensures err { OnErr result (self.new ≡ self.old) }
    {
        begin_parts(alloc, owner, part, &mut self.parts)?;
        Ok(())
    }

    /// Starts a statement in a transaction that has none in progress; out of memory changes nothing.
    pub fn start(&mut self, alloc: Global, owner: Owner, statement: Statement) -> R<()>
        requires idle { IsIdle owner.0 self.old }
        requires fits { FitsSchemas self.old.schemas statement }
        ensures ok { OnOk result (self.new ≡ after_call (StartCall owner statement) self.old) }
        ensures err { OnErr result (self.new ≡ self.old) }
    {
        start_parts(alloc, owner, statement, &mut self.parts)?;
        Ok(())
    }

    /// Begins a transaction of an owner that has none, and starts its first statement; out of memory changes
    /// nothing.
    pub fn begin_and_start(
        &mut self,
        alloc: Global,
        owner: Owner,
        part: Part,
        statement: Statement,
    ) -> R<()>
        requires none { txn_of owner.0 self.old.txns ≡ None }
        requires fits { FitsSchemas self.old.schemas statement }
        ensures ok { OnOk result (self.new ≡ after_call (StartCall owner statement) (begun owner part self.old)) }
        ensures err { OnErr result (self.new ≡ self.old) }
    {
        begin_and_start_parts(alloc, owner, part, statement, &mut self.parts)?;
        Ok(())
    }

    /// The logged statements of an owner's transaction become an entry of the history, all at once, and the
    /// transaction and all that it holds are gone. It answers the entry's position; none is written where
    /// no statement is logged and the origin is a session. Out of memory changes nothing.
    pub fn commit(&mut self, alloc: Global, owner: Owner, origin: Origin) -> R<Option<u64>>
        requires idle { IsIdle owner.0 self.old }
        ensures answer { IfOk result (λ position. position ≡ commit_answer owner.0 origin self.old) }
        ensures ok { OnOk result (self.new ≡ after_call (CommitCall owner origin) self.old) }
        ensures err { OnErr result (self.new ≡ self.old) }
    {
        let position = commit_parts(alloc, owner, origin, &mut self.parts)?;
        Ok(position)
    }

    /// The node's own checksum of a chunk is published: an entry of the checksum tool, which it answers the
    /// position of, and the master of the chunk's check row. NoCheck comes exactly where the chunk has no
    /// check row. A refusal changes nothing.
    pub fn publish_master(
        &mut self,
        alloc: Global,
        table: u32,
        chunk: u32,
    ) -> Result<u64, MasterFault>
        ensures position { IfOk result (λ position. position ≡ length self.new.history) }
        ensures ok { OnOk result (self.new ≡ after_call (PublishCall table chunk) self.old) }
        ensures there { OnOk result (IsSome (check_at table chunk (fold self.old.schemas self.old.start self.old.history).checks)) }
        ensures none { IfErr result (λ fault. (fault ≡ NoCheck) ↔ (check_at table chunk (fold self.old.schemas self.old.start self.old.history).checks ≡ None)) }
        ensures err { OnErr result (self.new ≡ self.old) }
    {
        let position = publish_parts(alloc, table, chunk, &mut self.parts)?;
        Ok(position)
    }

    /// An owner's transaction, what it changed and what it holds are gone. It takes no memory.
    pub fn rollback(&mut self, owner: Owner)
        ensures { self.new ≡ ended owner.0 self.old }
    {
        rollback_parts(owner, &mut self.parts);
    }

    /// The next visit of an owner's statement in progress, and what it answers. Waits and out of memory change
    /// nothing; Deadlock rolls back the victim's transaction, and changes nothing else.
    pub fn visit(&mut self, alloc: Global, owner: Owner) -> R<Visit>
        requires { IsUnderWay owner.0 self.old }
        ensures answer { IfOk result (λ answer. answer ≡ visit_answer owner.0 self.old) }
        ensures ok { OnOk result (self.new ≡ after_call (VisitCall owner) self.old) }
        ensures err { OnErr result (self.new ≡ self.old) }
    {
        let answer = visit_parts(alloc, owner, &mut self.parts)?;
        Ok(answer)
    }

    /// The next visit of an owner's statement in progress and, where this is done with it, the start of a
    /// further statement. The memory of both is taken first: out of memory changes nothing.
    pub fn visit_and_start(&mut self, alloc: Global, owner: Owner, next: Statement) -> R<Visit>
        requires under_way { IsUnderWay owner.0 self.old }
        requires fits { FitsSchemas self.old.schemas next }
        ensures answer { IfOk result (λ answer. answer ≡ visit_answer owner.0 self.old) }
        ensures ok { OnOk result (self.new ≡ next_started (visit_answer owner.0 self.old) owner next (after_call (VisitCall owner) self.old)) }
        ensures err { OnErr result (self.new ≡ self.old) }
    {
        let answer = visit_and_start_parts(alloc, owner, next, &mut self.parts)?;
        Ok(answer)
    }

    /// Starts a statement in a transaction that has none in progress, and makes its first visit. Out of memory
    /// changes nothing.
    pub fn start_and_visit(&mut self, alloc: Global, owner: Owner, statement: Statement) -> R<Visit>
        requires idle { IsIdle owner.0 self.old }
        requires fits { FitsSchemas self.old.schemas statement }
        ensures answer { IfOk result (λ answer. answer ≡ visit_answer owner.0 (after_call (StartCall owner statement) self.old)) }
        ensures ok { OnOk result (self.new ≡ after_call (VisitCall owner) (after_call (StartCall owner statement) self.old)) }
        ensures err { OnErr result (self.new ≡ self.old) }
    {
        let answer = start_and_visit_parts(alloc, owner, statement, &mut self.parts)?;
        Ok(answer)
    }

    /// The tables that the history began from and the history, for a caller who wants nothing else of
    /// the node any more; nothing is copied.
    pub fn into_start_and_history(self) -> (Tables, Log)
        ensures start { result.0 ≡ self.start }
        ensures history { result.1.entries ≡ self.history }
    {
        (self.parts.start, self.parts.history)
    }
}
