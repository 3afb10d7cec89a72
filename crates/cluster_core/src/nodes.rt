ghost use Rattle.std.specs.Prelude.{◌≡◌, ◌++◌, [], ◌∷◌, is_some, ◌≤◌, IfOk, OnOk, OnErr};
ghost use Rattle.std.specs.List.{AllByRecursion};
ghost use Rattle.row_types.specs.Fit.{IsSchema, AreTables};
ghost use Rattle.ptc_statement.specs.Fits.{FitsSchemas};
ghost use Rattle.history.specs.Replay.{applied_of, position_of};
ghost use Rattle.cluster_core.specs.Good.{EntryFits};
ghost use Rattle.cluster_core.specs.Node.{replayed_of, logged, row_on};
ghost use Rattle.cluster_core.specs.SummaryParts.{parts_of};

use crate::live_tables::LiveTables;
use crate::node_parts::NodeParts;
use crate::node_states::NodeState;
use checksum_table::Checks;
use ptc_statement::{Statement, Statements};
use row_types::{Items, Plain, R, Row, Schemas, Tables};
use statement_log::{Entries, Entry, Log, Origin};
use std::alloc::Global;
use std::marker::Model;

/// A server: the source or a replica. It is seen as its schemas, the rows that it began with and its
/// history; its live tables and check rows are the replay of that history.
#[derive(Drop)]
pub struct Node {
    state: NodeState,
    start: Tables,
    history: Log,
    applied: u64,
    alloc: Global,
}

impl Model for Node {
    ghost use Rattle.cluster_core.specs.Node.{NodeView};
    ghost use Rattle.std.specs.Coded.{codes};
    ghost use Rattle.ptc_statement.specs.contracts.expressions.Expr as expr;
    ghost use Rattle.ptc_statement.specs.contracts.conditions.Cond as condition;

    ghost Value = { NodeView };

    ghost coded = { Prim.hlevel (codes, expr.the_row.coded, condition.the_row.coded) };

    ghost use Rattle.cluster_core.specs.NodeParts.{node_view, FollowsHistory};

    ghost view = { node_view };

    ghost invariant = { FollowsHistory };
}

impl Node {
    /// A node whose history is empty.
    pub fn new(alloc: Global, schemas: Schemas, start: Tables) -> R<Node>
        requires schemas { AllByRecursion IsSchema schemas.tables }
        requires start { AreTables schemas.tables start }
        ensures { IfOk result (λ node. node ≡ record { schemas = schemas.tables; start = start; history = [] }) }
    {
        let state = NodeState::new(alloc, schemas, &start)?;
        Ok(Node {
            state,
            start,
            history: Log::new(alloc),
            applied: 0,
            alloc,
        })
    }

    /// Puts an entry at the end of the history, with what its statements do, one after the other; a
    /// refusal leaves the node as it was.
    pub fn log(&mut self, entry: Entry) -> R<()>
        requires { EntryFits self.old.schemas entry }
        ensures ok { OnOk result (self.new ≡ logged self.old entry) }
        ensures err { OnErr result (self.new ≡ self.old) }
    {
        let position = position_from(self.history.len() + 1, &entry.origin);
        let applied = position_from(self.applied, &entry.origin);
        self.history.reserve()?;
        self.state
            .change_by(self.alloc, position, &entry.statements)?;
        append_reserved(&mut self.history, entry);
        self.applied = applied;
        Ok(())
    }

    /// Logs a statement as an entry of its own; a refusal leaves the node as it was.
    pub fn log_one(&mut self, origin: Origin, statement: Statement) -> R<()>
        requires { FitsSchemas self.old.schemas statement }
        ensures ok { OnOk result (self.new ≡ logged self.old (record { origin = origin; statements = statement ∷ [] })) }
        ensures err { OnErr result (self.new ≡ self.old) }
    {
        let entry = entry_of(self.alloc, origin, statement)?;
        self.log(entry)?;
        Ok(())
    }

    /// Whether the node has a row at the key of this one.
    pub fn has_row(&self, table: u32, row: &Row) -> bool
        ensures { result ≡ is_some (row_on self.now table row.now) }
    {
        self.state.tables().has_row(table, row)
    }

    pub fn schemas(&self) -> &Schemas
        ensures { result.now.tables ≡ self.now.schemas }
    {
        self.state.tables().schemas()
    }

    /// The rows that the node began with.
    pub fn start(&self) -> &Tables
        ensures { result.now ≡ self.now.start }
    {
        &self.start
    }

    pub fn history(&self) -> &Log
        ensures { result.now.entries ≡ self.now.history }
    {
        &self.history
    }

    /// The tables as they are now.
    pub fn live(&self) -> &LiveTables
        ensures { result.now ≡ record { schemas = self.now.schemas; tables = (replayed_of self.now).tables } }
    {
        self.state.tables()
    }

    /// The check rows as they are now.
    pub fn checks(&self) -> &Checks
        ensures { result.now ≡ (replayed_of self.now).checks }
    {
        self.state.checks()
    }

    /// Copies of what a summary takes from the node.
    pub(crate) fn parts(&self) -> R<NodeParts>
        ensures { IfOk result (λ parts. parts ≡ parts_of self.now) }
    {
        let live = self.live();
        Ok(NodeParts {
            schemas: live.schemas().copy(self.alloc)?,
            start: self.start.copy(self.alloc)?,
            history: entry_copies(self.alloc, self.history.as_slice())?,
            finals: live.rows(self.alloc)?,
        })
    }

    /// What a summary takes from the node; no row and no entry is copied.
    pub(crate) fn into_parts(self) -> R<NodeParts>
        ensures { IfOk result (λ parts. parts ≡ parts_of self) }
    {
        let Node {
            state,
            start,
            history,
            alloc,
            ..
        } = self;
        let (schemas, finals) = state.into_tables().into_rows(alloc)?;
        Ok(NodeParts {
            schemas,
            start,
            history: history.into_entries(),
            finals,
        })
    }

    /// The number of the last entry of the source's log that the node applied, 0 at first.
    pub fn applied(&self) -> u64
        ensures { result ≡ applied_of self.now.history }
    {
        self.applied
    }
}

/// The position of an item of this number.
fn position_from(number: u64, origin: &Origin) -> u64
    ensures { result ≡ position_of number origin.now }
{
    match origin {
        Origin::Session(_) | Origin::Checksum | Origin::Sync { .. } | Origin::Local(_) => number,
        Origin::Applied(entry) => *entry,
    }
}

fn entry_copies(alloc: Global, entries: &[Entry]) -> R<Entries>
    ensures { IfOk result (λ copies. copies ≡ entries.now) }
{
    Ok(Items {
        items: Entry::copies(alloc, entries)?,
    })
}

/// The entry of one statement.
fn entry_of(alloc: Global, origin: Origin, statement: Statement) -> R<Entry>
    ensures { IfOk result (λ entry. entry ≡ record { origin = origin; statements = statement ∷ [] }) }
{
    let mut statements = Statements::new(alloc);
    statements.push(statement)?;
    Ok(Entry { origin, statements })
}

/// Puts an entry at the end of a history that has room for it.
fn append_reserved(history: &mut Log, entry: Entry)
    requires { 1 ≤ history.old.spare }
    ensures { history.new.entries ≡ history.old.entries ++ entry ∷ [] }
{
    match history.append(entry) {
        Ok(_) => {}
        Err(_) => unreachable!(),
    }
}
