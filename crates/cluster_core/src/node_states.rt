ghost use Rattle.std.specs.Prelude.{◌≡◌, [], None, IfOk, OnOk, OnErr};
ghost use Rattle.std.specs.List.{AllByRecursion};
ghost use Rattle.row_types.specs.Fit.{IsSchema, AreTables};
ghost use Rattle.ptc_statement.specs.Fits.{FitsSchemas};
ghost use Rattle.row_digest.specs.Digest.{digest_of};
ghost use Rattle.history.specs.Replay.{chunk_rows};
ghost use Rattle.cluster_core.specs.Node.{after, after_each};

use crate::live_tables::LiveTables;
use checksum_table::{CheckRow, Checks};
use ptc_statement::{Statement, Statements};
use row_types::{DigestKind, R, Schemas, Span, Tables};
use std::alloc::Global;
use std::marker::Model;

/// The live tables and the check rows of a node.
#[derive(Drop)]
pub struct NodeState {
    tables: LiveTables,
    checks: Checks,
}

impl Model for NodeState {
    ghost use Rattle.cluster_core.specs.Node.{StateView};

    ghost Value = { StateView };

    ghost view = { λ state. record { schemas = state.tables.schemas; here = record { tables = state.tables.tables; checks = state.checks } } };
}

impl NodeState {
    /// The state before anything happened: no chunk has a check row.
    pub fn new(alloc: Global, schemas: Schemas, start: &Tables) -> R<NodeState>
        requires schemas { AllByRecursion IsSchema schemas.tables }
        requires start { AreTables schemas.tables start.now }
        ensures { IfOk result (λ state. state ≡ record { schemas = schemas.tables; here = record { tables = start.now; checks = [] } }) }
    {
        Ok(NodeState {
            tables: LiveTables::new(alloc, schemas, start)?,
            checks: Checks::new(alloc),
        })
    }

    pub fn copy(&self, alloc: Global) -> R<NodeState>
        ensures { IfOk result (λ copy. copy ≡ self.now) }
    {
        Ok(NodeState {
            tables: self.tables.copy(alloc)?,
            checks: self.checks.copy(alloc)?,
        })
    }

    pub fn tables(&self) -> &LiveTables
        ensures { result.now ≡ record { schemas = self.now.schemas; tables = self.now.here.tables } }
    {
        &self.tables
    }

    pub fn into_tables(self) -> LiveTables
        ensures { result ≡ record { schemas = self.schemas; tables = self.here.tables } }
    {
        self.tables
    }

    pub fn checks(&self) -> &Checks
        ensures { result.now ≡ self.now.here.checks }
    {
        &self.checks
    }

    /// Does the statements of an entry at its position, one after the other; a refusal leaves the state
    /// as it was. Several are done on a copy, since memory may run out between two of them: this ends
    /// when transactions take back row by row what they did.
    pub fn change_by(&mut self, alloc: Global, position: u64, statements: &Statements) -> R<()>
        requires { AllByRecursion (FitsSchemas self.old.schemas) statements.now }
        ensures ok { OnOk result (self.new ≡ after_each position statements.now self.old) }
        ensures err { OnErr result (self.new ≡ self.old) }
    {
        match statements.as_slice() {
            [] => Ok(()),
            [statement] => self.change(alloc, position, statement),
            several => {
                let mut copy = self.copy(alloc)?;
                copy.change_each(alloc, position, several)?;
                *self = copy;
                Ok(())
            }
        }
    }

    /// Does statements one after the other; a refusal leaves the state after some of them.
    fn change_each(&mut self, alloc: Global, position: u64, statements: &[Statement]) -> R<()>
        requires { AllByRecursion (FitsSchemas self.old.schemas) statements.now }
        ensures { OnOk result (self.new ≡ after_each position statements.now self.old) }
    {
        let mut rest = statements;
        while let Some((statement, more)) = rest.split_first() {
            self.change(alloc, position, statement)?;
            rest = more;
        }
        Ok(())
    }

    /// Does one statement: a client's to its table, one of the checksum tool to the check rows. A
    /// refusal leaves the state as it was.
    fn change(&mut self, alloc: Global, position: u64, statement: &Statement) -> R<()>
        requires { FitsSchemas self.old.schemas statement.now }
        ensures ok { OnOk result (self.new ≡ after position statement.now self.old) }
        ensures err { OnErr result (self.new ≡ self.old) }
    {
        match statement {
            Statement::Insert { .. }
            | Statement::Replace { .. }
            | Statement::Delete { .. }
            | Statement::Update { .. }
            | Statement::LockRead { .. } => self.tables.change(alloc, statement),
            Statement::Check {
                table,
                chunk,
                span,
                kind,
            } => {
                let row = self.checked(alloc, *table, span, *kind, position)?;
                self.checks.set(*table, *chunk, row)
            }
            Statement::SetMaster {
                table,
                chunk,
                master,
                ..
            } => {
                self.checks.set_master(*table, *chunk, *master);
                Ok(())
            }
            Statement::ClearChecks { table } => {
                self.checks.clear(*table);
                Ok(())
            }
        }
    }

    /// The check row of a table's rows in a span, without the source's checksum.
    fn checked(
        &self,
        alloc: Global,
        table: u32,
        span: &Span,
        kind: DigestKind,
        position: u64,
    ) -> R<CheckRow>
        ensures { IfOk result (λ row. row ≡ record {
          span = span.now;
          kind = kind;
          this = digest_of kind (chunk_rows self.now.schemas self.now.here.tables table span.now);
          master = None;
          position = position;
        }) }
    {
        Ok(CheckRow {
            span: span.copy(alloc)?,
            kind,
            this: self.tables.digest(alloc, kind, table, span)?,
            master: None,
            position,
        })
    }
}
