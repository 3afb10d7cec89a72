ghost use Rattle.std.specs.Prelude.{◌≡◌, ◌<◌, ◌+◌, ◌++◌, ℕ, [], ◌∷◌, length, IfOk, OnOk, OnErr, is_some, unwrap_or};
ghost use Rattle.std.specs.List.{slice_get};
ghost use Rattle.std.specs.Option.{option_copied};
ghost use Rattle.cluster_core.specs.Good.{StepsFit};
ghost use Rattle.cluster_core.specs.Node.{NodeView};
ghost use Rattle.cluster_core.specs.Sessions.{line_left};
ghost use Rattle.cluster_core.specs.Turns.{Takes};
ghost use Rattle.cluster_core.specs.Sessions.{SessionView, unstarted, advanced};
ghost use Rattle.cluster_core.specs.Sessions.{is_duplicate as is_duplicate_on};

use crate::nodes::Node;
use crate::refusals::Refusal;
use ptc_statement::{Script, ScriptLine, ScriptStep, Statement};
use row_types::R;
use statement_log::Origin;
use std::alloc::Global;
use std::marker::Model;

/// A client's session: its script, how many of its lines are done, and those that were refused as
/// duplicates.
#[derive(Drop)]
pub struct Session {
    script: Script,
    next: usize,
    refused: Vec<Refusal>,
}

impl Model for Session {
    ghost use Rattle.cluster_core.specs.Sessions.{SessionView};
    ghost use Rattle.std.specs.Coded.{codes};
    ghost use Rattle.ptc_statement.specs.contracts.expressions.Expr as expr;
    ghost use Rattle.ptc_statement.specs.contracts.conditions.Cond as condition;

    ghost Value = { SessionView };

    ghost coded = { Prim.hlevel (codes, expr.the_row.coded, condition.the_row.coded) };

    ghost use Rattle.cluster_core.specs.SessionParts.{session_view, IsWithinScript};

    ghost view = { session_view };

    ghost invariant = { IsWithinScript };
}

impl Session {
    /// A session that has done nothing yet.
    pub fn new(alloc: Global, script: Script) -> Session
        ensures { result ≡ unstarted script }
    {
        Session {
            script,
            next: 0,
            refused: Vec::new(alloc),
        }
    }

    /// The lines that were refused as duplicates, in order.
    pub fn refused(&self) -> &[Refusal]
        ensures { result.now ≡ self.now.refused }
    {
        self.refused.as_slice()
    }

    /// The line that comes next.
    fn line(&self) -> Option<&ScriptLine>
        ensures { option_copied result ≡ slice_get self.now.script self.now.next }
    {
        self.script.lines.as_slice().get(self.next)
    }

    /// Goes on behind a line that was done.
    fn advance(&mut self)
        requires { self.old.next < length self.old.script }
        ensures { self.new ≡ advanced self.old }
    {
        let within = self.next < self.script.lines.len();
        prove!(within);
        self.next += 1;
    }

    /// Goes on behind a line that was refused; a refusal of memory leaves the session as it was.
    fn refuse(&mut self, refusal: Refusal) -> R<()>
        requires { self.old.next < length self.old.script }
        ensures ok { OnOk result (self.new ≡ record self.old { next = self.old.next + 1; refused = self.old.refused ++ refusal ∷ [] }) }
        ensures err { OnErr result (self.new ≡ self.old) }
    {
        self.refused.push(refusal)?;
        let within = self.next < self.script.lines.len();
        prove!(within);
        self.next += 1;
        Ok(())
    }

    /// Does the next line on the source, whole, and logs it; a refusal of memory leaves both as they
    /// were.
    pub fn turn(&mut self, alloc: Global, session: u32, source: &mut Node) -> R<bool>
        requires { StepsFit source.old.schemas self.old }
        ensures ok { IfOk result (λ moved. Takes (line_left session self.old source.old) moved (self.old, source.old) (self.new, source.new)) }
        ensures err { OnErr result ((self.new ≡ self.old) × (source.new ≡ source.old)) }
    {
        let Some(line) = self.line() else {
            return Ok(false);
        };
        let number = line.line;
        let ScriptStep::Run(statement) = &line.step else {
            self.advance();
            return Ok(true);
        };
        if is_duplicate(source, statement) {
            let position = source.history().len();
            self.refuse(Refusal {
                line: number,
                position,
            })?;
            return Ok(true);
        }
        let statement = statement.copy(alloc)?;
        source.log_one(Origin::Session(session), statement)?;
        self.advance();
        Ok(true)
    }
}

/// Whether it is an INSERT whose key is there.
fn is_duplicate(source: &Node, statement: &Statement) -> bool
    ensures { result ≡ is_duplicate_on source.now statement.now }
{
    match statement {
        Statement::Insert { table, row } => source.has_row(*table, row),
        Statement::Replace { .. }
        | Statement::Delete { .. }
        | Statement::Update { .. }
        | Statement::LockRead { .. }
        | Statement::Check { .. }
        | Statement::SetMaster { .. }
        | Statement::ClearChecks { .. } => false,
    }
}
