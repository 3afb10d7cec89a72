ghost use Rattle.std.specs.Prelude.{◌≡◌, IfOk, OnErr, length, take};
ghost use Rattle.std.specs.List.{AllByRecursion};
ghost use Rattle.ptc_statement.specs.declared.scripts.ScriptLine.{ScriptLine};
ghost use Rattle.session.specs.Sessions.{SessionView, new_session, is_at_end, RunFits};
ghost use Rattle.session.specs.Moves.{Moved, next_move};

use crate::moves::turn_parts;
use crate::parts::Parts;
use crate::stages::{SessionTurn, Stage};
use lock_table::Owner;
use node_engine::Node;
use ptc_statement::Script;
use row_types::R;
use statement_log::Origin;
use std::alloc::Global;
use std::marker::Model;

/// A session of the source, or a local session of a replica: its script, and how far it has come.
#[derive(Drop)]
pub struct Session {
    parts: Parts,
}

impl Model for Session {
    ghost use Rattle.session.specs.Sessions.{SessionView};
    ghost use Rattle.session.specs.SessionParts.{view_of, SessionKept};
    ghost use Rattle.std.specs.Coded.{codes};
    ghost use Rattle.ptc_statement.specs.contracts.expressions.Expr as expr;
    ghost use Rattle.ptc_statement.specs.contracts.conditions.Cond as condition;

    ghost Value = { SessionView };

    ghost coded = { Prim.hlevel (codes, expr.the_row.coded, condition.the_row.coded) };

    ghost view = { view_of };

    ghost invariant = { SessionKept };
}

impl Session {
    /// A session that has done nothing yet. Its entries have this origin.
    pub fn new(alloc: Global, owner: Owner, origin: Origin, script: Script) -> Session
        ensures { result ≡ new_session owner origin script.lines }
    {
        let parts = Parts {
            owner,
            origin,
            script,
            next: 0,
            first: 0,
            stage: Stage::Between,
            in_progress: false,
            rollbacks: 0,
            ended: 0,
            abandoned: Vec::new(alloc),
            refused: Vec::new(alloc),
            settled: 0,
        };
        Session { parts }
    }

    /// Makes the next move on the session's node, and answers what it was: Finished exactly where the script is
    /// at its end, Victim where another's turn has rolled the transaction back. A transaction that was rolled
    /// back is begun again up to this many times, and then abandoned. Out of memory leaves the session and
    /// the node as they were; it is also the answer after 4,294,967,295 transactions.
    #[tactic(auto, using(crate::proofs::StayLemmas::script_stays, crate::proofs::StayLemmas::schemas_stay))]
    pub fn turn(&mut self, alloc: Global, node: &mut Node, retries: u32) -> R<SessionTurn>
        requires { AllByRecursion (λ (line : ScriptLine). RunFits node.old.schemas line.step) self.old.script }
        ensures ok { IfOk result (λ turn. record { turn = turn; session = self.new; node = node.new } ≡ next_move retries self.old node.old) }
        ensures err { OnErr result ((self.new ≡ self.old) × (node.new ≡ node.old)) }
        ensures script { self.new.script ≡ self.old.script }
        ensures schemas { node.new.schemas ≡ node.old.schemas }
    {
        let turn = turn_parts(alloc, &mut self.parts, node, retries)?;
        Ok(turn)
    }

    /// Whether a statement of the session is in progress.
    pub fn in_progress(&self) -> bool
        ensures { result ≡ self.now.in_progress }
    {
        self.parts.in_progress
    }

    /// The numbers, from 1, of the transactions that were abandoned, in order.
    pub fn abandoned(&self) -> &[u32]
        ensures { result.now ≡ self.now.abandoned }
    {
        self.parts.abandoned.as_slice()
    }

    /// The file's lines of INSERTs that were refused as duplicates, in transactions that were committed.
    pub fn refused(&self) -> &[u32]
        ensures { result.now ≡ take self.now.settled self.now.refused }
    {
        &self.parts.refused[..self.parts.settled]
    }

    /// Whether no line and no transaction of the script is left.
    pub fn at_end(&self) -> bool
        ensures { result ≡ is_at_end self.now }
    {
        match self.parts.stage {
            Stage::Between => self.parts.script.lines.len() <= self.parts.next,
            Stage::Within | Stage::Alone => false,
        }
    }
}
