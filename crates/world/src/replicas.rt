ghost use Rattle.std.specs.Prelude.{◌≡◌, length, IfOk, OnErr};
ghost use Rattle.applier.specs.Appliers.{LogFits};
ghost use Rattle.world_model.specs.Good.{SessionsFit};
ghost use Rattle.world_model.specs.Turns.{local_turn, worker_turn};
ghost use Rattle.world.specs.SessionTurns.{turned_there};

use crate::sessions::session_turn;
use applier::Applier;
use node_engine::Node;
use row_types::R;
use session::Session;
use statement_log::Log;
use std::alloc::Global;
use std::marker::Model;
use trace_text::Note;
use turn_notes::{Place, applier_note};

/// A replica: its node, the sessions that write it locally, and the applier of the source's log.
#[derive(Drop)]
pub struct Replica {
    node: Node,
    locals: Vec<Session>,
    applier: Applier,
}

impl Model for Replica {
    ghost use Rattle.world_model.specs.Worlds.{ReplicaView};
    ghost use Rattle.world.specs.ReplicaParts.{replica_view};
    ghost use Rattle.std.specs.Coded.{codes};
    ghost use Rattle.ptc_statement.specs.contracts.expressions.Expr as expr;
    ghost use Rattle.ptc_statement.specs.contracts.conditions.Cond as condition;

    ghost Value = { ReplicaView };

    ghost coded = { Prim.hlevel (codes, expr.the_row.coded, condition.the_row.coded) };

    ghost view = { replica_view };
}

impl Replica {
    pub(crate) fn new(node: Node, locals: Vec<Session>, applier: Applier) -> Replica
        ensures { result ≡ record { node = node; locals = locals.items; applier = applier } }
    {
        Replica {
            node,
            locals,
            applier,
        }
    }

    pub fn node(&self) -> &Node
        ensures { result.now ≡ self.now.node }
    {
        &self.node
    }

    /// Its local sessions, by rising number.
    pub fn locals(&self) -> &[Session]
        ensures { result.now ≡ self.now.locals }
    {
        self.locals.as_slice()
    }

    pub fn applier(&self) -> &Applier
        ensures { result.now ≡ self.now.applier }
    {
        &self.applier
    }

    /// Its node, without a copy.
    pub fn into_node(self) -> Node
        ensures { result ≡ self.node }
    {
        self.node
    }

    /// The turn of a local session, by its number from 1; Off where there is none of this number. The replica has
    /// the number `replica`. Out of memory changes nothing.
    #[tactic(auto, using(crate::proofs::SessionLemmas::node_turn))]
    pub(crate) fn local_turn(
        &mut self,
        alloc: Global,
        replica: u32,
        local: u32,
        retries: u32,
    ) -> R<Note>
        requires { SessionsFit self.old.node.schemas self.old.locals }
        ensures ok { IfOk result (λ note. turned_there note self.new ≡ local_turn replica retries local self.old) }
        ensures err { OnErr result (self.new ≡ self.old) }
    {
        let place = Place::Replica(replica);
        let note = session_turn(
            alloc,
            place,
            local,
            retries,
            &mut self.locals,
            &mut self.node,
        )?;
        Ok(note)
    }

    /// The turn of a worker of the applier, by its number from 1, where the source has this log; Off where there is
    /// none of this number. The replica has the number `replica`. Out of memory changes nothing.
    #[tactic(auto, using(crate::proofs::CycleLemmas::worker_room, crate::proofs::TurnLemmas::no_worker, crate::proofs::TurnLemmas::worker_is))]
    pub(crate) fn worker_turn(
        &mut self,
        alloc: Global,
        replica: u32,
        worker: u32,
        log: &Log,
    ) -> R<Note>
        requires { LogFits self.old.node.schemas log.now.entries }
        ensures ok { IfOk result (λ note. turned_there note self.new ≡ worker_turn replica worker log.now.entries self.old) }
        ensures err { OnErr result (self.new ≡ self.old) }
    {
        if worker == 0 || self.applier.workers() < worker as usize {
            return Ok(Note::Off);
        }
        let spare = Vec::with_capacity(alloc, self.node.open_count())?;
        let turn = self.applier.turn(alloc, worker, log, &mut self.node)?;
        Ok(applier_note(replica, turn, spare))
    }
}
