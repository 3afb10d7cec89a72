ghost use Rattle.std.specs.Prelude.{◌≡◌, IfOk, IfErr, OnOk, OnErr};
ghost use Rattle.world_model.specs.Worlds.{begun};
ghost use Rattle.world_model.specs.CanRun.{CanRun};
ghost use Rattle.world_model.specs.Good.{IsGood};
ghost use Rattle.world_model.specs.Turns.{move, stepped};
ghost use Rattle.world_model.specs.Rounds.{order, moves_in, Reaches};
ghost use Rattle.world.specs.RunOf.{IsRun};
ghost use Rattle.world.specs.Runs.{RunsTo, Explains};

use crate::begins::new_parts;
use crate::orders::order_of;
use crate::parts::{Parts, WorldParts};
use crate::replicas::Replica;
use crate::runs::{RunFault, run_parts};
use crate::steps::step_parts;
use checksum_tool::ChecksumTool;
use node_engine::Node;
use row_types::R;
use session::Session;
use std::alloc::Global;
use std::marker::Model;
use trace_text::{Journal, JournalLine, Note};
use workload::{Item, Schedule, Workload};
use world_model::RunOptions;

/// A source with its sessions and its checksum tool, its replicas, a schedule of their turns, and the journal of what
/// was played.
#[derive(Drop)]
pub struct World {
    parts: Parts,
}

impl Model for World {
    ghost use Rattle.world_model.specs.Worlds.{WorldView};
    ghost use Rattle.world.specs.WorldInside.{view_of, WorldKept};
    ghost use Rattle.std.specs.Coded.{codes};
    ghost use Rattle.ptc_statement.specs.contracts.expressions.Expr as expr;
    ghost use Rattle.ptc_statement.specs.contracts.conditions.Cond as condition;

    ghost Value = { WorldView };

    ghost coded = { Prim.hlevel (codes, expr.the_row.coded, condition.the_row.coded) };

    ghost view = { view_of };

    ghost invariant = { WorldKept };
}

impl World {
    /// The world of a workload before its first move.
    pub fn new(alloc: Global, workload: Workload, options: RunOptions) -> R<World>
        requires { CanRun options workload }
        ensures { IfOk result (λ world. world ≡ begun options workload) }
    {
        let parts = new_parts(alloc, workload, options)?;
        Ok(World { parts })
    }

    /// Plays an item, and answers what came of it: the actor's move is made, and written to the journal if it stands in
    /// the schedule or moved something. Actors that are not there are off, and so are the operator's words. Out
    /// of memory changes nothing.
    pub fn step(&mut self, alloc: Global, item: Item) -> R<Note>
        ensures note { IfOk result (λ note. note ≡ (move item self.old).note) }
        ensures ok { OnOk result (self.new ≡ stepped item self.old) }
        ensures err { OnErr result (self.new ≡ self.old) }
    {
        let note = step_parts(alloc, item, &mut self.parts)?;
        Ok(note)
    }

    /// The turns of a round, in order.
    #[tactic(auto, using(crate::proofs::StepLemmas::run_is_good))]
    pub fn order(&self, alloc: Global) -> R<Schedule>
        ensures { IfOk result (λ items. items ≡ order self.now) }
    {
        let items = order_of(alloc, &self.parts)?;
        Ok(items)
    }

    /// Plays what is left of the schedule, and then rounds, in which each actor takes one turn, until a round moves
    /// nobody. StepLimit comes only where this makes more moves than the options allow, with those of the journal
    /// so far, and leaves the world behind the first move too many; out of memory leaves it behind some of its items.
    pub fn run(&mut self, alloc: Global) -> Result<(), RunFault>
        ensures ok { OnOk result (RunsTo self.old self.new) }
        ensures fault { IfErr result (Explains self.old) }
        ensures reaches { Reaches self.old self.new }
    {
        run_parts(alloc, &mut self.parts)?;
        Ok(())
    }

    /// What always holds of a world, for a caller whose proof wants it: it is what the items of its journal make of a
    /// workload that can be run. It does nothing.
    pub fn keeps_run(&self)
        ensures { IsRun self.now }
    {
        let _ = &self.parts;
    }

    /// What always holds of a world, for a caller whose proof wants it: statements fit, and counts are small. It does
    /// nothing.
    #[tactic(auto, using(crate::proofs::StepLemmas::run_is_good))]
    pub fn keeps_fits(&self)
        ensures { IsGood self.now }
    {
        let _ = &self.parts;
    }

    pub fn options(&self) -> RunOptions
        ensures { result ≡ self.now.options }
    {
        self.parts.options
    }

    pub fn source(&self) -> &Node
        ensures { result.now ≡ self.now.source }
    {
        &self.parts.source
    }

    /// The sessions of the source, by rising number.
    pub fn sessions(&self) -> &[Session]
        ensures { result.now ≡ self.now.sessions }
    {
        self.parts.sessions.as_slice()
    }

    pub fn tool(&self) -> &ChecksumTool
        ensures { result.now ≡ self.now.tool }
    {
        &self.parts.tool
    }

    /// By rising number.
    pub fn replicas(&self) -> &[Replica]
        ensures { result.now ≡ self.now.replicas }
    {
        self.parts.replicas.as_slice()
    }

    pub fn journal(&self) -> &[JournalLine]
        ensures { result.now ≡ self.now.journal }
    {
        self.parts.journal.as_slice()
    }

    /// How many moves the journal tells of.
    pub fn moves(&self) -> u64
        ensures { result ≡ moves_in self.now.journal }
    {
        self.parts.moves
    }

    /// Its parts for a report, without a copy.
    pub fn into_parts(self) -> WorldParts
        ensures source { result.source ≡ self.source }
        ensures sessions { result.sessions.items ≡ self.sessions }
        ensures tool { result.tool ≡ self.tool }
        ensures replicas { result.replicas.items ≡ self.replicas }
        ensures journal { result.journal ≡ self.journal }
    {
        let journal = Journal {
            items: self.parts.journal,
        };
        WorldParts {
            source: self.parts.source,
            sessions: self.parts.sessions,
            tool: self.parts.tool,
            replicas: self.parts.replicas,
            journal,
        }
    }
}
