ghost use Rattle.std.specs.Prelude.{◌≡◌, ◌<◌, ◌≤◌, ◌↔◌, ◌++◌, [], ◌∷◌, IsTrue, IfOk, OnOk, OnErr, None, Some, is_some, unwrap_or, map, length, IfSome};
ghost use Rattle.std.specs.List.{AllByRecursion, slice_get};
ghost use Rattle.row_types.specs.Fit.{IsSchema, AreTables};
ghost use Rattle.checksum_table.specs.Checks.{check_at};
ghost use Rattle.cluster_core.specs.Node.{replayed_of};
ghost use Rattle.workload_file.specs.Workload.{IsWorkload};
ghost use Rattle.cluster_core.specs.Sessions.{unstarted};
ghost use Rattle.cluster_core.specs.World.{begun, fresh, session_turn, sessions_from, turn, tool_turn, worker_turn, tool_logged, published, next_phase, next_applied, behind_item, played, order, EndsIn, Reaches};
ghost use Rattle.cluster_core.specs.Good.{EntryFits, PhaseFits};
ghost use Rattle.ptc_statement.specs.Fits.{FitsSchemas};
ghost use Rattle.cluster_core.specs.Turns.{IsNumbered, ItemIsNumbered, Takes, Plays, TookTurns};

use crate::actors::ToolPhase;
use crate::nodes::Node;
use crate::sessions::Session;
use ptc_statement::{Script, Statement};
use row_types::{DigestKind, R, Schemas, Span, Tables};
use statement_log::{Entry, Log, Origin};
use std::alloc::Global;
use std::marker::Model;
use workload_file::{Actor, Item, Schedule, Workload};

/// A source, its replicas, the clients' sessions and the checksum tool, and a schedule of their turns
/// with how many of its items are played. Each turn does one whole statement or applies one whole
/// entry.
#[derive(Drop)]
pub struct World {
    pub(crate) source: Node,
    pub(crate) replicas: Vec<Node>,
    pub(crate) sessions: Vec<Session>,
    phase: ToolPhase,
    schedule: Schedule,
    played: usize,
    pub(crate) alloc: Global,
}

impl Model for World {
    ghost use Rattle.cluster_core.specs.World.{WorldView};
    ghost use Rattle.std.specs.Coded.{codes};
    ghost use Rattle.ptc_statement.specs.contracts.expressions.Expr as expr;
    ghost use Rattle.ptc_statement.specs.contracts.conditions.Cond as condition;

    ghost Value = { WorldView };

    ghost coded = { Prim.hlevel (codes, expr.the_row.coded, condition.the_row.coded) };

    ghost use Rattle.cluster_core.specs.WorldParts.{world_view, IsKept};

    ghost view = { world_view };

    ghost invariant = { IsKept };
}

impl World {
    /// The world before anything happened.
    pub fn new(alloc: Global, workload: Workload) -> R<World>
        requires { IsWorkload workload }
        ensures { IfOk result (λ world. world ≡ begun workload) }
    {
        let Workload {
            schemas,
            replicas: _,
            source,
            copies,
            sessions,
            schedule,
        } = workload;
        let replicas = fresh_nodes(alloc, &schemas, copies.items)?;
        let sessions = fresh_sessions(alloc, sessions.items)?;
        Ok(World {
            source: Node::new(alloc, schemas, source)?,
            replicas,
            sessions,
            phase: ToolPhase::Clear { table: 0 },
            schedule,
            played: 0,
            alloc,
        })
    }

    /// Plays an item: whether it moved. An item that names nobody moves nothing. Items are taken off
    /// the schedule as long as there are some. A refusal leaves the world as it was.
    pub fn step(&mut self, item: Item) -> R<bool>
        requires { ItemIsNumbered item }
        ensures ok { IfOk result (λ moved. Plays item moved self.old self.new) }
        ensures err { OnErr result (self.new ≡ self.old) }
    {
        let Item::Turn(actor) = item;
        let moved = self.turn(actor)?;
        self.count_item();
        Ok(moved)
    }

    /// What is left of the schedule, and then rounds, in which each actor takes one turn, until nobody
    /// can move. A refusal leaves the world after some of these turns.
    pub fn run(&mut self) -> R<()>
        ensures ok { OnOk result (EndsIn self.old self.new) }
        ensures err { OnErr result (Reaches self.old self.new) }
    {
        self.play_schedule()?;
        'rounds: loop {
            if !self.round()? {
                return Ok(());
            }
        }
    }

    /// Plays the rest of the schedule.
    fn play_schedule(&mut self) -> R<()>
        ensures ok { OnOk result (self.new ≡ played self.old.unplayed self.old) }
        ensures all { OnOk result (self.new.unplayed ≡ []) }
        ensures err { OnErr result (Reaches self.old self.new) }
    {
        while let Some(item) = self.next_item() {
            self.step(item)?;
        }
        Ok(())
    }

    fn next_item(&self) -> Option<Item>
        ensures next { result ≡ slice_get self.now.unplayed 0 }
        ensures numbered { IfSome result ItemIsNumbered }
    {
        self.schedule.as_slice().get(self.played).copied()
    }

    /// One item less is left of the schedule, if one was.
    fn count_item(&mut self)
        ensures { self.new ≡ behind_item self.old }
    {
        if self.played < self.schedule.len() {
            self.played += 1;
        }
    }

    /// One turn of each actor: whether one of them moved.
    fn round(&mut self) -> R<bool>
        requires { self.old.unplayed ≡ [] }
        ensures ok { IfOk result (λ moved. TookTurns self.old self.new (order self.old) moved) }
        ensures err { OnErr result (Reaches self.old self.new) }
    {
        let replicas = self.replicas.len() as u32;
        let mut moved = self.session_turns()?;
        let step = self.step(Item::Turn(Actor::Tool))?;
        moved = moved | step;
        for place in 0..replicas {
            let worker = Actor::Worker {
                replica: place + 1,
                worker: 1,
            };
            let step = self.step(Item::Turn(worker))?;
            moved = moved | step;
        }
        Ok(moved)
    }

    /// One turn of each session: whether one of them moved.
    fn session_turns(&mut self) -> R<bool>
        requires { self.old.unplayed ≡ [] }
        ensures ok { IfOk result (λ moved. TookTurns self.old self.new (sessions_from 1 self.old.sessions) moved) }
        ensures err { OnErr result (Reaches self.old self.new) }
    {
        let sessions = self.sessions.len() as u32;
        let mut moved = false;
        for place in 0..sessions {
            let step = self.step(Item::Turn(Actor::Session(place + 1)))?;
            moved = moved | step;
        }
        Ok(moved)
    }

    /// One turn of an actor: whether it moved.
    fn turn(&mut self, actor: Actor) -> R<bool>
        requires { IsNumbered actor }
        ensures ok { IfOk result (λ moved. Takes (turn actor self.old) moved self.old self.new) }
        ensures err { OnErr result (self.new ≡ self.old) }
    {
        match actor {
            Actor::Session(session) => self.session_turn(session),
            Actor::Tool => self.tool_turn(),
            Actor::Worker { replica, worker: 1 } => self.worker_turn(replica),
            Actor::Worker { .. } => Ok(false),
        }
    }

    fn session_turn(&mut self, session: u32) -> R<bool>
        requires { 1 ≤ session }
        ensures ok { IfOk result (λ moved. Takes (session_turn session self.old) moved self.old self.new) }
        ensures err { OnErr result (self.new ≡ self.old) }
    {
        let place = (session - 1) as usize;
        if self.sessions.len() <= place {
            return Ok(false);
        }
        let one = &mut self.sessions[place];
        let moved = one.turn(self.alloc, session, &mut self.source)?;
        Ok(moved)
    }

    #[tactic(auto, using(crate::proofs::KeptLemmas::clear_fits, crate::proofs::KeptLemmas::check_fits))]
    fn tool_turn(&mut self) -> R<bool>
        ensures ok { IfOk result (λ moved. Takes (tool_turn self.old) moved self.old self.new) }
        ensures err { OnErr result (self.new ≡ self.old) }
    {
        match self.phase {
            ToolPhase::Clear { table } => {
                self.log_by_tool(Statement::ClearChecks { table }, ToolPhase::Check { table })?;
                Ok(true)
            }
            ToolPhase::Check { table } => {
                let check = Statement::Check {
                    table,
                    chunk: 1,
                    span: Span::whole(),
                    kind: DigestKind::Md5,
                };
                self.log_by_tool(check, ToolPhase::Master { table })?;
                Ok(true)
            }
            ToolPhase::Master { table } => self.publish_master(table),
            ToolPhase::Finished => Ok(false),
        }
    }

    /// Logs SETMASTER with the checksum that the source's check row has.
    #[tactic(auto, using(crate::proofs::KeptLemmas::master_fits))]
    fn publish_master(&mut self, table: u32) -> R<bool>
        requires { table < length self.old.source.schemas }
        ensures ok { IfOk result (λ moved. Takes (published table (check_at table 1 (replayed_of self.old.source).checks) self.old) moved self.old self.new) }
        ensures err { OnErr result (self.new ≡ self.old) }
    {
        let Some(row) = self.source.checks().get(table, 1) else {
            return Ok(false);
        };
        let master = Statement::SetMaster {
            table,
            chunk: 1,
            kind: row.kind,
            master: row.this,
        };
        let phase = self.next_phase(table);
        self.log_by_tool(master, phase)?;
        Ok(true)
    }

    fn next_phase(&self, table: u32) -> ToolPhase
        ensures value { result ≡ next_phase table self.now }
        ensures fits { PhaseFits (length self.now.source.schemas) result }
    {
        let tables = self.source.schemas().tables.len();
        if (table as usize) + 1 < tables {
            ToolPhase::Clear { table: table + 1 }
        } else {
            ToolPhase::Finished
        }
    }

    fn log_by_tool(&mut self, statement: Statement, phase: ToolPhase) -> R<()>
        requires statement { FitsSchemas self.old.source.schemas statement }
        requires phase { PhaseFits (length self.old.source.schemas) phase }
        ensures ok { OnOk result (self.new ≡ tool_logged statement phase self.old) }
        ensures err { OnErr result (self.new ≡ self.old) }
    {
        self.source.log_one(Origin::Checksum, statement)?;
        self.phase = phase;
        Ok(())
    }

    fn worker_turn(&mut self, replica: u32) -> R<bool>
        requires { 1 ≤ replica }
        ensures ok { IfOk result (λ moved. Takes (worker_turn replica self.old) moved self.old self.new) }
        ensures err { OnErr result (self.new ≡ self.old) }
    {
        let place = (replica - 1) as usize;
        if self.replicas.len() <= place {
            return Ok(false);
        }
        let moved = apply_next(self.alloc, self.source.history(), &mut self.replicas[place])?;
        Ok(moved)
    }
}

/// A node for each of these tables, which are taken from the front.
fn fresh_nodes(alloc: Global, schemas: &Schemas, mut copies: Vec<Tables>) -> R<Vec<Node>>
    requires schemas { AllByRecursion IsSchema schemas.now.tables }
    requires copies { AllByRecursion (AreTables schemas.now.tables) copies.items }
    ensures { IfOk result (λ nodes. nodes.items ≡ map (fresh schemas.now.tables) copies.items) }
{
    let mut nodes = Vec::with_capacity(alloc, copies.len())?;
    while !copies.is_empty() {
        let start = copies.remove(0);
        nodes.push(Node::new(alloc, schemas.copy(alloc)?, start)?)?;
    }
    Ok(nodes)
}

/// A session for each of these scripts, which are taken from the front.
fn fresh_sessions(alloc: Global, mut scripts: Vec<Script>) -> R<Vec<Session>>
    ensures { IfOk result (λ sessions. sessions.items ≡ map unstarted scripts.items) }
{
    let mut sessions = Vec::with_capacity(alloc, scripts.len())?;
    while !scripts.is_empty() {
        let script = scripts.remove(0);
        sessions.push(Session::new(alloc, script))?;
    }
    Ok(sessions)
}

/// Applies the log's next entry whole, where there is one.
fn apply_next(alloc: Global, log: &Log, node: &mut Node) -> R<bool>
    requires { AllByRecursion (EntryFits node.old.schemas) log.now.entries }
    ensures ok { IfOk result (λ moved. Takes (next_applied log.now.entries node.old) moved node.old node.new) }
    ensures err { OnErr result (node.new ≡ node.old) }
{
    let applied = node.applied();
    let Some(entry) = log.as_slice().get(applied as usize) else {
        return Ok(false);
    };
    let statements = entry.statements.copy(alloc)?;
    node.log(Entry {
        origin: Origin::Applied(applied + 1),
        statements,
    })?;
    Ok(true)
}
