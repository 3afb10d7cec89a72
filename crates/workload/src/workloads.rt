ghost use Rattle.std.specs.Prelude.{◌≡◌, ◌↔◌, IsTrue, IfOk};

use crate::schedule::Schedule;
use ptc_statement::Scripts;
use row_types::{Items, R, Schemas, Tables};
use std::alloc::Global;

/// The tables of each replica, by rising number.
pub type Copies = Items<Tables>;

/// The scripts of each replica's sessions, by rising number.
pub type LocalScripts = Items<Scripts>;

/// What a run begins from: the schemas, the rows of each table on the source and on each of the replicas, by
/// rising key, the scripts of the sessions on the source and on each replica, and the turns that are taken first.
#[derive(Debug, Drop)]
pub struct Workload {
    pub schemas: Schemas,
    pub replicas: u32,
    pub source: Tables,
    pub copies: Copies,
    pub sessions: Scripts,
    pub locals: LocalScripts,
    pub schedule: Schedule,
}

impl Workload {
    pub fn copy(&self, alloc: Global) -> R<Workload>
        ensures { IfOk result (λ copy. copy ≡ self.now) }
    {
        Ok(Workload {
            schemas: self.schemas.copy(alloc)?,
            replicas: self.replicas,
            source: self.source.copy(alloc)?,
            copies: self.copies.copy(alloc)?,
            sessions: self.sessions.copy(alloc)?,
            locals: self.locals.copy(alloc)?,
            schedule: self.schedule.copy(alloc)?,
        })
    }

    pub fn same(&self, other: &Workload) -> bool
        ensures { IsTrue result ↔ (self.now ≡ other.now) }
    {
        self.schemas.same(&other.schemas)
            && self.replicas == other.replicas
            && self.source.same(&other.source)
            && self.copies.same(&other.copies)
            && self.sessions.same(&other.sessions)
            && self.locals.same(&other.locals)
            && self.schedule.same(&other.schedule)
    }
}
