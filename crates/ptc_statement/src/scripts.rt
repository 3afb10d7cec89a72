ghost use Rattle.std.specs.Prelude.{◌≡◌, ◌↔◌, IsTrue, IfOk};

use crate::statements::Statement;
use row_types::{Items, Plain, R};
use std::alloc::Global;

/// What a line of a script does. A statement outside BEGIN and its end is a transaction of its own.
#[derive(Debug, Drop)]
pub enum ScriptStep {
    Begin,
    Commit,
    Rollback,
    Run(Statement),
}

/// A line of a script, and its number in the file.
#[derive(Debug, Drop)]
pub struct ScriptLine {
    pub line: u32,
    pub step: ScriptStep,
}

/// The lines of a script, by rising line number.
pub type ScriptLines = Items<ScriptLine>;

/// What a session does.
#[derive(Debug, Drop)]
pub struct Script {
    pub lines: ScriptLines,
}

/// The scripts of sessions, by rising number.
pub type Scripts = Items<Script>;

impl ScriptStep {
    pub fn copy(&self, alloc: Global) -> R<ScriptStep>
        ensures { IfOk result (λ copy. copy ≡ self.now) }
    {
        match self {
            ScriptStep::Begin => Ok(ScriptStep::Begin),
            ScriptStep::Commit => Ok(ScriptStep::Commit),
            ScriptStep::Rollback => Ok(ScriptStep::Rollback),
            ScriptStep::Run(statement) => Ok(ScriptStep::Run(statement.copy(alloc)?)),
        }
    }

    pub fn same(&self, other: &ScriptStep) -> bool
        ensures { IsTrue result ↔ (self.now ≡ other.now) }
    {
        match (self, other) {
            (ScriptStep::Begin, ScriptStep::Begin)
            | (ScriptStep::Commit, ScriptStep::Commit)
            | (ScriptStep::Rollback, ScriptStep::Rollback) => true,
            (ScriptStep::Run(ours), ScriptStep::Run(theirs)) => ours.same(theirs),
            _ => false,
        }
    }
}

impl ScriptLine {
    pub fn copy(&self, alloc: Global) -> R<ScriptLine>
        ensures { IfOk result (λ copy. copy ≡ self.now) }
    {
        Ok(ScriptLine {
            line: self.line,
            step: self.step.copy(alloc)?,
        })
    }

    pub fn same(&self, other: &ScriptLine) -> bool
        ensures { IsTrue result ↔ (self.now ≡ other.now) }
    {
        self.line == other.line && self.step.same(&other.step)
    }
}

impl Script {
    pub fn copy(&self, alloc: Global) -> R<Script>
        ensures { IfOk result (λ copy. copy ≡ self.now) }
    {
        Ok(Script {
            lines: self.lines.copy(alloc)?,
        })
    }

    pub fn same(&self, other: &Script) -> bool
        ensures { IsTrue result ↔ (self.now ≡ other.now) }
    {
        self.lines.same(&other.lines)
    }
}

impl Plain for ScriptLine {
    fn copy(&self, alloc: Global) -> R<ScriptLine> {
        ScriptLine::copy(self, alloc)
    }

    fn same(&self, other: &ScriptLine) -> bool {
        ScriptLine::same(self, other)
    }
}

impl Plain for Script {
    fn copy(&self, alloc: Global) -> R<Script> {
        Script::copy(self, alloc)
    }

    fn same(&self, other: &Script) -> bool {
        Script::same(self, other)
    }
}
