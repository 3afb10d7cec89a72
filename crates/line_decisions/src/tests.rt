ghost use Rattle.std.specs.Prelude.{◌≡◌, ◌<◌, ◌^◌, ◌&&◌};
ghost use Rattle.file_scripts.specs.ScriptRules.{ends_script as is_end};
ghost use Rattle.line_decisions.specs.Tests.{first_broken as the_first_broken, first_row as the_first_row, first_script as the_first_script};

use file_scripts::ends_script;
use file_text::{LineCause, Section};
use line_checks::{LineFault, Marks};
use row_types::RowFault;

/// What the rules on a line tell, each by itself; of what its items give.
#[derive(Clone, Copy)]
pub struct LineTests {
    /// it is said again
    pub twice: bool,
    /// another isolation level
    pub level: bool,
    pub row: Option<RowFault>,
    /// it ends a script in a transaction
    pub script: bool,
    /// the place of the first word that names nobody
    pub actor: Option<u32>,
}

/// The number of replicas; 0 before the REPLICAS line.
pub(crate) fn replica_count(marks: &Marks) -> u32
    ensures value { result ≡ marks.now.replicas }
    ensures bound { result < 2 ^ 32 }
{
    marks.replicas
}

/// Whether a line of the section would end a script in a transaction.
pub(crate) fn breaks_script(marks: &Marks, section: Section) -> bool
    ensures { result ≡ marks.now.in_transaction && is_end section }
{
    marks.in_transaction && ends_script(section)
}

fn first_script(tests: LineTests) -> Option<LineFault>
    ensures { result ≡ the_first_script tests.script tests.actor }
{
    if tests.script {
        return Some(LineFault::Cause(LineCause::Script));
    }
    match tests.actor {
        Some(place) => Some(LineFault::Cause(LineCause::Actor { place })),
        None => None,
    }
}

fn first_row(tests: LineTests) -> Option<LineFault>
    ensures { result ≡ the_first_row tests.row tests.script tests.actor }
{
    match tests.row {
        Some(fault) => Some(LineFault::Cause(LineCause::Row(fault))),
        None => first_script(tests),
    }
}

/// The first rule that is broken.
pub(crate) fn first_broken(tests: LineTests) -> Option<LineFault>
    ensures { result ≡ the_first_broken tests }
{
    if tests.twice {
        return Some(LineFault::Cause(LineCause::Twice));
    }
    if tests.level {
        return Some(LineFault::Isolation);
    }
    first_row(tests)
}
