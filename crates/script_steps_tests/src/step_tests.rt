//! Lines of a script over one table.
ghost use Rattle.std.specs.Prelude.{◌≤◌, length};

use ptc_statement::ScriptStep;
use row_types::{Memory, R, Schemas};
use script_steps::{StepReading, read_step};
use statement_grammar::TextFault;
use statement_reads::are_countable;
use std::alloc::Global;
use std::test::Fail;
use test_builders::{pair_schema, schemas};

/// What a line is read as.
#[derive(Clone, Copy, PartialEq, Eq)]
enum Kind {
    Begin,
    Commit,
    Rollback,
    Run,
    Fault(TextFault),
}

fn kind_of(reading: &StepReading) -> Kind {
    match reading {
        StepReading::Step(ScriptStep::Begin) => Kind::Begin,
        StepReading::Step(ScriptStep::Commit) => Kind::Commit,
        StepReading::Step(ScriptStep::Rollback) => Kind::Rollback,
        StepReading::Step(ScriptStep::Run(_)) => Kind::Run,
        StepReading::Fault(fault) => Kind::Fault(*fault),
    }
}

fn read(alloc: Global, tables: &Schemas, line: &[u8]) -> R<Kind>
    requires { length line.now ≤ 65535 }
{
    if !are_countable(tables) {
        return Err(Memory);
    }
    Ok(kind_of(&read_step(alloc, tables, line)?))
}

#[test]
fn a_line_is_a_word_or_a_statement(rt: HostRuntime) -> Result<(), Fail> {
    let alloc = rt.alloc();
    let tables = Schemas {
        tables: schemas(alloc, pair_schema(alloc, b"t".as_slice())?)?,
    };
    assert!(rt; read(alloc, &tables, b" Begin ".as_slice())? == Kind::Begin);
    assert!(rt; read(alloc, &tables, b"COMMIT".as_slice())? == Kind::Commit);
    assert!(rt; read(alloc, &tables, b"rollback".as_slice())? == Kind::Rollback);
    assert!(rt; read(alloc, &tables, b" DELETE FROM t  ".as_slice())? == Kind::Run);
    Ok(())
}

#[test]
fn the_first_fault_has_its_place_in_the_line(rt: HostRuntime) -> Result<(), Fail> {
    let alloc = rt.alloc();
    let tables = Schemas {
        tables: schemas(alloc, pair_schema(alloc, b"t".as_slice())?)?,
    };
    assert!(rt;
        read(alloc, &tables, b" COMMIT ;".as_slice())? == Kind::Fault(TextFault::At { place: 2 })
    );
    assert!(rt;
        read(alloc, &tables, b"DELETE FROM  ".as_slice())?
            == Kind::Fault(TextFault::At { place: 12 })
    );
    assert!(rt;
        read(alloc, &tables, b" DELETE FROM u".as_slice())?
            == Kind::Fault(TextFault::UnknownTable { place: 14 })
    );
    Ok(())
}
