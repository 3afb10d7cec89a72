ghost use Rattle.std.specs.Prelude.{◌≡◌, IfOk};
ghost use Rattle.ptc_statement.specs.Fits.{FitsSchemas};
ghost use Rattle.node_builders.specs.Nodes.{one_table};

use node_engine::Node;
use ptc_statement::{Cond, Op, Statement};
use row_types::{DigestKind, Edge, LockMode, R, Rows, Schemas, Span, Tables};
use statement_builders::key_compare;
use std::alloc::Global;
use test_builders::{key, pair_schema, row, schemas};

/// A node of one table `t (id BIGINT KEY, v BIGINT)` without rows.
#[tactic(auto, using(crate::proofs::AskedLemmas::pair_is_schema))]
pub fn empty_node(alloc: Global) -> R<Node>
    ensures { IfOk result (λ node. node.schemas ≡ one_table) }
{
    let tables = schemas(alloc, pair_schema(alloc, b"t")?)?;
    let mut start = Tables::new(alloc);
    start.push(Rows::new(alloc))?;
    Node::new(alloc, Schemas { tables }, start)
}

/// An INSERT of a row.
#[tactic(auto, using(crate::proofs::NodeLemmas::insert_fits))]
pub fn insert_row(alloc: Global, id: i64, value: i64) -> R<Statement>
    ensures { IfOk result (λ statement. FitsSchemas one_table statement) }
{
    let row = row(alloc, id, value)?;
    Ok(Statement::Insert { table: 0, row })
}

/// A locking read, for update, of the keys between two, which are not among them.
#[tactic(auto, using(crate::proofs::NodeLemmas::read_fits))]
pub fn read_between(alloc: Global, above: i64, below: i64) -> R<Statement>
    ensures { IfOk result (λ statement. FitsSchemas one_table statement) }
{
    let lo = Edge::After(key(alloc, above)?);
    let hi = Edge::Before(key(alloc, below)?);
    Ok(Statement::LockRead {
        table: 0,
        mode: LockMode::Exclusive,
        span: Span { lo, hi },
        cond: None,
    })
}

/// A DELETE of every row.
#[tactic(auto, using(crate::proofs::NodeLemmas::delete_fits))]
pub fn delete_rows() -> Statement
    ensures { FitsSchemas one_table result }
{
    Statement::Delete {
        table: 0,
        cond: None,
    }
}

/// The condition that the key is this number.
pub fn own_key_where(id: i64) -> Option<Cond> {
    Some(key_compare(Op::Eq, id))
}

/// A CHECKSUM of the whole table.
pub fn whole_check() -> Statement {
    Statement::Check {
        table: 0,
        chunk: 1,
        span: Span::whole(),
        kind: DigestKind::Md5,
    }
}

pub fn whole_clear() -> Statement {
    Statement::ClearChecks { table: 0 }
}
