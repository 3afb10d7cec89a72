ghost use Rattle.std.specs.Prelude.{◌≡◌, []};
ghost use Rattle.statement_grammar.specs.Draft.{nothing_known};
ghost use Rattle.statement_drafts.specs.Drafts.{draft_of};

use row_types::{Bytes, DigestKind, Edge, LockMode, Row};
use std::alloc::Global;

/// A statement's form, by its first word.
#[derive(Clone, Copy, Debug, PartialEq, Eq)]
pub enum Form {
    Unknown,
    Insert,
    Replace,
    Delete,
    Update,
    Read,
    Check,
    Master,
    Clear,
}

/// What is known of a statement so far, but for its expressions and its condition: its table's number, once it is
/// named; the values of the list that is read; the place of a `-` whose number is due; the column that is assigned;
/// and what stands behind.
#[derive(Debug, Drop)]
pub struct Draft {
    pub form: Form,
    pub table: Option<u32>,
    pub values: Row,
    pub minus: Option<u32>,
    pub column: Option<u32>,
    pub mode: LockMode,
    pub chunk: u32,
    pub is_after: bool,
    pub lo: Edge,
    pub hi: Edge,
    pub kind: DigestKind,
    pub count: u64,
    pub crc: Bytes,
}

impl Draft {
    /// Nothing is known.
    pub fn new(alloc: Global) -> Draft
        ensures { draft_of [] result ≡ nothing_known }
    {
        Draft {
            form: Form::Unknown,
            table: None,
            values: Row::new(alloc),
            minus: None,
            column: None,
            mode: LockMode::Exclusive,
            chunk: 0,
            is_after: false,
            lo: Edge::Low,
            hi: Edge::High,
            kind: DigestKind::Md5,
            count: 0,
            crc: Bytes::new(alloc),
        }
    }
}
