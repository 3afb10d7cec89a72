ghost use Rattle.std.specs.Prelude.{◌≡◌};
ghost use Rattle.std.specs.Option.{option_map};
ghost use Rattle.statement_grammar.specs.Sentence.{may_end as ends_statement, tree_at};
ghost use Rattle.statement_reader.specs.Spots.{spot_of};

/// Which of the two edges of a span.
#[derive(Clone, Copy, Debug, PartialEq, Eq)]
pub enum End {
    Lower,
    Upper,
}

/// Which list of literals: the values of a row, or of the key of an edge.
#[derive(Clone, Copy, Debug, PartialEq, Eq)]
pub enum Literals {
    OfRow,
    OfEdge(End),
}

/// The checksum tool's two statements on a chunk.
#[derive(Clone, Copy, Debug, PartialEq, Eq)]
pub enum OnChunk {
    Checks,
    SetsMaster,
}

/// What is due next in a statement.
#[derive(Clone, Copy, Debug, PartialEq, Eq)]
pub enum Spot {
    StatementDue,
    IntoDue,
    IntoTable,
    ValuesDue,
    OpenDue(Literals),
    LiteralDue(Literals),
    LiteralEnds(Literals),
    DigitsDue(Literals),
    FromDue,
    DeleteTable,
    WhereDue,
    CondDue,
    CondEnds,
    UpdateTable,
    SetDue,
    ColumnDue,
    EqualsDue,
    ExprDue,
    SetEnds,
    StarDue,
    SelectFrom,
    SelectTable,
    SelectWhere,
    SelectCond,
    LockDue,
    ForDue,
    InDue,
    ShareDue,
    ModeDue,
    ChunkTable(OnChunk),
    ChunkDue(OnChunk),
    ChunkNumber(OnChunk),
    EdgeFrom,
    EdgeDue(End),
    EdgeTo,
    UsingDue,
    KindDue,
    CountDue,
    CountNumber,
    CrcDue,
    CrcText,
    ClearTable,
    EndDue,
    NothingDue,
}

impl Spot {
    /// Where a tree is due: whether it is a condition, and what is due behind it.
    pub fn tree(self) -> Option<(bool, Spot)>
        ensures { option_map (λ due. (due.0, spot_of due.1)) result ≡ tree_at (spot_of self) }
    {
        match self {
            Spot::CondDue => Some((true, Spot::CondEnds)),
            Spot::ExprDue => Some((false, Spot::SetEnds)),
            Spot::SelectCond => Some((true, Spot::LockDue)),
            _ => None,
        }
    }

    /// Where a statement may end.
    pub fn may_end(self) -> bool
        ensures { result ≡ ends_statement (spot_of self) }
    {
        match self {
            Spot::WhereDue | Spot::CondEnds | Spot::SetEnds | Spot::EndDue | Spot::NothingDue => {
                true
            }
            _ => false,
        }
    }
}
