/// The sections of the file, by their lines.
#[derive(Clone, Copy)]
pub enum Section {
    PtcLines,
    IsolationLines,
    ReplicaLines,
    TableLines,
    RowLines,
    SessionLines,
    LocalLines,
    ScheduleLines,
    EndLines,
}

/// The words in capitals of the lines.
#[derive(Clone, Copy)]
pub enum Keyword {
    /// the word that begins the lines of a section
    First(Section),
    WorkloadWord,
    RepeatableWord,
    ReadWord,
    CommittedWord,
    UncommittedWord,
    SerializableWord,
    IntWord,
    BigIntWord,
    VarcharWord,
    KeyWord,
    NotWord,
    NullKeyword,
}

/// Which column of a table: the first one has KEY, the second one may have it, and no further one has.
#[derive(Clone, Copy)]
pub enum ColumnSpot {
    FirstColumn,
    SecondColumn,
    FurtherColumn,
}

/// What is due next in a line.
#[derive(Clone, Copy)]
pub enum Spot {
    SectionDue(Section),
    WorkloadDue,
    VersionDue,
    LevelDue,
    ReadDue,
    CommittedDue,
    CountDue,
    TableDue,
    ColumnsDue,
    ColumnDue(ColumnSpot),
    KindDue(ColumnSpot),
    LengthOpens(ColumnSpot),
    LengthDue(ColumnSpot),
    LengthCloses(ColumnSpot),
    MarkDue(ColumnSpot),
    NullDue(ColumnSpot),
    CommaDue(ColumnSpot),
    NodeDue,
    RowTableDue,
    RowOpens,
    LiteralDue,
    DigitsDue,
    LiteralEnds,
    SessionDue,
    LocalDue,
    TurnsDue,
    NothingDue,
}
