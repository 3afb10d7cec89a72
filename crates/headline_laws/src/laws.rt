ghost use Rattle.headline_laws.specs.Begins.{EachWorldBegan, LogsAreWritten};
ghost use Rattle.headline_laws.specs.Equals.{EachTableHasItsLine, SameTablesAreEqual};
ghost use Rattle.headline_laws.specs.Headline.{RunsHold};
ghost use Rattle.headline_laws.specs.Lines.{EachPrintedVerdictCompares};

/// Whatever items are played, the world began from its workload: its options are those of the run, and its schedule, its
/// schemas, its start rows and the scripts of its sessions, on the source and on each replica, are those of the workload.
#[tactic(auto, using(crate::proofs::BeginLemmas::each_began))]
pub fn each_world_began_from_its_workload()
    ensures { EachWorldBegan }
{}

/// Whatever items are played, each entry of the source's log is one of its sessions' or the checksum tool's, as its
/// writer writes them, and each SETMASTER publishes the source's own checksum.
#[tactic(auto, using(crate::proofs::BeginLemmas::each_written))]
pub fn logs_are_written_as_they_write()
    ensures { LogsAreWritten }
{}

/// Whatever items are played, each VERDICT line that is not PENDING tells of a replica that has applied the CHECKSUM of
/// the line's chunk, and compares the rows of the chunk on the source and on that replica, both replayed to there.
#[tactic(auto, using(crate::proofs::LineLemmas::each_compares))]
pub fn each_printed_verdict_compares()
    ensures { EachPrintedVerdictCompares }
{}

/// Whatever items are played, each table of each replica has its line, which is EQUAL exactly where all that happened on
/// the source and on the replica leaves the same rows of the table.
pub fn each_table_has_its_line()
    ensures { EachTableHasItsLine }
{}

/// Whatever items are played, where a replica has applied the source's whole log, and its verdicts on a table cover all
/// keys and are all SAME by digests that distinguish the rows that they compare, and nobody but the replica's applier
/// wrote the table behind the positions of these verdicts, the table is EQUAL there. The verdicts of a replica that has
/// applied the whole log cover all keys of each table that the checksum tool has left behind it.
pub fn same_tables_are_equal()
    ensures { SameTablesAreEqual }
{}

/// Whatever workload a run begins from, and whatever its schedule and options, this holds of the world that it ends in:
/// it began from the workload; its log is written as its writers write, with true masters; each replica followed the log;
/// each verdict compares the source's and the replica's rows of its chunk at one position of the log; each table of each
/// replica has its line, which is EQUAL exactly where its rows are the source's; and it is EQUAL where the table's
/// verdicts cover all keys and are SAME for good.
pub fn runs_hold()
    ensures { RunsHold }
{}
