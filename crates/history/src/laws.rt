ghost use Rattle.std.specs.Prelude.{◌≡◌, ℕ, List, length};
ghost use Rattle.row_types.specs.declared.table_schema.Schema.{Schema};
ghost use Rattle.history.specs.Replay.{NodeLog, Follows, applied_of};
ghost use Rattle.history.specs.Headline.{EachIsWritten, MastersAreTrue, EachVerdictCompares, NobodyElseWrites, AreEqualAt, AreEqualAtEnd};

/// However far a replica has followed a log, whatever local sessions wrote to it: where each entry of
/// the log is as its writer writes them (one statement of the checksum tool, or any number of clients'
/// statements) and each published checksum is the source's own, each verdict on the replica compares
/// the source's and the replica's rows of its chunk, both replayed to one position.
pub fn each_verdict_compares()
    ensures { (schemas : List Schema) (source replica : NodeLog)
        → EachIsWritten source.entries
        → MastersAreTrue schemas source
        → Follows source.entries replica.entries
        → EachVerdictCompares schemas source replica }
{}

/// A table that is equal at a position stays equal: where the replica has applied that position, and
/// goes on to apply the whole log while nobody else writes the table, the replica's rows of it are the
/// source's at the end. Both nodes start with the same number of tables.
pub fn equal_tables_stay_equal()
    ensures { (schemas : List Schema) (source replica : NodeLog) (table position : ℕ)
        → length source.start ≡ length replica.start
        → Follows source.entries replica.entries
        → applied_of replica.entries ≡ length source.entries
        → AreEqualAt schemas source replica table position
        → NobodyElseWrites table position replica.entries
        → AreEqualAtEnd schemas source replica table }
{}
