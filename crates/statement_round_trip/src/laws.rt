ghost use Rattle.statement_round_trip.specs.RoundTrip.{WrittenIsRead, WrittenIsReadOnlySo, TextsDiffer, ChecksumsAreSaid, KeysAreSaid};

/// What is written of a statement that fits is a text of that statement, and of no other. So statements
/// that differ are written differently.
pub fn written_is_read()
    ensures read { WrittenIsRead }
    ensures only { WrittenIsReadOnlySo }
    ensures differ { TextsDiffer }
{}

/// What the checksum tool puts into its statements can be said: the checksum of any rows, and the key of
/// a row of the table.
pub fn tool_can_be_said()
    ensures checksums { ChecksumsAreSaid }
    ensures keys { KeysAreSaid }
{}
