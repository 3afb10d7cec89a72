ghost use Rattle.duplicate_laws.specs.Duplicates.{EachDuplicateWasThere};
ghost use Rattle.duplicate_laws.specs.Scripts.{DuplicatesAreInserts};

/// Whatever items are played, each line that is printed as DUPLICATE, and each other line that a session counts as
/// refused, was an INSERT of this session whose key was there at its own turn: there is a turn of the session at which
/// it was the next line, a row was live at its key on the session's node, and the node answered Duplicate. The row was
/// committed, and nobody had the key exclusively, or the session itself had it so.
pub fn each_duplicate_was_there()
    ensures { EachDuplicateWasThere }
{}

/// Whatever items are played, each line that is printed as DUPLICATE is a line of the workload's script of its session,
/// and runs an INSERT.
pub fn each_duplicate_is_an_insert()
    ensures { DuplicatesAreInserts }
{}
