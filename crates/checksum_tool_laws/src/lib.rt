//! What the checksum tool writes and leaves, over every list of its turns and of others' calls.
#![tactic(auto)]

ghost use Rattle.checksum_tool_laws.specs.Told.{ToolCovers};
ghost use Rattle.checksum_tool_laws.specs.Standing.{ToolIsNoVictim};

/// Whatever others do between its turns, the tool's entries are, for each table in order, CLEARCHECKS and then a
/// CHECKSUM and a SETMASTER for each chunk; each SETMASTER publishes the source's own checksum; and the chunks of
/// each table that the tool has left behind it have the source's checksum and hold each key once.
pub fn the_tool_covers_its_tables()
    ensures { ToolCovers }
{}

/// Where nobody applies entries and nobody rolls the tool back, no turn of the tool is Victim: a deadlock's victim
/// is then the owner whose visit closed it.
pub fn the_tool_is_no_victim()
    ensures { ToolIsNoVictim }
{}
