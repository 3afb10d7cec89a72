ghost use Rattle.statement_reading_laws.specs.ReadingLaws.{Ends, EndsShort, EndsWhole, EndsWrong, Readies, Sticks, Takes, TreeBegins, TreeBreaks, TreeEndsOpen, TreeEndsWhole, TreeGoesOn, TreeIsNone, TreeIsWhole};

/// How a statement is read, token by token: what is read so far stays what the grammar says of the tokens, and where
/// it ends or breaks off, it is the statement, or the first fault.
pub fn a_statement_is_read()
    ensures begins_at_spot { Readies }
    ensures ends_at_spot { Ends }
    ensures takes { Takes }
    ensures sticks { Sticks }
    ensures ends_whole { EndsWhole }
    ensures ends_wrong { EndsWrong }
    ensures ends_short { EndsShort }
    ensures tree_begins { TreeBegins }
    ensures tree_goes_on { TreeGoesOn }
    ensures tree_is_whole { TreeIsWhole }
    ensures tree_ends_whole { TreeEndsWhole }
    ensures tree_breaks { TreeBreaks }
    ensures tree_ends_open { TreeEndsOpen }
    ensures tree_is_none { TreeIsNone }
{}
