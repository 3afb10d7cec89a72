ghost use Rattle.statement_reader.specs.FactLaws.{LeavesHaveFacts, SignsHaveFacts, PairsHaveFacts, LowersHaveFacts, RangesHaveFacts, NullTestsHaveFacts, ParensHaveFacts, SignedHaveFacts};

/// The facts of a tree come from those of its parts, as they are worked out here.
pub fn facts_of_parts()
    ensures gaps_and_leaves { LeavesHaveFacts }
    ensures signs { SignsHaveFacts }
    ensures two { PairsHaveFacts }
    ensures lower { LowersHaveFacts }
    ensures range { RangesHaveFacts }
    ensures nullness { NullTestsHaveFacts }
    ensures paren { ParensHaveFacts }
    ensures signed { SignedHaveFacts }
{}
