ghost use Rattle.cause_laws.specs.Laws.{GoodLine, RefusedLine};

/// A line of a section whose form is known is good where it breaks none of the rules on what is said, and is
/// refused for the first that it breaks.
pub fn said_lines()
    ensures good { GoodLine }
    ensures refused { RefusedLine }
{}
