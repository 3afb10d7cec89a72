ghost use Rattle.statement_machine_laws.specs.Images.{Mirrors, HasFacts, HasHeight, HasTrees};

/// The machine that keeps operands goes as the one that keeps the trees of the grammar; the facts of a state are
/// those of its tree so far, its height is that tree's, and an operand of at most 64 levels has its tree's meaning.
pub fn machines_agree()
    ensures moves { Mirrors }
    ensures facts { HasFacts }
    ensures heights { HasHeight }
    ensures trees { HasTrees }
{}
