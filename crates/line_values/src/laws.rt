ghost use Rattle.line_values.specs.Lines.{WholeLineSays};

/// The items of a whole line give the values that the line says.
#[tactic(auto, using(crate::proofs::LineLemmas::whole_says))]
pub fn whole_lines_say()
    ensures { WholeLineSays }
{}
