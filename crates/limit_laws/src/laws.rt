ghost use Rattle.limit_laws.specs.Limits.{MovesOnlyGrow, RunsEndWithinOrExceed};

/// Whatever items are played, the moves of which the journal tells become no fewer.
#[tactic(auto, using(crate::proofs::MoveLemmas::moves_only_grow))]
pub fn moves_only_grow()
    ensures { MovesOnlyGrow }
{}

/// A run that has an end makes more moves than its options allow exactly where the journal of its end tells of more: so
/// no run has an end within its limit and exceeds it, too.
pub fn runs_end_within_their_limit_or_exceed_it()
    ensures { RunsEndWithinOrExceed }
{}
