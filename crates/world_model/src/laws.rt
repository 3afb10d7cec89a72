//! What holds of each turn, each world and each run.
ghost use Rattle.world_model.specs.Laws.{StillTurnsChangeNothing, WorldsAreReplays, EachWorldFits, RoundsHaveOneOrder, StillRoundsChangeNothing, EachRunHasOneEnd};

/// A turn that moves nothing leaves the world as it was.
#[tactic(auto, using(crate::proofs::StillLemmas::still_item))]
pub fn still_turns_change_nothing()
    ensures { StillTurnsChangeNothing }
{}

/// Whatever items are played, the world is what the items of its journal make of the first one.
#[tactic(auto, using(crate::proofs::ReplayLemmas::worlds_are_replays))]
pub fn worlds_are_replays()
    ensures { WorldsAreReplays }
{}

/// Whatever items are played from a workload that can be run, the statements of scripts and of the log fit.
#[tactic(auto, using(crate::proofs::GoodLemmas::each_world_fits))]
pub fn each_world_fits()
    ensures { EachWorldFits }
{}

/// Whatever items are played, the actors of a round and their order stay.
#[tactic(auto, using(crate::proofs::OrderLemmas::rounds_have_one_order))]
pub fn rounds_have_one_order()
    ensures { RoundsHaveOneOrder }
{}

/// A round behind the schedule in which nobody can move changes nothing.
#[tactic(auto, using(crate::proofs::RoundLemmas::still_rounds))]
pub fn still_rounds_change_nothing()
    ensures { StillRoundsChangeNothing }
{}

/// A run has one end.
pub fn each_run_has_one_end()
    ensures { EachRunHasOneEnd }
{}
