ghost use Rattle.turn_laws.specs.Stays.{SessionsStay, AppliersStay, StoppedStay};
ghost use Rattle.turn_laws.specs.LogsFit.{SessionsLogWhatFits, ToolLogsWhatFits};
ghost use Rattle.turn_laws.specs.TurnCalls.{SessionsMakeCalls, WorkersMakeCalls, OthersMakeNone, ToolMakesCalls, StopsMakeCalls};

/// A session keeps its owner, its origin and its script, and an applier its workers' owners.
#[tactic(auto, using(crate::proofs::StayLemmas::sessions_stay, crate::proofs::StayLemmas::appliers_stay, crate::proofs::StayLemmas::stopped_stay))]
pub fn actors_stay()
    ensures sessions { SessionsStay }
    ensures appliers { AppliersStay }
    ensures stopped { StoppedStay }
{}

/// Where the statements of a source's log fit, those of the log that a turn of a session or of the checksum tool
/// leaves fit too, and the tool's table is still one of the tables.
#[tactic(auto, using(crate::proofs::SessionLogs::sessions_log, crate::proofs::ToolLogs::tool_logs))]
pub fn sources_log_what_fits()
    ensures sessions { SessionsLogWhatFits }
    ensures tool { ToolLogsWhatFits }
{}

/// A turn leaves the node as a list of calls of its actor does: a session's run the statements of its script, a
/// worker's those of the log, and the checksum tool's those of its chunk.
#[tactic(auto, using(crate::proofs::SessionCalls::sessions_make_calls, crate::proofs::WorkerCalls::workers_make_calls, crate::proofs::WorkerCalls::others_make_none, crate::proofs::ToolCalls::tool_makes_calls))]
pub fn turns_are_calls()
    ensures sessions { SessionsMakeCalls }
    ensures workers { WorkersMakeCalls }
    ensures others { OthersMakeNone }
    ensures tool { ToolMakesCalls }
{}

/// A stop of an applier leaves the node as rollbacks of its workers do.
#[tactic(auto, using(crate::proofs::WorkerCalls::stops_make_calls))]
pub fn stops_are_calls()
    ensures { StopsMakeCalls }
{}
