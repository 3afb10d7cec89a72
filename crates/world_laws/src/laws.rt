ghost use Rattle.world_laws.specs.Sources.{SourcesAreTold, ToolsAreNoVictims};
ghost use Rattle.world_laws.specs.Sound.{SoundWorkloadsCanRun};
ghost use Rattle.world_laws.specs.InOrder.{SoundScriptsAreInOrder};
ghost use Rattle.world_laws.specs.OwnCalls.{SessionsWriteOwnCalls, LocalsWriteOwnCalls};
ghost use Rattle.world_laws.specs.Replicas.{ReplicasFollow, EachVerdictHolds};

use checksum_tool_laws::the_tool_is_no_victim;
use session_laws::sessions_write_their_own_calls;

/// A sound workload can be run under options within their limits, and its scripts run clients' statements alone, so
/// what the laws below say holds of the workload of any file.
pub fn sound_workloads_can_run()
    ensures { SoundWorkloadsCanRun }
{}

/// The transactions of a sound workload's scripts follow one another and each is ended, and the lines of a script rise.
#[tactic(auto, using(crate::proofs::SoundLemmas::sound_in_order))]
pub fn sound_scripts_are_in_order()
    ensures { SoundScriptsAreInOrder }
{}

/// Whatever items are played, the checksum tool's entries on the source are, for each table in order, CLEARCHECKS and
/// then a CHECKSUM and a SETMASTER for each chunk; each SETMASTER publishes the source's own checksum; and the chunks
/// of each table that the tool has left behind it hold each key once.
#[tactic(auto, using(crate::proofs::RunLemmas::sources_told))]
pub fn sources_are_told()
    ensures { SourcesAreTold }
{}

/// Whatever items are played, the checksum tool's next turn is not Victim: no other's turn has rolled its chunk back.
pub fn tools_are_no_victims()
    ensures { ToolsAreNoVictims }
{
    the_tool_is_no_victim();
}

/// Whatever items are played, each replica applied the entries of the source's log in order, each once and with its
/// statements, and only transactions of local sessions stand between them.
#[tactic(auto, using(crate::proofs::RunLemmas::each_follows))]
pub fn replicas_follow()
    ensures { ReplicasFollow }
{}

/// Whatever items are played, each verdict on a replica compares the source's rows of its chunk and the replica's, both
/// replayed to one position of the source's log.
#[tactic(auto, using(crate::proofs::RunLemmas::each_compares))]
pub fn verdicts_compare()
    ensures { EachVerdictHolds }
{}

/// Whatever items are played, each session of the source and each local session of a replica wrote its own calls: its
/// transactions in order, each once, without those that were rolled back, abandoned, refused as duplicates or left
/// unfinished.
pub fn sessions_wrote_their_own_calls()
    ensures sessions { SessionsWriteOwnCalls }
    ensures locals { LocalsWriteOwnCalls }
{
    sessions_write_their_own_calls();
}
