ghost use Rattle.run_laws.specs.Calls.{FinishedSessionsWroteAll};
ghost use Rattle.run_laws.specs.Finished.{ActorsAreTold, RunsWithoutLines};

use session_laws::sessions_write_their_own_calls;

/// At the end of a run, an actor of a round has finished where its turn gives no reason why not, and only there: a session
/// is at the end of its script, the checksum tool is finished, and a worker has no entry and finds none to take.
pub fn still_actors_are_told()
    ensures { ActorsAreTold }
{}

/// At the end of a run, no actor is told as unfinished exactly where every session is at the end of its script, the
/// checksum tool is finished, and every replica has applied the whole log of the source.
pub fn runs_without_unfinished_lines()
    ensures { RunsWithoutLines }
{}

/// Where a run ends with no actor told as unfinished, each session wrote the calls of its whole script, in order, each once,
/// but for transactions that were rolled back or abandoned and lines that were refused as duplicates.
pub fn finished_sessions_wrote_all_their_calls()
    ensures { FinishedSessionsWroteAll }
{
    sessions_write_their_own_calls();
}
