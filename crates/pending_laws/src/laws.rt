ghost use Rattle.pending_laws.specs.Pending.{FinishedRunsLeaveNonePending};

/// Whatever items are played, once the checksum tool is finished each check row of the source has the source's checksum,
/// and no verdict on a replica that has applied the whole log is PENDING.
pub fn finished_runs_leave_no_verdict_pending()
    ensures { FinishedRunsLeaveNonePending }
{}
