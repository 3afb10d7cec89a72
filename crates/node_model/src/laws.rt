//! What the locks of open transactions keep, over every list of calls.
ghost use Rattle.node_model.specs.Calls.{LocksKeepAlways, CommitsLeaveLiveRows, GuardedRowsStay};

/// After every list of calls by any owners: who has a key exclusively is alone on it, a held gap is free,
/// and each key that a statement of an open transaction has passed is covered.
pub fn locks_keep_what_they_cover()
    ensures { LocksKeepAlways }
{}

/// A commit leaves each live row: what is committed then is what its owner saw.
pub fn a_commit_leaves_live_rows()
    ensures { CommitsLeaveLiveRows }
{}

/// What is committed at a key that an owner has locked, or holds a gap over, stays until that owner commits,
/// whatever others commit meanwhile: so what a walk read stays what it read.
pub fn locked_rows_stay()
    ensures { GuardedRowsStay }
{}
