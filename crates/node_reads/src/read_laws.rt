ghost use Rattle.node_reads.specs.ReadLaws.{ReadsStayAlways};

/// A law, over every list of calls by any owners: what an open transaction's statements that are done read of the
/// replay, with its earlier statements applied, is the same before and after any call but that
/// transaction's commit, whatever others commit meanwhile.
pub fn what_was_read_stays()
    ensures { ReadsStayAlways }
{}
