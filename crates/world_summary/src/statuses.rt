//! The status of a run.
ghost use Rattle.std.specs.Prelude.{◌≡◌};
ghost use Rattle.std.specs.List.{list_any};
ghost use Rattle.world_model.specs.Summary.{is_incomplete as is_unfinished, status_from};
ghost use Rattle.world_model.specs.Verdicts.{differs, pends};

use checksum_table::Verdict;
use report_text::VerdictLine;
use trace_text::UnfinishedLine;

fn any_differs(verdicts: &[VerdictLine]) -> bool
    ensures { result ≡ list_any differs verdicts.now }
{
    for line in verdicts {
        if line.verdict == Verdict::Differ {
            return true;
        }
    }
    false
}

fn any_pends(verdicts: &[VerdictLine]) -> bool
    ensures { result ≡ list_any pends verdicts.now }
{
    for line in verdicts {
        if line.verdict == Verdict::Pending {
            return true;
        }
    }
    false
}

/// Whether a verdict is open, an actor has not finished, or a table is not covered.
fn is_incomplete(verdicts: &[VerdictLine], unfinished: &[UnfinishedLine], covered: bool) -> bool
    ensures { result ≡ is_unfinished verdicts.now unfinished.now covered }
{
    any_pends(verdicts) || !unfinished.is_empty() || !covered
}

/// 16 where a verdict is DIFFER, and 32 more where something is left to do.
pub fn status(verdicts: &[VerdictLine], unfinished: &[UnfinishedLine], covered: bool) -> u8
    ensures { result ≡ status_from verdicts.now unfinished.now covered }
{
    let differs: u8 = if any_differs(verdicts) { 16 } else { 0 };
    let left: u8 = if is_incomplete(verdicts, unfinished, covered) {
        32
    } else {
        0
    };
    differs + left
}
