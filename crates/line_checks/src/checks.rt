ghost use Rattle.std.specs.Prelude.{◌≡◌, ◌≤◌, ◌<◌, ◌^◌, List, length, IfOk, MatchOption};
ghost use Rattle.file_text.specs.Said.{Said};
ghost use Rattle.file_text.specs.Rules.{Opens};
ghost use Rattle.file_text.specs.Causes.{IsRefused};
ghost use Rattle.line_items.specs.Counted.{IsCounted};
ghost use Rattle.line_checks.specs.Faults.{cause_of};
ghost use Rattle.line_checks.specs.MarksOf.{IsMarked};
ghost use Rattle.line_checks.specs.Checked.{IsChecked, passed_before as passed_limit, order_fault as order_broken, check_of as the_check_of};

use crate::line_faults::LineFault;
use crate::marks::Marks;
use file_text::{LimitKind, LineCause, Section};
use line_items::{Counts, LineItem, LineReading, read_line};
use row_types::R;
use std::alloc::Global;

/// A line of a section, once its limits, its order and its form are looked at.
#[derive(Drop)]
pub enum LineCheck {
    Items(Vec<LineItem>),
    Fault(LineFault),
}

/// The limit that the lines before already pass.
fn passed_before(section: Section, marks: &Marks, counts: &Counts) -> Option<LineFault>
    ensures { result ≡ passed_limit section marks.now counts.now }
{
    match section {
        Section::TableLines => {
            if marks.tables >= 16 {
                return Some(LineFault::Limit(LimitKind::Tables));
            }
            None
        }
        Section::SessionLines => {
            if counts.sessions >= 64 {
                return Some(LineFault::Limit(LimitKind::Sessions));
            }
            None
        }
        _ => None,
    }
}

fn order_fault(section: Section, marks: &Marks) -> Option<LineFault>
    ensures { result ≡ order_broken section marks.now }
{
    if marks.ended {
        return Some(LineFault::Cause(LineCause::AfterEnd));
    }
    if !marks.is_in_order(section) {
        return Some(LineFault::Cause(LineCause::Order));
    }
    None
}

fn check_of(section: Section, marks: &Marks, reading: LineReading) -> LineCheck
    ensures { result ≡ the_check_of section marks.now reading }
{
    match reading {
        LineReading::Over(which) => LineCheck::Fault(LineFault::Limit(which)),
        LineReading::Misfit { place } => match order_fault(section, marks) {
            Some(fault) => LineCheck::Fault(fault),
            None => LineCheck::Fault(LineFault::Cause(LineCause::Form { place })),
        },
        LineReading::Whole(items) => match order_fault(section, marks) {
            Some(fault) => LineCheck::Fault(fault),
            None => LineCheck::Items(items),
        },
    }
}

/// Why a line is too long, if it is.
#[tactic(auto, using(crate::proofs::CheckLemmas::too_long))]
pub fn long_fault(line: &[u8]) -> Option<LineFault>
    ensures { MatchOption result (length line.now ≤ 65535) (λ fault. (before : List Said) → IsRefused before line.now (cause_of fault)) }
{
    if line.len() > 65535 {
        return Some(LineFault::Limit(LimitKind::LineBytes));
    }
    None
}

/// The items of a line of this section, behind lines with these marks and counts, or the first of the rules on
/// limits, order and form that it breaks.
#[tactic(auto, using(crate::proofs::CheckLemmas::passed_is, crate::proofs::CheckLemmas::checked_is))]
pub fn section_items(
    alloc: Global,
    section: Section,
    marks: &Marks,
    counts: &Counts,
    line: &[u8],
) -> R<LineCheck>
    requires { length line.now ≤ 65535 }
    ensures { IfOk result (λ check. (before : List Said) → IsMarked marks.now before → IsCounted counts.now before → Opens section line.now → IsChecked section before line.now check) }
{
    if let Some(fault) = passed_before(section, marks, counts) {
        return Ok(LineCheck::Fault(fault));
    }
    let reading = read_line(alloc, section, counts, line)?;
    Ok(check_of(section, marks, reading))
}
