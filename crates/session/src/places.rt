ghost use Rattle.std.specs.Prelude.{◌≡◌, ◌<◌, ◌+◌, ◌^◌, true, length, OnOk};
ghost use Rattle.session.specs.Sessions.{advanced, with_refusal, entered, entered_alone, left, settled_all, forgotten, rolled_back, begun_again, abandoning};
ghost use Rattle.session.specs.SessionParts.{session_view, PartsKept, HasRoom};

use crate::lists::{make_room, place_behind, put_last};
use crate::parts::Parts;
use crate::stages::Stage;
use row_types::{Memory, R};

/// Makes room for what a turn notes; nothing that is seen changes.
pub fn make_rooms(parts: &mut Parts) -> R<()>
    requires kept { PartsKept parts.old }
    ensures room { OnOk result (HasRoom parts.new) }
    ensures view { session_view parts.new ≡ session_view parts.old }
    ensures kept { PartsKept parts.new }
{
    if parts.ended == u32::MAX {
        return Err(Memory);
    }
    make_room(&mut parts.abandoned)?;
    make_room(&mut parts.refused)?;
    Ok(())
}

/// Goes on behind the next line.
pub fn advance(parts: &mut Parts)
    requires kept { PartsKept parts.old }
    requires line { parts.old.next < length parts.old.script.lines }
    ensures view { session_view parts.new ≡ advanced (session_view parts.old) }
    ensures kept { PartsKept parts.new }
{
    let within = parts.next < parts.script.lines.len();
    prove!(within);
    parts.next += 1;
    parts.in_progress = false;
}

/// Goes on behind the next line, whose statement was refused.
#[tactic(auto, using(crate::proofs::PlaceLemmas::more_settled))]
pub fn refuse(parts: &mut Parts, line: u32)
    requires kept { PartsKept parts.old }
    requires room { HasRoom parts.old }
    requires line { parts.old.next < length parts.old.script.lines }
    ensures view { session_view parts.new ≡ with_refusal line (session_view parts.old) }
    ensures kept { PartsKept parts.new }
{
    put_last(&mut parts.refused, line);
    let within = parts.next < parts.script.lines.len();
    prove!(within);
    parts.next += 1;
    parts.in_progress = false;
}

/// A transaction begins at the next line.
pub fn enter(parts: &mut Parts, stage: Stage)
    requires kept { PartsKept parts.old }
    requires line { parts.old.next < length parts.old.script.lines }
    ensures view { session_view parts.new ≡ entered stage (session_view parts.old) }
    ensures kept { PartsKept parts.new }
{
    parts.stage = stage;
    parts.first = parts.next;
}

/// The next line's statement is in progress: where no transaction is open, in one of its own.
pub fn enter_statement(parts: &mut Parts)
    requires kept { PartsKept parts.old }
    requires line { parts.old.next < length parts.old.script.lines }
    ensures view { session_view parts.new ≡ record (entered_alone parts.old.stage (session_view parts.old)) { in_progress = true } }
    ensures kept { PartsKept parts.new }
{
    match parts.stage {
        Stage::Between => {
            parts.stage = Stage::Alone;
            parts.first = parts.next;
        }
        Stage::Within | Stage::Alone => {}
    }
    parts.in_progress = true;
}

/// A transaction is committed.
pub fn leave_committed(parts: &mut Parts)
    requires kept { PartsKept parts.old }
    requires room { parts.old.ended + 1 < 2 ^ 32 }
    ensures view { session_view parts.new ≡ settled_all (left (session_view parts.old)) }
    ensures kept { PartsKept parts.new }
{
    parts.settled = parts.refused.len();
    leave(parts);
}

/// A transaction is rolled back by its script.
pub fn leave_rolled_back(parts: &mut Parts)
    requires kept { PartsKept parts.old }
    requires room { parts.old.ended + 1 < 2 ^ 32 }
    ensures view { session_view parts.new ≡ left (forgotten (session_view parts.old)) }
    ensures kept { PartsKept parts.new }
{
    forget(parts);
    leave(parts);
}

fn leave(parts: &mut Parts)
    requires kept { PartsKept parts.old }
    requires room { parts.old.ended + 1 < 2 ^ 32 }
    ensures view { session_view parts.new ≡ left (session_view parts.old) }
    ensures kept { PartsKept parts.new }
{
    parts.stage = Stage::Between;
    parts.in_progress = false;
    parts.rollbacks = 0;
    parts.ended += 1;
}

/// Drops the duplicates of a transaction.
#[tactic(auto, using(crate::proofs::PlaceLemmas::taken_settled))]
fn forget(parts: &mut Parts)
    requires kept { PartsKept parts.old }
    ensures view { session_view parts.new ≡ forgotten (session_view parts.old) }
    ensures kept { PartsKept parts.new }
{
    parts.refused.truncate(parts.settled);
}

/// A transaction was rolled back, though not by its script: it is begun again, or abandoned.
pub fn roll_back(parts: &mut Parts, retries: u32)
    requires kept { PartsKept parts.old }
    requires room { HasRoom parts.old }
    ensures view { session_view parts.new ≡ rolled_back retries (session_view parts.old) }
    ensures kept { PartsKept parts.new }
{
    if parts.rollbacks < retries {
        begin_again(parts, retries);
        return;
    }
    abandon(parts);
}

fn begin_again(parts: &mut Parts, _retries: u32)
    requires kept { PartsKept parts.old }
    requires few { parts.old.rollbacks < _retries }
    ensures view { session_view parts.new ≡ begun_again (session_view parts.old) }
    ensures kept { PartsKept parts.new }
{
    parts.next = parts.first;
    parts.stage = Stage::Between;
    parts.in_progress = false;
    parts.rollbacks += 1;
    forget(parts);
}

fn abandon(parts: &mut Parts)
    requires kept { PartsKept parts.old }
    requires room { HasRoom parts.old }
    ensures view { session_view parts.new ≡ abandoning (session_view parts.old) }
    ensures kept { PartsKept parts.new }
{
    parts.next = place_behind(parts.script.lines.as_slice(), parts.first, parts.stage);
    put_last(&mut parts.abandoned, parts.ended + 1);
    leave_rolled_back(parts);
}
