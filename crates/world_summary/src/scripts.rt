//! What sessions could not do of their scripts: lines refused as duplicates, and transactions that were abandoned.
ghost use Rattle.std.specs.Prelude.{◌≡◌, ◌<◌, ◌^◌, ◌++◌, length, OnOk};
ghost use Rattle.world_model.specs.Summary.{duplicates_from, abandoned_from};
ghost use Rattle.world_summary.specs.Scripts.{session_of as session_at, duplicates_by, abandoned_by};

use row_types::R;
use session::Session;
use trace_text::{AbandonedLine, AbandonedLines, DuplicateLine, DuplicateLines};
use turn_notes::Place;
use workload::Actor;

/// The session of this number on a node.
fn session_of(place: Place, number: u32) -> Actor
    ensures { result ≡ session_at place number }
{
    match place {
        Place::Source => Actor::Session(number),
        Place::Replica(replica) => Actor::Local {
            replica,
            session: number,
        },
    }
}

/// Appends lines of a session's script that were refused.
fn add_refused(lines: &mut DuplicateLines, actor: Actor, refused: &[u32]) -> R<()>
    ensures { OnOk result (lines.new ≡ lines.old ++ duplicates_by actor refused.now) }
{
    for line in refused {
        lines.push(DuplicateLine { actor, line: *line })?;
    }
    Ok(())
}

/// Appends the lines that were refused of the sessions of a node.
pub fn add_duplicates(lines: &mut DuplicateLines, place: Place, sessions: &[Session]) -> R<()>
    requires { length sessions.now < 2 ^ 31 }
    ensures { OnOk result (lines.new ≡ lines.old ++ duplicates_from (session_at place) 1 sessions.now) }
{
    let (mut rest, mut number) = (sessions, 1u32);
    while let Some((one, more)) = rest.split_first() {
        add_refused(lines, session_of(place, number), one.refused())?;
        rest = more;
        number += 1;
    }
    Ok(())
}

/// Appends transactions of a session's script that were abandoned.
fn add_given_up(lines: &mut AbandonedLines, actor: Actor, numbers: &[u32]) -> R<()>
    ensures { OnOk result (lines.new ≡ lines.old ++ abandoned_by actor numbers.now) }
{
    for number in numbers {
        lines.push(AbandonedLine {
            actor,
            number: *number,
        })?;
    }
    Ok(())
}

/// Appends the transactions that the sessions of a node abandoned.
#[tactic(auto, using(std::proofs::lemmas::Grind::common_steps, crate::proofs::ScriptLemmas::abandoned_more))]
pub fn add_abandoned(lines: &mut AbandonedLines, place: Place, sessions: &[Session]) -> R<()>
    requires { length sessions.now < 2 ^ 31 }
    ensures { OnOk result (lines.new ≡ lines.old ++ abandoned_from (session_at place) 1 sessions.now) }
{
    let (mut rest, mut number) = (sessions, 1u32);
    while let Some((one, more)) = rest.split_first() {
        add_given_up(lines, session_of(place, number), one.abandoned())?;
        rest = more;
        number += 1;
    }
    Ok(())
}
