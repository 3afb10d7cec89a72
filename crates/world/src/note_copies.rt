ghost use Rattle.std.specs.Prelude.{◌≡◌, ◌≤◌, ◌<◌, ◌+◌, ◌++◌, ◌∷◌, [], length, vec_len, vec_capacity};
ghost use Rattle.world.specs.NoteCycles.{note_cycle};

use trace_text::Note;
use workload::{Actor, Actors};

/// Puts an actor behind the others, where there is reserved capacity for it.
fn put_last(actors: &mut Vec<Actor>, actor: Actor)
    requires { vec_len actors.old < vec_capacity actors.old }
    ensures items { actors.new.items ≡ actors.old.items ++ actor ∷ [] }
    ensures len { vec_len actors.new ≡ vec_len actors.old + 1 }
    ensures capacity { vec_capacity actors.old ≤ vec_capacity actors.new }
{
    match actors.push(actor) {
        Ok(()) => {}
        Err(_) => unreachable!(),
    }
}

/// A copy of actors, in an empty list that has capacity for them.
fn copy_actors(cycle: &[Actor], spare: Vec<Actor>) -> Actors
    requires empty { spare.items ≡ [] }
    requires room { vec_len spare + length cycle.now ≤ vec_capacity spare }
    ensures { result ≡ cycle.now }
{
    let mut actors = spare;
    let mut rest = cycle;
    while let Some((actor, more)) = rest.split_first() {
        put_last(&mut actors, *actor);
        rest = more;
    }
    Actors { items: actors }
}

/// A copy of a note. `spare` is empty, with capacity for the actors of its cycle.
pub fn copy_note(note: &Note, spare: Vec<Actor>) -> Note
    requires empty { spare.items ≡ [] }
    requires room { vec_len spare + length (note_cycle note.now) ≤ vec_capacity spare }
    ensures { result ≡ note.now }
{
    match note {
        Note::Off => Note::Off,
        Note::Step => Note::Step,
        Note::Done => Note::Done,
        Note::Waits { by } => Note::Waits { by: *by },
        Note::Deadlock { victim, cycle } => Note::Deadlock {
            victim: *victim,
            cycle: copy_actors(cycle.as_slice(), spare),
        },
        Note::Duplicate => Note::Duplicate,
        Note::Victim => Note::Victim,
        Note::Begin => Note::Begin,
        Note::Start => Note::Start,
        Note::Commit { position } => Note::Commit {
            position: *position,
        },
        Note::CommitNone => Note::CommitNone,
        Note::CommitLocal => Note::CommitLocal,
        Note::Rollback => Note::Rollback,
        Note::Finished => Note::Finished,
        Note::Stopped => Note::Stopped,
        Note::Take { entry } => Note::Take { entry: *entry },
        Note::Nothing { applied } => Note::Nothing { applied: *applied },
        Note::Order { entry } => Note::Order { entry: *entry },
        Note::Retries { rollbacks } => Note::Retries {
            rollbacks: *rollbacks,
        },
        Note::Clear { position } => Note::Clear {
            position: *position,
        },
        Note::Choose { table, chunk } => Note::Choose {
            table: *table,
            chunk: *chunk,
        },
        Note::Master { position } => Note::Master {
            position: *position,
        },
    }
}
