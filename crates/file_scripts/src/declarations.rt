ghost use Rattle.std.specs.Prelude.{◌≡◌, ◌<◌, ◌^◌, length};
ghost use Rattle.file_scripts.specs.Declarations.{is_within as in_order, declares, declares_word, declares_node, first_undeclared as the_first};

use line_items::Counts;
use line_words::{ActorWord, ItemWord, NodeWord};

/// Whether a number is one of so many, from 1.
fn is_within(number: u128, count: u32) -> bool
    ensures { result ≡ in_order number count }
{
    1 <= number && number <= count as u128
}

/// Whether there is a replica of this number.
pub fn is_replica(replicas: u32, replica: u128) -> bool
    ensures { result ≡ in_order replica replicas }
{
    is_within(replica, replicas)
}

/// Whether there is the node of a ROW line.
pub fn node_is_declared(replicas: u32, node: NodeWord) -> bool
    ensures { result ≡ declares_node replicas node }
{
    match node {
        NodeWord::All => true,
        NodeWord::Source => true,
        NodeWord::Replica(replica) => is_within(replica, replicas),
    }
}

/// Whether an actor's sessions and replicas are there, behind lines with these counts.
pub fn is_declared(counts: &Counts, replicas: u32, actor: ActorWord) -> bool
    ensures { result ≡ declares counts.now replicas actor }
{
    match actor {
        ActorWord::Session(session) => is_within(session, counts.sessions),
        ActorWord::Tool => true,
        ActorWord::Sync(replica) => is_within(replica, replicas),
        ActorWord::Worker(replica) => is_within(replica, replicas),
        ActorWord::FurtherWorker { replica, worker: _ } => is_within(replica, replicas),
        ActorWord::Local { replica, session } => {
            let locals = counts.locals_of(replica);
            is_within(replica, replicas) && is_within(session, locals)
        }
    }
}

fn word_is_declared(counts: &Counts, replicas: u32, word: ItemWord) -> bool
    ensures { result ≡ declares_word counts.now replicas word }
{
    match word {
        ItemWord::Once(actor) => is_declared(counts, replicas, actor),
        ItemWord::Times { actor, count: _ } => is_declared(counts, replicas, actor),
        ItemWord::StopTool => true,
        ItemWord::ResumeTool => true,
        ItemWord::StopReplica(replica) => is_within(replica, replicas),
        ItemWord::StartReplica(replica) => is_within(replica, replicas),
    }
}

/// The number, from 0, of the first word of a SCHEDULE line that names nobody; None where there is none.
pub fn first_undeclared(counts: &Counts, replicas: u32, words: &[ItemWord]) -> Option<usize>
    ensures { result ≡ the_first counts.now replicas 0 words.now }
{
    let mut number = 0usize;
    let mut rest = words;
    while let Some((word, more)) = rest.split_first() {
        if !word_is_declared(counts, replicas, *word) {
            return Some(number);
        }
        number += 1;
        rest = more;
    }
    None
}
