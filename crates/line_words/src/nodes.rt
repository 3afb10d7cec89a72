ghost use Rattle.std.specs.Prelude.{◌≡◌, MatchOption};
ghost use Rattle.line_words.specs.Items.{IsNodeWord, NoNode};

use crate::numbers::led_number;

/// The node of a ROW line. A number past 128 bits is the greatest of 128 bits.
#[derive(Clone, Copy, Debug, PartialEq, Eq)]
pub enum NodeWord {
    All,
    Source,
    Replica(u128),
}

/// The node whose word a text is; None where it is no node's.
#[tactic(auto, using(crate::proofs::ItemLemmas::is_all, crate::proofs::ItemLemmas::is_source, crate::proofs::ItemLemmas::is_replica, crate::proofs::ItemLemmas::no_node))]
pub fn node_of(text: &[u8]) -> Option<NodeWord>
    ensures { MatchOption result (NoNode text.now) (λ found. IsNodeWord text.now found) }
{
    if text == b"*".as_slice() {
        return Some(NodeWord::All);
    }
    if text == b"source".as_slice() {
        return Some(NodeWord::Source);
    }
    match led_number(b'r', text) {
        None => None,
        Some(replica) => Some(NodeWord::Replica(replica)),
    }
}
