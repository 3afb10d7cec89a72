ghost use Rattle.std.specs.Prelude.{◌≡◌, ◌∷◌, ◌++◌, ℕ, List, codes, MatchOption};
ghost use Rattle.statement_tokens.specs.FirstToken.{behind as what_is_behind};
ghost use Rattle.file_text.specs.Said.{IsLed};
ghost use Rattle.line_words.specs.Items.{IsItemWord, NoItem, NoOperator, NoStop, NoSingle, NoTimes, is_no_star};

use crate::actors::{ActorWord, actor_of};
use crate::numbers::{decimal_of, led_number};

/// A word of a schedule. A number past 128 bits is the greatest of 128 bits.
#[derive(Clone, Copy, Debug, PartialEq, Eq)]
pub enum ItemWord {
    /// one turn of an actor
    Once(ActorWord),
    /// several turns of an actor
    Times { actor: ActorWord, count: u128 },
    StopTool,
    ResumeTool,
    StopReplica(u128),
    StartReplica(u128),
}

/// What stands behind this beginning, if the text begins so.
fn behind<'a>(text: &'a [u8], beginning: &[u8]) -> Option<&'a [u8]>
    ensures { MatchOption result ((more : List ℕ) → text.now ≡ beginning.now ++ more → ⊥) (λ rest. text.now ≡ beginning.now ++ rest.now) }
{
    if text.len() < beginning.len() {
        return None;
    }
    let (front, rest) = text.split_at(beginning.len());
    if front == beginning { Some(rest) } else { None }
}

#[tactic(auto, using(crate::proofs::ItemLemmas::is_stop_tool, crate::proofs::ItemLemmas::is_stop_replica, crate::proofs::ItemLemmas::no_stop))]
fn stop_word(rest: &[u8]) -> Option<ItemWord>
    ensures { MatchOption result (NoStop rest.now) (λ found. IsItemWord (codes "stop:" ++ rest.now) found) }
{
    if rest == b"c".as_slice() {
        return Some(ItemWord::StopTool);
    }
    match led_number(b'r', rest) {
        None => None,
        Some(replica) => Some(ItemWord::StopReplica(replica)),
    }
}

#[tactic(auto, using(crate::proofs::ItemLemmas::is_start_replica))]
fn start_word(rest: &[u8]) -> Option<ItemWord>
    ensures { MatchOption result ((replica : ℕ) → IsLed 114 replica rest.now → ⊥) (λ found. IsItemWord (codes "start:" ++ rest.now) found) }
{
    match led_number(b'r', rest) {
        None => None,
        Some(replica) => Some(ItemWord::StartReplica(replica)),
    }
}

#[tactic(auto, using(crate::proofs::ItemLemmas::same_text, crate::proofs::ItemLemmas::no_stop_word, crate::proofs::ItemLemmas::no_start_word, crate::proofs::ItemLemmas::is_resume, crate::proofs::ItemLemmas::no_operator))]
fn operator_of(text: &[u8]) -> Option<ItemWord>
    ensures { MatchOption result (NoOperator text.now) (λ found. IsItemWord text.now found) }
{
    match behind(text, b"stop:".as_slice()) {
        Some(rest) => match stop_word(rest) {
            None => None,
            Some(word) => Some(word),
        },
        None => match behind(text, b"start:".as_slice()) {
            Some(rest) => match start_word(rest) {
                None => None,
                Some(word) => Some(word),
            },
            None => {
                if text == b"resume:c".as_slice() {
                    Some(ItemWord::ResumeTool)
                } else {
                    None
                }
            }
        },
    }
}

#[tactic(auto, using(crate::proofs::ItemLemmas::is_once, crate::proofs::ItemLemmas::no_single))]
fn single_of(text: &[u8]) -> Option<ItemWord>
    ensures { MatchOption result (NoSingle text.now) (λ found. IsItemWord text.now found) }
{
    match actor_of(text) {
        Some(actor) => Some(ItemWord::Once(actor)),
        None => match operator_of(text) {
            None => None,
            Some(word) => Some(word),
        },
    }
}

#[tactic(auto, using(crate::proofs::ItemLemmas::is_times, crate::proofs::ItemLemmas::no_actor_times, crate::proofs::ItemLemmas::no_count_times))]
fn times_of(front: &[u8], back: &[u8]) -> Option<ItemWord>
    ensures { MatchOption result (NoTimes front.now back.now) (λ found. IsItemWord (front.now ++ 42 ∷ back.now) found) }
{
    match actor_of(front) {
        None => None,
        Some(actor) => match decimal_of(back) {
            None => None,
            Some(count) => Some(ItemWord::Times { actor, count }),
        },
    }
}

/// What is left of a text from its first star on.
fn from_star<'a>(text: &'a [u8]) -> &'a [u8]
    ensures { result.now ≡ what_is_behind is_no_star text.now }
{
    let mut rest = text;
    while let Some((byte, more)) = rest.split_first() {
        if *byte == b'*' {
            return rest;
        }
        rest = more;
    }
    rest
}

/// The word of a schedule that a text is; None where it is none.
#[tactic(auto, using(statement_tokens::proofs::CutLemmas::behind_shorter, crate::proofs::ItemLemmas::no_star, crate::proofs::ItemLemmas::no_times, crate::proofs::ItemLemmas::at_star))]
pub fn item_of(text: &[u8]) -> Option<ItemWord>
    ensures { MatchOption result (NoItem text.now) (λ found. IsItemWord text.now found) }
{
    let rest = from_star(text);
    let front = text.split_at(text.len() - rest.len()).0;
    match rest.split_first() {
        None => match single_of(text) {
            None => None,
            Some(word) => Some(word),
        },
        Some((_, back)) => match times_of(front, back) {
            None => None,
            Some(word) => Some(word),
        },
    }
}
