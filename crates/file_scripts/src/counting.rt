ghost use Rattle.std.specs.Prelude.{◌≡◌, ◌<◌, ◌≤◌, ◌+◌, ◌-◌, ◌^◌, get_or, OnOk, OnErr};
ghost use Rattle.line_items.specs.Counted.{turns_of_word as turns_of_a_word};
ghost use Rattle.file_scripts.specs.Counting.{turns_of as all_turns, CountsSession, CountsLocal, CountsTurns, SameCounts};

use line_items::Counts;
use line_words::ItemWord;
use row_types::R;

/// One SESSION line more.
pub fn count_session(counts: &mut Counts)
    requires { counts.old.sessions < 2 ^ 32 - 1 }
    ensures { CountsSession counts.old counts.new }
{
    counts.sessions += 1;
}

/// One LOCAL line of a replica more; out of memory changes nothing.
pub fn count_local(counts: &mut Counts, replica: u32) -> R<()>
    requires { get_or counts.old.locals.items replica 0 < 2 ^ 32 - 1 }
    ensures ok { OnOk result (CountsLocal replica counts.old counts.new) }
    ensures err { OnErr result (SameCounts counts.old counts.new) }
{
    let place = replica as usize;
    if counts.locals.len() <= place {
        counts.locals.resize(place + 1, 0)?;
    }
    counts.locals[place] += 1;
    Ok(())
}

fn turns_of_word(word: ItemWord) -> u128
    ensures { result ≡ turns_of_a_word word }
{
    match word {
        ItemWord::Times { actor: _, count } => count,
        _ => 1,
    }
}

/// The turns and operator's words of a SCHEDULE line, with repeats.
pub(crate) fn turns_of(words: &[ItemWord]) -> u32
    requires { all_turns words.now ≤ 10000000 }
    ensures { result ≡ all_turns words.now }
{
    let mut turns = 0u32;
    let mut rest = words;
    while let Some((word, more)) = rest.split_first() {
        turns += turns_of_word(*word) as u32;
        rest = more;
    }
    turns
}

/// The turns of one SCHEDULE line more.
pub fn count_turns(counts: &mut Counts, words: &[ItemWord])
    requires { counts.old.scheduled + all_turns words.now ≤ 10000000 }
    ensures { CountsTurns (all_turns words.now) counts.old counts.new }
{
    counts.scheduled += turns_of(words);
}
