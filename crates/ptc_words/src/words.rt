ghost use Rattle.std.specs.Prelude.{◌≡◌, ◌≤◌, ◌↔◌, false, IsTrue, IfOk, IfErr, map, string_bytes};
ghost use Rattle.ptc_words.specs.Words.{words_read, options_read, IsOfWords};

use crate::given::{Given, Valued, given_after};
use row_types::R;
use std::alloc::Global;

/// What a run is asked for on the command line.
#[derive(Clone, Copy, Debug, PartialEq, Eq)]
pub struct Options {
    /// Whether the report has the turns: `--trace`.
    pub trace: bool,
    /// How often a transaction or a chunk that was rolled back is begun again: `--retries N`, 0 to 100, and
    /// 2 where it is not given.
    pub retries: u32,
}

/// Why words are refused. Words are counted from 1.
#[derive(Clone, Copy, Debug, PartialEq, Eq)]
pub enum WordFault {
    /// There is no word.
    Nothing,
    /// The first word that is not allowed at its place.
    Bad { index: u32 },
    /// The last word, an option whose value is not there.
    Missing { index: u32 },
}

impl WordFault {
    pub fn copy(&self, _alloc: Global) -> R<WordFault>
        ensures { IfOk result (λ copy. copy ≡ self.now) }
    {
        Ok(*self)
    }

    pub fn same(&self, other: &WordFault) -> bool
        ensures { IsTrue result ↔ (self.now ≡ other.now) }
    {
        *self == *other
    }
}

/// What the words behind `run` ask for.
fn read_options(words: &[String]) -> Result<Options, WordFault>
    ensures { result ≡ options_read 2 (record { trace = false; retries = Valued.Absent }) (map string_bytes words.now) }
{
    let mut given = Given {
        trace: false,
        retries: Valued::Absent,
    };
    let mut rest = words;
    while let Some((word, more)) = rest.split_first() {
        let Some(after) = given_after(given, word.as_bytes()) else {
            return Err(WordFault::Bad {
                index: given.next(),
            });
        };
        given = after;
        rest = more;
    }
    given.ended()
}

/// Takes `run` and the options behind it, in any order, each at most once; `--retries` is two words. Of others it
/// tells the first, from the left, that is not allowed at its place, or that a value is missing. It takes no memory.
pub fn read(words: &[String]) -> Result<Options, WordFault>
    ensures read { result ≡ words_read (map string_bytes words.now) }
    ensures index { IfErr result (IsOfWords (map string_bytes words.now)) }
    ensures retries { IfOk result (λ options. options.retries ≤ 100) }
{
    match words.split_first() {
        None => Err(WordFault::Nothing),
        Some((word, options)) => {
            if word.as_bytes() == b"run".as_slice() {
                read_options(options)
            } else {
                Err(WordFault::Bad { index: 1 })
            }
        }
    }
}
