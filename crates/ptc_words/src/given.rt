ghost use Rattle.std.specs.Prelude.{◌≡◌, ◌+◌};
ghost use Rattle.ptc_words.specs.Words.{words_behind, ended as the_end, given_after as the_given, named_after as the_named};

use crate::numbers::number_to;
use crate::words::{Options, WordFault};

/// An option with a value, as far as the words have come.
#[derive(Clone, Copy, Debug, PartialEq, Eq)]
pub(crate) enum Valued {
    Absent,
    /// Its value is the next word.
    Awaited,
    Is(u32),
}

/// The options that words have given.
#[derive(Clone, Copy, Debug, PartialEq, Eq)]
pub(crate) struct Given {
    pub trace: bool,
    pub retries: Valued,
}

impl Given {
    /// The number of the next word.
    pub fn next(&self) -> u32
        ensures { result ≡ words_behind self.now + 2 }
    {
        let trace = u32::from(self.trace);
        match self.retries {
            Valued::Absent => trace + 2,
            Valued::Awaited => trace + 3,
            Valued::Is(_) => trace + 4,
        }
    }

    /// What is asked for where no word is left.
    pub fn ended(&self) -> Result<Options, WordFault>
        ensures { result ≡ the_end (words_behind self.now + 2) self.now }
    {
        match self.retries {
            Valued::Absent => Ok(Options {
                trace: self.trace,
                retries: 2,
            }),
            Valued::Awaited => Err(WordFault::Missing {
                index: self.next() - 1,
            }),
            Valued::Is(retries) => Ok(Options {
                trace: self.trace,
                retries,
            }),
        }
    }
}

/// What is given with the name of an option that was not given yet; None for another word.
fn named_after(given: Given, word: &[u8]) -> Option<Given>
    ensures { result ≡ the_named given word.now }
{
    if word == b"--trace".as_slice() {
        return if given.trace {
            None
        } else {
            Some(Given {
                trace: true,
                ..given
            })
        };
    }
    if word == b"--retries".as_slice() {
        return match given.retries {
            Valued::Absent => Some(Given {
                retries: Valued::Awaited,
                ..given
            }),
            Valued::Awaited | Valued::Is(_) => None,
        };
    }
    None
}

/// What is given with one more word; None where it is not allowed at its place.
pub(crate) fn given_after(given: Given, word: &[u8]) -> Option<Given>
    ensures { result ≡ the_given given word.now }
{
    match given.retries {
        Valued::Awaited => match number_to(100, word) {
            Some(retries) => Some(Given {
                retries: Valued::Is(retries),
                ..given
            }),
            None => None,
        },
        Valued::Absent | Valued::Is(_) => named_after(given, word),
    }
}
