ghost use Rattle.std.specs.Prelude.{◌≡◌};
ghost use Rattle.statement_grammar.specs.Grammar.{gives as what_gives, level as the_level, prefix_level as level_before, wants as what_wants};
ghost use Rattle.statement_grammar.specs.Machine.{frame_gives as what_it_gives};
ghost use Rattle.statement_stacks.specs.Tops.{top_with};

use statement_grammar::Frame;
use statement_operands::Operand;
use statement_tokens::{Math, Word};

/// What the innermost open frame waits for: nothing is open; an operand, which the frame binds so tightly, and
/// whether it is a condition; the lower end of a BETWEEN; or what stands in a parenthesis, and whether a
/// condition may.
#[derive(Clone, Copy, Debug, PartialEq, Eq)]
pub enum Top {
    Bare,
    Binds { strength: u8, wants: bool },
    Low,
    Opened { takes: bool },
}

/// How tightly a word binds the operands beside it, from OR to `*`; 0 where it stands between none.
pub fn level(word: &Word) -> u8
    ensures { result ≡ the_level word.now }
{
    match word {
        Word::Or => 1,
        Word::And => 2,
        Word::Compare(_) => 4,
        Word::Math(math) => match math {
            Math::Plus => 5,
            Math::Minus => 5,
            Math::Times => 6,
        },
        _ => 0,
    }
}

/// How tightly a word binds the operand behind it; 0 where it stands before none.
pub fn prefix_level(word: &Word) -> u8
    ensures { result ≡ level_before word.now }
{
    match word {
        Word::Not => 3,
        Word::Math(math) => match math {
            Math::Minus => 7,
            _ => 0,
        },
        _ => 0,
    }
}

/// Whether the operands of a word are conditions.
pub fn wants(word: &Word) -> bool
    ensures { result ≡ what_wants word.now }
{
    match word {
        Word::Or => true,
        Word::And => true,
        Word::Not => true,
        _ => false,
    }
}

/// Whether what a word makes is a condition.
fn gives(word: &Word) -> bool
    ensures { result ≡ what_gives word.now }
{
    match word {
        Word::Compare(_) => true,
        Word::Or => true,
        Word::And => true,
        Word::Not => true,
        _ => false,
    }
}

/// Whether a frame with its operand is a condition.
pub fn frame_gives(frame: &Frame<Operand>) -> bool
    ensures { result ≡ what_it_gives frame.now }
{
    match frame {
        Frame::Before(token) => gives(&token.word),
        Frame::Behind(_, token) => gives(&token.word),
        Frame::Low(_, _) => true,
        Frame::High(_, _, _, _) => true,
        Frame::Opened(_, _) => false,
    }
}

/// What a frame waits for.
pub fn top_of(frame: &Frame<Operand>) -> Top
    ensures { result ≡ top_with frame.now }
{
    match frame {
        Frame::Before(token) => Top::Binds {
            strength: prefix_level(&token.word),
            wants: wants(&token.word),
        },
        Frame::Behind(_, token) => Top::Binds {
            strength: level(&token.word),
            wants: wants(&token.word),
        },
        Frame::Low(_, _) => Top::Low,
        Frame::High(_, _, _, _) => Top::Binds {
            strength: 4,
            wants: false,
        },
        Frame::Opened(_, takes) => Top::Opened { takes: *takes },
    }
}
