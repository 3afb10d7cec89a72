ghost use Rattle.std.specs.Prelude.{◌≡◌, ◌+◌, min, max, None};
ghost use Rattle.std.specs.Option.{option_or};
ghost use Rattle.statement_reader.specs.Facts.{compared, least, leaf_facts, lower_facts, nullness_facts, paren_facts, place_of_text, range_facts, sign_breach, sign_facts, sorts_differ, text_in, two_breach, two_facts};
ghost use Rattle.statement_reader.specs.declared.facts.Sort.TheVariants.{Any};

use statement_tokens::{Token, Word};

/// What an operand holds: numbers, texts, or NULL and the like, which fit both.
#[derive(Clone, Copy, Debug, PartialEq, Eq)]
pub enum Sort {
    Number,
    Text,
    Any,
}

/// What the rules on kinds and heights ask of a tree: how high it is, where 65 stands for more than 64; the
/// place of its first byte; what it holds; the place of the first operand of arithmetic in it that is a text; and,
/// as a condition, the first place in it that breaks the rules on kinds; and the first name in it that is no
/// column. Places are bytes from 1.
#[derive(Clone, Copy, Debug, PartialEq, Eq)]
pub struct Facts {
    pub height: u32,
    pub place: u32,
    pub sort: Sort,
    pub text: Option<u32>,
    pub breach: Option<u32>,
    pub unknown: Option<u32>,
}

/// The most that a tree may be high.
pub const MOST_HEIGHT: u32 = 64;

fn higher(height: u32) -> u32
    ensures { result ≡ min 65 (height + 1) }
{
    if height > MOST_HEIGHT { 65 } else { height + 1 }
}

fn greater(a: u32, b: u32) -> u32
    ensures { result ≡ max a b }
{
    if a < b { b } else { a }
}

fn first_place(a: Option<u32>, b: Option<u32>) -> Option<u32>
    ensures { result ≡ option_or a b }
{
    match a {
        None => b,
        Some(place) => Some(place),
    }
}

fn lesser(a: u32, b: u32) -> u32
    ensures { result ≡ min a b }
{
    if b < a { b } else { a }
}

/// The lesser of two places, where there are two.
pub fn least_place(a: Option<u32>, b: Option<u32>) -> Option<u32>
    ensures { result ≡ least a b }
{
    match a {
        None => b,
        Some(left) => match b {
            None => Some(left),
            Some(right) => Some(lesser(left, right)),
        },
    }
}

/// Whether a number meets a text.
pub fn differ(a: Sort, b: Sort) -> bool
    ensures { result ≡ sorts_differ a b }
{
    match a {
        Sort::Number => match b {
            Sort::Text => true,
            _ => false,
        },
        Sort::Text => match b {
            Sort::Number => true,
            _ => false,
        },
        Sort::Any => false,
    }
}

impl Facts {
    /// Of an operand that is not read yet.
    pub fn gap() -> Facts
        ensures { result ≡ leaf_facts 0 Any None }
    {
        Facts::leaf(0, Sort::Any, None)
    }

    /// Of an operand of one word, or of a number and its sign.
    pub fn leaf(place: u32, sort: Sort, unknown: Option<u32>) -> Facts
        ensures { result ≡ leaf_facts place sort unknown }
    {
        Facts {
            height: 1,
            place,
            sort,
            text: None,
            breach: None,
            unknown,
        }
    }

    /// The place of the operand, where it is a text.
    fn own_text(self) -> Option<u32>
        ensures { result ≡ place_of_text self.sort self.place }
    {
        match self.sort {
            Sort::Text => Some(self.place),
            _ => None,
        }
    }

    /// The place of the first text in it as an operand of arithmetic.
    fn first_text(self) -> Option<u32>
        ensures { result ≡ text_in self }
    {
        first_place(self.text, self.own_text())
    }

    /// The breach where two sides are compared.
    fn compared_with(self, right: Facts) -> Option<u32>
        ensures { result ≡ compared self right }
    {
        let differs = if differ(self.sort, right.sort) {
            Some(right.place)
        } else {
            None
        };
        first_place(self.text, first_place(right.text, differs))
    }

    fn sign_breach(word: &Word, operand: Facts) -> Option<u32>
        ensures { result ≡ sign_breach word.now operand }
    {
        match word {
            Word::Not => operand.breach,
            _ => operand.first_text(),
        }
    }

    /// Of NOT or a `-` before an operand.
    pub fn sign(token: &Token, operand: Facts) -> Facts
        ensures { result ≡ sign_facts token.now.word token.now.place operand }
    {
        Facts {
            height: higher(operand.height),
            place: token.place,
            sort: Sort::Number,
            text: operand.first_text(),
            breach: Facts::sign_breach(&token.word, operand),
            unknown: operand.unknown,
        }
    }

    fn two_breach(self, word: &Word, right: Facts) -> Option<u32>
        ensures { result ≡ two_breach word.now self right }
    {
        match word {
            Word::And | Word::Or => least_place(self.breach, right.breach),
            Word::Compare(_) => self.compared_with(right),
            _ => first_place(self.first_text(), right.first_text()),
        }
    }

    /// Of two operands and the word between them.
    pub fn two(self, word: &Word, right: Facts) -> Facts
        ensures { result ≡ two_facts word.now self right }
    {
        Facts {
            height: higher(greater(self.height, right.height)),
            place: self.place,
            sort: Sort::Number,
            text: first_place(self.first_text(), right.first_text()),
            breach: self.two_breach(word, right),
            unknown: least_place(self.unknown, right.unknown),
        }
    }

    /// Of BETWEEN whose upper end is not read yet.
    pub fn lower(self, low: Facts) -> Facts
        ensures { result ≡ lower_facts self low }
    {
        Facts {
            height: higher(higher(greater(self.height, low.height))),
            place: self.place,
            sort: Sort::Any,
            text: None,
            breach: self.compared_with(low),
            unknown: least_place(self.unknown, low.unknown),
        }
    }

    /// Of BETWEEN.
    pub fn range(self, low: Facts, high: Facts) -> Facts
        ensures { result ≡ range_facts self low high }
    {
        Facts {
            height: higher(higher(greater(self.height, greater(low.height, high.height)))),
            place: self.place,
            sort: Sort::Any,
            text: None,
            breach: least_place(self.compared_with(low), self.compared_with(high)),
            unknown: least_place(self.unknown, least_place(low.unknown, high.unknown)),
        }
    }

    /// Of IS NULL and IS NOT NULL.
    pub fn nullness(self) -> Facts
        ensures { result ≡ nullness_facts self }
    {
        Facts {
            height: higher(self.height),
            place: self.place,
            sort: Sort::Any,
            text: None,
            breach: self.text,
            unknown: self.unknown,
        }
    }

    /// Of an operand in parentheses that open at a place.
    pub fn paren(self, place: u32) -> Facts
        ensures { result ≡ paren_facts place self }
    {
        Facts {
            height: self.height,
            place,
            sort: self.sort,
            text: self.text,
            breach: self.breach,
            unknown: self.unknown,
        }
    }
}
