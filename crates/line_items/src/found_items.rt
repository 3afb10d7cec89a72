use file_text::{Keyword, Spot};
use line_words::{ItemWord, NodeWord};
use row_types::Bytes;

/// What a part of a line is. A number past 128 bits is the greatest of 128 bits.
#[derive(Drop)]
pub enum LineItem {
    /// a word in capitals
    Word(Keyword),
    Sign(u8),
    Name(Bytes),
    /// of the file's form
    Version(u128),
    /// of replicas
    Count(u128),
    /// of a VARCHAR
    Length(u128),
    Node(NodeWord),
    Session(u128),
    Local { replica: u128, session: u128 },
    /// a word of a schedule
    Turns(ItemWord),
    /// a number of a ROW
    Digits(u128),
    /// a text of a ROW, without its quotes
    Quote(Bytes),
}

/// An item at a place of a line, and the place behind it.
#[derive(Drop)]
pub struct FoundItem {
    pub item: LineItem,
    pub next: Spot,
}
