// A source and a sink that never fail.
ghost use Rattle.std.specs.Prelude.{◌≡◌, List, ℕ, None, Some};

use super::unread::Unread;
use super::{Failed, Sink, Source};
use std::marker::Model;

/// Gives the bytes that it was made with, and has no faults.
#[derive(Drop)]
pub struct PlainSource {
    unread: Unread,
}

// A plain source is the list of the bytes that are left.
impl Model for PlainSource {
    ghost Value = { List ℕ };

    ghost view = { λ s. s.unread };
}

impl PlainSource {
    pub fn new(bytes: Vec<u8>) -> PlainSource
        ensures { result ≡ bytes.items }
    {
        PlainSource {
            unread: Unread::new(bytes),
        }
    }
}

impl Source for PlainSource {
    ghost left = { λ s. Some s };

    ghost faults = { λ _. 0 };

    fn read(&mut self, buf: &mut [u8]) -> Result<usize, Failed> {
        Ok(self.unread.take(buf))
    }
}

/// Takes every piece whole, keeps none of its bytes, and has no faults.
#[derive(Clone, Copy, Debug, Default, PartialEq, Eq)]
pub struct PlainSink;

impl PlainSink {
    pub fn new() -> PlainSink {
        PlainSink
    }
}

impl Sink for PlainSink {
    ghost written = { λ _. None };

    ghost faults = { λ _. 0 };

    fn write(&mut self, piece: &[u8]) -> Result<usize, Failed> {
        Ok(piece.len())
    }
}
