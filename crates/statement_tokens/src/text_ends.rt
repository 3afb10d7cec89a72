/// How a text ends. Places are bytes from 1.
#[derive(Clone, Copy, Debug, PartialEq, Eq)]
pub enum TextEnd {
    /// All of it is tokens and spaces; the place is one past its last byte that is no space.
    Whole { past: u32 },
    /// What begins at the place is no token.
    NoToken { place: u32 },
}
