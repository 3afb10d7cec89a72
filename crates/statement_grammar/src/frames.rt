use statement_tokens::Token;

/// What is open, and waits for the operand behind it.
#[derive(Debug, Drop)]
pub enum Frame<X> {
    /// a word before its operand
    Before(Token),
    /// a word between two operands, and its left operand
    Behind(X, Token),
    /// BETWEEN waits for its lower end
    Low(X, Token),
    /// BETWEEN waits for its upper end
    High(X, Token, X, Token),
    /// an open parenthesis, and whether a condition may stand in it
    Opened(Token, bool),
}
