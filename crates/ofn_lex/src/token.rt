//! Tokens, and the fault that none begins.

use thiserror::Error;

/// What a token is.
#[derive(Clone, Copy, Debug, PartialEq, Eq)]
pub enum TokenKind {
    /// `(`
    Open,
    /// `)`
    Close,
    /// `=`
    Equals,
    /// An IRI between `<` and `>`, perhaps empty.
    FullIri,
    /// A text between quotation marks, in which `\"` and `\\` stand for one character each.
    Quoted,
    /// A language tag after its `@`.
    Lang,
    /// `^^`
    Carets,
    /// A word or, if it has a colon, an abbreviated IRI.
    Run,
}

/// A token and the bytes that it takes up, marks and brackets included: from `start` up to `end`.
#[derive(Clone, Copy, Debug, PartialEq, Eq)]
pub struct Token {
    pub kind: TokenKind,
    pub start: usize,
    pub end: usize,
}

/// At this byte, which is neither white space nor in a comment, no token begins.
#[derive(Clone, Copy, Debug, PartialEq, Eq, Error)]
#[error("no token begins at byte {offset}")]
pub struct LexFault {
    pub offset: usize,
}
