//! What a token is.

use ep_base::{Bytes, Line, Name};

/// A token: the bytes `start..end` of the source, on the line where it begins.
#[derive(Drop)]
pub struct Token {
    pub kind: TokenKind,
    pub line: Line,
    pub start: u32,
    pub end: u32,
}

/// The kind of a token, with what it means (ISO 10206, 6.1).
#[derive(Drop)]
pub enum TokenKind {
    /// A word symbol, one of `word`.
    Word(u8),
    /// An identifier, in lower case.
    Id(Name),
    /// An unsigned number, at most maxint.
    Number(i64),
    /// A character string: the bytes between its quotes, where each doubled quote is one.
    Str(Bytes),
    /// A special symbol, one of `symbol`.
    Sym(u8),
}
