//! The kinds of pieces.

/// A word symbol, in lower case.
pub const WORD: u8 = 0;

/// An identifier, in lower case.
pub const IDENTIFIER: u8 = 1;

/// An unsigned number as it is spelled, in lower case.
pub const NUMBER: u8 = 2;

/// A character string, with its quotes.
pub const STRING: u8 = 3;

/// A special symbol in its first spelling.
pub const SYMBOL: u8 = 4;

/// A comment: the bytes between its marks.
pub const COMMENT: u8 = 5;
