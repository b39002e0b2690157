//! Operators and names, which contain no other node.

use ep_base::{Line, Name};

/// A name, or an interface's name and a constituent's: `id [ "." id ]`.
pub struct QualifiedName {
    pub line: Line,
    pub first: Name,
    pub second: Option<Name>,
}

impl Drop for QualifiedName {
    fn drop(self) {
        let QualifiedName {
            line: _,
            first: _,
            second: _,
        } = self;
    }
}

/// A relational operator (ISO 10206, 6.8.1).
#[derive(Clone, Copy, PartialEq, Eq, Debug)]
pub enum RelationalOperator {
    /// `=`
    Equal,
    /// `<>`
    NotEqual,
    /// `<`
    Less,
    /// `>`
    Greater,
    /// `<=`
    AtMost,
    /// `>=`
    AtLeast,
    /// `in`
    In,
}

/// A sign before a term.
#[derive(Clone, Copy, PartialEq, Eq, Debug)]
pub enum Sign {
    /// `+`
    Plus,
    /// `-`
    Minus,
}

/// An adding operator (ISO 10206, 6.8.1).
#[derive(Clone, Copy, PartialEq, Eq, Debug)]
pub enum AddingOperator {
    /// `+`
    Plus,
    /// `-`
    Minus,
    /// `><`
    SymmetricDifference,
    /// `or`
    Or,
    /// `or_else`
    OrElse,
}

/// A multiplying operator (ISO 10206, 6.8.1).
#[derive(Clone, Copy, PartialEq, Eq, Debug)]
pub enum MultiplyingOperator {
    /// `*`
    Times,
    /// `div`
    Div,
    /// `mod`
    Mod,
    /// `and`
    And,
    /// `and_then`
    AndThen,
}

/// The direction of a `for` statement.
#[derive(Clone, Copy, PartialEq, Eq, Debug)]
pub enum Direction {
    /// `to`
    To,
    /// `downto`
    Downto,
}
