//! Operators and the required functions that are built.

/// An operator or a required function of one operand.
#[derive(Clone, Copy, Drop)]
pub enum Unary {
    /// The value as it is: the sign `+`, and `ord`.
    Same,
    /// The sign `-`.
    Negate,
    /// `not`
    Not,
    /// `abs`
    Absolute,
    /// `sqr`
    Square,
    /// `odd`
    Odd,
    /// `chr`
    Character,
}

/// An operator of two operands.
#[derive(Clone, Copy, Drop)]
pub enum Binary {
    /// `+`
    Add,
    /// `-`
    Subtract,
    /// `*`
    Multiply,
    /// `div`
    Divide,
    /// `mod`
    Modulo,
    /// `and`
    And,
    /// `or`
    Or,
    /// `=`
    Equal,
    /// `<>`
    Unequal,
    /// `<`
    Less,
    /// `>`
    Greater,
    /// `<=`
    AtMost,
    /// `>=`
    AtLeast,
}

/// An operator of two Booleans whose right operand is evaluated only where the left one decides nothing.
#[derive(Clone, Copy, Drop)]
pub enum ShortOperation {
    /// `and_then`
    AndThen,
    /// `or_else`
    OrElse,
}

/// An operator of which at least the right operand is a set (ISO 10206, 6.8.3.4 and 6.8.3.5).
#[derive(Clone, Copy, Drop)]
pub enum SetOperation {
    /// `+`
    Union,
    /// `-`
    Difference,
    /// `*`
    Intersection,
    /// `><`
    SymmetricDifference,
    /// `=`
    Equal,
    /// `<>`
    Unequal,
    /// `<=`
    Subset,
    /// `>=`
    Superset,
    /// `in`
    In,
}

/// How a value is printed.
#[derive(Clone, Copy, Drop)]
pub enum Print {
    /// As an integer.
    Integer,
    /// As a char.
    Char,
    /// As a Boolean.
    Boolean,
    /// As a text.
    Text,
}
