//! What an expression is the bare name of.

use ep_scope::{Protection, TagType, TypeName};

/// What an expression is the bare name of (ISO 10206, 6.5.1). One with an operator or in parentheses is a value.
#[derive(Drop)]
pub enum Access {
    /// A variable of this type, which may be protected.
    Variable(TypeName, Protection),
    /// A variable that is the tag of a record, alike, with what it selects (ISO 10206, 6.4.3.4).
    Tag(TypeName, Protection, TagType),
    /// A standard file.
    File,
    /// A constant.
    Constant,
    /// No name alone, or that of a function.
    Value,
}
