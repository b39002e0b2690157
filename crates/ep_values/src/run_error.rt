//! The numbers of run errors.

/// A value is used that is undefined.
pub const UNDEFINED_VALUE: u8 = 1;
/// A value is outside the type of what it is given to.
pub const OUTSIDE_TYPE: u8 = 2;
/// An index is outside the index type.
pub const INDEX: u8 = 3;
/// A discriminant is outside its type.
pub const DISCRIMINANT: u8 = 4;
/// A tuple is outside the domain of its schema.
pub const OUTSIDE_DOMAIN: u8 = 5;
/// Two types that have to be the same come from tuples that differ.
pub const TUPLES_DIFFER: u8 = 6;
/// A string is longer than the capacity.
pub const CAPACITY: u8 = 7;
/// A result is no integer from `-maxint` to `maxint`.
pub const OVERFLOW: u8 = 8;
/// A divisor is zero, or negative where it must be positive.
pub const DIVISOR: u8 = 9;
/// `nil` is followed or disposed of.
pub const NIL: u8 = 10;
/// A variable is used after it was disposed of.
pub const DISPOSED: u8 = 11;
/// No label of a `case` is the value, and there is no `otherwise`.
pub const NO_CASE: u8 = 12;
/// A component of a variant is used that is not active.
pub const INACTIVE_VARIANT: u8 = 13;
/// `chr`, `succ` or `pred` has no value there.
pub const SUCCESSOR: u8 = 14;
/// A part of a string is not within it.
pub const SUBSTRING: u8 = 15;
/// A file is read past its end.
pub const PAST_END: u8 = 16;
/// What is read is not an integer.
pub const NOT_AN_INTEGER: u8 = 17;
/// A file is not in the state that is needed.
pub const FILE_STATE: u8 = 18;
/// A variable is bound that is bound already.
pub const BOUND_ALREADY: u8 = 19;
/// The file that a variable is bound to is missing.
pub const FILE_MISSING: u8 = 20;
/// The width of a written value is negative.
pub const NEGATIVE_WIDTH: u8 = 21;
/// A function ends and its result is undefined.
pub const RESULT_UNDEFINED: u8 = 22;
/// A member of a set is outside the base type.
pub const SET_MEMBER: u8 = 23;
/// More storage is needed than a run has.
pub const STORAGE_LIMIT: u8 = 24;
/// More calls are under way than a run may have.
pub const CALL_DEPTH: u8 = 25;
/// The greatest of these numbers.
pub const LAST: u8 = CALL_DEPTH;
