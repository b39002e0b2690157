//! What a run may use at most.

/// The most words that may live. A variable counts its words and one more, and a type that was added counts one, and one more for each type that it is made of.
pub const LIVE_WORDS: u64 = 16_777_216;
/// The most words that a variable of a type may have.
pub const TYPE_WORDS: u64 = 16_777_216;
/// The most types that there may be.
pub const TYPES: u64 = 1_048_576;
/// The most calls that may be under way.
pub const CALLS: usize = 10_000;
