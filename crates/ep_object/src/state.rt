//! What the state of a machine is made of, where contracts and code see the same.

use crate::code::Words;
use ep_base::List;

/// The number of the type of text files.
pub const TEXT_TYPE: u32 = 3;

/// The segment of `input`.
pub const INPUT_SEGMENT: u64 = 1;

/// The segment of `output`.
pub const OUTPUT_SEGMENT: u64 = 2;

/// How many ordinals may be members of a set, from 0 on.
pub const SET_MEMBERS: u32 = 256;

/// How many words a set takes.
pub const SET_WORDS: u32 = 8;

/// Of how many ordinals each word of a set tells whether they are members.
pub const WORD_MEMBERS: u32 = 32;

/// How many words of `input` and `output` live.
pub const FIRST_LIVE_WORDS: u64 = 4;

/// Where a variable is.
#[derive(Clone, Copy, Drop)]
pub struct Place {
    /// The number of its segment.
    pub segment: u64,
    /// The words of the segment before it.
    pub offset: u32,
    /// The number of its type in the type table.
    pub type_number: u32,
}

/// Where a frame is.
#[derive(Clone, Copy, Drop)]
pub enum FrameNumber {
    /// It is that of the unit of this number.
    Unit(usize),
    /// It is that of a call under way, over so many others.
    Call(usize),
}

/// The words of an allocation, that is a variable of its own.
#[derive(Drop)]
pub struct Segment {
    /// The number of its type in the type table.
    pub type_number: u32,
    /// Its words.
    pub words: Words,
}

/// A component of a record type.
#[derive(Clone, Copy, Drop)]
pub struct RecordPart {
    /// The number of its type in the type table.
    pub type_number: u32,
    /// How many words of the record are before it.
    pub offset: u32,
}

/// An owned list of the components of a record type.
pub type RecordParts = List<RecordPart>;

/// What kind of type it is.
#[derive(Drop)]
pub enum TypeKind {
    /// An ordinal type with its bounds.
    Ord(i64, i64),
    /// A pointer type.
    Pointer,
    /// The type of text files.
    Text,
    /// An array type with the bounds of its index type, and the number of the type of its components.
    Array(i64, i64, u32),
    /// A record type with its components in order.
    Record(RecordParts),
    /// A set type with the bounds of its base type.
    Set(i64, i64),
}

/// An entry of the type table.
#[derive(Drop)]
pub struct TypeEntry {
    /// Its kind.
    pub kind: TypeKind,
    /// How many words a variable of the type takes.
    pub size: u32,
    /// The words that a variable of the type begins with, where the type has an initial state, or
    /// one that it is made of.
    pub start: Option<Words>,
    /// The number of its bare form, which is the same type without initial states, where it is not its own.
    pub bare: Option<u32>,
}
