//! The values of constants in interfaces, and the bounds of their types.

use ep_base::{Boxed, Bytes, List};

/// An operation on bounds (ISO 10206, 6.4.2.4).
#[derive(Clone, Copy, Drop)]
pub enum BoundOperation {
    /// `+`
    Add,
    /// `-`
    Subtract,
    /// `*`
    Multiply,
    /// `div`
    Divide,
    /// `mod`
    Modulo,
}

/// A bound of a type.
#[cycle(bounds)]
#[derive(Drop)]
pub enum EntryBound {
    /// A constant, by its ordinal number.
    Constant(i64),
    /// The discriminant of this number of the schema in which it stands (ISO 10206, 6.4.7).
    Discriminant(u32),
    /// An operation on two bounds.
    Operation(BoundOperation, Boxed<EntryBound>, Boxed<EntryBound>),
    /// The negative of a bound.
    Negative(Boxed<EntryBound>),
}

/// An owned list of bounds.
pub type EntryBounds = List<EntryBound>;

/// The first and the last value of a label, or of the indexes of components.
pub struct BoundPair {
    /// The first one.
    pub low: EntryBound,
    /// The last one.
    pub high: EntryBound,
}

impl Drop for BoundPair {
    fn drop(self) {
        let BoundPair { low: _, high: _ } = self;
    }
}

/// An owned list of labels.
pub type BoundPairs = List<BoundPair>;

/// The ordinal numbers of the members of a set.
pub type Members = List<i64>;

/// An owned list of what components of an array are given.
pub type ArrayElements = List<ArrayElement>;

/// An owned list of what fields of a record are given.
pub type NumberedValues = List<NumberedValue>;

/// The value of a constant (ISO 10206, 6.3.1).
#[cycle(values)]
#[derive(Drop)]
pub enum EntryValue {
    /// A value of an ordinal type, by its ordinal number.
    Word(i64),
    /// A text.
    Text(Bytes),
    /// A set, by the ordinal numbers of its members in rising order.
    Set(Members),
    /// An array, by what components with these indexes are given, and what all others are, where they are (ISO 10206,
    /// 6.8.7.2).
    Array(ArrayElements, Option<Boxed<EntryValue>>),
    /// A record (ISO 10206, 6.8.7.3).
    Record(Boxed<RecordValue>),
}

/// What components of an array with these indexes are given.
#[cycle(values)]
#[derive(Drop)]
pub struct ArrayElement {
    /// Their indexes.
    pub indexes: BoundPairs,
    /// What they are given.
    pub value: Boxed<EntryValue>,
}

/// The value of a record or of a variant of one.
#[cycle(values)]
#[derive(Drop)]
pub struct RecordValue {
    /// What its fields are given, in rising order of their numbers.
    pub fields: NumberedValues,
    /// Its variant, where it has one.
    pub variant: Option<Boxed<TagValue>>,
}

/// What a field of a record is given.
#[cycle(values)]
#[derive(Drop)]
pub struct NumberedValue {
    /// The number of the field, counted from 0.
    pub number: u32,
    /// What it is given.
    pub value: Boxed<EntryValue>,
}

/// The variant of a record: the value of the tag, and the fields of the variant.
#[cycle(values)]
#[derive(Drop)]
pub struct TagValue {
    /// The value that selects the variant.
    pub tag: i64,
    /// What the variant is given.
    pub value: RecordValue,
}
