//! Type denoters (ISO 10206, 6.4.1).

use crate::tree::CaseRanges;
use crate::value::Value;
use ep_base::{Boxed, List, Name, Names};

/// A required type that a denoter may name (ISO 10206, 6.4.2.2).
#[derive(Clone, Copy, Drop)]
pub enum RequiredType {
    /// `integer`
    Integer,
    /// `char`
    Char,
    /// `Boolean`
    Boolean,
}

/// A bound of a type.
#[derive(Clone, Copy, Drop)]
pub enum Bound {
    /// A constant, by its ordinal number.
    Constant(i64),
}

/// An owned list of bounds.
pub type Bounds = List<Bound>;

/// An owned list of fields.
pub type RecordFields = List<RecordField>;

/// An owned list of variants.
pub type Variants = List<Variant>;

/// A type denoter, in which every name is settled.
#[cycle(denoters)]
#[derive(Drop)]
pub enum Denoter {
    /// A required type.
    Required(RequiredType),
    /// The type at this place of the unit's list of types, counted from 0, with the bounds of its tuple.
    Named(u32, Bounds),
    /// A subrange: the denoter of its host type, and its least and its greatest value (ISO 10206, 6.4.2.4).
    Subrange(Boxed<Denoter>, Bound, Bound),
    /// An enumeration, by its constants in order (ISO 10206, 6.4.2.3).
    Enumeration(Names),
    /// An array: the denoters of its index type and of its components (ISO 10206, 6.4.3.2).
    Array(Boxed<Denoter>, Boxed<Denoter>),
    /// A record, by its fields and its variant part (ISO 10206, 6.4.3.4).
    Record(FieldPart),
    /// A set, by the denoter of its base type (ISO 10206, 6.4.3.5).
    Set(Boxed<Denoter>),
    /// A type with an initial state, which is a constant (ISO 10206, 6.6).
    Initial(Boxed<Denoter>, Value),
}

/// The fields of a record or of a variant, in order, and its variant part, where it has one.
#[cycle(denoters)]
#[derive(Drop)]
pub struct FieldPart {
    /// The fields.
    pub fields: RecordFields,
    /// The variant part.
    pub variant_part: Option<Boxed<VariantPart>>,
}

/// A field of a record.
#[cycle(denoters)]
#[derive(Drop)]
pub struct RecordField {
    /// Its name.
    pub name: Name,
    /// The denoter of its type.
    pub denoter: Denoter,
}

/// A variant part (ISO 10206, 6.4.3.4).
#[cycle(denoters)]
#[derive(Drop)]
pub struct VariantPart {
    /// What selects a variant.
    pub selector: Selector,
    /// The variants in order, each with labels of its own.
    pub variants: Variants,
    /// The variant that is selected by every value which no label has, where there is one.
    pub completing: Option<Boxed<FieldPart>>,
}

/// What selects a variant.
#[cycle(denoters)]
#[derive(Drop)]
pub enum Selector {
    /// A tag field, by its name and the denoter of its type.
    Tag(Name, Boxed<Denoter>),
}

/// A variant.
#[cycle(denoters)]
#[derive(Drop)]
pub struct Variant {
    /// Its labels.
    pub ranges: CaseRanges,
    /// Its fields, and the variant part in it.
    pub part: FieldPart,
}
