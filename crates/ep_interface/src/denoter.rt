//! Type denoters in interfaces (ISO 10206, 6.4.1).

use crate::value::{BoundPairs, EntryBound, EntryBounds, EntryValue};
use ep_base::{Boxed, List, Name, Names};

/// A required type that a denoter may name (ISO 10206, 6.4.2.2).
#[derive(Clone, Copy, Drop)]
pub enum EntryRequired {
    /// `integer`
    Integer,
    /// `char`
    Char,
    /// `Boolean`
    Boolean,
    /// `text`
    Text,
    /// The type of `nil`.
    Nil,
    /// `string(255)`
    LongString,
    /// The type of the value of `binding`.
    BindingType,
}

/// An owned list of fields.
pub type EntryFields = List<EntryField>;

/// An owned list of variants.
pub type EntryVariants = List<EntryVariant>;

/// A type denoter, with all that is nested in it.
#[cycle(entries)]
#[derive(Drop)]
pub enum EntryDenoter {
    /// A required type.
    Required(EntryRequired),
    /// The type at this place of the interface's list of types, counted from 0, with the bounds of its tuple.
    Named(u32, EntryBounds),
    /// A subrange: the denoter of its host type, and its least and its greatest value (ISO 10206, 6.4.2.4).
    Subrange(Boxed<EntryDenoter>, EntryBound, EntryBound),
    /// An enumeration, by its constants in order (ISO 10206, 6.4.2.3).
    Enumeration(Names),
    /// A pointer, by the denoter of its domain type (ISO 10206, 6.4.4).
    Pointer(Boxed<EntryDenoter>),
    /// An array: whether it is packed, and the denoters of its index type and of its components (ISO 10206, 6.4.3.2).
    Array(bool, Boxed<EntryDenoter>, Boxed<EntryDenoter>),
    /// A record: whether it is packed, and its fields (ISO 10206, 6.4.3.4).
    Record(bool, EntryFieldPart),
    /// A set, by the denoter of its base type (ISO 10206, 6.4.3.5).
    Set(Boxed<EntryDenoter>),
    /// A string type, by its capacity (ISO 10206, 6.4.3.3).
    String(EntryBound),
    /// A restricted type (ISO 10206, 6.4.5).
    Restricted(Boxed<EntryDenoter>),
    /// A text file type that is bindable (ISO 10206, 6.4.1).
    BindableText,
    /// A type with an initial state (ISO 10206, 6.6).
    Initial(Boxed<EntryDenoter>, EntryValue),
    /// A schema without a tuple: one more than its place in the interface's list of types, or 0 for `string`.
    Schema(u32),
}

/// The fields of a record or of a variant, in order, and its variant part, where it has one.
#[cycle(entries)]
#[derive(Drop)]
pub struct EntryFieldPart {
    /// The fields.
    pub fields: EntryFields,
    /// The variant part.
    pub variant_part: Option<Boxed<EntryVariantPart>>,
}

/// A field of a record.
#[cycle(entries)]
#[derive(Drop)]
pub struct EntryField {
    /// Its name.
    pub name: Name,
    /// Whether it stands in the section of the field before it, and so has the same denoter as written.
    pub in_section: bool,
    /// The denoter of its type.
    pub denoter: Boxed<EntryDenoter>,
}

/// A variant part (ISO 10206, 6.4.3.4).
#[cycle(entries)]
#[derive(Drop)]
pub struct EntryVariantPart {
    /// What selects a variant.
    pub selector: EntrySelector,
    /// The variants in order.
    pub variants: EntryVariants,
    /// The variant that is selected by every value which no label has, where there is one.
    pub completing: Option<Boxed<EntryFieldPart>>,
}

/// What selects a variant.
#[cycle(entries)]
#[derive(Drop)]
pub enum EntrySelector {
    /// A tag field, by its name and the denoter of its type.
    Tag(Name, Boxed<EntryDenoter>),
    /// The discriminant of this number.
    Discriminant(u32),
}

/// A variant.
#[cycle(entries)]
#[derive(Drop)]
pub struct EntryVariant {
    /// Its labels.
    pub labels: BoundPairs,
    /// Its fields, and the variant part in it.
    pub part: EntryFieldPart,
}
