//! Records that are open by `with` (ISO 10206, 6.9.3.10).

use crate::fields::FieldTypes;
use crate::parameter::Protection;
use crate::structure::FieldType;
use ep_base::Name;

/// The variable that stands for an open record.
#[derive(Clone, Copy, Drop)]
pub enum RecordVariable<'a> {
    /// That of this number of the unit of this name.
    Unit(&'a Name, u32),
    /// That of this number of the routine in whose block the record is open.
    Own(u32),
}

/// A record whose fields are known by their names alone.
#[derive(Clone, Copy, Drop)]
pub struct OpenRecord<'a> {
    /// The variable that stands for it.
    pub variable: RecordVariable<'a>,
    /// Whether it is protected.
    pub protection: Protection,
    /// Its fields, with its tags and those of its variants, in order.
    pub fields: &'a FieldTypes,
}

/// A field of an open record.
#[derive(Clone, Copy, Drop)]
pub struct OpenField<'a> {
    /// The variable that stands for the record.
    pub variable: RecordVariable<'a>,
    /// Whether it is protected.
    pub protection: Protection,
    /// The field.
    pub field: &'a FieldType,
}
