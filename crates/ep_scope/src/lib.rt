//! What names stand for.
//!
//! Promise: a name means the nearest declaration of the row of scopes, or else the required identifier, and `Scopes`
//! answers exactly that. It stands on ep_typed for the types and constants that are declared, and on no syntax tree.
//! Open specs/Scopes.antt first.
//! To change what a name means: specs/Scopes.antt, src/meaning.rt, src/scopes.rt, and src/view.rt for what code sees.
//! A required identifier: specs/Required.antt, src/required.rt. The number of a static rule: src/rule.rt. What is
//! declared of a name: src/thing.rt, of parameters src/parameter.rt, of structured types src/structure.rt, and how they
//! and the fields of records are found src/structures.rt and src/fields.rt with specs/Numbers.antt and specs/Fields.antt.
//! Kinds: src/kind.rt, specs/Kinds.antt. Which standard files code may use: src/standard.rt, specs/Standard.antt. Records
//! that `with` opens: src/record.rt, specs/Records.antt, and how their fields are found src/layer.rt, specs/Layers.antt.
#![tactic(auto)]

mod entries;
mod fields;
mod kind;
mod layer;
mod meaning;
mod parameter;
mod record;
mod required;
pub mod rule;
mod scope;
mod scopes;
mod standard;
mod structure;
mod structures;
mod thing;
mod view;

pub use fields::{FieldTypes, field_number};
pub use kind::{Enumeration, Host, Kind, same_host};
pub use meaning::Meaning;
pub use parameter::{
    FormalParameter, FormalParameters, Protection, TypeName, WrittenType, copied_parameters,
    protection_of, same_parameters, same_type,
};
pub use record::{OpenField, OpenRecord, RecordVariable};
pub use required::{Function, Procedure, Required, RequiredConstant, required_identifier};
pub use scope::{Scope, ScopeRefusal};
pub use scopes::Scopes;
pub use standard::StandardFiles;
pub use structure::{
    ArrayType, Composition, FieldType, StructuredType, TagType, VariantPath, VariantStep,
};
pub use thing::{Declaration, Declared, Thing};
pub use view::{Inner, View, depth_in, meaning_in, meaning_of, structure_of};
