//! Structured types, as the static rules see them.

ghost use Rattle.std.specs.Prelude.{◌≡◌, IfOk};
ghost use Rattle.std.specs.Option.{option_copied};
ghost use Rattle.ep_scope.specs.Scopes.{structure_in};

use crate::fields::FieldTypes;
use crate::kind::{Host, Kind};
use crate::parameter::TypeName;
use crate::scope::Scope;
use ep_base::{List, Name, NoMemory};
use ep_typed::SharedSelection;

/// A structured type of a unit (ISO 10206, 6.4.3.1).
pub struct StructuredType {
    /// Its number among the types of the unit.
    pub number: u32,
    /// What it is made of.
    pub composition: Composition,
}

impl Drop for StructuredType {
    fn drop(self) {
        let StructuredType {
            number: _,
            composition: _,
        } = self;
    }
}

/// What a structured type is made of.
pub enum Composition {
    /// An array (ISO 10206, 6.4.3.2).
    Array(ArrayType),
    /// A record with these fields, tags and fields of variants among them, in the order of the text (ISO 10206, 6.4.3.4).
    Record(FieldTypes),
}

impl Drop for Composition {
    fn drop(self) {
        match self {
            Composition::Array(_) => {}
            Composition::Record(_) => {}
        }
    }
}

/// An array type (ISO 10206, 6.4.3.2).
#[derive(Clone, Copy, Drop)]
pub struct ArrayType {
    /// The host of its index type.
    pub index: Host,
    /// The least value of its index type.
    pub low: i64,
    /// The greatest one.
    pub high: i64,
    /// The type of its components.
    pub component: TypeName,
    /// Their kind.
    pub kind: Kind,
}

/// A field of a record type, also a tag or a field of a variant, however deep (ISO 10206, 6.4.3.4).
pub struct FieldType {
    /// Its name.
    pub name: Name,
    /// Its type.
    pub of: TypeName,
    /// The kind of its type.
    pub kind: Kind,
    /// The variants in which it is, the outermost first. A field of the record itself is in none.
    pub path: VariantPath,
    /// The number of the component that it is of the record, or of the innermost of these variants. A tag is the one
    /// component of a record that has this number.
    pub number: u32,
    /// What it selects, where it is a tag.
    pub tag: Option<TagType>,
}

impl Drop for FieldType {
    fn drop(self) {
        let FieldType {
            name: _,
            of: _,
            kind: _,
            path: _,
            number: _,
            tag: _,
        } = self;
    }
}

/// The step from a record, or from a variant, to a variant of its variant part.
pub struct VariantStep {
    /// How the variants of that part are selected.
    pub selection: SharedSelection,
    /// The number of the variant among them, counted from 0.
    pub variant: u32,
}

impl Drop for VariantStep {
    fn drop(self) {
        let VariantStep {
            selection: _,
            variant: _,
        } = self;
    }
}

/// Steps from a record to a variant in it, the first one first.
pub type VariantPath = List<VariantStep>;

/// The tag of a variant part (ISO 10206, 6.4.3.4).
pub struct TagType {
    /// How it selects the variants.
    pub selection: SharedSelection,
    /// The host of its type.
    pub host: Host,
    /// The least value of its type.
    pub low: i64,
    /// The greatest one.
    pub high: i64,
}

impl Drop for TagType {
    fn drop(self) {
        let TagType {
            selection: _,
            host: _,
            low: _,
            high: _,
        } = self;
    }
}

impl TagType {
    /// The same tag.
    pub fn share(&self) -> Result<TagType, NoMemory>
        ensures { IfOk result (λ tag. tag ≡ self.now) }
    {
        Ok(TagType {
            selection: self.selection.share()?,
            host: self.host,
            low: self.low,
            high: self.high,
        })
    }
}

/// What the structured type of this number is made of in these scopes. `None` comes exactly where none of them has it.
pub(crate) fn structure_among(scopes: &[Scope], number: u32) -> Option<&Composition>
    ensures { option_copied result ≡ structure_in scopes.now number }
{
    for scope in scopes {
        if let Some(composition) = scope.structure(number) {
            return Some(composition);
        }
    }
    None
}
