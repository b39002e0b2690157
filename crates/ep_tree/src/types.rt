//! Type denoters (ISO 10206, 6.4).

use crate::expression::{ComponentValue, Expression, Label};
use crate::operator::QualifiedName;
use ep_base::{Boxed, Line, List, Name, Names};

/// `type = plain [ "value" cvalue ]`
#[cycle(types)]
#[derive(Drop)]
pub struct TypeDenoter {
    pub line: Line,
    pub plain: Boxed<Plain>,
    pub initial: Option<ComponentValue>,
}

/// `plain = [ "bindable" ] core`
#[cycle(types)]
#[derive(Drop)]
pub struct Plain {
    pub line: Line,
    pub bindable: bool,
    pub core: Core,
}

/// `core`
#[cycle(types)]
#[derive(Drop)]
pub enum Core {
    /// `name [ "(" expr { "," expr } ")" ]`
    Named(Line, QualifiedName, List<Expression>),
    /// `expr ".." expr`
    Range(Line, Boxed<Expression>, Boxed<Expression>),
    /// `"(" ids ")"`
    Enumeration(Line, Names),
    /// `"^" name`
    Pointer(Line, QualifiedName),
    /// `[ "packed" ] struct`
    Structured(Line, bool, Structure),
    /// `"restricted" name`
    Restricted(Line, QualifiedName),
    /// `"type" "of" name`
    TypeOf(Line, QualifiedName),
}

/// `struct`
#[cycle(types)]
#[derive(Drop)]
pub enum Structure {
    /// `"array" "[" plain { "," plain } "]" "of" plain`
    Array(Line, List<Plain>, Boxed<Plain>),
    /// `"record" fields "end"`
    Record(Line, Fields),
    /// `"set" "of" plain`
    Set(Line, Boxed<Plain>),
}

/// `fields = [ ( fsec { ";" fsec } [ ";" vpart ] | vpart ) [ ";" ] ]`
#[cycle(types)]
#[derive(Drop)]
pub struct Fields {
    pub line: Line,
    pub sections: List<FieldSection>,
    pub variants: Option<Boxed<VariantPart>>,
}

/// `fsec = ids ":" type`
#[cycle(types)]
#[derive(Drop)]
pub struct FieldSection {
    pub line: Line,
    pub names: Names,
    pub of: TypeDenoter,
}

/// `vpart = "case" selector "of" variant { ";" variant } [ [ ";" ] "otherwise" "(" fields ")" ]`
#[cycle(types)]
#[derive(Drop)]
pub struct VariantPart {
    pub line: Line,
    pub selector: VariantSelector,
    pub variants: List<Variant>,
    pub otherwise: Option<Boxed<Fields>>,
}

/// `id ":" name | id`
pub enum VariantSelector {
    /// A tag field and its type.
    Tag(Line, Name, QualifiedName),
    /// A discriminant.
    Discriminant(Line, Name),
}

impl Drop for VariantSelector {
    fn drop(self) {
        match self {
            VariantSelector::Tag(_, _, _) => {}
            VariantSelector::Discriminant(_, _) => {}
        }
    }
}

/// `variant = labels ":" "(" fields ")"`
#[cycle(types)]
#[derive(Drop)]
pub struct Variant {
    pub line: Line,
    pub labels: List<Label>,
    pub fields: Fields,
}
