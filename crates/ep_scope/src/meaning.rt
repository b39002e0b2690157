//! What a name means in a row of scopes.

ghost use Rattle.std.specs.Prelude.{◌≡◌};
ghost use Rattle.ep_scope.specs.Meanings.{meant_by};
ghost use Rattle.ep_scope.specs.Scopes.{as_thing, meant, meant_in};

use crate::record::OpenField;
use crate::required::{Required, required_identifier};
use crate::scope::Scope;
use crate::thing::{Declared, Thing};
use ep_base::Name;
use ep_typed::StandardFile;

/// What a name means: in the first scope that has it, or as a required identifier, or nothing.
#[derive(Clone, Copy)]
pub enum Meaning<'a> {
    /// A declaration.
    Declared(&'a Declared),
    /// `input` or `output`, as a parameter.
    Standard(StandardFile),
    /// A required identifier.
    Required(Required),
    /// A field of a record that is open by `with`.
    Field(OpenField<'a>),
    /// Nothing.
    Nothing,
}

/// What a thing of a scope means.
fn meaning_of_thing<'a>(thing: &'a Thing) -> Meaning<'a>
    ensures { meant_by result ≡ as_thing thing.now }
{
    match thing {
        Thing::Declared(declared) => Meaning::Declared(declared),
        Thing::Standard(file) => Meaning::Standard(*file),
    }
}

/// What a name means in these scopes, of which the innermost comes first.
pub(crate) fn meaning_among<'a>(scopes: &'a [Scope], name: &Name) -> Meaning<'a>
    ensures { meant_by result ≡ meant scopes.now name.now }
{
    for scope in scopes {
        if let Some(thing) = scope.find(name) {
            return meaning_of_thing(thing);
        }
    }
    match required_identifier(name.bytes()) {
        None => Meaning::Nothing,
        Some(required) => Meaning::Required(required),
    }
}

/// What a name means after the name of an interface and a dot.
pub(crate) fn meaning_after<'a>(scopes: &'a [Scope], interface: &Name, name: &Name) -> Meaning<'a>
    ensures { meant_by result ≡ meant_in scopes.now interface.now name.now }
{
    for scope in scopes {
        if scope.find(interface).is_some() {
            return Meaning::Nothing;
        }
        if let Some(thing) = scope.find_in(interface, name) {
            return meaning_of_thing(thing);
        }
    }
    Meaning::Nothing
}
