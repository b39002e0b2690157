//! What an index gives of an array.

ghost use Rattle.std.specs.Prelude.{◌≡◌, IfOk};
ghost use Rattle.std.specs.Option.{option_map};
ghost use Rattle.ep_typed.specs.Viewed.{expr_of};
ghost use Rattle.ep_rules.specs.Answers.{AnswersDepth, AnswersTyped, typed_of};
ghost use Rattle.ep_rules.specs.Indexing.{below_component, component_access, component_form, element_form, component_typed, indexed, indexed_array, indexed_text};

use crate::access::Access;
use crate::constant_accesses::element_known;
use crate::folding::folded_form;
use crate::forms::{DEPTH, Refusal, Typed, above};
use crate::operators::{are_compatible, is_integer};
use ep_base::{Boxed, NoMemory};
use ep_scope::{ArrayType, Composition, Host, Kind, TypeName, View, rule, structure_of};
use ep_typed::{TypedExpr, TypedPlace};
use std::alloc::Global;

/// A component is a variable where the array is one, and protected where that is (ISO 10206, 6.5.1).
fn component_access(component: TypeName, whole: &Access) -> Access
    ensures { result ≡ component_access component whole.now }
{
    match whole {
        Access::Variable(_, guarded) | Access::Tag(_, guarded, _) => {
            Access::Variable(component, *guarded)
        }
        Access::File => Access::File,
        Access::Constant => Access::Constant,
        Access::Value => Access::Value,
    }
}

/// The depth of a component of what is such an access.
fn component_depth(access: &Access, array: u32, index: u32) -> Result<u32, Refusal>
    ensures { AnswersDepth (below_component access.now array index) result }
{
    match access {
        Access::Variable(_, _) | Access::Tag(_, _, _) => {
            let inner = array.saturating_sub(1).max(index);
            if inner < DEPTH - 1 {
                Ok(inner + 2)
            } else {
                Err(Refusal::Rule(rule::TOO_DEEP))
            }
        }
        _ => above(array.max(index)),
    }
}

/// A component of this kind, read of its place where the array is, and else taken of its value, where it is not known.
fn element_form(
    alloc: Global,
    kind: Kind,
    array: Boxed<TypedExpr>,
    index: Boxed<TypedExpr>,
) -> Result<Boxed<TypedExpr>, NoMemory>
    ensures { IfOk result (λ now. expr_of now ≡ element_form kind (expr_of array) (expr_of index)) }
{
    match array.into_inner() {
        TypedExpr::Read(place) => {
            let place = TypedPlace::Indexed(Boxed::new(alloc, place)?, index);
            Boxed::new(alloc, TypedExpr::Read(place))
        }
        TypedExpr::Structured(number, given) => {
            let known = folded_form(alloc, index.get())?;
            if let Some(form) = element_known(alloc, kind, given.get().items(), &known)? {
                return Boxed::new(alloc, form);
            }
            let array = Boxed::new(alloc, TypedExpr::Structured(number, given))?;
            Boxed::new(alloc, TypedExpr::IndexedValue(array, index))
        }
        value => {
            let array = Boxed::new(alloc, value)?;
            Boxed::new(alloc, TypedExpr::IndexedValue(array, index))
        }
    }
}

/// A component, where the array and the index are built.
fn component_form(
    alloc: Global,
    kind: Kind,
    array: Option<Boxed<TypedExpr>>,
    index: Option<Boxed<TypedExpr>>,
) -> Result<Option<Boxed<TypedExpr>>, NoMemory>
    ensures { IfOk result
        (λ now. option_map expr_of now ≡ component_form kind (option_map expr_of array) (option_map expr_of index)) }
{
    match (array, index) {
        (Some(array), Some(index)) => Ok(Some(element_form(alloc, kind, array, index)?)),
        _ => Ok(None),
    }
}

/// A component of an array of this type.
fn component(alloc: Global, of: ArrayType, array: Typed, index: Typed) -> Result<Typed, Refusal>
    ensures { AnswersTyped result (component_typed of (typed_of array) (typed_of index)) }
{
    let depth = component_depth(&array.access, array.depth, index.depth)?;
    let access = component_access(of.component, &array.access);
    let form = component_form(alloc, of.kind, array.into_form(), index.into_form())?;
    Ok(Typed {
        form,
        kind: of.kind,
        depth,
        access,
    })
}

/// An index of an array has the host of the index type.
fn indexed_array(alloc: Global, of: ArrayType, array: Typed, index: Typed) -> Result<Typed, Refusal>
    ensures { AnswersTyped result (indexed_array of (typed_of array) (typed_of index)) }
{
    if are_compatible(Kind::Ordinal(of.index), index.kind) {
        component(alloc, of, array, index)
    } else {
        Err(Refusal::Rule(rule::INDEX))
    }
}

/// An index of a string is an integer.
fn indexed_text(text: Typed, index: Typed) -> Result<Typed, Refusal>
    ensures { AnswersTyped result (indexed_text (typed_of text) (typed_of index)) }
{
    if is_integer(index.kind) {
        Typed::unbuilt(Kind::Ordinal(Host::Char), text, index)
    } else {
        Err(Refusal::Rule(rule::INDEX))
    }
}

/// What an index gives of a value.
#[inline(never)]
pub fn indexed(
    alloc: Global,
    value: Typed,
    index: Typed,
    scopes: &View<'_>,
) -> Result<Typed, Refusal>
    ensures { AnswersTyped result (indexed scopes.now (typed_of value) (typed_of index)) }
{
    match value.kind {
        Kind::Structured(number) => match structure_of(scopes, number) {
            Some(Composition::Array(of)) => indexed_array(alloc, *of, value, index),
            _ => Err(Refusal::Rule(rule::INDEX)),
        },
        Kind::Text => indexed_text(value, index),
        _ => Err(Refusal::Rule(rule::INDEX)),
    }
}
