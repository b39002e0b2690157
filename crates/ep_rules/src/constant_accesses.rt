//! What components of constants are, which are arrays or records (ISO 10206, 6.8.8).

ghost use Rattle.std.specs.Prelude.{◌≡◌, ◌∷◌, ◌++◌, [], IfOk, map};
ghost use Rattle.std.specs.Option.{option_and_then, option_map};
ghost use Rattle.ep_typed.specs.Hosts as hosts;
ghost use Rattle.ep_typed.specs.Trees.{elements};
ghost use Rattle.ep_typed.specs.Viewed.{element_of, expr_of};
ghost use Rattle.ep_rules.specs.ConstantAccesses as spec;
ghost use Rattle.ep_rules.specs.Hosts.{typed_host};
ghost use Rattle.ep_rules.specs.KnownFields as fields;

use crate::folding::{Folded, number_in};
use crate::forms::{greatest, least};
use crate::variants::{field_steps, selected_variant, variant_number};
use ep_base::{Bytes, List, NoMemory};
use ep_scope::{FieldType, Host, Kind, VariantStep};
use ep_typed::{CaseRange, ComponentSteps, Element, TypedExpr};
use std::alloc::Global;

/// Whether an index is in one of the ranges.
pub fn has_index(ranges: &[CaseRange], index: i64) -> bool
    ensures { result ≡ spec.has_index ranges.now index }
{
    ranges
        .iter()
        .any(|range| range.low <= index && index <= range.high)
}

/// The value that the component of an array at an index is given by constant ranges: that of the last ones that have it.
fn value_at(given: &[Element], index: i64) -> Option<&TypedExpr>
    ensures { option_map (λ x. expr_of x.now) result ≡ spec.value_at (elements (map element_of given.now)) index }
{
    let mut found = None;
    for one in given {
        if let Element::AtRanges(ranges, value) = one {
            if has_index(ranges.items(), index) {
                found = Some(value.get());
            }
        }
    }
    found
}

/// The value that the component of a record is given to which these steps lead.
pub fn value_of_field<'a>(given: &'a [Element], steps: &[u32]) -> Option<&'a TypedExpr>
    ensures { option_map (λ x. expr_of x.now) result
        ≡ spec.value_of_field (elements (map element_of given.now)) steps.now }
{
    for one in given {
        if let Element::AtField(own, value) = one {
            if own.items() == steps {
                return Some(value.get());
            }
        }
    }
    None
}

/// Alike, of one that is given it as one of several fields.
fn value_for<'a>(given: &'a [Element], steps: &[u32]) -> Option<&'a TypedExpr>
    ensures { option_map (λ x. expr_of x.now) result
        ≡ spec.value_for (elements (map element_of given.now)) (elements (map element_of given.now)) steps.now }
{
    for one in given {
        match one {
            Element::AtField(own, value) => {
                if own.items() == steps {
                    return Some(value.get());
                }
            }
            Element::SameField(from, to) => {
                if to.items() == steps {
                    return value_of_field(given, from.items());
                }
            }
            _ => {}
        }
    }
    None
}

/// Whether a number is a value of the host.
fn is_of_host(host: Host, value: i64) -> bool
    ensures { result ≡ hosts.is_of_host (typed_host host) value }
{
    least(host) <= value && value <= greatest(host)
}

/// Whether all members are.
fn are_of_host(host: Host, members: &[u8]) -> bool
    ensures { result ≡ spec.are_of_host host members.now }
{
    members
        .iter()
        .all(|member| is_of_host(host, i64::from(*member)))
}

/// A constant of this kind.
fn constant_as(alloc: Global, kind: Kind, x: &TypedExpr) -> Result<Option<TypedExpr>, NoMemory>
    ensures { IfOk result (λ form. option_map expr_of form ≡ spec.constant_as kind (expr_of x.now)) }
{
    match (kind, x) {
        (Kind::Ordinal(host), TypedExpr::Constant(value)) => {
            if is_of_host(host, *value) {
                Ok(Some(TypedExpr::Constant(*value)))
            } else {
                Ok(None)
            }
        }
        (Kind::Set(host), TypedExpr::SetConstant(members)) => {
            if are_of_host(host, members.items()) {
                let members = Bytes::from_slice(alloc, members.items())?;
                Ok(Some(TypedExpr::SetConstant(members)))
            } else {
                Ok(None)
            }
        }
        (Kind::Structured(_), TypedExpr::Structured(number, given)) => {
            Ok(Some(TypedExpr::Structured(*number, given.share()?)))
        }
        _ => Ok(None),
    }
}

/// Alike, where there is a value.
fn constant_if(
    alloc: Global,
    kind: Kind,
    x: Option<&TypedExpr>,
) -> Result<Option<TypedExpr>, NoMemory>
    ensures { IfOk result (λ form. option_map expr_of form
        ≡ option_and_then (spec.constant_as kind) (option_map (λ y. expr_of y.now) x.entry)) }
{
    match x {
        None => Ok(None),
        Some(x) => constant_as(alloc, kind, x),
    }
}

/// The component of this kind at an index that is constant.
pub(crate) fn element_known(
    alloc: Global,
    kind: Kind,
    given: &[Element],
    index: &Folded,
) -> Result<Option<TypedExpr>, NoMemory>
    ensures { IfOk result (λ form. option_map expr_of form
        ≡ spec.element_known kind (elements (map element_of given.now)) index.now) }
{
    match index {
        Folded::Known(index) => constant_if(alloc, kind, value_at(given, number_in(index))),
        Folded::Varies => Ok(None),
        Folded::Errs => Ok(None),
    }
}

/// The steps to the tag of this number, behind these.
fn tag_steps(alloc: Global, before: &[u32], tag: u32) -> Result<ComponentSteps, NoMemory>
    ensures { IfOk result (λ steps. steps ≡ before.now ++ tag ∷ 0 ∷ []) }
{
    let mut steps = List::from_slice(alloc, before)?;
    steps.push(tag)?;
    steps.push(0)?;
    Ok(steps)
}

/// The number that a constant of an ordinal type is.
fn constant_number(x: &TypedExpr) -> Option<i64>
    ensures { result ≡ fields.constant_number (expr_of x.now) }
{
    match x {
        TypedExpr::Constant(value) => Some(*value),
        _ => None,
    }
}

/// The number that a tag is given, of what is given behind these steps.
fn tag_given(
    alloc: Global,
    given: &[Element],
    before: &[u32],
    tag: u32,
) -> Result<Option<i64>, NoMemory>
    ensures { IfOk result (λ z. z ≡ fields.tag_given (elements (map element_of given.now)) before.now tag) }
{
    let steps = tag_steps(alloc, before, tag)?;
    match value_for(given, steps.items()) {
        None => Ok(None),
        Some(x) => Ok(constant_number(x)),
    }
}

/// Whether a value of a tag selects the variant.
fn selects(step: &VariantStep, value: Option<i64>) -> bool
    ensures { result ≡ fields.selects step.now value }
{
    match value {
        None => false,
        Some(value) => {
            selected_variant(step.selection.get(), value) as u64 == u64::from(step.variant)
        }
    }
}

/// Whether each variant on the way is the one that is selected.
fn are_selected(alloc: Global, given: &[Element], path: &[VariantStep]) -> Result<bool, NoMemory>
    ensures { IfOk result (λ b. b ≡ fields.are_selected (elements (map element_of given.now)) [] path.now) }
{
    let mut before = List::new(alloc);
    for step in path {
        let value = tag_given(alloc, given, before.items(), step.selection.get().tag)?;
        if !selects(step, value) {
            return Ok(false);
        }
        before.push(variant_number(step)?)?;
    }
    Ok(true)
}

/// A field of a constant, where its variant is the one that is selected.
pub(crate) fn field_known(
    alloc: Global,
    field: &FieldType,
    given: &[Element],
) -> Result<Option<TypedExpr>, NoMemory>
    ensures { IfOk result (λ form. option_map expr_of form
        ≡ fields.field_known field.now (elements (map element_of given.now))) }
{
    if !are_selected(alloc, given, field.path.items())? {
        return Ok(None);
    }
    let steps = field_steps(alloc, field)?;
    constant_if(alloc, field.kind, value_for(given, steps.items()))
}
