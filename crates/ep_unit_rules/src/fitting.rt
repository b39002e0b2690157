//! Whether constants lie in their types (ISO 10206, 6.4.6 and 6.8.7).

ghost use Rattle.std.specs.Prelude.{◌≡◌, ◌&&◌, IfOk, Some, int_le, map, pos};
ghost use Rattle.std.specs.List.{list_all};
ghost use Rattle.std.specs.Option.{option_map};
ghost use Rattle.ep_scope.specs.Scopes.{structure_in};
ghost use Rattle.ep_typed.specs.Trees.{elements};
ghost use Rattle.ep_typed.specs.Viewed.{denoter_of, element_of, expr_of};
ghost use Rattle.ep_rules.specs.Answers.{AnswersForm};
ghost use Rattle.ep_unit_rules.specs.Definitions.{followed};
ghost use Rattle.ep_unit_rules.specs.FittingConstants as spec;
ghost use Rattle.ep_unit_rules.specs.Labels.{tag_values as values_of};
ghost use Rattle.ep_unit_rules.specs.OrdinalTypes.{bare_ordinal, ordinal_of, value_of};
ghost use Rattle.ep_scope.specs.declared.kind.Host.TheVariants as host;

use crate::definitions::followed;
use crate::labels::{TagValues, denoted_values, tag_values};
use ep_base::NoMemory;
use ep_rules::{Refusal, field_steps, value_of_field};
use ep_scope::{Composition, FieldType, Host, TypeName, View, rule, structure_of};
use ep_typed::{Denoter, Element, TypedExpr, UnitType, Value};
use std::alloc::{AllocError, Global};

/// The type of the components of an array.
fn element_type(of: Option<&Composition>) -> Option<TypeName>
    ensures { result ≡ spec.element_type (option_map (λ c. c.now) of.entry) }
{
    match of {
        Some(Composition::Array(array)) => Some(array.component),
        _ => None,
    }
}

/// The type of the field to which the steps lead.
fn type_among(
    alloc: Global,
    fields: &[FieldType],
    steps: &[u32],
) -> Result<Option<TypeName>, NoMemory>
    ensures { IfOk result (λ of. of ≡ spec.type_among fields.now steps.now) }
{
    for field in fields {
        if field_steps(alloc, field)?.items() == steps {
            return Ok(Some(field.of));
        }
    }
    Ok(None)
}

/// Alike, of a record.
fn field_type(
    alloc: Global,
    of: Option<&Composition>,
    steps: &[u32],
) -> Result<Option<TypeName>, NoMemory>
    ensures { IfOk result (λ found. found ≡ spec.field_type (option_map (λ c. c.now) of.entry) steps.now) }
{
    match of {
        Some(Composition::Record(fields)) => type_among(alloc, fields.items(), steps),
        _ => Ok(None),
    }
}

/// The values of an ordinal denoter without names and initial states.
fn bare_values(types: &[UnitType], denoter: &Denoter) -> Result<TagValues, Refusal>
    ensures { AnswersForm (λ t. t) result
        (values_of host.Integer (bare_ordinal (Some (denoter_of denoter.now)))) }
{
    match denoter {
        Denoter::Required(required) => {
            tag_values(types, Host::Integer, TypeName::Required(*required))
        }
        other => denoted_values(Host::Integer, other),
    }
}

/// Those of an ordinal denoter, whatever names lead to it and whatever these begin with.
fn ordinal_values(types: &[UnitType], denoter: &Denoter) -> Result<TagValues, Refusal>
    ensures { AnswersForm (λ t. t) result
        (values_of host.Integer (ordinal_of types.now (denoter_of denoter.now))) }
{
    match followed(types, denoter) {
        None => Err(Refusal::Rule(rule::ORDINAL)),
        Some(found) => bare_values(types, found),
    }
}

/// The values that members of a set type may have, by its denoter without names and initial states.
fn base_values(types: &[UnitType], denoter: &Denoter) -> Result<TagValues, Refusal>
    ensures { AnswersForm (λ t. t) result
        (values_of host.Integer (spec.base_value types.now (Some (denoter_of denoter.now)))) }
{
    match denoter {
        Denoter::Set(base) => ordinal_values(types, base.get()),
        _ => Err(Refusal::Rule(rule::ORDINAL)),
    }
}

/// Those of a denoter that leads to a set type.
fn member_values(types: &[UnitType], denoter: &Denoter) -> Result<TagValues, Refusal>
    ensures { AnswersForm (λ t. t) result
        (values_of host.Integer (spec.base_value types.now (followed types.now (denoter_of denoter.now)))) }
{
    match followed(types, denoter) {
        None => Err(Refusal::Rule(rule::ORDINAL)),
        Some(found) => base_values(types, found),
    }
}

/// Those of a set type of the list.
fn members_of(types: &[UnitType], of: TypeName) -> Result<TagValues, Refusal>
    ensures { AnswersForm (λ t. t) result (values_of host.Integer (spec.members_of types.now of)) }
{
    match of {
        TypeName::Required(_) => Err(Refusal::Rule(rule::ORDINAL)),
        TypeName::Entry(number) => match types.get(number as usize) {
            None => Err(Refusal::Rule(rule::ORDINAL)),
            Some(t) => member_values(types, &t.entry.denoter),
        },
    }
}

/// Whether a number lies in an ordinal type.
#[tactic(auto, using(crate::proofs::KnownValues::number_told, crate::proofs::KnownValues::number_refused))]
fn is_number_in(types: &[UnitType], of: TypeName, number: i64) -> Result<bool, NoMemory>
    ensures { IfOk result (λ b. b ≡ spec.is_number_in (value_of types.now of) number) }
{
    match tag_values(types, Host::Integer, of) {
        Ok(values) => Ok(values.low <= number && number <= values.high),
        Err(Refusal::Rule(_)) => Ok(false),
        Err(Refusal::NoMemory) => Err(AllocError),
    }
}

/// Whether all members lie from one number to another.
fn are_among(low: i64, high: i64, members: &[u8]) -> bool
    ensures { result ≡ list_all (λ m. int_le low (pos m) && int_le (pos m) high) members.now }
{
    members.iter().all(|member| low <= i64::from(*member) && i64::from(*member) <= high)
}

/// Whether members lie in the base type of a set type.
#[tactic(auto, using(crate::proofs::KnownValues::members_told, crate::proofs::KnownValues::members_refused))]
fn are_members_in(types: &[UnitType], of: TypeName, members: &[u8]) -> Result<bool, NoMemory>
    ensures { IfOk result (λ b. b ≡ spec.are_members_in (spec.members_of types.now of) members.now) }
{
    match members_of(types, of) {
        Ok(values) => Ok(are_among(values.low, values.high, members)),
        Err(Refusal::Rule(_)) => Ok(false),
        Err(Refusal::NoMemory) => Err(AllocError),
    }
}

/// Whether a number or a set lies in the type. An array or a record is of no other one.
fn is_plain_in(
    types: &[UnitType],
    of: Option<TypeName>,
    x: Option<&TypedExpr>,
) -> Result<bool, NoMemory>
    ensures { IfOk result (λ b. b ≡ spec.is_plain_in types.now of (option_map (λ y. expr_of y.now) x.entry)) }
{
    match (of, x) {
        (Some(of), Some(TypedExpr::Constant(number))) => is_number_in(types, of, *number),
        (Some(of), Some(TypedExpr::SetConstant(members))) => {
            are_members_in(types, of, members.items())
        }
        (Some(_), Some(_)) => Ok(true),
        _ => Ok(false),
    }
}

/// Whether a constant lies in its type, with all of its components.
#[cycle(fitting)]
fn is_in(
    alloc: Global,
    types: &[UnitType],
    scopes: &View<'_>,
    of: Option<TypeName>,
    x: &TypedExpr,
) -> Result<bool, NoMemory>
    ensures { IfOk result (λ b. b ≡ spec.is_in types.now scopes.now of (expr_of x.now)) }
{
    match x {
        TypedExpr::Structured(number, given) => {
            are_in(alloc, types, scopes, *number, given.get().items())
        }
        other => is_plain_in(types, of, Some(other)),
    }
}

/// Whether what the components of an array or a record of the type of this number are given lies in their types.
#[cycle(fitting)]
fn are_in(
    alloc: Global,
    types: &[UnitType],
    scopes: &View<'_>,
    number: u32,
    all: &[Element],
) -> Result<bool, NoMemory>
    ensures { IfOk result (λ b. b ≡ spec.are_in types.now scopes.now (structure_in scopes.now number)
        (elements (map element_of all.now)) (elements (map element_of all.now))) }
{
    let of = structure_of(scopes, number);
    for one in all {
        let inside = match one {
            Element::AtIndex(_, value) => {
                is_in(alloc, types, scopes, element_type(of), value.get())?
            }
            Element::AtRanges(_, value) => {
                is_in(alloc, types, scopes, element_type(of), value.get())?
            }
            Element::AtIndexes(_, value) => {
                is_in(alloc, types, scopes, element_type(of), value.get())?
            }
            Element::AtField(steps, value) => {
                let of = field_type(alloc, of, steps.items())?;
                is_in(alloc, types, scopes, of, value.get())?
            }
            Element::SameField(from, to) => {
                let of = field_type(alloc, of, to.items())?;
                is_plain_in(types, of, value_of_field(all, from.items()))?
            }
        };
        if !inside {
            return Ok(false);
        }
    }
    Ok(true)
}

/// Whether the value of a constant lies in its type. Only an array or a record has components, which may not.
pub fn fits(
    alloc: Global,
    types: &[UnitType],
    scopes: &View<'_>,
    value: &Value,
) -> Result<bool, NoMemory>
    ensures { IfOk result (λ b. b ≡ spec.fits types.now scopes.now value.now) }
{
    match value {
        Value::Structured(number, given) => {
            are_in(alloc, types, scopes, *number, given.get().items())
        }
        _ => Ok(true),
    }
}
