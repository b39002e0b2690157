//! What the name of a field gives of a record.

ghost use Rattle.std.specs.Prelude.{◌≡◌, ◌<◌, IfOk, MatchOption, map};
ghost use Rattle.std.specs.Option.{option_map};
ghost use Rattle.ep_typed.specs.Trees.{Structured, elements};
ghost use Rattle.ep_typed.specs.Viewed.{element_of, expr_of, place_of};
ghost use Rattle.ep_rules.specs.Answers.{AnswersSteps, AnswersTyped, typed_of};
ghost use Rattle.ep_rules.specs.FieldDesignators as spec;
ghost use Rattle.ep_rules.specs.FieldDesignators.{component_place, component_taken, designated, field_access, field_form, field_typed, part_form, part_taken, steps_to, variable_access};

use crate::access::Access;
use crate::constant_accesses::field_known;
use crate::forms::{DEPTH, Refusal, Typed};
use ep_base::{Boxed, Name, NoMemory};
use ep_scope::{
    Composition, FieldType, Kind, Protection, TagType, TypeName, VariantStep, View, field_number,
    rule, structure_of,
};
use ep_typed::{Elements, Shared, TypedExpr, TypedPlace};
use std::alloc::Global;

/// The variant to which these steps lead from a record at a place.
pub(crate) fn along(
    alloc: Global,
    path: &[VariantStep],
    whole: Boxed<TypedPlace>,
) -> Result<Boxed<TypedPlace>, NoMemory>
    ensures { IfOk result (λ place. place_of place ≡ spec.along path.now (place_of whole)) }
{
    let mut place = whole;
    for step in path {
        let selection = step.selection.share()?;
        place = Boxed::new(alloc, TypedPlace::Variant(place, selection, step.variant))?;
    }
    Ok(place)
}

/// The component of this number; a tag is the one component of a record that has the number.
fn component_place(
    alloc: Global,
    tag: &Option<TagType>,
    number: u32,
    whole: Boxed<TypedPlace>,
) -> Result<TypedPlace, NoMemory>
    ensures { IfOk result (λ place. place_of place ≡ component_place tag.now number (place_of whole)) }
{
    match tag {
        None => Ok(TypedPlace::Field(whole, number)),
        Some(_) => {
            let own = Boxed::new(alloc, TypedPlace::Field(whole, number))?;
            Ok(TypedPlace::Field(own, 0))
        }
    }
}

/// The place of a field of a record that is at a place.
pub(crate) fn reached(
    alloc: Global,
    field: &FieldType,
    whole: Boxed<TypedPlace>,
) -> Result<TypedPlace, NoMemory>
    ensures { IfOk result (λ place. place_of place ≡ spec.reached field.now (place_of whole)) }
{
    let within = along(alloc, field.path.items(), whole)?;
    component_place(alloc, &field.tag, field.number, within)
}

/// How many places stand between that of a record and that of a field of it, itself among them. `None` comes exactly where
/// 32 bits do not hold the number.
pub(crate) fn steps(field: &FieldType) -> Option<u32>
    ensures { MatchOption result (u32.MAX < steps_to field.now) (λ steps. steps ≡ steps_to field.now) }
{
    let own = match &field.tag {
        None => 1,
        Some(_) => 2,
    };
    u32::try_from(field.path.items().len().saturating_add(own)).ok()
}

/// The depth of a field of what has this depth.
fn field_depth(field: &FieldType, whole: u32) -> Result<u32, Refusal>
    ensures { AnswersSteps (steps_to field.now) whole result }
{
    let Some(steps) = steps(field) else {
        return Err(Refusal::Rule(rule::TOO_DEEP));
    };
    match steps.checked_add(whole) {
        Some(depth) if depth <= DEPTH => Ok(depth),
        _ => Err(Refusal::Rule(rule::TOO_DEEP)),
    }
}

/// A component of a value.
fn component_taken(
    alloc: Global,
    tag: &Option<TagType>,
    number: u32,
    whole: Boxed<TypedExpr>,
) -> Result<Boxed<TypedExpr>, NoMemory>
    ensures { IfOk result (λ x. expr_of x ≡ component_taken tag.now number (expr_of whole)) }
{
    let own = Boxed::new(alloc, TypedExpr::FieldValue(whole, number))?;
    match tag {
        None => Ok(own),
        Some(_) => Boxed::new(alloc, TypedExpr::FieldValue(own, 0)),
    }
}

/// The variant to which these steps lead from the value of a record.
fn taken_along(
    alloc: Global,
    path: &[VariantStep],
    whole: Boxed<TypedExpr>,
) -> Result<Boxed<TypedExpr>, NoMemory>
    ensures { IfOk result (λ x. expr_of x ≡ spec.taken_along path.now (expr_of whole)) }
{
    let mut value = whole;
    for step in path {
        let selection = step.selection.share()?;
        value = Boxed::new(
            alloc,
            TypedExpr::VariantValue(value, selection, step.variant),
        )?;
    }
    Ok(value)
}

/// A field taken of a value.
fn part_taken(
    alloc: Global,
    field: &FieldType,
    whole: Boxed<TypedExpr>,
) -> Result<Boxed<TypedExpr>, NoMemory>
    ensures { IfOk result (λ x. expr_of x ≡ part_taken field.now (expr_of whole)) }
{
    let within = taken_along(alloc, field.path.items(), whole)?;
    component_taken(alloc, &field.tag, field.number, within)
}

/// A field of a constant, where it may be known.
fn constant_part(
    alloc: Global,
    field: &FieldType,
    number: u32,
    given: Shared<Elements>,
) -> Result<Boxed<TypedExpr>, NoMemory>
    ensures { IfOk result (λ x. expr_of x
        ≡ part_form field.now (Structured number (elements (map element_of given)))) }
{
    match field_known(alloc, field, given.get().items())? {
        Some(form) => Boxed::new(alloc, form),
        None => {
            let whole = Boxed::new(alloc, TypedExpr::Structured(number, given))?;
            part_taken(alloc, field, whole)
        }
    }
}

/// A field, read of its place where the record is, and else taken of its value.
fn part_form(
    alloc: Global,
    field: &FieldType,
    whole: Boxed<TypedExpr>,
) -> Result<Boxed<TypedExpr>, NoMemory>
    ensures { IfOk result (λ x. expr_of x ≡ part_form field.now (expr_of whole)) }
{
    match whole.into_inner() {
        TypedExpr::Read(place) => {
            let place = reached(alloc, field, Boxed::new(alloc, place)?)?;
            Boxed::new(alloc, TypedExpr::Read(place))
        }
        TypedExpr::Structured(number, given) => constant_part(alloc, field, number, given),
        value => part_taken(alloc, field, Boxed::new(alloc, value)?),
    }
}

/// A field, where the record is built.
fn field_form(
    alloc: Global,
    field: &FieldType,
    whole: Option<Boxed<TypedExpr>>,
) -> Result<Option<Boxed<TypedExpr>>, NoMemory>
    ensures { IfOk result (λ x. option_map expr_of x ≡ field_form field.now (option_map expr_of whole)) }
{
    match whole {
        Some(whole) => Ok(Some(part_form(alloc, field, whole)?)),
        None => Ok(None),
    }
}

/// A variable of this type, which may be a tag.
pub(crate) fn variable_access(
    of: TypeName,
    guarded: Protection,
    tag: &Option<TagType>,
) -> Result<Access, NoMemory>
    ensures { IfOk result (λ access. access ≡ variable_access of guarded tag.now) }
{
    match tag {
        None => Ok(Access::Variable(of, guarded)),
        Some(tag) => Ok(Access::Tag(of, guarded, tag.share()?)),
    }
}

/// A field is a variable where the record is one, and protected where that is (ISO 10206, 6.5.1).
fn field_access(field: &FieldType, whole: &Access) -> Result<Access, NoMemory>
    ensures { IfOk result (λ access. access ≡ field_access field.now whole.now) }
{
    match whole {
        Access::Variable(_, guarded) | Access::Tag(_, guarded, _) => {
            variable_access(field.of, *guarded, &field.tag)
        }
        Access::File => Ok(Access::File),
        Access::Constant => Ok(Access::Constant),
        Access::Value => Ok(Access::Value),
    }
}

/// The field of a record.
fn field(alloc: Global, field: &FieldType, whole: Typed) -> Result<Typed, Refusal>
    ensures { AnswersTyped result (field_typed field.now (typed_of whole)) }
{
    let depth = field_depth(field, whole.depth)?;
    let access = field_access(field, &whole.access)?;
    let form = field_form(alloc, field, whole.into_form())?;
    Ok(Typed {
        form,
        kind: field.kind,
        depth,
        access,
    })
}

/// The field of this name of a value, which is a record.
#[inline(never)]
pub fn designated(
    alloc: Global,
    name: &Name,
    value: Typed,
    scopes: &View<'_>,
) -> Result<Typed, Refusal>
    ensures { AnswersTyped result (designated scopes.now name.now (typed_of value)) }
{
    let Kind::Structured(number) = value.kind else {
        return Err(Refusal::Rule(rule::FIELD));
    };
    let Some(Composition::Record(fields)) = structure_of(scopes, number) else {
        return Err(Refusal::Rule(rule::FIELD));
    };
    let Some(place) = field_number(fields, name) else {
        return Err(Refusal::Rule(rule::FIELD));
    };
    match fields.items().get(place) {
        Some(found) => field(alloc, found, value),
        None => Err(Refusal::Rule(rule::FIELD)),
    }
}
