//! The rules of the choice of a variant in a structured value, on parts that are accepted (ISO 10206, 6.8.7.3).

ghost use Rattle.std.specs.Prelude.{◌≡◌, ◌++◌, ◌∷◌, [], IfOk};
ghost use Rattle.std.specs.Option.{option_map};
ghost use Rattle.ep_typed.specs.Viewed.{expr_of};
ghost use Rattle.ep_rules.specs.Answers.{AnswersJudged, typed_of};
ghost use Rattle.ep_check_expr.specs.Answers.{choice_of, filled_of};
ghost use Rattle.ep_check_expr.specs.StructuredValues as spec;

use crate::filled::{Filled, field_form, is_at};
use ep_base::{Boxed, List, Name, NoMemory};
use ep_rules::{Folded, Refusal, Typed, folded_form, given_value, number_in, selected_variant};
use ep_scope::{FieldType, TagType, rule};
use ep_typed::TypedExpr;
use std::alloc::Global;

/// What is gathered with a tag, and the variant that its value selects, where that is built.
pub(crate) struct Choice {
    /// What is gathered.
    pub(crate) filled: Filled,
    /// The numbers of variants that lead to it.
    pub(crate) chosen: Option<List<usize>>,
}

impl Drop for Choice {
    fn drop(self) {
        let Choice {
            filled: _,
            chosen: _,
        } = self;
    }
}

impl Choice {
    /// Both alone.
    pub(crate) fn into_parts(self) -> (Filled, Option<List<usize>>)
        ensures { result ≡ (self.filled, self.chosen) }
    {
        let Choice { filled, chosen } = self;
        (filled, chosen)
    }
}

/// Whether a field is the tag that is there.
fn is_tag_at(within: &[usize], field: &FieldType) -> bool
    ensures { result ≡ spec.is_tag_at within.now field.now }
{
    is_at(within, field.path.items()) && field.tag.is_some()
}

/// Whether a name before the value of a tag is that of the tag.
fn is_named(name: &Option<Name>, field: &FieldType) -> bool
    ensures { result ≡ spec.is_named name.now field.now }
{
    match name {
        None => true,
        Some(name) => field.name.bytes() == name.bytes(),
    }
}

/// The ordinal number of a tag's value, where it is built, which is constant.
fn tag_constant(alloc: Global, form: &Option<Boxed<TypedExpr>>) -> Result<Option<i64>, Refusal>
    ensures { AnswersJudged (λ z. z) result (spec.tag_constant (option_map expr_of form.now)) }
{
    let Some(form) = form else {
        return Ok(None);
    };
    match folded_form(alloc, form.get())? {
        Folded::Known(value) => Ok(Some(number_in(&value))),
        _ => Err(Refusal::Rule(rule::CONSTANT)),
    }
}

/// Whether a constant is a value of a tag's type.
fn is_tag_value(tag: &TagType, constant: Option<i64>) -> bool
    ensures { result ≡ spec.is_tag_value tag.now constant }
{
    match constant {
        None => true,
        Some(value) => tag.low <= value && value <= tag.high,
    }
}

/// The numbers of variants that lead to a variant in another one, or in the record itself.
fn inner(alloc: Global, within: &[usize], variant: usize) -> Result<List<usize>, NoMemory>
    ensures { IfOk result (λ numbers. numbers ≡ within.now ++ variant ∷ []) }
{
    let mut numbers = List::from_slice(alloc, within)?;
    numbers.push(variant)?;
    Ok(numbers)
}

/// The numbers of variants that lead to the one that a value of a tag selects, where that is known.
fn chosen_within(
    alloc: Global,
    within: &[usize],
    tag: &TagType,
    constant: Option<i64>,
) -> Result<Option<List<usize>>, NoMemory>
    ensures { IfOk result (λ chosen. chosen ≡ spec.chosen_within within.now tag.now constant) }
{
    let Some(value) = constant else {
        return Ok(None);
    };
    let variant = selected_variant(tag.selection.get(), value);
    let chosen = inner(alloc, within, variant)?;
    Ok(Some(chosen))
}

/// The place of the tag that is there, if there is one.
fn tag_place(fields: &[FieldType], within: &[usize]) -> Option<usize>
    ensures { result ≡ spec.tag_place fields.now within.now }
{
    fields.iter().position(|field| is_tag_at(within, field))
}

impl Filled {
    /// With a tag, which is given a value and not before, and the variant that it selects.
    fn with_tag(
        self,
        alloc: Global,
        within: &[usize],
        place: usize,
        field: &FieldType,
        value: Typed,
    ) -> Result<Choice, Refusal>
        ensures { AnswersJudged choice_of result
            (spec.tag_given within.now place field.now (typed_of value) (filled_of self) field.now.tag) }
    {
        let Some(tag) = &field.tag else {
            return Err(Refusal::Rule(rule::STRUCTURED_VALUE));
        };
        let depth = value.depth;
        let value = given_value(field.kind, value)?;
        let constant = tag_constant(alloc, &value)?;
        if !is_tag_value(tag, constant) {
            return Err(Refusal::Rule(rule::STRUCTURED_VALUE));
        }
        let element = field_form(alloc, field, value)?;
        let filled = self.with_field(place, depth, element)?;
        let chosen = chosen_within(alloc, within, tag, constant)?;
        Ok(Choice { filled, chosen })
    }

    /// With the choice of a variant by the value of the tag, behind the name of the tag or without one.
    pub(crate) fn choosing(
        self,
        alloc: Global,
        fields: &[FieldType],
        within: &[usize],
        name: &Option<Name>,
        value: Typed,
    ) -> Result<Choice, Refusal>
        ensures { AnswersJudged choice_of result
            (spec.choice fields.now within.now name.now (filled_of self) (typed_of value)) }
    {
        let Some(place) = tag_place(fields, within) else {
            return Err(Refusal::Rule(rule::STRUCTURED_VALUE));
        };
        match fields.get(place) {
            Some(field) if is_named(name, field) => {
                self.with_tag(alloc, within, place, field, value)
            }
            _ => Err(Refusal::Rule(rule::STRUCTURED_VALUE)),
        }
    }
}
