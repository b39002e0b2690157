//! The rules of structured values of records, on parts that are accepted (ISO 10206, 6.8.7.3). Where a value is given is told
//! by the numbers of variants that lead there, which are none for the record itself.

ghost use Rattle.std.specs.Prelude.{◌≡◌, ◌∷◌, [], IfOk, map, slice_get, Some, None};
ghost use Rattle.std.specs.Option.{option_map};
ghost use Rattle.ep_tree.specs.Shapes.{as_identifier};
ghost use Rattle.ep_tree.specs.declared.expression.Label.{out-Label};
ghost use Rattle.ep_typed.specs.Viewed.{element_of, expr_of};
ghost use Rattle.ep_rules.specs.Answers.{AnswersJudged, AnswersTyped, typed_of};
ghost use Rattle.ep_check_expr.specs.Answers.{filled_of};
ghost use Rattle.ep_check_expr.specs.Expressions.{labelled};
ghost use Rattle.ep_check_expr.specs.StructuredValues as spec;
ghost use Rattle.ep_rules.specs.VariantSteps as variants;
ghost use Rattle.ep_check_expr.specs.StructuredValues.{filled, fields_filled, label_place, label_places, same_filled};

use crate::places::Places;
use crate::shapes::label_name;
use crate::structured::{added, asked_by, structured};
use ep_base::{Boxed, List, NoMemory};
use ep_rules::{Access, Refusal, Typed, field_steps, given_value};
use ep_scope::{FieldType, FieldTypes, Kind, VariantStep, field_number, rule, same_host};
use ep_tree::Label;
use ep_typed::{Element, Elements, TypedExpr};
use std::alloc::Global;

/// What is gathered of the elements of a record: what components are given, where all of it is built, how deep the deepest
/// value is, and the places of the fields that are given, among all fields.
pub(crate) struct Filled {
    /// What components are given.
    pub(crate) elements: Option<Elements>,
    /// The depth.
    pub(crate) depth: u32,
    /// The places of fields.
    pub(crate) fields: Places,
}

impl Drop for Filled {
    fn drop(self) {
        let Filled {
            elements: _,
            depth: _,
            fields: _,
        } = self;
    }
}

/// Whether the steps lead to the variant of these numbers.
pub(crate) fn is_at(within: &[usize], path: &[VariantStep]) -> bool
    ensures { result ≡ spec.is_at within.now path.now }
{
    match within.split_first() {
        None => path.is_empty(),
        Some((number, inner)) => match path.split_first() {
            None => false,
            Some((step, more)) => *number == step.variant as usize && is_at(inner, more),
        },
    }
}

/// Whether a field is there, and no tag.
fn is_plain(within: &[usize], field: &FieldType) -> bool
    ensures { result ≡ spec.is_plain within.now field.now }
{
    is_at(within, field.path.items()) && field.tag.is_none()
}

/// The place of the field that a label names, which is there.
fn label_place(fields: &FieldTypes, within: &[usize], label: &Label) -> Result<usize, Refusal>
    ensures { AnswersJudged (λ place. place) result (label_place fields.now within.now (spec.label_name label.now)) }
{
    let Some(name) = label_name(label) else {
        return Err(Refusal::Rule(rule::STRUCTURED_VALUE));
    };
    let Some(place) = field_number(fields, name) else {
        return Err(Refusal::Rule(rule::STRUCTURED_VALUE));
    };
    match fields.items().get(place) {
        Some(field) if is_plain(within, field) => Ok(place),
        _ => Err(Refusal::Rule(rule::STRUCTURED_VALUE)),
    }
}

/// The places of the fields that labels name.
pub(crate) fn label_places(
    alloc: Global,
    fields: &FieldTypes,
    within: &[usize],
    labels: &[Label],
) -> Result<List<usize>, Refusal>
    ensures { AnswersJudged (λ places. places) result
        (label_places fields.now within.now (map spec.label_name labels.now) []) }
{
    let mut places = List::new(alloc);
    for label in labels {
        let place = label_place(fields, within, label)?;
        places.push(place)?;
    }
    Ok(places)
}

/// The structured type that the value of the first of these fields is to have, where it has one.
pub(crate) fn asked_first(fields: &[FieldType], places: &[usize]) -> Option<u32>
    ensures { result ≡ spec.asked_first fields.now places.now }
{
    match places.first() {
        None => None,
        Some(place) => match fields.get(*place) {
            None => None,
            Some(field) => asked_by(field.kind),
        },
    }
}

/// A field that is given a value, where it is built.
pub(crate) fn field_form(
    alloc: Global,
    field: &FieldType,
    value: Option<Boxed<TypedExpr>>,
) -> Result<Option<Element>, NoMemory>
    ensures { IfOk result (λ e. option_map (λ x. x ∷ []) (option_map element_of e)
        ≡ option_map (spec.first_form (variants.field_steps field.now)) (option_map expr_of value)) }
{
    let Some(value) = value else {
        return Ok(None);
    };
    let steps = field_steps(alloc, field)?;
    Ok(Some(Element::AtField(steps, value)))
}

/// Whether a value of the one kind is one of the other.
fn is_same_kind(one: Kind, other: Kind) -> bool
    ensures { result ≡ spec.is_same_kind one other }
{
    match (one, other) {
        (Kind::Ordinal(left), Kind::Ordinal(right)) => same_host(left, right),
        (Kind::Structured(left), Kind::Structured(right)) => left == right,
        (Kind::Set(left), Kind::Set(right)) => same_host(left, right),
        _ => false,
    }
}

/// The empty set for a field that is a set, which is one over each host.
fn empty_if(alloc: Global, field: &FieldType) -> Result<Option<Element>, NoMemory>
    ensures { IfOk result (λ e. option_map (λ x. x ∷ []) (option_map element_of e)
        ≡ spec.empty_if field.now.kind (variants.field_steps field.now)) }
{
    let Kind::Set(_) = field.kind else {
        return Ok(None);
    };
    let steps = field_steps(alloc, field)?;
    let empty = Boxed::new(alloc, TypedExpr::Set(List::new(alloc)))?;
    Ok(Some(Element::AtField(steps, empty)))
}

/// A field that is given what another one has, where that is of its kind, and else the empty set.
fn same_if(alloc: Global, first: &FieldType, field: &FieldType) -> Result<Option<Element>, NoMemory>
    ensures { IfOk result
        (λ e. option_map (λ x. x ∷ []) (option_map element_of e) ≡ spec.same_if first.now field.now) }
{
    if !is_same_kind(first.kind, field.kind) {
        return empty_if(alloc, field);
    }
    let from = field_steps(alloc, first)?;
    let to = field_steps(alloc, field)?;
    Ok(Some(Element::SameField(from, to)))
}

impl Filled {
    /// Nothing.
    pub(crate) fn nothing(alloc: Global) -> Filled
        ensures { filled_of result ≡ spec.nothing_filled }
    {
        Filled {
            elements: Some(List::new(alloc)),
            depth: 0,
            fields: Places::new(alloc),
        }
    }

    /// The elements and the places alone.
    fn into_parts(self) -> (Option<Elements>, Places)
        ensures { result ≡ (self.elements, self.fields) }
    {
        let Filled {
            elements,
            depth: _,
            fields,
        } = self;
        (elements, fields)
    }

    /// With a field more, which is not given before.
    pub(crate) fn with_field(
        self,
        place: usize,
        depth: u32,
        element: Option<Element>,
    ) -> Result<Filled, Refusal>
        ensures { AnswersJudged filled_of result
            (spec.with_field (filled_of self) place depth (option_map (λ e. e ∷ []) (option_map element_of element))) }
    {
        if self.fields.has(place) {
            return Err(Refusal::Rule(rule::STRUCTURED_VALUE));
        }
        let depth = self.depth.max(depth);
        let (elements, mut fields) = self.into_parts();
        fields.add(place)?;
        let elements = added(elements, element)?;
        Ok(Filled {
            elements,
            depth,
            fields,
        })
    }

    /// With the field at this place, which is given a value.
    fn with_first(
        self,
        alloc: Global,
        place: usize,
        field: &FieldType,
        value: Typed,
    ) -> Result<Filled, Refusal>
        ensures { AnswersJudged filled_of result (spec.first_given place (typed_of value) (filled_of self) field.now) }
    {
        let depth = value.depth;
        let value = given_value(field.kind, value)?;
        let element = field_form(alloc, field, value)?;
        self.with_field(place, depth, element)
    }

    /// With the field at this place, which is given what the first one has, a value of this kind.
    fn with_same(
        self,
        alloc: Global,
        first: &FieldType,
        kind: Kind,
        place: usize,
        field: &FieldType,
    ) -> Result<Filled, Refusal>
        ensures { AnswersJudged filled_of result
            (spec.same_given first.now kind place (filled_of self) (Some field.now)) }
    {
        given_value(field.kind, of_kind(kind))?;
        let element = same_if(alloc, first, field)?;
        self.with_field(place, 0, element)
    }

    /// With the field at this place, if there is one, alike.
    fn with_place(
        self,
        alloc: Global,
        first: &FieldType,
        kind: Kind,
        fields: &[FieldType],
        place: usize,
    ) -> Result<Filled, Refusal>
        ensures { AnswersJudged filled_of result
            (spec.same_given first.now kind place (filled_of self) (slice_get fields.now place)) }
    {
        match fields.get(place) {
            Some(field) => self.with_same(alloc, first, kind, place, field),
            None => Err(Refusal::Rule(rule::STRUCTURED_VALUE)),
        }
    }

    /// With the fields at these places, alike.
    fn with_all_same(
        self,
        alloc: Global,
        first: &FieldType,
        kind: Kind,
        fields: &[FieldType],
        places: &[usize],
    ) -> Result<Filled, Refusal>
        ensures { AnswersJudged filled_of result (same_filled fields.now first.now kind places.now (filled_of self)) }
    {
        let mut filled = self;
        for place in places {
            filled = filled.with_place(alloc, first, kind, fields, *place)?;
        }
        Ok(filled)
    }

    /// With the fields at these places, which are given a value.
    pub(crate) fn with_fields(
        self,
        alloc: Global,
        fields: &[FieldType],
        places: &[usize],
        value: Typed,
    ) -> Result<Filled, Refusal>
        ensures { AnswersJudged filled_of result
            (fields_filled fields.now places.now (filled_of self) (typed_of value)) }
    {
        let Some((place, others)) = places.split_first() else {
            return Err(Refusal::Rule(rule::STRUCTURED_VALUE));
        };
        let Some(field) = fields.get(*place) else {
            return Err(Refusal::Rule(rule::STRUCTURED_VALUE));
        };
        let kind = value.kind;
        let filled = self.with_first(alloc, *place, field, value)?;
        filled.with_all_same(alloc, field, kind, fields, others)
    }

    /// The same, where each field that is there is given.
    pub(crate) fn with_all(self, fields: &[FieldType], within: &[usize]) -> Result<Filled, Refusal>
        ensures { AnswersJudged filled_of result (spec.all_given fields.now within.now (filled_of self)) }
    {
        if !are_given(within, &self.fields, fields) {
            return Err(Refusal::Rule(rule::STRUCTURED_VALUE));
        }
        Ok(self)
    }

    /// The value of the record type of this number.
    pub(crate) fn finished(self, alloc: Global, number: u32) -> Result<Typed, Refusal>
        ensures { AnswersTyped result (filled number (filled_of self)) }
    {
        let depth = self.depth;
        let (elements, _) = self.into_parts();
        structured(alloc, number, elements, depth)
    }
}

/// Something of this kind that is not built.
fn of_kind(kind: Kind) -> Typed
    ensures { typed_of result ≡ spec.of_kind kind }
{
    Typed {
        form: None,
        kind,
        depth: 0,
        access: Access::Value,
    }
}

/// Whether each field that is there is given, the tag among them.
fn are_given(within: &[usize], given: &Places, fields: &[FieldType]) -> bool
    ensures { result ≡ spec.are_given within.now given.now 0 fields.now }
{
    for (place, field) in fields.iter().enumerate() {
        if is_at(within, field.path.items()) && !given.has(place) {
            return false;
        }
    }
    true
}
