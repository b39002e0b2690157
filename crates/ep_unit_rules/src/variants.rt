//! Tags, and the fields of variants (ISO 10206, 6.4.3.4).

ghost use Rattle.std.specs.Prelude.{◌≡◌, ◌∷◌, [], IfOk, map};
ghost use Rattle.ep_rules.specs.Answers.{AnswersForm};
ghost use Rattle.ep_unit_rules.specs.Answers.{field_in, tag_in};
ghost use Rattle.ep_unit_rules.specs.Variants as spec;
ghost use Rattle.ep_unit_rules.specs.Variants.{bounds_nodes, fields_joined, is_among_fields, variants_joined};

use crate::labels::TagValues;
use crate::numbers::number;
use crate::records::{WrittenField, nodes, own_fields};
use crate::types::{NamedType, counted};
use ep_base::{List, Name, NoMemory};
use ep_rules::Refusal;
use ep_scope::{
    FieldType, FieldTypes, Kind, TagType, VariantPath, VariantStep, field_number, rule,
};
use ep_typed::{CaseRange, SharedSelection};
use std::alloc::Global;

/// The tag of a variant part that is written.
#[derive(Clone, Copy)]
pub struct Tag<'a> {
    /// Its name.
    pub name: &'a Name,
    /// Its type.
    pub of: NamedType,
    /// Its values.
    pub values: TagValues,
}

/// Nodes, with those of the bounds of these labels.
fn bounds_nodes(nodes: u32, ranges: &[CaseRange]) -> u32
    ensures { result ≡ bounds_nodes nodes ranges.now }
{
    let mut all = nodes;
    for _range in ranges {
        all = counted(all, 2);
    }
    all
}

/// Nodes, with those of a variant with these labels and fields.
pub fn variant_nodes(nodes: u32, ranges: &[CaseRange], inner: u32) -> u32
    ensures { result ≡ spec.variant_nodes nodes ranges.now inner }
{
    counted(bounds_nodes(counted(nodes, 1), ranges), inner)
}

/// A step before others.
fn one_more(
    alloc: Global,
    selection: &SharedSelection,
    variant: u32,
    path: &[VariantStep],
) -> Result<VariantPath, NoMemory>
    ensures { IfOk result (λ all. all ≡ record { selection = selection.now; variant = variant } ∷ path.now) }
{
    let mut all = List::new(alloc);
    let selection = selection.share()?;
    all.push(VariantStep { selection, variant })?;
    for step in path {
        let selection = step.selection.share()?;
        let variant = step.variant;
        all.push(VariantStep { selection, variant })?;
    }
    Ok(all)
}

/// The same tag, where there is one.
fn shared(tag: &Option<TagType>) -> Result<Option<TagType>, NoMemory>
    ensures { IfOk result (λ copy. copy ≡ tag.now) }
{
    match tag {
        None => Ok(None),
        Some(tag) => Ok(Some(tag.share()?)),
    }
}

/// A field of a variant of this number.
fn inside(
    alloc: Global,
    selection: &SharedSelection,
    variant: u32,
    field: &FieldType,
) -> Result<FieldType, NoMemory>
    ensures { IfOk result (λ f. f ≡ spec.inside selection.now variant field.now) }
{
    let name = field.name.copy(alloc)?;
    let path = one_more(alloc, selection, variant, field.path.items())?;
    let tag = shared(&field.tag)?;
    Ok(FieldType {
        name,
        of: field.of,
        kind: field.kind,
        path,
        number: field.number,
        tag,
    })
}

/// Whether one of these fields has the name.
#[tactic(auto, using(crate::proofs::VariantParts::placed_among))]
fn is_among(fields: &FieldTypes, name: &Name) -> bool
    ensures { result ≡ is_among_fields fields.now name.now }
{
    field_number(fields, name).is_some()
}

/// A field more, which has the name of no other one.
fn add_field(alloc: Global, field: FieldType, all: &mut FieldTypes) -> Result<(), Refusal>
    ensures { AnswersForm (λ done. all.new) result (fields_joined (field ∷ []) all.old) }
{
    if is_among(all, &field.name) {
        return Err(Refusal::Rule(rule::TWICE));
    }
    all.push(alloc, field)?;
    Ok(())
}

/// The fields of a variant of this number more.
fn add_variant(
    alloc: Global,
    selection: &SharedSelection,
    variant: u32,
    fields: &[FieldType],
    all: &mut FieldTypes,
) -> Result<(), Refusal>
    ensures { AnswersForm (λ done. all.new) result
        (fields_joined (map (spec.inside selection.now variant) fields.now) all.old) }
{
    for field in fields {
        let field = inside(alloc, selection, variant, field)?;
        add_field(alloc, field, all)?;
    }
    Ok(())
}

/// The fields of variants more.
fn add_variants(
    alloc: Global,
    selection: &SharedSelection,
    lists: &[FieldTypes],
    all: &mut FieldTypes,
) -> Result<(), Refusal>
    ensures { AnswersForm (λ done. all.new) result (variants_joined selection.now 0 lists.now all.old) }
{
    for (place, fields) in lists.iter().enumerate() {
        add_variant(alloc, selection, number(place)?, fields.items(), all)?;
    }
    Ok(())
}

/// The tag as a field, in the component behind the other fields.
fn tag_field(
    alloc: Global,
    selection: &SharedSelection,
    component: u32,
    tag: Tag<'_>,
) -> Result<FieldType, NoMemory>
    requires { component ≡ selection.now.tag }
    ensures { IfOk result (λ f. f ≡ spec.tag_field selection.now (tag_in tag.entry)) }
{
    let name = tag.name.copy(alloc)?;
    let TagValues { host, low, high } = tag.values;
    let selection = selection.share()?;
    Ok(FieldType {
        name,
        of: tag.of.of,
        kind: Kind::Ordinal(host),
        path: List::new(alloc),
        number: component,
        tag: Some(TagType {
            selection,
            host,
            low,
            high,
        }),
    })
}

/// The fields of a list with a variant part: its own, the tag, and those of the variants.
pub fn all_fields(
    alloc: Global,
    selection: &SharedSelection,
    component: u32,
    tag: Tag<'_>,
    own: &[WrittenField],
    lists: &[FieldTypes],
) -> Result<FieldTypes, Refusal>
    requires { component ≡ selection.now.tag }
    ensures { AnswersForm (λ all. all) result
        (spec.all_fields selection.now (tag_in tag.entry) (map field_in own.now) lists.now) }
{
    let mut all = own_fields(alloc, own)?;
    let field = tag_field(alloc, selection, component, tag)?;
    add_field(alloc, field, &mut all)?;
    add_variants(alloc, selection, lists, &mut all)?;
    Ok(all)
}
