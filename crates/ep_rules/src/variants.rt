//! The steps from records to their fields, those in variants among them, and the variants that values of tags select.

ghost use Rattle.std.specs.Prelude.{◌≡◌, IfOk, map};
ghost use Rattle.ep_rules.specs.VariantSteps as variants;
ghost use Rattle.ep_rules.specs.VariantSteps.{variant_step};

use crate::constant_accesses::has_index;
use ep_base::{List, NoMemory};
use ep_scope::{FieldType, VariantStep};
use ep_typed::{CaseRanges, ComponentSteps, Selection};
use std::alloc::{AllocError, Global};

/// The number of the component that is the variant to which a step leads, if 32 bits hold it.
pub(crate) fn variant_number(step: &VariantStep) -> Result<u32, NoMemory>
    ensures { IfOk result (λ number. number ≡ variant_step step.now) }
{
    let tag = step.selection.get().tag;
    match tag
        .checked_add(step.variant)
        .and_then(|number| number.checked_add(1))
    {
        Some(number) => Ok(number),
        None => Err(AllocError),
    }
}

/// The steps through variants.
fn variant_steps(alloc: Global, path: &[VariantStep]) -> Result<ComponentSteps, NoMemory>
    ensures { IfOk result (λ steps.
        steps ≡ map variant_step path.now) }
{
    let mut steps = List::new(alloc);
    for step in path {
        steps.push(variant_number(step)?)?;
    }
    Ok(steps)
}

/// The steps from a record to a field.
pub fn field_steps(alloc: Global, field: &FieldType) -> Result<ComponentSteps, NoMemory>
    ensures { IfOk result (λ steps. steps ≡ variants.field_steps field.now) }
{
    let mut steps = variant_steps(alloc, field.path.items())?;
    steps.push(field.number)?;
    if field.tag.is_some() {
        steps.push(0)?;
    }
    Ok(steps)
}

/// The first variant that has a value among its labels.
fn labelled_variant(labels: &[CaseRanges], value: i64) -> Option<usize>
    ensures { result ≡ variants.labelled_variant labels.now value }
{
    labels
        .iter()
        .position(|ranges| has_index(ranges.items(), value))
}

/// The variant that a value of a tag selects: the first one that has it among its labels, or else the one that completes them.
pub fn selected_variant(selection: &Selection, value: i64) -> usize
    ensures { result ≡ variants.selected_variant selection.now value }
{
    let labels = selection.labels.items();
    match labelled_variant(labels, value) {
        Some(number) => number,
        None => labels.len(),
    }
}
