//! What is declared as code names it that so many routines are around, which is its depth.

ghost use Rattle.std.specs.Prelude.{◌≡◌, IfOk};
ghost use Rattle.ep_typed.specs.Trees.{entire};
ghost use Rattle.ep_typed.specs.Viewed.{callee_of, place_of};
ghost use Rattle.ep_scope.specs.Meanings.{field_meant};
ghost use Rattle.ep_scope.specs.Records.{variable_of};
ghost use Rattle.ep_rules.specs.Arguments.{callee_at, own_place};
ghost use Rattle.ep_rules.specs.Names.{field_place, tagged_place};

use crate::fields::{along, reached};
use ep_base::{Boxed, NoMemory};
use ep_scope::{Declared, OpenField, RecordVariable};
use ep_typed::{Callee, TypedPlace};
use std::alloc::Global;

/// The place of a variable of a routine.
pub fn own_place(depth: u32, d: &Declared) -> TypedPlace
    ensures { place_of result ≡ own_place depth d.now }
{
    TypedPlace::Own(depth.saturating_sub(d.level), d.number)
}

/// A routine that is called.
pub fn callee_at(alloc: Global, depth: u32, d: &Declared) -> Result<Callee, NoMemory>
    ensures { IfOk result (λ callee. callee_of callee ≡ callee_at depth d.now) }
{
    let levels = match d.level {
        0 => 0,
        level => depth.saturating_sub(level) + 1,
    };
    Ok(Callee {
        unit: d.unit.copy(alloc)?,
        number: d.number,
        levels,
    })
}

/// The variable that stands for an open record.
fn record_place(alloc: Global, variable: RecordVariable<'_>) -> Result<TypedPlace, NoMemory>
    ensures { IfOk result (λ place. place_of place ≡ entire (variable_of variable.entry)) }
{
    match variable {
        RecordVariable::Unit(unit, number) => Ok(TypedPlace::Variable(unit.copy(alloc)?, number)),
        RecordVariable::Own(number) => Ok(TypedPlace::Own(0, number)),
    }
}

/// The place of a field of an open record.
pub fn field_place(alloc: Global, field: OpenField<'_>) -> Result<TypedPlace, NoMemory>
    ensures { IfOk result (λ place. place_of place ≡ field_place (field_meant field.entry)) }
{
    let whole = Boxed::new(alloc, record_place(alloc, field.variable)?)?;
    reached(alloc, field.field, whole)
}

/// The place of the record, or of the variant in it, that a field of an open record belongs to.
pub fn tagged_place(alloc: Global, field: OpenField<'_>) -> Result<TypedPlace, NoMemory>
    ensures { IfOk result (λ place. place_of place ≡ tagged_place (field_meant field.entry)) }
{
    let whole = Boxed::new(alloc, record_place(alloc, field.variable)?)?;
    let place = along(alloc, field.field.path.items(), whole)?;
    Ok(place.into_inner())
}
