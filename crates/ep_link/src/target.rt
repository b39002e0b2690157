//! What the references of an object become.

ghost use Rattle.std.specs.Prelude.{◌≡◌, map, IfOk};
ghost use Rattle.ep_link.specs.Targets.{nothing, target_of, target_at, target_in};

use crate::span::MISSING;
use crate::units::Units;
use ep_base::NoMemory;
use ep_object::Reference;
use std::alloc::Global;

/// The numbers in the image of what a reference names: as a routine, and as a slot of a unit. What is not there is
/// `MISSING`.
#[derive(Clone, Copy, Drop)]
pub struct Target {
    /// The routine.
    pub routine: u32,
    /// The unit.
    pub unit: u32,
    /// The slot.
    pub slot: u32,
}

/// The target of what names nothing.
const NOTHING: Target = Target {
    routine: MISSING,
    unit: MISSING,
    slot: MISSING,
};

/// The targets of references, in order, each looked up once.
#[tactic(auto, using(crate::proofs::Appended::mapped))]
pub fn targets_of(
    alloc: Global,
    units: &Units,
    references: &[Reference],
) -> Result<Vec<Target>, NoMemory>
    ensures { IfOk result (λ targets. targets.items ≡ map (target_in units.now) references.now) }
{
    let mut targets = Vec::new(alloc);
    for reference in references {
        targets.push(target_in(units, reference))?;
    }
    Ok(targets)
}

/// The target of a reference.
fn target_in(units: &Units, reference: &Reference) -> Target
    ensures { result ≡ target_in units.now reference.now }
{
    let Some(placement) = units.named(&reference.unit) else {
        return NOTHING;
    };
    Target {
        routine: placement.routines.moved(reference.number),
        unit: placement.unit,
        slot: placement.slot(reference.number),
    }
}

/// The target of the reference that a field names.
pub fn target_at(targets: &[Target], field: i64) -> Target
    ensures { result ≡ target_at targets.now field }
{
    if field < 0 {
        return NOTHING;
    }
    match targets.get(field as usize) {
        Some(target) => *target,
        None => NOTHING,
    }
}
