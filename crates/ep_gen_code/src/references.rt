//! The references that the code of a unit begins with.

ghost use Rattle.std.specs.Prelude.{◌≡◌, IfOk, length, pos};
ghost use Rattle.ep_gen_code.specs.Growth.{IsTable, in_row};
ghost use Rattle.ep_gen_code.specs.Referring.{type_reference};
ghost use Rattle.ep_simulation.specs.Promises.{swap_routine};
ghost use Rattle.ep_typed.specs.Routines.{first_private};

use crate::jumps::{field_number, place_number};
use crate::tables::ReferenceTable;
use ep_base::NoMemory;
use ep_typed::Unit;
use std::alloc::Global;

/// The reference to the routine that leaves two operands in the other order.
pub const SWAP: u32 = 0;

/// The reference to the routine that gives the value of a component of an array to others.
pub const FILL: u32 = 1;

/// The reference to the routine that leaves the indexes of a range, and what tests them.
pub const RANGE: u32 = 2;

/// The reference to the routine that leaves what the components with the indexes of a range are given by.
pub const SPREAD: u32 = 3;

/// The first of the references to the routines that elaborate types.
const TYPES: u32 = 4;

/// How many routines of an object stand between those of its unit and the first one to which these lead: the start and the
/// stop.
const START_AND_STOP: u64 = 2;

/// The reference to the routine that elaborates the type with this number.
pub fn type_reference(number: u32) -> i64
    ensures { result ≡ pos (type_reference number) }
{
    (TYPES as u64 + number as u64) as i64
}

/// The first references of a unit, to routines that stand in this order behind those of the unit, its start and its stop: the
/// one that leaves two operands in the other order, those that give values to components of arrays, and those that elaborate the
/// unit's types.
pub fn first_references(alloc: Global, unit: &Unit) -> Result<ReferenceTable, NoMemory>
    ensures row { IfOk result
        (λ references. references
        ≡ in_row unit.now.name (swap_routine (first_private unit.now)) (type_reference (length
        unit.now.types))) }
    ensures small { IfOk result (λ references. IsTable references) }
{
    let first = field_number(unit.routines.items().len())? as u64 + START_AND_STOP;
    let count = TYPES as u64 + field_number(unit.types.items().len())? as u64;
    let mut references = ReferenceTable::new(alloc);
    for index in 0..count {
        let number = place_number(first + index)?;
        references.push(alloc, &unit.name, number)?;
    }
    Ok(references)
}
