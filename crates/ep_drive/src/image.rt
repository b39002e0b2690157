//! The image of one object alone.

ghost use Rattle.std.specs.Prelude.{◌≡◌, ◌∷◌, [], length, map, IfOk, MatchOption, Some, None};
ghost use Rattle.ep_object.specs.Placing.{alone, first_placement, first_span, moved, moved_field, placed, placed_call, placed_unit, placed_object_unit, placed_routine, reference_at, referred, number_of};
ghost use Rattle.ep_drive.specs.Images.{placed_in, placements_in};

use ep_base::{List, NoMemory};
use ep_object::{
    CodeRoutine, Image, ImageRoutine, ImageRoutines, ImageUnit, Instr, Instrs, Object, Reference,
    op,
};
use std::alloc::Global;

/// The number of what is not there.
const MISSING: u32 = u32::MAX;

/// The image of an object without constant types.
pub fn image_alone(alloc: Global, object: Object) -> Result<Image, NoMemory>
    requires { object.constant_types ≡ [] }
    ensures { IfOk result (λ image. image ≡ alone object) }
{
    let mut units = List::new(alloc);
    units.push(unit_alone(alloc, &object)?)?;
    let routines = routines_alone(alloc, &object)?;
    let instructions = instructions_alone(alloc, &object)?;
    Ok(Image {
        units,
        routines,
        texts: object.into_texts(),
        constant_types: List::new(alloc),
        instructions,
    })
}

/// The object's unit.
fn unit_alone(alloc: Global, object: &Object) -> Result<ImageUnit, NoMemory>
    ensures { IfOk result (λ unit. unit ≡ placed_object_unit (first_placement object.now) object.now) }
{
    let own = object.routines.items().len();
    Ok(ImageUnit {
        name: object.name.copy(alloc)?,
        slots: object.unit_slots,
        start: moved(own, object.start),
        stop: moved(own, object.stop),
    })
}

/// The object's routines.
#[tactic(auto, using(crate::proofs::Placed::mapped))]
fn routines_alone(alloc: Global, object: &Object) -> Result<ImageRoutines, NoMemory>
    ensures { IfOk result (λ routines. routines
        ≡ map (placed_routine (first_placement object.now)) object.now.routines) }
{
    let mut routines = List::new(alloc);
    for routine in object.routines.items() {
        routines.push(placed_routine(object, *routine))?;
    }
    Ok(routines)
}

/// A routine as it stands in the image.
fn placed_routine(object: &Object, routine: CodeRoutine) -> ImageRoutine
    ensures { result ≡ placed_routine (first_placement object.now) routine }
{
    ImageRoutine {
        entry: moved(object.instructions.items().len(), routine.entry),
        unit: 0,
        arguments: routine.arguments,
        slots: routine.slots,
    }
}

/// The object's instructions.
#[tactic(auto, using(crate::proofs::Placed::mapped))]
fn instructions_alone(alloc: Global, object: &Object) -> Result<Instrs, NoMemory>
    ensures { IfOk result (λ instructions. instructions ≡ map (placed_in object.now) object.now.instructions) }
{
    let mut instructions = List::new(alloc);
    for instr in object.instructions.items() {
        instructions.push(placed_instr(object, *instr))?;
    }
    Ok(instructions)
}

/// An instruction as it stands in the image.
fn placed_instr(object: &Object, instr: Instr) -> Instr
    ensures { result ≡ placed_in object.now instr }
{
    match instr.op {
        op::TEXT => moved_instr(object.texts.items().len(), instr),
        op::JUMP | op::JUMP_FALSE => moved_instr(object.instructions.items().len(), instr),
        op::T_CONST => moved_instr(object.constant_types.items().len(), instr),
        op::CALL => placed_call(object, instr),
        op::UNIT if instr.a == -1 => instr,
        op::UNIT => placed_unit(object, instr),
        _ => instr,
    }
}

/// An instruction whose first field is a number of the object's own, of which there are so many.
fn moved_instr(own: usize, instr: Instr) -> Instr
    ensures { result ≡ record instr { a = moved_field (first_span own) instr.a } }
{
    let a = if 0 <= instr.a && (instr.a as u64) < own as u64 {
        instr.a
    } else {
        i64::from(MISSING)
    };
    Instr { a, ..instr }
}

/// A call as it stands in the image.
fn placed_call(object: &Object, instr: Instr) -> Instr
    ensures { result ≡ placed_call (placements_in object.now) (reference_at object.now.references instr.a) instr }
{
    let routine = match own_number(object, instr.a) {
        Some(number) => moved(object.routines.items().len(), number),
        None => MISSING,
    };
    Instr {
        a: i64::from(routine),
        ..instr
    }
}

/// The place of a slot as it stands in the image.
fn placed_unit(object: &Object, instr: Instr) -> Instr
    ensures { result ≡ placed_unit (placements_in object.now) (reference_at object.now.references instr.a) instr }
{
    let (unit, slot) = match own_number(object, instr.a) {
        Some(number) if number < object.unit_slots => (0, number),
        Some(_) => (0, MISSING),
        None => (MISSING, MISSING),
    };
    Instr {
        a: i64::from(unit),
        b: slot,
        ..instr
    }
}

/// The number that a field's reference names, where it names the object's own unit.
fn own_number(object: &Object, field: i64) -> Option<u32>
    ensures { MatchOption result
        (referred (placements_in object.now) (reference_at object.now.references field) ≡ None)
        (λ number. (referred (placements_in object.now) (reference_at object.now.references field)
        ≡ Some (first_placement object.now))
        × (number_of (reference_at object.now.references field) ≡ number)) }
{
    let reference = reference_at(object.references.items(), field)?;
    if object.name.bytes() == reference.unit.bytes() {
        Some(reference.number)
    } else {
        None
    }
}

/// The reference that a field names.
fn reference_at(references: &[Reference], field: i64) -> Option<&Reference>
    ensures { MatchOption result (reference_at references.now field ≡ None)
        (λ reference. reference_at references.now field ≡ Some reference.now) }
{
    if field < 0 {
        return None;
    }
    references.get(field as usize)
}

/// A number of the object's own, of which there are so many, as it stands in the image.
fn moved(own: usize, number: u32) -> u32
    ensures { result ≡ moved (first_span own) number }
{
    if (number as usize) < own {
        number
    } else {
        MISSING
    }
}
