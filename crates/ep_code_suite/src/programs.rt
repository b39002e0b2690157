//! The objects of typed programs and how many nodes these have, with instructions by hand. Behind an instruction stands
//! its line where it has one, and before the first one of a routine `Routine` with the routine's number, how many
//! arguments it takes and how many slots it has.

use crate::instructions::tell;
use crate::typed_trees::builder::{Builder, Unbuilt};
use crate::typed_trees::unit_of;
use ep_base::{Boxed, Line, List, Name};
use ep_gen_unit::{laws_of_programs, program_code};
use ep_object::Object;
use ep_typed::{
    Bound, Denoter, RequiredType, TypeEntry, Unit, UnitType, UnitTypes, UnitVariable,
    UnitVariables, Value, laws_of_denoters, unit_nodes,
};
use std::alloc::{AllocError, Global};
use std::test::Fail;

/// The denoter `0..9`.
fn digits(alloc: Global) -> Result<Denoter, Unbuilt> {
    let host = Boxed::new(alloc, Denoter::Required(RequiredType::Integer))?;
    Ok(Denoter::Subrange(host, Bound::Constant(0), Bound::Constant(9)))
}

/// The type `digit = 0..9`, on line 1.
fn digit(alloc: Global) -> Result<UnitTypes, Unbuilt> {
    let entry = TypeEntry {
        module: Name::from_bytes(alloc, b"main")?,
        number: 0,
        name: Some(Name::from_bytes(alloc, b"digit")?),
        formals: List::new(alloc),
        denoter: digits(alloc)?,
    };
    let mut types = List::new(alloc);
    types.push(UnitType {
        entry,
        line: Some(1),
    })?;
    Ok(types)
}

/// A variable of this type, the only one of its declaration.
pub(crate) fn variable(
    alloc: Global,
    name: &[u8],
    line: Line,
    denoter: Denoter,
) -> Result<UnitVariable, Unbuilt> {
    Ok(UnitVariable {
        name: Name::from_bytes(alloc, name)?,
        line,
        declaration: line,
        denoter,
        tuple: List::new(alloc),
        parameter: false,
    })
}

/// The variables `x: digit` and `y: 0..9`, on lines 1 and 2.
fn two_digits(alloc: Global) -> Result<UnitVariables, Unbuilt> {
    let mut variables = List::new(alloc);
    let named = Denoter::Named(0, List::new(alloc));
    variables.push(variable(alloc, b"x", 1, named)?)?;
    variables.push(variable(alloc, b"y", 2, digits(alloc)?)?)?;
    Ok(variables)
}

/// A program with these types and variables, whose block is `y := 7` on line 4.
fn program(alloc: Global) -> Result<Unit, Unbuilt> {
    let types = digit(alloc)?;
    let variables = two_digits(alloc)?;
    let statements = Builder::after(alloc, "7 assign:1")?.into_statements();
    unit_of(alloc, types, variables, statements)
}

/// The object of that program, with the routines that structured values call: the one that leaves two operands in the
/// other order, and those that give values to components of arrays. Behind these stands the routine of its type.
const PROGRAM: &str = "\
Routine 0 0 0; Call 4 @1; Make 0 @1; Push 0 @2; Push 9 @2; TOrd @2; Make 1 @2; \
Unit 5 @4; Push 7 @4; Store @4; Return; \
Routine 1 0 0; Return; \
Routine 2 2 0; Arg 1; Arg 0; Return; \
Routine 3 4 1; Arg 0; Bind 0; Peek 2; Dup; Slot 0; Call 0; Index; Slot 0; Peek 1; Index; Load; Store; \
Dup; Peek 3; Cmp 2; JumpFalse 33; Push 1; Add; Jump 17; Drop; Return; \
Routine 4 3 1; Arg 0; Bind 0; Peek 1; Peek 2; Slot 0; Slot 0; Peek 2; Slot 0; Peek 1; Return; \
Routine 5 5 1; Arg 2; Bind 0; Slot 0; Arg 3; Slot 0; Peek 0; Peek 0; Peek 1; \
Arg 4; Slot 0; Peek 0; Peek 0; Peek 1; Cmp 4; Return; \
Routine 6 0 0; Push 0 @1; Push 9 @1; TOrd @1; Return @1; \
routines 7, start 0, stop 1, slots 2, references 6";

/// Tells the routines that begin at this place, each by its number, its arguments and its slots.
fn tell_routines(out: &mut String, object: &Object, place: u32) -> Result<(), AllocError> {
    for (number, routine) in object.routines.items().iter().enumerate() {
        if routine.entry == place {
            write!(
                out,
                "Routine {number} {} {}; ",
                routine.arguments, routine.slots
            )?;
        }
    }
    Ok(())
}

/// Tells how many routines an object has, which of them start and stop the unit, its slots and its references.
fn tell_numbers(out: &mut String, object: &Object) -> Result<(), AllocError> {
    let routines = object.routines.items().len();
    let references = object.references.items().len();
    write!(
        out,
        "routines {routines}, start {}, stop {}, ",
        object.start, object.stop
    )?;
    write!(out, "slots {}, references {references}", object.unit_slots)
}

/// Tells an object, each instruction with its line where it has one.
fn told(alloc: Global, object: &Object) -> Result<String, AllocError> {
    let mut out = String::new(alloc);
    let mut place: u32 = 0;
    for instr in object.instructions.items() {
        tell_routines(&mut out, object, place)?;
        tell(&mut out, *instr, 0)?;
        out.push_str("; ")?;
        place = place.wrapping_add(1);
    }
    tell_numbers(&mut out, object)?;
    Ok(out)
}

/// Tells the object of a program.
fn outcome(alloc: Global, unit: &Unit) -> Result<String, Unbuilt> {
    let object = program_code(alloc, unit)?;
    Ok(told(alloc, &object)?)
}

#[test]
fn a_program_has_its_object(rt: HostRuntime) -> Result<(), Fail> {
    let unit = program(rt.alloc())?;
    let told = outcome(rt.alloc(), &unit)?;
    assert_eq!(rt; told.as_str(), PROGRAM);
    laws_of_programs();
    laws_of_denoters();
    Ok(())
}

// The type: 4 with its host and bounds. The variables: 1 and its name, 1 and the four. The statements: the compound one,
// and the assignment with a place, a constant and its value; the empty one of the stop.
#[test]
fn the_nodes_of_a_program_are_counted(rt: HostRuntime) -> Result<(), Fail> {
    let unit = program(rt.alloc())?;
    assert_eq!(rt; unit_nodes(&unit), 4 + 2 + 5 + 1 + 4 + 1);
    Ok(())
}

/// The variables `x: 0..9 value 3` and `s: set of 0..9 value [1, 4]`, on lines 1 and 2.
fn two_started(alloc: Global) -> Result<UnitVariables, Unbuilt> {
    let mut variables = List::new(alloc);
    let digit = Boxed::new(alloc, digits(alloc)?)?;
    let three = Denoter::Initial(digit, Value::Word(3));
    variables.push(variable(alloc, b"x", 1, three)?)?;
    let set = Denoter::Set(Boxed::new(alloc, digits(alloc)?)?);
    let members = List::from_slice(alloc, &[1, 4])?;
    let two = Denoter::Initial(Boxed::new(alloc, set)?, Value::Set(members));
    variables.push(variable(alloc, b"s", 2, two)?)?;
    Ok(variables)
}

/// A program with these variables, whose block is empty.
fn started_program(alloc: Global) -> Result<Unit, Unbuilt> {
    let types = List::new(alloc);
    let variables = two_started(alloc)?;
    let statements = Builder::after(alloc, "")?.into_statements();
    unit_of(alloc, types, variables, statements)
}

/// The object of that program.
const STARTED: &str = "\
Routine 0 0 0; Push 0 @1; Push 9 @1; TOrd @1; Push 3 @1; TInit @1; Make 0 @1; \
Push 0 @2; Push 9 @2; TOrd @2; TSet @2; SetNone @2; Push 1 @2; SetAdd @2; Push 4 @2; SetAdd @2; TInit @2; Make 1 @2; \
Return; \
Routine 1 0 0; Return; \
Routine 2 2 0; Arg 1; Arg 0; Return; \
Routine 3 4 1; Arg 0; Bind 0; Peek 2; Dup; Slot 0; Call 0; Index; Slot 0; Peek 1; Index; Load; Store; \
Dup; Peek 3; Cmp 2; JumpFalse 41; Push 1; Add; Jump 25; Drop; Return; \
Routine 4 3 1; Arg 0; Bind 0; Peek 1; Peek 2; Slot 0; Slot 0; Peek 2; Slot 0; Peek 1; Return; \
Routine 5 5 1; Arg 2; Bind 0; Slot 0; Arg 3; Slot 0; Peek 0; Peek 0; Peek 1; \
Arg 4; Slot 0; Peek 0; Peek 0; Peek 1; Cmp 4; Return; \
routines 6, start 0, stop 1, slots 2, references 4";

#[test]
fn initial_states_have_their_code(rt: HostRuntime) -> Result<(), Fail> {
    let unit = started_program(rt.alloc())?;
    let told = outcome(rt.alloc(), &unit)?;
    assert_eq!(rt; told.as_str(), STARTED);
    Ok(())
}

// A variable 1, its denoter 1, a subrange 4 and a value 1; and then one more for the set, and two for its members. The
// statements: the compound one, and the empty one of the stop.
#[test]
fn the_nodes_of_initial_states_are_counted(rt: HostRuntime) -> Result<(), Fail> {
    let unit = started_program(rt.alloc())?;
    assert_eq!(rt; unit_nodes(&unit), 7 + 10 + 1 + 1);
    Ok(())
}
