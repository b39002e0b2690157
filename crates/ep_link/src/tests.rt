//! Two objects that refer to each other, linked in both orders.

use super::*;
use ep_base::{Bytes, List, Name, NameRefusal, NoMemory};
use ep_object::{
    CodeRoutine, ConstantType, ConstantTypes, Image, Instr, Object, Reference, References, Texts,
    op,
};
use std::alloc::Global;
use std::test::Fail;

/// What an object is made of, besides the constant types that both have: a string type, and a record of a required
/// type, the string type and a type that is not there.
struct Parts {
    name: &'static [u8],
    references: &'static [(&'static [u8], u32)],
    texts: &'static [u8],
    entries: &'static [u32],
    slots: u32,
    code: &'static [(u8, i64, u32)],
}

/// It calls a routine of `lib`, names a slot of it, and refers to a unit that is not there.
const MAIN: Parts = Parts {
    name: b"main",
    references: &[(b"lib", 1), (b"lib", 2), (b"gone", 0)],
    texts: b"a",
    entries: &[0, 8],
    slots: 1,
    code: &[
        (op::CALL, 0, 1),
        (op::UNIT, 1, 0),
        (op::CALL, 2, 0),
        (op::UNIT, 2, 0),
        (op::TEXT, 0, 0),
        (op::TEXT, 1, 0),
        (op::JUMP, 8, 0),
        (op::T_CONST, 1, 0),
        (op::RETURN, 0, 0),
    ],
};

/// It calls a routine of `main`, and names a slot that `main` has not got.
const LIB: Parts = Parts {
    name: b"lib",
    references: &[(b"main", 0), (b"main", 5)],
    texts: b"bc",
    entries: &[0, 1],
    slots: 3,
    code: &[
        (op::CALL, 0, 0),
        (op::UNIT, 1, 0),
        (op::TEXT, 1, 0),
        (op::JUMP_FALSE, 0, 0),
        (op::UNIT, -1, 1),
        (op::T_CONST, 0, 0),
        (op::PUSH, 3, 0),
        (op::RETURN, 0, 0),
    ],
};

/// The references of an object.
fn references(alloc: Global, parts: &Parts) -> Result<References, NameRefusal> {
    let mut references = List::new(alloc);
    for (unit, number) in parts.references {
        let unit = Name::from_bytes(alloc, unit)?;
        let reference = Reference {
            unit,
            number: *number,
        };
        references.push(reference)?;
    }
    Ok(references)
}

/// The texts of an object, one for each byte.
fn texts(alloc: Global, parts: &Parts) -> Result<Texts, NoMemory> {
    let mut texts = List::new(alloc);
    for byte in parts.texts {
        texts.push(Bytes::from_slice(alloc, &[*byte])?)?;
    }
    Ok(texts)
}

/// The constant types of each object.
fn constant_types(alloc: Global) -> Result<ConstantTypes, NoMemory> {
    let mut types = List::new(alloc);
    types.push(ConstantType::Str(9))?;
    let components = List::from_slice(alloc, &[1, 7, 9])?;
    types.push(ConstantType::Rec(components))?;
    Ok(types)
}

/// The routines of an object.
fn routines(alloc: Global, parts: &Parts) -> Result<List<CodeRoutine>, NoMemory> {
    let mut routines = List::new(alloc);
    for entry in parts.entries {
        routines.push(CodeRoutine {
            entry: *entry,
            arguments: 0,
            slots: 0,
        })?;
    }
    Ok(routines)
}

/// The instructions of an object.
fn instructions(alloc: Global, parts: &Parts) -> Result<List<Instr>, NoMemory> {
    let mut instructions = List::new(alloc);
    for (op, a, b) in parts.code {
        instructions.push(Instr {
            op: *op,
            a: *a,
            b: *b,
            line: 1,
        })?;
    }
    Ok(instructions)
}

/// The object that has these parts, which its first routine starts and its second one stops.
fn object(alloc: Global, parts: &Parts) -> Result<Object, NameRefusal> {
    Ok(Object {
        module: false,
        name: Name::from_bytes(alloc, parts.name)?,
        interface: List::new(alloc),
        imports: List::new(alloc),
        references: references(alloc, parts)?,
        texts: texts(alloc, parts)?,
        constant_types: constant_types(alloc)?,
        routines: routines(alloc, parts)?,
        unit_slots: parts.slots,
        start: 0,
        stop: 1,
        instructions: instructions(alloc, parts)?,
    })
}

/// The numbers of units and routines.
fn tell_parts(image: &Image, told: &mut Vec<i64>) -> Result<(), NoMemory> {
    for unit in image.units.items() {
        told.extend_from_slice(&[unit.slots.into(), unit.start.into(), unit.stop.into()])?;
    }
    for routine in image.routines.items() {
        told.extend_from_slice(&[routine.entry.into(), routine.unit.into()])?;
    }
    Ok(())
}

/// The first byte of each text, and the components of each record type.
fn tell_values(image: &Image, told: &mut Vec<i64>) -> Result<(), NoMemory> {
    for text in image.texts.items() {
        told.push(text.items().first().copied().unwrap_or(0).into())?;
    }
    for constant_type in image.constant_types.items() {
        if let ConstantType::Rec(components) = constant_type {
            for component in components.items() {
                told.push(i64::from(*component))?;
            }
        }
    }
    Ok(())
}

/// The numbers of an image: those of its units and routines, its texts and record types, and the fields of its
/// instructions.
fn numbers(alloc: Global, image: &Image) -> Result<Vec<i64>, NoMemory> {
    let mut told = Vec::new(alloc);
    tell_parts(image, &mut told)?;
    tell_values(image, &mut told)?;
    for instr in image.instructions.items() {
        told.extend_from_slice(&[instr.a, instr.b.into()])?;
    }
    Ok(told)
}

/// The number of what is not there.
const NONE: i64 = 4_294_967_295;

/// What the image of `main` before `lib` has, with the parts of each in a line.
const MAIN_FIRST: &[i64] = &[
    1, 0, 1, 3, 2, 3, // units
    0, 0, 8, 0, 9, 1, 10, 1, // routines
    97, 98, 99, // texts
    1, 7, NONE, 1, 9, NONE, // components
    3, 1, 1, 2, NONE, 0, NONE, NONE, 0, 0, NONE, 0, 8, 0, 1, 0, 0, 0, // instructions of main
    0, 0, 0, NONE, 2, 0, 9, 0, -1, 1, 2, 0, 3, 0, 0, 0, // instructions of lib
];

/// What the image of `lib` before `main` has.
const LIB_FIRST: &[i64] = &[
    3, 0, 1, 1, 2, 3, // units
    0, 0, 1, 0, 8, 1, 16, 1, // routines
    98, 99, 97, // texts
    1, 7, NONE, 1, 9, NONE, // components
    2, 0, 1, NONE, 1, 0, 0, 0, -1, 1, 0, 0, 3, 0, 0, 0, // instructions of lib
    1, 1, 0, 2, NONE, 0, NONE, NONE, 2, 0, NONE, 0, 16, 0, 3, 0, 0, 0, // instructions of main
];

#[test]
fn objects_that_refer_to_each_other_are_linked_in_both_orders(rt: HostRuntime) -> Result<(), Fail> {
    let alloc = rt.alloc();
    let mut objects = Vec::new(alloc);
    objects.push(object(alloc, &MAIN)?)?;
    objects.push(object(alloc, &LIB)?)?;
    for (order, wanted) in [([0, 1], MAIN_FIRST), ([1, 0], LIB_FIRST)] {
        let image = linked_image(alloc, objects.as_slice(), order.as_slice())?;
        let told = numbers(alloc, &image)?;
        assert!(rt; told.as_slice() == wanted, "at {}", order[0]);
    }
    Ok(())
}
