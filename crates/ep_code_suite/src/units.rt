//! Units that name each other, linked by hand: the object of each is made alone, and the image runs both starts and a stop.

use crate::machine::seen;
use crate::programs::variable;
use crate::typed_trees::builder::{Builder, Unbuilt};
use crate::typed_trees::unit_of;
use ep_base::{List, Name};
use ep_gen_unit::{laws_of_units, program_code};
use ep_link::{laws_of_linking, linked_image};
use ep_object::Image;
use ep_typed::{Denoter, RequiredType, TypedStmt, Unit, UnitRoutine, UnitRoutines, UnitVariables};
use std::alloc::Global;
use std::test::Fail;

/// The variable `count: integer`.
fn count(alloc: Global) -> Result<UnitVariables, Unbuilt> {
    let mut variables = List::new(alloc);
    let integer = Denoter::Required(RequiredType::Integer);
    variables.push(variable(alloc, b"count", 1, integer)?)?;
    Ok(variables)
}

/// The statement that these words build.
fn statement(alloc: Global, words: &str) -> Result<TypedStmt, Unbuilt> {
    let built = Builder::after(alloc, words)?;
    Ok(TypedStmt::Compound(built.into_statements()))
}

/// The procedure `show`, which writes `count`.
fn show(alloc: Global) -> Result<UnitRoutines, Unbuilt> {
    let mut routines = List::new(alloc);
    routines.push(UnitRoutine {
        name: Name::from_bytes(alloc, b"show")?,
        line: 2,
        formals: List::new(alloc),
        result: None,
        variables: List::new(alloc),
        around: List::new(alloc),
        block: statement(alloc, "variable:stock.0 integer write")?,
    })?;
    Ok(routines)
}

/// A module `stock`: its start sets `count` to 1 and shows it, and its stop writes what `count` is then, and a text.
fn stock(alloc: Global) -> Result<Unit, Unbuilt> {
    let start = statement(alloc, "1 assign:stock.0 procedure:stock.0")?;
    let stop = statement(alloc, "'over' text write procedure:stock.0")?;
    let mut unit = unit_of(alloc, List::new(alloc), count(alloc)?, List::new(alloc))?;
    unit.name = Name::from_bytes(alloc, b"stock")?;
    unit.program = false;
    unit.routines = show(alloc)?;
    unit.start = start;
    unit.stop = stop;
    Ok(unit)
}

/// A program that sets the variable of `stock`, calls its procedure, and sets the variable once more.
fn main_program(alloc: Global) -> Result<Unit, Unbuilt> {
    let words = "'then' text write 5 assign:stock.0 procedure:stock.0 7 assign:stock.0";
    let statements = Builder::after(alloc, words)?.into_statements();
    unit_of(alloc, List::new(alloc), List::new(alloc), statements)
}

/// The image of both, of which `stock` is started first.
fn image(alloc: Global) -> Result<Image, Unbuilt> {
    let mut objects = List::new(alloc);
    objects.push(program_code(alloc, &main_program(alloc)?)?)?;
    objects.push(program_code(alloc, &stock(alloc)?)?)?;
    Ok(linked_image(alloc, objects.items(), &[1, 0])?)
}

#[test]
fn a_program_sets_and_calls_what_another_unit_has(rt: HostRuntime) -> Result<(), Fail> {
    let image = image(rt.alloc())?;
    let told = seen(rt.alloc(), &image, 0, 1_000)?;
    assert_eq!(rt; told.as_str(), "'1then5over7', normal, tick 69");
    laws_of_units();
    laws_of_linking();
    Ok(())
}
