//! Typed units.

use crate::denoter::Denoter;
use crate::interface::{
    ConstantEntries, Formals, ImportSpecs, Interface, RoutineResult, TypeEntry,
};
use crate::tree::{TypedExprs, TypedStmt};
use ep_base::{Line, List, Name};

/// A type of a unit, or one of another unit that it reaches through names.
pub struct UnitType {
    /// What it is.
    pub entry: TypeEntry,
    /// The line of its definition, where the unit writes it.
    pub line: Option<Line>,
}

impl Drop for UnitType {
    fn drop(self) {
        let UnitType { entry: _, line: _ } = self;
    }
}

/// The types of a unit, in which its denoters name.
pub type UnitTypes = List<UnitType>;

/// A variable of a unit or a routine (ISO 10206, 6.5.1).
pub struct UnitVariable {
    /// Its name.
    pub name: Name,
    /// The line of its declaration.
    pub line: Line,
    /// The number of its declaration.
    pub declaration: u32,
    /// Its type.
    pub denoter: Denoter,
    /// The discriminant values of its type, which are evaluated once for the whole declaration.
    pub tuple: TypedExprs,
    /// Whether it is a program parameter.
    pub parameter: bool,
}

impl Drop for UnitVariable {
    fn drop(self) {
        let UnitVariable {
            name: _,
            line: _,
            declaration: _,
            denoter: _,
            tuple: _,
            parameter: _,
        } = self;
    }
}

/// The variables of a unit or a routine, by number.
pub type UnitVariables = List<UnitVariable>;

/// The numbers of routines in the list of their unit.
pub type RoutineNumbers = List<u32>;

/// A procedure or a function of a unit, or one that is declared in another one (ISO 10206, 6.7.1 and 6.7.2).
pub struct UnitRoutine {
    /// Its name.
    pub name: Name,
    /// The line of its declaration.
    pub line: Line,
    /// Its formal parameters.
    pub formals: Formals,
    /// The result, where it is a function.
    pub result: Option<RoutineResult>,
    /// Its own variables.
    pub variables: UnitVariables,
    /// The routines around it, in the innermost of which it is declared, the innermost first. A routine of the unit has none.
    pub around: RoutineNumbers,
    /// What it does.
    pub block: TypedStmt,
}

impl Drop for UnitRoutine {
    fn drop(self) {
        let UnitRoutine {
            name: _,
            line: _,
            formals: _,
            result: _,
            variables: _,
            around: _,
            block: _,
        } = self;
    }
}

/// The routines of a unit with those that are declared in them, by number, in the order of their headings in the text.
pub type UnitRoutines = List<UnitRoutine>;

/// A whole unit (ISO 10206, 6.11.1 and 6.12).
pub struct Unit {
    /// Its name.
    pub name: Name,
    /// Whether it is a program.
    pub program: bool,
    /// What other units may use of it, where it is a module.
    pub interface: Option<Interface>,
    /// What it imports.
    pub imports: ImportSpecs,
    /// Its types, in which its denoters name.
    pub types: UnitTypes,
    /// Its constants.
    pub constants: ConstantEntries,
    /// Its variables, in the order in which they are made.
    pub variables: UnitVariables,
    /// Its routines, and those that are declared in them.
    pub routines: UnitRoutines,
    /// What it does when it is started. For a program this is its block.
    pub start: TypedStmt,
    /// What it does when it is stopped.
    pub stop: TypedStmt,
}

impl Drop for Unit {
    fn drop(self) {
        let Unit {
            name: _,
            program: _,
            interface: _,
            imports: _,
            types: _,
            constants: _,
            variables: _,
            routines: _,
            start,
            stop,
        } = self;
        // By a call each, since the walk over all fields at once took four times as long to check.
        drop(start);
        drop(stop);
    }
}
