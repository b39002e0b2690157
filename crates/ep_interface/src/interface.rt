//! The interfaces of units: what other units may use of one (ISO 10206, 6.11).

use crate::denoter::EntryDenoter;
use crate::value::EntryValue;
use ep_base::{List, Name};

/// A formal discriminant of a schema (ISO 10206, 6.4.7).
pub struct SchemaFormal {
    /// Its name.
    pub name: Name,
    /// Its type.
    pub denoter: EntryDenoter,
}

impl Drop for SchemaFormal {
    fn drop(self) {
        let SchemaFormal {
            name: _,
            denoter: _,
        } = self;
    }
}

/// The formal discriminants of a schema, in order.
pub type SchemaFormals = List<SchemaFormal>;

/// A type that was defined, or a denoter that was written (ISO 10206, 6.4.1).
pub struct TypeEntry {
    /// The unit that writes it.
    pub module: Name,
    /// Its number among the types of that unit.
    pub number: u32,
    /// Its name, where it has one.
    pub name: Option<Name>,
    /// The formal discriminants, where it is a schema.
    pub formals: SchemaFormals,
    /// What it is.
    pub denoter: EntryDenoter,
}

impl Drop for TypeEntry {
    fn drop(self) {
        let TypeEntry {
            module: _,
            number: _,
            name: _,
            formals: _,
            denoter: _,
        } = self;
    }
}

/// An owned list of types.
pub type TypeEntries = List<TypeEntry>;

/// A constant (ISO 10206, 6.3.1).
pub struct ConstantEntry {
    /// Its name.
    pub name: Name,
    /// Its type.
    pub denoter: EntryDenoter,
    /// Its value.
    pub value: EntryValue,
}

impl Drop for ConstantEntry {
    fn drop(self) {
        let ConstantEntry {
            name: _,
            denoter: _,
            value: _,
        } = self;
    }
}

/// An owned list of constants.
pub type ConstantEntries = List<ConstantEntry>;

/// A variable of a heading (ISO 10206, 6.5.1).
pub struct VariableEntry {
    /// Its name.
    pub name: Name,
    /// Its type.
    pub denoter: EntryDenoter,
}

impl Drop for VariableEntry {
    fn drop(self) {
        let VariableEntry {
            name: _,
            denoter: _,
        } = self;
    }
}

/// The variables of a heading, by number.
pub type VariableEntries = List<VariableEntry>;

/// How a formal parameter is given (ISO 10206, 6.7.3.1).
#[derive(Clone, Copy, Drop)]
pub enum FormalMode {
    /// A value parameter.
    Value,
    /// A variable parameter.
    Variable,
    /// A protected value parameter.
    ProtectedValue,
    /// A protected variable parameter.
    ProtectedVariable,
}

/// A formal parameter (ISO 10206, 6.7.3.1).
pub struct Formal {
    /// Its name.
    pub name: Name,
    /// How it is given.
    pub mode: FormalMode,
    /// The number of its section, counted from 0.
    pub section: u32,
    /// Its type.
    pub denoter: EntryDenoter,
}

impl Drop for Formal {
    fn drop(self) {
        let Formal {
            name: _,
            mode: _,
            section: _,
            denoter: _,
        } = self;
    }
}

/// The formal parameters of a routine, in order.
pub type Formals = List<Formal>;

/// The result of a function (ISO 10206, 6.7.2).
pub struct RoutineResult {
    /// The name of its result variable, where it has one.
    pub name: Option<Name>,
    /// Its type.
    pub denoter: EntryDenoter,
}

impl Drop for RoutineResult {
    fn drop(self) {
        let RoutineResult {
            name: _,
            denoter: _,
        } = self;
    }
}

/// The heading of a procedure or a function (ISO 10206, 6.7.1 and 6.7.2).
pub struct RoutineEntry {
    /// Its name.
    pub name: Name,
    /// Its formal parameters.
    pub formals: Formals,
    /// The result, where it is a function.
    pub result: Option<RoutineResult>,
}

impl Drop for RoutineEntry {
    fn drop(self) {
        let RoutineEntry {
            name: _,
            formals: _,
            result: _,
        } = self;
    }
}

/// An owned list of routine headings.
pub type RoutineEntries = List<RoutineEntry>;

/// What a constituent of an interface is (ISO 10206, 6.11.2).
#[derive(Clone, Copy, Drop)]
pub enum ConstituentKind {
    /// A constant.
    Constant,
    /// A type or a schema.
    Type,
    /// A variable.
    Variable,
    /// A procedure or a function.
    Routine,
}

/// A constituent of an exported interface (ISO 10206, 6.11.2).
pub struct Constituent {
    /// The name by which it is exported.
    pub name: Name,
    /// What it is.
    pub kind: ConstituentKind,
    /// Its place in the list of its kind, counted from 0.
    pub index: u32,
    /// Whether it is exported as protected.
    pub protected: bool,
}

impl Drop for Constituent {
    fn drop(self) {
        let Constituent {
            name: _,
            kind: _,
            index: _,
            protected: _,
        } = self;
    }
}

/// The constituents of an exported interface.
pub type Constituents = List<Constituent>;

/// An exported interface (ISO 10206, 6.11.2).
pub struct ExportEntry {
    /// Its name.
    pub interface: Name,
    /// What it has.
    pub constituents: Constituents,
}

impl Drop for ExportEntry {
    fn drop(self) {
        let ExportEntry {
            interface: _,
            constituents: _,
        } = self;
    }
}

/// The interfaces that a module exports.
pub type ExportEntries = List<ExportEntry>;

/// A constituent that is imported, and its name here (ISO 10206, 6.11.3).
pub struct NamePair {
    /// The name in the interface.
    pub constituent: Name,
    /// The name here.
    pub here: Name,
}

impl Drop for NamePair {
    fn drop(self) {
        let NamePair {
            constituent: _,
            here: _,
        } = self;
    }
}

/// An owned list of imported constituents.
pub type NamePairs = List<NamePair>;

/// One import (ISO 10206, 6.11.3).
pub struct ImportSpec {
    /// The interface that is imported.
    pub interface: Name,
    /// Whether its constituents are named by the interface alone.
    pub qualified: bool,
    /// Whether only the listed constituents are imported.
    pub only: bool,
    /// The constituents that are listed.
    pub pairs: NamePairs,
}

impl Drop for ImportSpec {
    fn drop(self) {
        let ImportSpec {
            interface: _,
            qualified: _,
            only: _,
            pairs: _,
        } = self;
    }
}

/// An owned list of imports.
pub type ImportSpecs = List<ImportSpec>;

/// All that other units may use of a unit (ISO 10206, 6.11.1).
pub struct Interface {
    /// The unit.
    pub module: Name,
    /// What its heading imports.
    pub imports: ImportSpecs,
    /// Its types, in which its denoters name.
    pub types: TypeEntries,
    /// Its constants.
    pub constants: ConstantEntries,
    /// Its variables.
    pub variables: VariableEntries,
    /// Its routines.
    pub routines: RoutineEntries,
    /// The interfaces that it exports.
    pub exports: ExportEntries,
}

impl Drop for Interface {
    fn drop(self) {
        let Interface {
            module: _,
            imports: _,
            types: _,
            constants: _,
            variables: _,
            routines: _,
            exports: _,
        } = self;
    }
}
