//! What has been declared in a block.

ghost use Rattle.std.specs.Prelude.{◌≡◌, length, IfOk, OnOk};
ghost use Rattle.std.specs.Option.{option_map};
ghost use Rattle.ep_check_unit.specs.Answers.{AnswersBlock, AnswersType, with_constant_entry};
ghost use Rattle.ep_check_unit.specs.Blocks.{block_of};
ghost use Rattle.ep_check_unit.specs.Declarations.{constant_entered, entered, noted, own_thing};
ghost use Rattle.ep_check_unit.specs.Checks.{IsUnitWith};
ghost use Rattle.ep_check_unit.specs.Units.{first_block};

use ep_base::{Line, List, Name, NoMemory};
use ep_rules::Refusal;
use ep_scope::{
    Declaration, Declared, Kind, Scope, ScopeRefusal, Scopes, StandardFiles, Thing, rule,
};
use ep_threats::RoutineTable;
use ep_typed::{
    ConstantEntries, ConstantEntry, ImportSpecs, TypeEntry, TypedStmt, TypedStmts, Unit, UnitType,
    UnitTypes, UnitVariables, Value,
};
use ep_unit_rules::{Bodies, OwnVariables, Written, copied_value, entry_denoter, number};
use std::alloc::{AllocError, Global};

/// What has been declared so far in the block of a unit.
pub(crate) struct Block {
    /// The unit.
    pub(crate) unit: Name,
    /// The standard files that are parameters or imported.
    pub(crate) files: StandardFiles,
    /// The scopes in view: the names that are declared, and what they stand for.
    pub(crate) scopes: Scopes,
    /// The types.
    pub(crate) types: UnitTypes,
    /// The constants.
    pub(crate) constants: ConstantEntries,
    /// The variables.
    pub(crate) variables: UnitVariables,
    /// How many variable declarations there were, those of routines among them.
    pub(crate) declarations: u32,
    /// The variables of the routine whose block is under way; none outside of routines.
    pub(crate) own: OwnVariables,
    /// The routines, by number, each of which gets its block in place. One whose body is still to come does nothing.
    pub(crate) routines: RoutineTable,
    /// The routines that are declared `forward`.
    pub(crate) forwards: List<Forward>,
    /// The numbers of the routines that have a body.
    pub(crate) bodies: Bodies,
    /// The line of the first item that is accepted and not built.
    pub(crate) waits: Option<Line>,
}

impl Drop for Block {
    fn drop(self) {
        let Block {
            unit: _,
            files: _,
            scopes: _,
            types: _,
            constants: _,
            variables: _,
            declarations: _,
            own: _,
            routines: _,
            forwards: _,
            bodies: _,
            waits: _,
        } = self;
    }
}

/// A routine that is declared `forward` (ISO 10206, 6.7.1 and 6.7.2).
#[derive(Clone, Copy, Drop)]
pub(crate) struct Forward {
    /// Its number.
    pub(crate) number: u32,
    /// The line of the declaration.
    pub(crate) line: Line,
}

impl Block {
    /// A block in which nothing is declared yet, of a unit that may use these standard files.
    pub(crate) fn new(alloc: Global, unit: Name, files: StandardFiles) -> Result<Block, NoMemory>
        ensures { IfOk result (λ b. block_of b ≡ first_block unit files) }
    {
        let scopes = Scopes::within(alloc, Scope::new(alloc))?;
        Ok(Block {
            unit,
            files,
            scopes,
            types: List::new(alloc),
            constants: List::new(alloc),
            variables: List::new(alloc),
            declarations: 0,
            own: OwnVariables::new(alloc, List::new(alloc), None, List::new(alloc)),
            routines: RoutineTable::new(alloc),
            forwards: List::new(alloc),
            bodies: Bodies::new(alloc),
            waits: None,
        })
    }

    /// The unit of a program with these statements.
    pub(crate) fn into_unit(self, imports: ImportSpecs, statements: TypedStmts) -> Unit
        ensures { IsUnitWith (block_of self) imports statements result }
    {
        let Block {
            unit,
            files: _,
            scopes: _,
            types,
            constants,
            variables,
            declarations: _,
            own: _,
            routines,
            forwards: _,
            bodies: _,
            waits: _,
        } = self;
        Unit {
            name: unit,
            program: true,
            interface: None,
            imports,
            types,
            constants,
            variables,
            routines: routines.into_list(),
            start: TypedStmt::Compound(statements),
            stop: TypedStmt::Empty,
        }
    }

    /// An item on this line is accepted, and maybe not built.
    pub(crate) fn note(&mut self, built: bool, line: Line)
        ensures { block_of self.new ≡ noted built line (block_of self.old) }
    {
        if !built && self.waits.is_none() {
            self.waits = Some(line);
        }
    }

    /// How many routines are around what is declared there.
    fn level(&self) -> Result<u32, NoMemory>
        ensures { IfOk result (λ level. level ≡ length (block_of self.now).own.enclosing) }
    {
        match u32::try_from(self.own.enclosing.items().len()) {
            Ok(level) => Ok(level),
            Err(_) => Err(AllocError),
        }
    }

    /// A declaration of this unit.
    pub(crate) fn own_thing(
        &self,
        alloc: Global,
        number: u32,
        what: Declaration,
    ) -> Result<Thing, NoMemory>
        ensures { IfOk result (λ thing. thing ≡ own_thing (block_of self.now) number what) }
    {
        let level = self.level()?;
        let unit = self.unit.copy(alloc)?;
        Ok(Thing::Declared(Declared {
            unit,
            number,
            level,
            what,
        }))
    }

    /// A name is entered, where it is not there.
    pub(crate) fn enter(&mut self, alloc: Global, name: &Name, thing: Thing) -> Result<(), Refusal>
        ensures { AnswersBlock result (block_of self.new)
            (entered name.now thing (block_of self.old)) }
    {
        let copy = name.copy(alloc)?;
        match self.scopes.enter(copy, thing) {
            Ok(()) => Ok(()),
            Err(ScopeRefusal::Twice(..)) => Err(Refusal::Rule(rule::TWICE)),
            Err(ScopeRefusal::NoMemory { .. }) => Err(Refusal::NoMemory),
            Err(ScopeRefusal::NoInterface(..)) => unreachable!(),
            Err(ScopeRefusal::NoConstituent(..)) => unreachable!(),
        }
    }

    /// A constant is entered, with its entry.
    pub(crate) fn add_constant(
        &mut self,
        alloc: Global,
        name: &Name,
        kind: Kind,
        value: &Value,
        depth: u32,
    ) -> Result<(), Refusal>
        ensures { AnswersBlock result (block_of self.new)
            (constant_entered name.now kind value.now depth (block_of self.old)) }
    {
        let number = number(self.constants.items().len())?;
        self.add_entry(alloc, name, kind, value)?;
        let copy = copied_value(alloc, value)?;
        let thing = self.own_thing(alloc, number, Declaration::Constant(kind, copy, depth))?;
        self.enter(alloc, name, thing)
    }

    /// The entry of a constant, where it has one.
    fn add_entry(
        &mut self,
        alloc: Global,
        name: &Name,
        kind: Kind,
        value: &Value,
    ) -> Result<(), NoMemory>
        ensures { OnOk result (block_of self.new ≡ with_constant_entry name.now kind value.now
            (block_of self.old)) }
    {
        let Some(denoter) = entry_denoter(alloc, kind, value)? else {
            return Ok(());
        };
        let entry = ConstantEntry {
            name: name.copy(alloc)?,
            denoter,
            value: copied_value(alloc, value)?,
        };
        self.constants.push(entry)
    }

    /// An entry more of the list of types, for a type that is written, and its number.
    pub(crate) fn add_type(
        &mut self,
        alloc: Global,
        name: Option<&Name>,
        line: Line,
        written: Written,
    ) -> Result<u32, Refusal>
        ensures { AnswersType (option_map (λ n. n.now) name.entry) line written.denoter
            (block_of self.old) result (block_of self.new) }
    {
        let number = number(self.types.items().len())?;
        let name = match name {
            None => None,
            Some(name) => Some(name.copy(alloc)?),
        };
        let entry = TypeEntry {
            module: self.unit.copy(alloc)?,
            number,
            name,
            formals: List::new(alloc),
            denoter: written.into_denoter(),
        };
        let line = Some(line);
        self.types.push(UnitType { entry, line })?;
        Ok(number)
    }
}
