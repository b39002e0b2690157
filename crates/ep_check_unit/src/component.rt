//! The static rules of a whole component.

ghost use Rattle.std.specs.Prelude.{◌≡◌, None, true, IfOk};
ghost use Rattle.std.specs.List.{list_all};
ghost use Rattle.std.specs.Result.{IfErr};
ghost use Rattle.ep_built.specs.Built.{component_unbuilt, is_among, program_parameters, program_unbuilt};
ghost use Rattle.ep_check_unit.specs.Answers.{AnswersBlock};
ghost use Rattle.ep_check_unit.specs.Blocks.{block_of};
ghost use Rattle.ep_check_unit.specs.Checks.{AnswersBuilt, AnswersMissing, IsChecked, IsRefusal, IsRefusalOf, unit_in};
ghost use Rattle.ep_check_unit.specs.Units.{IsTypedProgram, files_given, first_missing, has_name, imports_of, parameters_entered, program_judged, standard_file, standard_import, standard_interface};

use crate::block::{Block, Forward};
use ep_base::{Line, List, Name, NameRefusal, NoMemory};
use ep_rules::Refusal;
use ep_scope::{StandardFiles, Thing, rule};
use ep_stmt_rules::{Admission, CheckRefusal, refused_at};
use ep_tree::{Component, Program};
use ep_typed::{ImportSpec, ImportSpecs, Interface, StandardFile, TypedStmts, Unit};
use ep_unit_rules::Bodies;
use std::alloc::{AllocError, Global};

/// What a component is that breaks no rule.
pub enum Checked {
    /// The heading of a module.
    Heading(Interface),
    /// A program, or the block of a module.
    Block(Unit),
    /// A module's heading and block together.
    Both(Interface, Unit),
}

impl Drop for Checked {
    fn drop(self) {
        match self {
            Checked::Heading(_) => {}
            Checked::Block(_) => {}
            Checked::Both(_, _) => {}
        }
    }
}

impl Checked {
    /// The typed unit, where there is one.
    pub fn into_unit(self) -> Option<Unit>
        ensures { result ≡ unit_in self }
    {
        match self {
            Checked::Heading(_) => None,
            Checked::Block(unit) => Some(unit),
            Checked::Both(_, unit) => Some(unit),
        }
    }
}

/// The typed unit of a component, under the interfaces that are given. Of a component that breaks a rule the first item
/// that does is named, in the order of the text, and a rule that fails there. No form asks for an interface so far, so
/// those that are given play no part.
pub fn check(
    alloc: Global,
    component: &Component,
    _given: &[Interface],
) -> Result<Checked, CheckRefusal>
    requires { component_unbuilt component.now ≡ None }
    ensures typed { IfOk result (λ checked. IsChecked component.now checked) }
    ensures refused { IfErr result (λ refusal. IsRefusal component.now refusal) }
{
    let Component::Program(program) = component else {
        unreachable!()
    };
    let unit = check_program(alloc, program)?;
    Ok(Checked::Block(unit))
}

/// The typed unit of a program.
fn check_program(alloc: Global, p: &Program) -> Result<Unit, CheckRefusal>
    requires { program_unbuilt p.now ≡ None }
    ensures typed { IfOk result (λ u. IsTypedProgram p.now u) }
    ensures refused { IfErr result (λ refusal. IsRefusalOf (program_judged p.now) refusal) }
{
    let files = files_given(p.parameters.items());
    let mut block = Block::new(alloc, p.name.copy(alloc)?, files)?;
    if let Err(refusal) = block.enter_parameters(alloc, p.parameters.items()) {
        return Err(refused_at(p.line, refusal));
    }
    block.declare(alloc, p.parts.items())?;
    let found = block.statements(alloc, &p.body)?;
    all_there(block.forwards.items(), &block.bodies)?;
    let statements = all_built(block.waits, found)?;
    let imports = imports(alloc, p.parameters.items())?;
    Ok(block.into_unit(imports, statements))
}

/// Each routine that is declared `forward` has a body.
fn all_there(forwards: &[Forward], bodies: &Bodies) -> Result<(), CheckRefusal>
    ensures { AnswersMissing (first_missing forwards.now bodies.now) result }
{
    for forward in forwards {
        if !bodies.has(forward.number) {
            return Err(refused_at(forward.line, Refusal::Rule(rule::NO_BODY)));
        }
    }
    Ok(())
}

/// The statements of a block, where these and its declarations are built.
fn all_built(
    waits: Option<Line>,
    statements: Admission<TypedStmts>,
) -> Result<TypedStmts, CheckRefusal>
    ensures { AnswersBuilt waits statements result }
{
    match (waits, statements) {
        (Some(line), _) => Err(CheckRefusal::NotBuilt(line)),
        (None, Admission::Waits(line)) => Err(CheckRefusal::NotBuilt(line)),
        (None, Admission::Passes(statements)) => Ok(statements),
    }
}

/// Whether a list has a name.
fn has_name(names: &[Name], name: &[u8]) -> bool
    ensures { result ≡ has_name name.now names.now }
{
    names.iter().any(|other| other.bytes() == name)
}

/// The standard files that are parameters.
fn files_given(parameters: &[Name]) -> StandardFiles
    ensures { result ≡ files_given parameters.now }
{
    StandardFiles {
        input: has_name(parameters, b"input"),
        output: has_name(parameters, b"output"),
    }
}

/// The standard file of a program parameter.
fn standard_file(name: &Name) -> Option<StandardFile>
    ensures { result ≡ standard_file name.now }
{
    if name.bytes() == b"input".as_slice() {
        Some(StandardFile::Input)
    } else if name.bytes() == b"output".as_slice() {
        Some(StandardFile::Output)
    } else {
        None
    }
}

/// The imports of a program with these parameters.
fn imports(alloc: Global, parameters: &[Name]) -> Result<ImportSpecs, NoMemory>
    ensures { IfOk result (λ all. all ≡ imports_of parameters.now) }
{
    let mut all = List::new(alloc);
    if has_name(parameters, b"input") {
        all.push(standard_import(alloc, StandardFile::Input)?)?;
    }
    if has_name(parameters, b"output") {
        all.push(standard_import(alloc, StandardFile::Output)?)?;
    }
    Ok(all)
}

/// The import of the interface of a standard file.
fn standard_import(alloc: Global, file: StandardFile) -> Result<ImportSpec, NoMemory>
    ensures { IfOk result (λ import. import ≡ standard_import (standard_interface file)) }
{
    Ok(ImportSpec {
        interface: standard_interface(alloc, file)?,
        qualified: false,
        only: false,
        pairs: List::new(alloc),
    })
}

/// The name of the interface of a standard file.
fn standard_interface(alloc: Global, file: StandardFile) -> Result<Name, NoMemory>
    ensures { IfOk result (λ name. name ≡ standard_interface file) }
{
    let bytes = match file {
        StandardFile::Input => b"standardinput".as_slice(),
        StandardFile::Output => b"standardoutput".as_slice(),
    };
    match Name::from_bytes(alloc, bytes) {
        Ok(name) => Ok(name),
        Err(NameRefusal::NoMemory) => Err(AllocError),
        Err(_) => unreachable!(),
    }
}

impl Block {
    /// The parameters of a program are entered, in order.
    fn enter_parameters(&mut self, alloc: Global, names: &[Name]) -> Result<(), Refusal>
        requires { list_all (is_among program_parameters) names.now ≡ true }
        ensures { AnswersBlock result (block_of self.new)
            (parameters_entered names.now (block_of self.old)) }
    {
        for name in names {
            match standard_file(name) {
                Some(file) => self.enter(alloc, name, Thing::Standard(file))?,
                None => unreachable!(),
            }
        }
        Ok(())
    }
}
