//! Results of functions, in headings and in blocks.

ghost use Rattle.std.specs.Prelude.{◌≡◌, IfOk, map};
ghost use Rattle.ep_typed.specs.Viewed.{stmt_of};
ghost use Rattle.ep_threats.specs.RoutineForms.{routine_form};
ghost use Rattle.ep_unit_rules.specs.Functions as spec;
ghost use Rattle.ep_unit_rules.specs.Functions.{has_unknown, in_block, is_empty, is_function, is_that_function, own_result, routine_declaration, same_own_name, same_result, typed_result};
ghost use Rattle.ep_scope.specs.Meanings.{meant_by};

use crate::giving::gives;
use crate::numbers::has_number;
use crate::own::OwnResult;
use crate::types::type_denoter;
use ep_base::{Name, NoMemory};
use ep_scope::{Declaration, FormalParameters, Kind, Meaning, WrittenType, same_type};
use ep_threats::assigns;
use ep_tree::Compound;
use ep_typed::{RoutineResult, TypedStmt, UnitRoutine};
use std::alloc::Global;

/// The result of a function, as its heading gives it.
pub struct HeadingResult {
    /// The name of its own, where it has one.
    pub name: Option<Name>,
    /// Its type.
    pub of: WrittenType,
    /// The kind of the type.
    pub kind: Kind,
}

impl Drop for HeadingResult {
    fn drop(self) {
        let HeadingResult {
            name: _,
            of: _,
            kind: _,
        } = self;
    }
}

/// An equal name, where there is one.
pub fn copied_name(alloc: Global, name: &Option<Name>) -> Result<Option<Name>, NoMemory>
    ensures { IfOk result (λ copy. copy ≡ name.now) }
{
    match name {
        None => Ok(None),
        Some(name) => Ok(Some(name.copy(alloc)?)),
    }
}

/// The name by which the text of a function with this name gives the result.
pub fn result_name<'a>(function: &'a Name, given: &'a Option<HeadingResult>) -> &'a Name
    ensures { result.now ≡ spec.result_name function.now given.now }
{
    match given {
        None => function,
        Some(given) => match &given.name {
            None => function,
            Some(own) => own,
        },
    }
}

/// Whether both have no name of their own, or the same one.
fn same_own_name(left: &Option<Name>, right: &Option<Name>) -> bool
    ensures { result ≡ same_own_name left.now right.now }
{
    match (left, right) {
        (None, None) => true,
        (Some(name), Some(other)) => name.bytes() == other.bytes(),
        _ => false,
    }
}

/// Whether a heading that is given again has the result of the first one, or none as the first one.
pub fn same_result(given: &Option<HeadingResult>, first: &Option<HeadingResult>) -> bool
    ensures { result ≡ same_result given.now first.now }
{
    match (given, first) {
        (None, None) => true,
        (Some(left), Some(right)) => {
            same_own_name(&left.name, &right.name) && same_type(left.of.is, right.of.is)
        }
        _ => false,
    }
}

/// The result of a typed routine.
pub fn typed_result(
    alloc: Global,
    given: &Option<HeadingResult>,
) -> Result<Option<RoutineResult>, NoMemory>
    ensures { IfOk result (λ r. r ≡ typed_result given.now) }
{
    match given {
        None => Ok(None),
        Some(given) => Ok(Some(RoutineResult {
            name: copied_name(alloc, &given.name)?,
            denoter: type_denoter(alloc, given.of.name),
        })),
    }
}

/// What the name of a routine with these formal parameters and this result stands for.
pub fn routine_declaration(
    parameters: FormalParameters,
    given: &Option<HeadingResult>,
) -> Declaration
    ensures { result ≡ routine_declaration parameters given.now }
{
    match given {
        None => Declaration::Procedure(parameters),
        Some(given) => Declaration::Function(parameters, given.of, given.kind),
    }
}

/// The result of the function of this number in its block, by the number of the variable that has it.
pub fn in_block(function: u32, variable: u32, given: &HeadingResult) -> OwnResult
    ensures { result ≡ in_block function variable given.now }
{
    OwnResult {
        function,
        variable,
        of: given.of,
        kind: given.kind,
        named: given.name.is_some(),
    }
}

/// The same of a routine, which may have no result.
pub(crate) fn own_result(
    function: u32,
    variable: u32,
    given: &Option<HeadingResult>,
) -> Option<OwnResult>
    ensures { result ≡ own_result function variable given.now }
{
    match given {
        None => None,
        Some(given) => Some(in_block(function, variable, given)),
    }
}

fn is_function(what: &Declaration) -> bool
    ensures { result ≡ is_function what.now }
{
    match what {
        Declaration::Function(_, _, _) => true,
        _ => false,
    }
}

/// Whether a name means the function of this number of a unit.
pub fn is_that_function(unit: &Name, number: u32, meaning: &Meaning<'_>) -> bool
    ensures { result ≡ is_that_function unit.now number (meant_by meaning.now) }
{
    match meaning {
        Meaning::Declared(declared) => {
            is_function(&declared.what)
                && declared.unit.bytes() == unit.bytes()
                && declared.number == number
        }
        _ => false,
    }
}

/// Whether a statement is the one that a routine has until its block is known.
#[cycle(emptiness)]
#[tactic(auto, using(ep_typed::proofs::public::Statements::with_is))]
fn is_empty(s: &TypedStmt) -> bool
    ensures { result ≡ is_empty (stmt_of s.now) }
{
    match s {
        TypedStmt::Empty => true,
        TypedStmt::With(_, records, body) => match records.items() {
            [] => is_empty(body.get()),
            [_, ..] => false,
        },
        TypedStmt::Compound(_) => false,
        TypedStmt::Assign(..) | TypedStmt::AssignTag(..) => false,
        TypedStmt::If(..) | TypedStmt::While(..) | TypedStmt::Repeat(..) => false,
        TypedStmt::For(..) | TypedStmt::ForIn(..) => false,
        TypedStmt::Procedure(..) | TypedStmt::Case(..) => false,
        TypedStmt::Halt(_) | TypedStmt::Write(..) => false,
    }
}

/// Whether a routine in the one of this number, however deep, has no block that is known.
pub fn has_unknown(number: u32, routines: &[UnitRoutine]) -> bool
    ensures { result ≡ has_unknown number (map routine_form routines.now) }
{
    for routine in routines {
        if has_number(number, routine.around.items()) && is_empty(&routine.block) {
            return true;
        }
    }
    false
}

/// Whether the text of statements gives a result by this name, of its own or not.
pub fn text_gives(named: bool, name: &Name, body: &Compound) -> bool
    ensures { result ≡ spec.text_gives named name.now body.now }
{
    if named {
        gives(name, body)
    } else {
        assigns(name, body)
    }
}
