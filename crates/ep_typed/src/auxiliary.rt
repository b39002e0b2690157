//! The auxiliary variables of `for` and `with` statements, as specs/Auxiliaries.antt says.

ghost use Rattle.std.specs.Prelude.{◌≡◌, ◌++◌, IfOk, codes, length, map, min};
ghost use Rattle.ep_typed.specs.Auxiliaries as spec;
ghost use Rattle.ep_typed.specs.Parts as parts;
ghost use Rattle.ep_typed.specs.Routines.{unit_block};
ghost use Rattle.ep_typed.specs.Trees as tree;
ghost use Rattle.ep_typed.specs.Trees.{stmts};
ghost use Rattle.ep_typed.specs.Viewed.{arm_of, stmt_of};
ghost use Rattle.ep_typed.specs.declared.tree.TypedStmt.{out-TypedStmt};

use crate::denoter::{Bound, Denoter, RequiredType};
use crate::parts::parts_of;
use crate::tree::{CaseArm, TypedStmt};
use crate::unit::{Unit, UnitVariable, UnitVariables};
use ep_base::{Boxed, Line, List, Name, NameRefusal, NoMemory};
use std::alloc::{AllocError, Global};

/// The greatest ordinal that may be a member of a set.
const LAST_MEMBER: i64 = 255;

/// The auxiliary variables of a block that are made: those of `for` with bounds and of assignments to tags, and the one of
/// `for` over members.
pub fn block_auxiliaries(alloc: Global, block: &TypedStmt) -> Result<UnitVariables, NoMemory>
    ensures { IfOk result (λ all. all ≡ spec.block_auxiliaries (stmt_of block.now)) }
{
    auxiliaries_on(alloc, first_for(block), first_for_in(block))
}

/// The auxiliary variables of a unit that are made: those of its start and of its stop, which share them.
#[tactic(auto, using(crate::proofs::Units::unit_first_for, crate::proofs::Units::unit_first_for_in))]
pub fn unit_auxiliaries(alloc: Global, unit: &Unit) -> Result<UnitVariables, NoMemory>
    ensures { IfOk result (λ all. all ≡ spec.block_auxiliaries (unit_block unit.now)) }
{
    let bounds = first_for(&unit.start).or(first_for(&unit.stop));
    let members = first_for_in(&unit.start).or(first_for_in(&unit.stop));
    auxiliaries_on(alloc, bounds, members)
}

/// The auxiliary variables of a block whose first `for` with bounds or assignment to a tag and first `for` over members, where
/// it has one, are on these lines.
fn auxiliaries_on(
    alloc: Global,
    bounds: Option<Line>,
    members: Option<Line>,
) -> Result<UnitVariables, NoMemory>
    ensures { IfOk result (λ all. all ≡ spec.auxiliary_variables bounds ++ spec.member_variables members) }
{
    let mut all = auxiliary_variables(alloc, bounds)?;
    if let Some(line) = members {
        let variable = member_variable(alloc, line)?;
        all.push(variable)?;
    }
    Ok(all)
}

/// The auxiliary variables of a block whose first `for` with bounds or assignment to a tag is on this line, or which has
/// none: that of the initial value, and that of the final one (ISO 10206, 6.9.3.9.2).
pub fn auxiliary_variables(alloc: Global, line: Option<Line>) -> Result<UnitVariables, NoMemory>
    ensures { IfOk result (λ all. all ≡ spec.auxiliary_variables line) }
{
    let mut all = List::new(alloc);
    if let Some(line) = line {
        all.push(auxiliary_variable(alloc, line)?)?;
        all.push(auxiliary_variable(alloc, line)?)?;
    }
    Ok(all)
}

fn auxiliary_variable(alloc: Global, line: Line) -> Result<UnitVariable, NoMemory>
    ensures { IfOk result (λ v. v ≡ spec.auxiliary_variable line) }
{
    Ok(UnitVariable {
        name: auxiliary_name(alloc)?,
        line,
        declaration: 0,
        denoter: Denoter::Required(RequiredType::Integer),
        tuple: List::new(alloc),
        parameter: false,
    })
}

fn member_variable(alloc: Global, line: Line) -> Result<UnitVariable, NoMemory>
    ensures { IfOk result (λ v. v ≡ spec.member_variable line) }
{
    let name = member_name(alloc)?;
    let denoter = member_denoter(alloc)?;
    Ok(UnitVariable {
        name,
        line,
        declaration: 0,
        denoter,
        tuple: List::new(alloc),
        parameter: false,
    })
}

/// Sets of any ordinals that may be members.
fn member_denoter(alloc: Global) -> Result<Denoter, NoMemory>
    ensures { IfOk result (λ d. d ≡ (spec.member_variable 0).denoter) }
{
    let host = Boxed::new(alloc, Denoter::Required(RequiredType::Integer))?;
    let base = Denoter::Subrange(host, Bound::Constant(0), Bound::Constant(LAST_MEMBER));
    Ok(Denoter::Set(Boxed::new(alloc, base)?))
}

/// A word symbol, which no source gives to a variable.
fn member_name(alloc: Global) -> Result<Name, NoMemory>
    ensures { IfOk result (λ name. name ≡ codes "in") }
{
    match Name::from_bytes(alloc, b"in") {
        Ok(name) => Ok(name),
        Err(NameRefusal::NoMemory) => Err(AllocError),
        Err(_) => unreachable!(),
    }
}

/// A word symbol, which no source gives to a variable.
fn auxiliary_name(alloc: Global) -> Result<Name, NoMemory>
    ensures { IfOk result (λ name. name ≡ codes "for") }
{
    match Name::from_bytes(alloc, b"for") {
        Ok(name) => Ok(name),
        Err(NameRefusal::NoMemory) => Err(AllocError),
        Err(_) => unreachable!(),
    }
}

/// The line of the first `for` with bounds or assignment to a tag in a statement, where it has one.
#[cycle(for_statements)]
#[tactic(auto, using(crate::proofs::Walks::first_for_is))]
pub fn first_for(s: &TypedStmt) -> Option<Line>
    ensures { result ≡ spec.first_for (stmt_of s.now) }
{
    let parts = parts_of(s);
    bounds_line(s)
        .or(first_for_of(parts.first))
        .or(first_for_arms(parts.arms))
        .or(first_for_of(parts.last))
}

fn bounds_line(s: &TypedStmt) -> Option<Line>
    ensures { result ≡ parts.bounds_line (out-TypedStmt s.now) }
{
    match s {
        TypedStmt::For(line, _, _, _, _) | TypedStmt::AssignTag(line, _, _, _, _) => Some(*line),
        _ => None,
    }
}

#[cycle(for_statements)]
fn first_for_of(all: &[TypedStmt]) -> Option<Line>
    ensures { result ≡ spec.first_for_of (stmts (map stmt_of all.now)) }
{
    for s in all {
        let found = first_for(s);
        if found.is_some() {
            return found;
        }
    }
    None
}

#[cycle(for_statements)]
fn first_for_arms(all: &[CaseArm]) -> Option<Line>
    ensures { result ≡ spec.first_for_arms (tree.arms (map arm_of all.now)) }
{
    for arm in all {
        let found = first_for(arm.body.get());
        if found.is_some() {
            return found;
        }
    }
    None
}

/// The line of the first `for` over members in a statement, where it has one.
#[cycle(member_statements)]
#[tactic(auto, using(crate::proofs::Walks::first_for_in_is))]
pub fn first_for_in(s: &TypedStmt) -> Option<Line>
    ensures { result ≡ spec.first_for_in (stmt_of s.now) }
{
    let parts = parts_of(s);
    members_line(s)
        .or(first_for_in_of(parts.first))
        .or(first_for_in_arms(parts.arms))
        .or(first_for_in_of(parts.last))
}

fn members_line(s: &TypedStmt) -> Option<Line>
    ensures { result ≡ parts.members_line (out-TypedStmt s.now) }
{
    match s {
        TypedStmt::ForIn(line, _, _, _) => Some(*line),
        _ => None,
    }
}

#[cycle(member_statements)]
fn first_for_in_of(all: &[TypedStmt]) -> Option<Line>
    ensures { result ≡ spec.first_for_in_of (stmts (map stmt_of all.now)) }
{
    for s in all {
        let found = first_for_in(s);
        if found.is_some() {
            return found;
        }
    }
    None
}

#[cycle(member_statements)]
fn first_for_in_arms(all: &[CaseArm]) -> Option<Line>
    ensures { result ≡ spec.first_for_in_arms (tree.arms (map arm_of all.now)) }
{
    for arm in all {
        let found = first_for_in(arm.body.get());
        if found.is_some() {
            return found;
        }
    }
    None
}

/// How many records the `with` statements in a statement open, each of which has a variable of its own, at most the greatest
/// `usize`.
#[cycle(with_statements)]
#[tactic(auto, using(crate::proofs::Walks::with_count_is))]
pub fn with_count(s: &TypedStmt) -> usize
    ensures { result ≡ min (length (spec.with_variables (stmt_of s.now))) usize.MAX }
{
    let parts = parts_of(s);
    with_count_of(parts.first)
        .saturating_add(with_count_in(parts.arms))
        .saturating_add(with_count_of(parts.last))
        .saturating_add(records_count(s))
}

/// How many records the `with` statements in a unit's start and its stop open, likewise.
#[tactic(auto, using(crate::proofs::Units::unit_withs))]
pub fn unit_with_count(unit: &Unit) -> usize
    ensures { result ≡ min (length (spec.with_variables (unit_block unit.now))) usize.MAX }
{
    with_count(&unit.start).saturating_add(with_count(&unit.stop))
}

fn records_count(s: &TypedStmt) -> usize
    ensures { result ≡ parts.records_count (out-TypedStmt s.now) }
{
    match s {
        TypedStmt::With(_, records, _) => records.items().len(),
        _ => 0,
    }
}

#[cycle(with_statements)]
fn with_count_of(all: &[TypedStmt]) -> usize
    ensures { result ≡ min (length (spec.with_variables_of (stmts (map stmt_of all.now)))) usize.MAX }
{
    let mut total = 0;
    for s in all {
        total = with_count(s).saturating_add(total);
    }
    total
}

/// Alike, how many are in these arms.
#[cycle(with_statements)]
pub fn with_count_in(all: &[CaseArm]) -> usize
    ensures { result ≡ min (length (spec.with_variables_in (tree.arms (map arm_of all.now)))) usize.MAX }
{
    let mut total = 0;
    for arm in all {
        total = with_count(arm.body.get()).saturating_add(total);
    }
    total
}
