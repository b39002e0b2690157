//! The variables of a unit or of a routine that statements threaten, gathered in one walk, as specs/Threats.antt says
//! of each of them.

#![tactic(auto, using(crate::proofs::Adding::or_grouped, crate::proofs::Adding::or_none))]

ghost use Rattle.std.specs.Prelude.{◌≡◌, ℕ, OnOk, map, ◌&&◌};
ghost use Rattle.ep_typed.specs.Trees as tree;
ghost use Rattle.ep_typed.specs.Trees.{entire, stmts};
ghost use Rattle.ep_typed.specs.Viewed as viewed;
ghost use Rattle.ep_typed.specs.Viewed.{actual_of, arm_of, designator_of, element_of, expr_of, item_of, place_of, stmt_of, with_record_of};
ghost use Rattle.ep_threats.specs.Callees.{callees_of, formals_at};
ghost use Rattle.ep_threats.specs.Threatened.{Adds, Gathers, is_number, opened_threat, owned, record_threat};
ghost use Rattle.ep_threats.specs.Threats as spec;

use crate::callees::Callees;
use crate::numbers::Numbers;
use crate::threats::{Entire, mode_threatens, opened_threatens};
use ep_base::{Name, NoMemory};
use ep_typed::{
    Actual, CaseArm, Element, EntireVariable, Formal, FormalMode, MemberDesignator, TypedExpr,
    TypedPlace, TypedStmt, WithRecord, WriteItem,
};

/// Whose variables are asked of, by their numbers.
#[derive(Clone, Copy)]
pub(crate) enum Owner<'a> {
    /// Those of the unit of this name.
    Unit(&'a Name),
    /// Those of the routine so many levels up.
    Routine(u32),
}

/// The number of the variable of which a place is a component, where it is one of these.
#[cycle(places)]
fn number_of(of: Owner<'_>, place: &TypedPlace) -> Option<u32>
    ensures { (n : ℕ) → spec.is_variable (owned of.entry n) (place_of place.now) ≡ is_number result n }
{
    match (of, place) {
        (Owner::Unit(unit), TypedPlace::Variable(other, number)) => {
            if unit.bytes() == other.bytes() {
                Some(*number)
            } else {
                None
            }
        }
        (Owner::Routine(up), TypedPlace::Own(other, number)) => {
            if up == *other { Some(*number) } else { None }
        }
        (
            _,
            TypedPlace::Indexed(whole, _)
            | TypedPlace::Field(whole, _)
            | TypedPlace::Variant(whole, _, _),
        ) => number_of(of, whole.get()),
        _ => None,
    }
}

/// The number of a variable, where it is one of these.
fn own_number(of: Owner<'_>, variable: &EntireVariable) -> Option<u32>
    ensures { (n : ℕ) → spec.is_variable (owned of.entry n) (entire (viewed.entire_of variable.now))
        ≡ is_number result n }
{
    match (of, variable) {
        (Owner::Unit(unit), EntireVariable::Unit(other, number)) => {
            if unit.bytes() == other.bytes() {
                Some(*number)
            } else {
                None
            }
        }
        (Owner::Routine(up), EntireVariable::Own(other, number)) => {
            if up == *other { Some(*number) } else { None }
        }
        _ => None,
    }
}

/// A number is added, where there is one.
fn add(number: Option<u32>, found: &mut Numbers) -> Result<(), NoMemory>
    ensures { OnOk result (Adds (is_number number) found.old found.new) }
{
    match number {
        None => Ok(()),
        Some(number) => found.add(number),
    }
}

/// The variable is added of which a place is a component.
fn add_place(of: Owner<'_>, place: &TypedPlace, found: &mut Numbers) -> Result<(), NoMemory>
    ensures { OnOk result (Gathers of.entry (λ v. spec.is_variable v (place_of place.now)) found.old found.new) }
{
    add(number_of(of, place), found)
}

/// A variable is added.
fn add_variable(
    of: Owner<'_>,
    variable: &EntireVariable,
    found: &mut Numbers,
) -> Result<(), NoMemory>
    ensures { OnOk result (Gathers of.entry
        (λ v. spec.is_variable v (entire (viewed.entire_of variable.now))) found.old found.new) }
{
    add(own_number(of, variable), found)
}

/// The variables are added that the place of a record threatens, and the one of which it is a component, where this body, in
/// which the records behind it are open, threatens the variable that stands for it.
fn record_gathered(
    body: &TypedStmt,
    record: &WithRecord,
    behind: &[WithRecord],
    of: Owner<'_>,
    routines: &Callees<'_>,
    found: &mut Numbers,
) -> Result<(), NoMemory>
    ensures { OnOk result (Gathers of.entry (λ v. record_threat (formals_at (callees_of routines.now)) v
        (with_record_of record.now) (map with_record_of behind.now) (stmt_of body.now)) found.old found.new) }
{
    place_gathered(&record.place, of, routines, found)?;
    match number_of(of, &record.place) {
        Some(number) if opened_threatens(body, behind, routines, Entire::of(&record.variable)) => {
            found.add(number)
        }
        _ => Ok(()),
    }
}

/// The same for all records that are open in this body.
fn opened_gathered(
    body: &TypedStmt,
    records: &[WithRecord],
    of: Owner<'_>,
    routines: &Callees<'_>,
    found: &mut Numbers,
) -> Result<(), NoMemory>
    ensures { OnOk result (Gathers of.entry (λ v. opened_threat (formals_at (callees_of routines.now)) v
        (map with_record_of records.now) (stmt_of body.now)) found.old found.new) }
{
    let mut left = records;
    while let Some((record, behind)) = left.split_first() {
        record_gathered(body, record, behind, of, routines, found)?;
        left = behind;
    }
    Ok(())
}

// Below, the tree stands before the owner, since a walk is shown to end by its first parameter whose type contains
// itself.

/// The variables are added that one of these statements threatens.
#[cycle(gathered)]
fn stmts_gathered(
    all: &[TypedStmt],
    of: Owner<'_>,
    routines: &Callees<'_>,
    found: &mut Numbers,
) -> Result<(), NoMemory>
    ensures { OnOk result (Gathers of.entry (λ v. spec.stmts_threaten (formals_at (callees_of routines.now)) v
        (stmts (map stmt_of all.now))) found.old found.new) }
{
    for s in all {
        gather(s, of, routines, found)?;
    }
    Ok(())
}

/// The variables are added that a statement, or one inside of it, threatens.
#[cycle(gathered)]
pub(crate) fn gather(
    s: &TypedStmt,
    of: Owner<'_>,
    routines: &Callees<'_>,
    found: &mut Numbers,
) -> Result<(), NoMemory>
    ensures { OnOk result (Gathers of.entry (λ v. spec.threatens (formals_at (callees_of routines.now)) v
        (stmt_of s.now)) found.old found.new) }
{
    match s {
        TypedStmt::Empty | TypedStmt::Halt(_) => Ok(()),
        TypedStmt::Compound(all) => stmts_gathered(all.items(), of, routines, found),
        TypedStmt::Assign(_, place, value) => {
            add_place(of, place, found)?;
            place_gathered(place, of, routines, found)?;
            expr_gathered(value.get(), of, routines, found)
        }
        TypedStmt::AssignTag(_, _, whole, _, value) => {
            add_place(of, whole, found)?;
            place_gathered(whole, of, routines, found)?;
            expr_gathered(value.get(), of, routines, found)
        }
        TypedStmt::If(_, condition, then_part, else_part) => {
            expr_gathered(condition.get(), of, routines, found)?;
            gather(then_part.get(), of, routines, found)?;
            gather(else_part.get(), of, routines, found)
        }
        TypedStmt::While(_, condition, body) => {
            expr_gathered(condition.get(), of, routines, found)?;
            gather(body.get(), of, routines, found)
        }
        TypedStmt::Repeat(_, all, condition) => {
            stmts_gathered(all.items(), of, routines, found)?;
            expr_gathered(condition.get(), of, routines, found)
        }
        TypedStmt::For(_, control, initial, last, body) => {
            add_variable(of, &control.get().variable, found)?;
            expr_gathered(initial.get(), of, routines, found)?;
            expr_gathered(last.get(), of, routines, found)?;
            gather(body.get(), of, routines, found)
        }
        TypedStmt::ForIn(_, control, set, body) => {
            add_variable(of, &control.get().variable, found)?;
            expr_gathered(set.get(), of, routines, found)?;
            gather(body.get(), of, routines, found)
        }
        TypedStmt::With(_, records, body) => {
            gather(body.get(), of, routines, found)?;
            opened_gathered(body.get(), records.items(), of, routines, found)
        }
        TypedStmt::Procedure(_, callee, given) => {
            let formals = routines.formals(&callee.unit, callee.number);
            actuals_gathered(formals, given.items(), of, routines, found)
        }
        TypedStmt::Case(_, selector, arms, None) => {
            expr_gathered(selector.get(), of, routines, found)?;
            arms_gathered(arms.items(), of, routines, found)
        }
        TypedStmt::Case(_, selector, arms, Some(other)) => {
            expr_gathered(selector.get(), of, routines, found)?;
            arms_gathered(arms.items(), of, routines, found)?;
            stmts_gathered(other.items(), of, routines, found)
        }
        TypedStmt::Write(_, items, _) => items_gathered(items.items(), of, routines, found),
    }
}

/// The same for the statements of these arms.
#[cycle(gathered)]
fn arms_gathered(
    all: &[CaseArm],
    of: Owner<'_>,
    routines: &Callees<'_>,
    found: &mut Numbers,
) -> Result<(), NoMemory>
    ensures { OnOk result (Gathers of.entry (λ v. spec.arms_threaten (formals_at (callees_of routines.now)) v
        (tree.arms (map arm_of all.now))) found.old found.new) }
{
    for a in all {
        arm_gathered(a, of, routines, found)?;
    }
    Ok(())
}

/// For the statement of an arm.
#[cycle(gathered)]
fn arm_gathered(
    a: &CaseArm,
    of: Owner<'_>,
    routines: &Callees<'_>,
    found: &mut Numbers,
) -> Result<(), NoMemory>
    ensures { OnOk result (Gathers of.entry (λ v. spec.threatens (formals_at (callees_of routines.now)) v
        (arm_of a.now).1) found.old found.new) }
{
    gather(a.body.get(), of, routines, found)
}

/// For these expressions that are written.
fn items_gathered(
    all: &[WriteItem],
    of: Owner<'_>,
    routines: &Callees<'_>,
    found: &mut Numbers,
) -> Result<(), NoMemory>
    ensures { OnOk result (Gathers of.entry (λ v. spec.items_threaten (formals_at (callees_of routines.now)) v
        (map item_of all.now)) found.old found.new) }
{
    for i in all {
        item_gathered(i, of, routines, found)?;
    }
    Ok(())
}

/// For an expression that is written, and its width.
fn item_gathered(
    i: &WriteItem,
    of: Owner<'_>,
    routines: &Callees<'_>,
    found: &mut Numbers,
) -> Result<(), NoMemory>
    ensures { OnOk result (Gathers of.entry (λ v. spec.item_threatens (formals_at (callees_of routines.now)) v
        (item_of i.now)) found.old found.new) }
{
    expr_gathered(i.value.get(), of, routines, found)?;
    match &i.width {
        None => Ok(()),
        Some(width) => expr_gathered(width.get(), of, routines, found),
    }
}

/// For the function designators of an expression.
#[cycle(gathered_in_expressions)]
fn expr_gathered(
    x: &TypedExpr,
    of: Owner<'_>,
    routines: &Callees<'_>,
    found: &mut Numbers,
) -> Result<(), NoMemory>
    ensures { OnOk result (Gathers of.entry (λ v. spec.expr_threatens (formals_at (callees_of routines.now)) v
        (expr_of x.now)) found.old found.new) }
{
    match x {
        TypedExpr::Constant(_) | TypedExpr::Text(_) | TypedExpr::SetConstant(_) => Ok(()),
        TypedExpr::Read(place) => place_gathered(place, of, routines, found),
        TypedExpr::Unary(_, operand)
        | TypedExpr::Card(operand)
        | TypedExpr::FieldValue(operand, _)
        | TypedExpr::VariantValue(operand, _, _) => {
            expr_gathered(operand.get(), of, routines, found)
        }
        TypedExpr::Binary(_, left, right) => {
            expr_gathered(left.get(), of, routines, found)?;
            expr_gathered(right.get(), of, routines, found)
        }
        TypedExpr::Short(_, left, right) => {
            expr_gathered(left.get(), of, routines, found)?;
            expr_gathered(right.get(), of, routines, found)
        }
        TypedExpr::Step(_, _, _, value, count) => {
            expr_gathered(value.get(), of, routines, found)?;
            expr_gathered(count.get(), of, routines, found)
        }
        TypedExpr::IndexedValue(array, index) => {
            expr_gathered(array.get(), of, routines, found)?;
            expr_gathered(index.get(), of, routines, found)
        }
        TypedExpr::OnSets(_, left, right) => {
            expr_gathered(left.get(), of, routines, found)?;
            expr_gathered(right.get(), of, routines, found)
        }
        TypedExpr::Function(callee, given) => {
            let formals = routines.formals(&callee.unit, callee.number);
            actuals_gathered(formals, given.items(), of, routines, found)
        }
        TypedExpr::Set(designators) => {
            members_gathered(designators.items(), of, routines, found)
        }
        TypedExpr::Structured(_, elements) => {
            elements_gathered(elements.get().items(), of, routines, found)
        }
    }
}

/// For the indexes and the value in what a component of a structured value is given.
#[cycle(gathered_in_expressions)]
fn element_gathered(
    e: &Element,
    of: Owner<'_>,
    routines: &Callees<'_>,
    found: &mut Numbers,
) -> Result<(), NoMemory>
    ensures { OnOk result (Gathers of.entry (λ v. spec.element_threatens (formals_at (callees_of routines.now)) v
        (element_of e.now)) found.old found.new) }
{
    match e {
        Element::AtIndex(index, value) => {
            expr_gathered(index.get(), of, routines, found)?;
            expr_gathered(value.get(), of, routines, found)
        }
        Element::AtField(_, value) | Element::AtRanges(_, value) => {
            expr_gathered(value.get(), of, routines, found)
        }
        Element::SameField(_, _) => Ok(()),
        Element::AtIndexes(indexes, value) => {
            members_gathered(indexes.items(), of, routines, found)?;
            expr_gathered(value.get(), of, routines, found)
        }
    }
}

/// For what components are given.
#[cycle(gathered_in_expressions)]
fn elements_gathered(
    all: &[Element],
    of: Owner<'_>,
    routines: &Callees<'_>,
    found: &mut Numbers,
) -> Result<(), NoMemory>
    ensures { OnOk result (Gathers of.entry (λ v. spec.elements_threaten (formals_at (callees_of routines.now)) v
        (tree.elements (map element_of all.now))) found.old found.new) }
{
    for e in all {
        element_gathered(e, of, routines, found)?;
    }
    Ok(())
}

/// For the values of a member designator.
#[cycle(gathered_in_expressions)]
fn member_gathered(
    designator: &MemberDesignator,
    of: Owner<'_>,
    routines: &Callees<'_>,
    found: &mut Numbers,
) -> Result<(), NoMemory>
    ensures { OnOk result (Gathers of.entry (λ v. spec.member_threatens (formals_at (callees_of routines.now)) v
        (designator_of designator.now)) found.old found.new) }
{
    match designator {
        MemberDesignator::Single(value) => expr_gathered(value.get(), of, routines, found),
        MemberDesignator::Range(first, last) => {
            expr_gathered(first.get(), of, routines, found)?;
            expr_gathered(last.get(), of, routines, found)
        }
    }
}

/// For member designators.
#[cycle(gathered_in_expressions)]
fn members_gathered(
    all: &[MemberDesignator],
    of: Owner<'_>,
    routines: &Callees<'_>,
    found: &mut Numbers,
) -> Result<(), NoMemory>
    ensures { OnOk result (Gathers of.entry (λ v. spec.members_threaten (formals_at (callees_of routines.now)) v
        (tree.designators (map designator_of all.now))) found.old found.new) }
{
    for designator in all {
        member_gathered(designator, of, routines, found)?;
    }
    Ok(())
}

/// For the indexes in a place.
#[cycle(gathered_in_expressions)]
fn place_gathered(
    place: &TypedPlace,
    of: Owner<'_>,
    routines: &Callees<'_>,
    found: &mut Numbers,
) -> Result<(), NoMemory>
    ensures { OnOk result (Gathers of.entry (λ v. spec.place_threatens (formals_at (callees_of routines.now)) v
        (place_of place.now)) found.old found.new) }
{
    match place {
        TypedPlace::Variable(_, _) | TypedPlace::Own(_, _) | TypedPlace::Standard(_) => Ok(()),
        TypedPlace::Indexed(array, index) => {
            place_gathered(array.get(), of, routines, found)?;
            expr_gathered(index.get(), of, routines, found)
        }
        TypedPlace::Field(whole, _) | TypedPlace::Variant(whole, _, _) => {
            place_gathered(whole.get(), of, routines, found)
        }
    }
}

/// For what is given for these formal parameters, one for one.
#[cycle(gathered_in_expressions)]
fn actuals_gathered(
    formals: &[Formal],
    given: &[Actual],
    of: Owner<'_>,
    routines: &Callees<'_>,
    found: &mut Numbers,
) -> Result<(), NoMemory>
    ensures { OnOk result (Gathers of.entry (λ v. spec.actuals_threaten (formals_at (callees_of routines.now)) v
        formals.now (tree.actuals (map actual_of given.now))) found.old found.new) }
{
    for (place, a) in given.iter().enumerate() {
        let Some(formal) = formals.get(place) else {
            return Ok(());
        };
        actual_gathered(formal.mode, a, of, routines, found)?;
    }
    Ok(())
}

/// For what is given for a parameter of this mode: the variable itself or a component of it, the indexes in a place, or an
/// expression.
#[cycle(gathered_in_expressions)]
fn actual_gathered(
    mode: FormalMode,
    a: &Actual,
    of: Owner<'_>,
    routines: &Callees<'_>,
    found: &mut Numbers,
) -> Result<(), NoMemory>
    ensures { OnOk result (Gathers of.entry (λ v. spec.actual_threatens (formals_at (callees_of routines.now)) v
        mode (actual_of a.now)) found.old found.new) }
{
    match a {
        Actual::Value(value) => expr_gathered(value.get(), of, routines, found),
        Actual::Variable(place) => {
            if mode_threatens(mode) {
                add_place(of, place, found)?;
            }
            place_gathered(place, of, routines, found)
        }
    }
}
