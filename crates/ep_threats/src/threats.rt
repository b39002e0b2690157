//! Whether statements threaten a variable, and whether they assign to a name, as specs/Threats.antt says. Nothing here
//! takes memory.

ghost use Rattle.std.specs.Prelude.{◌≡◌, IfOk, nat_eq, map, position, ℕ};
ghost use Rattle.ep_typed.specs.Trees as tree;
ghost use Rattle.ep_typed.specs.Trees.{entire, stmts};
ghost use Rattle.ep_typed.specs.Viewed as viewed;
ghost use Rattle.ep_typed.specs.Viewed.{actual_of, arm_of, designator_of, element_of, expr_of, item_of, place_of, stmt_of, with_record_of};
ghost use Rattle.ep_threats.specs.Variables.{entire_of};
ghost use Rattle.ep_threats.specs.Callees.{callees_in, callees_of, formals_at};
ghost use Rattle.ep_threats.specs.RoutineForms.{routine_form};
ghost use Rattle.ep_threats.specs.Threats as spec;
ghost use Rattle.ep_threats.specs.Threats.{any_true, arm_assigns, statement_assigns, stmts_threaten};

use crate::callees::Callees;
use crate::table::RoutineTable;
use ep_base::{Name, NoMemory};
use ep_tree::{Access, Arm, Compound, Statement};
use ep_typed::{
    Actual, CaseArm, Element, EntireVariable, Formal, FormalMode, Interface, MemberDesignator,
    TypedExpr, TypedPlace, TypedStmt, UnitRoutine, WithRecord, WriteItem,
};
use std::alloc::{AllocError, Global};

/// An entire variable (ISO 10206, 6.5.2) whose name is borrowed, of which threats are asked.
#[derive(Clone, Copy)]
pub enum Entire<'a> {
    /// The variable of this number of the unit of this name.
    Variable(&'a Name, u32),
    /// A variable of the routine so many levels up, by its number there.
    Own(u32, u32),
}

impl<'a> Entire<'a> {
    /// A variable whose name is borrowed of it.
    pub fn of(variable: &'a EntireVariable) -> Entire<'a>
        ensures { entire_of result ≡ viewed.entire_of variable.now }
    {
        match variable {
            EntireVariable::Unit(unit, number) => Entire::Variable(unit, *number),
            EntireVariable::Own(up, number) => Entire::Own(*up, *number),
        }
    }

    /// The variable with a name of its own.
    pub fn to_owned(self, alloc: Global) -> Result<EntireVariable, NoMemory>
        ensures { IfOk result (λ variable. viewed.entire_of variable ≡ entire_of self.entry) }
    {
        match self {
            Entire::Variable(unit, number) => Ok(EntireVariable::Unit(unit.copy(alloc)?, number)),
            Entire::Own(up, number) => Ok(EntireVariable::Own(up, number)),
        }
    }
}

/// Whether statements threaten a variable: it or a component of it is assigned to, given for a variable parameter that is
/// not protected, or the control variable of a `for` (ISO 10206, 6.9.4). The routines are those that they may call.
pub fn threatens(routines: &Callees<'_>, variable: Entire<'_>, statements: &[TypedStmt]) -> bool
    ensures { result ≡ stmts_threaten (formals_at (callees_of routines.now)) (entire_of variable.entry)
        (stmts (map stmt_of statements.now)) }
{
    stmts_threaten(statements, routines, variable)
}

/// Whether a routine in the one of the first number, however deep in it, threatens the variable of the second number of that
/// one, whether it is called or not. An error comes where 32 bits do not hold how many routines are around one.
pub fn inner_threatens(
    routine: u32,
    routines: &RoutineTable,
    given: &[Interface],
    number: u32,
) -> Result<bool, NoMemory>
    ensures { IfOk result (λ threatened.
        threatened ≡ spec.inner_threatens routine (callees_in routines.now given.now) number) }
{
    let inner = routines.inner(routine);
    let callees = Callees::of(routines.items(), given);
    let threatened = one_threatens_from(inner, routine, &callees, number)?;
    Ok(threatened)
}

/// Whether one of these routines does.
fn one_threatens_from(
    some: &[UnitRoutine],
    routine: u32,
    routines: &Callees<'_>,
    number: u32,
) -> Result<bool, NoMemory>
    ensures { IfOk result (λ threatened. threatened
        ≡ spec.some_threaten routine (callees_of routines.now) number (map routine_form some.now)) }
{
    for inner in some {
        if threatens_from(inner, routine, routines, number)? {
            return Ok(true);
        }
    }
    Ok(false)
}

/// How many routines stand between one and the one of this number, which is around it.
pub(crate) fn levels_between(routine: u32, around: &[u32]) -> Option<usize>
    ensures { result ≡ position (nat_eq routine) around.now }
{
    around.iter().position(|other| routine == *other)
}

/// Whether this routine does, where it is one of those.
fn threatens_from(
    inner: &UnitRoutine,
    routine: u32,
    routines: &Callees<'_>,
    number: u32,
) -> Result<bool, NoMemory>
    ensures { IfOk result (λ threatened. threatened ≡ spec.threatens_from (callees_of routines.now) number
        (stmt_of inner.now.block) (position (nat_eq routine) inner.now.around)) }
{
    let Some(between) = levels_between(routine, inner.around.items()) else {
        return Ok(false);
    };
    let Ok(up) = u32::try_from(between + 1) else {
        return Err(AllocError);
    };
    Ok(statement_threatens(&inner.block, routines, Entire::Own(up, number)))
}

// Below, the tree stands before the routines, since a walk is shown to end by its first parameter whose type contains
// itself.

/// Whether one of these statements threatens the variable.
#[cycle(threats)]
fn stmts_threaten(all: &[TypedStmt], routines: &Callees<'_>, variable: Entire<'_>) -> bool
    ensures { result ≡ stmts_threaten (formals_at (callees_of routines.now)) (entire_of variable.entry)
        (stmts (map stmt_of all.now)) }
{
    for s in all {
        if statement_threatens(s, routines, variable) {
            return true;
        }
    }
    false
}

/// Whether a statement, or one inside of it, threatens the variable.
#[cycle(threats)]
pub fn statement_threatens(s: &TypedStmt, routines: &Callees<'_>, variable: Entire<'_>) -> bool
    ensures { result ≡ spec.threatens (formals_at (callees_of routines.now)) (entire_of variable.entry)
        (stmt_of s.now) }
{
    match s {
        TypedStmt::Empty | TypedStmt::Halt(_) => false,
        TypedStmt::Compound(all) => stmts_threaten(all.items(), routines, variable),
        TypedStmt::Assign(_, place, value) => {
            is_variable(variable, place)
                || place_threatens(place, routines, variable)
                || expr_threatens(value.get(), routines, variable)
        }
        TypedStmt::AssignTag(_, _, whole, _, value) => {
            is_variable(variable, whole)
                || place_threatens(whole, routines, variable)
                || expr_threatens(value.get(), routines, variable)
        }
        TypedStmt::If(_, condition, then_part, else_part) => {
            expr_threatens(condition.get(), routines, variable)
                || statement_threatens(then_part.get(), routines, variable)
                || statement_threatens(else_part.get(), routines, variable)
        }
        TypedStmt::While(_, condition, body) => {
            expr_threatens(condition.get(), routines, variable)
                || statement_threatens(body.get(), routines, variable)
        }
        TypedStmt::Repeat(_, all, condition) => {
            stmts_threaten(all.items(), routines, variable)
                || expr_threatens(condition.get(), routines, variable)
        }
        TypedStmt::For(_, control, initial, last, body) => {
            is_same(variable, &control.get().variable)
                || expr_threatens(initial.get(), routines, variable)
                || expr_threatens(last.get(), routines, variable)
                || statement_threatens(body.get(), routines, variable)
        }
        TypedStmt::ForIn(_, control, set, body) => {
            is_same(variable, &control.get().variable)
                || expr_threatens(set.get(), routines, variable)
                || statement_threatens(body.get(), routines, variable)
        }
        TypedStmt::With(_, records, body) => {
            opened_threatens(body.get(), records.items(), routines, variable)
        }
        TypedStmt::Procedure(_, callee, given) => {
            let formals = routines.formals(&callee.unit, callee.number);
            actuals_threaten(formals, given.items(), routines, variable)
        }
        TypedStmt::Case(_, selector, arms, None) => {
            expr_threatens(selector.get(), routines, variable)
                || arms_threaten(arms.items(), routines, variable)
        }
        TypedStmt::Case(_, selector, arms, Some(other)) => {
            expr_threatens(selector.get(), routines, variable)
                || arms_threaten(arms.items(), routines, variable)
                || stmts_threaten(other.items(), routines, variable)
        }
        TypedStmt::Write(_, items, _) => items_threaten(items.items(), routines, variable),
    }
}

/// Whether a statement does, or the place of one of the records that are open in it. What threatens the variable that stands
/// for a record threatens that of which the place is a component. There is one call in the other only where such a place is
/// a component of what stands for a record before it.
#[cycle(threats)]
pub(crate) fn opened_threatens(
    body: &TypedStmt,
    records: &[WithRecord],
    routines: &Callees<'_>,
    variable: Entire<'_>,
) -> bool
    ensures { (line : ℕ) → result ≡ spec.threatens (formals_at (callees_of routines.now))
        (entire_of variable.entry) (tree.with_form line (map with_record_of records.now) (stmt_of body.now)) }
{
    let mut left = records;
    while let Some((record, behind)) = left.split_first() {
        if place_threatens(&record.place, routines, variable)
            || is_variable(variable, &record.place)
                && opened_threatens(body, behind, routines, Entire::of(&record.variable))
        {
            return true;
        }
        left = behind;
    }
    statement_threatens(body, routines, variable)
}

/// Whether the statement of one of these arms does.
#[cycle(threats)]
fn arms_threaten(all: &[CaseArm], routines: &Callees<'_>, variable: Entire<'_>) -> bool
    ensures { result ≡ spec.arms_threaten (formals_at (callees_of routines.now)) (entire_of variable.entry)
        (tree.arms (map arm_of all.now)) }
{
    for a in all {
        if arm_threatens(a, routines, variable) {
            return true;
        }
    }
    false
}

/// Whether the statement of an arm does.
#[cycle(threats)]
fn arm_threatens(a: &CaseArm, routines: &Callees<'_>, variable: Entire<'_>) -> bool
    ensures { result ≡ spec.threatens (formals_at (callees_of routines.now)) (entire_of variable.entry)
        (arm_of a.now).1 }
{
    statement_threatens(a.body.get(), routines, variable)
}

/// Whether one of these expressions that are written does.
fn items_threaten(all: &[WriteItem], routines: &Callees<'_>, variable: Entire<'_>) -> bool
    ensures { result ≡ spec.items_threaten (formals_at (callees_of routines.now)) (entire_of variable.entry)
        (map item_of all.now) }
{
    for i in all {
        if item_threatens(i, routines, variable) {
            return true;
        }
    }
    false
}

/// Whether an expression that is written, or its width, does.
fn item_threatens(i: &WriteItem, routines: &Callees<'_>, variable: Entire<'_>) -> bool
    ensures { result ≡ spec.item_threatens (formals_at (callees_of routines.now)) (entire_of variable.entry)
        (item_of i.now) }
{
    match &i.width {
        None => expr_threatens(i.value.get(), routines, variable),
        Some(width) => {
            expr_threatens(i.value.get(), routines, variable)
                || expr_threatens(width.get(), routines, variable)
        }
    }
}

/// Whether an expression has a function designator that does.
#[cycle(threats_in_expressions)]
pub fn expr_threatens(x: &TypedExpr, routines: &Callees<'_>, variable: Entire<'_>) -> bool
    ensures { result ≡ spec.expr_threatens (formals_at (callees_of routines.now)) (entire_of variable.entry)
        (expr_of x.now) }
{
    match x {
        TypedExpr::Constant(_) | TypedExpr::Text(_) | TypedExpr::SetConstant(_) => false,
        TypedExpr::Read(place) => place_threatens(place, routines, variable),
        TypedExpr::Unary(_, operand) => expr_threatens(operand.get(), routines, variable),
        TypedExpr::Binary(_, left, right) => {
            expr_threatens(left.get(), routines, variable)
                || expr_threatens(right.get(), routines, variable)
        }
        TypedExpr::Short(_, left, right) => {
            expr_threatens(left.get(), routines, variable)
                || expr_threatens(right.get(), routines, variable)
        }
        TypedExpr::Step(_, _, _, value, count) => {
            expr_threatens(value.get(), routines, variable)
                || expr_threatens(count.get(), routines, variable)
        }
        TypedExpr::Function(callee, given) => {
            let formals = routines.formals(&callee.unit, callee.number);
            actuals_threaten(formals, given.items(), routines, variable)
        }
        TypedExpr::IndexedValue(array, index) => {
            expr_threatens(array.get(), routines, variable)
                || expr_threatens(index.get(), routines, variable)
        }
        TypedExpr::FieldValue(whole, _) => expr_threatens(whole.get(), routines, variable),
        TypedExpr::VariantValue(whole, _, _) => expr_threatens(whole.get(), routines, variable),
        TypedExpr::Set(designators) => members_threaten(designators.items(), routines, variable),
        TypedExpr::OnSets(_, left, right) => {
            expr_threatens(left.get(), routines, variable)
                || expr_threatens(right.get(), routines, variable)
        }
        TypedExpr::Card(operand) => expr_threatens(operand.get(), routines, variable),
        TypedExpr::Structured(_, elements) => {
            elements_threaten(elements.get().items(), routines, variable)
        }
    }
}

/// Whether an index or a value in what a component of a structured value is given does.
#[cycle(threats_in_expressions)]
fn element_threatens(e: &Element, routines: &Callees<'_>, variable: Entire<'_>) -> bool
    ensures { result ≡ spec.element_threatens (formals_at (callees_of routines.now)) (entire_of variable.entry)
        (element_of e.now) }
{
    match e {
        Element::AtIndex(index, value) => {
            expr_threatens(index.get(), routines, variable)
                || expr_threatens(value.get(), routines, variable)
        }
        Element::AtField(_, value) => expr_threatens(value.get(), routines, variable),
        Element::SameField(_, _) => false,
        Element::AtRanges(_, value) => expr_threatens(value.get(), routines, variable),
        Element::AtIndexes(indexes, value) => {
            members_threaten(indexes.items(), routines, variable)
                || expr_threatens(value.get(), routines, variable)
        }
    }
}

/// Whether what components are given does.
#[cycle(threats_in_expressions)]
fn elements_threaten(all: &[Element], routines: &Callees<'_>, variable: Entire<'_>) -> bool
    ensures { result ≡ spec.elements_threaten (formals_at (callees_of routines.now)) (entire_of variable.entry)
        (tree.elements (map element_of all.now)) }
{
    for e in all {
        if element_threatens(e, routines, variable) {
            return true;
        }
    }
    false
}

/// Whether a value of a member designator does.
#[cycle(threats_in_expressions)]
fn member_threatens(
    designator: &MemberDesignator,
    routines: &Callees<'_>,
    variable: Entire<'_>,
) -> bool
    ensures { result ≡ spec.member_threatens (formals_at (callees_of routines.now)) (entire_of variable.entry)
        (designator_of designator.now) }
{
    match designator {
        MemberDesignator::Single(value) => expr_threatens(value.get(), routines, variable),
        MemberDesignator::Range(first, last) => {
            expr_threatens(first.get(), routines, variable)
                || expr_threatens(last.get(), routines, variable)
        }
    }
}

/// Whether member designators do.
#[cycle(threats_in_expressions)]
fn members_threaten(all: &[MemberDesignator], routines: &Callees<'_>, variable: Entire<'_>) -> bool
    ensures { result ≡ spec.members_threaten (formals_at (callees_of routines.now)) (entire_of variable.entry)
        (tree.designators (map designator_of all.now)) }
{
    for designator in all {
        if member_threatens(designator, routines, variable) {
            return true;
        }
    }
    false
}

/// Whether an index in a place does.
#[cycle(threats_in_expressions)]
pub fn place_threatens(place: &TypedPlace, routines: &Callees<'_>, variable: Entire<'_>) -> bool
    ensures { result ≡ spec.place_threatens (formals_at (callees_of routines.now)) (entire_of variable.entry)
        (place_of place.now) }
{
    match place {
        TypedPlace::Variable(_, _) | TypedPlace::Own(_, _) | TypedPlace::Standard(_) => false,
        TypedPlace::Indexed(array, index) => {
            place_threatens(array.get(), routines, variable)
                || expr_threatens(index.get(), routines, variable)
        }
        TypedPlace::Field(whole, _) | TypedPlace::Variant(whole, _, _) => {
            place_threatens(whole.get(), routines, variable)
        }
    }
}

/// Whether what is given for these formal parameters threatens the variable, one for one.
#[cycle(threats_in_expressions)]
fn actuals_threaten(
    formals: &[Formal],
    given: &[Actual],
    routines: &Callees<'_>,
    variable: Entire<'_>,
) -> bool
    ensures { result ≡ spec.actuals_threaten (formals_at (callees_of routines.now)) (entire_of variable.entry)
        formals.now (tree.actuals (map actual_of given.now)) }
{
    for (place, a) in given.iter().enumerate() {
        let Some(formal) = formals.get(place) else {
            return false;
        };
        if actual_threatens(formal.mode, a, routines, variable) {
            return true;
        }
    }
    false
}

/// Whether what is given for a parameter of this mode does: the variable itself or a component of it, an index in a place,
/// or an expression.
#[cycle(threats_in_expressions)]
fn actual_threatens(
    mode: FormalMode,
    a: &Actual,
    routines: &Callees<'_>,
    variable: Entire<'_>,
) -> bool
    ensures { result ≡ spec.actual_threatens (formals_at (callees_of routines.now)) (entire_of variable.entry)
        mode (actual_of a.now) }
{
    match a {
        Actual::Value(value) => expr_threatens(value.get(), routines, variable),
        Actual::Variable(place) => {
            (mode_threatens(mode) && is_variable(variable, place))
                || place_threatens(place, routines, variable)
        }
    }
}

/// Whether what is given for a parameter of this mode is threatened.
pub(crate) fn mode_threatens(mode: FormalMode) -> bool
    ensures { result ≡ spec.mode_threatens mode }
{
    match mode {
        FormalMode::Variable => true,
        FormalMode::Value | FormalMode::ProtectedValue | FormalMode::ProtectedVariable => false,
    }
}

/// Whether it is this entire variable.
pub fn is_same(variable: Entire<'_>, other: &EntireVariable) -> bool
    ensures { result ≡ spec.is_variable (entire_of variable.entry) (entire (viewed.entire_of other.now)) }
{
    match (variable, other) {
        (Entire::Variable(unit, number), EntireVariable::Unit(other, own)) => {
            unit.bytes() == other.bytes() && number == *own
        }
        (Entire::Own(up, number), EntireVariable::Own(other, own)) => {
            up == *other && number == *own
        }
        _ => false,
    }
}

/// Whether a place is that of the variable, or of a component of it.
#[cycle(places)]
pub(crate) fn is_variable(variable: Entire<'_>, place: &TypedPlace) -> bool
    ensures { result ≡ spec.is_variable (entire_of variable.entry) (place_of place.now) }
{
    match (variable, place) {
        (Entire::Variable(unit, number), TypedPlace::Variable(other, own)) => {
            unit.bytes() == other.bytes() && number == *own
        }
        (Entire::Own(up, number), TypedPlace::Own(other, own)) => up == *other && number == *own,
        (
            _,
            TypedPlace::Indexed(whole, _)
            | TypedPlace::Field(whole, _)
            | TypedPlace::Variant(whole, _, _),
        ) => is_variable(variable, whole.get()),
        _ => false,
    }
}

/// Whether a statement part has an assignment to this name, by the text: the name alone, in the statements or in any
/// statement inside of them (ISO 10206, 6.7.2 and 6.9.2.2).
#[cycle(assignments)]
pub fn assigns(name: &Name, statements: &Compound) -> bool
    ensures { result ≡ spec.assigns name.now statements.now }
{
    any_assigns(name, statements.statements.items())
}

/// Whether one of these statements assigns to the name.
#[cycle(assignments)]
fn any_assigns(name: &Name, all: &[Statement]) -> bool
    ensures { result ≡ any_true (map (statement_assigns name.now) all.now) }
{
    for s in all {
        if statement_assigns(name, s) {
            return true;
        }
    }
    false
}

/// Whether a statement, or one inside of it, assigns to the name.
#[cycle(assignments)]
fn statement_assigns(name: &Name, s: &Statement) -> bool
    ensures { result ≡ statement_assigns name.now s.now }
{
    match s {
        Statement::Empty(_) | Statement::Call(_, _) => false,
        Statement::Assignment(_, access, _) => is_bare(name, access),
        Statement::Compound(c) => assigns(name, c),
        Statement::If(_, _, then, None) => statement_assigns(name, then.get()),
        Statement::If(_, _, then, Some(other)) => {
            statement_assigns(name, then.get()) || statement_assigns(name, other.get())
        }
        Statement::Case(_, _, arms, None) => any_arm_assigns(name, arms.items()),
        Statement::Case(_, _, arms, Some(other)) => {
            any_arm_assigns(name, arms.items()) || any_assigns(name, other.statements.items())
        }
        Statement::Repeat(_, all, _) => any_assigns(name, all.items()),
        Statement::While(_, _, body) => statement_assigns(name, body.get()),
        Statement::For(_, _, _, _, _, body) => statement_assigns(name, body.get()),
        Statement::ForIn(_, _, _, body) => statement_assigns(name, body.get()),
        Statement::With(_, _, body) => statement_assigns(name, body.get()),
    }
}

/// Whether the statement of one of these arms does.
#[cycle(assignments)]
fn any_arm_assigns(name: &Name, all: &[Arm]) -> bool
    ensures { result ≡ any_true (map (arm_assigns name.now) all.now) }
{
    for a in all {
        if arm_assigns(name, a) {
            return true;
        }
    }
    false
}

/// Whether the statement of an arm does.
#[cycle(assignments)]
fn arm_assigns(name: &Name, a: &Arm) -> bool
    ensures { result ≡ arm_assigns name.now a.now }
{
    statement_assigns(name, a.body.get())
}

/// Whether an access is this name without selectors.
fn is_bare(name: &Name, access: &Access) -> bool
    ensures { result ≡ spec.is_bare name.now access.now }
{
    match access.selectors.items() {
        [] => access.name.bytes() == name.bytes(),
        _ => false,
    }
}
