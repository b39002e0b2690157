//! What a `for` statement counts with, and the control variables that are threatened in its body.

ghost use Rattle.std.specs.Prelude.{◌≡◌, IfOk, List, ◌∷◌, None, Option, map};
ghost use Rattle.std.specs.List.{list_any};
ghost use Rattle.std.specs.Option.{option_map};
ghost use Rattle.ep_built.specs.Built.{expression_unbuilt};
ghost use Rattle.ep_scope.specs.Scopes.{depth_in, meant};
ghost use Rattle.ep_typed.specs.Trees as tree;
ghost use Rattle.ep_typed.specs.Trees.{Expr, Stmt};
ghost use Rattle.ep_typed.specs.Viewed as viewed;
ghost use Rattle.ep_typed.specs.Viewed.{control_of, expr_of, stmt_of};
ghost use Rattle.ep_check_expr.specs.Expressions.{judged};
ghost use Rattle.ep_rules.specs.Judgements.{Judged, Accepts, both, when_accepted};
ghost use Rattle.ep_rules.specs.Operators.{map_both};
ghost use Rattle.ep_stmt_rules.specs.Answers.{AnswersForm, AnswersRow, counted_of, head_of, locals_of, named_of};
ghost use Rattle.ep_threats.specs.Variables.{entire_of};
ghost use Rattle.ep_threats.specs.Callees.{callees_among, callees_of};
ghost use Rattle.ep_threats.specs.RoutineForms.{routine_form};
ghost use Rattle.ep_stmt_rules.specs.Statements as spec;
ghost use Rattle.ep_stmt_rules.specs.Statements.{Judgement, bound_judged, bounds_judged, control_named, declared_control, declares_own, declares_variable, expr_threat, for_control, for_head, for_row, head_threat, initial_variable, last_variable, stmt_threat, unless_threatening};

use crate::outcome::Admission;
use crate::statements::{Locals, Row};
use ep_base::{Boxed, Line, List, Name, NoMemory};
use ep_check_expr::typed_expression;
use ep_rules::{Refusal, given_value, greatest, least, undeclared, unless_protected};
use ep_scope::{Declaration, Declared, Host, Kind, Meaning, View, depth_in, meaning_of, rule};
use ep_threats::{
    Callees, Entire, Routines, expr_threatens, inner_threatens, is_same, statement_threatens,
};
use ep_tree::{Direction, Expression};
use ep_typed::{EntireVariable, ForControl, TypedExpr, TypedStmt};
use std::alloc::{AllocError, Global};

/// A control variable, and the host of its type.
#[derive(Clone, Copy)]
pub struct Counted<'a> {
    /// The variable.
    pub variable: Entire<'a>,
    /// The host.
    pub host: Host,
}

/// A `for` statement without its body: what it counts with, and the initial and the final value.
pub struct ForHead {
    /// What it counts with.
    control: Boxed<ForControl>,
    /// The initial value.
    initial: Boxed<TypedExpr>,
    /// The final value.
    last: Boxed<TypedExpr>,
}

impl Drop for ForHead {
    fn drop(self) {
        let ForHead {
            control: _,
            initial: _,
            last: _,
        } = self;
    }
}

/// Whether the values fall.
pub fn falls_by(direction: Direction) -> bool
    ensures { result ≡ spec.falls_by direction }
{
    match direction {
        Direction::To => false,
        Direction::Downto => true,
    }
}

/// A control variable before those of the `for` statements around.
pub fn one_more<'a>(
    alloc: Global,
    control: Entire<'a>,
    controls: &[Entire<'a>],
) -> Result<List<Entire<'a>>, NoMemory>
    ensures { IfOk result (λ all. all ≡ control.entry ∷ controls.now) }
{
    let mut all = List::new(alloc);
    all.push(control)?;
    for other in controls {
        all.push(*other)?;
    }
    Ok(all)
}

// ---- control variables

/// Whether a variable of this unit is declared in the block.
fn declares_variable(locals: Locals<'_>, unit: &Name) -> bool
    ensures { result ≡ declares_variable (locals_of locals.entry) unit.now }
{
    match locals {
        Locals::Unit(own, _) => unit.bytes() == own.bytes(),
        Locals::Routine(_, _, _) => false,
    }
}

/// Whether a variable of a routine is declared in the block, whose code has a depth.
fn declares_own(locals: Locals<'_>, depth: u32, declared: &Declared) -> bool
    ensures { result ≡ declares_own (locals_of locals.entry) depth declared.now }
{
    match locals {
        Locals::Unit(_, _) => false,
        Locals::Routine(_, first, _) => declared.level == depth && first <= declared.number,
    }
}

/// A declared name as a control variable, which is a variable that the block declares (ISO 10206, 6.9.3.9.1), and the kind
/// of its type.
fn declared_control<'a>(
    locals: Locals<'_>,
    depth: u32,
    declared: &'a Declared,
) -> Result<(Entire<'a>, Kind), Refusal>
    ensures { AnswersForm named_of result
        (declared_control (locals_of locals.entry) depth declared.now declared.now.what) }
{
    match &declared.what {
        Declaration::Variable(_, kind, protection) if declares_variable(locals, &declared.unit) => {
            unless_protected(*protection)?;
            Ok((Entire::Variable(&declared.unit, declared.number), *kind))
        }
        Declaration::Own(_, kind, protection) if declares_own(locals, depth, declared) => {
            unless_protected(*protection)?;
            let up = depth.saturating_sub(declared.level);
            Ok((Entire::Own(up, declared.number), *kind))
        }
        _ => Err(Refusal::Rule(rule::CONTROL_VARIABLE)),
    }
}

/// A control variable with the kind of its type, which is ordinal.
pub fn counted_by<'a>(named: (Entire<'a>, Kind)) -> Result<Counted<'a>, Refusal>
    ensures { AnswersForm counted_of result
        (spec.counted_by (named_of named.entry).variable (named_of named.entry).kind) }
{
    let (variable, kind) = named;
    match kind {
        Kind::Ordinal(host) => Ok(Counted { variable, host }),
        _ => Err(Refusal::Rule(rule::ORDINAL)),
    }
}

/// Whether the block of one of these routines of the unit threatens a variable.
fn routines_threaten(routines: &Callees<'_>, variable: Entire<'_>) -> bool
    ensures { result ≡ list_any (λ r. stmt_threat (callees_of routines.now) (entire_of variable.entry) r.block)
        (map routine_form routines.now.own.now) }
{
    for routine in routines.own {
        if statement_threatens(&routine.block, routines, variable) {
            return true;
        }
    }
    false
}

/// Whether a routine of the block, however deep, threatens this variable of the block.
pub fn is_threatened_in(
    locals: Locals<'_>,
    routines: &Routines<'_>,
    variable: Entire<'_>,
) -> Result<bool, NoMemory>
    ensures { IfOk result (λ threatened. threatened ≡ spec.is_threatened_in (locals_of locals.entry)
        (callees_among routines.now) (entire_of variable.entry)) }
{
    match (locals, variable) {
        (Locals::Unit(_, _), Entire::Variable(unit, number)) => {
            match routines.threaten_of_unit(unit, number) {
                Some(threatened) => Ok(threatened),
                None => Ok(routines_threaten(&routines.callees(), variable)),
            }
        }
        (Locals::Unit(_, _), _) => Ok(routines_threaten(&routines.callees(), variable)),
        (Locals::Routine(routine, _, _), Entire::Own(_, number)) => {
            match routines.threaten_of_routine(routine, number) {
                Some(threatened) => Ok(threatened),
                None => inner_threatens(routine, routines.table(), routines.given(), number),
            }
        }
        _ => Ok(false),
    }
}

// ---- the head

/// The auxiliary variables, for the initial and for the final value.
fn auxiliaries(
    alloc: Global,
    locals: Locals<'_>,
) -> Result<(EntireVariable, EntireVariable), NoMemory>
    ensures { IfOk result (λ both. (viewed.entire_of both.0 ≡ initial_variable (locals_of locals.entry))
        × (viewed.entire_of both.1 ≡ last_variable (locals_of locals.entry))) }
{
    match locals {
        Locals::Unit(unit, number) => {
            let Some(next) = number.checked_add(1) else {
                return Err(AllocError);
            };
            let (first, second) = (unit.copy(alloc)?, unit.copy(alloc)?);
            Ok((
                EntireVariable::Unit(first, number),
                EntireVariable::Unit(second, next),
            ))
        }
        Locals::Routine(_, _, number) => match number.checked_add(1) {
            None => Err(AllocError),
            Some(next) => Ok((EntireVariable::Own(0, number), EntireVariable::Own(0, next))),
        },
    }
}

/// What a `for` with this control variable counts with.
fn for_control(
    alloc: Global,
    locals: Locals<'_>,
    counted: Counted<'_>,
    falls: bool,
) -> Result<Boxed<ForControl>, NoMemory>
    ensures { IfOk result (λ control.
        control_of control ≡ for_control (locals_of locals.entry) falls (counted_of counted.entry)) }
{
    let variable = counted.variable.to_owned(alloc)?;
    let (initial, last) = auxiliaries(alloc, locals)?;
    Boxed::new(
        alloc,
        ForControl {
            variable,
            initial,
            last,
            falls,
            low: least(counted.host),
            high: greatest(counted.host),
        },
    )
}

/// The head of a `for` of these bounds, where both are built.
fn for_head(
    alloc: Global,
    locals: Locals<'_>,
    counted: Counted<'_>,
    falls: bool,
    start: Result<Option<Boxed<TypedExpr>>, Refusal>,
    end: Result<Option<Boxed<TypedExpr>>, Refusal>,
) -> Result<Option<ForHead>, Refusal>
    ensures { (x y : Judged (Option Expr)) → AnswersForm (option_map expr_of) start x
        → AnswersForm (option_map expr_of) end y → AnswersForm (option_map head_of) result
        (both (λ a b. Accepts (map_both (for_head (locals_of locals.entry) falls (counted_of counted.entry)) a b)) x y) }
{
    match (start?, end?) {
        (Some(initial), Some(last)) => {
            let control = for_control(alloc, locals, counted, falls)?;
            Ok(Some(ForHead {
                control,
                initial,
                last,
            }))
        }
        _ => Ok(None),
    }
}

/// A `for` statement of its head and its body, in order.
pub fn for_form(
    alloc: Global,
    line: Line,
    head: Row<ForHead>,
    body: Row<Boxed<TypedStmt>>,
) -> Row<Boxed<TypedStmt>>
    ensures { (x : Judgement spec.ForHead) (y : Judgement Stmt) → AnswersRow head_of head x
        → AnswersRow stmt_of body y → AnswersRow stmt_of result (for_row line x y) }
{
    match (head?, body?) {
        (Admission::Passes(head), Admission::Passes(body)) => {
            let form = Boxed::new(alloc, head.into_statement(line, body))?;
            Ok(Admission::Passes(form))
        }
        (Admission::Waits(first), _) => Ok(Admission::Waits(first)),
        (_, Admission::Waits(first)) => Ok(Admission::Waits(first)),
    }
}

impl ForHead {
    /// The statement with this body.
    fn into_statement(self, line: Line, body: Boxed<TypedStmt>) -> TypedStmt
        ensures { stmt_of result ≡ tree.For line (head_of self).control (head_of self).initial (head_of self).last
            (stmt_of body) }
    {
        let ForHead {
            control,
            initial,
            last,
        } = self;
        TypedStmt::For(line, control, initial, last, body)
    }
}

// ---- threats

/// Whether a statement threatens one of these control variables.
fn statement_threatens_one(s: &TypedStmt, routines: &Callees<'_>, controls: &[Entire<'_>]) -> bool
    ensures { result ≡ list_any (λ v. stmt_threat (callees_of routines.now) v (stmt_of s.now))
        (map entire_of controls.now) }
{
    for control in controls {
        if statement_threatens(s, routines, *control) {
            return true;
        }
    }
    false
}

/// Whether an expression threatens one of these control variables.
fn value_threatens_one(x: &TypedExpr, routines: &Callees<'_>, controls: &[Entire<'_>]) -> bool
    ensures { result ≡ list_any (λ v. expr_threat (callees_of routines.now) v (expr_of x.now))
        (map entire_of controls.now) }
{
    for control in controls {
        if expr_threatens(x, routines, *control) {
            return true;
        }
    }
    false
}

/// Whether the head of a `for` threatens a control variable.
fn head_threatens(head: &ForHead, routines: &Callees<'_>, control: Entire<'_>) -> bool
    ensures { result ≡ head_threat (callees_of routines.now) (entire_of control.entry) (head_of head.now) }
{
    is_same(control, &head.control.get().variable)
        || expr_threatens(head.initial.get(), routines, control)
        || expr_threatens(head.last.get(), routines, control)
}

/// Whether it threatens one of these.
fn head_threatens_one(head: &ForHead, routines: &Callees<'_>, controls: &[Entire<'_>]) -> bool
    ensures { result ≡ list_any (λ v. head_threat (callees_of routines.now) v (head_of head.now))
        (map entire_of controls.now) }
{
    for control in controls {
        if head_threatens(head, routines, *control) {
            return true;
        }
    }
    false
}

/// A name as a variable that the block declares.
pub fn control_named<'a>(
    scopes: &View<'a>,
    locals: Locals<'_>,
    name: &Name,
) -> Result<(Entire<'a>, Kind), Refusal>
    ensures { AnswersForm named_of result
        (control_named (locals_of locals.entry) (depth_in scopes.now) name.now
        (meant scopes.now name.now)) }
{
    match meaning_of(scopes, name) {
        Meaning::Declared(declared) => { declared_control(locals, depth_in(scopes)?, declared) }
        Meaning::Standard(_) => Err(Refusal::Rule(rule::CONTROL_VARIABLE)),
        Meaning::Required(_) => Err(Refusal::Rule(rule::CONTROL_VARIABLE)),
        Meaning::Field(_) => Err(Refusal::Rule(rule::CONTROL_VARIABLE)),
        Meaning::Nothing => Err(Refusal::Rule(undeclared(name))),
    }
}

/// The head of a `for` with this control variable, to whose host the bounds can be given.
pub fn head(
    alloc: Global,
    scopes: &View<'_>,
    locals: Locals<'_>,
    counted: Counted<'_>,
    falls: bool,
    start: &Expression,
    end: &Expression,
) -> Result<Option<ForHead>, Refusal>
    requires start { expression_unbuilt start.now ≡ None }
    requires end { expression_unbuilt end.now ≡ None }
    ensures { AnswersForm (option_map head_of) result
        (bounds_judged (locals_of locals.entry) falls (counted_of counted.entry)
        (judged scopes.now start.now) (judged scopes.now end.now)) }
{
    let initial = bound(alloc, scopes, counted.host, start);
    let last = bound(alloc, scopes, counted.host, end);
    for_head(alloc, locals, counted, falls, initial, last)
}

/// A bound, whose value can be given to a variable of this host.
fn bound(
    alloc: Global,
    scopes: &View<'_>,
    host: Host,
    e: &Expression,
) -> Result<Option<Boxed<TypedExpr>>, Refusal>
    requires { expression_unbuilt e.now ≡ None }
    ensures { AnswersForm (option_map expr_of) result
        (when_accepted (bound_judged host) (judged scopes.now e.now)) }
{
    let value = typed_expression(alloc, e, scopes)?;
    given_value(Kind::Ordinal(host), value)
}

/// The form of a statement without statements inside, unless it threatens one of these control variables.
pub fn unless_statement_threatens(
    routines: &Routines<'_>,
    controls: &[Entire<'_>],
    form: Result<Option<Boxed<TypedStmt>>, Refusal>,
) -> Result<Option<Boxed<TypedStmt>>, Refusal>
    ensures { (j : Judged (Option Stmt)) → AnswersForm (option_map stmt_of) form j
        → AnswersForm (option_map stmt_of) result
        (unless_threatening (stmt_threat (callees_among routines.now)) (map entire_of controls.now) j) }
{
    let Some(s) = form? else {
        return Ok(None);
    };
    if statement_threatens_one(s.get(), &routines.callees(), controls) {
        return Err(Refusal::Rule(rule::CONTROL_THREATENED));
    }
    Ok(Some(s))
}

/// The form of an expression of a statement, unless it threatens one of these.
pub fn unless_value_threatens(
    routines: &Routines<'_>,
    controls: &[Entire<'_>],
    form: Result<Option<Boxed<TypedExpr>>, Refusal>,
) -> Result<Option<Boxed<TypedExpr>>, Refusal>
    ensures { (j : Judged (Option Expr)) → AnswersForm (option_map expr_of) form j
        → AnswersForm (option_map expr_of) result
        (unless_threatening (expr_threat (callees_among routines.now)) (map entire_of controls.now) j) }
{
    let Some(x) = form? else {
        return Ok(None);
    };
    if value_threatens_one(x.get(), &routines.callees(), controls) {
        return Err(Refusal::Rule(rule::CONTROL_THREATENED));
    }
    Ok(Some(x))
}

/// The head of a `for`, unless it threatens one of these.
pub fn unless_head_threatens(
    routines: &Routines<'_>,
    controls: &[Entire<'_>],
    head: Result<Option<ForHead>, Refusal>,
) -> Result<Option<ForHead>, Refusal>
    ensures { (j : Judged (Option spec.ForHead)) → AnswersForm (option_map head_of) head j
        → AnswersForm (option_map head_of) result
        (unless_threatening (head_threat (callees_among routines.now)) (map entire_of controls.now) j) }
{
    let Some(h) = head? else {
        return Ok(None);
    };
    if head_threatens_one(&h, &routines.callees(), controls) {
        return Err(Refusal::Rule(rule::CONTROL_THREATENED));
    }
    Ok(Some(h))
}
