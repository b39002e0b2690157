//! What a `for` statement over the members of a set goes by (ISO 10206, 6.9.3.9.3).

ghost use Rattle.std.specs.Prelude.{◌≡◌, IfOk, None, Option, map};
ghost use Rattle.std.specs.List.{list_any};
ghost use Rattle.std.specs.Option.{option_map};
ghost use Rattle.ep_built.specs.Built.{expression_unbuilt};
ghost use Rattle.ep_typed.specs.Trees as tree;
ghost use Rattle.ep_typed.specs.Trees.{Stmt};
ghost use Rattle.ep_typed.specs.Viewed as viewed;
ghost use Rattle.ep_typed.specs.Viewed.{expr_of, member_control_of, stmt_of};
ghost use Rattle.ep_check_expr.specs.Expressions.{judged};
ghost use Rattle.ep_rules.specs.Judgements.{Judged, when_accepted};
ghost use Rattle.ep_stmt_rules.specs.Answers.{AnswersForm, AnswersRow, counted_of, locals_of, member_head_of};
ghost use Rattle.ep_threats.specs.Variables.{entire_of};
ghost use Rattle.ep_threats.specs.Callees.{callees_among, callees_of};
ghost use Rattle.ep_stmt_rules.specs.Statements as spec;
ghost use Rattle.ep_stmt_rules.specs.Statements.{Judgement, for_in_row, member_control, member_threat, members_judged, block_variable, set_judged, unless_threatening};

use crate::loops::Counted;
use crate::outcome::Admission;
use crate::statements::{Locals, Row};
use ep_base::{Boxed, Line, NoMemory};
use ep_check_expr::typed_expression;
use ep_rules::{Refusal, given_value};
use ep_scope::{Host, Kind, View, rule};
use ep_threats::{Callees, Entire, Routines, expr_threatens, is_same};
use ep_tree::Expression;
use ep_typed::{EntireVariable, MemberControl, TypedExpr, TypedStmt};
use std::alloc::Global;

/// A `for` statement over members without its body: what it goes by, and the set.
pub struct MemberHead {
    /// What it goes by.
    control: Boxed<MemberControl>,
    /// The set.
    set: Boxed<TypedExpr>,
}

impl Drop for MemberHead {
    fn drop(self) {
        let MemberHead { control: _, set: _ } = self;
    }
}

impl MemberHead {
    /// The statement with this body.
    fn into_statement(self, line: Line, body: Boxed<TypedStmt>) -> TypedStmt
        ensures { stmt_of result
            ≡ tree.ForIn line (member_head_of self).control (member_head_of self).set (stmt_of body) }
    {
        let MemberHead { control, set } = self;
        TypedStmt::ForIn(line, control, set, body)
    }
}

/// The variable of this number, among those of the block.
pub(crate) fn block_variable(
    alloc: Global,
    locals: Locals<'_>,
    number: u32,
) -> Result<EntireVariable, NoMemory>
    ensures { IfOk result (λ v. viewed.entire_of v ≡ block_variable (locals_of locals.entry) number) }
{
    match locals {
        Locals::Unit(unit, _) => Ok(EntireVariable::Unit(unit.copy(alloc)?, number)),
        Locals::Routine(_, _, _) => Ok(EntireVariable::Own(0, number)),
    }
}

/// What a `for` over members with this control variable goes by.
fn member_control(
    alloc: Global,
    locals: Locals<'_>,
    number: u32,
    counted: Counted<'_>,
) -> Result<Boxed<MemberControl>, NoMemory>
    ensures { IfOk result (λ control.
        member_control_of control ≡ member_control (locals_of locals.entry) number (counted_of counted.entry)) }
{
    let variable = counted.variable.to_owned(alloc)?;
    let rest = block_variable(alloc, locals, number)?;
    Boxed::new(alloc, MemberControl { variable, rest })
}

/// A `for` statement over members of its head and its body, in order.
pub fn for_in_form(
    alloc: Global,
    line: Line,
    head: Row<MemberHead>,
    body: Row<Boxed<TypedStmt>>,
) -> Row<Boxed<TypedStmt>>
    ensures { (x : Judgement spec.MemberHead) (y : Judgement Stmt) → AnswersRow member_head_of head x
        → AnswersRow stmt_of body y → AnswersRow stmt_of result (for_in_row line x y) }
{
    match (head?, body?) {
        (Admission::Passes(head), Admission::Passes(body)) => {
            let form = Boxed::new(alloc, head.into_statement(line, body))?;
            Ok(Admission::Passes(form))
        }
        (Admission::Waits(first), _) => Ok(Admission::Waits(first)),
        (_, Admission::Waits(first)) => Ok(Admission::Waits(first)),
    }
}

/// Whether the head of a `for` over members threatens a control variable.
fn member_threatens(head: &MemberHead, routines: &Callees<'_>, control: Entire<'_>) -> bool
    ensures { result ≡ member_threat (callees_of routines.now) (entire_of control.entry)
        (member_head_of head.now) }
{
    is_same(control, &head.control.get().variable)
        || expr_threatens(head.set.get(), routines, control)
}

/// Whether it threatens one of these.
fn member_threatens_one(head: &MemberHead, routines: &Callees<'_>, controls: &[Entire<'_>]) -> bool
    ensures { result ≡ list_any (λ v. member_threat (callees_of routines.now) v (member_head_of head.now))
        (map entire_of controls.now) }
{
    for control in controls {
        if member_threatens(head, routines, *control) {
            return true;
        }
    }
    false
}

/// The head of a `for` over members with this control variable, over whose host the set is.
pub fn member_head(
    alloc: Global,
    scopes: &View<'_>,
    locals: Locals<'_>,
    members: u32,
    counted: Counted<'_>,
    set: &Expression,
) -> Result<Option<MemberHead>, Refusal>
    requires { expression_unbuilt set.now ≡ None }
    ensures { AnswersForm (option_map member_head_of) result
        (members_judged (locals_of locals.entry) members (counted_of counted.entry)
        (judged scopes.now set.now)) }
{
    let Some(set) = set_over(alloc, scopes, counted.host, set)? else {
        return Ok(None);
    };
    let control = member_control(alloc, locals, members, counted)?;
    Ok(Some(MemberHead { control, set }))
}

/// A set over this host, or the empty one.
fn set_over(
    alloc: Global,
    scopes: &View<'_>,
    host: Host,
    e: &Expression,
) -> Result<Option<Boxed<TypedExpr>>, Refusal>
    requires { expression_unbuilt e.now ≡ None }
    ensures { AnswersForm (option_map expr_of) result
        (when_accepted (set_judged host) (judged scopes.now e.now)) }
{
    let value = typed_expression(alloc, e, scopes)?;
    given_value(Kind::Set(host), value)
}

/// The head of a `for` over members, unless it threatens one of these control variables.
pub fn unless_member_threatens(
    routines: &Routines<'_>,
    controls: &[Entire<'_>],
    head: Result<Option<MemberHead>, Refusal>,
) -> Result<Option<MemberHead>, Refusal>
    ensures { (j : Judged (Option spec.MemberHead)) → AnswersForm (option_map member_head_of) head j
        → AnswersForm (option_map member_head_of) result
        (unless_threatening (member_threat (callees_among routines.now)) (map entire_of controls.now) j) }
{
    let Some(h) = head? else {
        return Ok(None);
    };
    if member_threatens_one(&h, &routines.callees(), controls) {
        return Err(Refusal::Rule(rule::CONTROL_THREATENED));
    }
    Ok(Some(h))
}
