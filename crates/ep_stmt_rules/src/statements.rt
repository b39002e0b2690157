//! The forms of statements of the forms of their parts.

ghost use Rattle.std.specs.Prelude.{◌≡◌, IsTrue};
ghost use Rattle.std.specs.Option.{option_copied, option_map};
ghost use Rattle.ep_scope.specs.Meanings.{meant_by};
ghost use Rattle.ep_tree.specs.declared.expression.Access.{out-Access};
ghost use Rattle.ep_typed.specs.Trees as tree;
ghost use Rattle.ep_typed.specs.Trees.{Expr, Stmt, Stmts};
ghost use Rattle.ep_typed.specs.Viewed.{expr_of, stmt_of};
ghost use Rattle.ep_rules.specs.Answers.{typed_of};
ghost use Rattle.ep_stmt_rules.specs.Answers.{AnswersForm, AnswersRow, fails_among, locals_of, stmts_of, target_of};
ghost use Rattle.ep_stmt_rules.specs.Statements as spec;
ghost use Rattle.ep_stmt_rules.specs.Statements.{Judgement, after, assigned, component_rules, formed, if_judged, repeat_judged, tested};

use crate::outcome::{Admission, CheckRefusal};
use crate::tags::assignment;
use crate::targets::Target;
use ep_base::{Boxed, Line, Name};
use ep_rules::{Refusal, Typed, given_value, undeclared};
use ep_scope::{Declaration, Host, Kind, Meaning, Required, rule};
use ep_tree::{Access, Argument, Selector};
use ep_typed::{TypedExpr, TypedStmt, TypedStmts};
use std::alloc::Global;

/// A function in whose block the statements are, maybe deeper, where its name is assigned to for the result (ISO 10206,
/// 6.7.2).
#[derive(Clone, Copy)]
pub struct FunctionResult {
    /// Its number among the routines of the unit.
    pub function: u32,
    /// How many routines are around its variables, itself among them.
    pub level: u32,
    /// The number of its variable that has the result.
    pub variable: u32,
    /// The kind of the result.
    pub kind: Kind,
}

/// The variables of a block, with the number of the first of its two auxiliary variables, which stand behind all of them
/// (ISO 10206, 6.9.3.9.2 and 6.5.3.3).
#[derive(Clone, Copy)]
pub enum Locals<'a> {
    /// Those of the unit of this name.
    Unit(&'a Name, u32),
    /// Those of the routine of the first number, of which the first one that its block declares has the second.
    Routine(u32, u32, u32),
}

/// An assignment of a value, in a block with these variables.
pub fn assigned(
    alloc: Global,
    locals: Locals<'_>,
    line: Line,
    target: Target,
    value: Typed,
) -> Result<Option<Boxed<TypedStmt>>, Refusal>
    ensures { AnswersForm (option_map stmt_of) result
        (assigned (locals_of locals.entry) line (target_of target) (typed_of value)) }
{
    let form = given_value(target.kind, value)?;
    match (target.into_receiver(), form) {
        (Some(receiver), Some(form)) => {
            Ok(Some(assignment(alloc, locals, line, receiver, form)?))
        }
        _ => Ok(None),
    }
}

/// The form of a condition.
pub fn tested(value: Typed) -> Result<Option<Boxed<TypedExpr>>, Refusal>
    ensures { AnswersForm (option_map expr_of) result (tested value.kind (typed_of value).form) }
{
    match value.kind {
        Kind::Ordinal(Host::Boolean) => Ok(value.into_form()),
        _ => Err(Refusal::Rule(rule::CONDITION)),
    }
}

/// What a row of items comes to.
pub type Row<T> = Result<Admission<T>, CheckRefusal>;

/// A compound statement of these.
pub fn compound_form(alloc: Global, statements: Row<TypedStmts>) -> Row<Boxed<TypedStmt>>
    ensures { (x : Judgement Stmts) → AnswersRow stmts_of statements x
        → AnswersRow stmt_of result (formed tree.Compound x) }
{
    match statements? {
        Admission::Passes(all) => {
            let form = Boxed::new(alloc, TypedStmt::Compound(all))?;
            Ok(Admission::Passes(form))
        }
        Admission::Waits(line) => Ok(Admission::Waits(line)),
    }
}

/// An `if` statement of these parts, in order.
pub fn if_form(
    alloc: Global,
    line: Line,
    condition: Row<Boxed<TypedExpr>>,
    then: Row<Boxed<TypedStmt>>,
    other: Row<Boxed<TypedStmt>>,
) -> Row<Boxed<TypedStmt>>
    ensures { (x : Judgement Expr) (y z : Judgement Stmt) → AnswersRow expr_of condition x
        → AnswersRow stmt_of then y → AnswersRow stmt_of other z
        → AnswersRow stmt_of result (if_judged line x y z) }
{
    match (condition?, then?, other?) {
        (Admission::Passes(condition), Admission::Passes(then), Admission::Passes(other)) => {
            let form = Boxed::new(alloc, TypedStmt::If(line, condition, then, other))?;
            Ok(Admission::Passes(form))
        }
        (Admission::Waits(first), _, _) => Ok(Admission::Waits(first)),
        (_, Admission::Waits(first), _) => Ok(Admission::Waits(first)),
        (_, _, Admission::Waits(first)) => Ok(Admission::Waits(first)),
    }
}

/// A `while` statement of these parts, in order.
pub fn while_form(
    alloc: Global,
    line: Line,
    condition: Row<Boxed<TypedExpr>>,
    body: Row<Boxed<TypedStmt>>,
) -> Row<Boxed<TypedStmt>>
    ensures { (x : Judgement Expr) (y : Judgement Stmt) → AnswersRow expr_of condition x
        → AnswersRow stmt_of body y → AnswersRow stmt_of result (after (tree.While line) x y) }
{
    match (condition?, body?) {
        (Admission::Passes(condition), Admission::Passes(body)) => {
            let form = Boxed::new(alloc, TypedStmt::While(line, condition, body))?;
            Ok(Admission::Passes(form))
        }
        (Admission::Waits(first), _) => Ok(Admission::Waits(first)),
        (_, Admission::Waits(first)) => Ok(Admission::Waits(first)),
    }
}

/// A `repeat` statement of these parts, the condition first, since it belongs to the statement itself.
pub fn repeat_form(
    alloc: Global,
    line: Line,
    condition: Row<Boxed<TypedExpr>>,
    statements: Row<TypedStmts>,
) -> Row<Boxed<TypedStmt>>
    ensures { (x : Judgement Expr) (y : Judgement Stmts) → AnswersRow expr_of condition x
        → AnswersRow stmts_of statements y → AnswersRow stmt_of result (repeat_judged line x y) }
{
    match (condition?, statements?) {
        (Admission::Passes(condition), Admission::Passes(all)) => {
            let form = Boxed::new(alloc, TypedStmt::Repeat(line, all, condition))?;
            Ok(Admission::Passes(form))
        }
        (Admission::Waits(first), _) => Ok(Admission::Waits(first)),
        (_, Admission::Waits(first)) => Ok(Admission::Waits(first)),
    }
}

/// The arguments of a call, which are none or stand in one pair of parentheses. What has other selectors is no call.
pub fn call_arguments(access: &Access) -> Option<&[Argument]>
    ensures { option_copied result ≡ spec.call_arguments (out-Access access.now).selectors }
{
    match access.selectors.items() {
        [] => Some(&[]),
        [Selector::Arguments(_, arguments)] => Some(arguments.items()),
        _ => None,
    }
}

/// A rule that fails where a component stands as a statement, behind a name that means this.
pub fn component_rule(name: &Name, meaning: Meaning<'_>) -> u32
    ensures { IsTrue (fails_among result (component_rules name.now (meant_by meaning.entry))) }
{
    match meaning {
        Meaning::Declared(declared) => match &declared.what {
            Declaration::Procedure(_) | Declaration::Function(_, _, _) => rule::PROCEDURE,
            _ => rule::OTHER_THING,
        },
        Meaning::Standard(_) => rule::OTHER_THING,
        Meaning::Required(Required::Function(_) | Required::Procedure(_)) => rule::PROCEDURE,
        Meaning::Required(_) | Meaning::Field(_) => rule::OTHER_THING,
        Meaning::Nothing => undeclared(name),
    }
}
