//! What is answered of an expression on its own.

ghost use Rattle.std.specs.Prelude.{◌≡◌, IfOk};
ghost use Rattle.ep_built.specs.Built.{expression_unbuilt};
ghost use Rattle.ep_tree.specs.declared.expression.Expression.{out-Expression};
ghost use Rattle.ep_check_expr.specs.Constants.{constant_expression};
ghost use Rattle.ep_check_expr.specs.Expressions.{judged};
ghost use Rattle.ep_expr_laws.specs.Public.{AnswersExpression, AnswersConstant, IsValidForm, IsValidConstant, UnlessUnbuilt, refused};

use ep_base::Line;
use ep_built::expression_unbuilt;
use ep_check_expr::{Broken, constant_expression_value, typed_expression};
use ep_rules::Refusal;
use ep_scope::{Scope, View};
use ep_tree::Expression;
use ep_typed::{TypedExpr, Value};
use std::alloc::Global;

/// Why an expression has no typed form.
#[derive(Clone, Copy, Drop)]
pub enum ExpressionRefusal {
    /// A static rule fails.
    Broken(Broken),
    /// A node that begins on this line has a form that is not built; or no rule fails, and the
    /// expression, whose first token is on this line, has no code yet.
    NotBuilt(Line),
    /// Memory is wanting.
    NoMemory,
}

/// The typed form of an expression. It is refused as `NotBuilt`, with the line of the first node
/// that is not built, exactly where there is one: no rule is tried then, and no memory is taken. Else
/// it is `Broken` exactly where rules fail, with one of them, and `NotBuilt` exactly where none fails
/// and it has no code yet, both with the line of its first token; where memory is wanting, `NoMemory`
/// takes the place of each of these answers.
pub fn expression(
    alloc: Global,
    tree: &Expression,
    scopes: &[Scope],
) -> Result<TypedExpr, ExpressionRefusal>
    ensures judged { UnlessUnbuilt (expression_unbuilt tree.now) result
        (AnswersExpression result (out-Expression tree.now).line (judged scopes.now tree.now)) }
    ensures valid { IfOk result (λ e. IsValidForm scopes.now (judged scopes.now tree.now)) }
{
    expression_in_view(alloc, tree, &View::of(scopes))
}

/// The value of a constant expression. The refusals come as those of `expression`.
pub fn constant(
    alloc: Global,
    tree: &Expression,
    scopes: &[Scope],
) -> Result<Value, ExpressionRefusal>
    ensures judged { UnlessUnbuilt (expression_unbuilt tree.now) result
        (AnswersConstant result (out-Expression tree.now).line (constant_expression scopes.now tree.now)) }
    ensures valid { IfOk result (λ v. IsValidConstant scopes.now (constant_expression scopes.now tree.now)) }
{
    constant_in_view(alloc, tree, &View::of(scopes))
}

/// The typed form of an expression in view of these scopes.
fn expression_in_view(
    alloc: Global,
    tree: &Expression,
    scopes: &View<'_>,
) -> Result<TypedExpr, ExpressionRefusal>
    ensures judged { UnlessUnbuilt (expression_unbuilt tree.now) result
        (AnswersExpression result (out-Expression tree.now).line (judged scopes.now tree.now)) }
    ensures valid { IfOk result (λ e. IsValidForm scopes.now (judged scopes.now tree.now)) }
{
    if let Some(line) = expression_unbuilt(tree) {
        return Err(ExpressionRefusal::NotBuilt(line));
    }
    match typed_expression(alloc, tree, scopes) {
        Ok(typed) => match typed.into_form() {
            Some(form) => Ok(form.into_inner()),
            None => Err(ExpressionRefusal::NotBuilt(tree.line)),
        },
        Err(refusal) => Err(refused(refusal, tree.line)),
    }
}

/// The value of a constant expression in view of these scopes.
fn constant_in_view(
    alloc: Global,
    tree: &Expression,
    scopes: &View<'_>,
) -> Result<Value, ExpressionRefusal>
    ensures judged { UnlessUnbuilt (expression_unbuilt tree.now) result
        (AnswersConstant result (out-Expression tree.now).line (constant_expression scopes.now tree.now)) }
    ensures valid { IfOk result (λ v. IsValidConstant scopes.now (constant_expression scopes.now tree.now)) }
{
    if let Some(line) = expression_unbuilt(tree) {
        return Err(ExpressionRefusal::NotBuilt(line));
    }
    match constant_expression_value(alloc, tree, scopes) {
        Ok(form) => {
            if form.built {
                Ok(form.into_value())
            } else {
                Err(ExpressionRefusal::NotBuilt(tree.line))
            }
        }
        Err(refusal) => Err(refused(refusal, tree.line)),
    }
}

/// A refusal with its line.
fn refused(refusal: Refusal, line: Line) -> ExpressionRefusal
    ensures { result ≡ refused refusal line }
{
    match refusal {
        Refusal::Rule(rule) => ExpressionRefusal::Broken(Broken { rule, line }),
        Refusal::NoMemory => ExpressionRefusal::NoMemory,
    }
}
