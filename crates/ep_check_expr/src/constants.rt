//! Constant expressions.

ghost use Rattle.std.specs.Prelude.{◌≡◌, IsTrue, None};
ghost use Rattle.ep_built.specs.Built.{component_value_unbuilt, expression_unbuilt};
ghost use Rattle.ep_rules.specs.Answers.{typed_of, AnswersJudged};
ghost use Rattle.ep_tree.specs.declared.expression.ComponentValue.{out-ComponentValue};
ghost use Rattle.ep_check_expr.specs.Constants.{as_constant, bound_judged, constant_by, constant_expression, constant_judged, initial_state_judged, is_access, known, label_judged, may_be_constant, nesting, purpose_of, unbuilt_form, unbuilt_of, varying};
ghost use Rattle.ep_rules.specs.Names.{is_one_of};
ghost use Rattle.ep_rules.specs.Judgements.{Accepts};

use crate::expressions::{typed_expression, typed_value};
use crate::shapes::bare;
use crate::structured_constants::{ConstantValue, NoConstant, constancy};
use ep_base::Bytes;
use ep_rules::{Access, Refusal, Typed};
use ep_scope::{Kind, View, rule};
use ep_tree::{ComponentValue, Expression, Factor};
use ep_typed::{TypedExpr, Value};
use std::alloc::Global;

/// The value of a constant expression, its kind, and whether the expression is built. The value of one that is not built
/// stands for none.
pub struct ConstantForm {
    /// The value.
    pub value: Value,
    /// The kind.
    pub kind: Kind,
    /// How deep the form nests for which the name of such a constant stands.
    pub depth: u32,
    /// Whether it is built.
    pub built: bool,
}

/// What a constant is asked for.
#[derive(Clone, Copy, Drop)]
pub enum Purpose {
    /// The value of a constant definition that may be a structured value.
    Definition,
    /// The value of another constant definition, or a constant expression.
    Expression,
    /// A bound of a subrange.
    Bound,
    /// An end of a label of a `case`.
    Label,
    /// An initial state.
    InitialState,
}

impl Purpose {
    /// The rule that fails where a variable is read or a function is called.
    fn varying(self) -> u32
        ensures { IsTrue (is_one_of result (varying self)) }
    {
        match self {
            Purpose::Definition => rule::CONSTANT,
            Purpose::Expression => rule::CONSTANT,
            Purpose::Bound => rule::BOUND_CONSTANT,
            Purpose::Label => rule::CASE_LABELS,
            Purpose::InitialState => rule::INITIAL_STATE,
        }
    }
}

impl Drop for ConstantForm {
    fn drop(self) {
        let ConstantForm {
            value: _,
            kind: _,
            depth: _,
            built: _,
        } = self;
    }
}

impl ConstantForm {
    /// The value alone.
    pub fn into_value(self) -> Value
        ensures { result ≡ self.value }
    {
        let ConstantForm {
            value,
            kind: _,
            depth: _,
            built: _,
        } = self;
        value
    }
}

/// The value of a constant definition, or a rule that fails in it. The forms of the expression are all built.
pub fn constant_value(
    alloc: Global,
    tree: &ComponentValue,
    scopes: &View<'_>,
) -> Result<ConstantForm, Refusal>
    requires { component_value_unbuilt tree.now ≡ None }
    ensures form { AnswersJudged (λ c. c) result (constant_judged scopes.now tree.now) }
{
    let typed = typed_value(alloc, tree, None, scopes)?;
    as_constant(alloc, purpose_of(tree), &typed, scopes)
}

/// What the value of a constant definition is asked for.
fn purpose_of(tree: &ComponentValue) -> Purpose
    ensures { result ≡ purpose_of (out-ComponentValue tree.now) }
{
    match tree {
        ComponentValue::Expression(e) if is_access(e.get()) => Purpose::Expression,
        _ => Purpose::Definition,
    }
}

/// Whether an expression is a name with what is selected of it, and nothing more.
fn is_access(e: &Expression) -> bool
    ensures { result ≡ is_access e.now }
{
    match bare(e) {
        Some(Factor::Access(_)) => true,
        _ => false,
    }
}

/// The value of a constant expression, alike.
pub fn constant_expression_value(
    alloc: Global,
    tree: &Expression,
    scopes: &View<'_>,
) -> Result<ConstantForm, Refusal>
    requires { expression_unbuilt tree.now ≡ None }
    ensures form { AnswersJudged (λ c. c) result (constant_expression scopes.now tree.now) }
{
    let typed = typed_expression(alloc, tree, scopes)?;
    as_constant(alloc, Purpose::Expression, &typed, scopes)
}

/// The value of a bound outside of a schema, alike.
pub fn bound_value(
    alloc: Global,
    tree: &Expression,
    scopes: &View<'_>,
) -> Result<ConstantForm, Refusal>
    requires { expression_unbuilt tree.now ≡ None }
    ensures form { AnswersJudged (λ c. c) result (bound_judged scopes.now tree.now) }
{
    let typed = typed_expression(alloc, tree, scopes)?;
    as_constant(alloc, Purpose::Bound, &typed, scopes)
}

/// The value of an end of a label of a `case`, alike.
pub fn label_value(
    alloc: Global,
    tree: &Expression,
    scopes: &View<'_>,
) -> Result<ConstantForm, Refusal>
    requires { expression_unbuilt tree.now ≡ None }
    ensures form { AnswersJudged (λ c. c) result (label_judged scopes.now tree.now) }
{
    let typed = typed_expression(alloc, tree, scopes)?;
    as_constant(alloc, Purpose::Label, &typed, scopes)
}

/// The value of an initial state, alike, where a value of a structured type may be asked for.
pub fn initial_state_value(
    alloc: Global,
    tree: &ComponentValue,
    asked: Option<u32>,
    scopes: &View<'_>,
) -> Result<ConstantForm, Refusal>
    requires { component_value_unbuilt tree.now ≡ None }
    ensures form { AnswersJudged (λ c. c) result (initial_state_judged scopes.now asked tree.now) }
{
    let typed = typed_value(alloc, tree, asked, scopes)?;
    as_constant(alloc, Purpose::InitialState, &typed, scopes)
}

/// What a form that is accepted is as a constant.
pub(crate) fn as_constant(
    alloc: Global,
    purpose: Purpose,
    t: &Typed,
    scopes: &View<'_>,
) -> Result<ConstantForm, Refusal>
    ensures { AnswersJudged (λ c. c) result (as_constant scopes.now purpose (typed_of t.now)) }
{
    let Some(form) = &t.form else {
        return unbuilt_form(alloc, purpose, &t.access, t.kind);
    };
    match form.get() {
        TypedExpr::Text(bytes) => {
            let copy = Bytes::from_slice(alloc, bytes.items())?;
            Ok(known(t.kind, Value::Text(copy), 1))
        }
        other => constant_by(purpose, t.kind, t.depth, constancy(alloc, other, scopes)?),
    }
}

/// A form that is not built, as a constant.
fn unbuilt_form(
    alloc: Global,
    purpose: Purpose,
    access: &Access,
    kind: Kind,
) -> Result<ConstantForm, Refusal>
    ensures { AnswersJudged (λ c. c) result (unbuilt_form purpose access.now kind) }
{
    if may_be_constant(purpose, access, kind) {
        Ok(unbuilt_of(alloc, kind))
    } else {
        Err(Refusal::Rule(rule::CONSTANT))
    }
}

/// Whether a form that is not built may be constant.
fn may_be_constant(purpose: Purpose, access: &Access, kind: Kind) -> bool
    ensures { result ≡ may_be_constant purpose access.now kind }
{
    match (purpose, access, kind) {
        (Purpose::Definition | Purpose::InitialState, _, _) => true,
        (_, Access::Constant, _) => true,
        (_, _, Kind::Structured(_)) => false,
        _ => true,
    }
}

/// A constant by what it is as a value.
fn constant_by(
    purpose: Purpose,
    kind: Kind,
    depth: u32,
    constancy: Result<ConstantValue, NoConstant>,
) -> Result<ConstantForm, Refusal>
    ensures { AnswersJudged (λ c. c) result (constant_by purpose kind depth constancy) }
{
    match constancy {
        Ok(value) => {
            let depth = nesting(&value, depth);
            Ok(known(kind, value.into_value(), depth))
        }
        Err(NoConstant::Varies) => Err(Refusal::Rule(purpose.varying())),
        Err(NoConstant::Errs) => Err(Refusal::Rule(rule::CONSTANT)),
    }
}

/// How deep the form of a constant nests, of an expression of this depth.
fn nesting(value: &ConstantValue, depth: u32) -> u32
    ensures { result ≡ nesting value.now depth }
{
    match value {
        ConstantValue::Known(_) => 1,
        ConstantValue::Structured(_, _) => depth,
    }
}

/// A constant with its value.
fn known(kind: Kind, value: Value, depth: u32) -> ConstantForm
    ensures { known kind value depth ≡ Accepts result }
{
    ConstantForm {
        value,
        kind,
        depth,
        built: true,
    }
}

/// A constant that is not built, with what stands for its value.
fn unbuilt_of(alloc: Global, kind: Kind) -> ConstantForm
    ensures { unbuilt_of kind ≡ Accepts result }
{
    let value = match kind {
        Kind::Ordinal(_) => Value::Word(0),
        Kind::Structured(_) => Value::Text(Bytes::new(alloc)),
        Kind::Set(_) => Value::Set(Bytes::new(alloc)),
        Kind::EmptySet => Value::Set(Bytes::new(alloc)),
        Kind::Text => Value::Text(Bytes::new(alloc)),
        Kind::File => Value::Text(Bytes::new(alloc)),
    };
    ConstantForm {
        value,
        kind,
        depth: 1,
        built: false,
    }
}
