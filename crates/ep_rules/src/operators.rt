//! The rules of operators, on operands that are accepted.

ghost use Rattle.std.specs.Prelude.{◌≡◌, true};
ghost use Rattle.ep_tree.specs.declared.operator.MultiplyingOperator.TheVariants as times;
ghost use Rattle.ep_rules.specs.Answers.{typed_of, AnswersTyped};
ghost use Rattle.ep_rules.specs.Operators as spec;
ghost use Rattle.ep_rules.specs.Operators.{signed, negated, arithmetic, logical, short_circuit, sum_typed, comparison, added, multiplied, compared, are_compatible, are_sets, joint_kind, may_be_in, membership, on_sets_typed, related};

use crate::forms::{Refusal, Typed};
use ep_scope::{Host, Kind, rule, same_host};
use ep_tree::{AddingOperator, MultiplyingOperator, RelationalOperator, Sign};
use ep_values::{Binary, SetOperation, ShortOperation, Unary};
use std::alloc::Global;

/// Whether a value is an integer.
pub(crate) fn is_integer(kind: Kind) -> bool
    ensures { result ≡ spec.is_integer kind }
{
    match kind {
        Kind::Ordinal(Host::Integer) => true,
        _ => false,
    }
}

/// Whether a value is a Boolean.
fn is_boolean(kind: Kind) -> bool
    ensures { result ≡ spec.is_boolean kind }
{
    match kind {
        Kind::Ordinal(Host::Boolean) => true,
        _ => false,
    }
}

/// Whether a value is of a string type.
fn is_string(kind: Kind) -> bool
    ensures { result ≡ spec.is_string kind }
{
    match kind {
        Kind::Ordinal(Host::Char) => true,
        Kind::Text => true,
        _ => false,
    }
}

/// Whether two values are of one ordinal type.
pub fn are_compatible(x: Kind, y: Kind) -> bool
    ensures { result ≡ are_compatible x y }
{
    match (x, y) {
        (Kind::Ordinal(left), Kind::Ordinal(right)) => same_host(left, right),
        _ => false,
    }
}

/// Whether two values are sets over one host; the empty set is one over each.
pub(crate) fn are_sets(x: Kind, y: Kind) -> bool
    ensures { result ≡ are_sets x y }
{
    match (x, y) {
        (Kind::Set(left), Kind::Set(right)) => same_host(left, right),
        (Kind::Set(_), Kind::EmptySet) => true,
        (Kind::EmptySet, Kind::Set(_)) => true,
        (Kind::EmptySet, Kind::EmptySet) => true,
        _ => false,
    }
}

/// The kind of a set of what two such sets have.
fn joint_kind(x: Kind, y: Kind) -> Kind
    ensures { result ≡ joint_kind x y }
{
    match x {
        Kind::EmptySet => y,
        _ => x,
    }
}

/// Whether a value may be in a set, which is one over its host.
fn may_be_in(x: Kind, y: Kind) -> bool
    ensures { result ≡ may_be_in x y }
{
    match (x, y) {
        (Kind::Ordinal(left), Kind::Set(right)) => same_host(left, right),
        (Kind::Ordinal(_), Kind::EmptySet) => true,
        _ => false,
    }
}

/// `[ sign ] term`
#[inline(never)]
pub fn signed(alloc: Global, sign: Option<Sign>, x: Typed) -> Result<Typed, Refusal>
    ensures { AnswersTyped result (signed sign (typed_of x)) }
{
    let Some(sign) = sign else {
        return Ok(x);
    };
    if !is_integer(x.kind) {
        return Err(Refusal::Rule(rule::OPERANDS));
    }
    let operation = match sign {
        Sign::Plus => Unary::Same,
        Sign::Minus => Unary::Negate,
    };
    Typed::unary(alloc, operation, Kind::Ordinal(Host::Integer), x)
}

/// `not factor`
#[inline(never)]
pub fn negated(alloc: Global, x: Typed) -> Result<Typed, Refusal>
    ensures { AnswersTyped result (negated (typed_of x)) }
{
    if is_boolean(x.kind) {
        Typed::unary(alloc, Unary::Not, Kind::Ordinal(Host::Boolean), x)
    } else {
        Err(Refusal::Rule(rule::OPERANDS))
    }
}

/// An operation that takes and gives integers.
fn arithmetic(alloc: Global, operation: Binary, x: Typed, y: Typed) -> Result<Typed, Refusal>
    ensures { AnswersTyped result (arithmetic operation (typed_of x) (typed_of y)) }
{
    if is_integer(x.kind) && is_integer(y.kind) {
        Typed::binary(alloc, operation, Kind::Ordinal(Host::Integer), x, y)
    } else {
        Err(Refusal::Rule(rule::OPERANDS))
    }
}

/// An operation that takes and gives Booleans.
fn logical(alloc: Global, operation: Binary, x: Typed, y: Typed) -> Result<Typed, Refusal>
    ensures { AnswersTyped result (logical operation (typed_of x) (typed_of y)) }
{
    if is_boolean(x.kind) && is_boolean(y.kind) {
        Typed::binary(alloc, operation, Kind::Ordinal(Host::Boolean), x, y)
    } else {
        Err(Refusal::Rule(rule::OPERANDS))
    }
}

/// `and_then` and `or_else`, which take and give Booleans.
fn short_circuit(
    alloc: Global,
    operation: ShortOperation,
    x: Typed,
    y: Typed,
) -> Result<Typed, Refusal>
    ensures { AnswersTyped result (short_circuit operation (typed_of x) (typed_of y)) }
{
    if is_boolean(x.kind) && is_boolean(y.kind) {
        Typed::short(alloc, operation, Kind::Ordinal(Host::Boolean), x, y)
    } else {
        Err(Refusal::Rule(rule::OPERANDS))
    }
}

/// `+`, which besides joins strings.
fn sum(alloc: Global, x: Typed, y: Typed) -> Result<Typed, Refusal>
    ensures { AnswersTyped result (sum_typed (typed_of x) (typed_of y)) }
{
    if is_string(x.kind) && is_string(y.kind) {
        Typed::unbuilt(Kind::Text, x, y)
    } else {
        arithmetic(alloc, Binary::Add, x, y)
    }
}

/// An operation that makes a set of two over one host.
fn combined(alloc: Global, operation: SetOperation, x: Typed, y: Typed) -> Result<Typed, Refusal>
    requires { are_sets x.kind y.kind ≡ true }
    ensures { AnswersTyped result
        (on_sets_typed operation (joint_kind x.kind y.kind) (typed_of x) (typed_of y)) }
{
    let kind = joint_kind(x.kind, y.kind);
    Typed::on_sets(alloc, operation, kind, x, y)
}

/// `in`
fn membership(alloc: Global, x: Typed, y: Typed) -> Result<Typed, Refusal>
    ensures { AnswersTyped result (membership (typed_of x) (typed_of y)) }
{
    if may_be_in(x.kind, y.kind) {
        Typed::on_sets(alloc, SetOperation::In, Kind::Ordinal(Host::Boolean), x, y)
    } else {
        Err(Refusal::Rule(rule::OPERANDS))
    }
}

/// A comparison of two values of one host, or of two strings.
fn comparison(alloc: Global, operation: Binary, x: Typed, y: Typed) -> Result<Typed, Refusal>
    ensures { AnswersTyped result (comparison operation (typed_of x) (typed_of y)) }
{
    if are_compatible(x.kind, y.kind) {
        Typed::binary(alloc, operation, Kind::Ordinal(Host::Boolean), x, y)
    } else if is_string(x.kind) && is_string(y.kind) {
        Typed::unbuilt(Kind::Ordinal(Host::Boolean), x, y)
    } else {
        Err(Refusal::Rule(rule::OPERANDS))
    }
}

/// `simple adding-operator term` of two sets.
fn added_sets(alloc: Global, operator: AddingOperator, x: Typed, y: Typed) -> Result<Typed, Refusal>
    requires { are_sets x.kind y.kind ≡ true }
    ensures { AnswersTyped result (added operator (typed_of x) (typed_of y)) }
{
    match operator {
        AddingOperator::Plus => combined(alloc, SetOperation::Union, x, y),
        AddingOperator::Minus => combined(alloc, SetOperation::Difference, x, y),
        AddingOperator::Or => logical(alloc, Binary::Or, x, y),
        AddingOperator::SymmetricDifference => {
            combined(alloc, SetOperation::SymmetricDifference, x, y)
        }
        AddingOperator::OrElse => short_circuit(alloc, ShortOperation::OrElse, x, y),
    }
}

/// `simple adding-operator term`
#[inline(never)]
pub fn added(alloc: Global, operator: AddingOperator, x: Typed, y: Typed) -> Result<Typed, Refusal>
    ensures { AnswersTyped result (added operator (typed_of x) (typed_of y)) }
{
    if are_sets(x.kind, y.kind) {
        return added_sets(alloc, operator, x, y);
    }
    match operator {
        AddingOperator::Plus => sum(alloc, x, y),
        AddingOperator::Minus => arithmetic(alloc, Binary::Subtract, x, y),
        AddingOperator::Or => logical(alloc, Binary::Or, x, y),
        AddingOperator::SymmetricDifference => Err(Refusal::Rule(rule::OPERANDS)),
        AddingOperator::OrElse => short_circuit(alloc, ShortOperation::OrElse, x, y),
    }
}

/// `*`
fn product(alloc: Global, x: Typed, y: Typed) -> Result<Typed, Refusal>
    ensures { AnswersTyped result (multiplied times.Times (typed_of x) (typed_of y)) }
{
    if are_sets(x.kind, y.kind) {
        combined(alloc, SetOperation::Intersection, x, y)
    } else {
        arithmetic(alloc, Binary::Multiply, x, y)
    }
}

/// `term multiplying-operator factor`
#[inline(never)]
pub fn multiplied(
    alloc: Global,
    operator: MultiplyingOperator,
    x: Typed,
    y: Typed,
) -> Result<Typed, Refusal>
    ensures { AnswersTyped result (multiplied operator (typed_of x) (typed_of y)) }
{
    match operator {
        MultiplyingOperator::Times => product(alloc, x, y),
        MultiplyingOperator::Div => arithmetic(alloc, Binary::Divide, x, y),
        MultiplyingOperator::Mod => arithmetic(alloc, Binary::Modulo, x, y),
        MultiplyingOperator::And => logical(alloc, Binary::And, x, y),
        MultiplyingOperator::AndThen => short_circuit(alloc, ShortOperation::AndThen, x, y),
    }
}

/// A comparison of two sets over one host, or else of what may be compared alike.
fn related(
    alloc: Global,
    on_sets: SetOperation,
    operation: Binary,
    x: Typed,
    y: Typed,
) -> Result<Typed, Refusal>
    ensures { AnswersTyped result (related on_sets
        (comparison operation (typed_of x) (typed_of y)) (typed_of x) (typed_of y)) }
{
    if are_sets(x.kind, y.kind) {
        Typed::on_sets(alloc, on_sets, Kind::Ordinal(Host::Boolean), x, y)
    } else {
        comparison(alloc, operation, x, y)
    }
}

/// `simple relational-operator simple`
#[inline(never)]
pub fn compared(
    alloc: Global,
    operator: RelationalOperator,
    x: Typed,
    y: Typed,
) -> Result<Typed, Refusal>
    ensures { AnswersTyped result (compared operator (typed_of x) (typed_of y)) }
{
    match operator {
        RelationalOperator::Equal => related(alloc, SetOperation::Equal, Binary::Equal, x, y),
        RelationalOperator::NotEqual => {
            related(alloc, SetOperation::Unequal, Binary::Unequal, x, y)
        }
        RelationalOperator::Less => comparison(alloc, Binary::Less, x, y),
        RelationalOperator::Greater => comparison(alloc, Binary::Greater, x, y),
        RelationalOperator::AtMost => related(alloc, SetOperation::Subset, Binary::AtMost, x, y),
        RelationalOperator::AtLeast => {
            related(alloc, SetOperation::Superset, Binary::AtLeast, x, y)
        }
        RelationalOperator::In => membership(alloc, x, y),
    }
}
