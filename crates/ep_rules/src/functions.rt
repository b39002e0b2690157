//! The rules of calls of the required functions, on arguments that are accepted.

ghost use Rattle.std.specs.Prelude.{◌≡◌};
ghost use Rattle.ep_rules.specs.Answers.{typed_of, AnswersTyped};
ghost use Rattle.ep_rules.specs.Functions.{takes, takes_count, card_by, of_integer, ordinal_by, stepped, applied_one, applied_two, one};

use crate::access::Access;
use crate::forms::{Refusal, Typed};
use crate::operators::is_integer;
use ep_scope::{Function, Host, Kind, rule};
use ep_values::Unary;
use std::alloc::Global;

/// Whether a function takes so many arguments.
pub fn takes(function: Function, arguments: usize) -> bool
    ensures { result ≡ takes function arguments }
{
    arguments == 1 || (takes_count(function) && arguments == 2)
}

/// Whether a function takes a count besides its value.
fn takes_count(function: Function) -> bool
    ensures { result ≡ takes_count function }
{
    match function {
        Function::Successor => true,
        Function::Predecessor => true,
        _ => false,
    }
}

/// A function of an integer.
fn of_integer(alloc: Global, operation: Unary, kind: Kind, x: Typed) -> Result<Typed, Refusal>
    ensures { AnswersTyped result (of_integer operation kind (typed_of x)) }
{
    if is_integer(x.kind) {
        Typed::unary(alloc, operation, kind, x)
    } else {
        Err(Refusal::Rule(rule::REQUIRED_ARGUMENT))
    }
}

/// `ord` of an ordinal value.
fn ordinal(alloc: Global, x: Typed) -> Result<Typed, Refusal>
    ensures { AnswersTyped result (ordinal_by x.kind (typed_of x)) }
{
    match x.kind {
        Kind::Ordinal(_) => Typed::unary(alloc, Unary::Same, Kind::Ordinal(Host::Integer), x),
        Kind::Structured(_) => Err(Refusal::Rule(rule::REQUIRED_ARGUMENT)),
        Kind::Set(_) => Err(Refusal::Rule(rule::REQUIRED_ARGUMENT)),
        Kind::EmptySet => Err(Refusal::Rule(rule::REQUIRED_ARGUMENT)),
        Kind::Text => Err(Refusal::Rule(rule::REQUIRED_ARGUMENT)),
        Kind::File => Err(Refusal::Rule(rule::REQUIRED_ARGUMENT)),
    }
}

/// `succ`, or `pred` where the count is taken away.
fn stepped(alloc: Global, down: bool, x: Typed, count: Typed) -> Result<Typed, Refusal>
    ensures { AnswersTyped result (stepped down (typed_of x) (typed_of count)) }
{
    let Kind::Ordinal(host) = x.kind else {
        return Err(Refusal::Rule(rule::REQUIRED_ARGUMENT));
    };
    if is_integer(count.kind) {
        Typed::step(alloc, down, host, x, count)
    } else {
        Err(Refusal::Rule(rule::REQUIRED_ARGUMENT))
    }
}

/// `succ` or `pred` by one.
fn stepped_by_one(alloc: Global, down: bool, x: Typed) -> Result<Typed, Refusal>
    ensures { AnswersTyped result (stepped down (typed_of x) one) }
{
    let count = Typed::constant(alloc, 1, Kind::Ordinal(Host::Integer), Access::Value)?;
    stepped(alloc, down, x, count)
}

/// `card` of a set.
fn cardinality(alloc: Global, x: Typed) -> Result<Typed, Refusal>
    ensures { AnswersTyped result (card_by x.kind (typed_of x)) }
{
    match x.kind {
        Kind::Set(_) | Kind::EmptySet => Typed::cardinality(alloc, x),
        _ => Err(Refusal::Rule(rule::REQUIRED_ARGUMENT)),
    }
}

/// A call of one argument.
#[inline(never)]
pub fn applied_to_one(alloc: Global, function: Function, x: Typed) -> Result<Typed, Refusal>
    ensures { AnswersTyped result (applied_one function (typed_of x)) }
{
    let integer = Kind::Ordinal(Host::Integer);
    match function {
        Function::Absolute => of_integer(alloc, Unary::Absolute, integer, x),
        Function::Square => of_integer(alloc, Unary::Square, integer, x),
        Function::Odd => of_integer(alloc, Unary::Odd, Kind::Ordinal(Host::Boolean), x),
        Function::Ordinal => ordinal(alloc, x),
        Function::Character => { of_integer(alloc, Unary::Character, Kind::Ordinal(Host::Char), x) }
        Function::Successor => stepped_by_one(alloc, false, x),
        Function::Predecessor => stepped_by_one(alloc, true, x),
        Function::Cardinality => cardinality(alloc, x),
    }
}

/// A call of two arguments.
#[inline(never)]
pub fn applied_to_two(
    alloc: Global,
    function: Function,
    x: Typed,
    y: Typed,
) -> Result<Typed, Refusal>
    ensures { AnswersTyped result (applied_two function (typed_of x) (typed_of y)) }
{
    match function {
        Function::Successor => stepped(alloc, false, x, y),
        Function::Predecessor => stepped(alloc, true, x, y),
        _ => Err(Refusal::Rule(rule::ARGUMENTS)),
    }
}
